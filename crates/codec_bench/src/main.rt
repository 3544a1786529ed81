//! Measures the codec and freezing on the users of the demo: prints checksums of 1,000 users, given the word
//! `time` how fast bytes are checked, decoded, encoded and frozen, and their content checked, and given the word `items` what
//! 64 MiB of small structs take.
#![tactic(auto)]

mod demo;
mod runs;
mod timing;
mod trouble;

use crate::demo::{DEFINITION, users};
use crate::runs::{checksum, freezes, reads, respelled};
use crate::trouble::Trouble;
use compact_codec::decode;
use std::alloc::Global;
use std::env;
use std::time::Instant;
use thrift_idl::{Definition, parse};
use typed_reading::ValueFault;

/// How many users the checksum is of.
const USERS: u32 = 1000;

/// How many users are timed.
const TIMED_USERS: u32 = 100_000;

/// A list of structs without fields.
const ITEMS: &str = "struct N {} struct G {1: list<N> l}";

/// How many bytes spell such a list at most: the limit of a value.
const ITEM_BYTES: u32 = 67_108_864;

/// The definition that a text means.
fn definition(alloc: Global, text: &str) -> Result<Definition, Trouble> {
    let bytes = text.as_bytes();
    if bytes.len() >= 0x8000_0000 {
        return Err(Trouble::Long);
    }
    Ok(parse(alloc, bytes)?)
}

/// Prints the checksum of what users freeze to, and of the spelling that they are written in.
fn print_sums(rt: &HostRuntime) -> Result<(), Trouble> {
    let def = definition(rt.alloc(), DEFINITION)?;
    let bytes = users(rt.alloc(), USERS)?;
    let spelled = checksum(&respelled(rt.alloc(), &def, &bytes)?);
    let content = checksum(&runs::frozen(rt.alloc(), &def, &bytes)?);
    println!(rt;
        "users {USERS} bytes {} spelled {spelled} content {content}",
        bytes.len()
    )?;
    Ok(())
}

/// Prints how fast users are read, written and frozen.
fn print_times(rt: &HostRuntime) -> Result<(), Trouble> {
    let def = definition(rt.alloc(), DEFINITION)?;
    let bytes = users(rt.alloc(), TIMED_USERS)?;
    let read = reads(rt, &def, &bytes)?;
    println!(rt;
        "proved, {} bytes: check {} MB/s, decode {} MB/s, encode {} MB/s",
        bytes.len(),
        read.check,
        read.decode,
        read.encode
    )?;
    let frozen = freezes(rt, &def, &bytes)?;
    println!(rt;
        "proved, content of {} bytes: freeze {} us, check {} MB/s",
        frozen.content, frozen.freeze, frozen.check
    )?;
    Ok(())
}

/// Prints for how many cells 64 MiB of structs of one byte are refused, and in how many microseconds.
fn print_items(rt: &HostRuntime) -> Result<(), Trouble> {
    let def = definition(rt.alloc(), ITEMS)?;
    let bytes = demo::small_structs(rt.alloc(), ITEM_BYTES)?;
    let start = Instant::now(rt)?;
    let told = match decode(rt.alloc(), def.root(), &bytes) {
        Err(ValueFault::TooManyCells { cells }) => cells,
        _ => 0,
    };
    let spent = timing::microseconds(rt, start)?;
    println!(rt;
        "proved, {} bytes of small structs: refused for {told} cells in {spent} us",
        bytes.len()
    )?;
    Ok(())
}

fn main(rt: HostRuntime) -> Result<(), Trouble> {
    for word in env::args(&rt)?.skip(1) {
        match word.as_str() {
            "time" => return print_times(&rt),
            "items" => return print_items(&rt),
            _ => {}
        }
    }
    print_sums(&rt)
}
