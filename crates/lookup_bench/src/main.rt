//! Measures lookups and scans on the users of the demo: prints how many of 1,000 users are found and a
//! checksum of their lines, and given the word `time` how long a lookup takes and how fast lines are written.
#![tactic(auto)]

ghost use Rattle.std.specs.Prelude.{◌≡◌, ◌≤◌};
ghost use Rattle.idl_profile.specs.Types.{root_of};
ghost use Rattle.idl_parse.specs.Parsed.{definition_of};
ghost use Rattle.evolve.specs.Lenses.{type_of_lens};
ghost use Rattle.cli_texts.specs.Demos.{demo_definition};

mod file;
mod lookups;
mod scans;
mod timing;
mod trouble;

use crate::file::{definition, users_file};
use crate::lookups::lookups;
use crate::scans::{lines, users};
use crate::timing::{ROUNDS, nanoseconds, speed};
use crate::trouble::Trouble;
use demo_table::id_path;
use evolve::{Lens, bind, root_lens};
use file_check::{Opened, open_frozen};
use std::env;
use std::time::Instant;
use thrift_idl::Definition;

/// How many users the checksum is of.
const USERS: u32 = 1000;

/// How many users are timed.
const TIMED_USERS: u32 = 100_000;

/// How many lookups are timed in a round.
const LOOKUPS: u32 = 1_000_000;

/// A sum of bytes that tells their order.
fn checksum(bytes: &[u8]) -> u64 {
    let mut sum = 0u64;
    for byte in bytes {
        sum = sum.wrapping_mul(31).wrapping_add(u64::from(*byte));
    }
    sum
}

/// Prints how many users are found, and the checksum of their lines.
fn print_sums(
    rt: &HostRuntime,
    def: &Definition,
    root: Lens<'_>,
    bytes: usize,
) -> Result<(), Trouble>
    requires demo { definition_of def.now ≡ demo_definition }
    requires root { type_of_lens root ≡ root_of (definition_of def.now) }
{
    let mut path = id_path(rt.alloc())?;
    let found = lookups(root, &mut path, USERS, USERS);
    let text = lines(rt.alloc(), users(rt.alloc(), def, root)?)?;
    let sum = checksum(text.as_bytes());
    println!(rt; "users {USERS} content {bytes} found {found} lines {sum}")?;
    Ok(())
}

/// Prints how long a lookup takes.
fn print_lookups(
    rt: &HostRuntime,
    def: &Definition,
    root: Lens<'_>,
    bytes: usize,
) -> Result<(), Trouble>
    requires demo { definition_of def.now ≡ demo_definition }
    requires root { type_of_lens root ≡ root_of (definition_of def.now) }
{
    let mut path = id_path(rt.alloc())?;
    let mut least = u64::MAX;
    let mut found = 0;
    for _ in 0..ROUNDS {
        let start = Instant::now(rt)?;
        found = lookups(root, &mut path, TIMED_USERS, LOOKUPS);
        least = least.min(nanoseconds(rt, start)?);
    }
    let each = least.wrapping_mul(1000) / u64::from(LOOKUPS);
    println!(rt; "proved, content of {bytes} bytes: lookup {each} ps, found {found}")?;
    Ok(())
}

/// Prints how fast lines are written.
fn print_scans(rt: &HostRuntime, def: &Definition, root: Lens<'_>) -> Result<(), Trouble>
    requires { type_of_lens root ≡ root_of (definition_of def.now) }
{
    let map = users(rt.alloc(), def, root)?;
    let mut least = u64::MAX;
    let mut len = 0;
    let mut sum = 0;
    for _ in 0..ROUNDS {
        let start = Instant::now(rt)?;
        let text = lines(rt.alloc(), map)?;
        least = least.min(nanoseconds(rt, start)?);
        len = text.len();
        sum = checksum(text.as_bytes());
    }
    let rate = speed(len, least);
    println!(rt; "proved, lines of {len} bytes: scan {rate} MB/s, sum {sum}")?;
    Ok(())
}

/// Prints what is asked for of an opened file.
fn print_opened(
    rt: &HostRuntime,
    timed: bool,
    def: &Definition,
    opened: &Opened<'_>,
) -> Result<(), Trouble>
    requires { definition_of def.now ≡ demo_definition }
{
    let plan = bind(rt.alloc(), def, opened)?;
    let root = root_lens(def, opened, &plan);
    let bytes = opened.content.len();
    if timed {
        print_lookups(rt, def, root, bytes)?;
        print_scans(rt, def, root)
    } else {
        print_sums(rt, def, root, bytes)
    }
}

/// Prints what is asked for of n users.
fn print_users(rt: &HostRuntime, timed: bool, n: u32) -> Result<(), Trouble>
    requires some { 1 ≤ n }
    requires few { n ≤ 100000 }
{
    let def = definition(rt.alloc())?;
    let bytes = users_file(rt.alloc(), &def, n)?;
    if bytes.len() as u64 >= 1 << 56 {
        return Err(Trouble::Long);
    }
    let opened = open_frozen(rt.alloc(), &bytes)?;
    print_opened(rt, timed, &def, &opened)
}

fn main(rt: HostRuntime) -> Result<(), Trouble> {
    for word in env::args(&rt)?.skip(1) {
        if word.as_str() == "time" {
            return print_users(&rt, true, TIMED_USERS);
        }
    }
    print_users(&rt, false, USERS)
}
