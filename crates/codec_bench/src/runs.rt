//! What is measured.

ghost use Rattle.std.specs.Prelude.{◌≡◌, IfOk};
ghost use Rattle.idl_parse.specs.Parsed.{definition_of};
ghost use Rattle.typed_tree.specs.References.{value_of_tree};
ghost use Rattle.codec_bench.specs.Users.{IsRootValue};

use crate::timing::{ROUNDS, microseconds, nanoseconds, speed};
use crate::trouble::Trouble;
use compact_codec::{decode, encode};
use content_check::check_content;
use freezer::{Frozen, freeze};
use std::alloc::{AllocError, Global};
use std::time::Instant;
use thrift_idl::Definition;
use typed_reading::{ValueFault, check};
use typed_tree::Tree;

/// Megabytes a second of the bytes that are read or written.
#[derive(Clone, Copy)]
pub(crate) struct ReadSpeeds {
    pub(crate) check: u64,
    pub(crate) decode: u64,
    pub(crate) encode: u64,
}

/// The bytes of the content, how many microseconds freezing takes, and megabytes a second of the content that are
/// checked.
#[derive(Clone, Copy)]
pub(crate) struct FreezeTimes {
    pub(crate) content: u64,
    pub(crate) freeze: u64,
    pub(crate) check: u64,
}

/// A sum of bytes that tells their order.
pub(crate) fn checksum(bytes: &[u8]) -> u64 {
    let mut sum = 0u64;
    for byte in bytes {
        sum = sum.wrapping_mul(31).wrapping_add(u64::from(*byte));
    }
    sum
}

/// The value of a definition's root that bytes spell.
#[inline(never)]
fn value(alloc: Global, def: &Definition, bytes: &[u8]) -> Result<Tree, ValueFault>
    ensures { IfOk result (λ tree. IsRootValue (definition_of def.now) (value_of_tree tree)) }
{
    decode(alloc, def.root(), bytes)
}

/// The canonical spelling of a value.
#[inline(never)]
fn spelling(alloc: Global, def: &Definition, tree: &Tree) -> Result<Vec<u8>, AllocError>
    requires { IsRootValue (definition_of def.now) (value_of_tree tree.now) }
{
    encode(alloc, def.root(), tree.top())
}

/// The least layout of a value, and its packing.
#[inline(never)]
fn freeze_value(alloc: Global, def: &Definition, tree: &Tree) -> Result<Frozen, AllocError>
    requires { IsRootValue (definition_of def.now) (value_of_tree tree.now) }
{
    freeze(alloc, def, tree.top())
}

/// The cells of the value that was frozen, by the check of its content.
#[inline(never)]
fn check_frozen(frozen: &Frozen) -> Result<u64, Trouble> {
    let content = frozen.content.as_slice();
    if content.len() as u64 >= 1 << 56 {
        return Err(Trouble::Long);
    }
    Ok(check_content(&frozen.layouts, content)?)
}

/// The canonical spelling of what bytes spell.
pub(crate) fn respelled(alloc: Global, def: &Definition, bytes: &[u8]) -> Result<Vec<u8>, Trouble> {
    let tree = value(alloc, def, bytes)?;
    Ok(spelling(alloc, def, &tree)?)
}

/// The content that what bytes spell freezes to.
pub(crate) fn frozen(alloc: Global, def: &Definition, bytes: &[u8]) -> Result<Vec<u8>, Trouble> {
    let tree = value(alloc, def, bytes)?;
    let frozen = freeze_value(alloc, def, &tree)?;
    Ok(frozen.content)
}

/// How fast bytes are checked and decoded, and their value encoded.
pub(crate) fn reads(
    rt: &HostRuntime,
    def: &Definition,
    bytes: &[u8],
) -> Result<ReadSpeeds, Trouble> {
    let mut checking = u64::MAX;
    let mut decoding = u64::MAX;
    let mut encoding = u64::MAX;
    for _ in 0..ROUNDS {
        let start = Instant::now(rt)?;
        check(rt.alloc(), def.root(), bytes)?;
        checking = checking.min(nanoseconds(rt, start)?);
        let start = Instant::now(rt)?;
        let tree = value(rt.alloc(), def, bytes)?;
        decoding = decoding.min(nanoseconds(rt, start)?);
        let start = Instant::now(rt)?;
        let written = spelling(rt.alloc(), def, &tree)?;
        encoding = encoding.min(nanoseconds(rt, start)?);
        if written.len() != bytes.len() {
            return Err(Trouble::Long);
        }
    }
    Ok(ReadSpeeds {
        check: speed(bytes.len(), checking),
        decode: speed(bytes.len(), decoding),
        encode: speed(bytes.len(), encoding),
    })
}

/// How long a value takes to be frozen, measured and packed, and how fast its content is checked.
pub(crate) fn freezes(
    rt: &HostRuntime,
    def: &Definition,
    bytes: &[u8],
) -> Result<FreezeTimes, Trouble> {
    let tree = value(rt.alloc(), def, bytes)?;
    let mut content = 0;
    let mut freezing = u64::MAX;
    let mut checking = u64::MAX;
    for _ in 0..ROUNDS {
        let start = Instant::now(rt)?;
        let frozen = freeze_value(rt.alloc(), def, &tree)?;
        freezing = freezing.min(microseconds(rt, start)?);
        let start = Instant::now(rt)?;
        check_frozen(&frozen)?;
        checking = checking.min(nanoseconds(rt, start)?);
        content = frozen.content.len();
    }
    Ok(FreezeTimes {
        content: content as u64,
        freeze: freezing,
        check: speed(content, checking),
    })
}
