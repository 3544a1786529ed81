//! Parts of contents.

ghost use Rattle.std.specs.Prelude.{◌≡◌, ◌+◌, ◌*◌, ◌^◌, ◌<◌, ◌≤◌, ℕ, length, None};
ghost use Rattle.frozen_model.specs.Trees.{AList, ASet, AMap, IsKey};
ghost use Rattle.frozen_model.specs.Layouts.{stride};
ghost use Rattle.layout_tree.specs.Nodes.{IsNode, at};
ghost use Rattle.layout_tree.specs.Reading.{IsHolder, IsStruct, IsOptional, item_of};
ghost use Rattle.content_check.specs.Agreeing.{IsHere, Agrees, walked, walked_items};
ghost use Rattle.content_check.specs.Facts.{AreFacts};
ghost use Rattle.content_check.specs.Steps.{IsList, IsMap};
ghost use Rattle.content_check.specs.Agreeing.{IsBlockHere};

use crate::facts::{Facts, cells_at, is_sure_at};
use crate::fault::ContentFault;
use crate::keys::check_key;
use crate::leaf::{check_zero, read_number};
use crate::range::{check_bytes, read_range, take_block};
use crate::reach::Reach;
use crate::sets::check_set;
use bit_field::read_bits;
use layout_tree::{Kind, Layouts};

/// Checks a part, whose first bit is `bit`, in the block that begins at byte `start`.
#[cycle(check)]
pub(crate) fn check_part(
    layouts: &Layouts,
    facts: &[Facts],
    content: &[u8],
    node: u32,
    start: u64,
    bit: u64,
    reach: Reach,
) -> Result<Reach, ContentFault>
    requires node { IsNode layouts.now node }
    requires facts { AreFacts layouts.now facts.now }
    requires here { IsHere content.now (at layouts.now node) start bit reach }
    ensures { Agrees content.now (walked content.now (at layouts.now node) start bit reach) reach result }
{
    if is_sure_at(layouts, facts, node) {
        return Ok(reach);
    }
    match layouts.kind(node) {
        Kind::Flag => Ok(reach),
        Kind::I8 | Kind::I16 | Kind::I32 | Kind::I64 | Kind::Size => {
            match read_number(layouts, content, node, bit) {
                Some(_) => Ok(reach),
                None => Err(ContentFault::OutOfRange(bit)),
            }
        }
        Kind::Text => check_bytes(layouts, content, node, true, start, bit, reach),
        Kind::Bytes => check_bytes(layouts, content, node, false, start, bit, reach),
        Kind::List => check_list(layouts, facts, content, node, start, bit, reach),
        Kind::Set => check_set(layouts, facts, content, node, start, bit, reach),
        Kind::Map => check_map(layouts, facts, content, node, start, bit, reach),
        Kind::Struct | Kind::Pair => check_fields(layouts, facts, content, node, start, bit, reach),
        Kind::Optional => check_optional(layouts, facts, content, node, start, bit, reach),
    }
}

// Checks an optional.
#[cycle(check)]
fn check_optional(
    layouts: &Layouts,
    facts: &[Facts],
    content: &[u8],
    node: u32,
    start: u64,
    bit: u64,
    reach: Reach,
) -> Result<Reach, ContentFault>
    requires node { IsNode layouts.now node }
    requires facts { AreFacts layouts.now facts.now }
    requires optional { IsOptional (at layouts.now node) }
    requires here { IsHere content.now (at layouts.now node) start bit reach }
    ensures { Agrees content.now (walked content.now (at layouts.now node) start bit reach) reach result }
{
    let width = layouts.isset_bits(node);
    let inner = bit + width as u64;
    if read_bits(content, bit, width) == 1 {
        check_part(layouts, facts, content, node + 2, start, inner, reach)
    } else {
        match check_zero(content, inner, layouts.bits(node + 2) as u64) {
            Ok(()) => Ok(reach),
            Err(fault) => Err(fault),
        }
    }
}

// Checks the fields of a struct one after another.
#[cycle(check)]
fn check_fields(
    layouts: &Layouts,
    facts: &[Facts],
    content: &[u8],
    node: u32,
    start: u64,
    bit: u64,
    from: Reach,
) -> Result<Reach, ContentFault>
    requires node { IsNode layouts.now node }
    requires facts { AreFacts layouts.now facts.now }
    requires structure { IsStruct (at layouts.now node) }
    requires here { IsHere content.now (at layouts.now node) start bit from }
    ensures { Agrees content.now (walked content.now (at layouts.now node) start bit from) from result }
{
    let end = layouts.past(node);
    let mut child = node + 1;
    let mut place = bit;
    let mut reach = from;
    while child < end {
        match check_part(layouts, facts, content, child, start, place, reach) {
            Ok(after) => reach = after,
            Err(fault) => return Err(fault),
        }
        place += layouts.bits(child) as u64;
        child = layouts.past(child);
    }
    Ok(reach)
}

// Checks a list.
#[cycle(check)]
fn check_list(
    layouts: &Layouts,
    facts: &[Facts],
    content: &[u8],
    node: u32,
    start: u64,
    bit: u64,
    reach: Reach,
) -> Result<Reach, ContentFault>
    requires node { IsNode layouts.now node }
    requires facts { AreFacts layouts.now facts.now }
    requires list { IsList (at layouts.now node) }
    requires here { IsHere content.now (at layouts.now node) start bit reach }
    ensures { Agrees content.now (walked content.now (at layouts.now node) start bit reach) reach result }
{
    let n = match read_range(layouts, content, node, start, bit, reach) {
        Ok(n) => n,
        Err(fault) => return Err(fault),
    };
    let unit = cells_at(layouts, facts, node + 3) + 1;
    let inner = match take_block(layouts, content, node, n, unit, reach) {
        Ok(inner) => inner,
        Err(fault) => return Err(fault),
    };
    check_list_items(layouts, facts, content, node, n, reach.next, inner)
}

// Checks the items of a list.
#[cycle(check)]
fn check_list_items(
    layouts: &Layouts,
    facts: &[Facts],
    content: &[u8],
    node: u32,
    n: u64,
    start: u64,
    from: Reach,
) -> Result<Reach, ContentFault>
    requires node { IsNode layouts.now node }
    requires facts { AreFacts layouts.now facts.now }
    requires holder { IsHolder (at layouts.now node) }
    requires here { IsBlockHere content.now (item_of (at layouts.now node)) n start from }
    ensures { let l = item_of (at layouts.now node) in
        Agrees content.now (walked_items AList content.now l n start from) from result }
{
    if is_sure_at(layouts, facts, node + 3) {
        return Ok(from);
    }
    let stride = layouts.stride(node) as u64;
    let mut bit = 8 * start;
    let mut reach = from;
    let mut left = n;
    while left > 0 {
        match check_part(layouts, facts, content, node + 3, start, bit, reach) {
            Ok(after) => reach = after,
            Err(fault) => return Err(fault),
        }
        bit += stride;
        left -= 1;
    }
    Ok(reach)
}

// Checks a map.
#[cycle(check)]
fn check_map(
    layouts: &Layouts,
    facts: &[Facts],
    content: &[u8],
    node: u32,
    start: u64,
    bit: u64,
    reach: Reach,
) -> Result<Reach, ContentFault>
    requires node { IsNode layouts.now node }
    requires facts { AreFacts layouts.now facts.now }
    requires map { IsMap (at layouts.now node) }
    requires here { IsHere content.now (at layouts.now node) start bit reach }
    ensures { Agrees content.now (walked content.now (at layouts.now node) start bit reach) reach result }
{
    let n = match read_range(layouts, content, node, start, bit, reach) {
        Ok(n) => n,
        Err(fault) => return Err(fault),
    };
    let unit = cells_at(layouts, facts, node + 3) + 1;
    let inner = match take_block(layouts, content, node, n, unit, reach) {
        Ok(inner) => inner,
        Err(fault) => return Err(fault),
    };
    check_map_items(layouts, facts, content, node, n, reach.next, inner)
}

// Checks the pairs of a map.
#[cycle(check)]
fn check_map_items(
    layouts: &Layouts,
    facts: &[Facts],
    content: &[u8],
    node: u32,
    n: u64,
    start: u64,
    from: Reach,
) -> Result<Reach, ContentFault>
    requires node { IsNode layouts.now node }
    requires facts { AreFacts layouts.now facts.now }
    requires map { IsMap (at layouts.now node) }
    requires here { IsBlockHere content.now (item_of (at layouts.now node)) n start from }
    ensures { let l = item_of (at layouts.now node) in
        Agrees content.now (walked_items AMap content.now l n start from) from result }
{
    let value = layouts.past(node + 4);
    let key_bits = layouts.bits(node + 4) as u64;
    let stride = layouts.stride(node) as u64;
    let mut bit = 8 * start;
    let mut reach = from;
    let mut before = None;
    let mut left = n;
    while left > 0 {
        match check_key(layouts, content, node + 4, start, bit, reach, before) {
            Ok((key, after)) => {
                before = Some(key);
                reach = after;
            }
            Err(fault) => return Err(fault),
        }
        match check_part(layouts, facts, content, value, start, bit + key_bits, reach) {
            Ok(end) => reach = end,
            Err(fault) => return Err(fault),
        }
        bit += stride;
        left -= 1;
    }
    Ok(reach)
}
