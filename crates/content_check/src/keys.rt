//! Keys.

ghost use Rattle.std.specs.Prelude.{◌≡◌, ◌^◌, ◌<◌, ◌≤◌, ℕ, None, Some, IfOk};
ghost use Rattle.key_order.specs.Keys.{kind_rank, value_of};
ghost use Rattle.frozen_model.specs.Trees.{IsKey};
ghost use Rattle.layout_tree.specs.Nodes.{IsNode, at};
ghost use Rattle.content_check.specs.Agreeing.{IsHere, Agrees, walked, walked_key};
ghost use Rattle.content_check.specs.Steps.{IsByteRange, reach_of, KeyIs, IsOfKind};
ghost use Rattle.content_check.specs.Agreeing.{key_value};

use crate::fault::ContentFault;
use crate::leaf::read_number;
use crate::range::check_bytes;
use crate::reach::Reach;
use bit_field::read_bits;
use key_order::{Key, compare_keys};
use layout_tree::{Kind, Layouts};
use std::cmp::Ordering;

// Reads a text or bytes.
fn read_bytes<'a>(
    layouts: &Layouts,
    content: &'a [u8],
    node: u32,
    text: bool,
    start: u64,
    bit: u64,
    reach: Reach,
) -> Result<(Key<'a>, Reach), ContentFault>
    requires node { IsNode layouts.now node }
    requires bytes { IsByteRange (at layouts.now node) text }
    requires here { IsHere content.now (at layouts.now node) start bit reach }
    ensures agrees { let w = walked content.now (at layouts.now node) start bit reach in
        Agrees content.now w reach (reach_of result) }
    ensures value { KeyIs (walked content.now (at layouts.now node) start bit reach) result }
    ensures kind { IfOk result (λ p. kind_rank (value_of p.0) ≡ 2) }
{
    match check_bytes(layouts, content, node, text, start, bit, reach) {
        Ok(after) => Ok((
            Key::Bytes(&content[reach.next as usize..after.next as usize]),
            after,
        )),
        Err(fault) => Err(fault),
    }
}

/// Reads a key and checks it.
pub(crate) fn read_key<'a>(
    layouts: &Layouts,
    content: &'a [u8],
    node: u32,
    start: u64,
    bit: u64,
    reach: Reach,
) -> Result<(Key<'a>, Reach), ContentFault>
    requires node { IsNode layouts.now node }
    requires key { IsKey (at layouts.now node) }
    requires here { IsHere content.now (at layouts.now node) start bit reach }
    ensures agrees { let w = walked content.now (at layouts.now node) start bit reach in
        Agrees content.now w reach (reach_of result) }
    ensures value { KeyIs (walked content.now (at layouts.now node) start bit reach) result }
    ensures kind { IfOk result (λ p. IsOfKind (at layouts.now node) (Some p.0)) }
{
    match layouts.kind(node) {
        Kind::Flag => Ok((
            Key::Flag(read_bits(content, bit, layouts.bits(node)) == 1),
            reach,
        )),
        Kind::Text => read_bytes(layouts, content, node, true, start, bit, reach),
        Kind::Bytes => read_bytes(layouts, content, node, false, start, bit, reach),
        _ => match read_number(layouts, content, node, bit) {
            Some(x) => Ok((Key::Number(x), reach)),
            None => Err(ContentFault::OutOfRange(bit)),
        },
    }
}

/// Reads a key, which has to be above the one before.
pub(crate) fn check_key<'a>(
    layouts: &Layouts,
    content: &'a [u8],
    node: u32,
    start: u64,
    bit: u64,
    reach: Reach,
    before: Option<Key<'a>>,
) -> Result<(Key<'a>, Reach), ContentFault>
    requires node { IsNode layouts.now node }
    requires key { IsKey (at layouts.now node) }
    requires here { IsHere content.now (at layouts.now node) start bit reach }
    requires before { IsOfKind (at layouts.now node) before }
    ensures agrees { let w = walked_key content.now (at layouts.now node) start before.entry bit reach in
        Agrees content.now w reach (reach_of result) }
    ensures value { KeyIs (walked_key content.now (at layouts.now node) start before.entry bit reach) result }
    ensures kind { IfOk result (λ p. IsOfKind (at layouts.now node) (Some p.0)) }
{
    match read_key(layouts, content, node, start, bit, reach) {
        Ok((key, after)) => match before {
            Some(last) => match compare_keys(last, key) {
                Ordering::Less => Ok((key, after)),
                _ => Err(ContentFault::KeyOrder(bit)),
            },
            None => Ok((key, after)),
        },
        Err(fault) => Err(fault),
    }
}
