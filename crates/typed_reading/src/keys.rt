//! The items of sets and the keys of maps.

ghost use Rattle.std.specs.Prelude.{◌≡◌, ◌↔◌, ◌+◌, ◌<◌, ◌≤◌, ◌^◌, ℕ, List, [], ◌∷◌, ◌++◌, length, IfOk, OnOk, Ok, IsTrue};
ghost use Rattle.frozen_model.specs.Values.{Value};
ghost use Rattle.exact_reading.specs.Reading.{Meets, Gives, seen};
ghost use Rattle.compact_wire.specs.Codes.{code_of as wire_code};
ghost use Rattle.compact_wire.specs.Node.{Node};
ghost use Rattle.compact_wire.specs.Reads.{scalar, items, value};
ghost use Rattle.idl_profile.specs.Types.{text};
ghost use Rattle.idl_parse.specs.Refs.{type_of_ref};
ghost use Rattle.key_order.specs.Keys.{value_of};
ghost use Rattle.key_order.specs.Entries.{placed};
ghost use Rattle.typed_reading.specs.Codes.{code as type_code};
ghost use Rattle.typed_reading.specs.Counts.{counted, counted_items, IsCount};
ghost use Rattle.typed_reading.specs.Faults.{lesser, least, repeats};
ghost use Rattle.typed_reading.specs.Keys.{key_value};
ghost use Rattle.typed_reading.specs.Progress.{after, key_and_after, after_set};
ghost use Rattle.typed_reading.specs.Kept.{IsOfKind, AreMore, AreKept};
ghost use Rattle.typed_reading.specs.Marks.{Climbs, IsKeyKind, IsLeafAs};

use crate::counts::{Checked, with_item, with_key};
use crate::fault::NodeFault;
use crate::progress::{Progress, note_fault, note_found, pass_node};
use crate::texts::is_text;
use compact_wire::{Kind, read_i16, read_i32, read_i64, read_number, read_taken};
use exact_reading::{ReadError, Stop};
use key_order::{Key, PlacedKey, least_repeat};
use std::alloc::{AllocError, Global};
use thrift_idl::{TypeKind, TypeRef};

/// A key of a kind, and the bytes after it.
#[tactic(auto, unfolding(compact_wire::specs::Reads::scalar, compact_wire::specs::Reads::element_flag, compact_wire::specs::Reads::signed_byte))]
#[inline(always)]
pub fn read_key(kind: Kind, bytes: &[u8]) -> Result<(Key<'_>, &[u8]), Stop>
    requires { IsKeyKind kind }
    ensures reads { Meets (λ x. (value_of x.0, x.1.now)) result (seen key_value (scalar kind bytes.now)) }
    ensures shorter { IfOk result (λ x. length x.1.now < length bytes.now) }
    ensures of_kind { IfOk result (λ x. IsOfKind kind (value_of x.0)) }
{
    match kind {
        Kind::Flag => {
            let Some((first, rest)) = bytes.split_first() else {
                return Err(Stop::Ended);
            };
            match *first {
                1 => Ok((Key::Flag(true), rest)),
                0 | 2 => Ok((Key::Flag(false), rest)),
                _ => Err(Stop::Refused(bytes.len())),
            }
        }
        Kind::I8 => {
            let Some((first, rest)) = bytes.split_first() else {
                return Err(Stop::Ended);
            };
            Ok((Key::Number(i64::from(i8::from_le_bytes([*first]))), rest))
        }
        Kind::I16 => {
            let (n, rest) = read_i16(bytes)?;
            Ok((Key::Number(i64::from(n)), rest))
        }
        Kind::I32 => {
            let (n, rest) = read_i32(bytes)?;
            Ok((Key::Number(i64::from(n)), rest))
        }
        Kind::I64 => {
            let (n, rest) = read_i64(bytes)?;
            Ok((Key::Number(n), rest))
        }
        Kind::Binary => {
            let (n, rest) = read_number(4, 0x7fff_ffff, bytes)?;
            let (x, rest) = read_taken(n as usize, rest)?;
            Ok((Key::Bytes(x), rest))
        }
        Kind::Double | Kind::List | Kind::Set | Kind::Map | Kind::Struct => Err(Stop::Ended),
    }
}

/// Behind a key of a text's type.
fn behind_text(key: Key<'_>, progress: &mut Progress)
    requires { progress.old.next + 1 < 2 ^ 64 }
    ensures { (w : Node) → IsLeafAs text w → key_value w ≡ value_of key.entry
        → progress.new ≡ after text progress.old w }
{
    match key {
        Key::Bytes(x) => {
            if is_text(x) {
                pass_node(progress)
            } else {
                let next = progress.next + 1;
                note_fault(progress, NodeFault::BadText, next)
            }
        }
        Key::Number(_) => pass_node(progress),
        Key::Flag(_) => pass_node(progress),
    }
}

/// Behind a key of the type.
#[inline]
fn behind_key(ty: TypeRef<'_>, key: Key<'_>, progress: &mut Progress)
    requires { progress.old.next + 1 < 2 ^ 64 }
    ensures { (w : Node) → IsLeafAs (type_of_ref ty.entry) w → key_value w ≡ value_of key.entry
        → progress.new ≡ after (type_of_ref ty.entry) progress.old w }
{
    match ty.kind() {
        TypeKind::Text => behind_text(key, progress),
        _ => pass_node(progress),
    }
}

/// Whether so many keys are more than their kind has values, so that one of them repeats.
#[inline(always)]
fn must_repeat(kind: Kind, count: usize) -> bool
    ensures { IsTrue result ↔ AreMore kind count }
{
    match kind {
        Kind::Flag => count > 2,
        Kind::I8 => count > 256,
        Kind::I16 => count > 65_536,
        _ => false,
    }
}

/// Keeps a key behind the others, but not where one of these repeats already since they are more than their kind has
/// values: the least that repeats is then among them. So at most 3 flags are kept, 257 keys of i8, and 65,537 of i16.
#[inline(always)]
pub fn keep_key<'a>(
    keys: &mut Vec<PlacedKey<'a>>,
    kind: Kind,
    key: PlacedKey<'a>,
) -> Result<(), AllocError>
    requires { IsOfKind kind (value_of key.key) }
    ensures kept { (ks : List (ℕ × Value)) → AreKept kind ks keys.old.items
        → OnOk result (AreKept kind (ks ++ (key.entry.place, value_of key.entry.key) ∷ []) keys.new.items) }
    ensures enough { AreMore kind (length keys.old.items) → keys.new.items ≡ keys.old.items }
{
    if must_repeat(kind, keys.len()) {
        return Ok(());
    }
    keys.push(key)?;
    Ok(())
}

/// A key of a key's type with the number of its node, told to the progress, and the bytes after it.
#[inline(always)]
pub fn check_key<'a>(
    ty: TypeRef<'_>,
    kind: Kind,
    bytes: &'a [u8],
    progress: &mut Progress,
    sums: &mut Checked,
) -> Result<(PlacedKey<'a>, &'a [u8]), Stop>
    requires room { progress.old.next + length bytes.now + 1 < 2 ^ 64 }
    requires kind { IsKeyKind kind }
    requires code { wire_code kind ≡ type_code (type_of_ref ty) }
    ensures reads { Meets (λ x. ((progress.new, (x.0.place, value_of x.0.key)), x.1.now)) result
        (seen (key_and_after (type_of_ref ty.entry) progress.old) (scalar kind bytes.now)) }
    ensures room { IfOk result (λ x.
        progress.new.next + length x.1.now ≤ progress.old.next + length bytes.now) }
    ensures counts { IfOk result (λ x.
        seen (counted (type_of_ref ty.entry) sums.old) (scalar kind bytes.now) ≡ Ok (sums.new, x.1.now)) }
    ensures next { OnOk result (progress.new.next ≡ progress.old.next + 1) }
    ensures place { IfOk result (λ x. x.0.place ≡ progress.old.next) }
    ensures of_kind { IfOk result (λ x. IsOfKind kind (value_of x.0.key)) }
{
    let (key, rest) = read_key(kind, bytes)?;
    let place = progress.next;
    behind_key(ty, key, progress);
    *sums = with_key(*sums, key);
    Ok((PlacedKey { key, place }, rest))
}

/// Notes the least fault of keys that repeat.
pub fn note_repeat(progress: &mut Progress, keys: &mut [PlacedKey<'_>])
    requires { Climbs 0 progress.old.next (placed keys.old) }
    ensures { progress.new ≡
        record { found = lesser progress.old.found (least (repeats (placed keys.old) [])); next = progress.old.next } }
{
    match least_repeat(keys) {
        Some(repeat) => note_found(progress, repeat.second, NodeFault::RepeatedKey),
        None => {}
    }
}

/// So many items of a set, told to the progress and counted.
pub fn check_set_items<'a>(
    alloc: Global,
    ty: TypeRef<'_>,
    levels: u32,
    kind: Kind,
    count: u64,
    bytes: &'a [u8],
    progress: &mut Progress,
    sums: &mut Checked,
) -> Result<&'a [u8], ReadError<Stop>>
    requires room { progress.old.next + length bytes.now + 1 < 2 ^ 64 }
    requires kind { 0 < count → IsKeyKind kind × (wire_code kind ≡ type_code (type_of_ref ty)) }
    ensures reads { Gives (λ x. (progress.new, x.now)) result
        (seen (after_set (type_of_ref ty.entry) progress.old) (items (value levels kind) count bytes.now)) }
    ensures counts { IfOk result (λ x. IsCount progress.new sums.new x.now
        (seen (counted_items (type_of_ref ty.entry) sums.old) (items (value levels kind) count bytes.now))) }
    ensures room { IfOk result (λ x.
        progress.new.next + length x.now ≤ progress.old.next + length bytes.now) }
{
    let mut keys = Vec::new(alloc);
    let mut rest = bytes;
    for _ in 0..count {
        *sums = with_item(*sums);
        let (key, behind) = check_key(ty, kind, rest, progress, sums)?;
        keep_key(&mut keys, kind, key)?;
        rest = behind;
    }
    note_repeat(progress, keys.as_mut_slice());
    Ok(rest)
}
