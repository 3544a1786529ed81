//! Values that are no containers.

ghost use Rattle.std.specs.Prelude.{◌≡◌, ◌+◌, ◌<◌, ◌≤◌, ◌^◌, length, IfOk, Ok};
ghost use Rattle.std.specs.Str.{is_utf8};
ghost use Rattle.compact_wire.specs.Reads.{scalar};
ghost use Rattle.compact_wire.specs.Codes.{code_of};
ghost use Rattle.compact_wire.specs.declared.kind.Kind.TheVariants.{Binary};
ghost use Rattle.idl_profile.specs.Types.{text};
ghost use Rattle.idl_parse.specs.Refs.{type_of_ref};
ghost use Rattle.exact_reading.specs.Reading.{Meets, seen};
ghost use Rattle.typed_reading.specs.Codes.{code};
ghost use Rattle.typed_reading.specs.Counts.{counted};
ghost use Rattle.typed_reading.specs.Progress.{after};

use crate::counts::{Checked, with_bytes, with_scalar};
use crate::fault::NodeFault;
use crate::progress::{Progress, note_fault, pass_node};
use compact_wire::{Kind, read_number, read_taken};
use exact_reading::Stop;
use std::str;
use thrift_idl::{TypeKind, TypeRef};
use wire_scan::skip_scalar;

// Whether bytes are UTF-8, by decoding them.
#[tactic(auto, using(crate::proofs::TextLaws::text_good, crate::proofs::TextLaws::text_bad))]
#[inline(never)]
fn is_decoded(bytes: &[u8]) -> bool
    ensures { result ≡ is_utf8 bytes.now }
{
    match str::from_utf8(bytes) {
        Ok(_) => true,
        Err(_) => false,
    }
}

/// Whether bytes are UTF-8. Few bytes that are all ASCII are known to be without a call.
#[inline(always)]
pub fn is_text(bytes: &[u8]) -> bool
    ensures { result ≡ is_utf8 bytes.now }
{
    if bytes.len() < 32 {
        for byte in bytes {
            if *byte >= 128 {
                return is_decoded(bytes);
            }
        }
        return true;
    }
    is_decoded(bytes)
}

#[inline]
fn check_text<'a>(
    bytes: &'a [u8],
    progress: &mut Progress,
    sums: &mut Checked,
) -> Result<&'a [u8], Stop>
    requires { progress.old.next + length bytes.now < 2 ^ 64 }
    ensures reads { Meets (λ x. (progress.new, x.now)) result
        (seen (after text progress.old) (scalar Binary bytes.now)) }
    ensures counts { IfOk result (λ x.
        seen (counted text sums.old) (scalar Binary bytes.now) ≡ Ok (sums.new, x.now)) }
    ensures room { IfOk result (λ x.
        progress.new.next + length x.now ≤ progress.old.next + length bytes.now) }
{
    let (n, rest) = read_number(4, 0x7fff_ffff, bytes)?;
    let (x, rest) = read_taken(n as usize, rest)?;
    *sums = with_bytes(*sums, x.len());
    if is_text(x) {
        pass_node(progress);
        Ok(rest)
    } else {
        let next = progress.next + 1;
        note_fault(progress, NodeFault::BadText, next);
        Ok(rest)
    }
}

/// A value of a kind that is no container, of the type's code, counted into the sums: the bytes after it.
#[inline(always)]
fn count_leaf<'a>(
    ty: TypeRef<'_>,
    kind: Kind,
    bytes: &'a [u8],
    sums: &mut Checked,
) -> Result<&'a [u8], Stop>
    requires { code_of kind ≡ code (type_of_ref ty) }
    ensures counts { Meets (λ x. (sums.new, x.now)) result
        (seen (counted (type_of_ref ty.entry) sums.old) (scalar kind bytes.now)) }
    ensures shorter { IfOk result (λ x. length x.now < length bytes.now) }
{
    match kind {
        Kind::Binary => {
            let (n, rest) = read_number(4, 0x7fff_ffff, bytes)?;
            let (x, rest) = read_taken(n as usize, rest)?;
            *sums = with_bytes(*sums, x.len());
            Ok(rest)
        }
        _ => {
            let rest = skip_scalar(kind, bytes)?;
            *sums = with_scalar(*sums);
            Ok(rest)
        }
    }
}

/// A value of a kind that is no container, of the type's code.
#[inline(always)]
pub fn check_leaf<'a>(
    ty: TypeRef<'_>,
    kind: Kind,
    bytes: &'a [u8],
    progress: &mut Progress,
    sums: &mut Checked,
) -> Result<&'a [u8], Stop>
    requires room { progress.old.next + length bytes.now < 2 ^ 64 }
    requires code { code_of kind ≡ code (type_of_ref ty) }
    ensures reads { Meets (λ x. (progress.new, x.now)) result
        (seen (after (type_of_ref ty.entry) progress.old) (scalar kind bytes.now)) }
    ensures counts { IfOk result (λ x.
        seen (counted (type_of_ref ty.entry) sums.old) (scalar kind bytes.now) ≡ Ok (sums.new, x.now)) }
    ensures room { IfOk result (λ x.
        progress.new.next + length x.now ≤ progress.old.next + length bytes.now) }
{
    match ty.kind() {
        TypeKind::Text => check_text(bytes, progress, sums),
        _ => {
            let rest = count_leaf(ty, kind, bytes, sums)?;
            pass_node(progress);
            Ok(rest)
        }
    }
}
