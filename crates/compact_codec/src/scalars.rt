//! Writing flags and numbers of 8 bits.
ghost use Rattle.std.specs.Prelude.{◌≡◌, ◌++◌, ◌∷◌, [], OnOk};
ghost use Rattle.frozen_model.specs.Values.{InBits};
ghost use Rattle.compact_wire.specs.Node.{flag};
ghost use Rattle.compact_wire.specs.Canon.{canon, byte_of};
ghost use Rattle.compact_wire.specs.Writes.{canon_field};

use compact_wire::{FieldBefore, push_field_header};
use std::alloc::AllocError;

/// Appends a flag that is no field: the byte 1 or 2 (docs/COMPACT.md).
///
/// # Errors
///
/// `AllocError` where memory runs out, and nowhere else.
#[inline]
pub fn push_flag(out: &mut Vec<u8>, x: bool) -> Result<(), AllocError>
    ensures { OnOk result (out.new.items ≡ out.old.items ++ canon (flag x)) }
{
    out.push(if x { 1 } else { 2 })?;
    Ok(())
}

/// Appends a number from -128 to 127 as one byte, in two's complement (docs/COMPACT.md).
///
/// # Errors
///
/// `AllocError` where memory runs out, and nowhere else.
#[inline]
pub fn push_byte(out: &mut Vec<u8>, x: i64) -> Result<(), AllocError>
    requires { InBits 7 x }
    ensures { OnOk result (out.new.items ≡ out.old.items ++ byte_of x ∷ []) }
{
    out.push(if x >= 0 { x as u8 } else { (x + 256) as u8 })?;
    Ok(())
}

/// Appends a field that is a flag, which stands in the header, behind the field before (docs/COMPACT.md).
///
/// # Errors
///
/// `AllocError` where memory runs out, and nowhere else.
pub fn push_flag_field(
    out: &mut Vec<u8>,
    before: FieldBefore,
    id: i16,
    x: bool,
) -> Result<(), AllocError>
    ensures { OnOk result (out.new.items ≡ out.old.items ++ canon_field before.id id (flag x)) }
{
    if x {
        push_field_header(out, before, id, 1)
    } else {
        push_field_header(out, before, id, 2)
    }
}
