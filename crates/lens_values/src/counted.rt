//! Cells that are counted where they are written, and the values that have no parts. A count that would pass
//! 2^64 - 1 stands still there, so what is said of the counts is said of them as `capped`.
ghost use Rattle.std.specs.Prelude.{◌≡◌, ◌+◌, ◌++◌, ◌∷◌, [], length, IfErr, OnOk};
ghost use Rattle.frozen_model.specs.Values.{InBits};
ghost use Rattle.typed_tree.specs.Parts.{IsInt};
ghost use Rattle.typed_tree.specs.Sizes.{capped};
ghost use Rattle.compact_wire.specs.Node.{flag};
ghost use Rattle.compact_wire.specs.Number.{shortest, zigzag as zigzag_of};
ghost use Rattle.compact_wire.specs.Canon.{canon, byte_of};
ghost use Rattle.compact_wire.specs.Writes.{canon_field};
ghost use Rattle.compact_codec.specs.Wire.{number_in};
ghost use Rattle.evolve.specs.Lenses.{value_of_lens};
ghost use Rattle.lens_values.specs.Writing.{presence};
ghost use Rattle.lens_values.specs.Thaws.{IsHalt};

use crate::fault::Halt;
use compact_codec::{push_byte, push_flag, push_flag_field};
use compact_wire::{FieldBefore, push_binary, push_number, zigzag};
use evolve::Lens;
use std::alloc::AllocError;
use thrift_idl::Need;

/// The most cells that a value may have.
pub(crate) const CELL_LIMIT: u64 = 33_554_432;

/// Adds so many cells, and stops where they are then more than a value may have.
#[inline]
pub(crate) fn spend(cells: &mut u64, more: u64) -> Result<(), Halt>
    ensures counted { OnOk result (capped cells.new ≡ capped (cells.old + more)) }
    ensures halted { IfErr result (IsHalt (cells.old + more)) }
{
    *cells = cells.saturating_add(more);
    if *cells > CELL_LIMIT {
        return Err(Halt::TooMany);
    }
    Ok(())
}

/// The cells for whether what a field has is there: an optional has one.
#[inline]
pub(crate) fn presence_cells(need: Need) -> u64
    ensures { result ≡ presence need }
{
    match need {
        Need::Optional => 1,
        Need::Plain => 0,
        Need::Required => 0,
    }
}

/// Appends a byte, which is no cell.
#[inline]
pub(crate) fn push_mark(out: &mut Vec<u8>, x: u8) -> Result<(), AllocError>
    ensures { OnOk result (out.new.items ≡ out.old.items ++ x ∷ []) }
{
    out.push(x)?;
    Ok(())
}

/// Appends a flag, which is one cell.
#[inline]
pub(crate) fn push_truth(out: &mut Vec<u8>, cells: &mut u64, x: bool) -> Result<(), Halt>
    ensures bytes { OnOk result (out.new.items ≡ out.old.items ++ canon (flag x)) }
    ensures counted { OnOk result (capped cells.new ≡ capped (cells.old + 1)) }
    ensures halted { IfErr result (IsHalt (cells.old + 1)) }
{
    spend(cells, 1)?;
    push_flag(out, x)?;
    Ok(())
}

/// Appends a number of 8 bits, which is one cell.
#[inline]
pub(crate) fn push_one_byte(out: &mut Vec<u8>, cells: &mut u64, x: i64) -> Result<(), Halt>
    requires { InBits 7 x }
    ensures bytes { OnOk result (out.new.items ≡ out.old.items ++ byte_of x ∷ []) }
    ensures counted { OnOk result (capped cells.new ≡ capped (cells.old + 1)) }
    ensures halted { IfErr result (IsHalt (cells.old + 1)) }
{
    spend(cells, 1)?;
    push_byte(out, x)?;
    Ok(())
}

/// Appends a number of more bits, which is one cell.
#[inline(always)]
pub(crate) fn push_int(out: &mut Vec<u8>, cells: &mut u64, from: Lens<'_>) -> Result<(), Halt>
    requires { IsInt (value_of_lens from) }
    ensures bytes { OnOk result (out.new.items
        ≡ out.old.items ++ shortest (zigzag_of (number_in (value_of_lens from.entry)))) }
    ensures counted { OnOk result (capped cells.new ≡ capped (cells.old + 1)) }
    ensures halted { IfErr result (IsHalt (cells.old + 1)) }
{
    spend(cells, 1)?;
    push_number(out, zigzag(from.int()))?;
    Ok(())
}

/// Appends a text or binary, which has two cells and one for each byte.
#[inline(always)]
pub(crate) fn push_bytes(out: &mut Vec<u8>, cells: &mut u64, bytes: &[u8]) -> Result<(), Halt>
    ensures bytes { OnOk result (out.new.items ≡ out.old.items ++ (shortest (length bytes.now) ++ bytes.now)) }
    ensures counted { OnOk result (capped cells.new ≡ capped (cells.old + (2 + length bytes.now))) }
    ensures halted { IfErr result (IsHalt (cells.old + (2 + length bytes.now))) }
{
    spend(cells, (bytes.len() as u64).saturating_add(2))?;
    push_binary(out, bytes)?;
    Ok(())
}

/// Appends a field that is a flag behind the field before; the flag is one cell.
#[inline]
pub(crate) fn push_flag_header(
    out: &mut Vec<u8>,
    cells: &mut u64,
    before: FieldBefore,
    id: i16,
    x: bool,
) -> Result<(), Halt>
    ensures bytes { OnOk result (out.new.items ≡ out.old.items ++ canon_field before.id id (flag x)) }
    ensures counted { OnOk result (capped cells.new ≡ capped (cells.old + 1)) }
    ensures halted { IfErr result (IsHalt (cells.old + 1)) }
{
    spend(cells, 1)?;
    push_flag_field(out, before, id, x)?;
    Ok(())
}
