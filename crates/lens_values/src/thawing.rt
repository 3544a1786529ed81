//! A part of a file in Compact Protocol, and as a tree.
ghost use Rattle.std.specs.Prelude.{◌≡◌, ◌≤◌, IfOk, MatchResult};
ghost use Rattle.frozen_model.specs.Values.{cells, cell_limit};
ghost use Rattle.type_kinds.specs.KindsOf.{kinds_of};
ghost use Rattle.compact_wire.specs.Canon.{canon};
ghost use Rattle.compact_codec.specs.Wire.{wire};
ghost use Rattle.typed_tree.specs.References.{value_of_tree};
ghost use Rattle.evolve.specs.Lenses.{type_of_lens, value_of_lens};
ghost use Rattle.lens_values.specs.Thaws.{IsThawFault};

use crate::cells::lens_cells;
use crate::counted::CELL_LIMIT;
use crate::fault::{Halt, ThawFault};
use crate::putting::put;
use crate::writing::push_value;
use evolve::Lens;
use std::alloc::Global;
use typed_tree::{Builder, Tree};

/// The part in its canonical spelling in Compact Protocol (docs/COMPACT.md), written in one pass that counts
/// its cells too. Where they come to more than a value may have, it stops before it writes what has them: so
/// the memory is at most what a value within the limit takes. Then a second pass counts all cells.
pub fn thaw(alloc: Global, from: Lens<'_>) -> Result<Vec<u8>, ThawFault>
    ensures bytes { IfOk result (λ out.
        out.items ≡ canon (wire (type_of_lens from.entry) (value_of_lens from.entry))) }
    ensures many { let total = cells (kinds_of (type_of_lens from.entry)) (value_of_lens from.entry) in
        MatchResult result (λ _. total ≤ cell_limit) (IsThawFault total) }
{
    let mut out = Vec::new(alloc);
    let mut counted = 0u64;
    match push_value(&mut out, &mut counted, from) {
        Ok(()) => {
            if counted > CELL_LIMIT {
                return Err(why_not(from));
            }
            Ok(out)
        }
        Err(Halt::TooMany) => Err(ThawFault::TooManyCells(lens_cells(from))),
        Err(Halt::NoMemory) => Err(why_not(from)),
    }
}

/// The part as a tree, with the defaults of the fields that the file lacks. Its cells are counted first: where they
/// are more than a value may have, no memory is taken.
pub fn thaw_tree(alloc: Global, from: Lens<'_>) -> Result<Tree, ThawFault>
    ensures value { IfOk result (λ t. value_of_tree t ≡ value_of_lens from.entry) }
    ensures many { let total = cells (kinds_of (type_of_lens from.entry)) (value_of_lens from.entry) in
        MatchResult result (λ _. total ≤ cell_limit) (IsThawFault total) }
{
    let cells = lens_cells(from);
    if cells > CELL_LIMIT {
        return Err(ThawFault::TooManyCells(cells));
    }
    let mut ids = Vec::new(alloc);
    let mut builder = Builder::new(alloc);
    put(from, &mut ids, &mut builder)?;
    Ok(builder.finish())
}

// Why a part is not written to its end, which is told by its cells.
#[cold]
fn why_not(from: Lens<'_>) -> ThawFault
    ensures { IsThawFault (cells (kinds_of (type_of_lens from.entry)) (value_of_lens from.entry)) result }
{
    let total = lens_cells(from);
    if total > CELL_LIMIT {
        return ThawFault::TooManyCells(total);
    }
    ThawFault::NoMemory
}
