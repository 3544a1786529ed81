//! The part at a path, and at a fitted path.
ghost use Rattle.std.specs.Prelude.{◌≡◌, ◌+◌, ◌≤◌, Ok, IsOk, IfSome, option_map};
ghost use Rattle.path_text.specs.Fitting.{fitted};
ghost use Rattle.path_text.specs.Views.{path_of};
ghost use Rattle.evolve.specs.Costs.{lookup_cost};
ghost use Rattle.evolve.specs.Lenses.{type_of_lens, value_of_lens};
ghost use Rattle.evolve.specs.Parts.{at};
ghost use Rattle.lens_lookup.specs.FittedPaths.{path_fitted, root_type, IsFitted};

use crate::fitted::FittedPath;
use crate::steps::{part_at, part_at_fitted};
use evolve::Lens;
use fz_base::Steps;
use path_text::Path;
use std::sync::ledger::Ledger;

/// The part at a path that fits the lens's type. `None` where there is none: an index past the end, a key
/// that is not there, or a field that is optional and absent. A key is looked for by halving, and each key
/// that is compared counts one step. It takes no memory.
pub fn lookup<'a, L: Ledger>(from: Lens<'a>, path: &Path, steps: &mut Steps<L>) -> Option<Lens<'a>>
    requires { IsOk (fitted (type_of_lens from) (path_of path.now)) }
    ensures part { option_map value_of_lens result
        ≡ at (path_of path.now).steps (type_of_lens from.entry) (value_of_lens from.entry) }
    ensures typed { IfSome result (λ l. fitted (type_of_lens from.entry) (path_of path.now)
        ≡ Ok (type_of_lens l)) }
    ensures cost { steps.new ≤ steps.old
        + lookup_cost (path_of path.now).steps (type_of_lens from.entry) (value_of_lens from.entry) }
{
    let mut reached = from;
    for step in &path.steps {
        match part_at(reached, &step.kind, steps) {
            Some(part) => reached = part,
            None => return None,
        }
    }
    Some(reached)
}

/// The part at a fitted path, as [`lookup`] answers it for the path that was fitted. The lens's type is the
/// root of the definition that the path was fitted to. No field is looked for by its name.
pub fn lookup_fitted<'a, L: Ledger>(
    from: Lens<'a>,
    path: &FittedPath<'a>,
    steps: &mut Steps<L>,
) -> Option<Lens<'a>>
    requires root { type_of_lens from ≡ root_type path.now }
    requires fitted { IsFitted path.now }
    ensures part { option_map value_of_lens result
        ≡ at (path_fitted path.now).steps (type_of_lens from.entry) (value_of_lens from.entry) }
    ensures typed { IfSome result (λ l. fitted (type_of_lens from.entry) (path_fitted path.now)
        ≡ Ok (type_of_lens l)) }
    ensures cost { steps.new ≤ steps.old
        + lookup_cost (path_fitted path.now).steps (type_of_lens from.entry) (value_of_lens from.entry) }
{
    let mut reached = from;
    for step in &path.steps {
        match part_at_fitted(reached, *step, steps) {
            Some(part) => reached = part,
            None => return None,
        }
    }
    Some(reached)
}
