//! The items of a set, or the pairs of a map, whose keys lie in an interval.
ghost use Rattle.std.specs.Prelude.{◌≡◌, ◌+◌, ◌*◌, ◌≤◌, true};
ghost use Rattle.idl_profile.specs.Types.{kind_of};
ghost use Rattle.frozen_model.specs.Bits.{digits};
ghost use Rattle.frozen_model.specs.Values.{count};
ghost use Rattle.typed_tree.specs.Parts.{items_of};
ghost use Rattle.path_text.specs.Views.{key_of_literal};
ghost use Rattle.evolve.specs.Lenses.{type_of_lens, value_of_lens};
ghost use Rattle.evolve.specs.LensItems.{items_left, type_left};
ghost use Rattle.lens_lookup.specs.Intervals.{is_key_in, items_between, HasKeys};
ghost use Rattle.lens_lookup.specs.LensKeys.{values_searched};

use crate::keys::LensKeys;
use evolve::{Lens, LensItems, scan_places};
use fz_base::Steps;
use key_lookup::lower_bound;
use path_text::KeyLit;
use std::sync::ledger::Ledger;
use thrift_idl::TypeKind;

// The items of a set, or the keys of a map, as keys to search in.
fn keys_of<'a>(whole: Lens<'a>) -> LensKeys<'a>
    requires { HasKeys (kind_of (type_of_lens whole)) }
    ensures { values_searched result ≡ items_of (value_of_lens whole.entry) }
{
    match whole.kind() {
        TypeKind::Set => LensKeys::of_set(whole),
        TypeKind::Map => LensKeys::of_map(whole),
        _ => unreachable!(),
    }
}

/// The items of a set, or the pairs of a map, whose keys are at least `low` and below `high`, in order. There
/// are none where no key lies there, as where `high` is not above `low`. Both are looked for by halving, and each
/// key that is compared counts one step. It takes no memory.
pub fn between<'a, L: Ledger>(
    from: Lens<'a>,
    low: &KeyLit,
    high: &KeyLit,
    steps: &mut Steps<L>,
) -> LensItems<'a>
    requires low { is_key_in (type_of_lens from) (key_of_literal low.now) ≡ true }
    requires high { is_key_in (type_of_lens from) (key_of_literal high.now) ≡ true }
    ensures items { items_left result ≡ items_between (key_of_literal low.now) (key_of_literal high.now)
        (items_of (value_of_lens from.entry)) }
    ensures typed { type_left result ≡ type_of_lens from.entry }
    ensures cost { steps.new ≤ steps.old + 2 * digits (count (items_of (value_of_lens from.entry))) }
{
    let keys = keys_of(from);
    let first = lower_bound(&keys, low, steps);
    let end = lower_bound(&keys, high, steps);
    scan_places(from, first, end)
}
