//! What a view is, as a function whose contract is the law.

ghost use Rattle.std.specs.Prelude.{◌≡◌};
ghost use Rattle.frozen_model.specs.Values.{Value};
ghost use Rattle.bit_view.specs.Views.{value_of_view, LiesAt};

use crate::view::View;
use layout_tree::layouts_are_described;

/// A view stands for the part of the value that lies where it is, and some part does.
pub fn view_is_part(view: View<'_>)
    ensures some { ∥ ((u : Value) × LiesAt view.entry u) ∥₁ }
    ensures told { (u : Value) → LiesAt view.entry u → value_of_view view.entry ≡ u }
{
    layouts_are_described(view.layouts);
}
