//! The last tree as what a field has.
ghost use Rattle.std.specs.Prelude.{◌≡◌, ◌<◌, ◌++◌, ◌∷◌, [], List, Some, OnOk, length};
ghost use Rattle.frozen_model.specs.Values.{Value};
ghost use Rattle.typed_tree.specs.Trees.{trees};
ghost use Rattle.lens_values.specs.Putting.{field_from};

use std::alloc::AllocError;
use thrift_idl::Need;
use typed_tree::Builder;

/// The last tree as a field has it: around that of an optional one it is put that it is present.
pub(crate) fn wrap(builder: &mut Builder, need: Need) -> Result<(), AllocError>
    requires { 0 < length (trees builder.old) }
    ensures { (vs : List Value) (v : Value) → trees builder.old ≡ vs ++ v ∷ []
        → OnOk result (trees builder.new ≡ vs ++ field_from need (Some v) ∷ []) }
{
    match need {
        Need::Optional => builder.present(),
        Need::Plain => Ok(()),
        Need::Required => Ok(()),
    }
}
