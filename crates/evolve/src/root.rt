//! The lens on the whole value of a file.
ghost use Rattle.std.specs.Prelude.{◌≡◌, Ok};
ghost use Rattle.idl_profile.specs.Types.{root_of};
ghost use Rattle.idl_parse.specs.Parsed.{definition_of};
ghost use Rattle.frozen_model.specs.Values.{Value};
ghost use Rattle.frozen_laws.specs.Laws.{IsContent};
ghost use Rattle.layout_tree.specs.Nodes.{layout_of};
ghost use Rattle.evolve.specs.Bound.{IsBound};
ghost use Rattle.evolve.specs.Projection.{proj};
ghost use Rattle.evolve.specs.Lenses.{type_of_lens, value_of_lens};

use crate::lens::{Lens, Stored};
use crate::plan::Plan;
use bit_view::View;
use file_check::Opened;
use thrift_idl::Definition;

/// The value of a file under the root of a definition that binds to its layout, as the plan shows. It takes
/// no memory.
pub fn root_lens<'a>(def: &'a Definition, opened: &'a Opened<'a>, plan: &Plan) -> Lens<'a>
    requires bound { IsBound (layout_of opened.now.layouts) (root_of (definition_of def.now)) (Ok plan.now) }
    ensures value { (v : Value) → IsContent (layout_of opened.now.layouts).tree v opened.now.content.now
        → value_of_lens result ≡ proj (root_of (definition_of def.now)) v }
    ensures typed { type_of_lens result ≡ root_of (definition_of def.now) }
{
    let view = View::new(opened.content, &opened.layouts);
    Lens::Stored(Stored {
        ty: def.root(),
        view,
    })
}
