//! A cursor over the fields of a struct.

ghost use Rattle.std.specs.Prelude.{◌≡◌, ◌+◌, ◌≤◌, suc};
ghost use Rattle.frozen_model.specs.Trees.{nodes};
ghost use Rattle.frozen_model.specs.Values.{count};
ghost use Rattle.typed_tree.specs.Parts.{IsRecord, fields_of};
ghost use Rattle.bit_view.specs.Branches.{fields_in, node_nth};
ghost use Rattle.bit_view.specs.Views.{value_of_view, layout_of_view};

use crate::view::View;

/// The fields of a struct with their ids, in order.
#[derive(Clone, Copy)]
pub struct StructFields<'a> {
    // Whose fields they are.
    whole: View<'a>,
    // The number after the struct's last node.
    end: u32,
    // The node of the next one.
    node: u32,
    // How many were given.
    given: u32,
    ghost fields: { ∥ IsRecord (value_of_view whole) ∥₁ },
    ghost ends: { end ≡ whole.node + nodes (layout_of_view whole) },
    ghost next: { node ≡ node_nth (fields_in (layout_of_view whole)) (suc whole.node) given },
    ghost within: { given ≤ count (fields_of (value_of_view whole)) },
}

impl<'a> View<'a> {
    ghost use Rattle.bit_view.specs.FieldCursor.{fields_left};

    /// The fields of a struct with their ids, in order.
    #[inline]
    pub fn fields(self) -> StructFields<'a>
        requires { IsRecord (value_of_view self) }
        ensures { fields_left result ≡ value_of_view self.entry }
    {
        StructFields {
            whole: self,
            end: self.layouts.past(self.node),
            node: self.node + 1,
            given: 0,
        }
    }
}

impl<'a> StructFields<'a> {
    ghost use Rattle.bit_view.specs.FieldCursor.{fields_left, IsNextField};

    /// The next field, with its id. `None` where none is left.
    #[inline]
    pub fn next(&mut self) -> Option<(i16, View<'a>)>
        ensures { IsNextField (fields_left self.old) result (fields_left self.new) }
    {
        if self.node == self.end {
            return None;
        }
        let whole = self.whole;
        let spec = whole.layouts.node(self.node);
        let field = View {
            content: whole.content,
            layouts: whole.layouts,
            node: self.node,
            block: whole.block,
            bit: whole.bit + u64::from(spec.offset),
        };
        self.node = whole.layouts.past(self.node);
        self.given += 1;
        Some((spec.field, field))
    }
}
