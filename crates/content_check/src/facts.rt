//! What is known of the parts of a layout before a content is looked at.

ghost use Rattle.std.specs.Prelude.{◌≡◌, ◌≤◌, true, length};
ghost use Rattle.frozen_model.specs.Values.{inline_cells as cells_in};
ghost use Rattle.layout_tree.specs.Nodes.{IsNode, IsNumber, at};
ghost use Rattle.content_check.specs.Sure.{IsSure};
ghost use Rattle.content_check.specs.Facts.{IsFactsOf, AreFacts};

use crate::cells::inline_cells;
use crate::sure::is_sure;
use layout_tree::{Kind, Layouts};

/// What is known of a part of a layout: its inline cells, and whether nothing in it can fail.
#[derive(Clone, Copy)]
pub(crate) struct Facts {
    pub(crate) cells: u32,
    pub(crate) sure: bool,
}

// What is known of a node, where it is that of a part.
fn facts_of(layouts: &Layouts, node: u32) -> Facts
    requires { IsNumber layouts.now node }
    ensures { IsNode layouts.now node → IsFactsOf (at layouts.now node) result }
{
    match layouts.node(node).kind {
        Kind::Flag | Kind::Size => Facts {
            cells: 1,
            sure: true,
        },
        _ => Facts {
            cells: inline_cells(layouts, node) as u32,
            sure: is_sure(layouts, node),
        },
    }
}

/// Notes what is known of each part.
pub(crate) fn note_facts(layouts: &Layouts, facts: &mut [Facts])
    requires { 4096 ≤ length facts.old }
    ensures { AreFacts layouts.now facts.new }
{
    for node in 0..layouts.count() {
        facts[node as usize] = facts_of(layouts, node);
    }
}

/// The inline cells of a part.
#[inline]
pub(crate) fn cells_at(_layouts: &Layouts, facts: &[Facts], node: u32) -> u64
    requires node { IsNode _layouts.now node }
    requires facts { AreFacts _layouts.now facts.now }
    ensures cells { result ≡ cells_in (at _layouts.now node) }
    ensures few { result ≤ 4096 }
{
    facts[node as usize].cells as u64
}

/// Whether nothing in a part can fail. It may be false where nothing can.
#[inline]
pub(crate) fn is_sure_at(_layouts: &Layouts, facts: &[Facts], node: u32) -> bool
    requires node { IsNode _layouts.now node }
    requires facts { AreFacts _layouts.now facts.now }
    ensures { result ≡ true → IsSure (at _layouts.now node) }
{
    facts[node as usize].sure
}
