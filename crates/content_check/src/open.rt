//! Whole contents.

ghost use Rattle.std.specs.Prelude.{◌≡◌, ◌<◌, ◌^◌, length, Ok, Err, IfOk, IfErr};
ghost use Rattle.frozen_model.specs.Values.{Value, cells as cells_of};
ghost use Rattle.frozen_model.specs.Walk.{open_content};
ghost use Rattle.frozen_laws.specs.Laws.{IsContent};
ghost use Rattle.layout_tree.specs.Nodes.{layout_of};
ghost use Rattle.content_check.specs.Agreeing.{fault_of};
ghost use Rattle.content_check.specs.Opened.{IsOpened};
ghost use Rattle.content_check.specs.Steps.{IsWalked};

use crate::check::check_part;
use crate::facts::{Facts, cells_at, note_facts};
use crate::fault::ContentFault;
use crate::leaf::check_zero;
use crate::reach::Reach;
use layout_tree::{Layouts, layouts_are_described};

/// The most nodes of a layout.
const MOST_NODES: usize = 4096;

/// Checks that a content is the packing of a value that the layout holds, within the limit of cells, and
/// gives the cells of that value; otherwise the first fault of the walk. It makes no value and takes no
/// memory.
pub fn check_content(layouts: &Layouts, content: &[u8]) -> Result<u64, ContentFault>
    requires { length content.now < 2 ^ 56 }
    ensures content { IfOk result (λ c. IsOpened content.now (layout_of layouts.now).tree c) }
    ensures every { let l = (layout_of layouts.now).tree in
        (v : Value) → IsContent l v content.now → result ≡ Ok (cells_of l v) }
    ensures fault { let l = (layout_of layouts.now).tree in
        IfErr result (λ e. open_content content.now l ≡ Err (fault_of e)) }
{
    layouts_are_described(layouts);
    walk_content(layouts, content)
}

// Walks a whole content: the root block as a block of one item, which has to end the content with its blocks.
fn walk_content(layouts: &Layouts, content: &[u8]) -> Result<u64, ContentFault>
    requires { length content.now < 2 ^ 56 }
    ensures { IsWalked content.now (layout_of layouts.now).tree result }
{
    let bits = layouts.bits(0) as u64;
    let first = (bits + 7) / 8;
    if first > content.len() as u64 {
        return Err(ContentFault::Short);
    }
    match check_zero(content, bits, 8 * first - bits) {
        Err(fault) => Err(fault),
        Ok(()) => {
            let mut facts = [Facts {
                cells: 0,
                sure: false,
            }; MOST_NODES];
            note_facts(layouts, &mut facts);
            let cells = cells_at(layouts, &facts, 0);
            match check_part(
                layouts,
                &facts,
                content,
                0,
                0,
                0,
                Reach { next: first, cells },
            ) {
                Ok(end) => {
                    if end.next == content.len() as u64 {
                        Ok(end.cells)
                    } else {
                        Err(ContentFault::Long(content.len() as u64 - end.next))
                    }
                }
                Err(fault) => Err(fault),
            }
        }
    }
}
