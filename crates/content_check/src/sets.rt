//! Sets.

ghost use Rattle.std.specs.Prelude.{◌≡◌, ◌+◌, ◌*◌, ◌^◌, ◌<◌, ◌≤◌, ℕ, length, None};
ghost use Rattle.frozen_model.specs.Trees.{ASet, IsKey};
ghost use Rattle.frozen_model.specs.Layouts.{stride};
ghost use Rattle.layout_tree.specs.Nodes.{IsNode, at};
ghost use Rattle.layout_tree.specs.Reading.{IsHolder, item_of};
ghost use Rattle.content_check.specs.Agreeing.{IsHere, Agrees, walked, walked_items};
ghost use Rattle.content_check.specs.Facts.{AreFacts};
ghost use Rattle.content_check.specs.Steps.{IsSet};
ghost use Rattle.content_check.specs.Agreeing.{IsBlockHere};

use crate::facts::{Facts, cells_at};
use crate::fault::ContentFault;
use crate::keys::check_key;
use crate::range::{read_range, take_block};
use crate::reach::Reach;
use layout_tree::Layouts;

/// Checks a set.
pub(crate) fn check_set(
    layouts: &Layouts,
    facts: &[Facts],
    content: &[u8],
    node: u32,
    start: u64,
    bit: u64,
    reach: Reach,
) -> Result<Reach, ContentFault>
    requires node { IsNode layouts.now node }
    requires facts { AreFacts layouts.now facts.now }
    requires set { IsSet (at layouts.now node) }
    requires here { IsHere content.now (at layouts.now node) start bit reach }
    ensures { Agrees content.now (walked content.now (at layouts.now node) start bit reach) reach result }
{
    let n = match read_range(layouts, content, node, start, bit, reach) {
        Ok(n) => n,
        Err(fault) => return Err(fault),
    };
    let unit = cells_at(layouts, facts, node + 3) + 1;
    let inner = match take_block(layouts, content, node, n, unit, reach) {
        Ok(inner) => inner,
        Err(fault) => return Err(fault),
    };
    check_set_items(layouts, facts, content, node, n, reach.next, inner)
}

// Checks the items of a set.
fn check_set_items(
    layouts: &Layouts,
    facts: &[Facts],
    content: &[u8],
    node: u32,
    n: u64,
    start: u64,
    from: Reach,
) -> Result<Reach, ContentFault>
    requires node { IsNode layouts.now node }
    requires facts { AreFacts layouts.now facts.now }
    requires holder { IsHolder (at layouts.now node) }
    requires key { IsKey (item_of (at layouts.now node)) }
    requires here { IsBlockHere content.now (item_of (at layouts.now node)) n start from }
    ensures { let l = item_of (at layouts.now node) in
        Agrees content.now (walked_items ASet content.now l n start from) from result }
{
    let stride = layouts.stride(node) as u64;
    let mut bit = 8 * start;
    let mut reach = from;
    let mut before = None;
    let mut left = n;
    while left > 0 {
        match check_key(layouts, content, node + 3, start, bit, reach, before) {
            Ok((key, after)) => {
                before = Some(key);
                reach = after;
            }
            Err(fault) => return Err(fault),
        }
        bit += stride;
        left -= 1;
    }
    Ok(reach)
}
