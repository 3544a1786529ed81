//! Ranges.

ghost use Rattle.std.specs.Prelude.{◌≡◌, ℕ, ◌+◌, ◌*◌, ◌^◌, ◌<◌, ◌≤◌, length, None, IfOk};
ghost use Rattle.std.specs.Str.{is_utf8};
ghost use Rattle.frozen_model.specs.Values.{Value, inline_cells};
ghost use Rattle.frozen_model.specs.Layouts.{stride};
ghost use Rattle.frozen_model.specs.Walk.{Walked, range_at};
ghost use Rattle.layout_tree.specs.Nodes.{IsNode, at};
ghost use Rattle.layout_tree.specs.Reading.{IsRange, IsHolder, distance_width, count_width, item_of};
ghost use Rattle.content_check.specs.Agreeing.{IsHere, Agrees, walked};
ghost use Rattle.content_check.specs.Steps.{goes_on, IsByteRange, BlockTaken, BlockLies};

use crate::fault::ContentFault;
use crate::leaf::check_zero;
use crate::reach::Reach;
use bit_field::read_bits;
use layout_tree::Layouts;

const CELL_LIMIT: u64 = 33_554_432;

/// The count of a range, whose distance has to be that of the next block.
#[inline]
pub(crate) fn read_range(
    layouts: &Layouts,
    content: &[u8],
    node: u32,
    start: u64,
    bit: u64,
    reach: Reach,
) -> Result<u64, ContentFault>
    requires node { IsNode layouts.now node }
    requires range { IsRange (at layouts.now node) }
    requires here { IsHere content.now (at layouts.now node) start bit reach }
    ensures goes_on { let l = at layouts.now node in (go : ℕ → Walked Value)
        → range_at content.now (distance_width l) (count_width l) start bit reach.next go
        ≡ goes_on result go }
    ensures few { IfOk result (λ n. n < 2 ^ 32) }
{
    let distance_bits = layouts.distance_bits(node);
    let found = read_bits(content, bit, distance_bits);
    let n = read_bits(
        content,
        bit + distance_bits as u64,
        layouts.count_bits(node),
    );
    let wanted = if n == 0 { 0 } else { reach.next - start };
    if found != wanted {
        return Err(ContentFault::Distance { bit, found, wanted });
    }
    Ok(n)
}

/// Whether bytes are UTF-8.
#[inline]
fn is_text(bytes: &[u8]) -> bool
    ensures { result ≡ is_utf8 bytes.now }
{
    bytes.is_ascii() || str::from_utf8(bytes).is_ok()
}

/// Checks a text or bytes.
pub(crate) fn check_bytes(
    layouts: &Layouts,
    content: &[u8],
    node: u32,
    text: bool,
    start: u64,
    bit: u64,
    reach: Reach,
) -> Result<Reach, ContentFault>
    requires node { IsNode layouts.now node }
    requires bytes { IsByteRange (at layouts.now node) text }
    requires here { IsHere content.now (at layouts.now node) start bit reach }
    ensures { Agrees content.now (walked content.now (at layouts.now node) start bit reach) reach result }
{
    let n = match read_range(layouts, content, node, start, bit, reach) {
        Ok(n) => n,
        Err(fault) => return Err(fault),
    };
    if reach.cells + n > CELL_LIMIT {
        return Err(ContentFault::TooManyCells);
    }
    let next = reach.next + n;
    if next > content.len() as u64 {
        return Err(ContentFault::Short);
    }
    if text && !is_text(&content[reach.next as usize..next as usize]) {
        return Err(ContentFault::BadText(reach.next));
    }
    Ok(Reach {
        next,
        cells: reach.cells + n,
    })
}

/// Takes the block of a list, set or map of `n` items, each of which has so many cells.
pub(crate) fn take_block(
    layouts: &Layouts,
    content: &[u8],
    node: u32,
    n: u64,
    unit: u64,
    reach: Reach,
) -> Result<Reach, ContentFault>
    requires node { IsNode layouts.now node }
    requires holder { IsHolder (at layouts.now node) }
    requires few { n < 2 ^ 32 }
    requires unit { unit ≡ inline_cells (item_of (at layouts.now node)) + 1 }
    requires light { unit ≤ 65536 }
    requires within { reach.next ≤ length content.now }
    requires small { length content.now < 2 ^ 56 }
    requires cells { reach.cells ≤ 33554432 }
    ensures taken { BlockTaken content.now (item_of (at layouts.now node)) n reach result }
    ensures lies { BlockLies content.now (item_of (at layouts.now node)) n reach result }
{
    let cells = reach.cells + n * unit;
    if cells > CELL_LIMIT {
        return Err(ContentFault::TooManyCells);
    }
    let used = n * layouts.stride(node) as u64;
    let len = (used + 7) / 8;
    if len > content.len() as u64 - reach.next {
        return Err(ContentFault::Short);
    }
    let next = reach.next + len;
    match check_zero(content, 8 * reach.next + used, 8 * len - used) {
        Ok(()) => Ok(Reach { next, cells }),
        Err(fault) => Err(fault),
    }
}
