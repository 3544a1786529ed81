//! Counts of the cells, the nodes and the bytes of a value.

ghost use Rattle.std.specs.Prelude.{◌≡◌, ℤ, List, drop};
ghost use Rattle.compact_wire.specs.Node.{Node};
ghost use Rattle.idl_profile.specs.Types.{TypeTree};
ghost use Rattle.idl_parse.specs.Refs.{field_of_ref, fields_of_refs};
ghost use Rattle.key_order.specs.Keys.{value_of};
ghost use Rattle.typed_reading.specs.Counts.{count_of, grown, some_bytes as bytes_count, a_scalar, a_holder, an_item, a_struct, by_need as need_count, default_count as count_of_default, defaults_beside, total};
ghost use Rattle.typed_reading.specs.Keys.{key_value};
ghost use Rattle.typed_reading.specs.Marks.{Marked, ArePlaced, HaveStood, IsLeafAs};

use crate::fields::is_marked;
use key_order::Key;
use thrift_idl::{FieldRef, FieldRefs, Need};
use typed_tree::{Room, default_cells, default_room};

/// How many cells a value has, and the room that a tree of it takes. A number above 2^64 - 1 is told as that.
#[derive(Clone, Copy, Debug, PartialEq, Eq)]
pub struct Checked {
    pub cells: u64,
    pub room: Room,
}

/// A count with another one added.
#[tactic(auto, using(crate::proofs::Sums::raised_is))]
#[inline(always)]
pub fn plus(count: Checked, more: Checked) -> Checked
    ensures { result ≡ grown count more }
{
    Checked {
        cells: count.cells.saturating_add(more.cells),
        room: Room {
            nodes: count.room.nodes.saturating_add(more.room.nodes),
            bytes: count.room.bytes.saturating_add(more.room.bytes),
        },
    }
}

/// With a flag or number, or with what makes a value a present one.
#[inline(always)]
pub fn with_scalar(count: Checked) -> Checked
    ensures { result ≡ grown count a_scalar }
{
    plus(count, counts(1, 1, 0))
}

/// Nothing counted yet.
#[inline]
pub fn nothing() -> Checked
    ensures { result ≡ count_of 0 0 0 }
{
    counts(0, 0, 0)
}

#[inline(always)]
fn counts(cells: u64, nodes: u64, bytes: u64) -> Checked
    ensures { result ≡ count_of cells nodes bytes }
{
    Checked {
        cells,
        room: Room { nodes, bytes },
    }
}

/// With a text, or bytes, of this length.
#[inline(always)]
pub fn with_bytes(count: Checked, len: usize) -> Checked
    ensures { result ≡ grown count (bytes_count len) }
{
    let bytes = len as u64;
    plus(count, counts(bytes.saturating_add(2), 1, bytes))
}

/// With a key.
#[inline(always)]
pub fn with_key(count: Checked, key: Key<'_>) -> Checked
    ensures { (t : TypeTree) (w : Node) → IsLeafAs t w → key_value w ≡ value_of key.entry
        → result ≡ grown count (total w t) }
{
    match key {
        Key::Bytes(x) => with_bytes(count, x.len()),
        Key::Number(_) => with_scalar(count),
        Key::Flag(_) => with_scalar(count),
    }
}

/// With a list, a set or a map, without its items.
#[inline(always)]
pub fn with_holder(count: Checked) -> Checked
    ensures { result ≡ grown count a_holder }
{
    plus(count, counts(2, 1, 0))
}

/// With an item, or a pair, beside its parts.
#[inline(always)]
pub fn with_item(count: Checked) -> Checked
    ensures { result ≡ grown count an_item }
{
    plus(count, counts(1, 0, 0))
}

/// With a struct, without its fields.
#[inline(always)]
pub fn with_struct(count: Checked) -> Checked
    ensures { result ≡ grown count a_struct }
{
    plus(count, counts(0, 1, 0))
}

/// With what a field's need adds to a value that stands.
#[inline(always)]
pub fn with_need(count: Checked, need: Need) -> Checked
    ensures { result ≡ grown count (need_count need) }
{
    match need {
        Need::Optional => with_scalar(count),
        Need::Plain | Need::Required => count,
    }
}

/// With what a field has that does not stand.
#[inline]
fn with_default(count: Checked, field: FieldRef<'_>) -> Checked
    ensures { result ≡ grown count (count_of_default (field_of_ref field.entry)) }
{
    plus(
        count,
        Checked {
            cells: default_cells(field),
            room: default_room(field),
        },
    )
}

/// With what the fields have that did not stand, by the marks above a base. The first so many fields are known to have
/// stood.
pub fn with_defaults(
    fields: FieldRefs<'_>,
    marks: &[bool],
    base: usize,
    from: u32,
    count: Checked,
) -> Checked
    requires { ArePlaced (fields_of_refs fields) }
    ensures { (ids : List ℤ) → Marked (fields_of_refs fields.entry) (drop base marks.now) ids
        → HaveStood (fields_of_refs fields.entry) ids from
        → result ≡ grown count (defaults_beside (fields_of_refs fields.entry) ids) }
{
    let mut all = count;
    for place in from..fields.count() {
        if !is_marked(marks, base, place) {
            let field = fields.at(place);
            all = with_default(all, field);
        }
    }
    all
}
