//! Which nodes may stand where.

ghost use Rattle.std.specs.Prelude.{◌≡◌, ◌≤◌, IfSome};
ghost use Rattle.typed_tree.specs.References.{value_of_ref};
ghost use Rattle.layout_schema.specs.Shapes as shapes;
ghost use Rattle.layout_schema.specs.Reading.{IsLayoutValue, entry_told, child_told, place_told, at_told};

use crate::entries::{ChildRef, EntryRef};
use crate::pieces::type_name;
use layout_tree::Kind;

/// Where a node stands.
#[derive(Clone, Copy, Debug, PartialEq, Eq)]
pub(crate) enum Place {
    Root,
    /// A field of a struct.
    InStruct,
    /// The item of a list, of a set, of a map.
    InList,
    InSet,
    InMap,
    /// The first of a pair.
    First,
    /// The second of a pair, and the value of an optional.
    Value,
    /// The isset of an optional.
    Isset,
    /// A distance or a count.
    Size,
}

impl Place {
    /// The place of a child, by its parent's kind and its field.
    pub(crate) fn of_child(parent: Kind, field: i16) -> Place
        ensures { place_told result ≡ shapes.place_of parent field }
    {
        match parent {
            Kind::Struct => Place::InStruct,
            Kind::List if field == 3 => Place::InList,
            Kind::Set if field == 3 => Place::InSet,
            Kind::Map if field == 3 => Place::InMap,
            Kind::Pair if field == 1 => Place::First,
            Kind::Optional if field == 1 => Place::Isset,
            Kind::Pair | Kind::Optional => Place::Value,
            _ => Place::Size,
        }
    }

    /// Whether a node of this kind may stand here.
    pub(crate) fn allows(self, kind: Kind) -> bool
        ensures { result ≡ shapes.may_stand (place_told self) kind }
    {
        match self {
            Place::Root => kind == Kind::Struct,
            Place::InStruct => is_plain(kind) || kind == Kind::Optional,
            Place::InList | Place::Value => is_plain(kind),
            Place::InSet | Place::First => is_key(kind),
            Place::InMap => kind == Kind::Pair,
            Place::Isset => kind == Kind::Flag,
            Place::Size => kind == Kind::Size,
        }
    }

    /// Whether the node's bits are among its parent's; items lie apart.
    pub(crate) fn is_inline(self) -> bool
        ensures { result ≡ shapes.is_inline (place_told self) }
    {
        !matches!(self, Place::InList | Place::InSet | Place::InMap)
    }

    /// By how many levels the node is deeper than its parent.
    pub(crate) fn deeper(self) -> u32
        ensures is { result ≡ shapes.deeper (place_told self) }
        ensures most { result ≤ 1 }
    {
        match self {
            Place::InStruct | Place::InList | Place::InSet | Place::InMap => 1,
            _ => 0,
        }
    }
}

/// Where a node is entered: its place and level, and its parent's number, its field and its bit offset.
#[derive(Clone, Copy)]
pub(crate) struct At {
    pub(crate) place: Place,
    pub(crate) level: u32,
    pub(crate) parent: u32,
    pub(crate) field: i16,
    pub(crate) offset: u32,
}

fn is_key(kind: Kind) -> bool
    ensures { result ≡ shapes.is_key kind }
{
    matches!(
        kind,
        Kind::Flag | Kind::I8 | Kind::I16 | Kind::I32 | Kind::I64 | Kind::Text | Kind::Bytes
    )
}

fn is_plain(kind: Kind) -> bool
    ensures { result ≡ shapes.is_plain kind }
{
    !matches!(kind, Kind::Pair | Kind::Optional | Kind::Size)
}

/// The kind with this type name.
pub(crate) fn kind_named(name: &[u8]) -> Option<Kind>
    ensures { result ≡ shapes.kind_named name.now }
{
    let kinds = [
        Kind::Flag,
        Kind::I8,
        Kind::I16,
        Kind::I32,
        Kind::I64,
        Kind::Text,
        Kind::Bytes,
        Kind::List,
        Kind::Set,
        Kind::Map,
        Kind::Pair,
        Kind::Struct,
        Kind::Optional,
        Kind::Size,
    ];
    for kind in &kinds {
        if name == type_name(*kind) {
            return Some(*kind);
        }
    }
    None
}

// Whether the children have exactly these fields.
fn are_fields(fields: &[i16], entry: EntryRef<'_>) -> bool
    requires { IsLayoutValue (value_of_ref entry.layout) }
    ensures { result ≡ shapes.are_fields fields.now (entry_told entry.entry).children }
{
    if entry.child_count() != fields.len() as u64 {
        return false;
    }
    for i in 0..fields.len() {
        if entry.child(i as u64).field != fields[i] {
            return false;
        }
    }
    true
}

// Whether each child's field is an id from 1 to 32767.
fn are_ids(entry: EntryRef<'_>) -> bool
    requires { IsLayoutValue (value_of_ref entry.layout) }
    ensures { result ≡ shapes.are_ids (entry_told entry.entry).children }
{
    for i in 0..entry.child_count() {
        if entry.child(i).field <= 0 {
            return false;
        }
    }
    true
}

// Whether the children have the fields that they have under the kind.
fn fields_fit(kind: Kind, entry: EntryRef<'_>) -> bool
    requires { IsLayoutValue (value_of_ref entry.layout) }
    ensures { result ≡ shapes.fields_fit kind (entry_told entry.entry).children }
{
    match kind {
        Kind::Struct => are_ids(entry),
        Kind::Text | Kind::Bytes | Kind::Pair | Kind::Optional => are_fields(&[1, 2], entry),
        Kind::List | Kind::Set | Kind::Map => are_fields(&[1, 2, 3], entry),
        _ => are_fields(&[], entry),
    }
}

/// The greatest width of a leaf; other kinds have none.
pub(crate) fn greatest_of(kind: Kind) -> Option<u32>
    ensures is { result ≡ shapes.greatest_of kind }
    ensures most { IfSome result (λ greatest. greatest ≤ 64) }
{
    match kind {
        Kind::Flag => Some(1),
        Kind::I8 => Some(8),
        Kind::I16 => Some(16),
        Kind::I32 | Kind::Size => Some(32),
        Kind::I64 => Some(64),
        _ => None,
    }
}

// Whether a node of the kind may have so many bits, as far as one can tell without its children.
fn is_width(kind: Kind, bits: i16) -> bool
    ensures { result ≡ shapes.is_width (shapes.greatest_of kind) bits }
{
    match greatest_of(kind) {
        Some(greatest) => 0 <= bits && bits as u32 <= greatest,
        None => true,
    }
}

// Whether the base is in the range of its kind of whole numbers, or 0 at another kind.
fn base_fits(kind: Kind, base: i64) -> bool
    ensures { result ≡ shapes.base_fits kind base }
{
    match kind {
        Kind::I8 => -0x80 <= base && base < 0x80,
        Kind::I16 => -0x8000 <= base && base < 0x8000,
        Kind::I32 => -0x8000_0000 <= base && base < 0x8000_0000,
        Kind::I64 => true,
        _ => base == 0,
    }
}

/// Whether the node of this number may be entered there, as one of this kind.
pub(crate) fn may_enter(at: At, number: u32, entry: EntryRef<'_>, kind: Kind) -> bool
    requires { IsLayoutValue (value_of_ref entry.layout) }
    ensures { result ≡ shapes.may_enter (at_told at) number (entry_told entry.entry) kind }
{
    number < 4096
        && entry.size() == 0
        && at.place.allows(kind)
        && fields_fit(kind, entry)
        && is_width(kind, entry.bits())
        && base_fits(kind, entry.base())
        && at.level <= 32
}

/// Whether the parent names the child by this number, and has it at this bit offset.
pub(crate) fn is_named(child: ChildRef, number: u32, offset: u32) -> bool
    ensures { result ≡ shapes.is_named (child_told child) number offset }
{
    i64::from(child.number) == i64::from(number) && i64::from(child.offset) == -i64::from(offset)
}
