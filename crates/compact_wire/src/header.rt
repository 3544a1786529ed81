//! What header bytes say.

ghost use Rattle.std.specs.Prelude.{◌≡◌};
ghost use Rattle.compact_wire.specs.Reads.{kind_at as kind_for_at, list_header as list_header_at};
ghost use Rattle.compact_wire.specs.Reads.{field_type as field_type_at, field_header as field_header_at};
ghost use Rattle.compact_wire.specs.Reads.{map_header as map_header_at};

use crate::kind::{Kind, fits, kind_of};

/// The field that stands before another, by its id: 0 before the first.
#[derive(Clone, Copy)]
pub struct FieldBefore {
    pub id: i16,
}

/// The header of a list or a set.
#[derive(Clone, Copy, Debug)]
pub enum ListHeader {
    /// The size stands in the byte.
    Sized(Kind, u32),
    /// The size stands behind it.
    Counted(Kind),
}

/// The kinds of a map's keys and values.
#[derive(Clone, Copy, Debug)]
pub struct PairKinds {
    pub key: Kind,
    pub value: Kind,
}

/// What a field's code says.
#[derive(Clone, Copy, Debug)]
pub enum FieldType {
    /// The value of a bool.
    Given(bool),
    /// The kind of the value that follows.
    Of(Kind),
}

/// The header byte of a field.
#[derive(Clone, Copy, Debug)]
pub enum FieldHeader {
    /// There is no other field.
    End,
    /// The field has this id.
    Step(i16, FieldType),
    /// The id stands behind the byte.
    Long(FieldType),
}

/// The kind of a type code, where so many levels may still open.
#[tactic(auto, unfolding(crate::specs::Reads::kind_at))]
#[inline]
pub fn kind_at(levels: u32, code: u8) -> Option<Kind>
    ensures { result ≡ kind_for_at levels code }
{
    let kind = kind_of(code)?;
    if fits(levels, kind) { Some(kind) } else { None }
}

/// The header of a list or a set, from its first byte.
#[tactic(auto, unfolding(crate::specs::Reads::list_header))]
#[inline]
pub fn list_header(levels: u32, byte: u8) -> Option<ListHeader>
    ensures { result ≡ list_header_at levels byte }
{
    let kind = kind_of(byte % 16)?;
    let size = byte / 16;
    if size == 15 {
        return Some(ListHeader::Counted(kind));
    }
    if size == 0 || fits(levels, kind) {
        Some(ListHeader::Sized(kind, size as u32))
    } else {
        None
    }
}

/// The kinds of a map's keys and values, from their byte.
#[tactic(auto, unfolding(crate::specs::Reads::map_header))]
#[inline]
pub fn map_header(levels: u32, byte: u8) -> Option<PairKinds>
    ensures { result ≡ map_header_at levels byte }
{
    let key = kind_at(levels, byte / 16)?;
    let value = kind_at(levels, byte % 16)?;
    Some(PairKinds { key, value })
}

/// What a field's code says, where so many levels may still open.
#[tactic(auto, unfolding(crate::specs::Reads::field_type))]
#[inline]
fn field_type(levels: u32, code: u8) -> Option<FieldType>
    ensures { result ≡ field_type_at levels code }
{
    match code {
        1 => Some(FieldType::Given(true)),
        2 => Some(FieldType::Given(false)),
        _ => Some(FieldType::Of(kind_at(levels, code)?)),
    }
}

/// The header of a field behind the field of an id, from its first byte.
#[tactic(auto, unfolding(crate::specs::Reads::field_header))]
#[inline]
pub fn field_header(levels: u32, before: i16, byte: u8) -> Option<FieldHeader>
    ensures { result ≡ field_header_at levels before byte }
{
    if byte == 0 {
        return Some(FieldHeader::End);
    }
    let field_type = field_type(levels, byte % 16)?;
    let delta = byte / 16;
    if delta == 0 {
        return Some(FieldHeader::Long(field_type));
    }
    let id = i32::from(before) + i32::from(delta);
    if id < 32768 {
        Some(FieldHeader::Step(id as i16, field_type))
    } else {
        None
    }
}
