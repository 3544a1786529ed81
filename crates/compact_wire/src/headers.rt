//! Headers, read from the front of bytes.

ghost use Rattle.std.specs.Prelude.{◌≡◌, ◌<◌, ◌≤◌, ◌^◌, length, IfOk};
ghost use Rattle.exact_reading.specs.Reading.{Meets, one};
ghost use Rattle.compact_wire.specs.Reads.{list_header as list_header_at, count, element};
ghost use Rattle.compact_wire.specs.Reads.{map_header as map_header_at, field_start as field_start_at};

use crate::header::{
    FieldBefore, FieldHeader, FieldType, ListHeader, PairKinds, field_header, list_header,
    map_header,
};
use crate::kind::{Kind, fits};
use crate::numbers::{read_i16, read_number};
use exact_reading::Stop;

/// The header byte of a list or a set.
#[inline]
pub fn read_list_header(levels: u32, bytes: &[u8]) -> Result<(ListHeader, &[u8]), Stop>
    ensures reads { Meets (λ x. (x.0, x.1.now)) result (one (list_header_at levels) bytes.now) }
    ensures shorter { IfOk result (λ x. length x.1.now < length bytes.now) }
{
    let Some((first, rest)) = bytes.split_first() else {
        return Err(Stop::Ended);
    };
    match list_header(levels, *first) {
        Some(header) => Ok((header, rest)),
        None => Err(Stop::Refused(bytes.len())),
    }
}

/// How many items there are, by the header byte or the number behind it.
#[inline]
pub fn read_count(levels: u32, header: ListHeader, bytes: &[u8]) -> Result<(u64, &[u8]), Stop>
    ensures reads { Meets (λ x. (x.0, x.1.now)) result (count levels header bytes.now) }
    ensures bound { IfOk result (λ x. x.0 < 2 ^ 32) }
    ensures shorter { IfOk result (λ x. length x.1.now ≤ length bytes.now) }
{
    match header {
        ListHeader::Sized(_, size) => Ok((u64::from(size), bytes)),
        ListHeader::Counted(kind) => {
            let greatest = if fits(levels, kind) { 0x7fff_ffff } else { 0 };
            read_number(4, greatest, bytes)
        }
    }
}

/// The byte with the codes of a map's keys and values.
#[inline]
pub fn read_map_header(levels: u32, bytes: &[u8]) -> Result<(PairKinds, &[u8]), Stop>
    ensures reads { Meets (λ x. (x.0, x.1.now)) result (one (map_header_at levels) bytes.now) }
    ensures shorter { IfOk result (λ x. length x.1.now < length bytes.now) }
{
    let Some((first, rest)) = bytes.split_first() else {
        return Err(Stop::Ended);
    };
    match map_header(levels, *first) {
        Some(header) => Ok((header, rest)),
        None => Err(Stop::Refused(bytes.len())),
    }
}

/// The kind of the items.
#[inline]
pub fn element_of(header: ListHeader) -> Kind
    ensures { result ≡ element header }
{
    match header {
        ListHeader::Sized(kind, _) | ListHeader::Counted(kind) => kind,
    }
}

/// The id of the next field and what its code says, or the end of the fields.
#[tactic(auto, unfolding(crate::specs::Reads::field_start))]
#[inline(always)]
pub fn read_field_start(
    levels: u32,
    before: FieldBefore,
    bytes: &[u8],
) -> Result<(Option<(i16, FieldType)>, &[u8]), Stop>
    ensures reads { Meets (λ x. (x.0, x.1.now)) result (field_start_at levels before.id bytes.now) }
    ensures shorter { IfOk result (λ x. length x.1.now < length bytes.now) }
{
    let Some((first, rest)) = bytes.split_first() else {
        return Err(Stop::Ended);
    };
    match field_header(levels, before.id, *first) {
        None => Err(Stop::Refused(bytes.len())),
        Some(FieldHeader::End) => Ok((None, rest)),
        Some(FieldHeader::Step(id, field_type)) => Ok((Some((id, field_type)), rest)),
        Some(FieldHeader::Long(field_type)) => {
            let (id, rest) = read_i16(rest)?;
            Ok((Some((id, field_type)), rest))
        }
    }
}
