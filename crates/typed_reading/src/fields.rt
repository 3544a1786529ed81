//! The fields of a struct's type, and marks of those that stood.

ghost use Rattle.std.specs.Prelude.{◌≡◌, ◌+◌, ℤ, List, [], ◌∷◌, length, OnOk, true, false, drop, take, slice_index_or, slice_set as set};
ghost use Rattle.idl_profile.specs.Types.{DefField};
ghost use Rattle.idl_parse.specs.Refs.{fields_of_refs};
ghost use Rattle.typed_reading.specs.Faults.{missing, is_required as required};
ghost use Rattle.typed_reading.specs.Marks.{place_in, Marked, ArePlaced, HaveStood, listed};

use std::alloc::AllocError;
use thrift_idl::{FieldRefs, Need};

/// The likely place of the next field: behind this one, if it is known.
#[inline]
pub fn place_behind(place: Option<u32>, likely: u32) -> u32 {
    match place {
        Some(place) => place.saturating_add(1),
        None => likely,
    }
}

/// How many fields from the first on are known to have stood, behind a field of this place.
#[inline(always)]
pub fn stood_behind(place: Option<u32>, stood: u32) -> u32
    ensures { (fs : List DefField) (ids : List ℤ) (id : ℤ) → place ≡ place_in fs id → HaveStood fs ids stood
        → HaveStood fs (id ∷ ids) result }
{
    match place {
        Some(place) if place == stood => stood.saturating_add(1),
        _ => stood,
    }
}

/// Lays marks for the fields of a struct on those that there are, none of them set.
#[inline]
pub fn add_marks(marks: &mut Vec<bool>, fields: FieldRefs<'_>) -> Result<(), AllocError>
    ensures below { OnOk result (take (length marks.old.items) marks.new.items ≡ marks.old.items) }
    ensures added { OnOk result (Marked (fields_of_refs fields.entry) (drop (length marks.old.items) marks.new.items) []) }
{
    let count = fields.count() as usize;
    match marks.len().checked_add(count) {
        Some(len) => marks.resize(len, false),
        None => Err(AllocError),
    }
}

/// Whether the mark at a place above a base is set.
#[inline]
pub fn is_marked(marks: &[bool], base: usize, place: u32) -> bool
    ensures { result ≡ slice_index_or (drop base marks.now) place false }
{
    let place = place as usize;
    if base < marks.len() && place < marks.len() - base {
        marks[base + place]
    } else {
        false
    }
}

/// Sets the mark at a place above a base, and tells whether it was set.
#[inline(always)]
pub fn set_mark(marks: &mut Vec<bool>, base: usize, place: u32) -> bool
    ensures new { marks.new.items ≡ set marks.old.items (base + place) true }
    ensures was { result ≡ slice_index_or (drop base marks.old.items) place false }
{
    let was = is_marked(marks.as_slice(), base, place);
    let place = place as usize;
    if base < marks.len() && place < marks.len() - base {
        marks[base + place] = true;
    }
    was
}

fn is_required(need: Need) -> bool
    ensures { result ≡ required need }
{
    match need {
        Need::Required => true,
        Need::Plain | Need::Optional => false,
    }
}

/// The least id of a required field that did not stand, by the marks above a base. The first so many fields are known to
/// have stood.
pub fn first_missing(fields: FieldRefs<'_>, marks: &[bool], base: usize, from: u32) -> Option<i16>
    requires { ArePlaced (fields_of_refs fields) }
    ensures { (ids : List ℤ) → Marked (fields_of_refs fields.entry) (drop base marks.now) ids
        → HaveStood (fields_of_refs fields.entry) ids from
        → listed result ≡ missing (fields_of_refs fields.entry) ids }
{
    for place in from..fields.count() {
        if !is_marked(marks, base, place) {
            let field = fields.at(place);
            if is_required(field.need()) {
                return Some(field.id());
            }
        }
    }
    None
}
