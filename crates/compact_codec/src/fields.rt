//! The fields of a struct: those that stood, and the defaults of the others.

ghost use Rattle.std.specs.Prelude.{◌≡◌, ◌<◌, ◌≤◌, ◌++◌, ◌∷◌, ℤ, List, [], Some};
ghost use Rattle.std.specs.Prelude.{length, map, take, drop, OnOk};
ghost use Rattle.frozen_model.specs.Values.{Value, Absent};
ghost use Rattle.idl_parse.specs.Refs.{fields_of_refs};
ghost use Rattle.typed_tree.specs.Filled.{struct_with};
ghost use Rattle.typed_tree.specs.Sizes.{default_value};
ghost use Rattle.typed_tree.specs.Trees.{trees};
ghost use Rattle.typed_reading.specs.Marks.{Marked};
ghost use Rattle.typed_reading.specs.Meaning.{given, field_value};
ghost use Rattle.compact_codec.specs.Building.{without, Holds, AreHeld, AreOfAccepted, AreSet, IsBehind};

use std::alloc::AllocError;
use thrift_idl::{FieldRefs, Need};
use typed_reading::is_marked;
use typed_tree::Builder;

/// The last tree as a field of a struct has it: around an optional one it is put that it is present.
#[inline]
pub fn wrap(need: Need, builder: &mut Builder) -> Result<(), AllocError>
    requires { 0 < length (trees builder.old) }
    ensures { (vs : List Value) (v : Value) → trees builder.old ≡ vs ++ v ∷ []
        → OnOk result (trees builder.new ≡ vs ++ given need (Some v) Absent ∷ []) }
{
    match need {
        Need::Optional => builder.present(),
        Need::Plain => Ok(()),
        Need::Required => Ok(()),
    }
}

/// How many leading fields stood, behind the field at this place.
#[inline(always)]
pub fn filled_behind(place: Option<u32>, filled: u32) -> u32
    ensures { IsBehind place filled result }
{
    match place {
        Some(place) if place == filled => filled.saturating_add(1),
        _ => filled,
    }
}

/// Puts the defaults of the fields that are not marked above a base, and adds their ids. So many leading ones are marked.
fn fill_missing(
    fields: FieldRefs<'_>,
    builder: &mut Builder,
    ids: &mut Vec<i16>,
    marks: &[bool],
    base: usize,
    filled: u32,
) -> Result<(), AllocError>
    requires accepted { AreOfAccepted fields }
    requires filled { AreSet filled (drop base marks.now) }
    ensures trees { (known : List ℤ) → Marked (fields_of_refs fields.entry) (drop base marks.now) known
        → OnOk result (trees builder.new
        ≡ trees builder.old ++ map default_value (without known (fields_of_refs fields.entry))) }
    ensures ids { (known : List ℤ) → Marked (fields_of_refs fields.entry) (drop base marks.now) known
        → OnOk result (ids.new.items
        ≡ ids.old.items ++ map (λ f. f.id) (without known (fields_of_refs fields.entry))) }
{
    for place in filled..fields.count() {
        if is_marked(marks, base, place) {
            continue;
        }
        let field = fields.at(place);
        ids.push(field.id())?;
        builder.fill(field)?;
    }
    Ok(())
}

/// Joins the fields that stood, whose ids and marks lie above these places, with the defaults of the others
/// into a struct. So many leading ones stood. The ids and the marks are let go.
pub fn finish_struct(
    fields: FieldRefs<'_>,
    builder: &mut Builder,
    ids: &mut Vec<i16>,
    marks: &mut Vec<bool>,
    first_id: usize,
    first_mark: usize,
    filled: u32,
) -> Result<(), AllocError>
    requires accepted { AreOfAccepted fields }
    requires held { AreHeld (fields_of_refs fields) (trees builder.old) (drop first_id ids.old.items)
        (drop first_mark marks.old.items) }
    requires first_id { first_id ≤ length ids.old.items }
    requires filled { AreSet filled (drop first_mark marks.old.items) }
    ensures trees { (front : List Value) (rs : List (ℤ × Value))
        → Holds (fields_of_refs fields.entry) front rs (trees builder.old) (drop first_id ids.old.items)
        (drop first_mark marks.old.items)
        → OnOk result (trees builder.new ≡ front
        ++ struct_with (fields_of_refs fields.entry)
        (map (field_value rs) (fields_of_refs fields.entry)) ∷ []) }
    ensures ids { OnOk result (ids.new.items ≡ take first_id ids.old.items) }
    ensures marks { OnOk result (marks.new.items ≡ take first_mark marks.old.items) }
{
    fill_missing(fields, builder, ids, marks.as_slice(), first_mark, filled)?;
    builder.structure(&ids[first_id..])?;
    ids.truncate(first_id);
    marks.truncate(first_mark);
    Ok(())
}
