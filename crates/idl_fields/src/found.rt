//! The fields of a struct that were read, their names and ids found in order.

ghost use Rattle.std.specs.Prelude.{◌≡◌, ◌++◌, ◌∷◌, [], ℕ, ℤ, List, OnOk, IfErr, cond, true};
ghost use Rattle.std.specs.BTreeSet.{contains};
ghost use Rattle.std.specs.Ordering.{int_eq, int_cmp};
ghost use Rattle.std.specs.List.{list_any};
ghost use Rattle.idl_profile.specs.Judged.{ids};
ghost use Rattle.idl_profile.specs.Meaning.{Entry as Meant};
ghost use Rattle.idl_fields.specs.View.{written_fields};
ghost use Rattle.exact_reading.specs.declared.stop.ReadError.TheVariants as errors;
ghost use Rattle.idl_fields.specs.Found.{IsFound};

use crate::draft::{Id, Whole, WrittenField};
use base_lists::text_at;
use idl_grammar::ReadError;
use name_index::NameIndex;
use std::alloc::Global;
use std::collections::BTreeSet;

// Adds an id.
fn add_id(ids: &mut BTreeSet<i64>, id: Id) -> Result<(), ReadError>
    ensures grows { (z : ℤ) → OnOk result (contains int_cmp ids.new z ≡ cond (int_eq id.id z) true (contains int_cmp ids.old z)) }
    ensures error { IfErr result (λ e. e ≡ errors.NoMemory) }
{
    ids.insert(i64::from(id.id))?;
    Ok(())
}

/// The fields so far, with the index of their names and the set of their ids.
#[derive(Debug, Drop)]
pub struct Found {
    pub fields: Vec<WrittenField>,
    pub(crate) names: NameIndex,
    ids: BTreeSet<i64>,
}

impl Found {
    /// No fields.
    pub fn new(alloc: Global) -> Self
        ensures none { result.fields.items ≡ [] }
        ensures found { (text : List ℕ) (es : List Meant) → IsFound text es result }
    {
        Found {
            fields: Vec::new(alloc),
            names: NameIndex::new(alloc),
            ids: BTreeSet::new(alloc),
        }
    }

    /// Whether a field has this id.
    pub fn has_id(&self, z: Whole) -> bool
        ensures { (text : List ℕ) (es : List Meant) → IsFound text es self.now → result ≡ list_any (λ i. int_eq i z.value) (ids (written_fields text es self.now.fields.items)) }
    {
        self.ids.contains(&z.value)
    }

    /// Adds a field at the end.
    pub fn add(&mut self, alloc: Global, text: &str, field: WrittenField) -> Result<(), ReadError>
        ensures fields { OnOk result (self.new.fields.items ≡ self.old.fields.items ++ field ∷ []) }
        ensures found { (es : List Meant) → IsFound text.now es self.old → OnOk result (IsFound text.now es self.new) }
        ensures error { IfErr result (λ e. e ≡ errors.NoMemory) }
    {
        self.names.push(alloc, text_at(text, field.name))?;
        add_id(&mut self.ids, field.id)?;
        self.fields.push(field)?;
        Ok(())
    }
}
