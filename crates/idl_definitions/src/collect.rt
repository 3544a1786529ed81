//! Adding what was read to what has been defined.
ghost use Rattle.std.specs.Prelude.{◌≡◌, ◌++◌, ◌∷◌, ◌≤◌, [], ℕ, List, IfOk, IfErr, OnOk, true, map, length};
ghost use Rattle.base_lists.specs.Spans.{text_at as text_of_span};
ghost use Rattle.idl_profile.specs.Measures.{named_tree, trees};
ghost use Rattle.idl_profile.specs.Text.{by_id as by_id_of, with_entry, with_enum, with_struct, with_item};
ghost use Rattle.idl_profile.specs.Meaning.{Entry as Meant};
ghost use Rattle.idl_fields.specs.View.{types_in, entries_in, named_in, scope_of, alias_of, member_of, named_of, written_fields};
ghost use Rattle.idl_fields.specs.Indexed.{IsIndexed, IndexesMembers, IndexesNamed};
ghost use Rattle.idl_definitions.specs.Items.{entry, item_of, IsIndexedItem};
ghost use Rattle.idl_definitions.specs.Sizes.{size as size_of};
ghost use Rattle.exact_reading.specs.declared.stop.ReadError.TheVariants as errors;
ghost use Rattle.idl_definitions.specs.Sized.{IsSized, stands, type_count, named_placed};

use crate::growing::{add_fields, add_type};
use crate::items::{Choice, Item};
use crate::measure::{enum_size, size_of_struct};
use base_lists::{Span, text_at};
use idl_fields::draft::{Alias, DraftNamed, Entry, Parts, TypeNode, WrittenField};
use idl_fields::{Scope, Size};
use idl_grammar::ReadError;
use name_index::NameIndex;
use std::alloc::Global;

// The number of the next enum or struct. There is no memory for more than 2^32.
fn next_place(named: &[DraftNamed]) -> Result<u32, ReadError>
    ensures number { IfOk result (λ n. n ≡ length named.now) }
    ensures error { IfErr result (λ e. e ≡ errors.NoMemory) }
{
    let len = named.len();
    if len < 0x1_0000_0000 {
        Ok(len as u32)
    } else {
        Err(ReadError::NoMemory)
    }
}

// Adds a name for a type.
fn add_entry(
    alloc: Global,
    text: &str,
    scope: &mut Scope,
    name: Span,
    ty: TypeNode,
) -> Result<(), ReadError>
    requires sized { IsSized text.now scope.old }
    requires stands { stands scope.old ty ≡ true }
    ensures entries { OnOk result (scope.new.entries.items ≡ scope.old.entries.items ++ entry name ty ∷ []) }
    ensures named { scope.new.named ≡ scope.old.named }
    ensures types { scope.new.types ≡ scope.old.types }
    ensures sized { OnOk result (IsSized text.now scope.new) }
    ensures indexed { IsIndexed text.now scope.old → OnOk result (IsIndexed text.now scope.new) }
    ensures error { IfErr result (λ e. e ≡ errors.NoMemory) }
{
    scope.names.push(alloc, text_at(text, name))?;
    scope.entries.push(Entry { name, ty })?;
    Ok(())
}

// Adds an enum or a struct with the index of its members' names.
fn add_named(
    text: &str,
    scope: &mut Scope,
    named: DraftNamed,
    names: NameIndex,
    size: Size,
) -> Result<(), ReadError>
    requires sized { IsSized text.now scope.old }
    requires placed { named_placed (type_count scope.old) named ≡ true }
    requires size { size ≡ size_of (named_tree (trees (named_in text.now scope.old)) (named_of text.now (types_in scope.old.types) named)) }
    ensures named { OnOk result (scope.new.named.items ≡ scope.old.named.items ++ named ∷ []) }
    ensures entries { scope.new.entries ≡ scope.old.entries }
    ensures types { scope.new.types ≡ scope.old.types }
    ensures sized { OnOk result (IsSized text.now scope.new) }
    ensures indexed { IsIndexed text.now scope.old → IndexesNamed names (named_of text.now (types_in scope.old.types) named) → OnOk result (IsIndexed text.now scope.new) }
    ensures error { IfErr result (λ e. e ≡ errors.NoMemory) }
{
    scope.named.push(named)?;
    scope.members.push(names)?;
    scope.sizes.push(size)?;
    Ok(())
}

fn add_alias(alloc: Global, text: &str, scope: &mut Scope, alias: Alias) -> Result<(), ReadError>
    requires { IsSized text.now scope.old }
    ensures same { OnOk result (scope_of text.now scope.new ≡ with_entry (scope_of text.now scope.old) (alias_of text.now (entries_in text.now scope.old) alias)) }
    ensures sized { OnOk result (IsSized text.now scope.new) }
    ensures indexed { IsIndexed text.now scope.old → OnOk result (IsIndexed text.now scope.new) }
    ensures error { IfErr result (λ e. e ≡ errors.NoMemory) }
{
    let Alias { name, ty } = alias;
    let ty = add_type(text, scope, &ty)?;
    add_entry(alloc, text, scope, name, ty)
}

fn add_choice(alloc: Global, text: &str, scope: &mut Scope, choice: Choice) -> Result<(), ReadError>
    requires { IsSized text.now scope.old }
    ensures same { OnOk result (scope_of text.now scope.new ≡ with_enum (scope_of text.now scope.old) (text_of_span text.now choice.name) (map (member_of text.now) choice.members.items)) }
    ensures sized { OnOk result (IsSized text.now scope.new) }
    ensures indexed { IsIndexed text.now scope.old → IndexesMembers text.now choice.names choice.members.items → OnOk result (IsIndexed text.now scope.new) }
    ensures error { IfErr result (λ e. e ≡ errors.NoMemory) }
{
    let place = next_place(&scope.named)?;
    let Choice {
        name,
        members,
        names,
    } = choice;
    add_named(
        text,
        scope,
        DraftNamed::Enum(name, members),
        names,
        enum_size(),
    )?;
    add_entry(alloc, text, scope, name, TypeNode::Enum(place))
}

fn add_struct(
    alloc: Global,
    text: &str,
    scope: &mut Scope,
    name: Span,
    fields: &[WrittenField],
) -> Result<(), ReadError>
    requires { IsSized text.now scope.old }
    ensures same { OnOk result (scope_of text.now scope.new ≡ with_struct (scope_of text.now scope.old) (text_of_span text.now name) (written_fields text.now (entries_in text.now scope.old) fields.now)) }
    ensures sized { OnOk result (IsSized text.now scope.new) }
    ensures indexed { IsIndexed text.now scope.old → OnOk result (IsIndexed text.now scope.new) }
    ensures error { IfErr result (λ e. e ≡ errors.NoMemory) }
{
    let place = next_place(&scope.named)?;
    let size = size_of_struct(text, scope, fields);
    let added = add_fields(alloc, text, scope, fields)?;
    let named = DraftNamed::Struct(name, added);
    add_named(text, scope, named, NameIndex::new(alloc), size)?;
    add_entry(alloc, text, scope, name, TypeNode::Struct(place))
}

// The fields by rising id.
fn by_id(mut fields: Vec<WrittenField>) -> Result<Vec<WrittenField>, ReadError>
    ensures same { (text : List ℕ) (es : List Meant) → IfOk result (λ sorted. written_fields text es sorted.items ≡ by_id_of (written_fields text es fields.items)) }
    ensures error { IfErr result (λ e. e ≡ errors.NoMemory) }
{
    fields.sort_by_key(|field| field.id.id)?;
    Ok(fields)
}

/// Adds what a definition or a header says.
pub fn add_item(alloc: Global, text: &str, scope: &mut Scope, item: Item) -> Result<(), ReadError>
    requires { IsSized text.now scope.old }
    ensures same { OnOk result (scope_of text.now scope.new ≡ with_item (scope_of text.now scope.old) (item_of text.now (entries_in text.now scope.old) item)) }
    ensures sized { OnOk result (IsSized text.now scope.new) }
    ensures indexed { IsIndexed text.now scope.old → IsIndexedItem text.now item → OnOk result (IsIndexed text.now scope.new) }
    ensures error { IfErr result (λ e. e ≡ errors.NoMemory) }
{
    match item {
        Item::Nothing => Ok(()),
        Item::Alias(alias) => add_alias(alloc, text, scope, alias),
        Item::Choice(choice) => add_choice(alloc, text, scope, choice),
        Item::Structure(parts) => {
            let Parts { name, fields } = parts;
            let fields = by_id(fields)?;
            add_struct(alloc, text, scope, name, &fields)
        }
    }
}
