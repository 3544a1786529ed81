//! Adding the types of fields and typedefs.
ghost use Rattle.std.specs.Prelude.{◌≡◌, ◌<◌, ℕ, List, IfOk, IfErr, OnOk, true};
ghost use Rattle.idl_fields.specs.Nodes.{type_at, node_type, parts_below};
ghost use Rattle.idl_fields.specs.View.{types_in, entries_in, contained, written_type, written_field, written_fields, field_of, fields_of};
ghost use Rattle.exact_reading.specs.declared.stop.ReadError.TheVariants as errors;
ghost use Rattle.idl_definitions.specs.Sized.{IsSized, Grows, stands, type_count, fields_placed};

use crate::measure::size_of_node;
use idl_fields::Scope;
use idl_fields::draft::{Container, DraftField, TypeNode, WrittenField, WrittenType};
use idl_grammar::ReadError;
use std::alloc::Global;

// Adds a type with its measures, and answers its place.
fn add_node(text: &str, scope: &mut Scope, node: TypeNode) -> Result<u32, ReadError>
    requires sized { IsSized text.now scope.old }
    requires stands { stands scope.old node ≡ true }
    ensures means { IfOk result (λ i. type_at (types_in scope.new.types) i ≡ node_type (types_in scope.old.types) node) }
    ensures there { IfOk result (λ i. i < type_count scope.new) }
    ensures grows { OnOk result (Grows scope.old scope.new) }
    ensures sized { OnOk result (IsSized text.now scope.new) }
    ensures error { IfErr result (λ e. e ≡ errors.NoMemory) }
{
    let size = size_of_node(text, scope, node);
    let place = scope.types.push(node)?;
    scope.type_sizes.push(size)?;
    Ok(place)
}

// The type with a container around it.
fn around(
    text: &str,
    scope: &mut Scope,
    node: TypeNode,
    container: Container,
) -> Result<TypeNode, ReadError>
    requires sized { IsSized text.now scope.old }
    requires stands { stands scope.old node ≡ true }
    ensures means { IfOk result (λ x. node_type (types_in scope.new.types) x ≡ contained (entries_in text.now scope.old) (node_type (types_in scope.old.types) node) container) }
    ensures stands { IfOk result (λ x. stands scope.new x ≡ true) }
    ensures grows { OnOk result (Grows scope.old scope.new) }
    ensures sized { OnOk result (IsSized text.now scope.new) }
    ensures error { IfErr result (λ e. e ≡ errors.NoMemory) }
{
    let inside = add_node(text, scope, node)?;
    match container {
        Container::List => Ok(TypeNode::List(inside)),
        Container::Set => Ok(TypeNode::Set(inside)),
        Container::Map(word) => {
            let key = scope.type_of(word);
            let key = add_node(text, scope, key)?;
            Ok(TypeNode::Map(key, inside))
        }
    }
}

/// Adds what a type is made of, and answers the type.
pub fn add_type(text: &str, scope: &mut Scope, ty: &WrittenType) -> Result<TypeNode, ReadError>
    requires { IsSized text.now scope.old }
    ensures means { IfOk result (λ x. node_type (types_in scope.new.types) x ≡ written_type (entries_in text.now scope.old) ty.now) }
    ensures stands { IfOk result (λ x. stands scope.new x ≡ true) }
    ensures grows { OnOk result (Grows scope.old scope.new) }
    ensures sized { OnOk result (IsSized text.now scope.new) }
    ensures error { IfErr result (λ e. e ≡ errors.NoMemory) }
{
    let mut node = scope.type_of(ty.word);
    for container in &ty.around {
        node = around(text, scope, node, *container)?;
    }
    Ok(node)
}

// Adds what the type of a field is made of.
fn add_field(text: &str, scope: &mut Scope, field: &WrittenField) -> Result<DraftField, ReadError>
    requires { IsSized text.now scope.old }
    ensures means { IfOk result (λ f. field_of text.now (types_in scope.new.types) f ≡ written_field text.now (entries_in text.now scope.old) field.now) }
    ensures placed { IfOk result (λ f. parts_below (type_count scope.new) f.ty ≡ true) }
    ensures grows { OnOk result (Grows scope.old scope.new) }
    ensures sized { OnOk result (IsSized text.now scope.new) }
    ensures error { IfErr result (λ e. e ≡ errors.NoMemory) }
{
    let ty = add_type(text, scope, &field.ty)?;
    Ok(DraftField {
        id: field.id,
        need: field.need,
        ty,
        name: field.name,
        default: field.default,
    })
}

/// Adds what the types of fields are made of.
pub fn add_fields(
    alloc: Global,
    text: &str,
    scope: &mut Scope,
    fields: &[WrittenField],
) -> Result<Vec<DraftField>, ReadError>
    requires { IsSized text.now scope.old }
    ensures means { IfOk result (λ fs. fields_of text.now (types_in scope.new.types) fs.items ≡ written_fields text.now (entries_in text.now scope.old) fields.now) }
    ensures placed { IfOk result (λ fs. fields_placed (type_count scope.new) fs.items ≡ true) }
    ensures grows { OnOk result (Grows scope.old scope.new) }
    ensures sized { OnOk result (IsSized text.now scope.new) }
    ensures error { IfErr result (λ e. e ≡ errors.NoMemory) }
{
    let mut added = Vec::new(alloc);
    for field in fields {
        let field = add_field(text, scope, field)?;
        added.push(field)?;
    }
    Ok(added)
}
