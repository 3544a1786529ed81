//! Fitting a path to a definition.
ghost use Rattle.std.specs.Prelude.{◌≡◌, ℕ, IfErr};
ghost use Rattle.exact_reading.specs.Reading.{Meets};
ghost use Rattle.idl_profile.specs.Types.{root_of, kind_of};
ghost use Rattle.idl_parse.specs.Parsed.{definition_of};
ghost use Rattle.idl_parse.specs.Refs.{type_of_ref};
ghost use Rattle.path_text.specs.Answers.{IsMisfit};
ghost use Rattle.path_text.specs.Fitting.{is_key_of, key_to as key_to_of, step_to as step_to_of, fitted, is_container as is_container_of, scanned};
ghost use Rattle.path_text.specs.Steps.{int_key, field_step, index_step, key_step};
ghost use Rattle.path_text.specs.Views.{key_of_literal, step_of_kind, path_of};

use crate::fault::PathFault;
use crate::path::{KeyLit, Path, Step, StepKind};
use thrift_idl::{Definition, TypeKind, TypeRef};

// Whether a number is one of a kind of whole numbers; an enum has those of i32.
fn is_number_of(kind: TypeKind, n: i64) -> bool
    ensures { result ≡ is_key_of kind (int_key n) }
{
    match kind {
        TypeKind::I8 => i8::try_from(n).is_ok(),
        TypeKind::I16 => i16::try_from(n).is_ok(),
        TypeKind::I32 | TypeKind::Enum => i32::try_from(n).is_ok(),
        TypeKind::I64 => true,
        _ => false,
    }
}

// Whether a key literal is a key of this kind.
fn is_key(kind: TypeKind, key: &KeyLit) -> bool
    ensures { result ≡ is_key_of kind (key_of_literal key.now) }
{
    match key {
        KeyLit::Int(n) => is_number_of(kind, *n),
        KeyLit::Flag(_) => matches!(kind, TypeKind::Flag),
        KeyLit::Text(_) => matches!(kind, TypeKind::Text),
        KeyLit::Bytes(_) => matches!(kind, TypeKind::Bytes),
    }
}

// What a container has at a key, where its keys are of this type.
fn key_to<'a>(
    keys: TypeRef<'a>,
    key: &KeyLit,
    to: TypeRef<'a>,
    place: u64,
) -> Result<TypeRef<'a>, PathFault>
    ensures { Meets (λ t. type_of_ref t) result (key_to_of place (key_of_literal key.now) (type_of_ref keys.entry) (type_of_ref to.entry)) }
{
    if is_key(keys.kind(), key) {
        Ok(to)
    } else {
        Err(PathFault::BadKey(place))
    }
}

// Where the field of a name leads from a type.
fn to_field<'a>(from: TypeRef<'a>, name: &str, place: u64) -> Result<TypeRef<'a>, PathFault>
    ensures { Meets (λ t. type_of_ref t) result (step_to_of place (field_step name.now) (type_of_ref from.entry)) }
{
    match from.kind() {
        TypeKind::Struct => match from.field_named(name) {
            Some(field) => Ok(field.ty()),
            None => Err(PathFault::NoField(place)),
        },
        _ => Err(PathFault::NotAStep(place)),
    }
}

// Where an index leads from a type, whatever the index.
fn to_item<'a>(from: TypeRef<'a>, place: u64) -> Result<TypeRef<'a>, PathFault>
    ensures { (i : ℕ) → Meets (λ t. type_of_ref t) result (step_to_of place (index_step i) (type_of_ref from.entry)) }
{
    match from.kind() {
        TypeKind::List => Ok(from.element()),
        _ => Err(PathFault::NotAStep(place)),
    }
}

// Where a key leads from a type.
fn to_key<'a>(from: TypeRef<'a>, key: &KeyLit, place: u64) -> Result<TypeRef<'a>, PathFault>
    ensures { Meets (λ t. type_of_ref t) result (step_to_of place (key_step (key_of_literal key.now)) (type_of_ref from.entry)) }
{
    match from.kind() {
        TypeKind::Set => key_to(from.element(), key, from.element(), place),
        TypeKind::Map => key_to(from.key(), key, from.value(), place),
        _ => Err(PathFault::NotAStep(place)),
    }
}

// Where a step leads from a type.
fn step_to<'a>(from: TypeRef<'a>, step: &Step) -> Result<TypeRef<'a>, PathFault>
    ensures { Meets (λ t. type_of_ref t) result (step_to_of step.now.place (step_of_kind step.now.kind) (type_of_ref from.entry)) }
{
    match &step.kind {
        StepKind::Field(name) => to_field(from, name.as_str(), step.place),
        StepKind::Index(_) => to_item(from, step.place),
        StepKind::Key(key) => to_key(from, key, step.place),
    }
}

/// The type that a path leads to from the root of a definition, or its misfit: the first step that does not
/// fit, with the byte where it begins (docs/PATHS.md). A misfit is [`PathFault::NoField`],
/// [`PathFault::NotAStep`] or [`PathFault::BadKey`]. No memory is taken.
pub fn fit<'a>(def: &'a Definition, path: &Path) -> Result<TypeRef<'a>, PathFault>
    ensures leads { Meets (λ t. type_of_ref t) result (fitted (root_of (definition_of def.now)) (path_of path.now)) }
    ensures misfit { IfErr result IsMisfit }
{
    let mut reached = def.root();
    for step in &path.steps {
        reached = step_to(reached, step)?;
    }
    Ok(reached)
}

// Whether values of this kind have items: whether it is a list, a set or a map.
fn is_container(kind: TypeKind) -> bool
    ensures { result ≡ is_container_of kind }
{
    matches!(kind, TypeKind::List | TypeKind::Set | TypeKind::Map)
}

/// The same for a scan, which goes over items: where the type at the path is no list, set or map, the misfit
/// is [`PathFault::NotAStep`] at the path's length (docs/PATHS.md). No memory is taken.
pub fn fit_scan<'a>(def: &'a Definition, path: &Path) -> Result<TypeRef<'a>, PathFault>
    ensures leads { Meets (λ t. type_of_ref t) result (scanned (root_of (definition_of def.now)) (path_of path.now)) }
    ensures misfit { IfErr result IsMisfit }
{
    let reached = fit(def, path)?;
    if is_container(reached.kind()) {
        Ok(reached)
    } else {
        Err(PathFault::NotAStep(path.len))
    }
}
