//! A part of a file put on a builder, part by part.
ghost use Rattle.std.specs.Prelude.{◌≡◌, ◌++◌, ◌∷◌, [], ◌⊎◌, OnOk, IfSome, map, option_map};
ghost use Rattle.idl_profile.specs.Types.{kind_of, fields_of};
ghost use Rattle.idl_parse.specs.Refs.{field_of_ref};
ghost use Rattle.frozen_model.specs.Values.{count};
ghost use Rattle.typed_tree.specs.Parts.{items_of, fields_of as values_in};
ghost use Rattle.typed_tree.specs.Trees.{trees};
ghost use Rattle.evolve.specs.Lenses.{type_of_lens, value_of_lens};
ghost use Rattle.file_value.specs.Putting.{listed, PutPairs};
ghost use Rattle.lens_values.specs.Putting.{field_from};

use crate::joining::wrap;
use compact_codec::{join_map, join_set};
use evolve::Lens;
use std::alloc::AllocError;
use thrift_idl::{FieldRef, TypeKind};
use typed_tree::Builder;

/// Puts the part. It goes as deep as the type; `ids` is room for the ids of structs, and is left as it was.
#[cycle(put)]
pub(crate) fn put(
    from: Lens<'_>,
    ids: &mut Vec<i16>,
    builder: &mut Builder,
) -> Result<(), AllocError>
    ensures trees { OnOk result (trees builder.new ≡ trees builder.old ++ value_of_lens from.entry ∷ []) }
    ensures ids { OnOk result (ids.new.items ≡ ids.old.items) }
{
    match from.kind() {
        TypeKind::Flag => builder.flag(from.flag()),
        TypeKind::I8 => builder.int(from.int()),
        TypeKind::I16 => builder.int(from.int()),
        TypeKind::I32 => builder.int(from.int()),
        TypeKind::I64 => builder.int(from.int()),
        TypeKind::Enum => builder.int(from.int()),
        TypeKind::Text => builder.text(from.text()),
        TypeKind::Bytes => builder.bytes(from.bytes()),
        TypeKind::List => put_list(from, ids, builder),
        TypeKind::Set => put_set(from, ids, builder),
        TypeKind::Map => put_map(from, ids, builder),
        TypeKind::Struct => put_struct(from, ids, builder),
    }
}

// Puts the items of a list or a set.
#[cycle(put)]
fn put_items(row: Lens<'_>, ids: &mut Vec<i16>, builder: &mut Builder) -> Result<(), AllocError>
    requires { (kind_of (type_of_lens row) ≡ TypeKind.List) ⊎ (kind_of (type_of_lens row) ≡ TypeKind.Set) }
    ensures trees { OnOk result (trees builder.new
        ≡ trees builder.old ++ listed (items_of (value_of_lens row.entry))) }
    ensures ids { OnOk result (ids.new.items ≡ ids.old.items) }
{
    for i in 0..row.len() {
        put(row.item(i), ids, builder)?;
    }
    Ok(())
}

#[cycle(put)]
fn put_list(list: Lens<'_>, ids: &mut Vec<i16>, builder: &mut Builder) -> Result<(), AllocError>
    requires { kind_of (type_of_lens list) ≡ TypeKind.List }
    ensures trees { OnOk result (trees builder.new ≡ trees builder.old ++ value_of_lens list.entry ∷ []) }
    ensures ids { OnOk result (ids.new.items ≡ ids.old.items) }
{
    put_items(list, ids, builder)?;
    builder.list(list.len())
}

#[cycle(put)]
fn put_set(set: Lens<'_>, ids: &mut Vec<i16>, builder: &mut Builder) -> Result<(), AllocError>
    requires { kind_of (type_of_lens set) ≡ TypeKind.Set }
    ensures trees { OnOk result (trees builder.new ≡ trees builder.old ++ value_of_lens set.entry ∷ []) }
    ensures ids { OnOk result (ids.new.items ≡ ids.old.items) }
{
    put_items(set, ids, builder)?;
    join_set(builder, set.len())
}

// Puts the keys and the values of a map by turns.
#[cycle(put)]
fn put_pairs(map: Lens<'_>, ids: &mut Vec<i16>, builder: &mut Builder) -> Result<(), AllocError>
    requires { kind_of (type_of_lens map) ≡ TypeKind.Map }
    ensures trees { let pairs = items_of (value_of_lens map.entry) in
        OnOk result (PutPairs (trees builder.old) (trees builder.new) pairs (count pairs)) }
    ensures ids { OnOk result (ids.new.items ≡ ids.old.items) }
{
    for i in 0..map.len() {
        let (key, value) = map.entry(i);
        put(key, ids, builder)?;
        put(value, ids, builder)?;
    }
    Ok(())
}

#[cycle(put)]
fn put_map(map: Lens<'_>, ids: &mut Vec<i16>, builder: &mut Builder) -> Result<(), AllocError>
    requires { kind_of (type_of_lens map) ≡ TypeKind.Map }
    ensures trees { OnOk result (trees builder.new ≡ trees builder.old ++ value_of_lens map.entry ∷ []) }
    ensures ids { OnOk result (ids.new.items ≡ ids.old.items) }
{
    put_pairs(map, ids, builder)?;
    join_map(builder, map.len())
}

// Puts what a field has, or that it is absent.
#[cycle(put)]
fn put_part<'a>(
    field: FieldRef<'a>,
    part: Option<Lens<'a>>,
    ids: &mut Vec<i16>,
    builder: &mut Builder,
) -> Result<(), AllocError>
    requires { IfSome part (λ l. type_of_lens l ≡ (field_of_ref field).type) }
    ensures trees { OnOk result (trees builder.new ≡ trees builder.old
        ++ field_from (field_of_ref field.entry).need (option_map value_of_lens part.entry) ∷ []) }
    ensures ids { OnOk result (ids.new.items ≡ ids.old.items) }
{
    match part {
        None => builder.absent(),
        Some(there) => {
            put(there, ids, builder)?;
            wrap(builder, field.need())
        }
    }
}

// Puts the fields of a struct, and adds their ids.
#[cycle(put)]
fn put_fields(from: Lens<'_>, ids: &mut Vec<i16>, builder: &mut Builder) -> Result<(), AllocError>
    requires { kind_of (type_of_lens from) ≡ TypeKind.Struct }
    ensures trees { OnOk result (trees builder.new
        ≡ trees builder.old ++ listed (values_in (value_of_lens from.entry))) }
    ensures ids { OnOk result (ids.new.items
        ≡ ids.old.items ++ map (λ f. f.id) (fields_of (type_of_lens from.entry))) }
{
    let ty = from.ty();
    for i in 0..ty.field_count() {
        let field = ty.field_at(i);
        put_part(field, from.part(field), ids, builder)?;
        ids.push(field.id())?;
    }
    Ok(())
}

#[cycle(put)]
fn put_struct(from: Lens<'_>, ids: &mut Vec<i16>, builder: &mut Builder) -> Result<(), AllocError>
    requires { kind_of (type_of_lens from) ≡ TypeKind.Struct }
    ensures trees { OnOk result (trees builder.new ≡ trees builder.old ++ value_of_lens from.entry ∷ []) }
    ensures ids { OnOk result (ids.new.items ≡ ids.old.items) }
{
    let first = ids.len();
    put_fields(from, ids, builder)?;
    builder.structure(&ids[first..])?;
    ids.truncate(first);
    Ok(())
}
