//! A part of a value put on a builder, part by part.
ghost use Rattle.std.specs.Prelude.{◌≡◌, ◌++◌, ◌∷◌, [], OnOk, map, pos};
ghost use Rattle.frozen_model.specs.Values.{count};
ghost use Rattle.typed_tree.specs.Parts.{IsList, IsSet, IsRow, IsMap, IsRecord, items_of, fields_of, ids_of};
ghost use Rattle.typed_tree.specs.Trees.{trees};
ghost use Rattle.bit_view.specs.Views.{value_of_view, IsOption};
ghost use Rattle.file_value.specs.Putting.{listed, PutPairs};

use bit_view::View;
use compact_codec::{join_map, join_set};
use layout_tree::Kind;
use std::alloc::AllocError;
use typed_tree::Builder;

/// Puts the part. It goes as deep as the layout; `ids` is room for the ids of structs, and is left as it was.
#[cycle(put)]
pub(crate) fn put(
    from: View<'_>,
    ids: &mut Vec<i16>,
    builder: &mut Builder,
) -> Result<(), AllocError>
    ensures trees { OnOk result (trees builder.new ≡ trees builder.old ++ value_of_view from.entry ∷ []) }
    ensures ids { OnOk result (ids.new.items ≡ ids.old.items) }
{
    match from.kind() {
        Kind::Flag => builder.flag(from.flag()),
        Kind::I8 => builder.int(from.int()),
        Kind::I16 => builder.int(from.int()),
        Kind::I32 => builder.int(from.int()),
        Kind::I64 => builder.int(from.int()),
        Kind::Text => builder.text(from.text()),
        Kind::Bytes => builder.bytes(from.bytes()),
        Kind::List => put_list(from, ids, builder),
        Kind::Set => put_set(from, ids, builder),
        Kind::Map => put_map(from, ids, builder),
        Kind::Pair => put_struct(from, ids, builder),
        Kind::Struct => put_struct(from, ids, builder),
        Kind::Optional => put_optional(from, ids, builder),
        Kind::Size => unreachable!(),
    }
}

// Puts the items of a list or a set.
#[cycle(put)]
fn put_items(row: View<'_>, ids: &mut Vec<i16>, builder: &mut Builder) -> Result<(), AllocError>
    requires { IsRow (value_of_view row) }
    ensures trees { OnOk result (trees builder.new
        ≡ trees builder.old ++ listed (items_of (value_of_view row.entry))) }
    ensures ids { OnOk result (ids.new.items ≡ ids.old.items) }
{
    for i in 0..row.len() {
        put(row.item(i), ids, builder)?;
    }
    Ok(())
}

#[cycle(put)]
fn put_list(list: View<'_>, ids: &mut Vec<i16>, builder: &mut Builder) -> Result<(), AllocError>
    requires { IsList (value_of_view list) }
    ensures trees { OnOk result (trees builder.new ≡ trees builder.old ++ value_of_view list.entry ∷ []) }
    ensures ids { OnOk result (ids.new.items ≡ ids.old.items) }
{
    put_items(list, ids, builder)?;
    builder.list(list.len())
}

#[cycle(put)]
fn put_set(set: View<'_>, ids: &mut Vec<i16>, builder: &mut Builder) -> Result<(), AllocError>
    requires { IsSet (value_of_view set) }
    ensures trees { OnOk result (trees builder.new ≡ trees builder.old ++ value_of_view set.entry ∷ []) }
    ensures ids { OnOk result (ids.new.items ≡ ids.old.items) }
{
    put_items(set, ids, builder)?;
    join_set(builder, set.len())
}

// Puts the keys and the values of a map by turns.
#[cycle(put)]
fn put_pairs(map: View<'_>, ids: &mut Vec<i16>, builder: &mut Builder) -> Result<(), AllocError>
    requires { IsMap (value_of_view map) }
    ensures trees { let pairs = items_of (value_of_view map.entry) in
        OnOk result (PutPairs (trees builder.old) (trees builder.new) pairs (count pairs)) }
    ensures ids { OnOk result (ids.new.items ≡ ids.old.items) }
{
    for i in 0..map.len() {
        let pair = map.item(i);
        let key = pair.first();
        let value = pair.second();
        put(key, ids, builder)?;
        put(value, ids, builder)?;
    }
    Ok(())
}

#[cycle(put)]
fn put_map(map: View<'_>, ids: &mut Vec<i16>, builder: &mut Builder) -> Result<(), AllocError>
    requires { IsMap (value_of_view map) }
    ensures trees { OnOk result (trees builder.new ≡ trees builder.old ++ value_of_view map.entry ∷ []) }
    ensures ids { OnOk result (ids.new.items ≡ ids.old.items) }
{
    put_pairs(map, ids, builder)?;
    join_map(builder, map.len())
}

// Puts what an optional has, or that it is absent.
#[cycle(put)]
fn put_optional(from: View<'_>, ids: &mut Vec<i16>, builder: &mut Builder) -> Result<(), AllocError>
    requires { IsOption (value_of_view from) }
    ensures trees { OnOk result (trees builder.new ≡ trees builder.old ++ value_of_view from.entry ∷ []) }
    ensures ids { OnOk result (ids.new.items ≡ ids.old.items) }
{
    if !from.is_set() {
        return builder.absent();
    }
    put(from.inner(), ids, builder)?;
    builder.present()
}

// Puts the fields of a struct, and adds their ids.
#[cycle(put)]
fn put_fields(from: View<'_>, ids: &mut Vec<i16>, builder: &mut Builder) -> Result<(), AllocError>
    requires { IsRecord (value_of_view from) }
    ensures trees { OnOk result (trees builder.new
        ≡ trees builder.old ++ listed (fields_of (value_of_view from.entry))) }
    ensures ids { OnOk result (ids.new.items
        ≡ ids.old.items ++ map pos (ids_of (value_of_view from.entry))) }
{
    let mut fields = from.fields();
    'fields: while let Some((id, field)) = fields.next() {
        put(field, ids, builder)?;
        ids.push(id)?;
    }
    Ok(())
}

#[cycle(put)]
fn put_struct(from: View<'_>, ids: &mut Vec<i16>, builder: &mut Builder) -> Result<(), AllocError>
    requires { IsRecord (value_of_view from) }
    ensures trees { OnOk result (trees builder.new ≡ trees builder.old ++ value_of_view from.entry ∷ []) }
    ensures ids { OnOk result (ids.new.items ≡ ids.old.items) }
{
    let first = ids.len();
    put_fields(from, ids, builder)?;
    builder.structure(&ids[first..])?;
    ids.truncate(first);
    Ok(())
}
