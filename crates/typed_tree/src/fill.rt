//! What a field has that nobody gave, and what a type has of itself, as trees.

ghost use Rattle.std.specs.Prelude.{◌≡◌, IfOk};
ghost use Rattle.idl_profile.specs.Types.{kind_of};
ghost use Rattle.idl_parse.specs.Refs.{type_of_ref, field_of_ref};
ghost use Rattle.type_kinds.specs.Defaults.{default_of as own_default};
ghost use Rattle.typed_tree.specs.References.{value_of_tree, kind_of_tree};
ghost use Rattle.typed_tree.specs.Sizes.{default_value, field_kinds};
ghost use Rattle.typed_tree.specs.Made.{TreeIsMade};
ghost use Rattle.type_kinds.specs.KindsOf.{kinds_of};
ghost use Rattle.typed_tree.specs.Filled.{default_kind, made_as};

use crate::builder::Builder;
use crate::joined::Joined;
use crate::sizes::{default_room, type_room};
use crate::spot::Spot;
use crate::tree::Tree;
use std::alloc::{AllocError, Global};
use thrift_idl::{DefaultRef, FieldRef, Need, TypeKind, TypeRef};

impl Builder {
    ghost use Rattle.std.specs.Prelude.{◌≤◌, ◌<◌, ◌+◌, [], IsOk, OnOk, OnErr, length, drop};
    ghost use Rattle.idl_profile.specs.Types.{fields_of};
    ghost use Rattle.type_kinds.specs.Defaults.{written};
    ghost use Rattle.typed_tree.specs.declared.tree.TreeKind.TheVariants as made;
    ghost use Rattle.typed_tree.specs.Rooms.{HasRoom, room_of};
    ghost use Rattle.typed_tree.specs.Sizes.{used_by};
    ghost use Rattle.typed_tree.specs.Filled.{struct_with};
    ghost use Rattle.typed_tree.specs.Made.{Makes, FieldsAreMade, holder_of};
    ghost use Rattle.frozen_model.specs.Trees.{KindTree, ItemRange};
    ghost use Rattle.typed_tree.specs.Trees.{room, trees, joined, joined_kind, Pushes, Joins, IsAsBefore};

    /// Puts what the field has that nobody gave: absent where it is optional; else its written default, and else what
    /// its type has of itself: false, zero, empty, or the struct of its fields' defaults. It uses what `default_room`
    /// tells, and goes as deep as the type.
    pub fn fill(&mut self, field: FieldRef<'_>) -> Result<(), AllocError>
        ensures pushed { let f = field_of_ref field.entry in
            OnOk result (Pushes self.old self.new (default_value f) (default_kind f) (used_by (default_value f))) }
        ensures made { let f = field_of_ref field.entry in
            OnOk result (Makes self.old self.new 0 (field_kinds f.need f.type)) }
        ensures failed { OnErr result (IsAsBefore self.old self.new) }
        ensures enough { HasRoom (room self.old) (used_by (default_value (field_of_ref field.entry))) → IsOk result }
    {
        self.make_room(default_room(field))?;
        self.put_default(field);
        Ok(())
    }

    // Puts the default of a field, where there is room for it.
    #[cycle(fill)]
    fn put_default(&mut self, field: FieldRef<'_>)
        requires { HasRoom self.old.room (used_by (default_value (field_of_ref field))) }
        ensures pushed { let f = field_of_ref field.entry in
            Pushes self.old self.new (default_value f) (default_kind f) (used_by (default_value f)) }
        ensures made { let f = field_of_ref field.entry in Makes self.old self.new 0 (field_kinds f.need f.type) }
    {
        match field.need() {
            Need::Optional => self.put(Spot::Absent),
            Need::Plain => self.put_written(field),
            Need::Required => self.put_written(field),
        }
    }

    // Puts a written default, and else the type's own, where there is room for it.
    #[cycle(fill)]
    fn put_written(&mut self, field: FieldRef<'_>)
        requires { let f = field_of_ref field in
            HasRoom self.old.room (used_by (written f.default (own_default f.type))) }
        ensures pushed { let f = field_of_ref field.entry in let v = written f.default (own_default f.type) in
            Pushes self.old self.new v (made_as (kind_of f.type)) (used_by v) }
        ensures made { Makes self.old self.new 0 (kinds_of (field_of_ref field.entry).type) }
    {
        match field.default() {
            DefaultRef::Flag(x) => self.put(Spot::Flag(x)),
            DefaultRef::Int(x) => self.put(Spot::Int(x)),
            DefaultRef::Text(x) => match field.ty().kind() {
                TypeKind::Text => self.put_text(x),
                _ => self.put_binary(x.as_bytes()),
            },
            DefaultRef::Without => self.put_own_default(field.ty()),
            DefaultRef::Empty => self.put_own_default(field.ty()),
        }
    }

    // Puts what a type has of itself, where there is room for it.
    #[cycle(fill)]
    fn put_own_default(&mut self, ty: TypeRef<'_>)
        requires { HasRoom self.old.room (used_by (own_default (type_of_ref ty))) }
        ensures pushed { let t = type_of_ref ty.entry in
            Pushes self.old self.new (own_default t) (made_as (kind_of t)) (used_by (own_default t)) }
        ensures made { Makes self.old self.new 0 (kinds_of (type_of_ref ty.entry)) }
    {
        match ty.kind() {
            TypeKind::Flag => self.put(Spot::Flag(false)),
            TypeKind::I8 => self.put(Spot::Int(0)),
            TypeKind::I16 => self.put(Spot::Int(0)),
            TypeKind::I32 => self.put(Spot::Int(0)),
            TypeKind::I64 => self.put(Spot::Int(0)),
            TypeKind::Enum => self.put(Spot::Int(0)),
            TypeKind::Text => self.put_text(""),
            TypeKind::Bytes => self.put_binary(b""),
            TypeKind::List => self.put_empty(Joined::List),
            TypeKind::Set => self.put_empty(Joined::Set),
            TypeKind::Map => self.put_empty(Joined::Map),
            TypeKind::Struct => self.put_struct(ty),
        }
    }

    // Puts the struct of the defaults of a type's fields, where there is room for it.
    #[cycle(fill)]
    fn put_struct(&mut self, ty: TypeRef<'_>)
        requires kind { kind_of (type_of_ref ty) ≡ TypeKind.Struct }
        requires room { HasRoom self.old.room (used_by (own_default (type_of_ref ty))) }
        ensures pushed { let t = type_of_ref ty.entry in
            Pushes self.old self.new (own_default t) made.Struct (used_by (own_default t)) }
        ensures made { Makes self.old self.new 0 (kinds_of (type_of_ref ty.entry)) }
    {
        let base = self.stack.len();
        for i in 0..ty.field_count() {
            self.put_default(ty.field_at(i));
        }
        self.join_fields(base, ty);
    }

    // Puts a list, a set or a map without items, where there is room for it.
    fn put_empty(&mut self, to: Joined)
        requires { 0 < self.old.room.nodes }
        ensures pushed { Pushes self.old self.new (joined to []) (joined_kind to) (room_of 1 0) }
        ensures made { (t : KindTree) → Makes self.old self.new 0 (ItemRange (holder_of to) tt tt t) }
    {
        let base = self.stack.len();
        self.join(base, to);
    }

    // Joins the trees from a place on the stack on as the fields of a struct, where there is room for it.
    fn join_fields(&mut self, base: usize, ty: TypeRef<'_>)
        requires kind { kind_of (type_of_ref ty) ≡ TypeKind.Struct }
        requires room { 0 < self.old.room.nodes }
        requires as_many { base + length (fields_of (type_of_ref ty)) ≡ length self.old.stack.items }
        ensures joined { let fs = fields_of (type_of_ref ty.entry) in
            Joins self.old self.new (length fs) (struct_with fs (drop base (trees self.old))) made.Struct (room_of 1 0) }
        ensures made { let fs = fields_of (type_of_ref ty.entry) in FieldsAreMade self.old base fs (length fs)
            → Makes self.old self.new (length fs) (kinds_of (type_of_ref ty.entry)) }
    {
        let run = self.pool.add_type_links(ty, &self.stack[base..]);
        self.stack.truncate(base);
        self.put(Spot::Struct(run));
    }
}

/// What the field has that nobody gave, as a tree.
pub fn default_field(alloc: Global, field: FieldRef<'_>) -> Result<Tree, AllocError>
    ensures value { IfOk result (λ t. value_of_tree t ≡ default_value (field_of_ref field.entry)) }
    ensures kind { IfOk result (λ t. kind_of_tree t ≡ default_kind (field_of_ref field.entry)) }
    ensures made { let f = field_of_ref field.entry in IfOk result (TreeIsMade (field_kinds f.need f.type)) }
{
    let mut builder = Builder::new(alloc);
    builder.fill(field)?;
    Ok(builder.finish())
}

/// What the type has of itself, as a tree: false, zero, empty, or the struct of its fields' defaults.
pub fn default_of(alloc: Global, ty: TypeRef<'_>) -> Result<Tree, AllocError>
    ensures value { IfOk result (λ t. value_of_tree t ≡ own_default (type_of_ref ty.entry)) }
    ensures kind { IfOk result (λ t. kind_of_tree t ≡ made_as (kind_of (type_of_ref ty.entry))) }
    ensures made { IfOk result (TreeIsMade (kinds_of (type_of_ref ty.entry))) }
{
    let mut builder = Builder::new(alloc);
    builder.make_room(type_room(ty))?;
    builder.put_own_default(ty);
    Ok(builder.finish())
}
