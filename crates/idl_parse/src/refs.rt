//! The accessors of types and fields. None takes memory.
ghost use Rattle.std.specs.Prelude.{◌≡◌, ◌<◌, ◌^◌, ◌⊎◌, List, [], Some, None, length, option_map, slice_get, find, position, IfSome, true, string_bytes};
ghost use Rattle.std.specs.List.{All, Contains};
ghost use Rattle.std.specs.Ordering.{int_eq};
ghost use Rattle.std.specs.Str.{bytes_eq};
ghost use Rattle.idl_profile.specs.Types.{TypeTree, kind_of, name_of, fields_of, scalar, flag};
ghost use Rattle.idl_profile.specs.Measures.{tree, at, scalar_tree};
ghost use Rattle.idl_fields.specs.Nodes.{type_at};
ghost use Rattle.idl_fields.specs.View.{types_in};
ghost use Rattle.idl_parse.specs.Drafts.{has_few, has_rising, rising, draft_fields, fields_at};
ghost use Rattle.idl_parse.specs.Refs.{type_of_ref, field_of_ref, fields_of_refs, default_of_ref, fields_in, visible, Stands, element_of, key_of, value_of};

use crate::definition::{DefaultRef, Definition, FieldRef, FieldRefs, TypeRef};
use crate::halving::place_in;
use base_lists::text_at;
use idl_fields::draft::{Default, DraftField, DraftNamed, Id, TypeNode};
use idl_profile::{BaseType, Need, TypeKind};

// The enum or struct of this number, if it is one of the first so many.
fn named_at(def: &Definition, within: u32, n: u32) -> Option<&DraftNamed>
    ensures stands { Stands def.now within n (option_map (λ x. x.now) result) }
    ensures few { IfSome result (λ x. has_few x.now ≡ true) }
    ensures rising { IfSome result (λ x. has_rising x.now ≡ true) }
    ensures listed { IfSome result (λ x. fields_at def.now.named.items n ≡ draft_fields x.now) }
{
    if n < within {
        match def.named.get(n as usize) {
            Some(one) => Some(one),
            None => None,
        }
    } else {
        None
    }
}

fn named_kind(def: &Definition, within: u32, n: u32) -> TypeKind
    ensures { result ≡ kind_of (at (visible def.now within) n) }
{
    match named_at(def, within, n) {
        Some(DraftNamed::Enum(_, _)) => TypeKind::Enum,
        Some(DraftNamed::Struct(_, _)) => TypeKind::Struct,
        None => TypeKind::Flag,
    }
}

fn base_kind(s: BaseType) -> TypeKind
    ensures { result ≡ kind_of (scalar_tree s) }
{
    match s {
        BaseType::Flag => TypeKind::Flag,
        BaseType::I8 => TypeKind::I8,
        BaseType::I16 => TypeKind::I16,
        BaseType::I32 => TypeKind::I32,
        BaseType::I64 => TypeKind::I64,
        BaseType::Text => TypeKind::Text,
        BaseType::Bytes => TypeKind::Bytes,
    }
}

fn named_name<'a>(def: &'a Definition, within: u32, n: u32) -> &'a str
    ensures { result.now ≡ name_of (at (visible def.now within) n) }
{
    match named_at(def, within, n) {
        Some(DraftNamed::Enum(name, _)) => text_at(&def.text, *name),
        Some(DraftNamed::Struct(name, _)) => text_at(&def.text, *name),
        None => "",
    }
}

fn named_fields<'a>(def: &'a Definition, within: u32, n: u32) -> &'a [DraftField]
    ensures fields { fields_in def.now n result.now ≡ fields_of (at (visible def.now within) n) }
    ensures few { length result.now < 2 ^ 32 }
    ensures rising { rising result.now ≡ true }
    ensures listed { All (Contains (fields_at def.now.named.items n)) result.now }
{
    match named_at(def, within, n) {
        Some(DraftNamed::Enum(_, _)) => &[],
        Some(DraftNamed::Struct(_, fields)) => fields.as_slice(),
        None => &[],
    }
}

// The fields of the enum or struct of this number, if it is one of the first so many. An enum has none.
fn refs_to<'a>(def: &'a Definition, within: u32, n: u32) -> FieldRefs<'a>
    ensures { fields_of_refs result ≡ fields_of (at (visible def.now within) n) }
{
    let fields = named_fields(def, within, n);
    FieldRefs {
        def,
        within: n,
        fields,
    }
}

// No fields.
fn no_fields<'a>(def: &'a Definition) -> FieldRefs<'a>
    ensures { fields_of_refs result ≡ [] }
{
    FieldRefs {
        def,
        within: 0,
        fields: &[],
    }
}

impl<'a> TypeRef<'a> {
    /// What the type is.
    pub fn kind(self) -> TypeKind
        ensures { result ≡ kind_of (type_of_ref self.entry) }
    {
        match self.node {
            TypeNode::Enum(n) => named_kind(self.def, self.within, n),
            TypeNode::Struct(n) => named_kind(self.def, self.within, n),
            TypeNode::Base(s) => base_kind(s),
            TypeNode::List(_) => TypeKind::List,
            TypeNode::Set(_) => TypeKind::Set,
            TypeNode::Map(_, _) => TypeKind::Map,
        }
    }

    /// The name of an enum or a struct; of any other type the empty text.
    pub fn name(self) -> &'a str
        ensures { result.now ≡ name_of (type_of_ref self.entry) }
    {
        match self.node {
            TypeNode::Enum(n) => named_name(self.def, self.within, n),
            TypeNode::Struct(n) => named_name(self.def, self.within, n),
            TypeNode::Base(_) | TypeNode::List(_) | TypeNode::Set(_) | TypeNode::Map(_, _) => "",
        }
    }

    // The type at a place in the list of types.
    fn at(self, place: u32) -> TypeRef<'a>
        ensures { type_of_ref result ≡ tree (visible self.entry.def.now self.entry.within) (type_at (types_in self.entry.def.now.types) place) }
    {
        TypeRef {
            def: self.def,
            within: self.within,
            node: self.def.types.at(place),
        }
    }

    /// The type of a list's items or a set's elements.
    pub fn element(self) -> TypeRef<'a>
        requires { (kind_of (type_of_ref self) ≡ TypeKind.List) ⊎ (kind_of (type_of_ref self) ≡ TypeKind.Set) }
        ensures { type_of_ref result ≡ element_of (type_of_ref self.entry) }
    {
        match self.node {
            TypeNode::List(x) => self.at(x),
            TypeNode::Set(x) => self.at(x),
            TypeNode::Enum(_) => self,
            TypeNode::Struct(_) => self,
            TypeNode::Base(_) | TypeNode::Map(_, _) => self,
        }
    }

    /// The type of a map's keys.
    pub fn key(self) -> TypeRef<'a>
        requires { kind_of (type_of_ref self) ≡ TypeKind.Map }
        ensures { type_of_ref result ≡ key_of (type_of_ref self.entry) }
    {
        match self.node {
            TypeNode::Map(x, _) => self.at(x),
            TypeNode::Enum(_) => self,
            TypeNode::Struct(_) => self,
            TypeNode::Base(_) | TypeNode::List(_) | TypeNode::Set(_) => self,
        }
    }

    /// The type of a map's values.
    pub fn value(self) -> TypeRef<'a>
        requires { kind_of (type_of_ref self) ≡ TypeKind.Map }
        ensures { type_of_ref result ≡ value_of (type_of_ref self.entry) }
    {
        match self.node {
            TypeNode::Map(_, y) => self.at(y),
            TypeNode::Enum(_) => self,
            TypeNode::Struct(_) => self,
            TypeNode::Base(_) | TypeNode::List(_) | TypeNode::Set(_) => self,
        }
    }
}

impl<'a> TypeRef<'a> {
    /// The fields of a struct, found once for all that is asked of them. Any other type has none.
    #[inline]
    pub fn fields(self) -> FieldRefs<'a>
        ensures { fields_of_refs result ≡ fields_of (type_of_ref self.entry) }
    {
        match self.node {
            TypeNode::Enum(n) => refs_to(self.def, self.within, n),
            TypeNode::Struct(n) => refs_to(self.def, self.within, n),
            TypeNode::Base(_) | TypeNode::List(_) | TypeNode::Set(_) | TypeNode::Map(_, _) => {
                no_fields(self.def)
            }
        }
    }

    /// The number of a struct's fields.
    pub fn field_count(self) -> u32
        requires { kind_of (type_of_ref self) ≡ TypeKind.Struct }
        ensures { result ≡ length (fields_of (type_of_ref self.entry)) }
    {
        self.fields().count()
    }

    /// A struct's field by its place, from 0, in the order of rising ids.
    pub fn field_at(self, i: u32) -> FieldRef<'a>
        requires kind { kind_of (type_of_ref self) ≡ TypeKind.Struct }
        requires place { i < length (fields_of (type_of_ref self)) }
        ensures { slice_get (fields_of (type_of_ref self.entry)) i ≡ Some (field_of_ref result) }
    {
        self.fields().at(i)
    }

    /// The place of a struct's field by its id, from 0, in the order of rising ids. None exactly where there is none.
    pub fn place_of(self, id: i16) -> Option<u32>
        requires { kind_of (type_of_ref self) ≡ TypeKind.Struct }
        ensures { result ≡ position (λ f. int_eq f.id id) (fields_of (type_of_ref self.entry)) }
    {
        self.fields().place_of(id)
    }

    /// A struct's field by its id. None exactly where there is none.
    pub fn field(self, id: i16) -> Option<FieldRef<'a>>
        requires { kind_of (type_of_ref self) ≡ TypeKind.Struct }
        ensures { option_map field_of_ref result ≡ find (λ f. int_eq f.id id) (fields_of (type_of_ref self.entry)) }
    {
        self.fields().find(id)
    }

    /// A struct's field by its name. None exactly where there is none.
    pub fn field_named(self, name: &str) -> Option<FieldRef<'a>>
        requires { kind_of (type_of_ref self) ≡ TypeKind.Struct }
        ensures { option_map field_of_ref result ≡ find (λ f. bytes_eq f.name name.now) (fields_of (type_of_ref self.entry)) }
    {
        self.fields().named(name)
    }
}

impl<'a> FieldRefs<'a> {
    /// How many fields there are, fewer than 2^32.
    #[inline]
    pub fn count(self) -> u32
        ensures { result ≡ length (fields_of_refs self.entry) }
    {
        self.fields.len() as u32
    }

    /// The field at a place, from 0.
    #[inline]
    pub fn at(self, i: u32) -> FieldRef<'a>
        requires { i < length (fields_of_refs self) }
        ensures { slice_get (fields_of_refs self.entry) i ≡ Some (field_of_ref result) }
    {
        FieldRef {
            def: self.def,
            within: self.within,
            field: &self.fields[i as usize],
        }
    }

    /// The place of the field with an id, from 0. None exactly where there is none.
    pub fn place_of(self, id: i16) -> Option<u32>
        ensures { result ≡ position (λ f. int_eq f.id id) (fields_of_refs self.entry) }
    {
        place_in(self.fields, Id { id })
    }

    /// The place of the field with an id, from 0. None exactly where there is none. The place `likely` is tried first.
    #[inline(always)]
    pub fn place_near(self, id: i16, likely: u32) -> Option<u32>
        ensures { result ≡ position (λ f. int_eq f.id id) (fields_of_refs self.entry) }
    {
        match self.fields.get(likely as usize) {
            Some(field) if field.id.id == id => Some(likely),
            _ => self.place_of(id),
        }
    }

    // The field with an id. None exactly where there is none.
    fn find(self, id: i16) -> Option<FieldRef<'a>>
        ensures { option_map field_of_ref result ≡ find (λ f. int_eq f.id id) (fields_of_refs self.entry) }
    {
        match self.place_of(id) {
            Some(place) => Some(self.at(place)),
            None => None,
        }
    }

    // The field with a name. None exactly where there is none.
    fn named(self, name: &str) -> Option<FieldRef<'a>>
        ensures { option_map field_of_ref result ≡ find (λ f. bytes_eq f.name name.now) (fields_of_refs self.entry) }
    {
        let FieldRefs {
            def,
            within,
            fields,
        } = self;
        for field in fields {
            if text_at(&def.text, field.name) == name {
                return Some(FieldRef { def, within, field });
            }
        }
        None
    }
}

impl<'a> FieldRef<'a> {
    /// The field's number.
    pub fn id(self) -> i16
        ensures { result ≡ (field_of_ref self.entry).id }
    {
        self.field.id.id
    }

    /// The field's name.
    pub fn name(self) -> &'a str
        ensures { result.now ≡ (field_of_ref self.entry).name }
    {
        text_at(&self.def.text, self.field.name)
    }

    /// Whether the field has to be there.
    pub fn need(self) -> Need
        ensures { result ≡ (field_of_ref self.entry).need }
    {
        self.field.need
    }

    /// The field's type.
    pub fn ty(self) -> TypeRef<'a>
        ensures { type_of_ref result ≡ (field_of_ref self.entry).type }
    {
        TypeRef {
            def: self.def,
            within: self.within,
            node: self.field.ty,
        }
    }

    /// The field's default, as it is written.
    pub fn default(self) -> DefaultRef<'a>
        ensures { default_of_ref result ≡ (field_of_ref self.entry).default }
    {
        match self.field.default {
            Default::Without => DefaultRef::Without,
            Default::Flag(b) => DefaultRef::Flag(b),
            Default::Int(n) => DefaultRef::Int(n.value),
            Default::Text(x) => DefaultRef::Text(text_at(&self.def.text, x)),
            Default::Empty => DefaultRef::Empty,
        }
    }
}
