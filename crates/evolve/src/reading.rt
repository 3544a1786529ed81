//! What a lens tells of its own part. None of the calls takes memory.
ghost use Rattle.std.specs.Prelude.{◌≡◌};
ghost use Rattle.idl_profile.specs.Types.{kind_of};
ghost use Rattle.idl_parse.specs.Refs.{type_of_ref, default_of_ref};
ghost use Rattle.frozen_model.specs.Values.{Truth, Number, One, Bytes, count};
ghost use Rattle.typed_tree.specs.Parts.{IsFlag, IsInt, IsText, IsBytes, IsItems, items_of};
ghost use Rattle.evolve.specs.Lenses.{type_of_lens, value_of_lens, HasForm};
ghost use Rattle.evolve.specs.Written.{flag_in, int_in, bytes_in};

use crate::lens::Lens;
use thrift_idl::{DefaultRef, TypeKind, TypeRef};

// The flag that is written, or false.
fn written_flag(default: DefaultRef<'_>) -> bool
    ensures { result ≡ flag_in (default_of_ref default.entry) }
{
    match default {
        DefaultRef::Flag(flag) => flag,
        DefaultRef::Without => false,
        DefaultRef::Int(_) => false,
        DefaultRef::Text(_) => false,
        DefaultRef::Empty => false,
    }
}

// The number that is written, or 0.
fn written_int(default: DefaultRef<'_>) -> i64
    ensures { result ≡ int_in (default_of_ref default.entry) }
{
    match default {
        DefaultRef::Int(number) => number,
        DefaultRef::Without => 0,
        DefaultRef::Flag(_) => 0,
        DefaultRef::Text(_) => 0,
        DefaultRef::Empty => 0,
    }
}

// The text that is written, or the empty one.
fn written_text<'a>(default: DefaultRef<'a>) -> &'a str
    ensures { result.now ≡ bytes_in (default_of_ref default.entry) }
{
    match default {
        DefaultRef::Text(text) => text,
        DefaultRef::Without => "",
        DefaultRef::Flag(_) => "",
        DefaultRef::Int(_) => "",
        DefaultRef::Empty => "",
    }
}

impl<'a> Lens<'a> {
    /// The type of the part.
    #[inline]
    pub fn ty(self) -> TypeRef<'a>
        ensures { type_of_ref result ≡ type_of_lens self.entry }
    {
        match self {
            Lens::Stored(stored) => stored.ty,
            Lens::Default(lacked) => lacked.field.ty(),
        }
    }

    /// What the part's type is.
    #[inline]
    pub fn kind(self) -> TypeKind
        ensures kind { result ≡ kind_of (type_of_lens self.entry) }
        ensures form { HasForm result (value_of_lens self.entry) }
    {
        self.ty().kind()
    }

    /// Whether a flag is set.
    #[inline(always)]
    pub fn flag(self) -> bool
        requires { IsFlag (value_of_lens self) }
        ensures { value_of_lens self.entry ≡ One (Truth result) }
    {
        match self {
            Lens::Stored(stored) => stored.view.flag(),
            Lens::Default(lacked) => written_flag(lacked.field.default()),
        }
    }

    /// A number, also of an enum.
    #[inline(always)]
    pub fn int(self) -> i64
        requires { IsInt (value_of_lens self) }
        ensures { value_of_lens self.entry ≡ One (Number result) }
    {
        match self {
            Lens::Stored(stored) => stored.view.int(),
            Lens::Default(lacked) => written_int(lacked.field.default()),
        }
    }

    /// A text, in the file or in the definition.
    #[inline(always)]
    pub fn text(self) -> &'a str
        requires { IsText (value_of_lens self) }
        ensures { value_of_lens self.entry ≡ Bytes result.now }
    {
        match self {
            Lens::Stored(stored) => stored.view.text(),
            Lens::Default(lacked) => written_text(lacked.field.default()),
        }
    }

    /// Bytes, or the UTF-8 of a text, in the file or in the definition.
    #[inline(always)]
    pub fn bytes(self) -> &'a [u8]
        requires { IsBytes (value_of_lens self) }
        ensures { value_of_lens self.entry ≡ Bytes result.now }
    {
        match self {
            Lens::Stored(stored) => stored.view.bytes(),
            Lens::Default(lacked) => written_text(lacked.field.default()).as_bytes(),
        }
    }

    /// How many items a list or a set has, or pairs a map.
    #[inline]
    pub fn len(self) -> u64
        requires { IsItems (value_of_lens self) }
        ensures { result ≡ count (items_of (value_of_lens self.entry)) }
    {
        match self {
            Lens::Stored(stored) => stored.view.len(),
            Lens::Default(_) => 0,
        }
    }
}
