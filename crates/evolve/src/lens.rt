//! Lenses: parts of the value of a file under a definition, read where they stand.
ghost use Rattle.std.specs.Prelude.{◌≢◌};
ghost use Rattle.std.specs.Str.{IsUtf8};
ghost use Rattle.idl_profile.specs.declared.kinds.Need.TheVariants.{Optional};
ghost use Rattle.idl_parse.specs.Refs.{type_of_ref, field_of_ref};
ghost use Rattle.frozen_model.specs.Values.{Of};
ghost use Rattle.type_kinds.specs.KindsOf.{kinds_of};
ghost use Rattle.type_kinds.specs.Accepted.{IsAccepted, HasShortTexts};
ghost use Rattle.typed_tree.specs.Sizes.{default_value};
ghost use Rattle.bit_view.specs.Views.{layout_of_view, is_relaxed};
ghost use Rattle.evolve.specs.Binding.{Binds};

use bit_view::View;
use thrift_idl::{FieldRef, TypeRef};

/// A part of the value of a file under a definition. It is of the size of a few numbers, and copied.
#[derive(Clone, Copy)]
pub enum Lens<'a> {
    /// The file has it.
    Stored(Stored<'a>),
    /// The default of a field that the file lacks.
    Default(Lacked<'a>),
}

/// A part that the file has, under a type that binds to its layout.
#[derive(Clone, Copy)]
pub struct Stored<'a> {
    pub(crate) ty: TypeRef<'a>,
    pub(crate) view: View<'a>,
    ghost binds: { ∥ Binds (is_relaxed view) (type_of_ref ty) (layout_of_view view) ∥₁ },
    ghost accepted: { ∥ IsAccepted IsUtf8 (type_of_ref ty) ∥₁ },
    ghost short: { ∥ HasShortTexts (type_of_ref ty) ∥₁ },
}

/// A field that the file lacks and that is not optional, so that its default stands for it.
#[derive(Clone, Copy)]
pub struct Lacked<'a> {
    pub(crate) field: FieldRef<'a>,
    ghost needed: { (field_of_ref field).need ≢ Optional },
    ghost formed: { ∥ Of (kinds_of (field_of_ref field).type) (default_value (field_of_ref field)) ∥₁ },
    ghost accepted: { ∥ IsAccepted IsUtf8 (field_of_ref field).type ∥₁ },
    ghost short: { ∥ HasShortTexts (field_of_ref field).type ∥₁ },
}
