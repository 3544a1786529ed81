//! Paths whose fields are found once, so that lookups look for no name.
ghost use Rattle.std.specs.Prelude.{◌≡◌};
ghost use Rattle.idl_parse.specs.Refs.{type_of_ref};
ghost use Rattle.path_text.specs.Views.{path_of};
ghost use Rattle.lens_lookup.specs.FittedPaths.{root_type, end_type, path_fitted};

use path_text::{Path, StepKind};
use thrift_idl::{FieldRef, TypeRef};

// A step of a fitted path.
#[derive(Clone, Copy)]
pub(crate) enum FittedStep<'a> {
    // To this field.
    Field(FieldRef<'a>),
    // To an item by its place, or to what stands at a key.
    At(&'a StepKind),
}

/// A path that fits the root of a definition. Each step to a field holds the field, so that a lookup looks
/// for no name.
#[derive(Drop)]
pub struct FittedPath<'a> {
    pub(crate) root: TypeRef<'a>,
    pub(crate) to: TypeRef<'a>,
    pub(crate) path: &'a Path,
    pub(crate) steps: Vec<FittedStep<'a>>,
}

impl<'a> FittedPath<'a> {
    /// The type that the path begins at: the root of the definition.
    pub fn root(&self) -> TypeRef<'a>
        ensures { type_of_ref result ≡ root_type self.now }
    {
        self.root
    }

    /// The type that the path leads to.
    pub fn ty(&self) -> TypeRef<'a>
        ensures { type_of_ref result ≡ end_type self.now }
    {
        self.to
    }

    /// The path that was fitted.
    pub fn path(&self) -> &'a Path
        ensures { path_of result.now ≡ path_fitted self.now }
    {
        self.path
    }
}
