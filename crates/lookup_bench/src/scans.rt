//! The lines of all users.

ghost use Rattle.std.specs.Prelude.{◌≡◌, IfOk};
ghost use Rattle.std.specs.Prelude.{IsOk, IfSome};
ghost use Rattle.idl_profile.specs.Types.{root_of};
ghost use Rattle.idl_parse.specs.Parsed.{definition_of};
ghost use Rattle.path_text.specs.Fitting.{fitted};
ghost use Rattle.path_text.specs.Views.{path_of};
ghost use Rattle.evolve.specs.Lenses.{type_of_lens};

use crate::trouble::Trouble;
use evolve::Lens;
use fz_base::Steps;
use json_line::item_lines;
use lens_lookup::lookup;
use path_text::{Path, fit, parse_path};
use std::alloc::Global;
use std::marker::Brand;
use std::string::String;
use std::sync::ledger::{Blank, Ledger};
use thrift_idl::{Definition, TypeKind};

/// The part at a path, with a counter of its own.
fn part<'a, L: Ledger>(blank: Blank, root: Lens<'a>, path: &Path) -> Option<Lens<'a>>
    requires name { blank.name ≡ L.name }
    requires parts { blank.parts ≡ L.parts }
    requires fits { IsOk (fitted (type_of_lens root) (path_of path.now)) }
{
    let mut steps = Steps::<L>::new(blank);
    lookup(root, path, &mut steps)
}

/// The map of the users.
pub(crate) fn users<'a>(
    alloc: Global,
    def: &Definition,
    root: Lens<'a>,
) -> Result<Lens<'a>, Trouble>
    requires { type_of_lens root ≡ root_of (definition_of def.now) }
{
    let path = parse_path(alloc, ".users")?;
    fit(def, &path)?;
    match part::<Brand>(Blank::new(1), root, &path) {
        Some(users) => Ok(users),
        None => Err(Trouble::Absent),
    }
}

/// Each pair of a map as a line of JSON.
#[inline(never)]
pub(crate) fn lines(alloc: Global, map: Lens<'_>) -> Result<String, Trouble> {
    match map.kind() {
        TypeKind::Map => Ok(item_lines(alloc, map)?),
        _ => Err(Trouble::Absent),
    }
}
