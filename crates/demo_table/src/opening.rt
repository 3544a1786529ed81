//! The demo's definition, and its users' file, opened under it.

ghost use Rattle.std.specs.Prelude.{◌≡◌, ◌<◌, ◌≤◌, ◌^◌, Ok, IfOk, length};
ghost use Rattle.idl_profile.specs.Types.{root_of};
ghost use Rattle.idl_parse.specs.Parsed.{definition_of};
ghost use Rattle.type_kinds.specs.Accepted.{HasShortTexts};
ghost use Rattle.type_kinds.specs.KindsOf.{kinds_of};
ghost use Rattle.frozen_model.specs.Trees.{kinds};
ghost use Rattle.frozen_model.specs.Values.{Value};
ghost use Rattle.frozen_model.specs.Layouts.{Described};
ghost use Rattle.frozen_model.specs.Files.{File, content_of};
ghost use Rattle.layout_tree.specs.Nodes.{layout_of};
ghost use Rattle.layout_schema.specs.Answers.{SchemaBytes};
ghost use Rattle.evolve.specs.Bound.{IsBound};
ghost use Rattle.cli_texts.specs.Demos.{demo_definition};
ghost use Rattle.frozen_file.specs.FrozenFile.{IsFrozenFile};

use cli_texts::{DEMO_DEF, demo_def_means_the_demo};
use evolve::{BindFault, Plan, bind, binding_has_one_answer};
use file_check::{OpenFault, Opened, open_frozen};
use std::alloc::{AllocError, Global};
use thrift_idl::{DefFault, Definition, parse};

/// The definition of the demo.
pub(crate) fn definition(alloc: Global) -> Result<Definition, AllocError>
    ensures demo { IfOk result (λ d. definition_of d ≡ demo_definition) }
    ensures short { IfOk result (λ d. HasShortTexts (root_of (definition_of d))) }
{
    demo_def_means_the_demo();
    match parse(alloc, DEMO_DEF.as_bytes()) {
        Ok(def) => Ok(def),
        Err(DefFault::NoMemory) => Err(AllocError),
        Err(_) => unreachable!(),
    }
}

/// The file of a value, opened.
pub(crate) fn opened<'a>(alloc: Global, bytes: &'a [u8]) -> Result<Opened<'a>, AllocError>
    requires file { (d : Described) × (v : Value) × File SchemaBytes bytes.now d v }
    requires small { length bytes.now < 2 ^ 56 }
    ensures layout { (d : Described) (v : Value) → File SchemaBytes bytes.now d v
        → IfOk result (λ o. layout_of o.layouts ≡ d) }
    ensures content { IfOk result (λ o. o.content.now ≡ content_of bytes.now) }
{
    match open_frozen(alloc, bytes) {
        Ok(opened) => Ok(opened),
        Err(OpenFault::NoMemory) => Err(AllocError),
        Err(_) => unreachable!(),
    }
}

/// The plan by which a definition reads a file of its own kinds.
pub(crate) fn own_plan(
    alloc: Global,
    def: &Definition,
    opened: &Opened<'_>,
) -> Result<Plan, AllocError>
    requires { kinds_of (root_of (definition_of def.now)) ≡ kinds (layout_of opened.now.layouts).tree }
    ensures { IfOk result (λ p.
        IsBound (layout_of opened.now.layouts) (root_of (definition_of def.now)) (Ok p)) }
{
    binding_has_one_answer();
    let _root = def.root();
    match bind(alloc, def, opened) {
        Ok(plan) => Ok(plan),
        Err(BindFault::NoMemory) => Err(AllocError),
        Err(_) => unreachable!(),
    }
}
