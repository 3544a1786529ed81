//! Lookups of the numbers of the demo's users by their keys.

ghost use Rattle.std.specs.Prelude.{◌≡◌, ◌+◌, ◌≤◌, true, IfOk};
ghost use Rattle.frozen_model.specs.Bits.{digits};
ghost use Rattle.idl_profile.specs.Types.{root_of};
ghost use Rattle.path_text.specs.Steps.{field_step as field_step_of};
ghost use Rattle.path_text.specs.Views.{step_of_kind};
ghost use Rattle.evolve.specs.Lenses.{type_of_lens, value_of_lens};
ghost use Rattle.cli_texts.specs.Demos.{demo as demo_value, demo_definition};
ghost use Rattle.demo_table.specs.Paths.{IsIdPath};

use evolve::Lens;
use fz_base::Steps;
use lens_lookup::lookup;
use path_text::{KeyLit, Path, Step, StepKind};
use std::alloc::{AllocError, Global};
use std::string::String;
use std::sync::ledger::{Blank, Ledger};
use thrift_idl::TypeKind;

/// What lookups of all users came to.
#[derive(Clone, Copy)]
pub(crate) struct Tally {
    /// How many of them answered the number of their user.
    pub(crate) found: u32,
    /// The most steps that one of them took.
    pub(crate) most: u64,
}

/// A step to the field of a name.
fn field_step(alloc: Global, place: u64, name: &str) -> Result<Step, AllocError>
    ensures { IfOk result (λ s. step_of_kind s.kind ≡ field_step_of name.now) }
{
    let mut text = String::new(alloc);
    text.push_str(name)?;
    Ok(Step {
        place,
        kind: StepKind::Field(text),
    })
}

/// The path `.users{1}.id`, whose key is for the caller to set.
pub fn id_path(alloc: Global) -> Result<Path, AllocError>
    ensures { IfOk result IsIdPath }
{
    let mut steps = Vec::with_capacity(alloc, 3)?;
    steps.push(field_step(alloc, 0, "users")?)?;
    steps.push(Step {
        place: 6,
        kind: StepKind::Key(KeyLit::Int(1)),
    })?;
    steps.push(field_step(alloc, 9, "id")?)?;
    Ok(Path { steps, len: 12 })
}

/// Whether a lookup of a user's number by its key answers the key. It takes no memory.
fn is_found<L: Ledger>(
    root: Lens<'_>,
    path: &mut Path,
    n: u32,
    key: u32,
    steps: &mut Steps<L>,
) -> bool
    requires root { type_of_lens root ≡ root_of demo_definition }
    requires value { value_of_lens root ≡ demo_value n }
    requires first { 1 ≤ key }
    requires last { key ≤ n }
    requires few { n ≤ 100000 }
    requires path { IsIdPath path.old }
    ensures path { IsIdPath path.new }
    ensures found { result ≡ true }
    ensures cost { steps.new ≤ steps.old + digits n }
{
    path.steps[1].kind = StepKind::Key(KeyLit::Int(i64::from(key)));
    match lookup(root, path, steps) {
        Some(id) => match id.kind() {
            TypeKind::I32 => id.int() == i64::from(key),
            _ => false,
        },
        None => false,
    }
}

/// Looks each of n users up, and counts the steps of each lookup with one counter.
pub(crate) fn look_all_up<L: Ledger>(blank: Blank, root: Lens<'_>, path: &mut Path, n: u32) -> Tally
    requires name { blank.name ≡ L.name }
    requires parts { blank.parts ≡ L.parts }
    requires root { type_of_lens root ≡ root_of demo_definition }
    requires value { value_of_lens root ≡ demo_value n }
    requires few { n ≤ 100000 }
    requires path { IsIdPath path.old }
    ensures found { result.found ≡ n }
    ensures most { result.most ≤ digits n }
{
    let mut steps = Steps::<L>::new(blank);
    let mut tally = Tally { found: 0, most: 0 };
    for key in 1..n + 1 {
        let before = steps.count();
        if is_found(root, path, n, key, &mut steps) {
            tally.found += 1;
        }
        tally.most = tally.most.max(steps.count().saturating_sub(before));
    }
    tally
}
