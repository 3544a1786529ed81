//! Lookups of the numbers of users by their keys.

ghost use Rattle.std.specs.Prelude.{◌≡◌, ◌≤◌};
ghost use Rattle.idl_profile.specs.Types.{root_of};
ghost use Rattle.evolve.specs.Lenses.{type_of_lens};
ghost use Rattle.cli_texts.specs.Demos.{demo_definition};
ghost use Rattle.demo_table.specs.Paths.{IsIdPath};

use evolve::Lens;
use fz_base::Steps;
use lens_lookup::lookup;
use path_text::{KeyLit, Path, StepKind};
use std::marker::Brand;
use std::sync::ledger::{Blank, Ledger};
use thrift_idl::TypeKind;

/// The number of the user with a key, or 0 where there is none.
fn id_at<L: Ledger>(root: Lens<'_>, path: &mut Path, key: u32, steps: &mut Steps<L>) -> i64
    requires root { type_of_lens root ≡ root_of demo_definition }
    requires key { key ≤ 100000 }
    requires path { IsIdPath path.old }
    ensures { IsIdPath path.new }
{
    path.steps[1].kind = StepKind::Key(KeyLit::Int(i64::from(key)));
    match lookup(root, path, steps) {
        Some(id) => match id.kind() {
            TypeKind::I32 => id.int(),
            _ => 0,
        },
        None => 0,
    }
}

/// How many of so many keys, taken here and there of n, are the numbers of their users.
#[inline(never)]
fn found<L: Ledger>(root: Lens<'_>, path: &mut Path, n: u32, many: u32, steps: &mut Steps<L>) -> u32
    requires root { type_of_lens root ≡ root_of demo_definition }
    requires some { 1 ≤ n }
    requires few { n ≤ 100000 }
    requires path { IsIdPath path.old }
    ensures { IsIdPath path.new }
{
    let mut found = 0u32;
    for i in 0..many {
        let key = 1 + (u64::from(i) * 7919 % u64::from(n)) as u32;
        if id_at(root, path, key, steps) == i64::from(key) {
            found = found.wrapping_add(1);
        }
    }
    found
}

/// The same with a counter of its own.
fn found_alone<L: Ledger>(blank: Blank, root: Lens<'_>, path: &mut Path, n: u32, many: u32) -> u32
    requires name { blank.name ≡ L.name }
    requires parts { blank.parts ≡ L.parts }
    requires root { type_of_lens root ≡ root_of demo_definition }
    requires some { 1 ≤ n }
    requires few { n ≤ 100000 }
    requires path { IsIdPath path.old }
    ensures { IsIdPath path.new }
{
    let mut steps = Steps::<L>::new(blank);
    found(root, path, n, many, &mut steps)
}

/// How many of so many keys of n users are found.
pub(crate) fn lookups(root: Lens<'_>, path: &mut Path, n: u32, many: u32) -> u32
    requires root { type_of_lens root ≡ root_of demo_definition }
    requires some { 1 ≤ n }
    requires few { n ≤ 100000 }
    requires path { IsIdPath path.old }
    ensures { IsIdPath path.new }
{
    found_alone::<Brand>(Blank::new(1), root, path, n, many)
}
