//! The file of a small value, byte by byte.

ghost use Rattle.std.specs.Prelude.{◌≤◌, IfOk};
ghost use Rattle.idl_profile.specs.Types.{root_of};
ghost use Rattle.idl_parse.specs.Parsed.{definition_of};
ghost use Rattle.type_kinds.specs.KindsOf.{kinds_of};
ghost use Rattle.frozen_model.specs.Values.{Of, cells, cell_limit};
ghost use Rattle.typed_tree.specs.References.{value_of_tree};

use compact_codec::decode;
use frozen_file::{frozen_file, refrozen_file};
use layout_tree::shape;
use std::alloc::Global;
use std::test::Fail;
use thrift_idl::{Definition, parse};
use typed_reading::ValueFault;
use typed_tree::Tree;

// The file of 5 and -1 in version 2, where each number is its base.
pub(crate) const FILE: &[u8] =
    b"FZ2PF\0\0\0\x11\x1B\x03L\0\x15\0\x14\0\x1B\x02L\x02\x14\x02\x14\0\0\x04\x14\x04\x14\0\0\x18\x06struc\
    t\x16\0\0\x02\x15\0\x14\0\x1B\0\x18\x03i32\x16\x0A\0\x04\x15\0\x14\0\x1B\0\x18\x03i32\x16\x01\0\x14\
    \0\x15\x04\0";

// The value of a definition's root that bytes spell.
pub(crate) fn value(alloc: Global, def: &Definition, bytes: &[u8]) -> Result<Tree, ValueFault>
    ensures form { IfOk result (λ t. Of (kinds_of (root_of (definition_of def.now))) (value_of_tree t)) }
    ensures few { IfOk result (λ t.
        cells (kinds_of (root_of (definition_of def.now))) (value_of_tree t) ≤ cell_limit) }
{
    match decode(alloc, def.root(), bytes) {
        Ok(tree) => Ok(tree),
        Err(fault) => Err(fault),
    }
}

#[test]
fn a_file_of_two_numbers(rt: HostRuntime) -> Result<(), Fail> {
    let def = parse(rt.alloc(), b"struct P {1: i32 x; 2: i32 y}")?;
    let tree = value(rt.alloc(), &def, b"\x15\x0A\x15\x01\0")?;
    let bytes = frozen_file(rt.alloc(), &def, tree.top())?;
    assert_eq!(rt; bytes.as_slice(), FILE);
    Ok(())
}

#[test]
fn a_file_of_two_numbers_again(rt: HostRuntime) -> Result<(), Fail> {
    let def = parse(rt.alloc(), b"struct P {1: i32 x; 2: i32 y}")?;
    let tree = value(rt.alloc(), &def, b"\x15\x0A\x15\x01\0")?;
    let blank = shape(rt.alloc(), &def)?;
    let bytes = refrozen_file(rt.alloc(), &blank, tree.top())?;
    assert_eq!(rt; bytes.as_slice(), FILE);
    Ok(())
}
