//! The demo's definition, and the frozen file of its users.

ghost use Rattle.std.specs.Prelude.{◌≡◌, ◌≤◌, IfOk};
ghost use Rattle.idl_parse.specs.Parsed.{definition_of};
ghost use Rattle.cli_texts.specs.Demos.{demo_definition};

use crate::trouble::Trouble;
use cli_texts::{DEMO_DEF, demo_def_means_the_demo, demo_users};
use file_check::compose;
use freezer::{Frozen, freeze};
use std::alloc::{AllocError, Global};
use thrift_idl::{Definition, parse};

/// The definition of the demo.
pub(crate) fn definition(alloc: Global) -> Result<Definition, Trouble>
    ensures { IfOk result (λ d. definition_of d ≡ demo_definition) }
{
    demo_def_means_the_demo();
    let text = DEMO_DEF.as_bytes();
    if text.len() >= 0x8000_0000 {
        return Err(Trouble::Long);
    }
    Ok(parse(alloc, text)?)
}

/// The frozen file of the users with the numbers from 1 to n.
pub(crate) fn users_file(alloc: Global, def: &Definition, n: u32) -> Result<Vec<u8>, AllocError>
    requires demo { definition_of def.now ≡ demo_definition }
    requires some { 1 ≤ n }
    requires few { n ≤ 100000 }
{
    let tree = demo_users(alloc, n)?;
    let Frozen { layouts, content } = freeze(alloc, def, tree.top())?;
    compose(alloc, &layouts, content)
}
