//! The law of the demo's definition.
ghost use Rattle.idl_parse.specs.Parsed.{DefText};
ghost use Rattle.cli_texts.specs.Demos.{demo_definition};

use crate::demo::DEMO_DEF;

/// The demo's text means its definition.
pub fn demo_def_means_the_demo()
    ensures { DefText DEMO_DEF.now demo_definition }
{}
