//! The law of printed texts.
ghost use Rattle.std.specs.Prelude.{ℕ, List};
ghost use Rattle.idl_profile.specs.Types.{Named as NamedTree};
ghost use Rattle.idl_parse.specs.Parsed.{DefText};
ghost use Rattle.idl_print.specs.Printed.{printed as printed_of};

/// The text of a definition that some text means, means that definition.
#[tactic(auto, using(crate::proofs::PrintedLaw::printed_means))]
pub fn printed_text_means_the_definition()
    ensures { (text : List ℕ) (d : List NamedTree) → DefText text d → DefText (printed_of d) d }
{}
