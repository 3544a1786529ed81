//! What a definition text means is a proper definition.
#![tactic(auto)]

ghost use Rattle.std.specs.Prelude.{ℕ, List};
ghost use Rattle.std.specs.Str.{IsUtf8};
ghost use Rattle.idl_tokens.specs.Tokens.{tokens};
ghost use Rattle.idl_profile.specs.Meaning.{MeantNamed};
ghost use Rattle.idl_profile.specs.DefText.{DefTokens};
ghost use Rattle.idl_proper.specs.Proper.{IsProper};

/// What a UTF-8 text means is a proper definition: its names are words and new and no keywords, its types name
/// what stands before them, its keys are of key types, its defaults fit their types, and the fields of each struct stand
/// by rising ids within the limits.
pub fn definitions_are_proper()
    ensures { (text : List ℕ) (d : List MeantNamed) → IsUtf8 text → DefTokens (tokens text) d → IsProper d }
{}
