//! Laws of definition texts.
ghost use Rattle.std.specs.Prelude.{◌≡◌};
ghost use Rattle.idl_tokens.specs.Tokens.{Toks};
ghost use Rattle.idl_grammar.specs.Run.{run};
ghost use Rattle.idl_profile.specs.Text.{whole};
ghost use Rattle.idl_profile.specs.DefText.{Answer, Causes, answer};

/// Tokens have exactly one answer: a definition, a first fault, or that there is no struct.
pub fn tokens_have_one_answer()
    ensures one { (ts : Toks) (a b : Answer) → Causes ts a → Causes ts b → a ≡ b }
    ensures some { (ts : Toks) → Causes ts (answer (run whole ts)) }
{}
