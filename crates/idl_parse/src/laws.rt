//! The law of definition texts.
ghost use Rattle.std.specs.Prelude.{◌≡◌, ◌⊎◌, ℕ, List};
ghost use Rattle.idl_profile.specs.Types.{Named as NamedTree};
ghost use Rattle.idl_parse.specs.declared.fault.DefFault.{DefFault};
ghost use Rattle.idl_parse.specs.Parsed.{DefText, FirstFault};

/// A text has exactly one answer: the definition that it means, or its first fault.
pub fn texts_have_one_answer()
    ensures some { (text : List ℕ) → ((d : List NamedTree) × DefText text d) ⊎ ((e : DefFault) × FirstFault text e) }
    ensures one_definition { (text : List ℕ) (c d : List NamedTree) → DefText text c → DefText text d → c ≡ d }
    ensures one_fault { (text : List ℕ) (d e : DefFault) → FirstFault text d → FirstFault text e → d ≡ e }
    ensures not_both { (text : List ℕ) (d : List NamedTree) (e : DefFault) → DefText text d → FirstFault text e → ⊥ }
{}
