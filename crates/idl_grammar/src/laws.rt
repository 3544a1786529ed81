//! Laws of reading by a grammar.
ghost use Rattle.std.specs.Prelude.{◌≡◌, Ok, Err};
ghost use Rattle.idl_grammar.specs.declared.fault.LineFault.{LineFault};
ghost use Rattle.idl_tokens.specs.Tokens.{Toks};
ghost use Rattle.idl_grammar.specs.Grammar.{Grammar, Spells, Faulty};
ghost use Rattle.idl_grammar.specs.Run.{run};

/// A grammar over tokens.
pub trait HasGrammar {
    /// What its texts mean.
    type Meaning;

    ghost grammar: { Grammar Self.Meaning };
}

/// Reading by a grammar answers exactly what its texts mean, and stops exactly at the first faulty token.
pub fn reading_is_exact<G: HasGrammar>()
    ensures reads { (ts rest : Toks) (x : G.Meaning) → run G.grammar ts ≡ Ok (x, rest) → Spells G.grammar x ts rest }
    ensures texts { (ts rest : Toks) (x : G.Meaning) → Spells G.grammar x ts rest → run G.grammar ts ≡ Ok (x, rest) }
    ensures stops { (ts : Toks) (e : LineFault) → run G.grammar ts ≡ Err e → Faulty G.grammar ts e }
    ensures faults { (ts : Toks) (e : LineFault) → Faulty G.grammar ts e → run G.grammar ts ≡ Err e }
{}

/// Tokens have one meaning or one first fault, and never both.
pub fn tokens_have_one_answer<G: HasGrammar>()
    ensures meaning { (ts rest left : Toks) (x y : G.Meaning) → Spells G.grammar x ts rest → Spells G.grammar y ts left → (x ≡ y) × (rest ≡ left) }
    ensures fault { (ts : Toks) (d e : LineFault) → Faulty G.grammar ts d → Faulty G.grammar ts e → d ≡ e }
    ensures not_both { (ts rest : Toks) (x : G.Meaning) (e : LineFault) → Spells G.grammar x ts rest → Faulty G.grammar ts e → ⊥ }
{}
