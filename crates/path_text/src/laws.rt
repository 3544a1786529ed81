//! Laws of paths.
ghost use Rattle.std.specs.Prelude.{◌≡◌, ◌⊎◌, ℕ, List};
ghost use Rattle.path_text.specs.Steps.{WholePath};
ghost use Rattle.path_text.specs.Texts.{PathText, PathFaultAt};

/// Each text is one path, or has one fault, and not both.
pub fn paths_have_one_answer()
    ensures one_path { (text : List ℕ) (p q : WholePath) → PathText text p → PathText text q → p ≡ q }
    ensures one_fault { (text : List ℕ) (m n : ℕ) → PathFaultAt text m → PathFaultAt text n → m ≡ n }
    ensures apart { (text : List ℕ) (p : WholePath) (n : ℕ) → PathText text p → PathFaultAt text n → ⊥ }
    ensures some { (text : List ℕ) → ((p : WholePath) × PathText text p) ⊎ ((n : ℕ) × PathFaultAt text n) }
{}
