//! Laws of grammars that are read exactly.

ghost use Rattle.std.specs.Prelude.{◌≡◌, ℕ, ◌++◌, List, [], Result, Option, Some, ◌<◌};
ghost use Rattle.std.specs.List.{AllByRecursion};
ghost use Rattle.exact_reading.specs.declared.stop.Stop.{Stop};
ghost use Rattle.exact_reading.specs.Exact.{Exact};
ghost use Rattle.exact_reading.specs.Causes.{IsTruncated, IsMalformed, IsTrailing, IsCaused};

/// A grammar, and a reader that is exact for it.
pub trait Grammar {
    /// What its texts are lists of.
    type Item;
    /// What its texts stand for.
    type Value;

    ghost admitted: { Self.Item → Type 0 };

    ghost spells: { Self.Value → List Self.Item → Type 0 };

    ghost read: { List Self.Item → Result (Self.Value × List Self.Item) Stop };

    ghost exact: { (n : ℕ) → Exact admitted n spells read };
}

/// No text is a proper front of another.
pub fn texts_are_prefix_free<G: Grammar>()
    ensures { (x y : G.Value) (t rest : List G.Item) → G.spells x t → G.spells y (t ++ rest) → rest ≡ [] }
{}

/// A list is a text of one value at most.
pub fn texts_are_unique<G: Grammar>()
    ensures { (x y : G.Value) (t : List G.Item) → G.spells x t → G.spells y t → x ≡ y }
{}

/// Each answer of the reader has its cause.
pub fn answers_have_causes<G: Grammar>()
    ensures { (items : List G.Item) → AllByRecursion G.admitted items → IsCaused G.spells items (G.read items) }
{}

/// No list is both truncated and malformed, nor is a text either, nor has any of them a text before its end.
pub fn causes_exclude_each_other<G: Grammar>()
    ensures text_truncated { (x : G.Value) (items : List G.Item) → G.spells x items → ¬ IsTruncated G.spells items }
    ensures text_malformed { (x : G.Value) (items : List G.Item) (p : ℕ) → G.spells x items → ¬ IsMalformed G.spells items p }
    ensures text_trailing { (x : G.Value) (items : List G.Item) (p : ℕ) → G.spells x items → ¬ IsTrailing G.spells items p }
    ensures truncated_malformed { (items : List G.Item) (p : ℕ) → IsTruncated G.spells items → ¬ IsMalformed G.spells items p }
    ensures truncated_trailing { (items : List G.Item) (p : ℕ) → IsTruncated G.spells items → ¬ IsTrailing G.spells items p }
    ensures malformed_trailing { (items : List G.Item) (p q : ℕ) → IsMalformed G.spells items p → ¬ IsTrailing G.spells items q }
{}
