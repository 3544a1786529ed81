//! Laws of lists in the order of a key.

ghost use Rattle.std.specs.Prelude.{◌≡◌, List, Bool};
ghost use Rattle.std.specs.Ordering.{is_lt};
ghost use Rattle.std.specs.List.Sorted.{IsPermutation, IsSortedByKey, IsStableByKey};
ghost use Rattle.base_lists.specs.InOrder.{in_order};

/// What a stable sort by key gives is insertion by that key.
pub fn stable_sort_is_insertion<T, K: Ord>()
    ensures { (key : T → K) (xs ys : List T) → IsSortedByKey key K.cmp ys → IsStableByKey key K.cmp xs ys
        → ys ≡ in_order (λ a b. is_lt (K.cmp a b)) key xs }
{}

/// Insertion by a key moves items, and adds and drops none.
pub fn insertion_moves<T, K: Ord>()
    ensures { (key : T → K) (xs : List T) → IsPermutation xs (in_order (λ a b. is_lt (K.cmp a b)) key xs) }
{}
