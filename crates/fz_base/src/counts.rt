// Counts that only grow, and stand still at their last value.
ghost use Rattle.std.specs.Prelude.{◌≡◌};
ghost use Rattle.fz_base.specs.Counts.{counted};

/// Adds to a count, which stands still at its last value.
pub fn count_up(count: &mut u64, n: u64)
    ensures { count.new ≡ counted count.old n }
{
    *count = count.saturating_add(n);
}
