//! The least and the greatest of numbers.
ghost use Rattle.std.specs.Prelude.{◌≡◌, ◌<◌, length, [], ◌∷◌};
ghost use Rattle.value_bounds.specs.Seeing.{seen_from, base_by};

/// The least and the greatest of some numbers. Of no number the least is the greatest `i64`, and the greatest
/// the least.
#[derive(Clone, Copy, Debug, PartialEq, Eq)]
pub struct Bounds {
    pub least: i64,
    pub greatest: i64,
}

impl Bounds {
    /// The least number, 0 where there is none.
    #[inline]
    pub fn base(self) -> i64
        ensures { result ≡ base_by self }
    {
        if self.greatest < self.least {
            0
        } else {
            self.least
        }
    }
}

// Takes a number into the bounds of a node.
#[inline]
pub(crate) fn see(bounds: &mut [Bounds], node: u32, x: i64)
    requires { node < length bounds.old }
    ensures { bounds.new ≡ seen_from bounds.old node ((x ∷ []) ∷ []) }
{
    let old = bounds[node as usize];
    bounds[node as usize] = Bounds {
        least: old.least.min(x),
        greatest: old.greatest.max(x),
    };
}
