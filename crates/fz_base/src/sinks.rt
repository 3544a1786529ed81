// Sinks that take bytes, a piece at a time.
ghost use Rattle.std.specs.Prelude.{ℕ, List, Option, IsErr};
ghost use Rattle.fz_base.specs.Counts.{HasCause, MovesOnlyAt};
ghost use Rattle.fz_base.specs.Sink.{WritesSome};

use thiserror::Error;

/// Why a sink took no bytes.
#[derive(Clone, Copy, Debug, PartialEq, Eq, Error)]
pub enum SinkFault {
    /// The write failed.
    #[error("the write failed")]
    Failed,
}

/// A sink that takes bytes. Its count of faults only grows, stands still at 2^64 - 1, and moves only where a write
/// fails.
pub trait Sink {
    /// What was written so far, where it is told.
    ghost written: { Self → Option (List ℕ) };

    /// How often a write has failed.
    ghost faults: { Self → ℕ };

    /// Writes the first bytes of a piece, and says how many: at least one of a nonempty piece. A write that fails
    /// writes nothing.
    fn write(&mut self, bytes: &[u8]) -> Result<usize, SinkFault>
        ensures writes { WritesSome (written self.old) (written self.new) result bytes.now }
        ensures failed { HasCause (faults self.old) (faults self.new) (IsErr result) }
        ensures unfailed { MovesOnlyAt (faults self.old) (faults self.new) (IsErr result) };
}
