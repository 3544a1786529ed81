// Files that are read by name.
ghost use Rattle.std.specs.Prelude.{◌≡◌, ◌≤◌, ℕ, List, Option, IfOk, IfSome, IsErrOf, length};
ghost use Rattle.fz_base.specs.Counts.{HasCause, MovesOnlyAt, counted};
ghost use Rattle.fz_base.specs.Files.{Held, ReadsFrom, taken};

use thiserror::Error;

/// Why a read gave no bytes.
#[derive(Clone, Copy, Debug, PartialEq, Eq, Error)]
pub enum FileFault {
    /// No file has the name.
    #[error("no file has this name")]
    Missing = 1,
    /// The read failed.
    #[error("the read failed")]
    Failed = 2,
}

/// Files that are read by name. Each count only grows, stands still at 2^64 - 1, and moves only where a call gives the
/// answer that it counts.
pub trait Files {
    /// What is held under each name, where it is told.
    ghost held: { Self → Option Held };

    /// How often a read has failed.
    ghost faults: { Self → ℕ };

    /// How often a name was not found.
    ghost misses: { Self → ℕ };

    /// How many bytes were given.
    ghost given: { Self → ℕ };

    /// Reads bytes of the named file from byte `at` on to the front of `into`, and says how many. For a nonempty `into`
    /// that is 0 exactly at the file's end and past it.
    fn read_at(&mut self, name: &str, at: u64, into: &mut [u8]) -> Result<usize, FileFault>
        ensures bound { IfOk result (λ n. n ≤ length into.new) }
        ensures bytes { IfSome (held self.old) (λ held. ReadsFrom (held name.now) at result into.new) }
        ensures kept { held self.new ≡ held self.old }
        ensures failed { HasCause (faults self.old) (faults self.new) (IsErrOf result FileFault.Failed) }
        ensures missing { HasCause (misses self.old) (misses self.new) (IsErrOf result FileFault.Missing) }
        ensures unfailed { MovesOnlyAt (faults self.old) (faults self.new) (IsErrOf result FileFault.Failed) }
        ensures unmissed { MovesOnlyAt (misses self.old) (misses self.new) (IsErrOf result FileFault.Missing) }
        ensures given { given self.new ≡ counted (given self.old) (taken result) };
}
