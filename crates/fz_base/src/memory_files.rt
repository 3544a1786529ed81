// Files in memory: some that fail at the calls that they are told, and some that never fail.
ghost use Rattle.std.specs.Prelude.{◌≡◌, ◌≤◌, ◌<◌, ◌^◌, ◌↔◌, Some, None, Ok, IfOk, IfSome, IsErrOf, length, Contains};
ghost use Rattle.std.specs.Option.{option_copied};
ghost use Rattle.fz_base.specs.Counts.{HasCause, MovesOnlyAt, counted};
ghost use Rattle.fz_base.specs.Files.{Held, ReadsFrom, taken, held_in, entries_of};

use crate::counts::count_up;
use crate::{FileFault, Files};

/// Files in memory. They give at most `step` bytes a call, and fail at the calls whose numbers, from 1, are in `fail`.
#[derive(Drop)]
pub struct MemFiles {
    files: Vec<(String, Vec<u8>)>,
    step: usize,
    fail: Vec<u64>,
    calls: u64,
    faults: u64,
    misses: u64,
    given: u64,
    ghost steps: { 1 ≤ step },
}

impl MemFiles {
    ghost use Rattle.fz_base.specs.MemoryFiles.{step_of, failing, calls_of};

    /// Files by their names; of two with one name the first is held. Takes no memory.
    pub fn new(files: Vec<(String, Vec<u8>)>, step: usize, fail: Vec<u64>) -> Self
        requires { 1 ≤ step }
        ensures held { ⟦<MemFiles as Files>⟧.held result ≡ Some (held_in (entries_of files.items)) }
        ensures faults { ⟦<MemFiles as Files>⟧.faults result ≡ 0 }
        ensures misses { ⟦<MemFiles as Files>⟧.misses result ≡ 0 }
        ensures given { ⟦<MemFiles as Files>⟧.given result ≡ 0 }
        ensures step { step_of result ≡ step }
        ensures failing { failing result ≡ fail.items }
        ensures calls { calls_of result ≡ 0 }
    {
        MemFiles {
            files,
            step,
            fail,
            calls: 0,
            faults: 0,
            misses: 0,
            given: 0,
        }
    }
}

impl Files for MemFiles {
    ghost use Rattle.fz_base.specs.MemoryFiles.{step_of, failing, calls_of};

    ghost held = { λ s. Some (held_in (entries_of s.files.items)) };

    ghost faults = { λ s. s.faults };

    ghost misses = { λ s. s.misses };

    ghost given = { λ s. s.given };

    fn read_at(&mut self, name: &str, at: u64, into: &mut [u8]) -> Result<usize, FileFault>
        ensures bound { IfOk result (λ n. n ≤ length into.new) }
        ensures bytes { IfSome (⟦<MemFiles as Files>⟧.held self.old) (λ held.
            ReadsFrom (held name.now) at result into.new) }
        ensures kept { ⟦<MemFiles as Files>⟧.held self.new ≡ ⟦<MemFiles as Files>⟧.held self.old }
        ensures failed { HasCause (⟦<MemFiles as Files>⟧.faults self.old) (⟦<MemFiles as Files>⟧.faults self.new)
            (IsErrOf result FileFault.Failed) }
        ensures missing { HasCause (⟦<MemFiles as Files>⟧.misses self.old) (⟦<MemFiles as Files>⟧.misses self.new)
            (IsErrOf result FileFault.Missing) }
        ensures unfailed { MovesOnlyAt (⟦<MemFiles as Files>⟧.faults self.old) (⟦<MemFiles as Files>⟧.faults self.new)
            (IsErrOf result FileFault.Failed) }
        ensures unmissed { MovesOnlyAt (⟦<MemFiles as Files>⟧.misses self.old) (⟦<MemFiles as Files>⟧.misses self.new)
            (IsErrOf result FileFault.Missing) }
        ensures given { ⟦<MemFiles as Files>⟧.given self.new
            ≡ counted (⟦<MemFiles as Files>⟧.given self.old) (taken result) }

        // It gives at most a step, and fails exactly at the calls that were asked for.
        ensures step { IfOk result (λ n. n ≤ step_of self.old) }
        ensures on_request { IsErrOf result FileFault.Failed ↔ Contains (failing self.old) (calls_of self.new) }
        ensures calls { calls_of self.new ≡ counted (calls_of self.old) 1 }
        ensures same_step { step_of self.new ≡ step_of self.old }
        ensures same_failing { failing self.new ≡ failing self.old }
    {
        count_up(&mut self.calls, 1);
        if self.fail.contains(&self.calls) {
            count_up(&mut self.faults, 1);
            return Err(FileFault::Failed);
        }
        let room = self.step.min(into.len());
        match find_file(&self.files, name) {
            Some(file) => {
                let count = copy_from(file, at, &mut into[..room]);
                count_up(&mut self.given, count as u64);
                Ok(count)
            }
            None => {
                count_up(&mut self.misses, 1);
                Err(FileFault::Missing)
            }
        }
    }
}

/// Files in memory that never fail.
#[derive(Drop)]
pub struct SureFiles {
    files: Vec<(String, Vec<u8>)>,
    misses: u64,
    given: u64,
}

impl SureFiles {
    /// Files by their names; of two with one name the first is held. Takes no memory.
    pub fn new(files: Vec<(String, Vec<u8>)>) -> Self
        ensures held { ⟦<SureFiles as Files>⟧.held result ≡ Some (held_in (entries_of files.items)) }
        ensures misses { ⟦<SureFiles as Files>⟧.misses result ≡ 0 }
        ensures given { ⟦<SureFiles as Files>⟧.given result ≡ 0 }
    {
        SureFiles {
            files,
            misses: 0,
            given: 0,
        }
    }
}

impl Files for SureFiles {
    ghost held = { λ s. Some (held_in (entries_of s.files.items)) };

    ghost faults = { λ _. 0 };

    ghost misses = { λ s. s.misses };

    ghost given = { λ s. s.given };

    fn read_at(&mut self, name: &str, at: u64, into: &mut [u8]) -> Result<usize, FileFault>
        ensures bound { IfOk result (λ n. n ≤ length into.new) }
        ensures bytes { IfSome (⟦<SureFiles as Files>⟧.held self.old) (λ held.
            ReadsFrom (held name.now) at result into.new) }
        ensures kept { ⟦<SureFiles as Files>⟧.held self.new ≡ ⟦<SureFiles as Files>⟧.held self.old }
        ensures never_failed { ¬ IsErrOf result FileFault.Failed }
        ensures no_faults { ⟦<SureFiles as Files>⟧.faults self.new ≡ 0 }
        ensures failed { HasCause (⟦<SureFiles as Files>⟧.faults self.old) (⟦<SureFiles as Files>⟧.faults self.new)
            (IsErrOf result FileFault.Failed) }
        ensures missing { HasCause (⟦<SureFiles as Files>⟧.misses self.old) (⟦<SureFiles as Files>⟧.misses self.new)
            (IsErrOf result FileFault.Missing) }
        ensures unfailed { MovesOnlyAt (⟦<SureFiles as Files>⟧.faults self.old) (⟦<SureFiles as Files>⟧.faults self.new)
            (IsErrOf result FileFault.Failed) }
        ensures unmissed { MovesOnlyAt (⟦<SureFiles as Files>⟧.misses self.old) (⟦<SureFiles as Files>⟧.misses self.new)
            (IsErrOf result FileFault.Missing) }
        ensures given { ⟦<SureFiles as Files>⟧.given self.new
            ≡ counted (⟦<SureFiles as Files>⟧.given self.old) (taken result) }
    {
        match find_file(&self.files, name) {
            Some(file) => {
                let count = copy_from(file, at, into);
                count_up(&mut self.given, count as u64);
                Ok(count)
            }
            None => {
                count_up(&mut self.misses, 1);
                Err(FileFault::Missing)
            }
        }
    }
}

// The bytes under a name.
fn find_file<'a>(files: &'a [(String, Vec<u8>)], name: &str) -> Option<&'a [u8]>
    ensures { option_copied result ≡ held_in (entries_of files.now) name.now }
{
    for file in files {
        if file.0.as_str() == name {
            return Some(file.1.as_slice());
        }
    }
    None
}

// Copies bytes of a file from `at` on, as many as there are and there is room for.
fn copy_from(file: &[u8], at: u64, into: &mut [u8]) -> usize
    ensures bound { result ≤ length into.new }
    ensures bytes { ReadsFrom (Some file.now) at (Ok result) into.new }
{
    if at >= file.len() as u64 {
        return 0;
    }
    let (_, rest) = file.split_at(at as usize);
    let count = rest.len().min(into.len());
    into[..count].copy_from_slice(&rest[..count]);
    count
}
