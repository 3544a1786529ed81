// The machine's files. They tell no bytes.
ghost use Rattle.std.specs.Prelude.{◌≡◌, ◌≤◌, ◌^◌, None, IfOk, IsErrOf, length};
ghost use Rattle.fz_base.specs.Counts.{HasCause, MovesOnlyAt, counted};
ghost use Rattle.fz_base.specs.Files.{taken};
ghost use Rattle.fz_base.specs.MachineFiles.{AnswersRead};

use crate::counts::count_up;
use crate::{FileFault, Files};
use std::io::{ErrorKind, Read, Seek, SeekFrom};
use std::{fs, io, rt};

/// The machine's files. Each read opens the file, goes to its place and reads once.
#[derive(Drop)]
pub struct OsFiles<'a, R: rt::Files> {
    rt: &'a R,
    faults: u64,
    misses: u64,
    given: u64,
}

impl<'a, R: rt::Files> OsFiles<'a, R> {
    /// The files of a runtime, with all counts 0.
    pub fn new(rt: &'a R) -> Self
        ensures faults { ⟦<OsFiles<'a, R> as Files>⟧.faults result ≡ 0 }
        ensures misses { ⟦<OsFiles<'a, R> as Files>⟧.misses result ≡ 0 }
        ensures given { ⟦<OsFiles<'a, R> as Files>⟧.given result ≡ 0 }
    {
        OsFiles {
            rt,
            faults: 0,
            misses: 0,
            given: 0,
        }
    }

    /// The answer to a read of the machine, which is counted: a file that is not found is missing, and every other
    /// error is a failed read.
    fn answer(&mut self, read: io::Result<usize>) -> Result<usize, FileFault>
        ensures answer { AnswersRead read result }
        ensures failed { HasCause (⟦<OsFiles<'a, R> as Files>⟧.faults self.old)
            (⟦<OsFiles<'a, R> as Files>⟧.faults self.new) (IsErrOf result FileFault.Failed) }
        ensures missing { HasCause (⟦<OsFiles<'a, R> as Files>⟧.misses self.old)
            (⟦<OsFiles<'a, R> as Files>⟧.misses self.new) (IsErrOf result FileFault.Missing) }
        ensures unfailed { MovesOnlyAt (⟦<OsFiles<'a, R> as Files>⟧.faults self.old)
            (⟦<OsFiles<'a, R> as Files>⟧.faults self.new) (IsErrOf result FileFault.Failed) }
        ensures unmissed { MovesOnlyAt (⟦<OsFiles<'a, R> as Files>⟧.misses self.old)
            (⟦<OsFiles<'a, R> as Files>⟧.misses self.new) (IsErrOf result FileFault.Missing) }
        ensures given { ⟦<OsFiles<'a, R> as Files>⟧.given self.new
            ≡ counted (⟦<OsFiles<'a, R> as Files>⟧.given self.old) (taken result) }
    {
        match read {
            Ok(count) => {
                count_up(&mut self.given, count as u64);
                Ok(count)
            }
            Err(e) => match e.kind() {
                ErrorKind::NotFound => {
                    count_up(&mut self.misses, 1);
                    Err(FileFault::Missing)
                }
                _ => {
                    count_up(&mut self.faults, 1);
                    Err(FileFault::Failed)
                }
            },
        }
    }
}

// Opens the file, goes to `at` and reads once.
fn read_once<R: rt::Files>(rt: &R, name: &str, at: u64, into: &mut [u8]) -> io::Result<usize>
    ensures { IfOk result (λ n. n ≤ length into.new) }
{
    let mut file = fs::open(rt, name)?;
    file.seek(SeekFrom::Start(at))?;
    file.read(into)
}

impl<R: rt::Files> Files for OsFiles<'_, R> {
    ghost held = { λ _. None };

    ghost faults = { λ s. s.faults };

    ghost misses = { λ s. s.misses };

    ghost given = { λ s. s.given };

    fn read_at(&mut self, name: &str, at: u64, into: &mut [u8]) -> Result<usize, FileFault> {
        let read = read_once(self.rt, name, at, into);
        self.answer(read)
    }
}
