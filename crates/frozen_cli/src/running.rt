// The top call, and the start of the program.
ghost use Rattle.std.specs.Prelude.{map, string_bytes};
ghost use Rattle.std.specs.Process.{exit_status};
ghost use Rattle.frozen_cli.specs.Changes.{seen, sent};
ghost use Rattle.frozen_cli.specs.Run.{Runs, Starts};

use crate::answer::answer;
use crate::deliver::deliver;
use fz_base::{Files, Sink};
use std::alloc::Global;
use std::io::{self, ErrorKind};
use std::process::ExitCode;

/// Runs the command that the words spell, and gives the exit status, from 0 to 6.
pub fn run<F: Files, O: Sink, E: Sink>(
    alloc: Global,
    words: &Vec<String>,
    files: &mut F,
    out: &mut O,
    err: &mut E,
) -> u8
    ensures { Runs (map string_bytes words.now.items) (seen F.held F.misses F.faults files.old files.new)
        (sent O.written O.faults out.old out.new) (sent E.written E.faults err.old err.new) result }
{
    let answer = answer(alloc, words, files);
    deliver(alloc, answer, out, err)
}

/// The program, of which `main` only makes the parts: a run of the words, where they can be had.
pub fn start<F: Files, O: Sink, E: Sink>(
    alloc: Global,
    words: io::Result<Vec<String>>,
    files: &mut F,
    out: &mut O,
    err: &mut E,
) -> ExitCode
    ensures { Starts words (seen F.held F.misses F.faults files.old files.new)
        (sent O.written O.faults out.old out.new) (sent E.written E.faults err.old err.new)
        (exit_status result) }
{
    match words {
        Ok(words) => ExitCode::from(run(alloc, &words, files, out, err)),
        Err(e) => match e.kind() {
            ErrorKind::OutOfMemory => ExitCode::from(6),
            _ => ExitCode::from(2),
        },
    }
}
