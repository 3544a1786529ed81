//! Keeps one large Thrift struct value in one read-only file that is read in place.
#![tactic(auto)]

use frozen_cli::start;
use fz_base::{OsFiles, OsSink};
use std::alloc::Global;
use std::process::ExitCode;
use std::{env, io, rt};

// The words after the program's name.
fn words_of<R: rt::Env + AllocGlobal>(rt: &R) -> io::Result<Vec<String>> {
    Ok(env::args(rt)?.skip(1).collect(rt.alloc())?)
}

fn main(rt: HostRuntime) -> ExitCode {
    let words = words_of(&rt);
    let mut files = OsFiles::new(&rt);
    let mut out = OsSink::new(rt.stdout());
    let mut err = OsSink::new(rt.stderr());
    start(rt.alloc(), words, &mut files, &mut out, &mut err)
}
