//! Reading a text as a path.
ghost use Rattle.path_text.specs.Answers.{IsParsed};

use crate::fault::PathFault;
use crate::path::{Path, Step};
use crate::reading::read_step;
use std::alloc::Global;

/// The path that a text is (docs/PATHS.md). For a text that is none, [`PathFault::PathSyntax`] has the byte where
/// the first step begins that is written as none. [`PathFault::NoMemory`] is want of memory; no other fault is
/// answered.
pub fn parse_path(alloc: Global, text: &str) -> Result<Path, PathFault>
    ensures { IsParsed text.now result }
{
    let mut steps: Vec<Step> = Vec::new(alloc);
    let mut rest = text.as_bytes();
    'steps: while 0 < rest.len() {
        let place = (text.len() - rest.len()) as u64;
        match read_step(alloc, rest)? {
            Some((kind, behind)) => {
                steps.push(Step { place, kind })?;
                rest = behind;
            }
            None => return Err(PathFault::PathSyntax(place)),
        }
    }
    Ok(Path {
        steps,
        len: text.len() as u64,
    })
}
