// The machine's streams. Of what is written they tell what the stream tells.
ghost use Rattle.std.specs.Prelude.{◌≡◌, ◌<◌, ◌^◌};

use crate::counts::count_up;
use crate::{Sink, SinkFault};
use std::io::Write;

/// A stream, as standard output. Each write writes once, and one that takes nothing of a nonempty piece has failed.
/// What was written is told where the stream tells its contents: over memory it does, and over the machine it does not.
#[derive(Drop)]
pub struct OsSink<W> {
    stream: W,
    faults: u64,
}

impl<W: Write> OsSink<W> {
    /// A sink over a stream, with no faults counted.
    pub fn new(stream: W) -> Self
        ensures written { ⟦<OsSink<W> as Sink>⟧.written result ≡ W.contents stream }
        ensures faults { ⟦<OsSink<W> as Sink>⟧.faults result ≡ 0 }
    {
        OsSink { stream, faults: 0 }
    }
}

impl<W: Write> Sink for OsSink<W> {
    ghost written = { λ s. W.contents s.stream };

    ghost faults = { λ s. s.faults };

    fn write(&mut self, bytes: &[u8]) -> Result<usize, SinkFault> {
        if bytes.is_empty() {
            return Ok(0);
        }
        match self.stream.write(bytes) {
            Ok(count) if count > 0 => Ok(count),
            _ => {
                count_up(&mut self.faults, 1);
                Err(SinkFault::Failed)
            }
        }
    }
}
