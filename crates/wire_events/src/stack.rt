//! The open containers, in an array with room for all levels.

ghost use Rattle.std.specs.Prelude.{◌≡◌, ◌<◌, ◌≤◌, ◌+◌};
ghost use Rattle.std.specs.Option.{ForSome};
ghost use Rattle.wire_events.specs.Frames.{stack_of, settle, pushed};

use crate::frame::{Frame, is_done};

/// How many of the first `depth` frames are left without those at the end that are over.
pub fn settled(frames: &[Frame; 65], depth: usize) -> usize
    requires { depth ≤ 65 }
    ensures stack { stack_of frames.now result ≡ settle (stack_of frames.now depth) }
    ensures fits { result ≤ depth }
{
    let mut depth = depth;
    'over: while depth > 0 {
        if !is_done(frames[depth - 1]) {
            break;
        }
        depth -= 1;
    }
    depth
}

/// Puts a frame behind the first `depth` ones, where there is one, and answers how many there are then.
pub fn push(frames: &mut [Frame; 65], depth: usize, frame: Option<Frame>) -> usize
    requires room { ForSome frame (λ _. depth < 65) }
    requires in_range { depth ≤ 65 }
    ensures stack { stack_of frames.new result ≡ pushed frame (stack_of frames.old depth) }
    ensures fits { result ≤ depth + 1 }
    ensures in_array { result ≤ 65 }
{
    match frame {
        Some(frame) => {
            frames[depth] = frame;
            depth + 1
        }
        None => depth,
    }
}
