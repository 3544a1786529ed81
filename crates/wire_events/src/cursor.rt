//! A cursor over the events of a struct.

ghost use Rattle.std.specs.Prelude.{◌≡◌, ◌≤◌, ◌-◌, ℕ, List, [], ◌∷◌, length, drop, Some};
ghost use Rattle.compact_wire.specs.Node.{Node};
ghost use Rattle.compact_wire.specs.Spells.{SpellsWire};
ghost use Rattle.wire_events.specs.Events.{Event, events};
ghost use Rattle.wire_events.specs.Frames.{GoesOn};

use crate::frame::{Frame, WireEvent};
use crate::stack::{push, settled};
use crate::stepping::next_step;
use compact_wire::Kind;

/// The events of the struct that bytes spell, one after the other. It takes no memory.
#[derive(Drop)]
pub struct WireEvents<'a> {
    bytes: &'a [u8],
    rest: &'a [u8],
    frames: [Frame; 65],
    depth: usize,
    ghost in_range: { depth ≤ 65 },
    ghost within: { length rest.now ≤ length bytes.now },
    ghost at_end: { drop (length bytes.now - length rest.now) bytes.now ≡ rest.now },
    ghost goes_on: { ∥ GoesOn frames depth rest.now ∥₁ },
}

impl<'a> WireEvents<'a> {
    ghost use Rattle.wire_events.specs.Cursor.{AreLeft, IsNext, Moves, ComeNext, OpensStruct, bytes_of, place_of, IsSpelled};

    /// The events of the struct that the bytes spell, all of them.
    pub fn new(bytes: &'a [u8]) -> WireEvents<'a>
        requires { IsSpelled bytes.now }
        ensures left { (w : Node) → SpellsWire w bytes.now → AreLeft result (events w) }
        ensures bytes { bytes_of result ≡ bytes.now }
        ensures place { place_of result ≡ 0 }
    {
        WireEvents {
            bytes,
            rest: bytes,
            frames: [Frame::Items(Kind::Struct, 1); 65],
            depth: 1,
        }
    }

    /// The next event, and none exactly after the last.
    pub fn next(&mut self) -> Option<WireEvent<'a>>
        ensures left { (es : List Event) → AreLeft self.old es → IsNext result es (AreLeft self.new) }
        // From the place before the event to the one behind it the bytes spell it. Behind the last the place is the end of
        // the bytes.
        ensures moves { (es : List Event) → AreLeft self.old es → Moves result self.old self.new }
        // The same of the events up to some place.
        ensures front { (e : Event) (es : List Event) (end : List ℕ) → ComeNext self.old (e ∷ es) end
            → IsNext result (e ∷ es) (λ ds. ComeNext self.new ds end) }
        // From the place before a `Struct` to the one after its `End` the bytes spell that struct.
        ensures opens { (es : List Event) → AreLeft self.old es → result ≡ Some WireEvent.Struct
            → OpensStruct self.old self.new }
        ensures bytes { bytes_of self.new ≡ bytes_of self.old }
    {
        let depth = settled(&self.frames, self.depth);
        if depth == 0 {
            return None;
        }
        let top = depth - 1;
        let Ok(step) = next_step(64 - top as u32, self.frames[top], self.rest) else {
            unreachable!()
        };
        let kept = push(&mut self.frames, top, step.keep);
        self.depth = push(&mut self.frames, kept, step.opened);
        self.rest = step.rest;
        Some(step.event)
    }

    /// How many bytes the events so far have taken.
    pub fn place(&self) -> u64
        ensures place { result ≡ place_of self.now }
        // Where no event comes, the bytes that are left begin at this place.
        ensures behind { (end : List ℕ) → ComeNext self.now [] end → drop result (bytes_of self.now) ≡ end }
    {
        (self.bytes.len() - self.rest.len()) as u64
    }
}
