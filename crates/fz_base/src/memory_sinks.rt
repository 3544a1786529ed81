// Sinks in memory: one that fails at the calls that it is told, and one that fails only where it is full.
ghost use Rattle.std.specs.Prelude.{◌≡◌, ◌≤◌, ◌<◌, ◌-◌, ◌^◌, ◌↔◌, ◌⊎◌, [], Some, length, min};
ghost use Rattle.std.specs.Prelude.{IfOk, IfSome, IsErr, IsTrue};
ghost use Rattle.std.specs.Prelude.{vec_len, vec_capacity, Contains};
ghost use Rattle.fz_base.specs.Counts.{HasCause, MovesOnlyAt, counted};
ghost use Rattle.fz_base.specs.Sink.{WritesSome};

use crate::counts::count_up;
use crate::{Sink, SinkFault};
use std::alloc::{AllocError, Global};

/// A sink in memory. It takes at most `room` bytes in all and `step` bytes a call, and fails where it is full and at
/// the calls whose numbers, from 1, are in `fail`.
#[derive(Drop)]
pub struct MemSink {
    bytes: Vec<u8>,
    room: usize,
    step: usize,
    fail: Vec<u64>,
    calls: u64,
    faults: u64,
    ghost steps: { 1 ≤ step },
    ghost reserved: { room ≤ vec_capacity bytes },
    ghost fits: { vec_len bytes ≤ room },
}

impl MemSink {
    ghost use Rattle.fz_base.specs.MemorySinks.{room_of, step_of, failing, calls_of};

    /// An empty sink, which takes the memory for all of its room at once.
    pub fn new(alloc: Global, room: usize, step: usize, fail: Vec<u64>) -> Result<Self, AllocError>
        requires { 1 ≤ step }
        ensures written { IfOk result (λ s. ⟦<MemSink as Sink>⟧.written s ≡ Some []) }
        ensures faults { IfOk result (λ s. ⟦<MemSink as Sink>⟧.faults s ≡ 0) }
        ensures room { IfOk result (λ s. room_of s ≡ room) }
        ensures step { IfOk result (λ s. step_of s ≡ step) }
        ensures failing { IfOk result (λ s. failing s ≡ fail.items) }
        ensures calls { IfOk result (λ s. calls_of s ≡ 0) }
    {
        Ok(MemSink {
            bytes: Vec::with_capacity(alloc, room)?,
            room,
            step,
            fail,
            calls: 0,
            faults: 0,
        })
    }

    /// What was written.
    pub fn bytes(&self) -> &[u8]
        ensures { ⟦<MemSink as Sink>⟧.written self.now ≡ Some result.now }
    {
        &self.bytes
    }
}

impl Sink for MemSink {
    ghost use Rattle.fz_base.specs.MemorySinks.{room_of, step_of, failing, calls_of};

    ghost written = { λ s. Some s.bytes.items };

    ghost faults = { λ s. s.faults };

    /// Takes no memory.
    fn write(&mut self, bytes: &[u8]) -> Result<usize, SinkFault>
        ensures writes { WritesSome (⟦<MemSink as Sink>⟧.written self.old) (⟦<MemSink as Sink>⟧.written self.new)
            result bytes.now }
        ensures failed { HasCause (⟦<MemSink as Sink>⟧.faults self.old) (⟦<MemSink as Sink>⟧.faults self.new) (IsErr result) }
        ensures unfailed { MovesOnlyAt (⟦<MemSink as Sink>⟧.faults self.old) (⟦<MemSink as Sink>⟧.faults self.new)
            (IsErr result) }

        // It takes at most a step and the room that is left, and fails exactly where it is full or was asked to.
        ensures step { IfOk result (λ n. n ≤ step_of self.old) }
        ensures room { IfSome (⟦<MemSink as Sink>⟧.written self.new)
            (λ written. length written ≤ room_of self.new) }
        ensures on_request { IfSome (⟦<MemSink as Sink>⟧.written self.old) (λ written. 0 < length bytes.now →
            IsErr result ↔ ((length written ≡ room_of self.old)
            ⊎ Contains (failing self.old) (calls_of self.new))) }
        ensures calls { calls_of self.new ≡ counted (calls_of self.old) 1 }
        ensures same_room { room_of self.new ≡ room_of self.old }
        ensures same_step { step_of self.new ≡ step_of self.old }
        ensures same_failing { failing self.new ≡ failing self.old }
    {
        count_up(&mut self.calls, 1);
        if bytes.is_empty() {
            return Ok(0);
        }
        let left = self.room - self.bytes.len();
        if left == 0 {
            count_up(&mut self.faults, 1);
            return Err(SinkFault::Failed);
        }
        if self.fail.contains(&self.calls) {
            count_up(&mut self.faults, 1);
            return Err(SinkFault::Failed);
        }
        let count = bytes.len().min(left).min(self.step);
        self.bytes.extend_from_slice(&bytes[..count]).unwrap();
        Ok(count)
    }
}

/// A sink in memory that fails only where it is full.
#[derive(Drop)]
pub struct SureSink {
    bytes: Vec<u8>,
    room: usize,
    full: bool,
    ghost reserved: { room ≤ vec_capacity bytes },
    ghost fits: { vec_len bytes ≤ room },
    ghost full_only: { IsTrue full → vec_len bytes ≡ room },
}

impl SureSink {
    ghost use Rattle.std.specs.Prelude.{if◌then◌else◌};
    ghost use Rattle.fz_base.specs.MemorySinks.{sure_room};

    /// An empty sink, which takes the memory for all of its room at once.
    pub fn new(alloc: Global, room: usize) -> Result<Self, AllocError>
        ensures written { IfOk result (λ s. ⟦<SureSink as Sink>⟧.written s ≡ Some []) }
        ensures faults { IfOk result (λ s. ⟦<SureSink as Sink>⟧.faults s ≡ 0) }
        ensures room { IfOk result (λ s. sure_room s ≡ room) }
    {
        Ok(SureSink {
            bytes: Vec::with_capacity(alloc, room)?,
            room,
            full: false,
        })
    }

    /// What was written.
    pub fn bytes(&self) -> &[u8]
        ensures { ⟦<SureSink as Sink>⟧.written self.now ≡ Some result.now }
    {
        &self.bytes
    }
}

impl Sink for SureSink {
    ghost use Rattle.std.specs.Prelude.{if◌then◌else◌};
    ghost use Rattle.fz_base.specs.MemorySinks.{sure_room};

    ghost written = { λ s. Some s.bytes.items };

    ghost faults = { λ s. if s.full then 2 ^ 64 - 1 else 0 };

    /// Takes no memory.
    fn write(&mut self, bytes: &[u8]) -> Result<usize, SinkFault>
        ensures writes { WritesSome (⟦<SureSink as Sink>⟧.written self.old) (⟦<SureSink as Sink>⟧.written self.new)
            result bytes.now }
        ensures failed { HasCause (⟦<SureSink as Sink>⟧.faults self.old) (⟦<SureSink as Sink>⟧.faults self.new) (IsErr result) }
        ensures unfailed { MovesOnlyAt (⟦<SureSink as Sink>⟧.faults self.old) (⟦<SureSink as Sink>⟧.faults self.new)
            (IsErr result) }

        // It fails exactly where no room is left, and its count is above 0 only there.
        ensures room { IfSome (⟦<SureSink as Sink>⟧.written self.new)
            (λ written. length written ≤ sure_room self.new) }
        ensures only_full { IfSome (⟦<SureSink as Sink>⟧.written self.old) (λ written. 0 < length bytes.now →
            IsErr result ↔ (length written ≡ sure_room self.old)) }
        ensures faults_when_full { 0 < ⟦<SureSink as Sink>⟧.faults self.new →
            IfSome (⟦<SureSink as Sink>⟧.written self.new) (λ written. length written ≡ sure_room self.new) }
        ensures same_room { sure_room self.new ≡ sure_room self.old }
    {
        if bytes.is_empty() {
            return Ok(0);
        }
        let left = self.room - self.bytes.len();
        if left == 0 {
            self.full = true;
            return Err(SinkFault::Failed);
        }
        let count = bytes.len().min(left);
        self.bytes.extend_from_slice(&bytes[..count]).unwrap();
        Ok(count)
    }
}
