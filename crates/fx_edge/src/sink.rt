// Sinks in memory.
ghost use Rattle.std.specs.Prelude.{◌≡◌, ◌≤◌, ◌<◌, ◌⊎◌, ◌↔◌, Some, IfOk, IsErr, OnErr, length, min};
ghost use Rattle.fx_edge.specs.Outside.{HasCause, count_after};
ghost use Rattle.fx_edge.specs.Calls.{FailsNext, next_call};
ghost use Rattle.fx_edge.specs.Held.{fitting, IsFullFor, with_front};
ghost use Rattle.fx_edge.specs.Sinks.{new_sure_sink, new_mem_sink};

use crate::buffer::Buffer;
use crate::calls::Calls;
use crate::outside::count_failure;
use crate::{Failed, Sink};
use std::alloc::{AllocError, Global};
use std::marker::Model;

/// A sink with room for so many bytes. It fails only where nothing of a piece fits.
#[derive(Drop)]
pub struct SureSink {
    held: Buffer,
    faults: u64,
}

impl Model for SureSink {
    ghost use Rattle.std.specs.Prelude.{◌<◌, ◌≤◌, length};
    ghost use Rattle.fx_edge.specs.Sinks.{SureSinkState};

    ghost Value = { SureSinkState };

    ghost view = { λ s. record { held = s.held; faults = s.faults } };

    ghost invariant = { λ s. 0 < s.faults → s.held.room ≤ length s.held.bytes };
}

impl SureSink {
    /// An empty sink that can hold `room` bytes.
    pub fn new(alloc: Global, room: usize) -> Result<SureSink, AllocError>
        ensures { IfOk result (λ s. s ≡ new_sure_sink room) }
    {
        Ok(SureSink {
            held: Buffer::new(Vec::new(alloc), room)?,
            faults: 0,
        })
    }

    /// The bytes that it took. A sink that has ever failed is full.
    pub fn bytes(&self) -> &[u8]
        ensures bytes { result.now ≡ self.now.held.bytes }
        ensures within { length self.now.held.bytes ≤ self.now.held.room }
        ensures full { 0 < self.now.faults → length self.now.held.bytes ≡ self.now.held.room }
    {
        let _ = &self.faults;
        self.held.bytes()
    }
}

impl Sink for SureSink {
    ghost taken = { λ s. Some s.held.bytes };

    ghost faults = { λ s. s.faults };

    fn put(&mut self, piece: &[u8]) -> Result<usize, Failed>
        ensures full { IsErr result ↔ IsFullFor self.old.held piece.now }
        ensures count { IfOk result (λ n. n ≡ fitting self.old.held piece.now) }
        ensures added { IfOk result (λ n. self.new.held ≡ with_front self.old.held n piece.now) }
        ensures kept { OnErr result (self.new.held ≡ self.old.held) }
        ensures counts { self.new.faults ≡ count_after result self.old.faults }
        ensures cause { HasCause self.old.faults self.new.faults result }
    {
        if let Some(count) = self.held.add(piece) {
            return Ok(count);
        }
        count_failure(&mut self.faults)
    }
}

/// A sink with room for so many bytes, which takes at most `most` of them in a call, and whose
/// calls with the numbers in `failing` fail. The calls are numbered from 1.
#[derive(Drop)]
pub struct MemSink {
    held: Buffer,
    calls: Calls,
    faults: u64,
}

impl Model for MemSink {
    ghost use Rattle.fx_edge.specs.Sinks.{MemSinkState};

    ghost Value = { MemSinkState };

    ghost view = { λ s. record { held = s.held; faults = s.faults; numbered = s.calls } };
}

impl MemSink {
    /// An empty sink.
    pub fn new(
        alloc: Global,
        failing: Vec<u64>,
        room: usize,
        most: usize,
    ) -> Result<MemSink, AllocError>
        requires { 1 ≤ most }
        ensures { IfOk result (λ s. s ≡ new_mem_sink failing.items room most) }
    {
        Ok(MemSink {
            held: Buffer::new(Vec::new(alloc), room)?,
            calls: Calls::new(failing, most),
            faults: 0,
        })
    }

    /// The bytes that it took.
    pub fn bytes(&self) -> &[u8]
        ensures bytes { result.now ≡ self.now.held.bytes }
        ensures within { length self.now.held.bytes ≤ self.now.held.room }
    {
        self.held.bytes()
    }
}

impl Sink for MemSink {
    ghost taken = { λ s. Some s.held.bytes };

    ghost faults = { λ s. s.faults };

    fn put(&mut self, piece: &[u8]) -> Result<usize, Failed>
        ensures fails { IsErr result
            ↔ (FailsNext self.old.numbered ⊎ IsFullFor self.old.held piece.now) }
        ensures count { IfOk result (λ n.
            n ≡ min (fitting self.old.held piece.now) self.old.numbered.most) }
        ensures some { IfOk result (λ n. 0 < length piece.now → 0 < n) }
        ensures added { IfOk result (λ n. self.new.held ≡ with_front self.old.held n piece.now) }
        ensures kept { OnErr result (self.new.held ≡ self.old.held) }
        ensures numbered { self.new.numbered ≡ next_call self.old.numbered }
        ensures counts { self.new.faults ≡ count_after result self.old.faults }
        ensures cause { HasCause self.old.faults self.new.faults result }
    {
        let count = piece.len().min(self.calls.most());
        if !self.calls.next_fails() {
            if let Some(count) = self.held.add(&piece[..count]) {
                return Ok(count);
            }
        }
        count_failure(&mut self.faults)
    }
}
