//! A source and a sink in memory, which fail at listed calls.
ghost use Rattle.std.specs.Prelude.{◌≡◌, ◌+◌, ◌≤◌, ℕ, [], drop, length, vec_len, vec_capacity, IfOk, Some};
ghost use Rattle.std.specs.declared.option.Option.{Option};

use crate::{NoMemory, Pulled, Sink, SinkFailed, Source};
use std::alloc::Global;

/// Bytes in memory. It fails at the listed calls, counted from 1, and gives at each other call as many bytes as are left and asked for.
#[derive(Drop)]
pub struct MemorySource {
    bytes: Vec<u8>,
    at: usize,
    fails: Vec<u32>,
    calls: u32,
    faults: u64,
    ghost in_bytes: { at ≤ vec_len bytes },
}

impl MemorySource {
    ghost use Rattle.ep_base.specs.Streams.Memory.{bytes_left};

    /// A source of these bytes, which fails at these calls.
    pub fn new(bytes: Vec<u8>, fails: Vec<u32>) -> MemorySource
        ensures { (bytes_left result ≡ bytes.items) × (result.fails.items ≡ fails.items) × (result.calls ≡ 0) }
    {
        MemorySource {
            bytes,
            at: 0,
            fails,
            calls: 0,
            faults: 0,
        }
    }
}

impl Source for MemorySource {
    ghost use Rattle.std.specs.Prelude.{◌≡◌, ◌<◌, ◌↔◌, ℕ, min, true, drop, length, Some};
    ghost use Rattle.std.specs.declared.option.Option.{Option};
    ghost use Rattle.ep_base.specs.Streams.Causes.{HasCause};
    ghost use Rattle.ep_base.specs.Streams.Io.{Pulls, GotWithin};
    ghost use Rattle.ep_base.specs.Streams.Memory.{GaveAll, bytes_left, is_listed, next_call};

    ghost left = { λ s. Option.Some (drop s.at s.bytes.items) };

    ghost faults = { λ s. s.faults };

    fn pull(&mut self, into: &mut [u8]) -> Pulled
        requires { 0 < length into.old }
        ensures count { GotWithin result (length into.new) }
        ensures bytes { Pulls (Option.Some (bytes_left self.old)) (Option.Some (bytes_left self.new)) result into.new }
        ensures cause { HasCause self.old.faults self.new.faults (result ≡ Pulled.Failed) }
        ensures listed { (result ≡ Pulled.Failed) ↔ (is_listed self.old.fails.items self.old.calls ≡ true) }
        ensures amount { GaveAll result (min (length into.old) (length (bytes_left self.old))) }
        ensures calls { self.new.calls ≡ next_call self.old.calls }
        ensures same { self.new.fails.items ≡ self.old.fails.items }
    {
        self.calls = self.calls.saturating_add(1);
        if self.fails.contains(&self.calls) {
            self.faults = self.faults.saturating_add(1);
            return Pulled::Failed;
        }
        let (_, rest) = self.bytes.split_at(self.at);
        let count = into.len().min(rest.len());
        if count == 0 {
            return Pulled::End;
        }
        let (piece, _) = rest.split_at(count);
        into[..count].copy_from_slice(piece);
        self.at += count;
        Pulled::Got(count)
    }
}

/// Room in memory. It fails at the listed calls, counted from 1, and where a piece doesn't fit; every other piece is taken whole.
#[derive(Drop)]
pub struct MemorySink {
    held: Vec<u8>,
    room: usize,
    fails: Vec<u32>,
    calls: u32,
    faults: u64,
    ghost has_room: { room ≤ vec_capacity held },
    ghost in_room: { vec_len held ≤ room },
}

impl MemorySink {
    ghost use Rattle.ep_base.specs.Streams.Memory.{bytes_held};

    /// A sink with room for this many bytes, which fails at these calls.
    ///
    /// Errors: `NoMemory` where the room can't be had.
    pub fn new(alloc: Global, room: usize, fails: Vec<u32>) -> Result<MemorySink, NoMemory>
        ensures { IfOk result (λ s. (bytes_held s ≡ []) × (s.room ≡ room) × (s.fails.items ≡ fails.items) × (s.calls ≡ 0)) }
    {
        match Vec::with_capacity(alloc, room) {
            Ok(held) => Ok(MemorySink {
                held,
                room,
                fails,
                calls: 0,
                faults: 0,
            }),
            Err(_) => Err(NoMemory),
        }
    }

    /// The bytes written so far.
    pub fn written(&self) -> &[u8]
        ensures { result.now ≡ bytes_held self.now }
    {
        &self.held
    }
}

impl Sink for MemorySink {
    ghost use Rattle.std.specs.Prelude.{◌≡◌, ◌↔◌, ℕ, true, length, IfOk, IsErr, Some};
    ghost use Rattle.std.specs.declared.option.Option.{Option};
    ghost use Rattle.ep_base.specs.Streams.Causes.{HasCause};
    ghost use Rattle.ep_base.specs.Streams.Io.{Pushes, TookWithin};
    ghost use Rattle.ep_base.specs.Streams.Memory.{bytes_held, next_call, sink_refuses};

    ghost written = { λ s. Option.Some s.held.items };

    ghost faults = { λ s. s.faults };

    fn push(&mut self, piece: &[u8]) -> Result<usize, SinkFailed>
        ensures count { TookWithin result (length piece.now) }
        ensures bytes { Pushes (Option.Some (bytes_held self.old)) (Option.Some (bytes_held self.new)) result piece.now }
        ensures cause { HasCause self.old.faults self.new.faults (IsErr result) }
        ensures whole { IfOk result (λ n. n ≡ length piece.now) }
        ensures refused { IsErr result ↔ (sink_refuses self.old (length piece.now) ≡ true) }
        ensures calls { self.new.calls ≡ next_call self.old.calls }
        ensures same { (self.new.fails.items ≡ self.old.fails.items) × (self.new.room ≡ self.old.room) }
    {
        self.calls = self.calls.saturating_add(1);
        let refused = self.fails.contains(&self.calls) || piece.len() > self.room - self.held.len();
        if refused || self.held.extend_from_slice(piece).is_err() {
            self.faults = self.faults.saturating_add(1);
            return Err(SinkFailed);
        }
        Ok(piece.len())
    }
}
