//! A sink in memory.
ghost use Rattle.std.specs.Io.{WritesAtMost};
ghost use Rattle.std.specs.Io.KnownBytes.{Keeps, WriteAppends};
ghost use Rattle.iamf_io.specs.Causes.{HasCause, Counts, counted};
ghost use Rattle.iamf_io.specs.Memory.{fresh_sink, IsFull};
ghost use Rattle.std.specs.Prelude.{◌↔◌, ◌⊎◌, ◌<◌, ◌-◌, ◌≡◌, ◌≤◌, min, IsErr, Contains, Some, IfOk, length};

use crate::traits::{Failed, Sink};
use std::alloc::{AllocError, Global};
use std::marker::Model;

/// A sink in memory, which has room for so many bytes, takes them in pieces and fails at stated calls.
///
/// Its writes and flushes are numbered together from 0, the failed ones too. A number that has reached
/// 2^64 - 1 stays there.
#[derive(Drop)]
pub struct MemorySink {
    bytes: Vec<u8>,
    room: usize,
    most: usize,
    fails: Vec<u64>,
    calls: u64,
    faults: u64,
}

impl Model for MemorySink {
    ghost use Rattle.std.specs.Prelude.{◌≡◌, ◌≤◌, length, vec_len, vec_capacity};
    ghost use Rattle.iamf_io.specs.Memory.{SinkInMemory};

    ghost Value = { SinkInMemory };

    ghost view = { λ s. record {
      held = s.bytes.items;
      room = s.room;
      most = s.most;
      failing = s.fails.items;
      calls = s.calls;
      faults = s.faults;
    } };

    // The room was reserved, so that no write wants memory.
    ghost invariant = { λ s. (vec_len s.bytes ≡ length s.bytes.items) × (vec_len s.bytes ≤ s.room)
        × (s.room ≤ vec_capacity s.bytes) × (1 ≤ s.most) };
}

impl MemorySink {
    /// An empty sink with room for `room` bytes, which takes at most `most` of them, at least 1, in one write.
    /// The writes and flushes whose numbers stand in `fails` fail.
    ///
    /// # Errors
    ///
    /// `AllocError` where there is no memory for `room` bytes and a copy of `fails`.
    pub fn new(
        alloc: Global,
        room: usize,
        most: usize,
        fails: &[u64],
    ) -> Result<MemorySink, AllocError>
        requires { 1 ≤ most }
        ensures { IfOk result (λ s. s ≡ fresh_sink room most fails.now) }
    {
        Ok(MemorySink {
            bytes: Vec::with_capacity(alloc, room)?,
            room,
            most,
            fails: fails.to_vec(alloc)?,
            calls: 0,
            faults: 0,
        })
    }

    /// What the sink has taken, from the first byte on.
    pub fn bytes(&self) -> &[u8]
        ensures { result.now ≡ self.now.held }
    {
        &self.bytes
    }
}

impl Sink for MemorySink {
    ghost held = { λ s. Some s.held };

    ghost faults = { λ s. s.faults };

    /// Takes the first bytes of `piece`: as many as the piece, the room left and the most of a write allow.
    ///
    /// # Errors
    ///
    /// `Failed` exactly where no room is left, and at the calls that were named to `new`. Then nothing is
    /// taken, and the call counts.
    fn write(&mut self, piece: &[u8]) -> Result<usize, Failed>
        requires { 0 < length piece.now }
        ensures some { IfOk result (λ n. 0 < n) }
        ensures bound { WritesAtMost result piece.now }
        ensures bytes { WriteAppends (Some self.old.held) (Some self.new.held) result piece.now }
        ensures cause { HasCause self.old.faults self.new.faults result }
        ensures fails { IsErr result ↔ (IsFull self.old ⊎ Contains self.old.failing self.old.calls) }
        ensures count { IfOk result (λ n. n ≡ min (min self.old.most (length piece.now))
            (self.old.room - length self.old.held)) }
        ensures numbered { self.new.calls ≡ counted self.old.calls }
        ensures faults { Counts self.old.faults self.new.faults result }
        ensures room { self.new.room ≡ self.old.room }
        ensures most { self.new.most ≡ self.old.most }
        ensures failing { self.new.failing ≡ self.old.failing }
    {
        let number = self.calls;
        self.calls = number.saturating_add(1);
        let room = self.room - self.bytes.len();
        if room == 0 || self.fails.contains(&number) {
            self.faults = self.faults.saturating_add(1);
            return Err(Failed);
        }
        let count = self.most.min(piece.len()).min(room);
        match self.bytes.extend_from_slice(&piece[..count]) {
            Ok(()) => Ok(count),
            Err(_) => unreachable!(),
        }
    }

    /// Does nothing.
    ///
    /// # Errors
    ///
    /// `Failed` exactly at the calls that were named to `new`; the call counts.
    fn flush(&mut self) -> Result<(), Failed>
        ensures bytes { Keeps (Some self.old.held) (Some self.new.held) }
        ensures cause { HasCause self.old.faults self.new.faults result }
        ensures fails { IsErr result ↔ Contains self.old.failing self.old.calls }
        ensures numbered { self.new.calls ≡ counted self.old.calls }
        ensures faults { Counts self.old.faults self.new.faults result }
        ensures room { self.new.room ≡ self.old.room }
        ensures most { self.new.most ≡ self.old.most }
        ensures failing { self.new.failing ≡ self.old.failing }
    {
        let number = self.calls;
        self.calls = number.saturating_add(1);
        if self.fails.contains(&number) {
            self.faults = self.faults.saturating_add(1);
            return Err(Failed);
        }
        Ok(())
    }
}
