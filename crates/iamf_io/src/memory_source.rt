//! A source over bytes in memory.
ghost use Rattle.std.specs.Io.{ReadsAtMost};
ghost use Rattle.std.specs.Io.KnownBytes.{ReadConsumes};
ghost use Rattle.iamf_io.specs.Causes.{HasCause, Counts, counted};
ghost use Rattle.iamf_io.specs.Memory.{fresh_source, bounded};
ghost use Rattle.std.specs.Prelude.{◌↔◌, ◌<◌, ◌≡◌, ◌≤◌, min, IsErr, Contains, Some, IfOk, take, length, All};

use crate::traits::{Failed, Source};
use std::alloc::{AllocError, Global};
use std::marker::Model;

/// A source over bytes in memory, which gives them in pieces of stated lengths and fails at stated calls.
///
/// Its reads are numbered from 0, the failed ones too. A number that has reached 2^64 - 1 stays there.
#[derive(Drop)]
pub struct MemorySource {
    bytes: Vec<u8>,
    at: usize,
    pieces: Vec<usize>,
    fails: Vec<u64>,
    calls: u64,
    faults: u64,
}

impl Model for MemorySource {
    ghost use Rattle.std.specs.Prelude.{◌≤◌, drop, length, All};
    ghost use Rattle.iamf_io.specs.Memory.{SourceInMemory};

    ghost Value = { SourceInMemory };

    ghost view = { λ s. record {
      left = drop s.at s.bytes.items;
      pieces = s.pieces.items;
      failing = s.fails.items;
      calls = s.calls;
      faults = s.faults;
    } };

    ghost invariant = { λ s. (s.at ≤ length s.bytes.items) × All (λ n. 1 ≤ n) s.pieces.items };
}

impl MemorySource {
    /// A source that will give all of `bytes`. The lengths in `pieces`, each at least 1, bound the successive
    /// reads in turn, starting over at their end; with none, nothing is bounded. The reads whose numbers stand
    /// in `fails` fail, and no others.
    ///
    /// # Errors
    ///
    /// `AllocError` where there is no memory for a copy of the three lists.
    pub fn new(
        alloc: Global,
        bytes: &[u8],
        pieces: &[usize],
        fails: &[u64],
    ) -> Result<MemorySource, AllocError>
        requires { All (λ n. 1 ≤ n) pieces.now }
        ensures { IfOk result (λ s. s ≡ fresh_source bytes.now pieces.now fails.now) }
    {
        Ok(MemorySource {
            bytes: bytes.to_vec(alloc)?,
            at: 0,
            pieces: pieces.to_vec(alloc)?,
            fails: fails.to_vec(alloc)?,
            calls: 0,
            faults: 0,
        })
    }
}

// At most `most`, and at most the bound whose turn it is at this read.
fn bounded_count(pieces: &[usize], number: u64, most: usize) -> usize
    requires { All (λ n. 1 ≤ n) pieces.now }
    ensures value { result ≡ bounded pieces.now number most }
    ensures within { result ≤ most }
    ensures some { 1 ≤ most → 1 ≤ result }
{
    if pieces.is_empty() {
        return most;
    }
    let turn = (number % pieces.len() as u64) as usize;
    pieces[turn].min(most)
}

// Writes the piece over the front of `into`.
fn copy_front(into: &mut [u8], piece: &[u8])
    requires { length piece.now ≤ length into.old }
    ensures { take (length piece.now) into.new ≡ piece.now }
{
    into[..piece.len()].copy_from_slice(piece);
}

impl Source for MemorySource {
    ghost left = { λ s. Some s.left };

    ghost faults = { λ s. s.faults };

    /// Gives the next bytes: as many as its bound, `into` and what is left allow.
    ///
    /// # Errors
    ///
    /// `Failed` exactly at the calls that were named to `new`. Then nothing is given, and the call counts.
    fn read(&mut self, into: &mut [u8]) -> Result<usize, Failed>
        requires { 0 < length into.old }
        ensures bound { ReadsAtMost result into.new }
        ensures bytes { ReadConsumes (Some self.old.left) (Some self.new.left) result into.new }
        ensures cause { HasCause self.old.faults self.new.faults result }
        ensures fails { IsErr result ↔ Contains self.old.failing self.old.calls }
        ensures count { IfOk result (λ n. n ≡ bounded self.old.pieces self.old.calls
            (min (length into.old) (length self.old.left))) }
        ensures numbered { self.new.calls ≡ counted self.old.calls }
        ensures faults { Counts self.old.faults self.new.faults result }
        ensures pieces { self.new.pieces ≡ self.old.pieces }
        ensures failing { self.new.failing ≡ self.old.failing }
    {
        let number = self.calls;
        self.calls = number.saturating_add(1);
        if self.fails.contains(&number) {
            self.faults = self.faults.saturating_add(1);
            return Err(Failed);
        }
        let left = &self.bytes[self.at..];
        let count = bounded_count(&self.pieces, number, into.len().min(left.len()));
        copy_front(into, &left[..count]);
        self.at += count;
        Ok(count)
    }
}
