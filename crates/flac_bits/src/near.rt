ghost use Rattle.std.specs.Prelude.{◌≡◌, ◌+◌, ◌*◌, ◌^◌, ◌<◌, ◌≤◌, length, unsigned_abs, IfSome, IfNone, Ok};
ghost use Rattle.spec_syntax.specs.Reading.{read};
ghost use Rattle.spec_flac.specs.Faults.{short};
ghost use Rattle.spec_flac.specs.Residual.{coded_residual};
ghost use Rattle.flac_bits.specs.Places.{cursor};

use crate::reader::Reader;
use crate::rice::{joined, unfold};
use crate::window::{low_bits, whole_window, zeros_of};
use std::marker::Model;

/// The most bytes after a place for which words are looked ahead, so that no place in bits is too large.
const MOST_BYTES: usize = 1 << 24;

/// The most bits of a code that is short: those of a word from any place in its first byte on.
const MOST_BITS: usize = 57;

/// A place among the bits of a frame with whole words ahead, from which short codes are taken fastest.
///
/// Contracts see it as a cursor, as they see a `Reader`. The place is `used` bits after the byte `at`.
#[derive(Drop)]
pub struct Near<'a> {
    bytes: &'a [u8],
    at: usize,
    used: usize,
}

impl<'a> Model for Near<'a> {
    ghost use Rattle.std.specs.Prelude.{◌+◌, ◌-◌, ◌*◌, ◌^◌, ◌≤◌, length};
    ghost use Rattle.spec_bits.specs.Cursor.{Cursor};
    ghost use Rattle.flac_bits.specs.Places.{cursor};

    ghost Value = { Cursor };

    ghost view = { λ n. cursor n.bytes.now (8 * n.at + n.used) };

    ghost invariant = { λ n. (n.at ≤ length n.bytes.now) × (length n.bytes.now ≤ n.at + 2 ^ 24) × (n.used ≤ 8 * (length n.bytes.now - n.at)) };
}

impl<'a> Near<'a> {
    /// The place `used` bits after the byte `at`, or `None` where fewer than eight bytes stand there, or too many.
    #[inline]
    pub fn new(bytes: &'a [u8], at: usize, used: u32) -> Option<Near<'a>>
        requires within { at ≤ length bytes.now }
        requires used { used < 8 }
        ensures { IfSome result (λ n. n ≡ cursor bytes.now (8 * at + used)) }
    {
        let left = bytes.len() - at;
        if left < 8 {
            return None;
        }
        if left > MOST_BYTES {
            return None;
        }
        Some(Near {
            bytes,
            at,
            used: used as usize,
        })
    }

    /// How many short codes are sure to have whole words ahead, however long each is.
    #[inline]
    pub fn codes_ahead(&self) -> usize
        ensures { 0 < result → self.now.place + 57 * result + 7 ≤ 8 * length self.now.bytes }
    {
        let left = 8 * (self.bytes.len() - self.at) - self.used;
        left.saturating_sub(7) / MOST_BITS
    }

    /// A reader at the same place.
    #[inline]
    pub fn reader(&self) -> Reader<'a>
        ensures { result ≡ self.now }
    {
        Reader::at(self.bytes, self.at + self.used / 8, (self.used % 8) as u32)
    }

    /// The next residual in a Rice code with `parameter` low bits, at most 24, where its code is short; the place is
    /// unchanged where not. A word has to stand ahead.
    #[inline(always)]
    pub fn take_residual(&mut self, parameter: u32) -> Option<i64>
        requires parameter { parameter ≤ 24 }
        requires ahead { self.old.place + 64 ≤ 8 * length self.old.bytes }
        ensures some { IfSome result (λ v. read short (coded_residual parameter) self.old ≡ Ok (v, self.new)) }
        ensures none { IfNone result (self.new ≡ self.old) }
        ensures small { IfSome result (λ v. unsigned_abs v < 2 ^ 31) }
        ensures bytes { self.new.bytes ≡ self.old.bytes }
        ensures onward { self.new.place ≤ self.old.place + 57 }
    {
        let at = self.at + self.used / 8;
        let window = whole_window(self.bytes, at, (self.used % 8) as u32);
        let zeros = zeros_of(window.word);
        if zeros > 56 - parameter {
            return None;
        }
        let low = low_bits(window.word, zeros, parameter);
        let folded = joined(u64::from(zeros), low, parameter);
        self.used += zeros as usize;
        self.used += (1 + parameter) as usize;
        Some(unfold(folded))
    }
}
