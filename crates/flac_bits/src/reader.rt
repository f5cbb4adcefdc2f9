ghost use Rattle.std.specs.Prelude.{◌≡◌, ℕ, ◌+◌, ◌-◌, ◌*◌, ◌/◌, ◌%◌, ◌^◌, ◌<◌, ◌≤◌, ◌↔◌, [], length, take, unsigned_abs, IsTrue, IfOk, IfSome, OnOk};
ghost use Rattle.spec_bits.specs.Bits.{signed_of, all_bits};
ghost use Rattle.spec_bits.specs.Form.{Number, Signed, Unary};
ghost use Rattle.spec_bits.specs.Cursor.{field_at, moved, bits_before, bits_left};
ghost use Rattle.spec_syntax.specs.Reading.{read, Answers};
ghost use Rattle.spec_flac.specs.Faults.{short};
ghost use Rattle.spec_flac.specs.Residual.{coded_residual};
ghost use Rattle.flac_bits.specs.Places.{cursor, Takes, TakesZeros};
ghost use Rattle.flac_bits.specs.Windows.{IsWindow, place_of};

use crate::near::Near;
use crate::rice::residual_from;
use crate::window::{Window, after, filled, power, top, window_at, zeros_from};
use spec_flac::FlacFault;
use std::marker::Model;

/// A place among the bits of a frame.
///
/// Contracts see it as a cursor: the bytes, and the number of bits before the place.
#[derive(Drop)]
pub struct Reader<'a> {
    bytes: &'a [u8],
    window: Window,
}

impl<'a> Model for Reader<'a> {
    ghost use Rattle.spec_bits.specs.Cursor.{Cursor};
    ghost use Rattle.flac_bits.specs.Windows.{IsWindow, place_of};
    ghost use Rattle.flac_bits.specs.Places.{cursor};

    ghost Value = { Cursor };

    ghost view = { λ r. cursor r.bytes.now (place_of r.window) };

    ghost invariant = { λ r. IsWindow r.bytes.now r.window };
}

impl<'a> Reader<'a> {
    /// The front of the bytes.
    #[inline]
    pub fn new(bytes: &'a [u8]) -> Reader<'a>
        ensures { result ≡ cursor bytes.now 0 }
    {
        Reader {
            bytes,
            window: Window {
                word: 0,
                count: 0,
                next: 0,
            },
        }
    }

    /// The place `used` bits after the byte `at`.
    #[inline]
    pub fn at(bytes: &'a [u8], at: usize, used: u32) -> Reader<'a>
        requires within { at ≤ length bytes.now }
        requires used { used < 8 }
        requires inside { 8 * at + used ≤ 8 * length bytes.now }
        ensures { result ≡ cursor bytes.now (8 * at + used) }
    {
        Reader {
            bytes,
            window: window_at(bytes, at, used),
        }
    }

    /// The same place with whole words ahead, or `None` near the end.
    #[inline]
    pub fn near(&self) -> Option<Near<'a>>
        ensures { IfSome result (λ n. n ≡ self.now) }
    {
        let behind = (self.window.count + 7) / 8;
        Near::new(
            self.bytes,
            self.window.next - behind as usize,
            8 * behind - self.window.count,
        )
    }

    /// Another reader at the same place.
    #[inline(always)]
    pub fn fork(&self) -> Reader<'a>
        ensures { result ≡ self.now }
    {
        Reader {
            bytes: self.bytes,
            window: self.window,
        }
    }

    /// How many bits are missing to the next whole byte.
    #[inline]
    pub fn missing(&self) -> u32
        ensures is { result ≡ (8 - length (bits_before self.now) % 8) % 8 }
        ensures few { result < 8 }
        ensures whole { (self.now.place + result) % 8 ≡ 0 }
    {
        self.window.count % 8
    }

    /// The bytes before the place, which stands on a byte.
    #[inline]
    pub fn before(&self) -> &'a [u8]
        requires { self.now.place % 8 ≡ 0 }
        ensures { all_bits result.now ≡ bits_before self.now }
    {
        &self.bytes[..self.window.next - (self.window.count / 8) as usize]
    }

    /// Whether no bit is left.
    #[inline]
    pub fn is_at_end(&self) -> bool
        ensures { IsTrue result ↔ (bits_left self.now ≡ []) }
    {
        self.window.count == 0 && self.window.next == self.bytes.len()
    }

    /// The next `count` bits, at most 56, as a number. `Short` exactly where fewer are left.
    #[inline(always)]
    pub fn take(&mut self, count: u32) -> Result<u64, FlacFault>
        requires { count < 57 }
        ensures takes { Takes (λ v. v) result self.new (field_at (Number count) self.old) }
        ensures fits { IfOk result (λ v. v < 2 ^ count) }
        ensures moves { OnOk result (self.new ≡ moved self.old count) }
    {
        let window = ready(self.bytes, self.window, count);
        if window.count < count {
            return Err(FlacFault::Short);
        }
        self.window = after(window, count);
        Ok(top(window.word, count))
    }

    /// The next `count` bits, at most 56, as a number in two's complement. `Short` exactly where fewer are left.
    #[inline(always)]
    pub fn take_signed(&mut self, count: u32) -> Result<i64, FlacFault>
        requires { count < 57 }
        ensures takes { Takes (λ v. v) result self.new (field_at (Signed count) self.old) }
        ensures small { IfOk result (λ v. 2 * unsigned_abs v ≤ 2 ^ count) }
    {
        match self.take(count) {
            Ok(number) => Ok(signed(number, count)),
            Err(fault) => Err(fault),
        }
    }

    /// How many zeros stand before the next one, which is passed over too; 2^32 where there are more. `Short`
    /// exactly where no one is left.
    pub fn take_zeros(&mut self) -> Result<u64, FlacFault>
        ensures { TakesZeros result self.new (field_at Unary self.old) }
    {
        match zeros_from(self.bytes, self.window) {
            Some(zeros) => {
                self.window = zeros.window;
                Ok(zeros.count)
            }
            None => Err(FlacFault::Short),
        }
    }

    /// The next residual in a Rice code with `parameter` low bits, at most 30.
    #[inline(always)]
    pub fn take_residual(&mut self, parameter: u32) -> Result<i64, FlacFault>
        requires { parameter < 31 }
        ensures gives { Answers (λ v. (v, self.new)) result (read short (coded_residual parameter) self.old) }
        ensures small { IfOk result (λ v. unsigned_abs v < 2 ^ 31) }
    {
        match residual_from(self.bytes, self.window, parameter) {
            Ok(coded) => {
                self.window = coded.window;
                Ok(coded.value)
            }
            Err(fault) => Err(fault),
        }
    }
}

// The number in two's complement.
#[inline(always)]
fn signed(number: u64, count: u32) -> i64
    requires count { count < 57 }
    requires fits { number < 2 ^ count }
    ensures is { result ≡ signed_of count number }
    ensures small { 2 * unsigned_abs result ≤ 2 ^ count }
{
    let top = power(count);
    if 2 * number < top {
        number as i64
    } else {
        -((top - 1 - number) as i64) - 1
    }
}

// The window with so many bits, where so many are left.
#[inline(always)]
fn ready(bytes: &[u8], window: Window, count: u32) -> Window
    requires is { IsWindow bytes.now window }
    ensures place { place_of result ≡ place_of window }
    ensures is { IsWindow bytes.now result }
    ensures enough { result.count < count → count < 57 → result.next ≡ length bytes.now }
{
    if count <= window.count {
        window
    } else {
        filled(bytes, window)
    }
}
