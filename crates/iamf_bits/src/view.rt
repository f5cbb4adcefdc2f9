ghost use Rattle.std.specs.Prelude.{◌≡◌, ◌+◌, ◌*◌, ◌/◌, ◌%◌, ◌^◌, ◌<◌, ◌≤◌, [], length, take, drop, slice_range, OnOk, OnErr, IfOk, IfErr};
ghost use Rattle.spec_bits.specs.Bits.{AreBytes, all_bits};
ghost use Rattle.spec_bits.specs.ByteReading.{leb_at, text_at, bytes_at};
ghost use Rattle.spec_bits.specs.Form.{Number, Signed, Leb128, String, Bytes, Reserved};
ghost use Rattle.spec_bits.specs.Cursor.{IsOnByte, moved, bits_left, bytes_left, field_at};
ghost use Rattle.spec_bits.specs.Fault.{FormFault};
ghost use Rattle.iamf_bits.specs.View.{Takes, TakesBytes, MovesPast};

use crate::bytes::as_bytes_below_256;
use crate::front::{leb, number, signed, text};
use spec_bits::FieldFault;
use std::marker::Model;

/// A part of one buffer, and a place among its bits.
///
/// Contracts see it as a cursor: the bytes of the buffer up to the part's end, and the number of bits
/// before the place.
#[derive(Drop)]
pub struct View<'a> {
    buffer: &'a [u8],
    end: usize,
    at: usize,
    used: u32,
}

impl<'a> Model for View<'a> {
    ghost use Rattle.std.specs.Prelude.{◌≡◌, ◌+◌, ◌*◌, ◌<◌, ◌≤◌, length, take};
    ghost use Rattle.spec_bits.specs.Cursor.{Cursor};

    ghost Value = { Cursor };

    ghost view = { λ v. record { bytes = take v.end v.buffer.now; place = 8 * v.at + v.used } };

    ghost invariant = { λ v. (v.used < 8) × (v.end ≤ length v.buffer.now) × (v.at ≤ v.end) × (v.at ≡ v.end → v.used ≡ 0) };
}

impl<'a> View<'a> {
    /// The part of the buffer from the byte `start` to the byte before `end`.
    #[inline]
    pub fn new(buffer: &'a [u8], start: usize, end: usize) -> View<'a>
        requires order { start ≤ end }
        requires within { end ≤ length buffer.now }
        ensures bytes { result.bytes ≡ take end buffer.now }
        ensures place { result.place ≡ 8 * start }
    {
        View {
            buffer,
            end,
            at: start,
            used: 0,
        }
    }

    /// The whole of the buffer, from its first byte on.
    #[inline]
    pub fn whole(buffer: &'a [u8]) -> View<'a>
        ensures { result ≡ record { bytes = buffer.now; place = 0 } }
    {
        View::new(buffer, 0, buffer.len())
    }

    /// The place in the buffer, by whole bytes.
    #[inline]
    pub fn at(&self) -> usize
        ensures place { result ≡ self.now.place / 8 }
        ensures within { result ≤ length self.now.bytes }
    {
        self.at
    }

    /// How many whole bytes are left. Inside a byte these are the ones after it.
    #[inline]
    pub fn left(&self) -> usize
        ensures whole { result ≡ length (bits_left self.now) / 8 }
        ensures bytes { IsOnByte self.now → result ≡ length (bytes_left self.now) }
    {
        let left = self.end - self.at;
        if self.used == 0 { left } else { left - 1 }
    }

    /// The bytes from the byte `start` of the buffer to the place.
    #[inline]
    pub fn since(&self, start: usize) -> &'a [u8]
        requires on_byte { IsOnByte self.now }
        requires within { start ≤ self.now.place / 8 }
        ensures range { result.now ≡ slice_range self.now.bytes start (self.now.place / 8) }
        ensures below { AreBytes result.now }
    {
        as_bytes_below_256(&self.buffer[start..self.at])
    }

    /// The next `n` bits, from 1 to 32, as a number, the most significant first. `Short` exactly where fewer
    /// are left; the view is then unchanged.
    pub fn take_bits(&mut self, n: u32) -> Result<u32, FieldFault>
        requires low { 1 ≤ n }
        requires high { n ≤ 32 }
        ensures spelled { IfOk result (λ v. MovesPast (Number n) v self.old self.new) }
        ensures fault { IfErr result (λ f. FormFault (Number n) f (bits_left self.old)) }
        ensures kept { OnErr result (self.new ≡ self.old) }
        ensures takes { Takes (λ v. v) result self.old self.new (field_at (Number n) self.old) }
        ensures moves { OnOk result (self.new ≡ moved self.old n) }
        ensures fits { IfOk result (λ v. v < 2 ^ n) }
    {
        let bits = self.used + n;
        let count = ((bits + 7) / 8) as usize;
        if self.end - self.at < count {
            return Err(FieldFault::Short);
        }
        let sum = number(&self.buffer[self.at..self.at + count]);
        let value = (sum >> (8 * ((bits + 7) / 8) - bits)) % (1u64 << n);
        self.at += (bits / 8) as usize;
        self.used = bits % 8;
        Ok(value as u32)
    }

    /// The next 16 bits as a number in two's complement. Faults as `take_bits`.
    pub fn take_i16(&mut self) -> Result<i16, FieldFault>
        ensures spelled { IfOk result (λ v. MovesPast (Signed 16) v self.old self.new) }
        ensures fault { IfErr result (λ f. FormFault (Signed 16) f (bits_left self.old)) }
        ensures kept { OnErr result (self.new ≡ self.old) }
        ensures takes { Takes (λ v. v) result self.old self.new (field_at (Signed 16) self.old) }
        ensures moves { OnOk result (self.new ≡ moved self.old 16) }
    {
        match self.take_bits(16) {
            Ok(number) => Ok(signed(number as u16)),
            Err(fault) => Err(fault),
        }
    }

    /// Passes over `n` reserved bits, from 1 to 32, which may be any. Faults as `take_bits`.
    pub fn skip_bits(&mut self, n: u32) -> Result<(), FieldFault>
        requires low { 1 ≤ n }
        requires high { n ≤ 32 }
        ensures spelled { OnOk result (MovesPast (Reserved n) tt self.old self.new) }
        ensures fault { IfErr result (λ f. FormFault (Reserved n) f (bits_left self.old)) }
        ensures kept { OnErr result (self.new ≡ self.old) }
        ensures takes { Takes (λ v. v) result self.old self.new (field_at (Reserved n) self.old) }
        ensures moves { OnOk result (self.new ≡ moved self.old n) }
    {
        match self.take_bits(n) {
            Ok(_) => Ok(()),
            Err(fault) => Err(fault),
        }
    }

    /// The next leb128 (IAMF 1.0.0, "leb128()"), in any spelling of at most 8 bytes. `Short` exactly where
    /// fewer than 8 bytes are left and all say that another follows, `Leb` exactly where the first 8 bytes
    /// all do or the value is 2^32 or more; the view is then unchanged.
    #[inline]
    pub fn take_leb(&mut self) -> Result<u32, FieldFault>
        requires { IsOnByte self.old }
        ensures spelled { IfOk result (λ v. MovesPast Leb128 v self.old self.new) }
        ensures fault { IfErr result (λ f. FormFault Leb128 f (bits_left self.old)) }
        ensures kept { OnErr result (self.new ≡ self.old) }
        ensures takes { Takes (λ v. v) result self.old self.new (field_at Leb128 self.old) }
        ensures bytes { TakesBytes (λ v. v) result (bytes_left self.new) (leb_at (bytes_left self.old)) }
        ensures same { self.new.bytes ≡ self.old.bytes }
        ensures onward { self.old.place ≤ self.new.place }
        ensures on_byte { IsOnByte self.new }
    {
        match leb(as_bytes_below_256(&self.buffer[self.at..self.end])) {
            Ok((value, count)) => {
                self.at += count;
                Ok(value)
            }
            Err(fault) => Err(fault),
        }
    }

    /// The next `n` bytes. `Short` exactly where fewer are left; the view is then unchanged.
    #[inline]
    pub fn take_bytes(&mut self, n: usize) -> Result<&'a [u8], FieldFault>
        requires { IsOnByte self.old }
        ensures spelled { IfOk result (λ b. MovesPast (Bytes n) b.now self.old self.new) }
        ensures fault { IfErr result (λ f. FormFault (Bytes n) f (bits_left self.old)) }
        ensures kept { OnErr result (self.new ≡ self.old) }
        ensures takes { Takes (λ b. b.now) result self.old self.new (field_at (Bytes n) self.old) }
        ensures bytes { TakesBytes (λ b. b.now) result (bytes_left self.new) (bytes_at n (bytes_left self.old)) }
        ensures moves { OnOk result (self.new ≡ moved self.old (8 * n)) }
        ensures below { IfOk result (λ b. AreBytes b.now) }
    {
        let bytes = as_bytes_below_256(&self.buffer[self.at..self.end]);
        if bytes.len() < n {
            return Err(FieldFault::Short);
        }
        self.at += n;
        Ok(&bytes[..n])
    }

    /// The next text (IAMF 1.0.0, "string"), of at most 127 bytes, without the zero byte that ends it. `Short`
    /// exactly where fewer than 128 bytes are left and none is zero, `Text` exactly where none of the first 128
    /// is zero or what stands before the first zero byte is not UTF-8; the view is then unchanged.
    pub fn take_text(&mut self) -> Result<&'a [u8], FieldFault>
        requires { IsOnByte self.old }
        ensures spelled { IfOk result (λ b. MovesPast String b.now self.old self.new) }
        ensures fault { IfErr result (λ f. FormFault String f (bits_left self.old)) }
        ensures kept { OnErr result (self.new ≡ self.old) }
        ensures takes { Takes (λ b. b.now) result self.old self.new (field_at String self.old) }
        ensures bytes { TakesBytes (λ b. b.now) result (bytes_left self.new) (text_at (bytes_left self.old)) }
        ensures same { self.new.bytes ≡ self.old.bytes }
        ensures onward { self.old.place ≤ self.new.place }
        ensures on_byte { IsOnByte self.new }
        ensures below { IfOk result (λ b. AreBytes b.now) }
    {
        let bytes = as_bytes_below_256(&self.buffer[self.at..self.end]);
        match text(bytes) {
            Ok(count) => {
                self.at += count + 1;
                Ok(&bytes[..count])
            }
            Err(fault) => Err(fault),
        }
    }

    /// All bytes that are left; the view then has none.
    #[inline]
    pub fn rest(&mut self) -> &'a [u8]
        requires { IsOnByte self.old }
        ensures all { result.now ≡ bytes_left self.old }
        ensures bits { all_bits result.now ≡ bits_left self.old }
        ensures none { bytes_left self.new ≡ [] }
        ensures same { self.new.bytes ≡ self.old.bytes }
        ensures below { AreBytes result.now }
    {
        let bytes = as_bytes_below_256(&self.buffer[self.at..self.end]);
        self.at = self.end;
        bytes
    }
}
