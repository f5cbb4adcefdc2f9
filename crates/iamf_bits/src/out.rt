ghost use Rattle.std.specs.Prelude.{◌≡◌, ◌+◌, ◌%◌, ◌^◌, ◌<◌, ◌≤◌, ◌++◌, [], length, take, IsUtf8, OnOk, OnErr};
ghost use Rattle.spec_bits.specs.Bits.{all_bits, unsigned_of};
ghost use Rattle.std.specs.List.{flat_map};
ghost use Rattle.spec_bits.specs.Text.{HasNoZero};
ghost use Rattle.spec_bits.specs.Form.{Number, Signed, Leb128, String, Bytes, Reserved, canonical};

use crate::shortest_leb::ShortestLeb;
use std::alloc::{AllocError, Global};
use std::marker::Model;

/// Fields that are written one after the other, the most significant bit of each first.
///
/// Contracts see it as the bits so far, and how many of them stand in a last byte that is not whole. A put
/// answers `AllocError` only for want of memory, and has then put nothing.
#[derive(Drop)]
pub struct Out {
    bytes: Vec<u8>,
    part: u64,
    used: u32,
}

impl Model for Out {
    ghost use Rattle.std.specs.Prelude.{◌<◌, ◌^◌};
    ghost use Rattle.iamf_bits.specs.Written.{Written, written_of};

    ghost Value = { Written };

    ghost view = { λ o. written_of o.bytes.items o.part o.used };

    ghost invariant = { λ o. (o.used < 8) × (o.part < 2 ^ o.used) };
}

// The number without a sign that has the same 16 bits.
fn unsigned(number: i16) -> u16
    ensures { result ≡ unsigned_of 16 number }
{
    if number < 0 {
        (i32::from(number) + 0x1_0000) as u16
    } else {
        number as u16
    }
}

// How many bytes the slices have together.
fn total(slices: &[&[u8]]) -> usize
    requires { length (flat_map (λ s. s.now) slices.now) < 2 ^ 63 }
    ensures { result ≡ length (flat_map (λ s. s.now) slices.now) }
{
    let mut sum = 0;
    for slice in slices {
        sum += slice.len();
    }
    sum
}

// Puts the bytes of each slice last, with room made for all of them before the first.
fn extend_by_all(bytes: &mut Vec<u8>, slices: &[&[u8]]) -> Result<(), AllocError>
    requires { length (flat_map (λ s. s.now) slices.now) < 2 ^ 63 }
    ensures items { OnOk result (bytes.new.items ≡ bytes.old.items ++ flat_map (λ s. s.now) slices.now) }
    ensures kept { OnErr result (bytes.new.items ≡ bytes.old.items) }
{
    bytes.reserve(total(slices))?;
    for slice in slices {
        bytes.extend_from_slice(slice)?;
    }
    Ok(())
}

impl Out {
    /// Nothing yet.
    pub fn new(alloc: Global) -> Out
        ensures bits { result.bits ≡ [] }
        ensures used { result.used ≡ 0 }
    {
        Out {
            bytes: Vec::new(alloc),
            part: 0,
            used: 0,
        }
    }

    /// Puts `value`, which is below 2^`n`, as `n` bits. `n` is from 1 to 32.
    pub fn put_bits(&mut self, value: u32, n: u32) -> Result<(), AllocError>
        requires low { 1 ≤ n }
        requires high { n ≤ 32 }
        requires fits { value < 2 ^ n }
        ensures bits { OnOk result (self.new.bits ≡ self.old.bits ++ canonical (Number n) value) }
        ensures used { OnOk result (self.new.used ≡ (self.old.used + n) % 8) }
        ensures kept { OnErr result (self.new ≡ self.old) }
    {
        let count = self.used + n;
        let bits = (self.part << n) + u64::from(value);
        let used = count % 8;
        let whole = (bits >> used).to_be_bytes();
        self.bytes
            .extend_from_slice(&whole[8 - (count / 8) as usize..])?;
        self.part = bits % (1u64 << used);
        self.used = used;
        Ok(())
    }

    /// Puts `n` reserved bits, which are zero. `n` is from 1 to 32.
    pub fn put_zeros(&mut self, n: u32) -> Result<(), AllocError>
        requires low { 1 ≤ n }
        requires high { n ≤ 32 }
        ensures bits { OnOk result (self.new.bits ≡ self.old.bits ++ canonical (Reserved n) tt) }
        ensures used { OnOk result (self.new.used ≡ (self.old.used + n) % 8) }
        ensures kept { OnErr result (self.new ≡ self.old) }
    {
        self.put_bits(0, n)
    }

    /// Puts `value` as 16 bits in two's complement.
    pub fn put_i16(&mut self, value: i16) -> Result<(), AllocError>
        ensures bits { OnOk result (self.new.bits ≡ self.old.bits ++ canonical (Signed 16) value) }
        ensures used { OnOk result (self.new.used ≡ (self.old.used + 16) % 8) }
        ensures kept { OnErr result (self.new ≡ self.old) }
    {
        self.put_bits(u32::from(unsigned(value)), 16)
    }

    /// Puts `value` as the shortest leb128 (IAMF 1.0.0, "leb128()"), after whole bytes.
    pub fn put_leb(&mut self, value: u32) -> Result<(), AllocError>
        requires { self.old.used ≡ 0 }
        ensures bits { OnOk result (self.new.bits ≡ self.old.bits ++ canonical Leb128 value) }
        ensures used { OnOk result (self.new.used ≡ 0) }
        ensures kept { OnErr result (self.new ≡ self.old) }
    {
        let leb = ShortestLeb::new(value);
        self.bytes.extend_from_slice(leb.as_slice())?;
        Ok(())
    }

    /// Puts the bytes as they are, after whole bytes.
    pub fn put_bytes(&mut self, bytes: &[u8]) -> Result<(), AllocError>
        requires { self.old.used ≡ 0 }
        ensures bits { OnOk result (self.new.bits ≡ self.old.bits ++ canonical (Bytes (length bytes.now)) bytes.now) }
        ensures used { OnOk result (self.new.used ≡ 0) }
        ensures kept { OnErr result (self.new ≡ self.old) }
    {
        self.bytes.extend_from_slice(bytes)?;
        Ok(())
    }

    /// Puts the bytes of each slice as they are, one slice after the other, after whole bytes. Memory is asked for once,
    /// before the first. They are fewer than 2^63 bytes together.
    pub fn put_slices(&mut self, slices: &[&[u8]]) -> Result<(), AllocError>
        requires used { self.old.used ≡ 0 }
        requires few { length (flat_map (λ s. s.now) slices.now) < 2 ^ 63 }
        ensures bits { OnOk result (self.new.bits ≡ self.old.bits ++ all_bits (flat_map (λ s. s.now) slices.now)) }
        ensures used { OnOk result (self.new.used ≡ 0) }
        ensures kept { OnErr result (self.new ≡ self.old) }
    {
        extend_by_all(&mut self.bytes, slices)?;
        Ok(())
    }

    /// Puts the text, UTF-8 without zero bytes and of at most 127 bytes, and a zero byte after it (IAMF
    /// 1.0.0, "string"), after whole bytes.
    pub fn put_text(&mut self, text: &[u8]) -> Result<(), AllocError>
        requires whole { self.old.used ≡ 0 }
        requires utf8 { IsUtf8 text.now }
        requires no_zero { HasNoZero text.now }
        requires short { length text.now < 128 }
        ensures bits { OnOk result (self.new.bits ≡ self.old.bits ++ canonical String text.now) }
        ensures used { OnOk result (self.new.used ≡ 0) }
        ensures kept { OnErr result (self.new ≡ self.old) }
    {
        self.bytes.reserve(text.len() + 1)?;
        self.bytes.extend_from_slice(text)?;
        self.bytes.push(0)?;
        Ok(())
    }

    /// All that was put, where it is whole bytes.
    pub fn finish(self) -> Vec<u8>
        requires { self.used ≡ 0 }
        ensures { all_bits result.items ≡ self.bits }
    {
        let Out { bytes, .. } = self;
        bytes
    }
}
