//! What of a sequence goes into a file.

ghost use Rattle.std.specs.Prelude.{◌≡◌, ◌≤◌, length};

use obu_header::{ObuHead, ObuType};
use std::alloc::{AllocError, Global};

/// The descriptors and the units of the OBUs so far, as slices of the sequence's bytes.
#[derive(Drop)]
pub struct Gathered<'a> {
    /// All bytes of the sequence.
    bytes: &'a [u8],
    pub descriptors: Vec<&'a [u8]>,
    /// The frames and the blocks of all units up to those at `start..end`. What lies end to end is one slice.
    pub units: Vec<&'a [u8]>,
    start: usize,
    end: usize,
    /// How many bytes each unit has.
    pub unit_lengths: Vec<u32>,
    ghost within: { (start ≤ end) × (end ≤ length bytes.now) },
}

impl<'a> Gathered<'a> {
    ghost use Rattle.std.specs.Prelude.{◌⊎◌, ◌+◌, ◌<◌, ◌^◌, ℕ, [], sum, slice_range, OnOk, IfSome};
    ghost use Rattle.obu_header.specs.View.{head_of};
    ghost use Rattle.mp4_file.specs.Slices.{joined};
    ghost use Rattle.iamf_mux.specs.Ranges.{AreRanges, parts};
    ghost use Rattle.iamf_mux.specs.Gathering.{slices_of, with_unit, with_bytes, with_data, with_descriptor, with_obu, no_slices, AreSliced};

    /// Of a sequence with these bytes, before its first OBU.
    pub fn new(alloc: Global, bytes: &'a [u8]) -> Gathered<'a>
        ensures none { slices_of result ≡ no_slices }
        ensures sliced { AreSliced result 0 }
        ensures same { result.bytes.now ≡ bytes.now }
    {
        Gathered {
            bytes,
            descriptors: Vec::new(alloc),
            units: Vec::new(alloc),
            start: 0,
            end: 0,
            unit_lengths: Vec::new(alloc),
        }
    }

    // The unit is begun, if it is not yet.
    fn begin(&mut self, unit: usize) -> Result<(), AllocError>
        ensures begun { OnOk result (slices_of self.new ≡ with_unit unit (slices_of self.old)) }
        ensures sliced { (place : ℕ) → AreSliced self.old place → AreSliced self.new place }
        ensures same { self.new.bytes.now ≡ self.old.bytes.now }
    {
        if unit == self.unit_lengths.len() {
            self.unit_lengths.push(0)?;
        }
        Ok(())
    }

    /// Puts the last slice among the others.
    pub fn close(&mut self) -> Result<(), AllocError>
        ensures kept { OnOk result (slices_of self.new ≡ slices_of self.old) }
        ensures closed { OnOk result (self.new.start ≡ self.new.end) }
        ensures end { self.new.end ≡ self.old.end }
        ensures sliced { AreRanges self.old.bytes.now 0 (parts self.old.units.items) self.old.start → OnOk result (AreRanges self.new.bytes.now 0 (parts self.new.units.items) (self.new.end + 1)) }
        ensures same { self.new.bytes.now ≡ self.old.bytes.now }
    {
        if self.start < self.end {
            self.units.push(&self.bytes[self.start..self.end])?;
            self.start = self.end;
        }
        Ok(())
    }

    // The bytes at `at..end` come next in the units.
    fn put_bytes(&mut self, at: usize, end: usize) -> Result<(), AllocError>
        requires onward { at ≤ end }
        requires within { end ≤ length self.old.bytes.now }
        requires sliced { AreSliced self.old at }
        ensures put { OnOk result (slices_of self.new ≡ with_bytes (slice_range self.old.bytes.now at end) (slices_of self.old)) }
        ensures sliced { OnOk result (AreSliced self.new end) }
        ensures same { self.new.bytes.now ≡ self.old.bytes.now }
    {
        if at == self.end {
            self.end = end;
            return Ok(());
        }
        self.close()?;
        self.start = at;
        self.end = end;
        Ok(())
    }

    // A frame or a block of the last unit, which has this number. It stands at `at..end`.
    fn put_data(&mut self, unit: usize, at: usize, end: usize) -> Result<(), AllocError>
        requires last { unit < length (slices_of self.old).unit_lengths }
        requires onward { at ≤ end }
        requires within { end ≤ length self.old.bytes.now }
        requires room { sum (slices_of self.old).unit_lengths + length (slice_range self.old.bytes.now at end) ≤ 2 ^ 30 }
        requires sliced { AreSliced self.old at }
        ensures put { OnOk result (slices_of self.new ≡ with_data unit (slice_range self.old.bytes.now at end) (slices_of self.old)) }
        ensures sliced { OnOk result (AreSliced self.new end) }
        ensures same { self.new.bytes.now ≡ self.old.bytes.now }
    {
        self.unit_lengths[unit] += (end - at) as u32;
        self.put_bytes(at, end)?;
        Ok(())
    }

    fn put_descriptor(&mut self, bytes: &'a [u8]) -> Result<(), AllocError>
        ensures put { OnOk result (slices_of self.new ≡ with_descriptor bytes.now (slices_of self.old)) }
        ensures sliced { (place : ℕ) → AreSliced self.old place → AreSliced self.new place }
        ensures same { self.new.bytes.now ≡ self.old.bytes.now }
    {
        self.descriptors.push(bytes)?;
        Ok(())
    }

    /// The next OBU, which stands at `at..end`, with its head and the number of its unit.
    pub fn add(
        &mut self,
        head: &ObuHead<'_>,
        unit: Option<u64>,
        at: usize,
        end: usize,
    ) -> Result<(), AllocError>
        requires last { IfSome unit (λ u. (u ≡ length (slices_of self.old).unit_lengths) ⊎ (u + 1 ≡ length (slices_of self.old).unit_lengths)) }
        requires onward { at ≤ end }
        requires within { end ≤ length self.old.bytes.now }
        requires room { sum (slices_of self.old).unit_lengths + length (slice_range self.old.bytes.now at end) ≤ 2 ^ 30 }
        requires sliced { AreSliced self.old at }
        ensures added { OnOk result (slices_of self.new ≡ with_obu (head_of head.now) unit (slice_range self.old.bytes.now at end) (slices_of self.old)) }
        ensures sliced { OnOk result (AreSliced self.new end) }
        ensures same { self.new.bytes.now ≡ self.old.bytes.now }
    {
        match unit {
            Some(unit) => {
                let unit = unit as usize;
                self.begin(unit)?;
                if head.obu_type() != ObuType::TemporalDelimiter {
                    self.put_data(unit, at, end)?;
                }
            }
            None => {
                if !head.redundant && head.obu_type().is_descriptor() {
                    self.put_descriptor(&self.bytes[at..end])?;
                }
            }
        }
        Ok(())
    }
}
