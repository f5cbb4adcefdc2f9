//! Writing bytes canonically without keeping what they say.

ghost use Rattle.std.specs.Prelude.{◌≡◌, ◌≤◌, ◌^◌, ℕ, List, [], ◌++◌, length, slice_range, IfOk, IfErr, OnOk};
ghost use Rattle.spec_values.specs.Value.{ObuValue};
ghost use Rattle.spec_values.specs.Canonical.{encoded};
ghost use Rattle.spec_sequence.specs.Reading.{Entry, Reads, values_of};
ghost use Rattle.iamf_sequence.specs.Places.{IsRefused};

use crate::pieces::{CanonicalParts, Part};
use crate::refusal::DecodeError;
use crate::spelling::respelled;
use crate::walking::{Gather, walk};
use iamf_admission::{Admission, Admitted};
use obu_header::ObuView;
use std::alloc::{AllocError, Global};

/// The canonical spellings of the OBUs that were read, one after the other: the parts, and then the bytes at `start..end`.
#[derive(Drop)]
pub(crate) struct Respelling<'a> {
    pub(crate) buffer: &'a [u8],
    pub(crate) parts: Vec<Part<'a>>,
    pub(crate) start: usize,
    /// The place after the last OBU that was read.
    pub(crate) end: usize,
}

impl<'a> Respelling<'a> {
    ghost use Rattle.iamf_sequence.specs.PartBytes.{bytes_of};
    ghost use Rattle.iamf_sequence.specs.Respelled.{IsRespelled};

    /// No OBU yet.
    fn new(alloc: Global, buffer: &'a [u8]) -> Respelling<'a>
        ensures { IsRespelled result buffer.now 0 [] }
    {
        Respelling {
            buffer,
            parts: Vec::new(alloc),
            start: 0,
            end: 0,
        }
    }

    /// Puts the last bytes that are kept among the parts, and what was written anew after them.
    fn close(&mut self, anew: Vec<u8>) -> Result<(), AllocError>
        requires onward { self.old.start ≤ self.old.end }
        requires within { self.old.end ≤ length self.old.buffer.now }
        ensures closed { OnOk result (bytes_of self.new.parts.items ≡ bytes_of self.old.parts.items ++ (slice_range self.old.buffer.now self.old.start self.old.end ++ anew.items)) }
        ensures same { self.new.buffer.now ≡ self.old.buffer.now }
    {
        self.parts.push(Part {
            kept: &self.buffer[self.start..self.end],
            anew,
        })?;
        Ok(())
    }

    /// The parts of all.
    fn finish(mut self, alloc: Global) -> Result<CanonicalParts<'a>, AllocError>
        requires { (l : List Entry) × IsRespelled self self.buffer.now (length self.buffer.now) l }
        ensures { IfOk result (λ parts. (l : List Entry) → IsRespelled self.entry self.entry.buffer.now (length self.entry.buffer.now) l → parts ≡ encoded (values_of l)) }
    {
        self.close(Vec::new(alloc))?;
        Ok(CanonicalParts { parts: self.parts })
    }
}

// The bytes of the OBU.
fn bytes_at<'a>(buffer: &'a [u8], view: &ObuView<'_>) -> &'a [u8]
    requires onward { view.now.at ≤ view.now.end }
    requires within { view.now.end ≤ length buffer.now }
    ensures { result.now ≡ slice_range buffer.now view.now.at view.now.end }
{
    &buffer[view.at..view.end]
}

impl<'a> Gather<'a> for Respelling<'a> {
    ghost use Rattle.iamf_sequence.specs.Respelled.{IsRespelled};

    ghost stands = { IsRespelled };

    fn take(
        &mut self,
        alloc: Global,
        admission: &Admission,
        view: &ObuView<'a>,
        obu: Admitted<'a>,
    ) -> Result<(), AllocError> {
        let there = bytes_at(self.buffer, view);
        let anew = respelled(alloc, there, admission, view, &obu)?;
        match anew {
            None => {
                self.end = view.end;
                Ok(())
            }
            Some(spelling) => {
                self.close(spelling)?;
                self.start = view.end;
                self.end = view.end;
                Ok(())
            }
        }
    }
}

/// Reads the bytes, of which there are at most 2^40, as a sequence, and answers the canonical spellings of its OBUs one after
/// the other, in parts: what is spelled canonically stays where it is in the bytes. It keeps no OBU, and of bytes that are
/// canonical takes no memory but for one part and what later OBUs are tested by.
///
/// # Errors
/// `Refused` exactly where the bytes are no sequence, with the first fault and the place of its OBU, or the number of the
/// bytes where it is a fault of their end. `Memory` only where memory runs out.
pub fn canonical_parts<'a>(
    alloc: Global,
    buffer: &'a [u8],
) -> Result<CanonicalParts<'a>, DecodeError>
    requires { length buffer.now ≤ 2 ^ 40 }
    ensures respells { IfOk result (λ parts. (s : List ObuValue) × Reads buffer.now s × (parts ≡ encoded s)) }
    ensures refused { IfErr result (λ e. IsRefused buffer.now e) }
{
    let mut respelling = Respelling::new(alloc, buffer);
    match walk(alloc, buffer, &mut respelling) {
        Ok(_) => match respelling.finish(alloc) {
            Ok(parts) => Ok(parts),
            Err(error) => Err(DecodeError::Memory(error)),
        },
        Err(error) => Err(error),
    }
}

/// Reads the bytes, of which there are at most 2^40, as a sequence, and answers the canonical spellings of its OBUs one after
/// the other: the same as `decode` and `encode`. It keeps no OBU, so it needs less memory.
///
/// # Errors
/// `Refused` exactly where the bytes are no sequence, with the first fault and the place of its OBU, or the number of the
/// bytes where it is a fault of their end. `Memory` only where memory runs out.
pub fn respell(alloc: Global, buffer: &[u8]) -> Result<Vec<u8>, DecodeError>
    requires { length buffer.now ≤ 2 ^ 40 }
    ensures respells { IfOk result (λ v. (s : List ObuValue) × Reads buffer.now s × (v.items ≡ encoded s)) }
    ensures refused { IfErr result (λ e. IsRefused buffer.now e) }
{
    let parts = match canonical_parts(alloc, buffer) {
        Ok(parts) => parts,
        Err(error) => return Err(error),
    };
    match parts.join(alloc) {
        Ok(spellings) => Ok(spellings),
        Err(error) => Err(DecodeError::Memory(error)),
    }
}
