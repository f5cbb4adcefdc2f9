//! A sequence into a file.

ghost use Rattle.std.specs.Prelude.{◌≤◌, ◌^◌, ℕ, List, length, IfOk, IfErr};
ghost use Rattle.spec_boxes.specs.Laws.{Holds};
ghost use Rattle.spec_bodies.specs.SequenceBody.{HasSequenceBody};
ghost use Rattle.spec_bodies.specs.SequenceFile.{IsFileOf};
ghost use Rattle.iamf_sequence.specs.Places.{IsRefused};
ghost use Rattle.iamf_mux.specs.BodyView.{IsBodyOf};
ghost use Rattle.iamf_mux.specs.FileOf.{file_of, HasItsUnits, LiesIn};

use crate::body::Body;
use crate::draft::Draft;
use iamf_sequence::{DecodeError, Sequence, walk};
use mp4_file::{write_front, write_movie};
use std::alloc::{AllocError, Global};

// What is written of the sequence that the bytes are.
fn gather<'a>(alloc: Global, buffer: &'a [u8]) -> Result<Body<'a>, DecodeError>
    requires { length buffer.now ≤ 2 ^ 30 }
    ensures body { IfOk result (λ body. IsBodyOf body buffer.now) }
    ensures refused { IfErr result (λ e. IsRefused buffer.now e) }
{
    let mut draft = Draft::new(alloc, buffer);
    let admission = match walk(alloc, buffer, &mut draft) {
        Ok(admission) => admission,
        Err(error) => return Err(error),
    };
    match draft.finish(&admission) {
        Ok(body) => Ok(body),
        Err(error) => Err(DecodeError::Memory(error)),
    }
}

/// The MP4 file of a sequence of at most 2^30 bytes: its plain descriptors, and each temporal unit as a sample, without
/// delimiters, reserved OBUs and redundant copies (IAMF 1.0.0, "ISOBMFF IAMF Encapsulation"). It reads the bytes of the
/// sequence again.
///
/// # Errors
///
/// Want of memory alone.
pub fn mux(alloc: Global, sequence: &Sequence<'_>) -> Result<Vec<u8>, AllocError>
    requires { length sequence.now.bytes ≤ 2 ^ 30 }
    ensures file { IfOk result (λ v. IsFileOf sequence.now.bytes v.items) }
    ensures holds { IfOk result (λ v. (d : List ℕ) × (u : List (List ℕ)) × HasSequenceBody sequence.now.bytes d u × Holds v.items d u) }
{
    match gather(alloc, sequence.bytes()) {
        Ok(body) => write_movie(alloc, &body.movie()),
        Err(error) => Err(error.memory()),
    }
}

/// A file in two parts, of which the second lies in the bytes of a sequence, in the order of its slices.
#[derive(Drop)]
pub struct FileParts<'a> {
    /// All that stands before the data of the samples.
    pub front: Vec<u8>,
    /// The data of the units, which ends the file. What lies end to end in the sequence is one slice.
    pub units: Vec<&'a [u8]>,
}

/// Reads the bytes, of which there are at most 2^30, as a sequence, and answers the file that `mux` answers of it, in parts:
/// the units stay where they are in the bytes. It keeps no OBU, and of a unit its length alone.
///
/// # Errors
///
/// `Refused` exactly where the bytes are no sequence, with the first fault and the place of its OBU, or the number of the
/// bytes where it is a fault of their end. `Memory` only where memory runs out.
pub fn file_parts<'a>(alloc: Global, buffer: &'a [u8]) -> Result<FileParts<'a>, DecodeError>
    requires { length buffer.now ≤ 2 ^ 30 }
    ensures file { IfOk result (λ p. IsFileOf buffer.now (file_of p)) }
    ensures units { IfOk result (λ p. HasItsUnits buffer.now p) }
    ensures slices { IfOk result (λ p. LiesIn buffer.now p) }
    ensures refused { IfErr result (λ e. IsRefused buffer.now e) }
{
    let body = match gather(alloc, buffer) {
        Ok(body) => body,
        Err(error) => return Err(error),
    };
    match write_front(alloc, &body.movie()) {
        Ok(front) => Ok(FileParts {
            front,
            units: body.units,
        }),
        Err(error) => Err(DecodeError::Memory(error)),
    }
}
