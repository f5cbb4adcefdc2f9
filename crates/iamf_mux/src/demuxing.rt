//! A sequence out of a file.

ghost use Rattle.std.specs.Prelude.{◌+◌, ◌≤◌, ◌^◌, ◌++◌, ℕ, List, length, IfOk, IfErr};
ghost use Rattle.spec_values.specs.Value.{ObuValue};
ghost use Rattle.spec_sequence.specs.Reading.{Reads};
ghost use Rattle.iamf_sequence.specs.Places.{IsRefused};
ghost use Rattle.iamf_mux.specs.Demuxing.{bare, Demuxes, FindsTrack};
ghost use Rattle.iamf_stream.specs.Feeding.{Knows};

use iamf_sequence::{DecodeError, Refusal};
use iamf_stream::StreamChecker;
use mp4_boxes::{Track, audio_track};
use mp4_file::{DELIMITER, rebuild};
use spec_boxes::BoxRefusal;
use std::alloc::{AllocError, Global};
use thiserror::Error;

/// Why a file gives no sequence.
#[derive(Debug, Drop, Error)]
pub enum DemuxError {
    /// The file breaks a rule on boxes: this is the first.
    #[error("the file breaks a rule on boxes")]
    Box(BoxRefusal),
    /// The descriptors and the samples of the file are no sequence: this is the first fault of the bare sequence that is
    /// built of them, with its place in that.
    #[error("the file holds no sequence")]
    Inner(Refusal),
    /// Memory ran out.
    #[error("out of memory")]
    Memory(AllocError),
}

// Lets the checker take the next piece, unless it goes no further: why it answers at its end.
fn feed(checker: &mut StreamChecker, piece: &[u8])
    requires { checker.old.fed + length piece.now ≤ 2 ^ 40 }
    ensures knows { (bytes : List ℕ) → Knows checker.old bytes → Knows checker.new (bytes ++ piece.now) }
    ensures fed { checker.new.fed ≤ checker.old.fed + length piece.now }
{
    let _ = checker.feed(piece);
}

// Whether the bare sequence of the track is one. It is not built.
fn check(alloc: Global, track: &Track<'_>) -> Result<(), DecodeError>
    requires { length (bare track.now) ≤ 2 ^ 40 }
    ensures reads { IfOk result (λ _. (s : List ObuValue) × Reads (bare track.now) s) }
    ensures refused { IfErr result (λ e. IsRefused (bare track.now) e) }
{
    let mut checker = StreamChecker::new(alloc);
    feed(&mut checker, track.config());
    let mut samples = track.samples();
    while let Some(bytes) = samples.next_sample() {
        feed(&mut checker, &DELIMITER);
        feed(&mut checker, bytes);
    }
    match checker.finish() {
        Ok(_) => Ok(()),
        Err(error) => Err(error),
    }
}

/// The IAMF track of an MP4 file of at most 2^30 bytes, as `audio_track` answers it, where its descriptors and then each
/// sample after a temporal delimiter are a sequence (IAMF 1.0.0, "ISOBMFF IAMF Encapsulation"). That is not built.
///
/// # Errors
///
/// As `demux`.
pub fn sequence_track(alloc: Global, file: &[u8]) -> Result<Track<'_>, DemuxError>
    requires { length file.now ≤ 2 ^ 30 }
    ensures { FindsTrack file.now result }
{
    let track = match audio_track(file) {
        Ok(track) => track,
        Err(refusal) => return Err(DemuxError::Box(refusal)),
    };
    // Of which there are fewer than 2^32.
    let _samples = track.sample_count();
    match check(alloc, &track) {
        Ok(()) => Ok(track),
        Err(DecodeError::Refused(refusal)) => Err(DemuxError::Inner(refusal)),
        Err(DecodeError::Memory(error)) => Err(DemuxError::Memory(error)),
    }
}

/// The bare sequence in an MP4 file of at most 2^30 bytes: the descriptors of its IAMF track, and each sample as a
/// temporal unit after its delimiter (IAMF 1.0.0, "ISOBMFF IAMF Encapsulation").
///
/// # Errors
///
/// `Box` exactly where a rule on boxes fails; else `Inner` exactly where what is built is no sequence. `Memory` only
/// where memory runs out.
pub fn demux(alloc: Global, file: &[u8]) -> Result<Vec<u8>, DemuxError>
    requires { length file.now ≤ 2 ^ 30 }
    ensures { Demuxes file.now result }
{
    let track = match sequence_track(alloc, file) {
        Ok(track) => track,
        Err(error) => return Err(error),
    };
    match rebuild(alloc, &track) {
        Ok(bytes) => Ok(bytes),
        Err(error) => Err(DemuxError::Memory(error)),
    }
}
