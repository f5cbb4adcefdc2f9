//! The commands on MP4 files. All is tested and all memory is taken before the first byte is written.
ghost use Rattle.std.specs.Prelude.{◌≡◌, ◌≤◌, ◌^◌, ℕ, List, [], length, IfOk};
ghost use Rattle.iamf_tool.specs.declared.command.Command.TheVariants as given;
ghost use Rattle.iamf_tool.specs.declared.command.Conversion.TheVariants as conversion;
ghost use Rattle.spec_values.specs.Value.{ObuValue};
ghost use Rattle.spec_sequence.specs.Reading.{Reads};
ghost use Rattle.spec_bodies.specs.SequenceFile.{IsBareOf, IsFileOf};
ghost use Rattle.iamf_mux.specs.Demuxing.{bare, IsNoBare};
ghost use Rattle.iamf_mux.specs.FileOf.{file_of};
ghost use Rattle.iamf_tool.specs.Outcome.{DemuxGives};
ghost use Rattle.iamf_tool.specs.Answers.{view_answer};
ghost use Rattle.iamf_tool.specs.Ends.{side, Writes, Concludes};

use crate::answer::{Answer, answer_to};
use crate::ending::conclude;
use crate::notes::ended;
use crate::piecewise::{ROOM, finish, put_piece, put_pieces, put_samples};
use crate::status::Status;
use bytes::BytesMut;
use iamf_io::{Failed, Sink};
use iamf_mux::{DemuxError, FileParts, file_parts, sequence_track};
use mp4_boxes::Track;
use std::alloc::{AllocError, Global};

// Writes the parts of a file.
fn write_parts<W: Sink>(
    waiting: &mut BytesMut,
    parts: &FileParts<'_>,
    out: &mut W,
) -> Result<(), Failed>
    requires { waiting.old.items ≡ [] }
    ensures { Writes result (file_of parts.now) (side W.held W.faults out.old out.new) }
{
    match put_piece(waiting, &parts.front, out) {
        Ok(()) => {}
        Err(failed) => return Err(failed),
    }
    match put_pieces(waiting, &parts.units, out) {
        Ok(()) => finish(waiting, out),
        Err(failed) => Err(failed),
    }
}

// Writes the MP4 file of a sequence.
fn write_file<W: Sink, N: Sink>(
    alloc: Global,
    parts: &FileParts<'_>,
    out: &mut W,
    notes: &mut N,
) -> Status
    ensures { (b : List ℕ) → IsFileOf b (file_of parts.now) → Concludes result (given.Convert conversion.Mux) b
        (side W.held W.faults out.old out.new) (side N.held N.faults notes.old notes.new) }
{
    let mut waiting = match BytesMut::with_capacity(alloc, ROOM) {
        Ok(waiting) => waiting,
        Err(_) => return ended(Status::Memory, notes),
    };
    match write_parts(&mut waiting, parts, out) {
        Ok(()) => Status::Done,
        Err(_) => ended(Status::WriteFault, notes),
    }
}

/// Writes the MP4 file of the sequence that the bytes are, or notes their first fault.
pub fn mux<W: Sink, N: Sink>(alloc: Global, bytes: &[u8], out: &mut W, notes: &mut N) -> Status
    requires { length bytes.now ≤ 2 ^ 30 }
    ensures { Concludes result (given.Convert conversion.Mux) bytes.now
        (side W.held W.faults out.old out.new) (side N.held N.faults notes.old notes.new) }
{
    match file_parts(alloc, bytes) {
        Ok(parts) => write_file(alloc, &parts, out, notes),
        Err(error) => conclude(alloc, answer_to(error), out, notes),
    }
}

// Writes the bare sequence of the track.
#[tactic(auto, unfolding(spec_files::specs::Body::rebuilt))]
fn write_bare<W: Sink>(waiting: &mut BytesMut, track: &Track<'_>, out: &mut W) -> Result<(), Failed>
    requires { waiting.old.items ≡ [] }
    ensures { Writes result (bare track.now) (side W.held W.faults out.old out.new) }
{
    match put_piece(waiting, track.config(), out) {
        Ok(()) => {}
        Err(failed) => return Err(failed),
    }
    match put_samples(waiting, &track.samples(), out) {
        Ok(()) => finish(waiting, out),
        Err(failed) => Err(failed),
    }
}

// Writes the bare sequence of the track of a file.
fn demux_track<W: Sink, N: Sink>(
    alloc: Global,
    track: &Track<'_>,
    out: &mut W,
    notes: &mut N,
) -> Status
    ensures { (f : List ℕ) → IsBareOf f (bare track.now) → (s : List ObuValue) → Reads (bare track.now) s → Concludes result (given.Convert conversion.Demux) f
        (side W.held W.faults out.old out.new) (side N.held N.faults notes.old notes.new) }
{
    let mut waiting = match BytesMut::with_capacity(alloc, ROOM) {
        Ok(waiting) => waiting,
        Err(_) => return ended(Status::Memory, notes),
    };
    match write_bare(&mut waiting, track, out) {
        Ok(()) => Status::Done,
        Err(_) => ended(Status::WriteFault, notes),
    }
}

// The answer to a file that gives no sequence. An `Err` says that there is no memory.
fn answer_to_file(error: DemuxError) -> Result<Answer, AllocError>
    ensures { IfOk result (λ a. (f : List ℕ) → IsNoBare f error → DemuxGives f (view_answer a)) }
{
    match error {
        DemuxError::Box(refusal) => Ok(Answer::Refusal {
            at: refusal.at,
            code: u32::from(refusal.fault.code()),
        }),
        DemuxError::Inner(refusal) => Ok(Answer::Refusal {
            at: refusal.at,
            code: refusal.code(),
        }),
        DemuxError::Memory(error) => Err(error),
    }
}

/// Writes the bare sequence in the MP4 file that the bytes are, or notes the first rule on boxes that fails, or the first
/// fault of the bare sequence.
pub fn demux<W: Sink, N: Sink>(alloc: Global, bytes: &[u8], out: &mut W, notes: &mut N) -> Status
    requires { length bytes.now ≤ 2 ^ 30 }
    ensures { Concludes result (given.Convert conversion.Demux) bytes.now
        (side W.held W.faults out.old out.new) (side N.held N.faults notes.old notes.new) }
{
    match sequence_track(alloc, bytes) {
        Ok(track) => demux_track(alloc, &track, out, notes),
        Err(error) => conclude(alloc, answer_to_file(error), out, notes),
    }
}
