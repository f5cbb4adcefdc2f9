//! Writing an output in pieces.
ghost use Rattle.std.specs.Prelude.{◌≡◌, [], OnOk};
ghost use Rattle.std.specs.List.{flat_map};
ghost use Rattle.spec_files.specs.Body.{marked};
ghost use Rattle.mp4_file.specs.Slices.{joined};
ghost use Rattle.mp4_boxes.specs.TrackViews.{samples_left};
ghost use Rattle.iamf_tool.specs.Ends.{side, Writes};
ghost use Rattle.iamf_tool.specs.Waiting.{Passes};

use bytes::BytesMut;
use iamf_io::{Failed, Sink, write_all};
use mp4_boxes::Samples;
use mp4_file::DELIMITER;

/// How many bytes wait at most, so that short pieces are written together.
pub const ROOM: usize = 16384;

/// Writes a piece after the bytes that wait, or lets it wait with them where there is room.
pub fn put_piece<W: Sink>(waiting: &mut BytesMut, piece: &[u8], out: &mut W) -> Result<(), Failed>
    ensures { Passes result waiting.old.items piece.now waiting.new.items (side W.held W.faults out.old out.new) }
{
    if piece.len() <= waiting.capacity() - waiting.len() {
        waiting.extend_reserved(piece);
        return Ok(());
    }
    write_waiting(waiting, out)?;
    write_all(out, piece)
}

// Writes the bytes that wait.
fn write_waiting<W: Sink>(waiting: &mut BytesMut, out: &mut W) -> Result<(), Failed>
    ensures written { Writes result waiting.old.items (side W.held W.faults out.old out.new) }
    ensures none { OnOk result (waiting.new.items ≡ []) }
{
    match write_all(out, waiting.as_slice()) {
        Ok(()) => {
            waiting.clear();
            Ok(())
        }
        Err(failed) => Err(failed),
    }
}

/// Writes the bytes that wait, and flushes.
pub fn finish<W: Sink>(waiting: &mut BytesMut, out: &mut W) -> Result<(), Failed>
    ensures { Writes result waiting.old.items (side W.held W.faults out.old out.new) }
{
    match write_waiting(waiting, out) {
        Ok(()) => out.flush(),
        Err(failed) => Err(failed),
    }
}

/// Writes pieces, as `put_piece` each.
pub fn put_pieces<W: Sink>(
    waiting: &mut BytesMut,
    pieces: &[&[u8]],
    out: &mut W,
) -> Result<(), Failed>
    ensures { Passes result waiting.old.items (joined pieces.now) waiting.new.items (side W.held W.faults out.old out.new) }
{
    for piece in pieces {
        match put_piece(waiting, piece, out) {
            Ok(()) => {}
            Err(failed) => return Err(failed),
        }
    }
    Ok(())
}

/// Writes pieces, before which nothing waits, and flushes.
pub fn write_pieces<W: Sink>(
    waiting: &mut BytesMut,
    pieces: &[&[u8]],
    out: &mut W,
) -> Result<(), Failed>
    requires { waiting.old.items ≡ [] }
    ensures { Writes result (joined pieces.now) (side W.held W.faults out.old out.new) }
{
    match put_pieces(waiting, pieces, out) {
        Ok(()) => finish(waiting, out),
        Err(failed) => Err(failed),
    }
}

/// Writes each sample after a delimiter, as `put_piece` each.
pub fn put_samples<W: Sink>(
    waiting: &mut BytesMut,
    samples: &Samples<'_>,
    out: &mut W,
) -> Result<(), Failed>
    ensures { Passes result waiting.old.items (flat_map marked (samples_left samples.now)) waiting.new.items (side W.held W.faults out.old out.new) }
{
    let mut rest = *samples;
    while let Some(bytes) = rest.next_sample() {
        match put_marked(waiting, bytes, out) {
            Ok(()) => {}
            Err(failed) => return Err(failed),
        }
    }
    Ok(())
}

// Writes a sample after a delimiter.
fn put_marked<W: Sink>(waiting: &mut BytesMut, sample: &[u8], out: &mut W) -> Result<(), Failed>
    ensures { Passes result waiting.old.items (marked sample.now) waiting.new.items (side W.held W.faults out.old out.new) }
{
    match put_piece(waiting, &DELIMITER, out) {
        Ok(()) => put_piece(waiting, sample, out),
        Err(failed) => Err(failed),
    }
}
