//! The command `canon`. All is tested and all memory is taken before the first byte is written.
ghost use Rattle.std.specs.Prelude.{◌≡◌, ◌≤◌, ◌^◌, ℕ, List, length};
ghost use Rattle.iamf_tool.specs.declared.command.Command.TheVariants as given;
ghost use Rattle.iamf_tool.specs.declared.command.Conversion.TheVariants as conversion;
ghost use Rattle.spec_values.specs.Value.{ObuValue};
ghost use Rattle.spec_values.specs.Canonical.{encoded};
ghost use Rattle.spec_sequence.specs.Reading.{Reads};
ghost use Rattle.iamf_tool.specs.Ends.{side, Concludes};

use crate::answer::answer_to;
use crate::ending::conclude;
use crate::notes::ended;
use crate::piecewise::{ROOM, write_pieces};
use crate::status::Status;
use bytes::BytesMut;
use iamf_io::Sink;
use iamf_sequence::{CanonicalParts, canonical_parts};
use std::alloc::Global;

// Writes the canonical spelling of a sequence.
fn write_canonical<W: Sink, N: Sink>(
    alloc: Global,
    parts: &CanonicalParts<'_>,
    out: &mut W,
    notes: &mut N,
) -> Status
    ensures { (b : List ℕ) (s : List ObuValue) → Reads b s → parts.now ≡ encoded s → Concludes result (given.Convert conversion.Canon) b
        (side W.held W.faults out.old out.new) (side N.held N.faults notes.old notes.new) }
{
    let pieces = match parts.pieces(alloc) {
        Ok(pieces) => pieces,
        Err(_) => return ended(Status::Memory, notes),
    };
    let mut waiting = match BytesMut::with_capacity(alloc, ROOM) {
        Ok(waiting) => waiting,
        Err(_) => return ended(Status::Memory, notes),
    };
    match write_pieces(&mut waiting, &pieces, out) {
        Ok(()) => Status::Done,
        Err(_) => ended(Status::WriteFault, notes),
    }
}

/// Writes the canonical spelling of the sequence that the bytes are, or notes their first fault.
pub fn canon<W: Sink, N: Sink>(alloc: Global, bytes: &[u8], out: &mut W, notes: &mut N) -> Status
    requires { length bytes.now ≤ 2 ^ 30 }
    ensures { Concludes result (given.Convert conversion.Canon) bytes.now
        (side W.held W.faults out.old out.new) (side N.held N.faults notes.old notes.new) }
{
    match canonical_parts(alloc, bytes) {
        Ok(parts) => write_canonical(alloc, &parts, out, notes),
        Err(error) => conclude(alloc, answer_to(error), out, notes),
    }
}
