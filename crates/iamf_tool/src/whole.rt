//! The commands that make one output of the whole input.
ghost use Rattle.std.specs.Prelude.{◌≤◌, ◌^◌, length};
ghost use Rattle.iamf_tool.specs.declared.command.Command.TheVariants as given;
ghost use Rattle.iamf_tool.specs.Ends.{side, ran, Concludes, Ends};

use crate::canon::canon;
use crate::command::Conversion;
use crate::ending::conclude;
use crate::listing::list_lines;
use crate::muxing::{demux, mux};
use crate::notes::unread;
use crate::status::Status;
use iamf_io::{Sink, Source, read_all};
use std::alloc::Global;

/// The most bytes that an input has.
pub const LIMIT: u64 = 1073741824;

// Writes what is made of these bytes, of which there are at most 2^30, or notes why nothing is.
fn convert<W: Sink, N: Sink>(
    alloc: Global,
    conversion: Conversion,
    bytes: &[u8],
    out: &mut W,
    notes: &mut N,
) -> Status
    requires { length bytes.now ≤ 2 ^ 30 }
    ensures { Concludes result (given.Convert conversion) bytes.now
        (side W.held W.faults out.old out.new) (side N.held N.faults notes.old notes.new) }
{
    match conversion {
        Conversion::List => conclude(alloc, list_lines(alloc, bytes), out, notes),
        Conversion::Canon => canon(alloc, bytes, out, notes),
        Conversion::Mux => mux(alloc, bytes, out, notes),
        Conversion::Demux => demux(alloc, bytes, out, notes),
    }
}

/// Reads the whole input, and writes what is made of it, or notes why nothing is.
pub fn whole<R: Source, W: Sink, N: Sink>(
    alloc: Global,
    conversion: Conversion,
    source: &mut R,
    out: &mut W,
    notes: &mut N,
) -> Status
    ensures { Ends result (given.Convert conversion) (ran (side R.left R.faults source.old source.new)
        (side W.held W.faults out.old out.new) (side N.held N.faults notes.old notes.new)) }
{
    match read_all(alloc, source, LIMIT) {
        Ok(bytes) => convert(alloc, conversion, &bytes, out, notes),
        Err(error) => unread(error, notes),
    }
}
