//! Whole frames.
ghost use Rattle.std.specs.Prelude.{◌≡◌, ℕ, ◌+◌, ◌-◌, ◌*◌, ◌^◌, ◌<◌, ◌≤◌, length, [], ◌∷◌};
ghost use Rattle.spec_syntax.specs.Reading.{read, Answers};
ghost use Rattle.spec_flac.specs.Faults.{short};
ghost use Rattle.spec_flac.specs.Frame.{frame, IsDecoded};

use crate::channels::{one_channel_from, two_channels_from};
use crate::footer::{end_from, tail};
use flac_bits::Reader;
use flac_header::header_from;
use spec_flac::{FlacFault, FlacShape};

/// A frame of one channel.
fn one_from(reader: &mut Reader<'_>, shape: FlacShape, row: &mut [i64]) -> Result<(), FlacFault>
    requires place { reader.old.place ≡ 0 }
    requires channels { shape.channels ≡ 1 }
    requires low { 1 ≤ shape.depth }
    requires high { shape.depth ≤ 32 }
    requires row { length row.old ≡ shape.length }
    ensures gives { Answers (λ _. (row.new ∷ [], reader.new)) result (read short (frame shape) reader.old) }
{
    let _code = match header_from(reader, shape) {
        Ok(code) => code,
        Err(fault) => return Err(fault),
    };
    match one_channel_from(reader, shape, row) {
        Ok(()) => end_from(reader),
        Err(fault) => Err(fault),
    }
}

/// A frame of two channels.
fn two_from(
    reader: &mut Reader<'_>,
    shape: FlacShape,
    first: &mut [i64],
    second: &mut [i64],
) -> Result<(), FlacFault>
    requires place { reader.old.place ≡ 0 }
    requires channels { shape.channels ≡ 2 }
    requires low { 1 ≤ shape.depth }
    requires high { shape.depth ≤ 32 }
    requires first { length first.old ≡ shape.length }
    requires second { length second.old ≡ shape.length }
    ensures gives { Answers (λ _. (first.new ∷ second.new ∷ [], reader.new)) result (read short (frame shape) reader.old) }
{
    let code = match header_from(reader, shape) {
        Ok(code) => code,
        Err(fault) => return Err(fault),
    };
    match two_channels_from(reader, shape, code, first, second) {
        Ok(()) => end_from(reader),
        Err(fault) => Err(fault),
    }
}

/// Decodes the bytes, which are a frame of one channel of the shape, into a row, or answers the first fault.
pub fn decode_one(bytes: &[u8], shape: FlacShape, row: &mut [i64]) -> Result<(), FlacFault>
    requires channels { shape.channels ≡ 1 }
    requires low { 1 ≤ shape.depth }
    requires high { shape.depth ≤ 32 }
    requires row { length row.old ≡ shape.length }
    ensures { IsDecoded result shape bytes.now (row.new ∷ []) }
{
    let mut reader = Reader::new(bytes);
    match one_from(&mut reader, shape, row) {
        Ok(()) => tail(&reader),
        Err(fault) => Err(fault),
    }
}

/// Decodes the bytes, which are a frame of two channels of the shape, into two rows, or answers the first fault.
pub fn decode_two(
    bytes: &[u8],
    shape: FlacShape,
    first: &mut [i64],
    second: &mut [i64],
) -> Result<(), FlacFault>
    requires channels { shape.channels ≡ 2 }
    requires low { 1 ≤ shape.depth }
    requires high { shape.depth ≤ 32 }
    requires first { length first.old ≡ shape.length }
    requires second { length second.old ≡ shape.length }
    ensures { IsDecoded result shape bytes.now (first.new ∷ second.new ∷ []) }
{
    let mut reader = Reader::new(bytes);
    match two_from(&mut reader, shape, first, second) {
        Ok(()) => tail(&reader),
        Err(fault) => Err(fault),
    }
}
