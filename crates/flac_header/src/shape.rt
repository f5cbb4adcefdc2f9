//! The numbers of a header, and those of the shape.
ghost use Rattle.std.specs.Prelude.{◌≡◌, ℕ, ◌+◌, ◌%◌, ◌<◌, ◌≤◌, OnOk, IfOk, slice_index};
ghost use Rattle.spec_bits.specs.Cursor.{Cursor};
ghost use Rattle.spec_syntax.specs.Reading.{read, Answers};
ghost use Rattle.spec_flac.specs.Faults.{short};
ghost use Rattle.spec_flac.specs.Header as table;

use crate::codes::{Codes, Kinds, number_from};
use flac_bits::Reader;
use spec_flac::{FlacFault, FlacField, FlacShape};

const RATES: [u32; 12] = [
    0, 88200, 176400, 192000, 8000, 16000, 22050, 24000, 32000, 44100, 48000, 96000,
];

const DEPTHS: [u32; 8] = [0, 8, 12, 0, 16, 20, 24, 32];

fn rate_of(code: u32) -> u32
    requires { code < 12 }
    ensures { result ≡ slice_index table.rates code }
{
    RATES[code as usize]
}

fn depth_of(shape: FlacShape, code: u32) -> u32
    requires { code < 8 }
    ensures { result ≡ table.depth_of shape code }
{
    if code == 0 {
        u32::from(shape.depth)
    } else {
        DEPTHS[code as usize]
    }
}

fn channels_of(code: u32) -> u32
    requires { code < 16 }
    ensures { result ≡ table.channels_of code }
{
    if code < 8 { code + 1 } else { 2 }
}

fn block_size_of(code: u32) -> u32
    requires low { 1 ≤ code }
    requires high { code < 16 }
    ensures { result ≡ table.block_size_of code }
{
    if code == 1 {
        return 192;
    }
    if code < 6 {
        return 576u32 << (code - 2);
    }
    1u32 << code
}

#[tactic(auto, unfolding(spec_flac::specs::Header::block_size))]
fn block_size_from(reader: &mut Reader<'_>, code: u32) -> Result<u32, FlacFault>
    requires low { 1 ≤ code }
    requires high { code < 16 }
    ensures gives { Answers (λ n. (n, reader.new)) result (read short (table.block_size code) reader.old) }
    ensures whole { OnOk result (reader.new.place % 8 ≡ reader.old.place % 8) }
{
    if code == 6 {
        return match number_from(reader, 8) {
            Ok(uncommon) => Ok(uncommon + 1),
            Err(fault) => Err(fault),
        };
    }
    if code == 7 {
        return match number_from(reader, 16) {
            Ok(uncommon) => Ok(uncommon + 1),
            Err(fault) => Err(fault),
        };
    }
    Ok(block_size_of(code))
}

#[tactic(auto, unfolding(spec_flac::specs::Header::sample_rate))]
fn sample_rate_from(reader: &mut Reader<'_>, shape: FlacShape, code: u32) -> Result<u32, FlacFault>
    requires { code < 15 }
    ensures gives { Answers (λ n. (n, reader.new)) result (read short (table.sample_rate shape code) reader.old) }
    ensures whole { OnOk result (reader.new.place % 8 ≡ reader.old.place % 8) }
{
    if code == 0 {
        return Ok(shape.rate);
    }
    if code == 12 {
        return match number_from(reader, 8) {
            Ok(uncommon) => Ok(uncommon * 1000),
            Err(fault) => Err(fault),
        };
    }
    if code == 13 {
        return number_from(reader, 16);
    }
    if code == 14 {
        return match number_from(reader, 16) {
            Ok(uncommon) => Ok(uncommon * 10),
            Err(fault) => Err(fault),
        };
    }
    Ok(rate_of(code))
}

#[tactic(auto, unfolding(spec_flac::specs::Header::matches))]
fn tested(shape: FlacShape, size: u32, rate: u32, kinds: Kinds) -> Result<(), FlacFault>
    requires channels { kinds.channels ≤ 10 }
    requires depth { kinds.depth < 8 }
    ensures { (c : Cursor) → Answers (λ _. (tt, c)) result (read short (table.matches shape size rate (record { channels = kinds.channels; bit_depth = kinds.depth })) c) }
{
    if size != shape.length {
        return Err(FlacFault::Mismatch {
            field: FlacField::Length,
            found: size,
            wanted: shape.length,
        });
    }
    if rate != shape.rate {
        return Err(FlacFault::Mismatch {
            field: FlacField::Rate,
            found: rate,
            wanted: shape.rate,
        });
    }
    let channels = channels_of(kinds.channels);
    if channels != u32::from(shape.channels) {
        return Err(FlacFault::Mismatch {
            field: FlacField::Channels,
            found: channels,
            wanted: u32::from(shape.channels),
        });
    }
    let depth = depth_of(shape, kinds.depth);
    if depth != u32::from(shape.depth) {
        return Err(FlacFault::Mismatch {
            field: FlacField::Depth,
            found: depth,
            wanted: u32::from(shape.depth),
        });
    }
    Ok(())
}

#[tactic(auto, using(spec_syntax::proofs::Reading::bind_ok, spec_syntax::proofs::Reading::bind_err), unfolding(spec_flac::specs::Header::numbers))]
pub fn numbers_from(
    reader: &mut Reader<'_>,
    shape: FlacShape,
    codes: Codes,
    kinds: Kinds,
) -> Result<(), FlacFault>
    requires block_low { 1 ≤ codes.block_size }
    requires block_high { codes.block_size < 16 }
    requires rate { codes.sample_rate < 15 }
    requires channels { kinds.channels ≤ 10 }
    requires depth { kinds.depth < 8 }
    ensures gives { Answers (λ _. (tt, reader.new)) result (read short (table.numbers shape (record { codes = record { block_size = codes.block_size; sample_rate = codes.sample_rate }; kinds = record { channels = kinds.channels; bit_depth = kinds.depth } })) reader.old) }
    ensures whole { OnOk result (reader.new.place % 8 ≡ reader.old.place % 8) }
{
    let size = match block_size_from(reader, codes.block_size) {
        Ok(size) => size,
        Err(fault) => return Err(fault),
    };
    let rate = match sample_rate_from(reader, shape, codes.sample_rate) {
        Ok(rate) => rate,
        Err(fault) => return Err(fault),
    };
    tested(shape, size, rate, kinds)
}
