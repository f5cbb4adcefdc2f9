//! One channel or two.
ghost use Rattle.std.specs.Prelude.{◌≡◌, ℕ, ◌+◌, ◌-◌, ◌^◌, ◌<◌, ◌≤◌, length, OnOk, [], ◌∷◌};
ghost use Rattle.spec_syntax.specs.Reading.{read, Answers};
ghost use Rattle.spec_flac.specs.Faults.{short};
ghost use Rattle.spec_flac.specs.Frame as table;
ghost use Rattle.spec_flac.specs.Frame.{one_channel, two_channels};

use crate::stereo::decorrelated;
use flac_bits::Reader;
use flac_subframes::subframe_from;
use spec_flac::{FlacFault, FlacShape};

/// The samples of the only channel.
pub fn one_channel_from(
    reader: &mut Reader<'_>,
    shape: FlacShape,
    row: &mut [i64],
) -> Result<(), FlacFault>
    requires low { 1 ≤ shape.depth }
    requires high { shape.depth ≤ 32 }
    requires row { length row.old ≡ shape.length }
    ensures gives { Answers (λ _. (row.new ∷ [], reader.new)) result (read short (one_channel shape) reader.old) }
{
    subframe_from(reader, u32::from(shape.depth), row)
}

fn first_depth(shape: FlacShape, code: u32) -> u32
    ensures is { result ≡ table.first_depth shape code }
    ensures low { shape.depth ≤ result }
    ensures high { result ≤ shape.depth + 1 }
{
    let depth = u32::from(shape.depth);
    if code == 9 { depth + 1 } else { depth }
}

fn second_depth(shape: FlacShape, code: u32) -> u32
    ensures is { result ≡ table.second_depth shape code }
    ensures low { shape.depth ≤ result }
    ensures high { result ≤ shape.depth + 1 }
{
    let depth = u32::from(shape.depth);
    if code == 8 || code == 10 {
        depth + 1
    } else {
        depth
    }
}

/// The samples of two channels.
pub fn two_channels_from(
    reader: &mut Reader<'_>,
    shape: FlacShape,
    code: u32,
    first: &mut [i64],
    second: &mut [i64],
) -> Result<(), FlacFault>
    requires code { code ≤ 10 }
    requires low { 1 ≤ shape.depth }
    requires high { shape.depth ≤ 32 }
    requires first { length first.old ≡ shape.length }
    requires second { length second.old ≡ shape.length }
    ensures gives { Answers (λ _. (first.new ∷ second.new ∷ [], reader.new)) result (read short (two_channels shape code) reader.old) }
{
    match subframe_from(reader, first_depth(shape, code), first) {
        Ok(()) => (),
        Err(fault) => return Err(fault),
    }
    match subframe_from(reader, second_depth(shape, code), second) {
        Ok(()) => (),
        Err(fault) => return Err(fault),
    }
    if code < 8 {
        return Ok(());
    }
    decorrelated(code, u32::from(shape.depth), first, second)
}
