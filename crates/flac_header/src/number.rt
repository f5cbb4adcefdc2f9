//! The coded number.
ghost use Rattle.std.specs.Prelude.{◌≡◌, ℕ, ◌+◌, ◌%◌, ◌<◌, ◌≤◌, OnOk, IfOk};
ghost use Rattle.spec_syntax.specs.Reading.{read, Answers};
ghost use Rattle.spec_flac.specs.Faults.{short};
ghost use Rattle.spec_flac.specs.Header as table;

use crate::codes::number_from;
use flac_bits::Reader;
use spec_flac::FlacFault;

/// How many bytes follow a first byte.
fn more_bytes(first: u32) -> u32
    ensures { result ≡ table.more_bytes first }
{
    if first < 128 {
        0
    } else if first < 224 {
        1
    } else if first < 240 {
        2
    } else if first < 248 {
        3
    } else if first < 252 {
        4
    } else if first < 254 {
        5
    } else {
        6
    }
}

/// A byte after the first.
#[tactic(auto, unfolding(spec_flac::specs::Header::further_byte))]
fn further_byte(reader: &mut Reader<'_>) -> Result<(), FlacFault>
    ensures gives { Answers (λ _. (tt, reader.new)) result (read short table.further_byte reader.old) }
    ensures whole { OnOk result (reader.new.place % 8 ≡ reader.old.place % 8) }
{
    let byte = match number_from(reader, 8) {
        Ok(byte) => byte,
        Err(fault) => return Err(fault),
    };
    if byte / 64 != 2 {
        return Err(FlacFault::Header);
    }
    Ok(())
}

/// So many bytes after the first.
fn further_from(reader: &mut Reader<'_>, count: u32) -> Result<(), FlacFault>
    ensures gives { Answers (λ _. (tt, reader.new)) result (read short (table.further count) reader.old) }
    ensures whole { OnOk result (reader.new.place % 8 ≡ reader.old.place % 8) }
{
    for i in 0..count {
        match further_byte(reader) {
            Ok(()) => (),
            Err(fault) => return Err(fault),
        }
    }
    Ok(())
}

/// Passes over the coded number.
#[tactic(auto, unfolding(spec_flac::specs::Header::coded_number))]
pub fn coded_number_from(reader: &mut Reader<'_>) -> Result<(), FlacFault>
    ensures gives { Answers (λ _. (tt, reader.new)) result (read short table.coded_number reader.old) }
    ensures whole { OnOk result (reader.new.place % 8 ≡ reader.old.place % 8) }
{
    let first = match number_from(reader, 8) {
        Ok(first) => first,
        Err(fault) => return Err(fault),
    };
    if first / 64 == 2 {
        return Err(FlacFault::Header);
    }
    if first == 255 {
        return Err(FlacFault::Header);
    }
    further_from(reader, more_bytes(first))
}
