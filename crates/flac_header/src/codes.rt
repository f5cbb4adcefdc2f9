//! The codes at the front of a header.
ghost use Rattle.std.specs.Prelude.{◌≡◌, ℕ, ◌+◌, ◌%◌, ◌^◌, ◌<◌, ◌≤◌, OnOk, IfOk};
ghost use Rattle.spec_bits.specs.Form.{Number};
ghost use Rattle.spec_bits.specs.Cursor.{field_at, moved};
ghost use Rattle.flac_bits.specs.Places.{Takes};
ghost use Rattle.spec_syntax.specs.Reading.{read, Answers};
ghost use Rattle.spec_flac.specs.Faults.{short};
ghost use Rattle.spec_flac.specs.Header as table;

use flac_bits::Reader;
use spec_flac::FlacFault;

/// The codes of the block size and the sample rate.
#[derive(Clone, Copy)]
pub struct Codes {
    pub block_size: u32,
    pub sample_rate: u32,
}

/// The codes of the channels and the depth.
#[derive(Clone, Copy)]
pub struct Kinds {
    pub channels: u32,
    pub depth: u32,
}

/// The next bits, at most 16, as a number.
pub fn number_from(reader: &mut Reader<'_>, count: u32) -> Result<u32, FlacFault>
    requires { count ≤ 16 }
    ensures takes { Takes (λ v. v) result reader.new (field_at (Number count) reader.old) }
    ensures fits { IfOk result (λ v. v < 2 ^ count) }
    ensures small { IfOk result (λ v. v < 65536) }
    ensures moves { OnOk result (reader.new ≡ moved reader.old count) }
{
    match reader.take(count) {
        Ok(value) => Ok(value as u32),
        Err(fault) => Err(fault),
    }
}

#[tactic(auto, unfolding(spec_flac::specs::Header::codes))]
pub fn codes_from(reader: &mut Reader<'_>) -> Result<Codes, FlacFault>
    ensures gives { Answers (λ c. (record { block_size = c.block_size; sample_rate = c.sample_rate }, reader.new)) result (read short table.codes reader.old) }
    ensures block_low { IfOk result (λ c. 1 ≤ c.block_size) }
    ensures block_high { IfOk result (λ c. c.block_size < 16) }
    ensures rate { IfOk result (λ c. c.sample_rate < 15) }
    ensures moves { OnOk result (reader.new.place ≡ reader.old.place + 24) }
{
    let sync = number_from(reader, 14)?;
    if sync != 0x3ffe {
        return Err(FlacFault::Header);
    }
    let reserved = number_from(reader, 1)?;
    if reserved != 0 {
        return Err(FlacFault::Header);
    }
    let _strategy = number_from(reader, 1)?;
    let block_size = number_from(reader, 4)?;
    if block_size == 0 {
        return Err(FlacFault::Header);
    }
    let sample_rate = number_from(reader, 4)?;
    if sample_rate == 15 {
        return Err(FlacFault::Header);
    }
    Ok(Codes {
        block_size,
        sample_rate,
    })
}

#[tactic(auto, unfolding(spec_flac::specs::Header::kinds))]
pub fn kinds_from(reader: &mut Reader<'_>) -> Result<Kinds, FlacFault>
    ensures gives { Answers (λ k. (record { channels = k.channels; bit_depth = k.depth }, reader.new)) result (read short table.kinds reader.old) }
    ensures channels { IfOk result (λ k. k.channels ≤ 10) }
    ensures depth { IfOk result (λ k. k.depth < 8) }
    ensures moves { OnOk result (reader.new.place ≡ reader.old.place + 8) }
{
    let channels = number_from(reader, 4)?;
    if channels > 10 {
        return Err(FlacFault::Header);
    }
    let depth = number_from(reader, 3)?;
    if depth == 3 {
        return Err(FlacFault::Header);
    }
    let reserved = number_from(reader, 1)?;
    if reserved != 0 {
        return Err(FlacFault::Header);
    }
    Ok(Kinds { channels, depth })
}
