//! Whole headers.
ghost use Rattle.std.specs.Prelude.{◌≡◌, ℕ, ◌+◌, ◌%◌, ◌<◌, ◌≤◌, OnOk, IfOk};
ghost use Rattle.spec_syntax.specs.Reading.{read, Answers};
ghost use Rattle.spec_flac.specs.Faults.{short};
ghost use Rattle.spec_flac.specs.Header as table;

use crate::codes::{Codes, Kinds, codes_from, kinds_from, number_from};
use crate::number::coded_number_from;
use crate::shape::numbers_from;
use flac_bits::Reader;
use flac_checksums::crc8;
use spec_flac::{FlacFault, FlacShape};

#[derive(Clone, Copy)]
struct Front {
    codes: Codes,
    kinds: Kinds,
}

#[tactic(auto, using(spec_syntax::proofs::Reading::bind_ok, spec_syntax::proofs::Reading::bind_err), unfolding(spec_flac::specs::Header::front))]
fn front_from(reader: &mut Reader<'_>) -> Result<Front, FlacFault>
    ensures gives { Answers (λ f. (record { codes = record { block_size = f.codes.block_size; sample_rate = f.codes.sample_rate }; kinds = record { channels = f.kinds.channels; bit_depth = f.kinds.depth } }, reader.new)) result (read short table.front reader.old) }
    ensures block_low { IfOk result (λ f. 1 ≤ f.codes.block_size) }
    ensures block_high { IfOk result (λ f. f.codes.block_size < 16) }
    ensures rate { IfOk result (λ f. f.codes.sample_rate < 15) }
    ensures channels { IfOk result (λ f. f.kinds.channels ≤ 10) }
    ensures depth { IfOk result (λ f. f.kinds.depth < 8) }
    ensures whole { OnOk result (reader.new.place % 8 ≡ reader.old.place % 8) }
{
    let codes = match codes_from(reader) {
        Ok(codes) => codes,
        Err(fault) => return Err(fault),
    };
    let kinds = match kinds_from(reader) {
        Ok(kinds) => kinds,
        Err(fault) => return Err(fault),
    };
    match coded_number_from(reader) {
        Ok(()) => Ok(Front { codes, kinds }),
        Err(fault) => Err(fault),
    }
}

#[tactic(auto, unfolding(spec_flac::specs::Header::header_crc))]
fn crc_from(reader: &mut Reader<'_>) -> Result<(), FlacFault>
    requires { reader.old.place % 8 ≡ 0 }
    ensures gives { Answers (λ _. (tt, reader.new)) result (read short table.header_crc reader.old) }
    ensures whole { OnOk result (reader.new.place % 8 ≡ 0) }
{
    let known = crc8(reader.before());
    let found = match number_from(reader, 8) {
        Ok(found) => found,
        Err(fault) => return Err(fault),
    };
    if found != u32::from(known) {
        return Err(FlacFault::Crc8);
    }
    Ok(())
}

/// The header of a frame of the shape, and the code of its channels.
#[tactic(auto, using(spec_syntax::proofs::Reading::bind_ok, spec_syntax::proofs::Reading::bind_err), unfolding(spec_flac::specs::Header::header))]
pub fn header_from(reader: &mut Reader<'_>, shape: FlacShape) -> Result<u32, FlacFault>
    requires { reader.old.place % 8 ≡ 0 }
    ensures gives { Answers (λ c. (c, reader.new)) result (read short (table.header shape) reader.old) }
    ensures channels { IfOk result (λ c. c ≤ 10) }
{
    let front = match front_from(reader) {
        Ok(front) => front,
        Err(fault) => return Err(fault),
    };
    match numbers_from(reader, shape, front.codes, front.kinds) {
        Ok(()) => (),
        Err(fault) => return Err(fault),
    }
    match crc_from(reader) {
        Ok(()) => Ok(front.kinds.channels),
        Err(fault) => Err(fault),
    }
}
