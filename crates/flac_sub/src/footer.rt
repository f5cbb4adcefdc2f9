//! The end of a frame.
ghost use Rattle.std.specs.Prelude.{◌≡◌, ℕ, ◌+◌, ◌-◌, ◌*◌, ◌%◌, ◌^◌, ◌<◌, ◌≤◌, length, OnOk, IfErr, []};
ghost use Rattle.spec_bits.specs.Cursor.{bits_before, bits_left};
ghost use Rattle.spec_syntax.specs.Reading.{read, Answers};
ghost use Rattle.spec_flac.specs.Faults.{short};
ghost use Rattle.spec_flac.specs.Frame as table;
ghost use Rattle.spec_flac.specs.declared.fault.FlacFault.TheVariants as fault;

use flac_bits::Reader;
use flac_checksums::crc16;
use spec_flac::FlacFault;

#[tactic(auto, unfolding(spec_flac::specs::Frame::padding))]
fn padding_from(reader: &mut Reader<'_>) -> Result<(), FlacFault>
    ensures gives { Answers (λ _. (tt, reader.new)) result (read short table.padding reader.old) }
    ensures whole { OnOk result (reader.new.place % 8 ≡ 0) }
{
    let bits = match reader.take(reader.missing()) {
        Ok(bits) => bits,
        Err(fault) => return Err(fault),
    };
    if bits != 0 {
        return Err(FlacFault::Padding);
    }
    Ok(())
}

#[tactic(auto, unfolding(spec_flac::specs::Frame::footer))]
fn footer_from(reader: &mut Reader<'_>) -> Result<(), FlacFault>
    requires { reader.old.place % 8 ≡ 0 }
    ensures gives { Answers (λ _. (tt, reader.new)) result (read short table.footer reader.old) }
{
    let known = crc16(reader.before());
    let found = match reader.take(16) {
        Ok(found) => found,
        Err(fault) => return Err(fault),
    };
    if found != u64::from(known) {
        return Err(FlacFault::Crc16);
    }
    Ok(())
}

/// Padding and checksum.
#[tactic(auto, unfolding(spec_flac::specs::Frame::frame_end))]
pub fn end_from(reader: &mut Reader<'_>) -> Result<(), FlacFault>
    ensures gives { Answers (λ _. (tt, reader.new)) result (read short table.frame_end reader.old) }
{
    match padding_from(reader) {
        Ok(()) => footer_from(reader),
        Err(fault) => Err(fault),
    }
}

/// Whether nothing is left.
pub fn tail(reader: &Reader<'_>) -> Result<(), FlacFault>
    ensures none { OnOk result (bits_left reader.now ≡ []) }
    ensures some { IfErr result (λ f. (f ≡ fault.Tail) × (0 < length (bits_left reader.now))) }
{
    if reader.is_at_end() {
        Ok(())
    } else {
        Err(FlacFault::Tail)
    }
}
