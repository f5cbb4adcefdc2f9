//! Subframes of one value.
ghost use Rattle.std.specs.Prelude.{◌≡◌, ℕ, ◌^◌, ◌<◌, ◌≤◌, length, unsigned_abs, OnOk};
ghost use Rattle.spec_syntax.specs.Reading.{read, Answers};
ghost use Rattle.spec_flac.specs.Faults.{short};
ghost use Rattle.spec_flac.specs.Subframe.{constant, copies, half_of};
ghost use Rattle.flac_subframes.specs.Rows.{AreWithin};

use flac_bits::Reader;
use spec_flac::FlacFault;

/// Writes the value into each place.
fn fill(row: &mut [i64], value: i64)
    ensures { row.new ≡ copies (length row.old) value }
{
    for n in 0..row.len() {
        row[n] = value;
    }
}

/// The samples of a constant subframe.
#[tactic(auto, unfolding(spec_flac::specs::Subframe::constant))]
pub fn constant_from(reader: &mut Reader<'_>, depth: u32, row: &mut [i64]) -> Result<(), FlacFault>
    requires low { 1 ≤ depth }
    requires high { depth ≤ 33 }
    ensures gives { Answers (λ _. (row.new, reader.new)) result (read short (constant depth (length row.old)) reader.old) }
    ensures small { OnOk result (AreWithin (half_of depth) row.new) }
{
    match reader.take_signed(depth) {
        Ok(value) => {
            fill(row, value);
            Ok(())
        }
        Err(fault) => Err(fault),
    }
}
