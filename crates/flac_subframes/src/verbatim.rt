//! Samples as they are.
ghost use Rattle.std.specs.Prelude.{◌≡◌, ℕ, ◌*◌, ◌^◌, ◌<◌, ◌≤◌, pos, length, take, slice_index_or, unsigned_abs, OnOk};
ghost use Rattle.spec_syntax.specs.Reading.{read, Answers};
ghost use Rattle.spec_flac.specs.Faults.{short};
ghost use Rattle.spec_flac.specs.Subframe.{verbatim};
ghost use Rattle.flac_subframes.specs.Rows.{AreBelow};

use flac_bits::Reader;
use spec_flac::FlacFault;

/// So many numbers in two's complement, into the front of a row.
pub fn verbatim_from(
    reader: &mut Reader<'_>,
    depth: u32,
    row: &mut [i64],
    to: usize,
) -> Result<(), FlacFault>
    requires depth { depth < 57 }
    requires row { to ≤ length row.old }
    ensures gives { Answers (λ _. (take to row.new, reader.new)) result (read short (verbatim depth to) reader.old) }
    ensures small { OnOk result (AreBelow depth (take to row.new)) }
{
    for n in 0..to {
        match reader.take_signed(depth) {
            Ok(value) => row[n] = value,
            Err(fault) => return Err(fault),
        }
    }
    Ok(())
}
