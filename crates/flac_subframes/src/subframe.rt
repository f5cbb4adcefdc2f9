//! Whole subframes.
ghost use Rattle.std.specs.Prelude.{◌≡◌, ℕ, ◌+◌, ◌-◌, ◌^◌, ◌<◌, ◌≤◌, length, OnOk};
ghost use Rattle.spec_syntax.specs.Reading.{read, Answers};
ghost use Rattle.spec_flac.specs.Faults.{short};
ghost use Rattle.spec_flac.specs.Subframe.{subframe, half_of};
ghost use Rattle.flac_subframes.specs.Rows.{AreWithin};

use crate::content::content_from;
use crate::kind::{kind_from, wasted_from};
use crate::scale::scale;
use flac_bits::Reader;
use spec_flac::FlacFault;

/// The samples of a subframe.
pub fn subframe_from(reader: &mut Reader<'_>, depth: u32, row: &mut [i64]) -> Result<(), FlacFault>
    requires low { 1 ≤ depth }
    requires high { depth ≤ 33 }
    ensures gives { Answers (λ _. (row.new, reader.new)) result (read short (subframe depth (length row.old)) reader.old) }
    ensures small { OnOk result (AreWithin (half_of depth) row.new) }
{
    let kind = match kind_from(reader, row.len()) {
        Ok(kind) => kind,
        Err(fault) => return Err(fault),
    };
    let wasted = match wasted_from(reader, depth) {
        Ok(wasted) => wasted,
        Err(fault) => return Err(fault),
    };
    match content_from(reader, kind, depth - wasted, row) {
        Ok(()) => {
            scale(row, depth, wasted);
            Ok(())
        }
        Err(fault) => Err(fault),
    }
}
