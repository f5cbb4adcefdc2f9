//! Subframes whose samples are predicted.
ghost use Rattle.std.specs.Prelude.{◌≡◌, ℕ, ◌-◌, ◌^◌, ◌<◌, ◌≤◌, length, take, unsigned_abs, OnOk};
ghost use Rattle.spec_syntax.specs.Reading.{read, Answers};
ghost use Rattle.spec_flac.specs.Faults.{short};
ghost use Rattle.spec_flac.specs.Subframe.{half_of, verbatim, predicted};
ghost use Rattle.flac_subframes.specs.Rows.{AreWithin};

use crate::partition::residual_from;
use crate::predictor::Predictor;
use crate::range::half;
use crate::verbatim::verbatim_from;
use flac_bits::Reader;
use spec_flac::FlacFault;

/// So many numbers in two's complement, into the front of a row.
pub fn warm_up(
    reader: &mut Reader<'_>,
    depth: u32,
    row: &mut [i64],
    order: usize,
) -> Result<(), FlacFault>
    requires low { 1 ≤ depth }
    requires high { depth ≤ 33 }
    requires row { order ≤ length row.old }
    ensures gives { Answers (λ _. (take order row.new, reader.new)) result (read short (verbatim depth order) reader.old) }
    ensures small { OnOk result (AreWithin (half_of depth) (take order row.new)) }
{
    verbatim_from(reader, depth, row, order)
}

/// Warm-up samples, and the others by their predictions.
pub fn predicted_from<P: Predictor>(
    reader: &mut Reader<'_>,
    predictor: &P,
    order: usize,
    depth: u32,
    row: &mut [i64],
) -> Result<(), FlacFault>
    requires low { 1 ≤ depth }
    requires high { depth ≤ 33 }
    requires order { P.order predictor.now ≤ order }
    requires row { order ≤ length row.old }
    ensures gives { Answers (λ _. (row.new, reader.new)) result (read short (predicted order (P.next predictor.now) depth (length row.old)) reader.old) }
    ensures small { OnOk result (AreWithin (half_of depth) row.new) }
{
    match warm_up(reader, depth, row, order) {
        Ok(()) => residual_from(reader, predictor, half(depth), row, order),
        Err(fault) => Err(fault),
    }
}
