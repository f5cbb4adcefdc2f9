//! Linear prediction.
ghost use Rattle.std.specs.Prelude.{◌≡◌, ℕ, ◌+◌, ◌-◌, ◌*◌, ◌^◌, ◌<◌, ◌≤◌, ℤ, pos, ◌+ℤ◌, ◌*ℤ◌, length, slice_index_or, unsigned_abs, OnOk, IfOk, take};
ghost use Rattle.std.specs.Int.{int_div_euclid};
ghost use Rattle.spec_syntax.specs.Reading.{read, Answers};
ghost use Rattle.spec_flac.specs.Faults.{short};
ghost use Rattle.spec_flac.specs.Subframe.{back, summed, linear_prediction, linear, weights, weighted, half_of};
ghost use Rattle.flac_subframes.specs.Rows.{AreWithin};

use crate::partition::residual_from;
use crate::predicted::warm_up;
use crate::predictor::Predictor;
use crate::range::half;
use crate::verbatim::verbatim_from;
use flac_bits::Reader;
use spec_flac::FlacFault;

#[inline(always)]
fn more(sum: i64, coefficient: i64, z: i64) -> i64
    requires sum { unsigned_abs sum ≤ 2 ^ 52 }
    requires coefficient { unsigned_abs coefficient ≤ 2 ^ 14 }
    requires z { unsigned_abs z ≤ 2 ^ 32 }
    ensures { result ≡ sum +ℤ (coefficient *ℤ z) }
{
    sum + coefficient * z
}

#[inline(always)]
fn shifted(sum: i64, shift: u32) -> i64
    requires { shift < 32 }
    ensures { result ≡ int_div_euclid sum (pos (2 ^ shift)) }
{
    sum >> shift
}

/// So many coefficients, the first for the newest sample.
#[derive(Drop)]
struct Linear<const N: usize> {
    coefficients: [i64; N],
    shift: u32,
    ghost few: { N ≤ 32 },
    ghost near: { shift < 32 },
    ghost small: { (i : ℕ) → unsigned_abs (slice_index_or coefficients i (pos 0)) ≤ 2 ^ 14 },
}

impl<const N: usize> Predictor for Linear<N> {
    ghost order = { λ _. N };

    ghost next = { λ s. linear_prediction s.coefficients s.shift };

    #[inline(always)]
    fn predict(&self, before: &[i64]) -> i64 {
        let n = before.len();
        let mut sum = 0i64;
        for j in 0..N {
            sum = more(sum, self.coefficients[j], before[n - (j + 1)]);
        }
        shifted(sum, self.shift)
    }
}

/// How many bits a coefficient has, and how far the sum is shifted.
#[derive(Clone, Copy)]
struct Weights {
    precision: u32,
    shift: u32,
}

#[tactic(auto, unfolding(spec_flac::specs::Subframe::weights))]
fn weights_from(reader: &mut Reader<'_>) -> Result<Weights, FlacFault>
    ensures gives { Answers (λ w. (record { precision = w.precision; shift = w.shift }, reader.new)) result (read short weights reader.old) }
    ensures low { IfOk result (λ w. 1 ≤ w.precision) }
    ensures high { IfOk result (λ w. w.precision ≤ 15) }
    ensures near { IfOk result (λ w. w.shift < 32) }
{
    let precision = match reader.take(4) {
        Ok(precision) => precision as u32,
        Err(fault) => return Err(fault),
    };
    if precision == 15 {
        return Err(FlacFault::Subframe);
    }
    let shift = match reader.take_signed(5) {
        Ok(shift) => shift,
        Err(fault) => return Err(fault),
    };
    if shift < 0 {
        return Err(FlacFault::Subframe);
    }
    Ok(Weights {
        precision: precision + 1,
        shift: shift as u32,
    })
}

/// Coefficients, and the samples after the warm-up samples.
fn weighted_from<const N: usize>(
    reader: &mut Reader<'_>,
    depth: u32,
    precision: u32,
    shift: u32,
    row: &mut [i64],
) -> Result<(), FlacFault>
    requires low { 1 ≤ depth }
    requires high { depth ≤ 33 }
    requires few { N ≤ 32 }
    requires precision { precision ≤ 15 }
    requires near { shift < 32 }
    requires row { N ≤ length row.old }
    requires small { AreWithin (half_of depth) (take N row.old) }
    ensures gives { Answers (λ _. (row.new, reader.new)) result (read short (weighted N depth (record { precision = precision; shift = shift }) (length row.old) (take N row.old)) reader.old) }
    ensures small { OnOk result (AreWithin (half_of depth) row.new) }
{
    let mut coefficients = [0i64; N];
    match verbatim_from(reader, precision, &mut coefficients, N) {
        Ok(()) => (),
        Err(fault) => return Err(fault),
    }
    let linear = Linear {
        coefficients,
        shift,
    };
    residual_from(reader, &linear, half(depth), row, N)
}

/// The samples of a linear subframe of the order `N`.
pub fn linear_from<const N: usize>(
    reader: &mut Reader<'_>,
    depth: u32,
    row: &mut [i64],
) -> Result<(), FlacFault>
    requires low { 1 ≤ depth }
    requires high { depth ≤ 33 }
    requires few { N ≤ 32 }
    requires row { N ≤ length row.old }
    ensures gives { Answers (λ _. (row.new, reader.new)) result (read short (linear N depth (length row.old)) reader.old) }
    ensures small { OnOk result (AreWithin (half_of depth) row.new) }
{
    match warm_up(reader, depth, row, N) {
        Ok(()) => (),
        Err(fault) => return Err(fault),
    }
    match weights_from(reader) {
        Ok(weights) => weighted_from::<N>(reader, depth, weights.precision, weights.shift, row),
        Err(fault) => Err(fault),
    }
}
