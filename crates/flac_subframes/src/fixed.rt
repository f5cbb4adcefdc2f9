//! Fixed predictors.
ghost use Rattle.std.specs.Prelude.{◌≡◌, ℕ, ◌+◌, ◌-◌, ◌*◌, ◌^◌, ◌<◌, ◌≤◌, ℤ, pos, ◌+ℤ◌, ◌-ℤ◌, ◌*ℤ◌, length, slice_index_or, unsigned_abs, OnOk};
ghost use Rattle.spec_syntax.specs.Reading.{read, Answers};
ghost use Rattle.spec_flac.specs.Faults.{short};
ghost use Rattle.spec_flac.specs.Subframe.{fixed, fixed_coefficients, half_of, linear_prediction};
ghost use Rattle.flac_subframes.specs.Rows.{AreWithin};

use crate::predicted::predicted_from;
use crate::predictor::Predictor;
use flac_bits::Reader;
use spec_flac::FlacFault;

#[inline(always)]
fn second_of(a: i64, b: i64) -> i64
    requires a { unsigned_abs a ≤ 2 ^ 32 }
    requires b { unsigned_abs b ≤ 2 ^ 32 }
    ensures is { result ≡ (pos 2 *ℤ a) -ℤ b }
    ensures small { unsigned_abs result < 2 ^ 60 }
{
    2 * a - b
}

#[inline(always)]
fn three_less(a: i64, b: i64) -> i64
    requires a { unsigned_abs a ≤ 2 ^ 32 }
    requires b { unsigned_abs b ≤ 2 ^ 32 }
    ensures is { result ≡ (pos 3 *ℤ a) -ℤ (pos 3 *ℤ b) }
    ensures small { unsigned_abs result < 2 ^ 40 }
{
    3 * a - 3 * b
}

#[inline(always)]
fn four_less(a: i64, b: i64) -> i64
    requires a { unsigned_abs a ≤ 2 ^ 32 }
    requires b { unsigned_abs b ≤ 2 ^ 32 }
    ensures is { result ≡ (pos 4 *ℤ a) -ℤ (pos 6 *ℤ b) }
    ensures small { unsigned_abs result < 2 ^ 40 }
{
    4 * a - 6 * b
}

#[inline(always)]
fn plus(sum: i64, c: i64) -> i64
    requires sum { unsigned_abs sum < 2 ^ 40 }
    requires c { unsigned_abs c ≤ 2 ^ 32 }
    ensures is { result ≡ sum +ℤ c }
    ensures small { unsigned_abs result < 2 ^ 60 }
{
    sum + c
}

#[inline(always)]
fn plus_four(sum: i64, c: i64, d: i64) -> i64
    requires sum { unsigned_abs sum < 2 ^ 40 }
    requires c { unsigned_abs c ≤ 2 ^ 32 }
    requires d { unsigned_abs d ≤ 2 ^ 32 }
    ensures is { result ≡ (sum +ℤ (pos 4 *ℤ c)) -ℤ d }
    ensures small { unsigned_abs result < 2 ^ 60 }
{
    sum + 4 * c - d
}

/// The fixed predictor of order 0.
struct Zero;

/// The fixed predictor of order 1.
struct First;

/// The fixed predictor of order 2.
struct Second;

/// The fixed predictor of order 3.
struct Third;

/// The fixed predictor of order 4.
struct Fourth;

impl Predictor for Zero {
    ghost order = { λ _. 0 };

    ghost next = { λ _. linear_prediction (fixed_coefficients 0) 0 };

    #[inline(always)]
    fn predict(&self, _before: &[i64]) -> i64 {
        0
    }
}

impl Predictor for First {
    ghost order = { λ _. 1 };

    ghost next = { λ _. linear_prediction (fixed_coefficients 1) 0 };

    #[inline(always)]
    fn predict(&self, before: &[i64]) -> i64 {
        before[before.len() - 1]
    }
}

impl Predictor for Second {
    ghost order = { λ _. 2 };

    ghost next = { λ _. linear_prediction (fixed_coefficients 2) 0 };

    #[inline(always)]
    fn predict(&self, before: &[i64]) -> i64 {
        let n = before.len();
        second_of(before[n - 1], before[n - 2])
    }
}

impl Predictor for Third {
    ghost order = { λ _. 3 };

    ghost next = { λ _. linear_prediction (fixed_coefficients 3) 0 };

    #[inline(always)]
    fn predict(&self, before: &[i64]) -> i64 {
        let n = before.len();
        plus(three_less(before[n - 1], before[n - 2]), before[n - 3])
    }
}

impl Predictor for Fourth {
    ghost order = { λ _. 4 };

    ghost next = { λ _. linear_prediction (fixed_coefficients 4) 0 };

    #[inline(always)]
    fn predict(&self, before: &[i64]) -> i64 {
        let n = before.len();
        plus_four(
            four_less(before[n - 1], before[n - 2]),
            before[n - 3],
            before[n - 4],
        )
    }
}

/// The samples of a fixed subframe.
#[tactic(auto, unfolding(spec_flac::specs::Subframe::fixed))]
pub fn fixed_from(
    reader: &mut Reader<'_>,
    order: usize,
    depth: u32,
    row: &mut [i64],
) -> Result<(), FlacFault>
    requires low { 1 ≤ depth }
    requires high { depth ≤ 33 }
    requires order { order ≤ 4 }
    requires row { order ≤ length row.old }
    ensures gives { Answers (λ _. (row.new, reader.new)) result (read short (fixed order depth (length row.old)) reader.old) }
    ensures small { OnOk result (AreWithin (half_of depth) row.new) }
{
    match order {
        0 => predicted_from(reader, &Zero, 0, depth, row),
        1 => predicted_from(reader, &First, 1, depth, row),
        2 => predicted_from(reader, &Second, 2, depth, row),
        3 => predicted_from(reader, &Third, 3, depth, row),
        _ => predicted_from(reader, &Fourth, 4, depth, row),
    }
}
