//! Samples from residuals.
ghost use Rattle.std.specs.Prelude.{◌≡◌, ℕ, ◌+◌, ◌-◌, ◌*◌, ◌^◌, ◌<◌, ◌≤◌, ℤ, pos, ◌+ℤ◌, ◌≤ℤ◌, length, take, unsigned_abs, OnOk, IfOk, IfSome};
ghost use Rattle.spec_syntax.specs.Reading.{read, Answers};
ghost use Rattle.spec_flac.specs.Faults.{short};
ghost use Rattle.spec_flac.specs.Residual.{sample, samples, coded_residual};
ghost use Rattle.flac_subframes.specs.Rows.{AreWithin, GoesOn, sample_or};

use crate::code::{Code, Rice};
use crate::predictor::Predictor;
use crate::range::fits;
use flac_bits::Reader;
use spec_flac::FlacFault;

/// The sum of a prediction and a residual, where it is a sample.
#[inline(always)]
fn summed(prediction: i64, value: i64, half: i64) -> Option<i64>
    requires prediction { unsigned_abs prediction < 2 ^ 60 }
    requires value { unsigned_abs value < 2 ^ 31 }
    requires positive { pos 0 ≤ℤ half }
    requires half { unsigned_abs half ≤ 2 ^ 32 }
    ensures is { result ≡ sample_or half (prediction +ℤ value) }
    ensures small { IfSome result (λ z. unsigned_abs z ≤ unsigned_abs half) }
{
    let z = prediction + value;
    if fits(half, z) { Some(z) } else { None }
}

// The next sample, whose prediction this is.
#[inline(always)]
fn sample_from<C: Code>(
    code: &C,
    reader: &mut Reader<'_>,
    prediction: i64,
    half: i64,
) -> Result<i64, FlacFault>
    requires prediction { unsigned_abs prediction < 2 ^ 60 }
    requires positive { pos 0 ≤ℤ half }
    requires half { unsigned_abs half ≤ 2 ^ 32 }
    ensures gives { Answers (λ z. (z, reader.new)) result (read short (sample half (C.residual code.now) prediction) reader.old) }
    ensures small { IfOk result (λ z. unsigned_abs z ≤ unsigned_abs half) }
{
    let residual = match code.residual_from(reader) {
        Ok(residual) => residual,
        Err(fault) => return Err(fault),
    };
    match summed(prediction, residual, half) {
        Some(value) => Ok(value),
        None => Err(FlacFault::Range),
    }
}

// Samples from the place `from` of the row to the first whose residual has no short code or may have no whole word ahead,
// or to the one before `to`; the place after them. Kept out of its callers, so that its loop has all registers.
#[inline(never)]
fn near_samples<P: Predictor>(
    reader: &mut Reader<'_>,
    parameter: u32,
    predictor: &P,
    half: i64,
    row: &mut [i64],
    from: usize,
    to: usize,
) -> Result<usize, FlacFault>
    requires parameter { parameter ≤ 24 }
    requires positive { pos 0 ≤ℤ half }
    requires half { unsigned_abs half ≤ 2 ^ 32 }
    requires order { P.order predictor.now ≤ from }
    requires range { from ≤ to }
    requires row { to ≤ length row.old }
    requires small { AreWithin half (take from row.old) }
    ensures goes_on { GoesOn result (λ n. read short (samples half (coded_residual parameter) (P.next predictor.now) (to - n) (take n row.new)) reader.new) (read short (samples half (coded_residual parameter) (P.next predictor.now) (to - from) (take from row.old)) reader.old) }
    ensures onward { IfOk result (λ n. from ≤ n) }
    ensures within { IfOk result (λ n. n ≤ to) }
    ensures small { IfOk result (λ n. AreWithin half (take n row.new)) }
{
    let mut near = match reader.near() {
        Some(near) => near,
        None => return Ok(from),
    };
    let end = from + near.codes_ahead().min(to - from);
    let mut n = from;
    while n < end {
        let prediction = predictor.predict(&row[..n]);
        let residual = match near.take_residual(parameter) {
            Some(residual) => residual,
            None => break,
        };
        match summed(prediction, residual, half) {
            Some(value) => row[n] = value,
            None => return Err(FlacFault::Range),
        }
        n += 1;
    }
    *reader = near.reader();
    Ok(n)
}

/// The same as `samples_from` with Rice codes of at most 24 low bits.
pub fn rice_samples_from<P: Predictor>(
    reader: &mut Reader<'_>,
    parameter: u32,
    predictor: &P,
    half: i64,
    row: &mut [i64],
    from: usize,
    to: usize,
) -> Result<(), FlacFault>
    requires parameter { parameter ≤ 24 }
    requires positive { pos 0 ≤ℤ half }
    requires half { unsigned_abs half ≤ 2 ^ 32 }
    requires order { P.order predictor.now ≤ from }
    requires range { from ≤ to }
    requires row { to ≤ length row.old }
    requires small { AreWithin half (take from row.old) }
    ensures gives { Answers (λ _. (take to row.new, reader.new)) result (read short (samples half (coded_residual parameter) (P.next predictor.now) (to - from) (take from row.old)) reader.old) }
    ensures small { OnOk result (AreWithin half (take to row.new)) }
{
    let mut n = from;
    while n < to {
        let next = match near_samples(reader, parameter, predictor, half, row, n, to) {
            Ok(next) => next,
            Err(fault) => return Err(fault),
        };
        if next > n {
            n = next;
        } else {
            let prediction = predictor.predict(&row[..n]);
            match sample_from(&Rice { parameter }, reader, prediction, half) {
                Ok(value) => row[n] = value,
                Err(fault) => return Err(fault),
            }
            n += 1;
        }
    }
    Ok(())
}

/// Samples from the place `from` of the row to the one before `to`.
pub fn samples_from<C: Code, P: Predictor>(
    reader: &mut Reader<'_>,
    code: &C,
    predictor: &P,
    half: i64,
    row: &mut [i64],
    from: usize,
    to: usize,
) -> Result<(), FlacFault>
    requires positive { pos 0 ≤ℤ half }
    requires half { unsigned_abs half ≤ 2 ^ 32 }
    requires order { P.order predictor.now ≤ from }
    requires range { from ≤ to }
    requires row { to ≤ length row.old }
    requires small { AreWithin half (take from row.old) }
    ensures gives { Answers (λ _. (take to row.new, reader.new)) result (read short (samples half (C.residual code.now) (P.next predictor.now) (to - from) (take from row.old)) reader.old) }
    ensures small { OnOk result (AreWithin half (take to row.new)) }
{
    // A copy that stays in registers over the loop.
    let mut ahead = reader.fork();
    for n in from..to {
        let prediction = predictor.predict(&row[..n]);
        match sample_from(code, &mut ahead, prediction, half) {
            Ok(value) => row[n] = value,
            Err(fault) => return Err(fault),
        }
    }
    *reader = ahead;
    Ok(())
}
