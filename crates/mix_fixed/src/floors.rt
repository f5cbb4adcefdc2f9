//! Floors of fractions: in 64 bits where the numbers fit them, and in 128.

ghost use Rattle.std.specs.Prelude.{◌≡◌, ◌^◌, ◌<◌, ◌≤◌, ◌*◌, ◌+◌, pos, ◌+ℤ◌, ◌*ℤ◌, IsTrue, unsigned_abs};
ghost use Rattle.spec_demix.specs.Floor.{floor_of};
ghost use Rattle.mix_fixed.specs.Quiet.{hundredth};
ghost use Rattle.mix_fixed.specs.Ratios.{IsRatio};

use crate::pairs::Pair;

/// The floor of a fraction.
#[inline]
pub(crate) fn floor(top: i128, bottom: u32) -> i128
    requires top { unsigned_abs top < 2 ^ 100 }
    requires bottom { 0 < bottom }
    ensures { result ≡ floor_of top bottom }
{
    match i64::try_from(top) {
        Ok(top) => i128::from(top.div_euclid(i64::from(bottom))),
        Err(_) => top.div_euclid(i128::from(bottom)),
    }
}

/// A number as some whole bottoms and a rest of less than two.
#[inline(always)]
fn split(x: i64, bottom: u32) -> (i64, u32)
    requires least { 707 ≤ bottom }
    requires most { bottom ≤ 1000 }
    requires small { unsigned_abs x < 2 ^ 63 }
    ensures whole { result.0 *ℤ pos bottom +ℤ pos result.1 ≡ x }
    ensures rest { result.1 ≤ 2000 }
    ensures small { unsigned_abs result.0 * 707 ≤ unsigned_abs x + 2000 }
{
    let bottom = i64::from(bottom);
    (x / bottom - 1, (x % bottom + bottom) as u32)
}

/// The floor of a number times a fraction, by its quotient and the rest.
#[inline(always)]
fn over_parts(times: u32, x: i64, bottom: u32) -> i64
    requires times { times ≤ 1000 }
    requires least { 707 ≤ bottom }
    requires most { bottom ≤ 1000 }
    requires small { unsigned_abs x ≤ 840 * hundredth }
    ensures { result ≡ floor_of (pos times *ℤ x) bottom }
{
    let (whole, rest) = split(x, bottom);
    i64::from(times) * whole + i64::from(times * rest / bottom)
}

/// The same bottom, of which the compiler now sees that it is not 0. A division that might trap is always done: without this, what
/// no channel of the target needs would be computed with the rest.
#[inline(always)]
fn never_zero(bottom: u32) -> u32
    requires { 0 < bottom }
    ensures { result ≡ bottom }
{
    bottom.max(1)
}

/// The floor of a number times a fraction. Such large numbers are rare, so this stands apart from the way of the others.
#[cold]
#[inline(never)]
fn over_far(times: u32, x: i64, bottom: u32) -> i64
    requires times { times ≤ 1000 }
    requires least { 707 ≤ bottom }
    requires most { bottom ≤ 1000 }
    requires small { unsigned_abs x ≤ 840 * hundredth }
    ensures { result ≡ floor_of (pos times *ℤ x) bottom }
{
    over_parts(times, x, never_zero(bottom))
}

/// What a number has above its low 64 bits.
#[inline(always)]
pub(crate) fn high_word(x: i128) -> i128
    ensures { result ≡ floor_of x (2 ^ 64) }
{
    x >> 64
}

/// Whether a number may be multiplied by a ratio.
#[inline(always)]
fn is_near(x: i64) -> bool
    ensures { IsTrue result → unsigned_abs x ≤ 2 ^ 53 }
{
    -0x20_0000_0000_0000 <= x && x < 0x20_0000_0000_0000
}

#[inline(always)]
fn are_near(x: Pair) -> bool
    ensures left { IsTrue result → unsigned_abs x.left ≤ 2 ^ 53 }
    ensures right { IsTrue result → unsigned_abs x.right ≤ 2 ^ 53 }
{
    is_near(x.left) && is_near(x.right)
}

/// The floor of a number times a fraction, by its ratio: 2^53 makes up for the ratio's rounding.
#[inline(always)]
fn by_ratio(x: i64, ratio: i64) -> i64
    requires { unsigned_abs x ≤ 2 ^ 53 }
    ensures { result ≡ x +ℤ floor_of (x *ℤ ratio +ℤ pos (2 ^ 53)) (2 ^ 64) }
{
    x + high_word(i128::from(x) * i128::from(ratio) + 0x20_0000_0000_0000) as i64
}

/// The floor of a number times a fraction.
#[inline(always)]
pub(crate) fn over(times: u32, x: i64, bottom: u32, ratio: i64) -> i64
    requires times { times ≤ 1000 }
    requires least { 707 ≤ bottom }
    requires most { bottom ≤ 1000 }
    requires ratio { IsRatio times bottom ratio }
    requires small { unsigned_abs x ≤ 840 * hundredth }
    ensures { result ≡ floor_of (pos times *ℤ x) bottom }
{
    if is_near(x) {
        by_ratio(x, ratio)
    } else {
        over_far(times, x, bottom)
    }
}

/// The floors of both sides' numbers in thousandths over a bottom.
#[inline(always)]
pub(crate) fn over_both(x: Pair, bottom: u32, ratio: i64) -> Pair
    requires least { 707 ≤ bottom }
    requires most { bottom ≤ 1000 }
    requires ratio { IsRatio 1000 bottom ratio }
    requires small_left { unsigned_abs x.left ≤ 840 * hundredth }
    requires small_right { unsigned_abs x.right ≤ 840 * hundredth }
    ensures left { result.left ≡ floor_of (pos 1000 *ℤ x.left) bottom }
    ensures right { result.right ≡ floor_of (pos 1000 *ℤ x.right) bottom }
{
    if are_near(x) {
        Pair {
            left: by_ratio(x.left, ratio),
            right: by_ratio(x.right, ratio),
        }
    } else {
        Pair {
            left: over_far(1000, x.left, bottom),
            right: over_far(1000, x.right, bottom),
        }
    }
}
