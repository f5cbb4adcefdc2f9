//! From fractions to the fixed point.

ghost use Rattle.std.specs.Prelude.{◌≡◌, ℕ, ◌*◌, ◌^◌, ◌<◌, ◌≤◌, pos, ◌*ℤ◌, ◌<ℤ◌, ◌≤ℤ◌, unsigned_abs};
ghost use Rattle.spec_demix.specs.Floor.{floor_of, unit};

use spec_demix::Fraction;

/// The units of a part of a whole.
fn part_units(rest: i128, bottom: i128) -> i128
    requires low { pos 0 ≤ℤ rest }
    requires high { rest <ℤ bottom }
    requires small { bottom <ℤ pos (2 ^ 80) }
    ensures { result ≡ floor_of (rest *ℤ pos unit) (unsigned_abs bottom) }
{
    (rest * 0x1000_0000).div_euclid(bottom)
}

/// The value in units of 1/2^28, rounded down.
///
/// The bottom must be below 2^80, and the value below 2^39 in absolute value.
pub fn to_units(value: Fraction) -> i128
    requires bottom { value.bottom <ℤ pos (2 ^ 80) }
    requires small { unsigned_abs value.top < 2 ^ 39 * unsigned_abs value.bottom }
    ensures value { result ≡ floor_of (value.top *ℤ pos unit) (unsigned_abs value.bottom) }
    ensures most { (n : ℕ) → unsigned_abs value.top ≤ n * unsigned_abs value.bottom → unsigned_abs result ≤ n * unit }
{
    let whole = value.top.div_euclid(value.bottom);
    let rest = value.top.rem_euclid(value.bottom);
    whole * 0x1000_0000 + part_units(rest, value.bottom)
}
