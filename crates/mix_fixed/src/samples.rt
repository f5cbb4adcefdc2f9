//! Coded samples in units of 1/2^28.

ghost use Rattle.std.specs.Prelude.{◌≡◌, ◌*◌, ◌^◌, ◌<◌, ◌≤◌, pos, ◌*ℤ◌, unsigned_abs, length};
ghost use Rattle.spec_demix.specs.FixedWalk.{units_of};
ghost use Rattle.spec_demix.specs.Sent.{sample_of};
ghost use Rattle.spec_demix.specs.Sizes.{AreSamples};
ghost use Rattle.mix_fixed.specs.Within.{AtMost};
ghost use Rattle.demix_channels.specs.Room.{IsSentWithin};

use spec_demix::Sent;

/// What a sample is multiplied by where no output gain acts on it.
const ONE: u64 = 1_000_000_000_000;

/// The units of a number of parts of 10^12: 2^28 / 10^12 is 2^16 / 5^12.
#[inline]
fn short_units(parts: i64) -> i128
    ensures { result ≡ units_of parts }
{
    let whole = parts.div_euclid(1_000_000_000_000);
    let rest = parts.rem_euclid(1_000_000_000_000);
    i128::from(whole * 0x1000_0000 + (rest * 0x1_0000).div_euclid(244_140_625))
}

/// The same of a number that may have more than 64 bits.
fn units(parts: i128) -> i128
    requires { unsigned_abs parts < 2 ^ 78 }
    ensures { result ≡ units_of parts }
{
    match i64::try_from(parts) {
        Ok(parts) => short_units(parts),
        Err(_) => (parts * 0x1000_0000).div_euclid(1_000_000_000_000),
    }
}

/// A coded sample times a factor, in parts of 10^12.
#[inline]
fn parts(y: i64, factor: u64) -> i128
    requires y { unsigned_abs y ≤ 2 ^ 31 }
    requires factor { factor ≤ 39810717055340 }
    ensures value { result ≡ y *ℤ pos factor }
    ensures small { unsigned_abs result < 2 ^ 78 }
{
    i128::from(y) * i128::from(factor)
}

/// A coded sample times a factor in parts of 10^12, in units.
#[inline]
fn scaled(y: i64, factor: u64) -> i128
    requires y { unsigned_abs y ≤ 2 ^ 31 }
    requires factor { factor ≤ 39810717055340 }
    ensures { result ≡ units_of (y *ℤ pos factor) }
{
    if factor == ONE {
        i128::from(y * 0x1000_0000)
    } else {
        units(parts(y, factor))
    }
}

/// A channel that a layer transmits; 0 where it does not.
#[inline]
#[tactic(auto, using(crate::proofs::SampleSizes::sample_most))]
pub(crate) fn sample(sent: Sent, coded: &[i64]) -> i128
    requires within { IsSentWithin (length coded.now) sent }
    requires samples { AreSamples coded.now }
    ensures most { AtMost (2 ^ 58) 100 result }
    ensures value { result ≡ units_of (sample_of coded.now sent) }
{
    if sent.factor == 0 {
        0
    } else {
        scaled(coded[sent.place], sent.factor)
    }
}
