//! Gains and the last rounding of values in units of 1/2^28.

ghost use Rattle.std.specs.Prelude.{◌≡◌, ◌-◌, ◌^◌, ◌<◌, ◌≤◌, pos, ◌*ℤ◌, ◌-ℤ◌, ◌<ℤ◌, ◌≤ℤ◌, neg_ℤ, unsigned_abs};
ghost use Rattle.spec_demix.specs.Floor.{floor_of};
ghost use Rattle.spec_demix.specs.Rounding.{clipped, rounded};

/// The gain of 0 dB.
const ONE: u64 = 1_000_000_000_000;

/// The value times a gain over 10^12, rounded down.
///
/// The value must be below 2^78 in absolute value, and the gain at most that of 32 dB, 39810717055340.
pub fn apply_gain(value: i128, gain: u64) -> i128
    requires value { unsigned_abs value < 2 ^ 78 }
    requires gain { gain ≤ 39810717055340 }
    ensures { result ≡ floor_of (value *ℤ pos gain) 1000000000000 }
{
    if gain == ONE {
        value
    } else {
        (value * gain as i128).div_euclid(ONE as i128)
    }
}

/// How many samples of a depth are not negative.
#[inline]
fn half_range(depth: u8) -> u64
    requires some { 1 ≤ depth }
    requires most { depth ≤ 32 }
    ensures value { result ≡ 2 ^ (depth - 1) }
    ensures small { 2 ^ (depth - 1) ≤ 2 ^ 31 }
    ensures some { 1 ≤ 2 ^ (depth - 1) }
{
    1 << (depth - 1)
}

/// The sample that values beyond the samples are held to: the lowest, where what they lie above the lowest that is rounded to
/// a sample is negative, and the highest. Loud sound is rare, so this stands apart from the way of the others.
#[cold]
#[inline(never)]
fn end_of(above: i128, half: u64) -> i32
    requires some { 1 ≤ half }
    requires small { half ≤ 2 ^ 31 }
    ensures low { above <ℤ pos 0 → result ≡ neg_ℤ (pos half) }
    ensures high { pos 0 ≤ℤ above → result ≡ pos half -ℤ pos 1 }
{
    if above < 0 {
        -(half as i64) as i32
    } else {
        (half as i64 - 1) as i32
    }
}

/// The whole number nearest to a value in units of 1/2^28, halves upwards, held to the samples of a depth: from -2^(depth-1)
/// to 2^(depth-1) - 1.
///
/// The value must be below 2^126 in absolute value, and the depth from 1 to 32.
#[inline]
pub fn round_clip(value: i128, depth: u8) -> i32
    requires value { unsigned_abs value < 2 ^ 126 }
    requires some { 1 ≤ depth }
    requires most { depth ≤ 32 }
    ensures { result ≡ clipped depth (rounded value) }
{
    let half = half_range(depth);
    // how far the value lies above the lowest that is rounded to a sample: both bounds are one test in machine code
    let above = value + i128::from(0x800_0000 + half * 0x1000_0000);
    if 0 <= above && above < i128::from(half * 0x2000_0000) {
        ((above as u64 / 0x1000_0000) as i64 - half as i64) as i32
    } else {
        end_of(above, half)
    }
}
