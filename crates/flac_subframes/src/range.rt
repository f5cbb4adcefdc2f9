//! The numbers that samples of a depth may be.
ghost use Rattle.std.specs.Prelude.{◌≡◌, ◌^◌, ◌≤◌, pos, ◌≤ℤ◌, unsigned_abs};
ghost use Rattle.spec_flac.specs.Residual.{is_sample};
ghost use Rattle.spec_flac.specs.Subframe.{half_of};

/// Half of the numbers of so many bits.
#[inline]
pub fn half(depth: u32) -> i64
    requires low { 1 ≤ depth }
    requires high { depth ≤ 33 }
    ensures is { result ≡ half_of depth }
    ensures positive { pos 0 ≤ℤ result }
    ensures small { unsigned_abs result ≤ 2 ^ 32 }
{
    (1u64 << (depth - 1)) as i64
}

/// Whether the number is a sample, where half of them are below zero: one comparison, since half more than the number
/// is below twice the half, and what is below zero wraps above it.
#[inline(always)]
pub fn fits(half: i64, z: i64) -> bool
    requires positive { pos 0 ≤ℤ half }
    requires small { unsigned_abs half ≤ 2 ^ 32 }
    ensures { result ≡ is_sample half z }
{
    z.cast_unsigned().wrapping_add(half as u64) < 2 * (half as u64)
}
