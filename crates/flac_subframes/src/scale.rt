//! Samples with wasted bits.
ghost use Rattle.std.specs.Prelude.{◌≡◌, ℕ, ◌+◌, ◌-◌, ◌*◌, ◌^◌, ◌<◌, ◌≤◌, ℤ, pos, ◌*ℤ◌, length, unsigned_abs, slice_index_or};
ghost use Rattle.spec_flac.specs.Subframe.{scaled, half_of};
ghost use Rattle.flac_subframes.specs.Rows.{AreWithin};

/// The number times two to the power.
#[inline(always)]
fn times_power(z: i64, wasted: u32) -> i64
    requires few { wasted < 33 }
    requires small { unsigned_abs z * 2 ^ wasted ≤ 2 ^ 32 }
    ensures is { result ≡ z *ℤ pos (2 ^ wasted) }
{
    z * (1i64 << wasted)
}

/// Each sample times two to the power.
pub fn scale(row: &mut [i64], depth: u32, wasted: u32)
    requires low { 1 ≤ depth }
    requires high { depth ≤ 33 }
    requires below { wasted < depth }
    requires small { AreWithin (half_of (depth - wasted)) row.old }
    ensures scaled { row.new ≡ scaled wasted row.old }
    ensures small { AreWithin (half_of depth) row.new }
{
    if wasted == 0 {
        return;
    }
    for n in 0..row.len() {
        row[n] = times_power(row[n], wasted);
    }
}
