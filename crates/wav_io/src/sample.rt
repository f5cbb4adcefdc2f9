//! The bytes of a sample.

ghost use Rattle.std.specs.Prelude.{◌≡◌, ◌+◌, ◌/◌, ◌≤◌, ◌++◌, IsTrue, length, take, drop};
ghost use Rattle.spec_bits.specs.Bits.{FitsSigned};
ghost use Rattle.spec_samples.specs.Lpcm.{is_depth};
ghost use Rattle.spec_waves.specs.Wave.{sample_bytes};

/// Puts a sample of `depth` bits, which is 16, 24 or 32, at a place: two's complement, the least significant byte
/// first. All other bytes stay as they are.
#[inline]
pub fn put_sample(into: &mut [u8], at: usize, value: i32, depth: u8)
    requires depth { IsTrue (is_depth depth) }
    requires fits { FitsSigned depth value }
    requires room { at + depth / 8 ≤ length into.old }
    ensures { into.new ≡ take at into.old ++ (sample_bytes depth value ++ drop (at + depth / 8) into.old) }
{
    // The lowest bytes of 32 bits in two's complement are those of fewer bits.
    let size = usize::from(depth / 8);
    into[at..at + size].copy_from_slice(&value.to_le_bytes()[..size]);
}
