//! The last gain of a mix, and its bytes in a WAV file.

ghost use Rattle.std.specs.Prelude.{◌≡◌, ℕ, ◌*◌, ◌/◌, ◌^◌, ◌<◌, ◌≤◌, All, IsTrue, pos, unsigned_abs, length, slice_index_or};
ghost use Rattle.std.specs.List.{flat_map};
ghost use Rattle.spec_demix.specs.Rounding.{clipped, rounded};
ghost use Rattle.spec_bits.specs.Bits.{FitsSigned};
ghost use Rattle.spec_samples.specs.Lpcm.{is_depth};
ghost use Rattle.spec_waves.specs.Wave.{sample_bytes};
ghost use Rattle.spec_play.specs.FixedMix.{gained};
ghost use Rattle.iamf_mixing.specs.Bytes.{mixed_bytes};

use crate::sums::ONE;
use mix_fixed::{apply_gain, round_clip};
use wav_io::put_sample;

/// Takes each of the sums times the output gain.
pub fn apply_output(gain: u64, sums: &mut [i128])
    requires gain { gain ≤ 39810717055340 }
    requires sums { All (λ z. unsigned_abs z < 2 ^ 78) sums.old }
    ensures value { (c : ℕ) → c < length sums.old → slice_index_or sums.new c (pos 0) ≡ gained (slice_index_or sums.old c (pos 0)) gain }
    ensures small { All (λ z. unsigned_abs z < 2 ^ 126) sums.new }
{
    if gain == ONE {
        return;
    }
    for c in 0..sums.len() {
        sums[c] = apply_gain(sums[c], gain);
    }
}

/// The sample of a depth nearest to a value in units of 1/2^28.
#[inline(always)]
fn sample_of(value: i128, depth: u8) -> i32
    requires value { unsigned_abs value < 2 ^ 126 }
    requires depth { IsTrue (is_depth depth) }
    ensures value { result ≡ clipped depth (rounded value) }
    ensures fits { FitsSigned depth result }
{
    round_clip(value, depth)
}

/// Writes values as samples of a depth. Where the depth is a literal, the code is made for it.
#[inline(always)]
fn put_each(mixed: &[i128], depth: u8, bytes: &mut [u8])
    requires mixed { All (λ z. unsigned_abs z < 2 ^ 126) mixed.now }
    requires depth { IsTrue (is_depth depth) }
    requires room { length bytes.old ≡ length mixed.now * (depth / 8) }
    ensures { bytes.new ≡ flat_map (mixed_bytes depth) mixed.now }
{
    let size = usize::from(depth / 8);
    for i in 0..mixed.len() {
        put_sample(bytes, i * size, sample_of(mixed[i], depth), depth);
    }
}

/// Writes values in units of 1/2^28 as samples of a depth, which is 16, 24 or 32: each rounded to the nearest whole number,
/// halves upwards, and clipped to the depth. The bytes are as many as the samples have.
pub fn put_samples(mixed: &[i128], depth: u8, bytes: &mut [u8])
    requires mixed { All (λ z. unsigned_abs z < 2 ^ 126) mixed.now }
    requires depth { IsTrue (is_depth depth) }
    requires room { length bytes.old ≡ length mixed.now * (depth / 8) }
    ensures { bytes.new ≡ flat_map (mixed_bytes depth) mixed.now }
{
    match depth {
        16 => put_each(mixed, 16, bytes),
        24 => put_each(mixed, 24, bytes),
        _ => put_each(mixed, 32, bytes),
    }
}
