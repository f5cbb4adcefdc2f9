//! The sum of the elements of a mix at one tick, in units of 1/2^28: each channel times the gain of its element (IAMF 1.0.0,
//! "Mix Presentation OBU Syntax and Semantics").

ghost use Rattle.std.specs.Prelude.{◌≡◌, ℕ, ◌+◌, ◌^◌, ◌<◌, ◌≤◌, All, false, pos, ◌+ℤ◌, unsigned_abs, length, slice_index_or};
ghost use Rattle.spec_gains.specs.Modes.{coefficients_of, IsMode};
ghost use Rattle.spec_demix.specs.Fits.{target_channels};
ghost use Rattle.spec_demix.specs.FixedWalk.{fixed_row};
ghost use Rattle.spec_demix.specs.Sizes.{AreSamples};
ghost use Rattle.mix_fixed.specs.Kernel.{target_of};
ghost use Rattle.spec_play.specs.FixedMix.{gained};
ghost use Rattle.iamf_mixing.specs.Sums.{base};

use crate::output::apply_output;
use demix_channels::DemixParams;
use mix_fixed::{Kernel, apply_gain};

/// The gain of 0 dB, in parts of 10^12.
pub(crate) const ONE: u64 = 1_000_000_000_000;

/// A channel times a gain.
#[inline]
pub(crate) fn gained(channel: i128, gain: u64) -> i128
    requires channel { unsigned_abs channel < 2 ^ 67 }
    requires gain { gain ≤ 39810717055340 }
    ensures value { result ≡ gained channel gain }
    ensures small { unsigned_abs result ≤ 2 ^ 73 }
{
    if gain == ONE {
        channel
    } else {
        apply_gain(channel, gain)
    }
}

/// Adds channels, each times a gain, to the sums in the same places.
fn add_row(channels: &[i128], gain: u64, sums: &mut [i128])
    requires count { length channels.now ≡ length sums.old }
    requires channels { All (λ z. unsigned_abs z < 2 ^ 67) channels.now }
    requires gain { gain ≤ 39810717055340 }
    requires sums { All (λ z. unsigned_abs z < 2 ^ 100) sums.old }
    ensures value { (c : ℕ) → c < length sums.old → slice_index_or sums.new c (pos 0) ≡ slice_index_or sums.old c (pos 0) +ℤ gained (slice_index_or channels.now c (pos 0)) gain }
    ensures growth { (c : ℕ) → c < length sums.old → unsigned_abs (slice_index_or sums.new c (pos 0)) ≤ unsigned_abs (slice_index_or sums.old c (pos 0)) + 2 ^ 73 }
{
    for c in 0..channels.len() {
        sums[c] += gained(channels[c], gain);
    }
}

/// Takes channels, each times a gain, in the same places.
fn apply_gains(gain: u64, channels: &mut [i128])
    requires gain { gain ≤ 39810717055340 }
    requires channels { All (λ z. unsigned_abs z < 2 ^ 67) channels.old }
    ensures value { (c : ℕ) → c < length channels.old → slice_index_or channels.new c (pos 0) ≡ gained (slice_index_or channels.old c (pos 0)) gain }
    ensures small { (c : ℕ) → c < length channels.old → unsigned_abs (slice_index_or channels.new c (pos 0)) ≤ 2 ^ 73 }
{
    apply_output(gain, channels);
}

/// Puts the channels of a target with so many channels, each times a gain, in the places of the sums.
fn put_demixed<const C: usize>(
    kernel: &Kernel,
    params: DemixParams,
    coded: &[i64],
    gain: u64,
    sums: &mut [i128],
)
    requires count { C ≡ length (target_channels kernel.now (target_of kernel.now)) }
    requires all { length sums.old ≡ C }
    requires mode { IsMode params.mode }
    requires weight { params.weight ≤ 5000 }
    requires samples { AreSamples coded.now }
    requires room { C ≤ length coded.now }
    requires gain { gain ≤ 39810717055340 }
    ensures value { (c : ℕ) → c < length sums.old → slice_index_or sums.new c (pos 0) ≡ gained (slice_index_or (fixed_row kernel.now (target_of kernel.now) (coefficients_of params.mode) params.weight coded.now) c (pos 0)) gain }
    ensures small { (c : ℕ) → c < length sums.old → unsigned_abs (slice_index_or sums.new c (pos 0)) ≤ 2 ^ 73 }
{
    match sums.as_mut_array::<C>() {
        Some(channels) => kernel.demix(params, coded, channels),
        None => unreachable!(),
    }
    apply_gains(gain, sums);
}

/// Adds the channels of a target with so many channels.
fn add_demixed<const C: usize>(
    kernel: &Kernel,
    params: DemixParams,
    coded: &[i64],
    gain: u64,
    fresh: bool,
    sums: &mut [i128],
)
    requires count { C ≡ length (target_channels kernel.now (target_of kernel.now)) }
    requires all { length sums.old ≡ C }
    requires mode { IsMode params.mode }
    requires weight { params.weight ≤ 5000 }
    requires samples { AreSamples coded.now }
    requires room { C ≤ length coded.now }
    requires gain { gain ≤ 39810717055340 }
    requires sums { fresh ≡ false → All (λ z. unsigned_abs z < 2 ^ 100) sums.old }
    ensures value { (c : ℕ) → c < length sums.old → slice_index_or sums.new c (pos 0) ≡ base fresh (slice_index_or sums.old c (pos 0)) +ℤ gained (slice_index_or (fixed_row kernel.now (target_of kernel.now) (coefficients_of params.mode) params.weight coded.now) c (pos 0)) gain }
    ensures growth { (c : ℕ) → c < length sums.old → unsigned_abs (slice_index_or sums.new c (pos 0)) ≤ unsigned_abs (base fresh (slice_index_or sums.old c (pos 0))) + 2 ^ 73 }
{
    if fresh {
        put_demixed::<C>(kernel, params, coded, gain, sums);
    } else {
        let mut out = [0; C];
        kernel.demix(params, coded, &mut out);
        add_row(&out, gain, sums);
    }
}

/// Adds the channels of a scalable element at one tick, in the order of a WAV file and each times the gain of the element, to
/// the sums in the same places, or to 0 where the sums are `fresh`. There is a sum for each channel of the kernel's target, and
/// a coded sample of 32 bits for each. Each sum changes by at most 2^73 units.
pub fn add_layers(
    kernel: &Kernel,
    params: DemixParams,
    coded: &[i64],
    gain: u64,
    fresh: bool,
    sums: &mut [i128],
)
    requires all { length sums.old ≡ length (target_channels kernel.now (target_of kernel.now)) }
    requires mode { IsMode params.mode }
    requires weight { params.weight ≤ 5000 }
    requires samples { AreSamples coded.now }
    requires room { length sums.old ≤ length coded.now }
    requires gain { gain ≤ 39810717055340 }
    requires sums { fresh ≡ false → All (λ z. unsigned_abs z < 2 ^ 100) sums.old }
    ensures value { (c : ℕ) → c < length sums.old → slice_index_or sums.new c (pos 0) ≡ base fresh (slice_index_or sums.old c (pos 0)) +ℤ gained (slice_index_or (fixed_row kernel.now (target_of kernel.now) (coefficients_of params.mode) params.weight coded.now) c (pos 0)) gain }
    ensures growth { (c : ℕ) → c < length sums.old → unsigned_abs (slice_index_or sums.new c (pos 0)) ≤ unsigned_abs (base fresh (slice_index_or sums.old c (pos 0))) + 2 ^ 73 }
{
    match sums.len() {
        1 => add_demixed::<1>(kernel, params, coded, gain, fresh, sums),
        2 => add_demixed::<2>(kernel, params, coded, gain, fresh, sums),
        6 => add_demixed::<6>(kernel, params, coded, gain, fresh, sums),
        8 => add_demixed::<8>(kernel, params, coded, gain, fresh, sums),
        10 => add_demixed::<10>(kernel, params, coded, gain, fresh, sums),
        12 => add_demixed::<12>(kernel, params, coded, gain, fresh, sums),
        _ => unreachable!(),
    }
}
