//! The outputs of an ambisonics element at one tick, in units of 1/2^28 (IAMF 1.0.0, "Ambisonics Config Syntax and Semantics").

ghost use Rattle.std.specs.Prelude.{◌≡◌, ℕ, ◌+◌, ◌*◌, ◌^◌, ◌<◌, ◌≤◌, All, false, pos, ◌+ℤ◌, unsigned_abs, length, slice_index_or};
ghost use Rattle.spec_demix.specs.Sizes.{AreSamples};
ghost use Rattle.demix_layers.specs.SceneView.{IsPlayed};
ghost use Rattle.spec_play.specs.FixedMix.{gained};
ghost use Rattle.iamf_mixing.specs.Scenes.{scene_units};
ghost use Rattle.iamf_mixing.specs.Sums.{base};

use crate::sums::gained;
use demix_layers::{scene_exact, to_units};
use obu_element_config::ElementConfig;

/// Output `c`, rounded down.
fn scene_output(config: &ElementConfig<'_>, coded: &[i64], c: usize) -> i128
    requires played { IsPlayed config.now (length coded.now) c }
    requires few { length coded.now ≤ 255 }
    requires samples { AreSamples coded.now }
    ensures value { result ≡ scene_units config.now coded.now c }
    ensures small { unsigned_abs result < 2 ^ 67 }
{
    to_units(scene_exact(config, coded, c))
}

/// Sets the sums to 0.
fn clear(sums: &mut [i128])
    ensures { (c : ℕ) → c < length sums.old → slice_index_or sums.new c (pos 0) ≡ pos 0 }
{
    for sum in sums.iter_mut() {
        *sum = 0;
    }
}

/// Sets the sums to 0 where they are fresh.
fn begun(fresh: bool, sums: &mut [i128])
    requires sums { fresh ≡ false → All (λ z. unsigned_abs z < 2 ^ 100) sums.old }
    ensures base { (c : ℕ) → c < length sums.old → slice_index_or sums.new c (pos 0) ≡ base fresh (slice_index_or sums.old c (pos 0)) }
    ensures small { (c : ℕ) → c < length sums.old → unsigned_abs (slice_index_or sums.new c (pos 0)) < 2 ^ 100 }
{
    if fresh {
        clear(sums);
    }
}

/// Adds outputs, each times a gain, to the sums in the same places.
fn add_outputs(config: &ElementConfig<'_>, coded: &[i64], gain: u64, sums: &mut [i128])
    requires played { (c : ℕ) → c < length sums.old → IsPlayed config.now (length coded.now) c }
    requires few { length coded.now ≤ 255 }
    requires samples { AreSamples coded.now }
    requires gain { gain ≤ 39810717055340 }
    requires sums { (c : ℕ) → c < length sums.old → unsigned_abs (slice_index_or sums.old c (pos 0)) < 2 ^ 100 }
    ensures value { (c : ℕ) → c < length sums.old → slice_index_or sums.new c (pos 0) ≡ slice_index_or sums.old c (pos 0) +ℤ gained (scene_units config.now coded.now c) gain }
    ensures growth { (c : ℕ) → c < length sums.old → unsigned_abs (slice_index_or sums.new c (pos 0)) ≤ unsigned_abs (slice_index_or sums.old c (pos 0)) + 2 ^ 73 }
{
    for c in 0..sums.len() {
        sums[c] += gained(scene_output(config, coded, c), gain);
    }
}

/// Adds the outputs of an ambisonics element at one tick, each times the gain of the element, to the sums in the same places, or
/// to 0 where the sums are `fresh`. There is a sum for each output, and a coded sample of 32 bits for each coded channel, of
/// which there are at most 255. Each sum changes by at most 2^73 units.
pub fn add_scene(
    config: &ElementConfig<'_>,
    coded: &[i64],
    gain: u64,
    fresh: bool,
    sums: &mut [i128],
)
    requires played { (c : ℕ) → c < length sums.old → IsPlayed config.now (length coded.now) c }
    requires few { length coded.now ≤ 255 }
    requires samples { AreSamples coded.now }
    requires gain { gain ≤ 39810717055340 }
    requires sums { fresh ≡ false → All (λ z. unsigned_abs z < 2 ^ 100) sums.old }
    ensures value { (c : ℕ) → c < length sums.old → slice_index_or sums.new c (pos 0) ≡ base fresh (slice_index_or sums.old c (pos 0)) +ℤ gained (scene_units config.now coded.now c) gain }
    ensures growth { (c : ℕ) → c < length sums.old → unsigned_abs (slice_index_or sums.new c (pos 0)) ≤ unsigned_abs (base fresh (slice_index_or sums.old c (pos 0))) + 2 ^ 73 }
{
    begun(fresh, sums);
    add_outputs(config, coded, gain, sums);
}
