//! Adds the channels of an element at one tick.

ghost use Rattle.std.specs.Prelude.{◌≡◌, ℕ, ◌+◌, ◌^◌, ◌<◌, ◌≤◌, All, false, pos, ◌+ℤ◌, unsigned_abs, length, slice_index_or};
ghost use Rattle.spec_gains.specs.Modes.{IsMode};
ghost use Rattle.spec_demix.specs.Sizes.{AreSamples};
ghost use Rattle.spec_play.specs.FixedMix.{gained};
ghost use Rattle.iamf_mixing.specs.Sums.{base};
ghost use Rattle.iamf_channels.specs.Adding.{CanAdd, added};

use demix_channels::DemixParams;
use iamf_mixing::{add_layers, add_scene};
use mix_fixed::Kernel;
use obu_descriptors::ElementConfig;

/// Adds the channels of an element, each times a gain, to the sums in the same places, or to 0 where the sums are `fresh`.
pub(crate) fn add_tick(
    kernel: &Option<Kernel>,
    params: DemixParams,
    config: &ElementConfig<'_>,
    coded: &[i64],
    gain: u64,
    fresh: bool,
    sums: &mut [i128],
)
    requires can { CanAdd kernel.now config.now (length coded.now) (length sums.old) }
    requires few { length coded.now ≤ 255 }
    requires mode { IsMode params.mode }
    requires weight { params.weight ≤ 5000 }
    requires samples { AreSamples coded.now }
    requires gain { gain ≤ 39810717055340 }
    requires sums { fresh ≡ false → All (λ z. unsigned_abs z < 2 ^ 100) sums.old }
    ensures value { (c : ℕ) → c < length sums.old → slice_index_or sums.new c (pos 0) ≡ base fresh (slice_index_or sums.old c (pos 0)) +ℤ gained (added kernel.now config.now params coded.now c) gain }
    ensures growth { (c : ℕ) → c < length sums.old → unsigned_abs (slice_index_or sums.new c (pos 0)) ≤ unsigned_abs (base fresh (slice_index_or sums.old c (pos 0))) + 2 ^ 73 }
{
    match kernel {
        Some(kernel) => add_layers(kernel, params, coded, gain, fresh, sums),
        None => add_scene(config, coded, gain, fresh, sums),
    }
}
