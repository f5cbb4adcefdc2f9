//! One element of a mix as it is played.

ghost use Rattle.std.specs.Prelude.{◌≡◌, ℕ, ◌+◌, ◌*◌, ◌^◌, ◌<◌, ◌≤◌, All, false, pos, ◌+ℤ◌, unsigned_abs, length, slice_index_or, slice_get, Some};
ghost use Rattle.spec_play.specs.Mixes.{MixedElement, Rendition, unit_length};
ghost use Rattle.spec_play.specs.Waves.{wave_shape};
ghost use Rattle.spec_play.specs.GainsOverTime.{gain_at};
ghost use Rattle.spec_play.specs.FixedMix.{gained, fixed_channel};
ghost use Rattle.iamf_mixing.specs.Sums.{base};
ghost use Rattle.iamf_sequence.specs.SequenceValue.{SequenceValue};

use crate::gains::UnitGains;
use iamf_channels::ElementChannels;
use iamf_sequence::Sequence;

/// An element of a mix: its channels, and the gain by which they go into the mix.
#[derive(Drop)]
pub(crate) struct PlayedElement<'s, 'a> {
    pub(crate) channels: ElementChannels<'s, 'a>,
    pub(crate) gains: UnitGains<'s>,
}

impl<'s, 'a> PlayedElement<'s, 'a> {
    ghost use Rattle.iamf_play.specs.PlayedElements.{IsPart, IsBegun};

    /// Goes on to unit `u`, which is as many as were begun.
    pub(crate) fn begin(&mut self, sequence: &Sequence<'a>, u: usize)
        requires few { u < 2 ^ 42 }
        requires part { (r : Rendition) × (m : MixedElement) × IsPart sequence.now r m u self.old × (u < length r.units) }
        ensures { (r : Rendition) (m : MixedElement) → IsPart sequence.now r m u self.old → IsBegun sequence.now r m u self.new }
    {
        self.channels.begin(u);
        self.gains.fill(sequence, u);
    }

    /// Adds the channels at tick `n` of the unit begun last, each times the gain there, to the sums in the same places, or to 0
    /// where the sums are `fresh`. Each changes by at most 2^73.
    pub(crate) fn add(&mut self, n: usize, fresh: bool, sums: &mut [i128])
        requires place { (s : SequenceValue) × (r : Rendition) × (m : MixedElement) × (u : ℕ) × IsBegun s r m u self.old × (n < unit_length r) × (length sums.old ≡ (wave_shape r).channels) }
        requires sums { fresh ≡ false → All (λ z. unsigned_abs z < 2 ^ 100) sums.old }
        ensures value { (s : SequenceValue) (r : Rendition) (m : MixedElement) (u : ℕ) → IsBegun s r m u self.old → n < unit_length r → (c : ℕ) → c < length sums.old
            → slice_index_or sums.new c (pos 0) ≡ base fresh (slice_index_or sums.old c (pos 0)) +ℤ gained (fixed_channel r (record { unit = u; sample = n; channel = c }) m.element) (gain_at r m.gain (u * unit_length r + n)) }
        ensures growth { (c : ℕ) → c < length sums.old → unsigned_abs (slice_index_or sums.new c (pos 0)) ≤ unsigned_abs (base fresh (slice_index_or sums.old c (pos 0))) + 2 ^ 73 }
        ensures same { self.new ≡ self.old }
    {
        let gain = self.gains.at(n);
        self.channels.add(n, gain, fresh, sums);
    }
}
