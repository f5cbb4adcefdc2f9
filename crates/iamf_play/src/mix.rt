//! The mix of a temporal unit (IAMF 1.0.0, "Mix Presentation OBU Syntax and Semantics").

ghost use Rattle.std.specs.Prelude.{◌≡◌, ℕ, ◌+◌, ◌*◌, ◌^◌, ◌<◌, ◌≤◌, All, pos, unsigned_abs, length, slice_index_or, take};
ghost use Rattle.spec_play.specs.Mixes.{Rendition, unit_length};
ghost use Rattle.spec_play.specs.FixedMix.{fixed_sum};
ghost use Rattle.iamf_mixing.specs.Tracks.{HasGains};
ghost use Rattle.iamf_sequence.specs.SequenceValue.{SequenceValue};
ghost use Rattle.iamf_play.specs.PlayedElements.{AreParts, AreBegun};
ghost use Rattle.iamf_play.specs.Mixing.{mixed_at, mixed_from, place, IsAt, IsTick};

use crate::element::PlayedElement;
use iamf_mixing::apply_output;
use iamf_sequence::Sequence;

/// Goes on to unit `u` with each element.
pub(crate) fn begin_elements<'a>(
    elements: &mut [PlayedElement<'_, 'a>],
    sequence: &Sequence<'a>,
    u: usize,
)
    requires few { u < 2 ^ 42 }
    requires parts { (r : Rendition) × AreParts sequence.now r u elements.old × (u < length r.units) }
    ensures { (r : Rendition) → AreParts sequence.now r u elements.old → AreBegun sequence.now r u elements.new }
{
    for element in elements.iter_mut() {
        element.begin(sequence, u);
    }
}

/// The sum of the elements at tick `n` in each channel. Nothing is clipped.
fn add_elements(elements: &mut [PlayedElement<'_, '_>], n: usize, sums: &mut [i128])
    requires at { (s : SequenceValue) × (r : Rendition) × (u : ℕ) × IsAt s r u (length sums.old) elements.old × (n < unit_length r) }
    ensures value { (s : SequenceValue) (r : Rendition) (u : ℕ) → IsAt s r u (length sums.old) elements.old → n < unit_length r → (c : ℕ) → c < length sums.old → slice_index_or sums.new c (pos 0) ≡ fixed_sum r (place u n c) r.elements }
    ensures small { All (λ z. unsigned_abs z < 2 ^ 78) sums.new }
    ensures same { elements.new ≡ elements.old }
{
    let mut fresh = true;
    for element in elements.iter_mut() {
        element.add(n, fresh, sums);
        fresh = false;
    }
}

/// The mix at tick `n` in each channel, where the output gain is `gain`.
fn mix_tick(elements: &mut [PlayedElement<'_, '_>], n: usize, gain: u64, sums: &mut [i128])
    requires at { (s : SequenceValue) × (r : Rendition) × (u : ℕ) × IsTick s r u n gain (length sums.old) elements.old }
    ensures value { (s : SequenceValue) (r : Rendition) (u : ℕ) → IsTick s r u n gain (length sums.old) elements.old → sums.new ≡ mixed_at r u n }
    ensures small { All (λ z. unsigned_abs z < 2 ^ 126) sums.new }
    ensures same { elements.new ≡ elements.old }
{
    add_elements(elements, n, sums);
    apply_output(gain, sums);
}

/// The mix at each of `count` ticks from `first` on, in so many channels. The row has the output gain of each tick of the unit.
pub(crate) fn mix_unit(
    elements: &mut [PlayedElement<'_, '_>],
    row: &[u64],
    first: usize,
    count: usize,
    channels: usize,
    mixed: &mut [i128],
)
    requires at { (s : SequenceValue) × (r : Rendition) × (u : ℕ) × IsAt s r u channels elements.old × HasGains r r.output u row.now × (length row.now ≡ unit_length r) }
    requires ticks { 0 < count → first + count ≤ length row.now }
    requires room { count * channels ≤ length mixed.old }
    ensures value { (s : SequenceValue) (r : Rendition) (u : ℕ) → IsAt s r u channels elements.old → HasGains r r.output u row.now → length row.now ≡ unit_length r → take (count * channels) mixed.new ≡ mixed_from r u first count }
    ensures small { All (λ z. unsigned_abs z < 2 ^ 126) (take (count * channels) mixed.new) }
    ensures same { elements.new ≡ elements.old }
{
    for k in 0..count {
        let at = k * channels;
        let n = first + k;
        mix_tick(elements, n, row[n], &mut mixed[at..at + channels]);
    }
}
