//! One element of a sequence as it is played.

ghost use Rattle.std.specs.Prelude.{◌≡◌, ℕ, ◌+◌, ◌-◌, ◌^◌, ◌<◌, ◌≤◌, All, false, pos, ◌+ℤ◌, unsigned_abs, length, slice_index_or, IfOk};
ghost use Rattle.spec_play.specs.Mixes.{Rendition, unit_length};
ghost use Rattle.spec_play.specs.Waves.{wave_shape};
ghost use Rattle.spec_play.specs.FixedMix.{gained, fixed_channel};
ghost use Rattle.obu_descriptors.specs.ElementView.{view_element};
ghost use Rattle.iamf_mixing.specs.Sums.{base};
ghost use Rattle.iamf_channels.specs.Heard.{IsHeard, Hears, units_in};

use crate::adding::add_tick;
use crate::frames::decode_unit;
use crate::parameters::{Demixing, first_demixing, next_demixing};
use crate::reserving::{kernel_of, needed_channels, reserve};
use iamf_bits::Planes;
use iamf_elements::used_layers;
use iamf_mixing::coded_row;
use iamf_sequence::Sequence;
use mix_fixed::Kernel;
use obu_descriptors::AudioElement;
use spec_play::Target;
use std::alloc::{AllocError, Global};
use std::marker::Model;

/// The number after that of a unit.
fn after(sequence: &Sequence<'_>, u: usize) -> usize
    requires { u < length (units_in sequence.now) }
    ensures { result ≡ u + 1 }
{
    let count = sequence.unit_count();
    if u < count { u + 1 } else { unreachable!() }
}

/// The channels of an audio element of a sequence for a target. Contracts see the sequence, the element, the target and how
/// many units were begun.
#[derive(Drop)]
pub struct ElementChannels<'s, 'a> {
    sequence: &'s Sequence<'a>,
    element: &'s AudioElement<'a>,
    target: Target,
    begun: usize,
    /// `None` for an ambisonics element.
    kernel: Option<Kernel>,
    demixing: Demixing,
    /// The samples of a unit: rows for the channels of each substream that the target needs.
    planes: Vec<Planes>,
    /// The coded samples of one tick.
    coded: Vec<i64>,
}

impl<'s, 'a> Model for ElementChannels<'s, 'a> {
    ghost use Rattle.obu_descriptors.specs.ElementView.{view_element};
    ghost use Rattle.iamf_channels.specs.Heard.{ChannelsValue};
    ghost use Rattle.iamf_channels.specs.Playing.{IsPlaying};

    ghost Value = { ChannelsValue };

    ghost view = { λ e. record { sequence = e.sequence.now; element = view_element e.element.now; target = e.target; begun = e.begun } };

    ghost invariant = { λ e. IsPlaying (record { sequence = e.sequence.now; element = view_element e.element.now; target = e.target; begun = e.begun }) e.kernel e.demixing e.planes.items e.coded.items };
}

impl<'s, 'a> ElementChannels<'s, 'a> {
    /// Takes all memory that playing the element needs: nothing else ever takes any. The element must be one of a mix of the
    /// sequence that is played for the target. The only error is want of memory.
    pub fn new(
        alloc: Global,
        sequence: &'s Sequence<'a>,
        element: &'s AudioElement<'a>,
        target: Target,
    ) -> Result<ElementChannels<'s, 'a>, AllocError>
        requires heard { (r : Rendition) × IsHeard sequence.now (view_element element.now) target r }
        ensures { IfOk result (λ e. e ≡ record { sequence = sequence.now; element = view_element element.now; target = target; begun = 0 }) }
    {
        let _ = sequence.bytes();
        let kernel = kernel_of(used_layers(target, element));
        let demixing = first_demixing(target, element);
        let needed = needed_channels(target, element);
        let frame_length = sequence.codec().frame_length as usize;
        let (planes, channels) = reserve(alloc, element, needed, frame_length)?;
        let coded = vec![in alloc; 0i64; channels]?;
        Ok(ElementChannels {
            sequence,
            element,
            target,
            begun: 0,
            kernel,
            demixing,
            planes,
            coded,
        })
    }

    /// Decodes unit `u`, which is as many as were begun, and takes the demixing parameters on to it.
    pub fn begin(&mut self, u: usize)
        requires next { u ≡ self.old.begun }
        requires unit { u < length (units_in self.old.sequence) }
        ensures { self.new ≡ record self.old { begun = u + 1 } }
    {
        let sequence = self.sequence;
        let element = self.element;
        let next = after(sequence, u);
        decode_unit(
            sequence,
            u,
            element.substreams.as_slice(),
            self.planes.as_mut_slice(),
        );
        self.demixing = next_demixing(self.demixing, sequence, u);
        self.begun = next;
    }

    /// Adds the channels at tick `n` of the unit begun last, each times a gain in parts of 10^12, to the sums in the same
    /// places, or to 0 where the sums are `fresh`, in units of 1/2^28. There is a sum for each channel of the target, and each
    /// changes by at most 2^73.
    pub fn add(&mut self, n: usize, gain: u64, fresh: bool, sums: &mut [i128])
        requires begun { 1 ≤ self.old.begun }
        requires place { (r : Rendition) × Hears self.old r × (n < unit_length r) × (length sums.old ≡ (wave_shape r).channels) }
        requires gain { gain ≤ 39810717055340 }
        requires sums { fresh ≡ false → All (λ z. unsigned_abs z < 2 ^ 100) sums.old }
        ensures value { (r : Rendition) → Hears self.old r → (c : ℕ) → c < length sums.old → slice_index_or sums.new c (pos 0) ≡ base fresh (slice_index_or sums.old c (pos 0)) +ℤ gained (fixed_channel r (record { unit = self.old.begun - 1; sample = n; channel = c }) self.old.element) gain }
        ensures growth { (c : ℕ) → c < length sums.old → unsigned_abs (slice_index_or sums.new c (pos 0)) ≤ unsigned_abs (base fresh (slice_index_or sums.old c (pos 0))) + 2 ^ 73 }
        ensures same { self.new ≡ self.old }
    {
        coded_row(self.planes.as_slice(), n, self.coded.as_mut_slice());
        add_tick(
            &self.kernel,
            self.demixing.params(),
            &self.element.config,
            self.coded.as_slice(),
            gain,
            fresh,
            sums,
        );
    }
}
