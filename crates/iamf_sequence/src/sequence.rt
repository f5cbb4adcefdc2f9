//! Sequences of OBUs.
ghost use Rattle.std.specs.Prelude.{◌≡◌, ◌<◌, ◌≤◌, ◌^◌, [], ◌∷◌, length, slice_get, Some, List, ℕ, is_some};
ghost use Rattle.spec_descriptors.specs.CodecConfig.{CodecConfigFields};
ghost use Rattle.spec_rules.specs.Units.{unit_of, unit_count, contains};
ghost use Rattle.spec_rules.specs.Descriptors.{substreams};
ghost use Rattle.spec_rules.specs.Descriptors as descriptors;
ghost use Rattle.spec_sequence.specs.Parts.{UnitValue, header_in, codec_in, element_in, mix_in, sequence_headers, codec_configs, audio_elements, mix_presentations, temporal_units};
ghost use Rattle.spec_sequence.specs.Reading.{values_of, roles};
ghost use Rattle.spec_rules.specs.Samples.{kept};
ghost use Rattle.obu_codec_config.specs.HeaderView.{view_header};
ghost use Rattle.obu_codec_config.specs.CodecView.{StandsForCodec};
ghost use Rattle.obu_descriptors.specs.ElementView.{view_element};
ghost use Rattle.obu_mix.specs.MixView.{view_mix, tail_of, IsValidMix};
ghost use Rattle.iamf_sequence.specs.Places.{IsObuAt};
ghost use Rattle.iamf_sequence.specs.SequenceValue.{IsRead};
ghost use Rattle.iamf_sequence.specs.Tails.{with_tails};
ghost use Rattle.iamf_sequence.specs.UnitView.{IsUnit, frame_with};
ghost use Rattle.iamf_sequence.specs.ContentsView.{IsElement};

use crate::parts::Parts;
use crate::reading::Reading;
use crate::unit::Unit;
use obu_data::Definitions;
use obu_descriptors::{AudioElement, CodecConfig, SequenceHeader};
use obu_header::ObuView;
use obu_mix::MixPresentation;
use std::marker::Model;

/// A list of OBUs that is a sequence, with its descriptors and its temporal units, as views into the bytes that it was
/// read from.
///
/// Contracts see the bytes, and the OBUs of which they are spellings, as `entries`; all else is said of these.
#[derive(Drop)]
pub struct Sequence<'a> {
    pub(crate) reading: Reading<'a>,
    pub(crate) parts: Parts<'a>,
}

impl<'a> Model for Sequence<'a> {
    ghost use Rattle.iamf_sequence.specs.SequenceValue.{SequenceValue};
    ghost use Rattle.iamf_sequence.specs.SequenceView.{IsSequence};

    ghost Value = { SequenceValue };

    ghost view = { λ s. s.reading };

    ghost invariant = { λ s. IsSequence s.parts s.reading };
}

impl<'a> Sequence<'a> {
    /// How many OBUs there are.
    pub fn count(&self) -> usize
        ensures { result ≡ length self.now.entries }
    {
        self.parts.obus.as_slice().len()
    }

    /// OBU `i`, counted from 0. The bytes before it are those of the OBUs before it.
    pub fn obu(&self, i: usize) -> &ObuView<'a>
        requires { i < length self.now.entries }
        ensures { IsObuAt self.now i result.now }
    {
        let obus = self.parts.obus.as_slice();
        prove!(i < obus.len());
        &obus[i].view
    }

    /// The sequence header.
    pub fn header(&self) -> &SequenceHeader<'a>
        ensures says { sequence_headers (values_of self.now.entries) ≡ view_header result.now ∷ [] }
        ensures tail { with_tails header_in (values_of self.now.entries) ≡ (view_header result.now, result.now.tail.now) ∷ [] }
    {
        &self.parts.header
    }

    /// The codec config.
    pub fn codec(&self) -> &CodecConfig<'a>
        ensures says { (c : CodecConfigFields) × (codec_configs (values_of self.now.entries) ≡ c ∷ []) × StandsForCodec result.now c }
        ensures tail { (c : CodecConfigFields) × (with_tails codec_in (values_of self.now.entries) ≡ (c, result.now.tail.now) ∷ []) × StandsForCodec result.now c }
    {
        &self.parts.codec
    }

    /// How many audio elements there are.
    pub fn element_count(&self) -> usize
        ensures { result ≡ length (audio_elements (values_of self.now.entries)) }
    {
        self.parts.elements.as_slice().len()
    }

    /// Audio element `i`, counted from 0.
    pub fn element(&self, i: usize) -> &AudioElement<'a>
        requires { i < length (audio_elements (values_of self.now.entries)) }
        ensures says { slice_get (audio_elements (values_of self.now.entries)) i ≡ Some (view_element result.now) }
        ensures tail { slice_get (with_tails element_in (values_of self.now.entries)) i ≡ Some (view_element result.now, result.now.tail.now) }
        ensures valid { IsElement result.now }
    {
        &self.parts.elements.as_slice()[i]
    }

    /// How many mix presentations there are.
    pub fn mix_count(&self) -> usize
        ensures { result ≡ length (mix_presentations (values_of self.now.entries)) }
    {
        self.parts.mixes.as_slice().len()
    }

    /// Mix presentation `i`, counted from 0. Its tags are those that its tail has.
    pub fn mix(&self, i: usize) -> &MixPresentation<'a>
        requires { i < length (mix_presentations (values_of self.now.entries)) }
        ensures says { slice_get (mix_presentations (values_of self.now.entries)) i ≡ Some (view_mix result.now) }
        ensures tail { slice_get (with_tails mix_in (values_of self.now.entries)) i ≡ Some (view_mix result.now, tail_of result.now) }
        ensures valid { IsValidMix result.now }
    {
        &self.parts.mixes.as_slice()[i]
    }

    /// How many temporal units there are.
    pub fn unit_count(&self) -> usize
        ensures { result ≡ unit_count (roles self.now.entries) }
    {
        self.parts.units.as_slice().len()
    }

    /// Temporal unit `u`, counted from 0. It has a frame of each substream of the elements, and of no other.
    pub fn unit(&self, u: usize) -> &Unit<'a>
        requires { u < unit_count (roles self.now.entries) }
        ensures is { (v : UnitValue) × (slice_get (temporal_units (values_of self.now.entries)) u ≡ Some v) × IsUnit result.now v }
        ensures complete { (v : UnitValue) (s : ℕ) → slice_get (temporal_units (values_of self.now.entries)) u ≡ Some v
            → is_some (frame_with s v.frames) ≡ contains (substreams (roles self.now.entries)) s }
    {
        let units = self.parts.units.as_slice();
        prove!(u < units.len());
        &units[u]
    }

    /// The number of samples of a channel that no trim leaves out.
    pub fn kept(&self) -> u64
        ensures { result ≡ kept (roles self.now.entries) }
    {
        self.parts.admission.samples()
    }

    /// The parameter definitions of the elements and the mixes.
    pub fn definitions(&self) -> &Definitions
        ensures { result.now ≡ descriptors.definitions (roles self.now.entries) }
    {
        match self.parts.admission.definitions() {
            Some(definitions) => definitions,
            None => unreachable!(),
        }
    }

    /// The bytes that the sequence was read from.
    pub fn bytes(&self) -> &'a [u8]
        ensures same { result.now ≡ self.now.bytes }
        ensures reads { IsRead result.now self.now.entries }
        ensures short { length result.now ≤ 2 ^ 40 }
    {
        self.reading.bytes()
    }

    /// The number of the temporal unit of OBU `i`; `None` exactly where it is a descriptor or reserved.
    pub fn unit_of(&self, i: usize) -> Option<usize>
        requires { i < length self.now.entries }
        ensures { result ≡ unit_of (roles self.now.entries) i }
    {
        let obus = self.parts.obus.as_slice();
        prove!(i < obus.len());
        index_of(obus[i].unit)
    }
}

/// The number of a unit as an index, which has 64 bits too.
fn index_of(unit: Option<u64>) -> Option<usize>
    ensures { result ≡ unit }
{
    unit.map(|unit| unit as usize)
}
