//! The shape of a candidate, and of the WAV file that plays it.

ghost use Rattle.std.specs.Prelude.{◌≡◌, ◌<◌, ◌≤◌, ◌^◌, ◌+◌, ◌*◌, ◌/◌, ◌%◌, ◌==◌, not, if◌then◌else◌, length, nat_lt, nat_le};
ghost use Rattle.std.specs.List.{list_any};
ghost use Rattle.std.specs.Option.{option_to_list};
ghost use Rattle.spec_descriptors.specs.CodecConfig.{CodecConfigFields};
ghost use Rattle.spec_sequence.specs.ValueRole.{role_of_codec};
ghost use Rattle.spec_waves.specs.Wave.{riff_size};
ghost use Rattle.obu_codec_config.specs.CodecView.{StandsForCodec};
ghost use Rattle.spec_play.specs.Waves.{output_counts, first_count, channel_count, wave_shape};
ghost use Rattle.spec_play.specs.Selection.{coded_channels, has_other_shape, are_different};
ghost use Rattle.iamf_select.specs.CandidateView.{heard, heard_by};

use crate::candidate::Candidate;
use crate::lookup::element_of;
use iamf_elements::output_count;
use iamf_tables::channel_count;
use obu_descriptors::{CodecConfig, Coding, coded_channels};
use obu_mix::MixElement;
use spec_play::Target;

/// The most elements and the most coded channels of a mix that is played.
const MOST: u32 = 28;

/// Whether the element that a mix names is there.
fn is_there(candidate: &Candidate<'_, '_>, named: &MixElement<'_>) -> bool
    ensures { (if result then 1 else 0) ≡ length (heard_by candidate.now named.now) }
{
    match element_of(candidate.sequence, named.element) {
        Some(_) => true,
        None => false,
    }
}

/// The coded channels of the element that a mix names, 0 where they are not known.
fn channels_of(candidate: &Candidate<'_, '_>, named: &MixElement<'_>) -> u32
    ensures { result ≡ coded_channels (heard_by candidate.now named.now) }
{
    match element_of(candidate.sequence, named.element) {
        Some(element) => coded_channels(element).unwrap_or(0),
        None => 0,
    }
}

/// The outputs of the element that a mix names, if it is an ambisonics element.
fn outputs_of(candidate: &Candidate<'_, '_>, named: &MixElement<'_>) -> Option<u8>
    ensures { option_to_list result ≡ output_counts (heard_by candidate.now named.now) }
{
    match element_of(candidate.sequence, named.element) {
        Some(element) => output_count(element),
        None => None,
    }
}

/// How many elements there are.
pub(crate) fn element_count(candidate: &Candidate<'_, '_>) -> usize
    ensures { result ≡ length (heard candidate.now).elements }
{
    let mut count = 0;
    for named in candidate.sub_mix.elements.as_slice() {
        if is_there(candidate, named) {
            count += 1;
        }
    }
    count
}

/// Whether there are more coded channels than may be played.
fn has_many_channels(candidate: &Candidate<'_, '_>) -> bool
    ensures { result ≡ nat_lt 28 (coded_channels (heard candidate.now).elements) }
{
    let mut total = 0;
    for named in candidate.sub_mix.elements.as_slice() {
        let channels = channels_of(candidate, named);
        if channels > MOST - total {
            return true;
        }
        total += channels;
    }
    false
}

/// Whether there is no element, or there are more elements or coded channels than may be played.
pub(crate) fn has_other_shape(candidate: &Candidate<'_, '_>) -> bool
    ensures { result ≡ has_other_shape (heard candidate.now) }
{
    let count = element_count(candidate);
    count == 0 || (count > MOST as usize || has_many_channels(candidate))
}

/// The number of outputs of the first ambisonics element, 0 where there is none.
fn first_outputs(candidate: &Candidate<'_, '_>) -> u8
    ensures { result ≡ first_count (output_counts (heard candidate.now).elements) }
{
    for named in candidate.sub_mix.elements.as_slice() {
        match outputs_of(candidate, named) {
            Some(outputs) => return outputs,
            None => {}
        }
    }
    0
}

/// Whether the element that a mix names has another number of outputs, if it is an ambisonics element.
fn is_other(candidate: &Candidate<'_, '_>, named: &MixElement<'_>, first: u8) -> bool
    ensures { result ≡ list_any (λ n. not (n == first)) (output_counts (heard_by candidate.now named.now)) }
{
    match outputs_of(candidate, named) {
        Some(outputs) => outputs != first,
        None => false,
    }
}

/// Whether two ambisonics elements have different numbers of outputs.
pub(crate) fn has_other_outputs(candidate: &Candidate<'_, '_>) -> bool
    ensures { result ≡ are_different (output_counts (heard candidate.now).elements) }
{
    let first = first_outputs(candidate);
    for named in candidate.sub_mix.elements.as_slice() {
        if is_other(candidate, named, first) {
            return true;
        }
    }
    false
}

/// How many channels the WAV file has.
fn wave_channels(candidate: &Candidate<'_, '_>) -> usize
    ensures value { result ≡ channel_count candidate.now.target (heard candidate.now).elements }
    ensures few { result < 256 }
{
    match candidate.target {
        Target::Layer(layout) => channel_count(layout),
        Target::Scene => usize::from(first_outputs(candidate)),
    }
}

/// Bits of a sample.
fn depth_of(codec: &CodecConfig<'_>) -> u8
    ensures { (c : CodecConfigFields) → StandsForCodec codec.now c → result ≡ (role_of_codec c).depth }
{
    match codec.coding {
        Coding::Lpcm { depth, .. } => depth,
        Coding::Flac { depth, .. } => depth,
    }
}

/// Whether a WAV file of so many samples of a channel, each of so many bytes with all channels, is too long for its header.
pub(crate) fn is_long_wave(frames: u64, align: u64) -> bool
    requires { align < 2 ^ 16 }
    ensures { result ≡ nat_le (2 ^ 32) (60 + frames * align + frames * align % 2) }
{
    let data = u128::from(frames) * u128::from(align);
    60 + data + data % 2 > 0xffff_ffff
}

/// Whether the WAV file would be too long for the numbers in its header.
pub(crate) fn is_long(candidate: &Candidate<'_, '_>) -> bool
    ensures { result ≡ nat_le (2 ^ 32) (riff_size (wave_shape (heard candidate.now))) }
{
    let bytes = u64::from(depth_of(candidate.sequence.codec()) / 8);
    is_long_wave(
        candidate.sequence.kept(),
        wave_channels(candidate) as u64 * bytes,
    )
}
