//! What the selection asks of each element of a candidate.

ghost use Rattle.std.specs.Prelude.{◌≡◌, ◌+◌, ◌<◌, ◌≤◌, nat_lt, nat_le, length, ◌^◌};
ghost use Rattle.std.specs.List.{list_any};
ghost use Rattle.spec_descriptors.specs.CodecConfig.{CodecConfigFields};
ghost use Rattle.spec_sequence.specs.ValueRole.{role_of_codec};
ghost use Rattle.obu_codec_config.specs.CodecView.{StandsForCodec};
ghost use Rattle.obu_descriptors.specs.ElementView.{view_element};
ghost use Rattle.obu_mix_elements.specs.MixGainView.{view_mix_gain};
ghost use Rattle.spec_play.specs.Mixes.{codec_of};
ghost use Rattle.spec_play.specs.DemixingOverTime.{demixing_of};
ghost use Rattle.spec_play.specs.Selection.{has_reserved, has_other_rate, some_part, is_bezier, is_gain_above};
ghost use Rattle.iamf_select.specs.ElementTests.{holds};
ghost use Rattle.iamf_select.specs.CandidateView.{heard};

use crate::candidate::{Candidate, ElementTest};
use crate::lookup::element_of;
use iamf_elements::{
    BlockTest, demixing_in, demixing_of, has_high_gain, has_recon, has_reserved, is_for_other,
    is_unknown, lacks_layer, need_parameters, some_block, used_layers,
};
use obu_descriptors::{AudioElement, CodecConfig, Coding};
use obu_mix::MixGain;

/// Samples of a channel in a second.
fn rate_of(codec: &CodecConfig<'_>) -> u32
    ensures { (c : CodecConfigFields) → StandsForCodec codec.now c → result ≡ (role_of_codec c).rate }
{
    match codec.coding {
        Coding::Lpcm { rate, .. } => rate,
        Coding::Flac { rate, .. } => rate,
    }
}

/// Whether the gain is given at another rate than the samples, and has a block.
pub(crate) fn has_other_rate(candidate: &Candidate<'_, '_>, gain: &MixGain) -> bool
    ensures { result ≡ has_other_rate (heard candidate.now) (view_mix_gain gain.now) }
{
    gain.timing.rate != rate_of(candidate.sequence.codec())
        && some_block(BlockTest::Any, gain.timing.id, candidate.sequence)
}

/// Whether a block of the gain is animated by a Bezier curve.
pub(crate) fn is_animated(candidate: &Candidate<'_, '_>, gain: &MixGain) -> bool
    ensures { result ≡ some_part is_bezier (heard candidate.now) (view_mix_gain gain.now) }
{
    some_block(BlockTest::Bezier, gain.timing.id, candidate.sequence)
}

/// Whether the gain is above 32 dB somewhere.
pub(crate) fn is_gain_high(candidate: &Candidate<'_, '_>, gain: &MixGain) -> bool
    ensures { result ≡ is_gain_above (heard candidate.now) (view_mix_gain gain.now) }
{
    gain.gain > 8192 || some_block(BlockTest::High, gain.timing.id, candidate.sequence)
}

/// Whether some unit has a reserved mode by a demixing definition of the element.
fn any_reserved(candidate: &Candidate<'_, '_>, element: &AudioElement<'_>) -> bool
    ensures { result ≡ list_any (has_reserved (heard candidate.now).units) (demixing_of (view_element element.now)) }
{
    for param in element.params.as_slice() {
        if let Some(definition) = demixing_in(param) {
            if has_reserved(definition, candidate.sequence) {
                return true;
            }
        }
    }
    false
}

/// Whether the test holds of an element of the candidate with its gain.
fn holds(
    test: ElementTest,
    candidate: &Candidate<'_, '_>,
    element: &AudioElement<'_>,
    gain: &MixGain,
) -> bool
    ensures { result ≡ holds test (heard candidate.now) (record { element = view_element element.now; gain = view_mix_gain gain.now }) }
{
    let used = used_layers(candidate.target, element);
    match test {
        ElementTest::LacksLayer => lacks_layer(candidate.target, element),
        ElementTest::IsForOther => is_for_other(candidate.target, element),
        ElementTest::IsUnknown => is_unknown(element),
        ElementTest::HasRecon => has_recon(used),
        ElementTest::LacksDemixing => need_parameters(used) && demixing_of(element).is_none(),
        ElementTest::HasReserved => need_parameters(used) && any_reserved(candidate, element),
        ElementTest::HasOtherRate => has_other_rate(candidate, gain),
        ElementTest::HasBezier => is_animated(candidate, gain),
        ElementTest::HasHighGain => is_gain_high(candidate, gain),
        ElementTest::HasHighLayer => has_high_gain(used),
    }
}

/// Whether the test holds of some element of the candidate.
pub(crate) fn some_element(test: ElementTest, candidate: &Candidate<'_, '_>) -> bool
    ensures { result ≡ list_any (holds test (heard candidate.now)) (heard candidate.now).elements }
{
    for named in candidate.sub_mix.elements.as_slice() {
        match element_of(candidate.sequence, named.element) {
            Some(element) => {
                if holds(test, candidate, element, &named.gain) {
                    return true;
                }
            }
            None => {}
        }
    }
    false
}
