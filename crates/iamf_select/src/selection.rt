//! The selection: its rules in their order.

ghost use Rattle.std.specs.Prelude.{◌≡◌, ◌||◌, drop};
ghost use Rattle.spec_play.specs.Waves.{output_counts};
ghost use Rattle.spec_play.specs.Selection.{first_of, tests, some_element, some_gain, rendition_fault, is_for_other, are_different, is_gain_above, has_layer_above, has_other_rate, some_part, is_bezier};
ghost use Rattle.iamf_select.specs.CandidateView.{heard};

use crate::asking::{has_other_rate, is_animated, is_gain_high, some_element};
use crate::candidate::{Candidate, ElementTest};
use crate::shapes::{has_other_outputs, has_other_shape, is_long};
use spec_play::PlayFault;

/// Whether a gain of the mix that has blocks is given at another rate than the samples.
fn some_other_rate(candidate: &Candidate<'_, '_>) -> bool
    ensures { result ≡ some_gain (has_other_rate (heard candidate.now)) (heard candidate.now) }
{
    some_element(ElementTest::HasOtherRate, candidate)
        || has_other_rate(candidate, &candidate.sub_mix.output)
}

/// Whether a gain of the mix is animated by a Bezier curve.
fn some_bezier(candidate: &Candidate<'_, '_>) -> bool
    ensures { result ≡ some_gain (some_part is_bezier (heard candidate.now)) (heard candidate.now) }
{
    some_element(ElementTest::HasBezier, candidate)
        || is_animated(candidate, &candidate.sub_mix.output)
}

/// Whether a gain of the mix is above 32 dB somewhere.
fn some_high_gain(candidate: &Candidate<'_, '_>) -> bool
    ensures { result ≡ some_gain (is_gain_above (heard candidate.now)) (heard candidate.now) }
{
    some_element(ElementTest::HasHighGain, candidate)
        || is_gain_high(candidate, &candidate.sub_mix.output)
}

/// Whether an element is not of the target's kind, or two ambisonics elements have different numbers of outputs.
fn some_other_kind(candidate: &Candidate<'_, '_>) -> bool
    ensures { result ≡ (some_element (λ e. is_for_other (heard candidate.now).target e.config) (heard candidate.now) || are_different (output_counts (heard candidate.now).elements)) }
{
    some_element(ElementTest::IsForOther, candidate) || has_other_outputs(candidate)
}

/// Whether a gain of the mix or of a used layer is above 32 dB.
fn some_high(candidate: &Candidate<'_, '_>) -> bool
    ensures { result ≡ (some_gain (is_gain_above (heard candidate.now)) (heard candidate.now) || some_element (has_layer_above (heard candidate.now).target) (heard candidate.now)) }
{
    some_high_gain(candidate) || some_element(ElementTest::HasHighLayer, candidate)
}

/// The first rule that the candidate breaks of those over its gains and the WAV file.
fn gain_fault(candidate: &Candidate<'_, '_>) -> Option<PlayFault>
    ensures { result ≡ first_of (drop 7 (tests (heard candidate.now))) }
{
    if some_other_rate(candidate) {
        return Some(PlayFault::ParamRate);
    }
    if some_bezier(candidate) {
        return Some(PlayFault::Bezier);
    }
    if some_high(candidate) {
        return Some(PlayFault::GainRange);
    }
    if is_long(candidate) {
        return Some(PlayFault::WavTooLong);
    }
    None
}

/// The first rule that the candidate breaks of those over its used layers, and of those after them.
fn layer_fault(candidate: &Candidate<'_, '_>) -> Option<PlayFault>
    ensures { result ≡ first_of (drop 4 (tests (heard candidate.now))) }
{
    if some_element(ElementTest::HasRecon, candidate) {
        return Some(PlayFault::Recon);
    }
    if some_element(ElementTest::LacksDemixing, candidate) {
        return Some(PlayFault::NoDemix);
    }
    if some_element(ElementTest::HasReserved, candidate) {
        return Some(PlayFault::DemixReserved);
    }
    gain_fault(candidate)
}

/// The first rule that the candidate breaks, if it breaks one.
pub(crate) fn fault_of(candidate: &Candidate<'_, '_>) -> Option<PlayFault>
    ensures { result ≡ rendition_fault (heard candidate.now) }
{
    if has_other_shape(candidate) {
        return Some(PlayFault::MixShape);
    }
    if some_element(ElementTest::LacksLayer, candidate) {
        return Some(PlayFault::NoLayer);
    }
    if some_other_kind(candidate) {
        return Some(PlayFault::SceneTarget);
    }
    if some_element(ElementTest::IsUnknown, candidate) {
        return Some(PlayFault::UnknownElement);
    }
    layer_fault(candidate)
}
