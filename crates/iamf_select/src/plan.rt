//! What is played: a mix of a sequence for a target.

ghost use Rattle.std.specs.Prelude.{◌≡◌, ◌<◌, length, slice_get, Some, None};
ghost use Rattle.spec_sequence.specs.Reading.{values_of};
ghost use Rattle.spec_play.specs.Laws.{IsHearable, IsPlayable};
ghost use Rattle.spec_play.specs.Mixes.{MixedElement, Rendition};
ghost use Rattle.obu_descriptors.specs.ElementView.{view_element};
ghost use Rattle.obu_mix_elements.specs.MixGainView.{view_mix_gain};
ghost use Rattle.iamf_sequence.specs.ContentsView.{IsElement};
ghost use Rattle.iamf_select.specs.PlanView.{IsSelected};

use crate::candidate::Candidate;
use crate::elements::heard_at;
use crate::shapes::element_count;
use iamf_sequence::Sequence;
use obu_descriptors::AudioElement;
use obu_mix::MixGain;
use spec_play::Target;
use std::marker::Model;

/// A mix of a sequence that the selection passed for a target. Contracts see the sequence, the id of the mix and the target.
#[derive(Drop)]
pub struct Plan<'s, 'a> {
    pub(crate) candidate: Candidate<'s, 'a>,
    pub(crate) mix: u32,
}

impl<'s, 'a> Model for Plan<'s, 'a> {
    ghost use Rattle.iamf_select.specs.PlanView.{PlanValue, IsSelected};
    ghost use Rattle.iamf_select.specs.CandidateView.{heard};

    ghost Value = { PlanValue };

    ghost view = { λ p. record { sequence = p.candidate.sequence.now; mix = p.mix; target = p.candidate.target } };

    ghost invariant = { λ p. IsSelected (record { sequence = p.candidate.sequence.now; mix = p.mix; target = p.candidate.target }) (heard p.candidate) };
}

impl<'s, 'a> Plan<'s, 'a> {
    /// The sequence.
    pub fn sequence(&self) -> &'s Sequence<'a>
        ensures { result.now ≡ self.now.sequence }
    {
        self.candidate.sequence
    }

    /// What the mix is played for.
    pub fn target(&self) -> Target
        ensures { result ≡ self.now.target }
    {
        self.candidate.target
    }

    /// How many elements the mix has. One that is named twice counts twice.
    pub fn element_count(&self) -> usize
        ensures { (r : Rendition) → IsSelected self.now r → result ≡ length r.elements }
    {
        element_count(&self.candidate)
    }

    /// Element `i` of the mix, counted from 0.
    pub fn element(&self, i: usize) -> &'s AudioElement<'a>
        requires { (r : Rendition) → IsSelected self.now r → i < length r.elements }
        ensures says { (r : Rendition) → IsSelected self.now r → (m : MixedElement) × (slice_get r.elements i ≡ Some m) × (m.element ≡ view_element result.now) }
        ensures valid { IsElement result.now }
    {
        heard_at(&self.candidate, i).element
    }

    /// The gain by which element `i` goes into the mix.
    pub fn element_gain(&self, i: usize) -> &'s MixGain
        requires { (r : Rendition) → IsSelected self.now r → i < length r.elements }
        ensures { (r : Rendition) → IsSelected self.now r → (m : MixedElement) × (slice_get r.elements i ≡ Some m) × (m.gain ≡ view_mix_gain result.now) }
    {
        heard_at(&self.candidate, i).gain
    }

    /// The gain of the whole mix.
    pub fn output_gain(&self) -> &'s MixGain
        ensures { (r : Rendition) → IsSelected self.now r → r.output ≡ view_mix_gain result.now }
    {
        &self.candidate.sub_mix.output
    }

    /// A plan is of exactly one rendition, and that is playable. The call does nothing: its clause is a law.
    pub fn one_rendition(&self)
        ensures { (r : Rendition) × IsSelected self.now r × IsPlayable r × ((q : Rendition) → IsSelected self.now q → q ≡ r) }
    {
        let _ = &self.candidate;
    }
}
