//! Which mix is played.

ghost use Rattle.std.specs.Prelude.{◌≡◌, ◌≢◌, [], ◌∷◌, length, IfOk, IfErr, MatchOption, Some, None};
ghost use Rattle.spec_sequence.specs.Reading.{values_of};
ghost use Rattle.spec_play.specs.Laws.{IsHearable};
ghost use Rattle.spec_play.specs.Mixes.{rendition_of};
ghost use Rattle.spec_play.specs.Selection.{play_fault};
ghost use Rattle.iamf_select.specs.CandidateView.{heard};

use crate::candidate::Candidate;
use crate::lookup::mix_of;
use crate::plan::Plan;
use crate::selection::fault_of;
use iamf_sequence::Sequence;
use obu_mix::SubMix;
use spec_play::{PlayFault, Target};

/// A plan to play the mix presentation of an id for a target, or the first rule that it breaks. The target must not be the
/// binaural layout. No memory is taken.
pub fn select<'s, 'a>(
    sequence: &'s Sequence<'a>,
    mix: u32,
    target: Target,
) -> Result<Plan<'s, 'a>, PlayFault>
    requires { IsHearable target }
    ensures fault { IfErr result (λ fault. play_fault (values_of sequence.now.entries) mix target ≡ Some fault) }
    ensures plan { IfOk result (λ plan. plan ≡ record { sequence = sequence.now; mix = mix; target = target }) }
{
    let found = match mix_of(sequence, mix) {
        Some(found) => found,
        None => return Err(PlayFault::NoMix),
    };
    let sub_mix = match only_one(found.sub_mixes.as_slice()) {
        Some(sub_mix) => sub_mix,
        None => return Err(PlayFault::MixShape),
    };
    let candidate = Candidate {
        sequence,
        sub_mix,
        target,
    };
    match fault_of(&candidate) {
        Some(fault) => Err(fault),
        None => Ok(plan_of(candidate, mix)),
    }
}

/// The sub-mix of a mix that has exactly one.
fn only_one<'s, 'a>(sub_mixes: &'s [SubMix<'a>]) -> Option<&'s SubMix<'a>>
    ensures { MatchOption result (length sub_mixes.now ≢ 1) (λ sub_mix. sub_mixes.now ≡ sub_mix.now ∷ []) }
{
    if sub_mixes.len() == 1 {
        Some(&sub_mixes[0])
    } else {
        None
    }
}

/// A plan of a candidate that the selection passes.
fn plan_of<'s, 'a>(candidate: Candidate<'s, 'a>, mix: u32) -> Plan<'s, 'a>
    requires hearable { IsHearable candidate.target }
    requires passes { play_fault (values_of candidate.sequence.now.entries) mix candidate.target ≡ None }
    requires is { rendition_of (values_of candidate.sequence.now.entries) mix candidate.target ≡ Some (heard candidate) }
    ensures { result ≡ record { sequence = candidate.entry.sequence.now; mix = mix; target = candidate.entry.target } }
{
    // A plan is of bytes that are read, as this call ensures.
    let _ = candidate.sequence.bytes();
    Plan { candidate, mix }
}
