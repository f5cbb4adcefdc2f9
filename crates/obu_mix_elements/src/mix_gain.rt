//! The gain of an element or of a whole sub-mix (IAMF 1.0.0, "Mix Gain Parameter Definition").

ghost use Rattle.std.specs.Prelude.{◌≡◌, ◌<◌, ◌≤◌, ◌^◌, [], length, sum, IfOk};
ghost use Rattle.spec_bits.specs.Cursor.{IsOnByte};
ghost use Rattle.spec_syntax.specs.Syntax.{each};
ghost use Rattle.spec_syntax.specs.Reading.{read};
ghost use Rattle.spec_descriptors.specs.MixGain.{some_duration, durations_of, own_timing, gain_definition, mix_gain};
ghost use Rattle.obu_timing.specs.TimingView.{view_fixed, view_timing};
ghost use Rattle.iamf_bits.specs.Outcome.{ReadsPart};
ghost use Rattle.obu_mix_elements.specs.MixGainView.{view_mix_gain};
ghost use Rattle.spec_syntax.specs.Fitting.{AllFit};
ghost use Rattle.spec_descriptors.specs.MixFields.{mix_gain_fields};
ghost use Rattle.obu_timing.specs.Writing.{Puts};

use crate::MixError;
use iamf_bits::{Out, View};
use obu_timing::{Fixed, Timing, put_timing};
use smallvec::SmallVec;
use spec_descriptors::MixFault;
use std::alloc::{AllocError, Global};

/// A gain that parameter blocks may move.
#[derive(Debug, Drop)]
pub struct MixGain {
    /// The id and the timing of the blocks.
    pub timing: Timing,
    /// `default_mix_gain` in 1/256 dB: the gain where no block covers.
    pub gain: i16,
}

/// So many durations, of which none is 0.
#[tactic(auto, using(spec_syntax::proofs::Reading::each_steps))]
fn some_durations(
    alloc: Global,
    view: &mut View<'_>,
    count: u32,
) -> Result<SmallVec<u32, 4>, MixError>
    requires { IsOnByte view.old }
    ensures reads { ReadsPart (λ v. v.items) result view.new (read (λ f. MixFault.Field f) (each count some_duration []) view.old) }
    ensures count { IfOk result (λ v. length v.items ≡ count) }
{
    let mut durations = SmallVec::new(alloc);
    for _ in 0..count {
        let duration = view.take_leb()?;
        if duration == 0 {
            return Err(MixError::Fault(MixFault::ParamShape));
        }
        durations.push(duration)?;
    }
    Ok(durations)
}

/// How long the subblocks last together.
fn total(durations: &[u32]) -> u64
    requires { length durations.now < 2 ^ 32 }
    ensures { result ≡ sum durations.now }
{
    let mut total = 0u64;
    for duration in durations {
        total += u64::from(*duration);
    }
    total
}

/// So many durations, of which none is 0, and which add up to the whole.
#[tactic(auto, using(spec_syntax::proofs::Reading::read_bind), unfolding(spec_descriptors::specs::MixGain::durations_of))]
fn durations_of(
    alloc: Global,
    view: &mut View<'_>,
    count: u32,
    whole: u32,
) -> Result<SmallVec<u32, 4>, MixError>
    requires { IsOnByte view.old }
    ensures { ReadsPart (λ v. v.items) result view.new (read (λ f. MixFault.Field f) (durations_of count whole) view.old) }
{
    let durations = match some_durations(alloc, view, count) {
        Ok(durations) => durations,
        Err(error) => return Err(error),
    };
    if total(durations.as_slice()) != u64::from(whole) {
        return Err(MixError::Fault(MixFault::ParamShape));
    }
    Ok(durations)
}

/// The timing of blocks that do not have their own.
#[tactic(auto, using(spec_syntax::proofs::Reading::read_bind), unfolding(spec_descriptors::specs::MixGain::own_timing))]
fn own_timing(alloc: Global, view: &mut View<'_>) -> Result<Fixed, MixError>
    requires { IsOnByte view.old }
    ensures { ReadsPart view_fixed result view.new (read (λ f. MixFault.Field f) own_timing view.old) }
{
    let duration = view.take_leb()?;
    if duration == 0 {
        return Err(MixError::Fault(MixFault::ParamShape));
    }
    let constant = view.take_leb()?;
    if constant != 0 {
        return Ok(Fixed {
            duration,
            constant,
            durations: SmallVec::new(alloc),
        });
    }
    let count = view.take_leb()?;
    if count == 0 {
        return Err(MixError::Fault(MixFault::ParamShape));
    }
    let durations = match durations_of(alloc, view, count, duration) {
        Ok(durations) => durations,
        Err(error) => return Err(error),
    };
    Ok(Fixed {
        duration,
        constant,
        durations,
    })
}

/// The id and the timing of a mix gain.
#[tactic(auto, using(spec_syntax::proofs::Reading::read_bind), unfolding(spec_descriptors::specs::MixGain::gain_definition))]
fn gain_definition(alloc: Global, view: &mut View<'_>) -> Result<Timing, MixError>
    requires { IsOnByte view.old }
    ensures { ReadsPart view_timing result view.new (read (λ f. MixFault.Field f) gain_definition view.old) }
{
    let id = view.take_leb()?;
    let rate = view.take_leb()?;
    let mode = view.take_bits(1)?;
    view.skip_bits(7)?;
    if mode != 0 {
        return Ok(Timing {
            id,
            rate,
            fixed: None,
        });
    }
    let fixed = match own_timing(alloc, view) {
        Ok(fixed) => fixed,
        Err(error) => return Err(error),
    };
    Ok(Timing {
        id,
        rate,
        fixed: Some(fixed),
    })
}

/// Reads a mix gain.
///
/// `Fault` comes exactly where the payload does not go on with one, and is the first fault; `Memory` only where memory
/// runs out.
#[tactic(auto, using(spec_syntax::proofs::Reading::read_bind), unfolding(spec_descriptors::specs::MixGain::mix_gain))]
pub fn mix_gain_of(alloc: Global, view: &mut View<'_>) -> Result<MixGain, MixError>
    requires { IsOnByte view.old }
    ensures { ReadsPart view_mix_gain result view.new (read (λ f. MixFault.Field f) mix_gain view.old) }
{
    let timing = match gain_definition(alloc, view) {
        Ok(timing) => timing,
        Err(error) => return Err(error),
    };
    let gain = view.take_i16()?;
    Ok(MixGain { timing, gain })
}

/// Puts a mix gain. An error only where memory runs out.
#[tactic(auto, using(spec_bits::proofs::JoinLaws::joins, spec_syntax::proofs::Writing::canon_append, spec_syntax::proofs::Fitting::fit_front), unfolding(spec_descriptors::specs::MixFields::mix_gain_fields))]
pub fn put_mix_gain(out: &mut Out, gain: &MixGain) -> Result<(), AllocError>
    requires used { out.old.used ≡ 0 }
    requires fits { AllFit (mix_gain_fields (view_mix_gain gain.now)) }
    ensures { Puts result out.old out.new (mix_gain_fields (view_mix_gain gain.now)) }
{
    put_timing(out, &gain.timing)?;
    out.put_i16(gain.gain)?;
    Ok(())
}
