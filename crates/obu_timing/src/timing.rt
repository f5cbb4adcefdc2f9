//! The timing of a parameter definition (IAMF 1.0.0, "Parameter Definition Syntax and Semantics").

ghost use Rattle.std.specs.Prelude.{◌≡◌, [], ◌^◌, ◌++◌, OnOk, IfOk, option_map};
ghost use Rattle.spec_bits.specs.Cursor.{IsOnByte};
ghost use Rattle.spec_syntax.specs.Syntax.{each};
ghost use Rattle.spec_syntax.specs.Reading.{read};
ghost use Rattle.spec_descriptors.specs.ParameterDefinition.{any_duration, frame_timing, frame_definition};
ghost use Rattle.iamf_bits.specs.Outcome.{ReadsPart};
ghost use Rattle.obu_timing.specs.TimingView.{view_timing, view_fixed};
ghost use Rattle.spec_syntax.specs.Payload.{canon};
ghost use Rattle.spec_descriptors.specs.TimingFields.{fixed_fields, definition_fields};
ghost use Rattle.spec_syntax.specs.Fitting.{AllFit};

use crate::DescriptorError;
use crate::counted::put_numbers;
use iamf_bits::{Out, View};
use smallvec::SmallVec;
use spec_descriptors::DescriptorFault;
use std::alloc::{AllocError, Global};

/// How long the blocks of a parameter last, where they all last the same. Durations are counted in ticks of the
/// parameter's rate.
#[derive(Debug, Drop)]
pub struct Fixed {
    /// `duration`: how long each block lasts.
    pub duration: u32,
    /// `constant_subblock_duration`, or 0 where the subblocks last differently.
    pub constant: u32,
    /// `subblock_duration` of each subblock, where `constant` is 0, and else none.
    pub durations: SmallVec<u32, 4>,
}

/// The id and the timing of a parameter.
#[derive(Debug, Drop)]
pub struct Timing {
    /// `parameter_id`.
    pub id: u32,
    /// `parameter_rate`, in ticks a second.
    pub rate: u32,
    /// `None` for `param_definition_mode` 1, where each block has its own durations.
    pub fixed: Option<Fixed>,
}

/// How fast a parameter ticks and how long its blocks last, whatever its id.
#[derive(Debug, Drop)]
pub struct Cadence {
    /// `parameter_rate`, in ticks a second.
    pub rate: u32,
    /// `None` for `param_definition_mode` 1, where each block has its own durations.
    pub fixed: Option<Fixed>,
}

impl Fixed {
    /// A copy. An error only where memory runs out.
    pub fn try_clone(&self, alloc: Global) -> Result<Fixed, AllocError>
        ensures { IfOk result (λ f. view_fixed f ≡ view_fixed self.now) }
    {
        let durations = SmallVec::from_slice(alloc, self.durations.as_slice())?;
        Ok(Fixed {
            duration: self.duration,
            constant: self.constant,
            durations,
        })
    }
}

impl Timing {
    /// A copy of all but the id. An error only where memory runs out.
    pub fn cadence(&self, alloc: Global) -> Result<Cadence, AllocError>
        ensures rate { IfOk result (λ c. c.rate ≡ self.now.rate) }
        ensures fixed { IfOk result (λ c. option_map view_fixed c.fixed ≡ option_map view_fixed self.now.fixed) }
    {
        let fixed = match &self.fixed {
            Some(fixed) => Some(fixed.try_clone(alloc)?),
            None => None,
        };
        Ok(Cadence {
            rate: self.rate,
            fixed,
        })
    }
}

impl Cadence {
    /// A copy. An error only where memory runs out.
    pub fn try_clone(&self, alloc: Global) -> Result<Cadence, AllocError>
        ensures rate { IfOk result (λ c. c.rate ≡ self.now.rate) }
        ensures fixed { IfOk result (λ c. option_map view_fixed c.fixed ≡ option_map view_fixed self.now.fixed) }
    {
        let fixed = match &self.fixed {
            Some(fixed) => Some(fixed.try_clone(alloc)?),
            None => None,
        };
        Ok(Cadence {
            rate: self.rate,
            fixed,
        })
    }
}

/// So many durations.
#[tactic(auto, using(spec_syntax::proofs::Reading::each_steps))]
fn read_durations(
    alloc: Global,
    view: &mut View<'_>,
    count: u32,
) -> Result<SmallVec<u32, 4>, DescriptorError>
    requires { IsOnByte view.old }
    ensures { ReadsPart (λ v. v.items) result view.new (read (λ f. DescriptorFault.Field f) (each count any_duration []) view.old) }
{
    let mut durations = SmallVec::new(alloc);
    for _ in 0..count {
        let duration = view.take_leb()?;
        durations.push(duration)?;
    }
    Ok(durations)
}

/// Durations of blocks that last a frame each.
#[tactic(auto, using(spec_syntax::proofs::Reading::read_bind), unfolding(spec_descriptors::specs::ParameterDefinition::frame_timing))]
fn read_fixed(
    alloc: Global,
    view: &mut View<'_>,
    frame_length: u32,
) -> Result<Fixed, DescriptorError>
    requires { IsOnByte view.old }
    ensures { ReadsPart view_fixed result view.new (read (λ f. DescriptorFault.Field f) (frame_timing frame_length) view.old) }
{
    let duration = view.take_leb()?;
    if duration != frame_length {
        return Err(DescriptorError::Fault(DescriptorFault::ParamShape));
    }
    let constant = view.take_leb()?;
    if constant != frame_length {
        return Err(DescriptorError::Fault(DescriptorFault::ParamShape));
    }
    if constant != 0 {
        return Ok(Fixed {
            duration,
            constant,
            durations: SmallVec::new(alloc),
        });
    }
    let count = view.take_leb()?;
    let durations = read_durations(alloc, view, count)?;
    Ok(Fixed {
        duration,
        constant,
        durations,
    })
}

/// Reads the timing of a parameter whose blocks last a frame each. `frame_length` is the number of ticks in a frame.
///
/// `Fault` comes exactly where the payload does not go on with such a timing, and is the first fault; `Memory` only where
/// memory runs out.
#[tactic(auto, using(spec_syntax::proofs::Reading::read_bind), unfolding(spec_descriptors::specs::ParameterDefinition::frame_definition))]
pub fn read_timing(
    alloc: Global,
    view: &mut View<'_>,
    frame_length: u32,
) -> Result<Timing, DescriptorError>
    requires { IsOnByte view.old }
    ensures { ReadsPart view_timing result view.new (read (λ f. DescriptorFault.Field f) (frame_definition frame_length) view.old) }
{
    let id = view.take_leb()?;
    let rate = view.take_leb()?;
    if view.take_bits(1)? == 1 {
        return Err(DescriptorError::Fault(DescriptorFault::ParamShape));
    }
    view.skip_bits(7)?;
    let fixed = read_fixed(alloc, view, frame_length)?;
    Ok(Timing {
        id,
        rate,
        fixed: Some(fixed),
    })
}

#[tactic(auto, using(spec_bits::proofs::JoinLaws::joins))]
fn put_fixed(out: &mut Out, fixed: &Fixed) -> Result<(), AllocError>
    requires used { out.old.used ≡ 0 }
    requires fits { AllFit (fixed_fields (view_fixed fixed.now)) }
    ensures bits { OnOk result (out.new.bits ≡ out.old.bits ++ canon (fixed_fields (view_fixed fixed.now))) }
    ensures used { OnOk result (out.new.used ≡ 0) }
{
    out.put_leb(fixed.duration)?;
    out.put_leb(fixed.constant)?;
    if fixed.constant == 0 {
        put_numbers(out, fixed.durations.as_slice())?;
    }
    Ok(())
}

/// Puts the fields of a parameter definition, without those of its kind. An error only where memory runs out.
#[tactic(auto, using(spec_bits::proofs::JoinLaws::joins))]
pub fn put_timing(out: &mut Out, timing: &Timing) -> Result<(), AllocError>
    requires used { out.old.used ≡ 0 }
    requires fits { AllFit (definition_fields (view_timing timing.now)) }
    ensures bits { OnOk result (out.new.bits ≡ out.old.bits ++ canon (definition_fields (view_timing timing.now))) }
    ensures used { OnOk result (out.new.used ≡ 0) }
{
    out.put_leb(timing.id)?;
    out.put_leb(timing.rate)?;
    match &timing.fixed {
        None => {
            out.put_bits(1, 1)?;
            out.put_zeros(7)?;
        }
        Some(fixed) => {
            out.put_bits(0, 1)?;
            out.put_zeros(7)?;
            put_fixed(out, fixed)?;
        }
    }
    Ok(())
}
