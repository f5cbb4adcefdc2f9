//! The gains of a mix gain (IAMF 1.0.0, "Parameter Block OBU Syntax and Semantics").

ghost use Rattle.std.specs.Prelude.{◌≡◌, [], ◌≤◌, ◌*◌, ◌^◌, map, length, sum, IfOk, ◌<◌, ◌++◌, Some, OnOk};
ghost use Rattle.spec_bits.specs.Cursor.{IsOnByte};
ghost use Rattle.spec_syntax.specs.Syntax.{each};
ghost use Rattle.spec_syntax.specs.Reading.{read};
ghost use Rattle.spec_blocks.specs.ParameterBlock.{gain_part, gain_in, timed_gain, timed_gain_in, timed_gains, constant_gains, own_gains, defined_gains, subblocks_of, parameter_block};
ghost use Rattle.obu_timing.specs.TimingView.{view_fixed};
ghost use Rattle.iamf_bits.specs.Outcome.{ReadsPart, TakesPart};
ghost use Rattle.obu_data.specs.BlockView.{view_gain_part, view_timed, view_content, IsKnown, pairs, view_recon_part, view_block, opaque_bytes, bytes_after};
ghost use Rattle.spec_bits.specs.Bits.{all_bits};
ghost use Rattle.spec_syntax.specs.Payload.{Payload, IsValid, canon};
ghost use Rattle.spec_syntax.specs.Repetition.{joined};
ghost use Rattle.spec_blocks.specs.BlockFieldLists.{gain_fields, timed_gain_fields, subblock_fields, gains_fields, recon_fields, content_fields, block_fields};
ghost use Rattle.spec_syntax.specs.Fitting.{AllFit};
ghost use Rattle.obu_timing.specs.Writing.{Puts};

use crate::BlockError;
use crate::definitions::Definitions;
use crate::parameter_block::BlockContent;
use iamf_bits::{Out, Unread, View};
use obu_timing::Fixed;
use smallvec::SmallVec;
use spec_blocks::BlockFault;
use std::alloc::{AllocError, Global};

/// One subblock of a mix gain. Gains are in 1/256 dB.
#[derive(Clone, Copy, Debug, PartialEq, Eq)]
pub enum GainPart {
    /// `animation_type` 0: the gain `start` throughout.
    Step {
        start: i16,
    },
    /// `animation_type` 1: from `start` to `end` on a straight line.
    Linear {
        start: i16,
        end: i16,
    },
    /// `animation_type` 2: from `start` to `end` on a curve by `control`, which stands at `time` / 256 of the subblock.
    Bezier {
        start: i16,
        end: i16,
        control: i16,
        time: u8,
    },
}

impl Default for GainPart {
    fn default() -> GainPart {
        GainPart::Step { start: 0 }
    }
}

/// Subblocks with durations of their own.
#[derive(Drop)]
pub(crate) struct Timed {
    durations: SmallVec<u32, 4>,
    parts: SmallVec<GainPart, 2>,
    total: u64,
}

/// One subblock.
#[tactic(auto, unfolding(spec_blocks::specs::ParameterBlock::gain_part))]
fn part_of(view: &mut View<'_>) -> Result<GainPart, BlockFault>
    requires { IsOnByte view.old }
    ensures { TakesPart view_gain_part result view.new (read (λ f. BlockFault.Field f) gain_part view.old) }
{
    let animation = view.take_leb()?;
    if animation > 2 {
        return Err(BlockFault::Animation);
    }
    let start = view.take_i16()?;
    if animation == 0 {
        return Ok(GainPart::Step { start });
    }
    let end = view.take_i16()?;
    if animation == 1 {
        return Ok(GainPart::Linear { start, end });
    }
    let control = view.take_i16()?;
    let time = view.take_bits(8)? as u8;
    Ok(GainPart::Bezier {
        start,
        end,
        control,
        time,
    })
}

/// So many subblocks.
#[tactic(auto, using(spec_syntax::proofs::Reading::each_steps))]
fn parts_of(
    alloc: Global,
    view: &mut View<'_>,
    count: usize,
) -> Result<SmallVec<GainPart, 2>, BlockError>
    requires { IsOnByte view.old }
    ensures { ReadsPart (λ v. map view_gain_part v.items) result view.new (read (λ f. BlockFault.Field f) (each count gain_in []) view.old) }
{
    let mut parts = SmallVec::new(alloc);
    for _ in 0..count {
        let part = match part_of(view) {
            Ok(part) => part,
            Err(fault) => return Err(Unread::Fault(fault)),
        };
        parts.push(part)?;
    }
    Ok(parts)
}

/// One subblock with its duration.
#[tactic(auto, using(spec_syntax::proofs::Reading::read_bind), unfolding(spec_blocks::specs::ParameterBlock::timed_gain))]
fn timed_part_of(view: &mut View<'_>) -> Result<(u32, GainPart), BlockFault>
    requires { IsOnByte view.old }
    ensures { TakesPart (λ t. (t.0, view_gain_part t.1)) result view.new (read (λ f. BlockFault.Field f) timed_gain view.old) }
{
    let duration = view.take_leb()?;
    if duration == 0 {
        return Err(BlockFault::Subblocks);
    }
    let part = match part_of(view) {
        Ok(part) => part,
        Err(fault) => return Err(fault),
    };
    Ok((duration, part))
}

/// So many subblocks with their durations.
#[tactic(auto, using(spec_syntax::proofs::Reading::each_steps))]
fn timed_parts_of(alloc: Global, view: &mut View<'_>, count: u32) -> Result<Timed, BlockError>
    requires { IsOnByte view.old }
    ensures reads { ReadsPart view_timed result view.new (read (λ f. BlockFault.Field f) (each count timed_gain_in []) view.old) }
    ensures lengths { IfOk result (λ t. length t.durations.items ≡ length t.parts.items) }
    ensures total { IfOk result (λ t. t.total ≡ sum t.durations.items) }
{
    let mut durations = SmallVec::new(alloc);
    let mut parts = SmallVec::new(alloc);
    let mut total = 0u64;
    for _ in 0..count {
        let (duration, part) = match timed_part_of(view) {
            Ok(timed) => timed,
            Err(fault) => return Err(Unread::Fault(fault)),
        };
        durations.push(duration)?;
        parts.push(part)?;
        total += u64::from(duration);
    }
    Ok(Timed {
        durations,
        parts,
        total,
    })
}

/// The subblocks of a block of this duration, each with its own.
#[tactic(auto, using(spec_syntax::proofs::Reading::read_bind), unfolding(spec_blocks::specs::ParameterBlock::timed_gains))]
fn timed_gains_of<'a>(
    alloc: Global,
    view: &mut View<'a>,
    duration: u32,
) -> Result<BlockContent<'a>, BlockError>
    requires { IsOnByte view.old }
    ensures reads { ReadsPart view_content result view.new (read (λ f. BlockFault.Field f) (timed_gains duration) view.old) }
    ensures known { IfOk result (λ content. IsKnown content) }
{
    let count = view.take_leb()?;
    if count == 0 {
        return Err(BlockError::Fault(BlockFault::Subblocks));
    }
    let timed = match timed_parts_of(alloc, view, count) {
        Ok(timed) => timed,
        Err(error) => return Err(error),
    };
    if timed.total != u64::from(duration) {
        return Err(BlockError::Fault(BlockFault::Subblocks));
    }
    Ok(BlockContent::Gain {
        timing: Some(Fixed {
            duration,
            constant: 0,
            durations: timed.durations,
        }),
        parts: timed.parts,
    })
}

/// The subblocks of a block of this duration, which all last `constant` but for the last, which may be shorter.
#[tactic(auto, using(spec_syntax::proofs::Reading::read_bind, crate::proofs::Counts::subblocks_rounded), unfolding(spec_blocks::specs::ParameterBlock::constant_gains))]
fn constant_gains_of<'a>(
    alloc: Global,
    view: &mut View<'a>,
    duration: u32,
    constant: u32,
) -> Result<BlockContent<'a>, BlockError>
    requires place { IsOnByte view.old }
    requires divides { 0 < constant }
    ensures reads { ReadsPart view_content result view.new (read (λ f. BlockFault.Field f) (constant_gains duration constant) view.old) }
    ensures known { IfOk result (λ content. IsKnown content) }
{
    let parts = match parts_of(alloc, view, duration.div_ceil(constant) as usize) {
        Ok(parts) => parts,
        Err(error) => return Err(error),
    };
    Ok(BlockContent::Gain {
        timing: Some(Fixed {
            duration,
            constant,
            durations: SmallVec::new(alloc),
        }),
        parts,
    })
}

/// Gains of a block that has its own timing.
#[tactic(auto, unfolding(spec_blocks::specs::ParameterBlock::own_gains))]
pub(crate) fn own_gains_of<'a>(
    alloc: Global,
    view: &mut View<'a>,
) -> Result<BlockContent<'a>, BlockError>
    requires { IsOnByte view.old }
    ensures reads { ReadsPart view_content result view.new (read (λ f. BlockFault.Field f) own_gains view.old) }
    ensures known { IfOk result (λ content. IsKnown content) }
{
    let duration = view.take_leb()?;
    if duration == 0 {
        return Err(BlockError::Fault(BlockFault::Subblocks));
    }
    let constant = view.take_leb()?;
    if constant == 0 {
        timed_gains_of(alloc, view, duration)
    } else {
        constant_gains_of(alloc, view, duration, constant)
    }
}

/// How many subblocks a definition's timing has.
#[tactic(auto, using(crate::proofs::Counts::subblocks_rounded))]
fn subblocks_of(fixed: &Fixed) -> usize
    ensures { result ≡ subblocks_of (view_fixed fixed.now) }
{
    if fixed.constant == 0 {
        fixed.durations.len()
    } else {
        fixed.duration.div_ceil(fixed.constant) as usize
    }
}

/// Gains of a block that has the timing of its definition.
#[tactic(auto, using(spec_syntax::proofs::Reading::read_bind), unfolding(spec_blocks::specs::ParameterBlock::defined_gains))]
pub(crate) fn defined_gains_of<'a>(
    alloc: Global,
    view: &mut View<'a>,
    fixed: &Fixed,
) -> Result<BlockContent<'a>, BlockError>
    requires { IsOnByte view.old }
    ensures reads { ReadsPart view_content result view.new (read (λ f. BlockFault.Field f) (defined_gains (view_fixed fixed.now)) view.old) }
    ensures known { IfOk result (λ content. IsKnown content) }
{
    let parts = match parts_of(alloc, view, subblocks_of(fixed)) {
        Ok(parts) => parts,
        Err(error) => return Err(error),
    };
    Ok(BlockContent::Gain {
        timing: None,
        parts,
    })
}

/// Puts one subblock of a mix gain.
#[tactic(auto, using(spec_bits::proofs::JoinLaws::joins))]
fn put_gain_part(out: &mut Out, part: &GainPart) -> Result<(), AllocError>
    requires used { out.old.used ≡ 0 }
    requires fits { AllFit (gain_fields (view_gain_part part.now)) }
    ensures { Puts result out.old out.new (gain_fields (view_gain_part part.now)) }
{
    match *part {
        GainPart::Step { start } => {
            out.put_leb(0)?;
            out.put_i16(start)?;
        }
        GainPart::Linear { start, end } => {
            out.put_leb(1)?;
            out.put_i16(start)?;
            out.put_i16(end)?;
        }
        GainPart::Bezier {
            start,
            end,
            control,
            time,
        } => {
            out.put_leb(2)?;
            out.put_i16(start)?;
            out.put_i16(end)?;
            out.put_i16(control)?;
            out.put_bits(u32::from(time), 8)?;
        }
    }
    Ok(())
}

/// Puts the subblocks one after the other.
pub(crate) fn put_gain_parts(out: &mut Out, parts: &[GainPart]) -> Result<(), AllocError>
    requires used { out.old.used ≡ 0 }
    requires fits { AllFit (joined (λ part. gain_fields (view_gain_part part)) parts.now) }
    ensures { Puts result out.old out.new (joined (λ part. gain_fields (view_gain_part part)) parts.now) }
{
    for part in parts {
        put_gain_part(out, part)?;
    }
    Ok(())
}

/// Puts a subblock with its duration.
#[tactic(auto, using(spec_bits::proofs::JoinLaws::joins))]
fn put_timed_part(out: &mut Out, duration: u32, part: &GainPart) -> Result<(), AllocError>
    requires used { out.old.used ≡ 0 }
    requires fits { AllFit (timed_gain_fields (duration, view_gain_part part.now)) }
    ensures { Puts result out.old out.new (timed_gain_fields (duration, view_gain_part part.now)) }
{
    out.put_leb(duration)?;
    put_gain_part(out, part)?;
    Ok(())
}

/// Puts each subblock with its duration.
fn put_timed_parts(out: &mut Out, durations: &[u32], parts: &[GainPart]) -> Result<(), AllocError>
    requires used { out.old.used ≡ 0 }
    requires fits { AllFit (joined timed_gain_fields (pairs durations.now parts.now)) }
    ensures { Puts result out.old out.new (joined timed_gain_fields (pairs durations.now parts.now)) }
{
    for (duration, part) in durations.iter().zip(parts) {
        put_timed_part(out, *duration, part)?;
    }
    Ok(())
}

/// Puts the subblocks of a block with its own timing.
#[tactic(auto, using(spec_bits::proofs::JoinLaws::joins, spec_syntax::proofs::Writing::views))]
fn put_subblocks(out: &mut Out, fixed: &Fixed, parts: &[GainPart]) -> Result<(), AllocError>
    requires used { out.old.used ≡ 0 }
    requires fits { AllFit (subblock_fields (view_fixed fixed.now) (map view_gain_part parts.now)) }
    ensures { Puts result out.old out.new (subblock_fields (view_fixed fixed.now) (map view_gain_part parts.now)) }
{
    if fixed.constant != 0 {
        return put_gain_parts(out, parts);
    }
    out.put_leb(parts.len() as u32)?;
    put_timed_parts(out, fixed.durations.as_slice(), parts)?;
    Ok(())
}

/// Puts the timing of a block that has its own, and its subblocks.
#[tactic(auto, using(spec_bits::proofs::JoinLaws::joins))]
pub(crate) fn put_own_gains(
    out: &mut Out,
    fixed: &Fixed,
    parts: &[GainPart],
) -> Result<(), AllocError>
    requires used { out.old.used ≡ 0 }
    requires fits { AllFit (gains_fields (Some (view_fixed fixed.now)) (map view_gain_part parts.now)) }
    ensures { Puts result out.old out.new (gains_fields (Some (view_fixed fixed.now)) (map view_gain_part parts.now)) }
{
    out.put_leb(fixed.duration)?;
    out.put_leb(fixed.constant)?;
    put_subblocks(out, fixed, parts)?;
    Ok(())
}
