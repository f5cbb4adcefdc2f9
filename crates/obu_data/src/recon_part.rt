//! The recon gains of a layer (IAMF 1.0.0, "Parameter Block OBU Syntax and Semantics").

ghost use Rattle.std.specs.Prelude.{◌≡◌, ◌≤◌, [], map, IfOk, ◌++◌, Some, OnOk};
ghost use Rattle.spec_bits.specs.Cursor.{IsOnByte};
ghost use Rattle.spec_syntax.specs.Syntax.{each};
ghost use Rattle.spec_syntax.specs.Reading.{read};
ghost use Rattle.spec_blocks.specs.ParameterBlock.{ones_below, recon_part, recon_in, recon_gains, parameter_block};
ghost use Rattle.iamf_bits.specs.Outcome.{ReadsPart};
ghost use Rattle.obu_data.specs.BlockView.{view_recon_part, view_content, IsKnown, view_gain_part, pairs, view_block, opaque_bytes, bytes_after};
ghost use Rattle.spec_bits.specs.Bits.{all_bits};
ghost use Rattle.spec_syntax.specs.Payload.{Payload, IsValid, canon};
ghost use Rattle.spec_syntax.specs.Repetition.{joined};
ghost use Rattle.spec_blocks.specs.BlockFieldLists.{gain_fields, timed_gain_fields, subblock_fields, gains_fields, recon_fields, content_fields, block_fields};
ghost use Rattle.obu_timing.specs.TimingView.{view_fixed};
ghost use Rattle.spec_syntax.specs.Fitting.{AllFit};
ghost use Rattle.obu_timing.specs.Writing.{Puts};

use crate::BlockError;
use crate::definitions::Definitions;
use crate::parameter_block::BlockContent;
use iamf_bits::{Out, Unread, View};
use obu_timing::Fixed;
use smallvec::SmallVec;
use spec_blocks::BlockFault;
use std::alloc::{AllocError, Global};
use std::default::MadeWith;

/// The recon gains of one layer.
#[derive(Debug, Drop)]
pub struct ReconPart {
    /// `recon_gain_flags`, below 4096: the channels that have a gain.
    pub flags: u16,
    /// `recon_gain` for each flag that is set, the lowest flag first.
    pub gains: SmallVec<u8, 12>,
}

impl MadeWith<Global> for ReconPart {
    fn made_with(alloc: Global) -> ReconPart {
        ReconPart {
            flags: 0,
            gains: SmallVec::new(alloc),
        }
    }
}

/// How many of the lowest `count` bits are 1.
fn ones_below(count: u32, bits: u32) -> usize
    ensures ones { result ≡ ones_below count bits }
    ensures few { result ≤ count }
{
    let mut ones = 0;
    let mut rest = bits;
    for _ in 0..count {
        ones += (rest % 2) as usize;
        rest /= 2;
    }
    ones
}

/// The gains of one layer.
#[tactic(auto, unfolding(spec_blocks::specs::ParameterBlock::recon_part))]
fn part_of(alloc: Global, view: &mut View<'_>) -> Result<ReconPart, BlockError>
    requires { IsOnByte view.old }
    ensures { ReadsPart view_recon_part result view.new (read (λ f. BlockFault.Field f) recon_part view.old) }
{
    let flags = view.take_leb()?;
    if flags >= 4096 {
        return Err(BlockError::Fault(BlockFault::ReconFlags));
    }
    let bytes = view.take_bytes(ones_below(12, flags))?;
    let gains = SmallVec::from_slice(alloc, bytes)?;
    Ok(ReconPart {
        flags: flags as u16,
        gains,
    })
}

/// The gains of so many layers.
#[tactic(auto, using(spec_syntax::proofs::Reading::each_steps))]
fn parts_of(
    alloc: Global,
    view: &mut View<'_>,
    count: usize,
) -> Result<SmallVec<ReconPart, 6>, BlockError>
    requires { IsOnByte view.old }
    ensures { ReadsPart (λ v. map view_recon_part v.items) result view.new (read (λ f. BlockFault.Field f) (each count recon_in []) view.old) }
{
    let mut parts = SmallVec::new(alloc);
    for _ in 0..count {
        let part = part_of(alloc, view)?;
        parts.push(part)?;
    }
    Ok(parts)
}

/// The gains of the layers whose flags are set.
#[tactic(auto, using(spec_syntax::proofs::Reading::read_bind), unfolding(spec_blocks::specs::ParameterBlock::recon_gains))]
pub(crate) fn recon_gains_of<'a>(
    alloc: Global,
    view: &mut View<'a>,
    layers: u8,
    flags: u8,
) -> Result<BlockContent<'a>, BlockError>
    requires { IsOnByte view.old }
    ensures reads { ReadsPart view_content result view.new (read (λ f. BlockFault.Field f) (recon_gains layers flags) view.old) }
    ensures known { IfOk result (λ content. IsKnown content) }
{
    let count = ones_below(u32::from(layers), u32::from(flags));
    let layers = match parts_of(alloc, view, count) {
        Ok(layers) => layers,
        Err(error) => return Err(error),
    };
    Ok(BlockContent::Recon { layers })
}

/// Puts the gains of a layer.
#[tactic(auto, using(spec_bits::proofs::JoinLaws::joins))]
fn put_recon_part(out: &mut Out, part: &ReconPart) -> Result<(), AllocError>
    requires used { out.old.used ≡ 0 }
    requires fits { AllFit (recon_fields (view_recon_part part.now)) }
    ensures { Puts result out.old out.new (recon_fields (view_recon_part part.now)) }
{
    out.put_leb(u32::from(part.flags))?;
    out.put_bytes(part.gains.as_slice())?;
    Ok(())
}

/// Puts the gains of the layers one after the other.
pub(crate) fn put_recon_parts(out: &mut Out, parts: &[ReconPart]) -> Result<(), AllocError>
    requires used { out.old.used ≡ 0 }
    requires fits { AllFit (joined (λ part. recon_fields (view_recon_part part)) parts.now) }
    ensures { Puts result out.old out.new (joined (λ part. recon_fields (view_recon_part part)) parts.now) }
{
    for part in parts {
        put_recon_part(out, part)?;
    }
    Ok(())
}
