//! Parameter blocks (IAMF 1.0.0, "Parameter Block OBU Syntax and Semantics").

ghost use Rattle.std.specs.Prelude.{◌≡◌, Option, Some, IfOk, ◌++◌, map, OnOk};
ghost use Rattle.spec_bits.specs.Cursor.{IsOnByte};
ghost use Rattle.spec_syntax.specs.Reading.{read, start_of};
ghost use Rattle.spec_syntax.specs.Payload.{IsValid, Payload, canon};
ghost use Rattle.spec_blocks.specs.BlockFieldLists.{block_fields, gain_fields, timed_gain_fields, subblock_fields, gains_fields, recon_fields, content_fields};
ghost use Rattle.spec_blocks.specs.Shape as fields;
ghost use Rattle.spec_blocks.specs.Shape.{shape_of};
ghost use Rattle.spec_blocks.specs.ParameterBlock.{demixing, content_of, parameter_block};
ghost use Rattle.iamf_bits.specs.Outcome.{ReadsPart, TakesPart};
ghost use Rattle.obu_data.specs.ShapeView.{view_shape};
ghost use Rattle.obu_data.specs.BlockView.{view_content, view_block, IsKnown, view_gain_part, pairs, view_recon_part, opaque_bytes, bytes_after};
ghost use Rattle.obu_data.specs.BlockReading.{ReadsBlock, SpellsBlock, FollowsShape};
ghost use Rattle.spec_bits.specs.Bits.{AreBytes, all_bits};
ghost use Rattle.spec_syntax.specs.Repetition.{joined};
ghost use Rattle.obu_timing.specs.TimingView.{view_fixed};
ghost use Rattle.spec_syntax.specs.Fitting.{AllFit};
ghost use Rattle.obu_timing.specs.Writing.{Puts};

use crate::BlockError;
use crate::definition::Shape;
use crate::definitions::Definitions;
use crate::gain_part::{GainPart, defined_gains_of, own_gains_of, put_gain_parts, put_own_gains};
use crate::recon_part::{ReconPart, put_recon_parts, recon_gains_of};
use iamf_bits::{Out, Unread, View};
use obu_timing::Fixed;
use smallvec::SmallVec;
use spec_blocks::BlockFault;
use std::alloc::{AllocError, Global};

/// What a parameter block holds, by the shape of its definition.
#[derive(Debug, Drop)]
pub enum BlockContent<'a> {
    /// All bytes after the id, where no definition has it.
    Opaque(&'a [u8]),
    /// The gains of each subblock. `timing` is the block's own, where the definition has none.
    Gain {
        timing: Option<Fixed>,
        parts: SmallVec<GainPart, 2>,
    },
    /// `dmixp_mode`, below 8.
    Demix {
        mode: u8,
    },
    /// The gains of each layer whose recon flag is set.
    Recon {
        layers: SmallVec<ReconPart, 6>,
    },
}

/// A parameter block.
#[derive(Debug, Drop)]
pub struct ParameterBlock<'a> {
    /// `parameter_id`.
    pub id: u32,
    /// What it holds.
    pub content: BlockContent<'a>,
    /// The bytes after the content; none where the content is opaque.
    pub tail: &'a [u8],
}

impl<'a> ParameterBlock<'a> {
    /// The bytes after the fields: all after the id of an opaque block, and else the tail. The block is opaque, and has no
    /// tail, exactly where no definition has its id, as one that was read.
    pub fn rest(&self) -> &'a [u8]
        requires { (shape : Option fields.Shape) × FollowsShape shape self.now }
        ensures { result.now ≡ bytes_after self.now }
    {
        match &self.content {
            BlockContent::Opaque(bytes) => bytes,
            _ => self.tail,
        }
    }
}

/// A demixing mode.
#[tactic(auto, unfolding(spec_blocks::specs::ParameterBlock::demixing))]
fn demixing_of<'a>(view: &mut View<'a>) -> Result<BlockContent<'a>, BlockFault>
    requires { IsOnByte view.old }
    ensures reads { TakesPart view_content result view.new (read (λ f. BlockFault.Field f) demixing view.old) }
    ensures known { IfOk result (λ content. IsKnown content) }
{
    let mode = view.take_bits(3)? as u8;
    view.skip_bits(5)?;
    Ok(BlockContent::Demix { mode })
}

/// The content of a block whose definition has this shape.
fn content_of<'a>(
    alloc: Global,
    view: &mut View<'a>,
    shape: &Shape,
) -> Result<BlockContent<'a>, BlockError>
    requires { IsOnByte view.old }
    ensures reads { ReadsPart view_content result view.new (read (λ f. BlockFault.Field f) (content_of (Some (view_shape shape.now))) view.old) }
    ensures known { IfOk result (λ content. IsKnown content) }
{
    match shape {
        Shape::Gain(cadence) => match &cadence.fixed {
            Some(fixed) => defined_gains_of(alloc, view, fixed),
            None => own_gains_of(alloc, view),
        },
        Shape::Demix(_) => demixing_of(view).map_err(Unread::Fault),
        Shape::Recon(_, layers, flags) => recon_gains_of(alloc, view, *layers, *flags),
    }
}

/// A block, read field by field.
#[tactic(auto, using(spec_syntax::proofs::Reading::read_bind), unfolding(spec_blocks::specs::ParameterBlock::parameter_block))]
fn read_from<'a>(
    alloc: Global,
    definitions: &Definitions,
    payload: &'a [u8],
) -> Result<ParameterBlock<'a>, BlockError>
    ensures reads { ReadsBlock result (read (λ f. BlockFault.Field f) (parameter_block definitions.now) (start_of payload.now)) }
    ensures below { IfOk result (λ block. AreBytes (bytes_after block)) }
    ensures opaque { IfOk result (λ block. FollowsShape (shape_of definitions.now block.id) block) }
{
    let mut view = View::whole(payload);
    let id = view.take_leb()?;
    let Some(shape) = definitions.find(id) else {
        return Ok(ParameterBlock {
            id,
            content: BlockContent::Opaque(view.rest()),
            tail: &[],
        });
    };
    let content = match content_of(alloc, &mut view, shape) {
        Ok(content) => content,
        Err(error) => return Err(error),
    };
    let tail = view.rest();
    Ok(ParameterBlock { id, content, tail })
}

/// Reads the payload of a parameter block by the definitions before it. A block of an id that is in none is opaque, and
/// has no tail.
///
/// `Fault` comes exactly where the payload does not begin with the fields of a block, and is the first fault: `Field`
/// where a field cannot be read; `Animation` where an `animation_type` is above 2; in a block that has its own timing
/// `Subblocks` where the duration or, with the constant 0, the number of subblocks or one duration is 0, or where, after
/// the last subblock, their sum is not the duration; `ReconFlags` where flags are 4096 or more. `Memory` comes only where
/// memory runs out. It is asked for only as subblocks are read, never for a number of them that the block claims.
#[tactic(auto, using(crate::proofs::Blocks::block_spells, crate::proofs::Blocks::block_valid))]
pub fn read_block<'a>(
    alloc: Global,
    definitions: &Definitions,
    payload: &'a [u8],
) -> Result<ParameterBlock<'a>, BlockError>
    ensures spells { SpellsBlock definitions.now payload.now result }
    ensures opaque { IfOk result (λ block. FollowsShape (shape_of definitions.now block.id) block) }
    ensures valid { IfOk result (λ block. IsValid (parameter_block definitions.now) block_fields (view_block block)) }
    ensures reads { ReadsBlock result (read (λ f. BlockFault.Field f) (parameter_block definitions.now) (start_of payload.now)) }
    ensures below { IfOk result (λ block. AreBytes (bytes_after block)) }
{
    read_from(alloc, definitions, payload)
}

/// Puts the fields of a content.
#[tactic(auto, using(spec_bits::proofs::JoinLaws::joins, spec_syntax::proofs::Writing::views))]
fn put_content(out: &mut Out, content: &BlockContent<'_>) -> Result<(), AllocError>
    requires used { out.old.used ≡ 0 }
    requires fits { AllFit (content_fields (view_content content.now)) }
    ensures { Puts result out.old out.new (content_fields (view_content content.now)) }
{
    match content {
        BlockContent::Opaque(_) => Ok(()),
        BlockContent::Gain {
            timing: Some(fixed),
            parts,
        } => put_own_gains(out, fixed, parts.as_slice()),
        BlockContent::Gain {
            timing: None,
            parts,
        } => put_gain_parts(out, parts.as_slice()),
        BlockContent::Demix { mode } => {
            out.put_bits(u32::from(*mode), 3)?;
            out.put_zeros(5)?;
            Ok(())
        }
        BlockContent::Recon { layers } => put_recon_parts(out, layers.as_slice()),
    }
}

/// Puts the fields of a block.
#[tactic(auto, using(spec_bits::proofs::JoinLaws::joins))]
fn put_block(out: &mut Out, block: &ParameterBlock<'_>) -> Result<(), AllocError>
    requires used { out.old.used ≡ 0 }
    requires fits { AllFit (block_fields (view_block block.now)) }
    ensures { Puts result out.old out.new (block_fields (view_block block.now)) }
{
    out.put_leb(block.id)?;
    put_content(out, &block.content)?;
    Ok(())
}

/// The bytes of an opaque content, and else none.
fn opaque_of<'a>(content: &BlockContent<'a>) -> &'a [u8]
    ensures { result.now ≡ opaque_bytes content.now }
{
    match content {
        BlockContent::Opaque(bytes) => bytes,
        _ => &[],
    }
}

/// Puts the bytes after the fields.
#[tactic(auto, using(spec_bits::proofs::JoinLaws::joins), unfolding(spec_bits::specs::Form::canonical))]
fn put_rest(out: &mut Out, block: &ParameterBlock<'_>) -> Result<(), AllocError>
    requires { out.old.used ≡ 0 }
    ensures bits { OnOk result (out.new.bits ≡ out.old.bits ++ all_bits (bytes_after block.now)) }
    ensures used { OnOk result (out.new.used ≡ 0) }
{
    out.put_bytes(opaque_of(&block.content))?;
    out.put_bytes(block.tail)?;
    Ok(())
}

/// Writes the fields of a block canonically, without the bytes after them. An error comes only where memory runs out.
#[tactic(auto, using(crate::proofs::Blocks::block_fits))]
pub fn write_block_fields(
    alloc: Global,
    definitions: &Definitions,
    block: &ParameterBlock<'_>,
) -> Result<Vec<u8>, AllocError>
    requires { IsValid (parameter_block definitions.now) block_fields (view_block block.now) }
    ensures { IfOk result (λ v. all_bits v.items ≡ canon (block_fields (view_block block.now))) }
{
    let mut out = Out::new(alloc);
    put_block(&mut out, block)?;
    Ok(out.finish())
}

/// Writes the canonical payload of a block that has the shape of its definition: the shortest numbers, reserved bits of 0,
/// and opaque bytes and the tail as they are. Among the same definitions it reads as the same block.
///
/// An error comes only where memory runs out.
#[tactic(auto, using(spec_bits::proofs::JoinLaws::joins, crate::proofs::Blocks::block_back, crate::proofs::Blocks::block_fits))]
pub fn write_block(
    alloc: Global,
    definitions: &Definitions,
    block: &ParameterBlock<'_>,
) -> Result<Vec<u8>, AllocError>
    requires { IsValid (parameter_block definitions.now) block_fields (view_block block.now) }
    ensures canonical { IfOk result (λ v. all_bits v.items ≡ canon (block_fields (view_block block.now)) ++ all_bits (bytes_after block.now)) }
    ensures read_again { IfOk result (λ v. Payload (parameter_block definitions.now) (block_fields (view_block block.now)) (view_block block.now) (all_bits (bytes_after block.now)) (all_bits v.items)) }
{
    let mut out = Out::new(alloc);
    put_block(&mut out, block)?;
    put_rest(&mut out, block)?;
    Ok(out.finish())
}
