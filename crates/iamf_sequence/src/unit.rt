//! Temporal units (IAMF 1.0.0, "Temporal Unit").

ghost use Rattle.std.specs.Prelude.{◌≡◌, true, [], ◌<◌, map, length, slice_index_or, OnOk};
ghost use Rattle.spec_rules.specs.Units.{are_apart};
ghost use Rattle.spec_sequence.specs.Parts.{UnitValue};
ghost use Rattle.iamf_sequence.specs.UnitView.{view_frame, AreIncreasing, frame_with, FindsFrame};

use obu_data::{FrameView, ParameterBlock};
use spec_obu::Trim;
use std::alloc::{AllocError, Global};

/// A temporal unit: a frame of each substream, and parameter blocks.
#[derive(Drop)]
pub struct Unit<'a> {
    /// Of the first frame.
    pub(crate) trim: Trim,
    /// Sorted by their substreams once the unit is read.
    pub(crate) frames: Vec<FrameView<'a>>,
    pub(crate) blocks: Vec<ParameterBlock<'a>>,
}

impl<'a> Unit<'a> {
    ghost use Rattle.iamf_sequence.specs.UnitView.{view_block_value, view_unit, HasNoOpaqueTail, IsConsistent, with_frame, with_block, IsUnit};
    ghost use Rattle.spec_sequence.specs.Parts.{first_trim};

    /// A unit of nothing.
    pub(crate) fn new(alloc: Global) -> Unit<'a>
        ensures is { view_unit result ≡ record { frames = []; blocks = [] } }
        ensures consistent { IsConsistent result }
    {
        Unit {
            trim: Trim { end: 0, start: 0 },
            frames: Vec::new(alloc),
            blocks: Vec::new(alloc),
        }
    }

    /// Puts a frame last. An `Err` comes only where memory runs out.
    pub(crate) fn push_frame(&mut self, frame: FrameView<'a>) -> Result<(), AllocError>
        ensures is { OnOk result (view_unit self.new ≡ with_frame frame.entry (view_unit self.old)) }
        ensures consistent { OnOk result (IsConsistent self.old → IsConsistent self.new) }
    {
        if self.frames.is_empty() {
            self.trim = frame.trim;
        }
        self.frames.push(frame)?;
        Ok(())
    }

    /// Puts a block last. An `Err` comes only where memory runs out.
    pub(crate) fn push_block(&mut self, block: ParameterBlock<'a>) -> Result<(), AllocError>
        ensures is { OnOk result (view_unit self.new ≡ with_block block.entry (view_unit self.old)) }
        ensures consistent { OnOk result (HasNoOpaqueTail block.entry → IsConsistent self.old → IsConsistent self.new) }
    {
        // Most units have at most one block, and a vector's first room is for four.
        if self.blocks.is_empty() {
            self.blocks.reserve_exact(1)?;
        }
        self.blocks.push(block)?;
        Ok(())
    }

    /// Sorts the frames by their substreams, as finding one needs. An `Err` comes only where memory runs out.
    pub(crate) fn sort(&mut self) -> Result<(), AllocError>
        ensures { OnOk result (are_apart (map (λ f. f.substream) (view_unit self.old).frames) ≡ true → IsConsistent self.old → IsUnit self.new (view_unit self.old)) }
    {
        self.frames.sort_by_key(|frame| frame.substream)
    }

    /// How many samples of each frame of the unit a player leaves out at its end and at its start.
    pub fn trim(&self) -> Trim
        ensures { (v : UnitValue) → IsUnit self.now v → result ≡ first_trim v.frames }
    {
        self.trim
    }

    /// The frame of a substream, and `None` exactly for a substream of no element. It takes logarithmic time.
    pub fn frame(&self, substream: u32) -> Option<&FrameView<'a>>
        ensures { (v : UnitValue) → IsUnit self.now v → FindsFrame result (frame_with substream v.frames) }
    {
        frame_in(self.frames.as_slice(), substream)
    }

    /// How many parameter blocks the unit has.
    pub fn block_count(&self) -> usize
        ensures counts { (v : UnitValue) → IsUnit self.now v → result ≡ length v.blocks }
        ensures places { result ≡ length self.now.blocks.items }
    {
        self.blocks.as_slice().len()
    }

    /// Parameter block `i`, counted from 0 in the order in which they stand. One of no known parameter has no tail: all its
    /// bytes are in its content.
    pub fn block(&self, i: usize) -> &ParameterBlock<'a>
        requires { i < length self.now.blocks.items }
        ensures says { (v : UnitValue) → IsUnit self.now v → view_block_value result.now ≡ slice_index_or v.blocks i (view_block_value result.now) }
        ensures opaque { (v : UnitValue) → IsUnit self.now v → HasNoOpaqueTail result.now }
    {
        &self.blocks.as_slice()[i]
    }
}

/// The frame of a substream among frames that are sorted by it.
fn frame_in<'s, 'a>(frames: &'s [FrameView<'a>], substream: u32) -> Option<&'s FrameView<'a>>
    ensures { AreIncreasing (map view_frame frames.now) → FindsFrame result (frame_with substream (map view_frame frames.now)) }
{
    match frames.binary_search_by_key(&substream, |frame| frame.substream) {
        Ok(i) => Some(&frames[i]),
        Err(_) => None,
    }
}
