//! What the OBUs of a sequence say.

ghost use Rattle.std.specs.Prelude.{◌≡◌, ◌<◌, List, [], ◌∷◌, ◌++◌, length, map, OnOk};
ghost use Rattle.std.specs.List.{All};
ghost use Rattle.spec_rules.specs.Admitted.{IsAdmitted};
ghost use Rattle.spec_sequence.specs.Reading.{Entry, values_of, roles};
ghost use Rattle.spec_sequence.specs.ValueRole.{role};
ghost use Rattle.iamf_admission.specs.Numbers.{number_after};
ghost use Rattle.iamf_admission.specs.Taking.{IsSaid, Says};
ghost use Rattle.iamf_sequence.specs.UnitView.{view_unit, IsConsistent, HasNoOpaqueTail, opened, change_last, with_frame, with_block};

use crate::unit::Unit;
use iamf_obu::Content;
use obu_data::{FrameView, ParameterBlock};
use obu_descriptors::{AudioElement, CodecConfig, SequenceHeader};
use obu_mix::MixPresentation;
use std::alloc::{AllocError, Global};

/// What plain OBUs say, by their types.
#[derive(Drop)]
pub(crate) struct Contents<'a> {
    pub(crate) header: Option<SequenceHeader<'a>>,
    pub(crate) codec: Option<CodecConfig<'a>>,
    pub(crate) elements: Vec<AudioElement<'a>>,
    pub(crate) mixes: Vec<MixPresentation<'a>>,
    pub(crate) units: Vec<Unit<'a>>,
}

impl<'a> Contents<'a> {
    ghost use Rattle.iamf_sequence.specs.ContentsView.{AreContents, AddsTo};

    /// Of no OBU.
    pub(crate) fn new(alloc: Global) -> Contents<'a>
        ensures { AreContents result [] }
    {
        Contents {
            header: None,
            codec: None,
            elements: Vec::new(alloc),
            mixes: Vec::new(alloc),
            units: Vec::new(alloc),
        }
    }

    /// Keeps what an OBU says: nothing, where it is a redundant copy. `unit` is the number of the temporal unit of a data
    /// OBU. An `Err` comes only where memory runs out, and then nothing is known.
    pub(crate) fn keep(
        &mut self,
        alloc: Global,
        content: Option<Content<'a>>,
        unit: Option<u64>,
    ) -> Result<(), AllocError>
        ensures { OnOk result ((past : List Entry) (e : Entry) → AreContents self.old (values_of past) → IsAdmitted (roles past) → Says content.entry past e
            → unit ≡ number_after (roles past) (role e.value) → AreContents self.new (values_of past ++ e.value ∷ [])) }
    {
        match content {
            // The number of what is no data OBU is not looked at.
            Some(content) => self.keep_content(alloc, content, unit.unwrap_or(0)),
            None => Ok(()),
        }
    }

    /// Keeps what a plain OBU says; `unit` is the number of the temporal unit of a data OBU. An `Err` comes only where
    /// memory runs out, and then nothing is known.
    fn keep_content(
        &mut self,
        alloc: Global,
        content: Content<'a>,
        unit: u64,
    ) -> Result<(), AllocError>
        ensures { OnOk result ((past : List Entry) (e : Entry) → AreContents self.old (values_of past) → IsAdmitted (roles past) → IsSaid content.entry past e
            → AddsTo unit (roles past) (role e.value) → AreContents self.new (values_of past ++ e.value ∷ [])) }
    {
        match content {
            Content::SequenceHeader(header) => {
                self.header = Some(header);
                Ok(())
            }
            Content::CodecConfig(codec) => {
                self.codec = Some(codec);
                Ok(())
            }
            Content::AudioElement(element) => {
                self.elements.push(Box::into_inner(element))?;
                Ok(())
            }
            Content::MixPresentation(mix) => {
                self.mixes.push(Box::into_inner(mix))?;
                Ok(())
            }
            Content::ParameterBlock(block) => keep_block(&mut self.units, alloc, block, unit),
            Content::TemporalDelimiter(_) => open(&mut self.units, alloc, unit),
            Content::AudioFrame(frame) => keep_frame(&mut self.units, alloc, frame, unit),
            Content::Reserved(_) => Ok(()),
        }
    }
}

/// Makes the unit of the number, unless it is there. An `Err` comes only where memory runs out.
fn open<'a>(units: &mut Vec<Unit<'a>>, alloc: Global, number: u64) -> Result<(), AllocError>
    ensures is { OnOk result (map view_unit units.new.items ≡ opened number (map view_unit units.old.items)) }
    ensures consistent { OnOk result (All IsConsistent units.old.items → All IsConsistent units.new.items) }
    ensures some { OnOk result (0 < length units.new.items) }
{
    if number < units.len() as u64 {
        return Ok(());
    }
    units.push(Unit::new(alloc))?;
    Ok(())
}

/// Puts a block into the unit of the number, which is the last one or the next. An `Err` comes only where memory runs out.
fn keep_block<'a>(
    units: &mut Vec<Unit<'a>>,
    alloc: Global,
    block: ParameterBlock<'a>,
    unit: u64,
) -> Result<(), AllocError>
    ensures is { OnOk result (map view_unit units.new.items ≡ change_last (with_block block.entry) (opened unit (map view_unit units.old.items))) }
    ensures consistent { OnOk result (HasNoOpaqueTail block.entry → All IsConsistent units.old.items → All IsConsistent units.new.items) }
{
    open(units, alloc, unit)?;
    let last = units.as_slice().len() - 1;
    units[last].push_block(block)
}

/// Puts a frame into the unit of the number, which is the last one or the next. An `Err` comes only where memory runs out.
fn keep_frame<'a>(
    units: &mut Vec<Unit<'a>>,
    alloc: Global,
    frame: FrameView<'a>,
    unit: u64,
) -> Result<(), AllocError>
    ensures is { OnOk result (map view_unit units.new.items ≡ change_last (with_frame frame.entry) (opened unit (map view_unit units.old.items))) }
    ensures consistent { OnOk result (All IsConsistent units.old.items → All IsConsistent units.new.items) }
{
    open(units, alloc, unit)?;
    let last = units.as_slice().len() - 1;
    units[last].push_frame(frame)
}
