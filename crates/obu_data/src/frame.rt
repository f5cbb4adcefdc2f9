//! Audio frames (IAMF 1.0.0, "Audio Frame OBU Syntax and Semantics").
ghost use Rattle.std.specs.Prelude.{◌≡◌, ◌≤◌, IfOk};
ghost use Rattle.spec_bits.specs.Bits.{AreBytes};
ghost use Rattle.spec_syntax.specs.Reading.{read, start_of};
ghost use Rattle.spec_blocks.specs.AudioFrame.{audio_frame};
ghost use Rattle.obu_data.specs.FrameReading.{trim_or_none, ReadsFrame, SpellsFrame};

use iamf_bits::{FieldFault, View};
use obu_header::{ObuView, Trim};

/// An audio frame in its buffer.
#[derive(Clone, Copy)]
pub struct FrameView<'a> {
    /// The id of the substream.
    pub substream: u32,
    /// What a player leaves out of the frame.
    pub trim: Trim,
    /// The codec's frame.
    pub bytes: &'a [u8],
}

/// A frame, read field by field.
#[tactic(auto, unfolding(spec_blocks::specs::AudioFrame::audio_frame))]
fn read_from<'a>(obu: &ObuView<'a>) -> Result<FrameView<'a>, FieldFault>
    requires { 5 ≤ obu.now.head.kind }
    ensures reads { ReadsFrame result (read (λ f. f) (audio_frame obu.now.head.kind) (start_of obu.now.payload.now)) }
    ensures below { IfOk result (λ frame. AreBytes frame.bytes.now) }
    ensures trim { IfOk result (λ frame. frame.trim ≡ trim_or_none obu.now.head.trim) }
{
    let mut view = View::whole(obu.payload);
    let substream = if obu.head.kind == 5 {
        view.take_leb()?
    } else {
        u32::from(obu.head.kind - 6)
    };
    let trim = match obu.head.trim {
        Some(trim) => trim,
        None => Trim { end: 0, start: 0 },
    };
    let bytes = view.rest();
    Ok(FrameView {
        substream,
        trim,
        bytes,
    })
}

/// Reads the substream's id and finds the codec's frame. Nothing is copied, and no memory is taken.
///
/// # Errors
///
/// The fault of the id, exactly where the type is 5 and the payload does not begin with a leb128 below 2^32.
#[tactic(auto, using(crate::proofs::Frames::frame_spells))]
pub fn read_frame<'a>(obu: &ObuView<'a>) -> Result<FrameView<'a>, FieldFault>
    requires low { 5 ≤ obu.now.head.kind }
    requires high { obu.now.head.kind ≤ 23 }
    ensures spells { SpellsFrame obu.now result }
    ensures trim { IfOk result (λ frame. frame.trim ≡ trim_or_none obu.now.head.trim) }
    ensures reads { ReadsFrame result (read (λ f. f) (audio_frame obu.now.head.kind) (start_of obu.now.payload.now)) }
    ensures below { IfOk result (λ frame. AreBytes frame.bytes.now) }
{
    read_from(obu)
}
