ghost use Rattle.std.specs.Prelude.{◌≡◌, ℕ, ◌<◌, List, is_some, IsTrue, IfOk, OnOk, OnErr};
ghost use Rattle.spec_bits.specs.Bits.{all_bits};
ghost use Rattle.spec_syntax.specs.Payload.{canon};
ghost use Rattle.spec_blocks.specs.BlockFieldLists.{frame_fields};
ghost use Rattle.spec_obu.specs.Kinds.{obu_type_of};
ghost use Rattle.spec_obu.specs.Header.{are_allowed};
ghost use Rattle.spec_blocks.specs.Shape.{Definition};
ghost use Rattle.obu_header.specs.View.{head_of};
ghost use Rattle.iamf_obu.specs.ContentView.{type_in, IsValidContent, HasTrims};
ghost use Rattle.iamf_obu.specs.ContentWriting.{context, rest_bytes, IsShort, PutsObu, SpellsFront, SpellsPayload};

use crate::content::Content;
use iamf_bits::{Out, ShortestLeb};
use obu_data::{Definitions, write_block_fields};
use obu_header::{ObuHead, put_obu};
use std::alloc::{AllocError, Global};

/// The id of a frame's substream, where the type does not give it.
#[tactic(auto, unfolding(spec_bits::specs::Form::canonical))]
fn frame_id(kind: u8, substream: u32) -> ShortestLeb
    ensures { all_bits result ≡ canon (frame_fields kind substream) }
{
    if kind == 5 {
        ShortestLeb::new(substream)
    } else {
        ShortestLeb::none()
    }
}

/// The canonical fields of a content, and the tags of a mix presentation. A delimiter and a reserved OBU have none; those
/// of a frame are left out.
fn front_of(
    alloc: Global,
    content: &Content<'_>,
    definitions: &Definitions,
) -> Result<Vec<u8>, AllocError>
    requires { (frame_length : ℕ) × (kind : ℕ) × IsValidContent (context frame_length definitions.now) kind content.now }
    ensures { IfOk result (λ v. SpellsFront content.now v.items) }
{
    match content {
        Content::SequenceHeader(header) => header.write_fields(alloc),
        Content::CodecConfig(codec) => codec.write_fields(alloc),
        Content::AudioElement(element) => element.write_fields(alloc),
        Content::MixPresentation(mix) => mix.write_fields(alloc),
        Content::ParameterBlock(block) => write_block_fields(alloc, definitions, block),
        Content::TemporalDelimiter(_) | Content::AudioFrame(_) | Content::Reserved(_) => {
            Ok(Vec::new(alloc))
        }
    }
}

/// The bytes of a payload after the fields, and after the tags of a mix presentation.
fn rest_of<'a>(content: &Content<'a>) -> &'a [u8]
    requires { (frame_length : ℕ) × (definitions : List Definition) × (kind : ℕ) × IsValidContent (context frame_length definitions) kind content.now }
    ensures { result.now ≡ rest_bytes content.now }
{
    match content {
        Content::SequenceHeader(header) => header.tail,
        Content::CodecConfig(codec) => codec.tail,
        Content::AudioElement(element) => element.tail,
        Content::MixPresentation(mix) => mix.tail,
        Content::ParameterBlock(block) => block.rest(),
        Content::AudioFrame(frame) => frame.bytes,
        Content::TemporalDelimiter(bytes) | Content::Reserved(bytes) => bytes,
    }
}

/// Puts an OBU whose payload is these two parts.
fn put_payload(
    out: &mut Out,
    head: &ObuHead<'_>,
    content: &Content<'_>,
    front: &[u8],
    rest: &[u8],
) -> Result<(), AllocError>
    requires used { out.old.used ≡ 0 }
    requires kind { head.now.kind < 32 }
    requires allowed { let h = head_of head.now in IsTrue (are_allowed (obu_type_of h.kind) h.redundant (is_some h.trim)) }
    requires obu_type { type_in content.now ≡ obu_type_of head.now.kind }
    requires valid { (frame_length : ℕ) × (definitions : List Definition) × IsValidContent (context frame_length definitions) head.now.kind content.now }
    requires short { IsShort (head_of head.now) content.now }
    requires rest { rest.now ≡ rest_bytes content.now }
    requires spells { SpellsPayload head.now.kind content.now front.now rest.now }
    ensures bits { OnOk result (PutsObu (head_of head.now) content.now out.old.bits out.new.bits) }
    ensures used { OnOk result (out.new.used ≡ 0) }
    ensures unchanged { OnErr result (out.new ≡ out.old) }
{
    put_obu(out, head, front, rest)
}

/// Puts one whole OBU with this header in its canonical spelling: each number in the shortest leb128, reserved bits 0. `out`
/// has whole bytes. The content is of the header's type, has its trims, and is valid after descriptors with these
/// definitions, as each is that was read; the whole has at most 2^21 bytes.
///
/// Frames, reserved payloads and tails are copied once, straight into `out`; the fields of a descriptor or a block are
/// first put together, since their number of bytes comes before them. An `Err` comes only where memory runs out, and
/// leaves `out` unchanged.
pub fn write_obu_of(
    alloc: Global,
    out: &mut Out,
    head: &ObuHead<'_>,
    content: &Content<'_>,
    definitions: &Definitions,
) -> Result<(), AllocError>
    requires used { out.old.used ≡ 0 }
    requires kind { head.now.kind < 32 }
    requires allowed { let h = head_of head.now in IsTrue (are_allowed (obu_type_of h.kind) h.redundant (is_some h.trim)) }
    requires obu_type { type_in content.now ≡ obu_type_of head.now.kind }
    requires trims { HasTrims content.now head.now.trim }
    requires valid { (frame_length : ℕ) × IsValidContent (context frame_length definitions.now) head.now.kind content.now }
    requires short { IsShort (head_of head.now) content.now }
    ensures bits { OnOk result (PutsObu (head_of head.now) content.now out.old.bits out.new.bits) }
    ensures used { OnOk result (out.new.used ≡ 0) }
    ensures unchanged { OnErr result (out.new ≡ out.old) }
{
    match content {
        Content::AudioFrame(frame) => {
            let id = frame_id(head.kind, frame.substream);
            put_payload(out, head, content, id.as_slice(), frame.bytes)
        }
        _ => {
            let front = front_of(alloc, content, definitions)?;
            put_payload(out, head, content, front.as_slice(), rest_of(content))
        }
    }
}
