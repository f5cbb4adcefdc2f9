ghost use Rattle.std.specs.Prelude.{◌≡◌, ℕ, ◌≤◌, IfOk};
ghost use Rattle.spec_obu.specs.Kinds.{obu_type_of};
ghost use Rattle.spec_obu.specs.declared.obu_type.ObuType.TheVariants as types;
ghost use Rattle.spec_values.specs.Content.{Context};
ghost use Rattle.iamf_obu.specs.ContentView.{type_in, IsValidContent, HasTrims};
ghost use Rattle.iamf_obu.specs.ContentReading.{ReadsContent};

use crate::ContentError;
use crate::content::Content;
use iamf_bits::{Unread, as_bytes_below_256};
use obu_data::{Definitions, read_block, read_frame};
use obu_descriptors::{AudioElement, CodecConfig, SequenceHeader};
use obu_header::{ObuType, ObuView};
use obu_mix::MixPresentation;
use spec_values::Fault;
use std::alloc::Global;

fn read_sequence_header<'a>(payload: &'a [u8]) -> Result<Content<'a>, ContentError>
    ensures reads { (context : Context) (kind : ℕ) → ReadsContent context kind types.SequenceHeader payload.now result }
    ensures valid { (context : Context) (kind : ℕ) → IfOk result (λ content. IsValidContent context kind content) }
    ensures obu_type { IfOk result (λ content. type_in content ≡ types.SequenceHeader) }
{
    match SequenceHeader::read(payload) {
        Ok(header) => Ok(Content::SequenceHeader(header)),
        Err(fault) => Err(Unread::Fault(Fault::Descriptor(fault))),
    }
}

fn read_codec_config<'a>(payload: &'a [u8]) -> Result<Content<'a>, ContentError>
    ensures reads { (context : Context) (kind : ℕ) → ReadsContent context kind types.CodecConfig payload.now result }
    ensures valid { (context : Context) (kind : ℕ) → IfOk result (λ content. IsValidContent context kind content) }
    ensures obu_type { IfOk result (λ content. type_in content ≡ types.CodecConfig) }
{
    match CodecConfig::read(payload) {
        Ok(codec) => Ok(Content::CodecConfig(codec)),
        Err(fault) => Err(Unread::Fault(Fault::Descriptor(fault))),
    }
}

fn read_audio_element<'a>(
    alloc: Global,
    payload: &'a [u8],
    frame_length: u32,
) -> Result<Content<'a>, ContentError>
    ensures reads { (context : Context) (kind : ℕ) → context.frame_length ≡ frame_length → ReadsContent context kind types.AudioElement payload.now result }
    ensures valid { (context : Context) (kind : ℕ) → context.frame_length ≡ frame_length → IfOk result (λ content. IsValidContent context kind content) }
    ensures obu_type { IfOk result (λ content. type_in content ≡ types.AudioElement) }
{
    match AudioElement::read(alloc, payload, frame_length) {
        Ok(element) => Ok(Content::AudioElement(Box::new(alloc, element)?)),
        Err(error) => Err(error.map_fault(Fault::Descriptor)),
    }
}

fn read_mix_presentation<'a>(alloc: Global, payload: &'a [u8]) -> Result<Content<'a>, ContentError>
    ensures reads { (context : Context) (kind : ℕ) → ReadsContent context kind types.MixPresentation payload.now result }
    ensures valid { (context : Context) (kind : ℕ) → IfOk result (λ content. IsValidContent context kind content) }
    ensures obu_type { IfOk result (λ content. type_in content ≡ types.MixPresentation) }
{
    match MixPresentation::read(alloc, payload) {
        Ok(mix) => Ok(Content::MixPresentation(Box::new(alloc, mix)?)),
        Err(error) => Err(error.map_fault(Fault::Mix)),
    }
}

fn read_parameter_block<'a>(
    alloc: Global,
    definitions: &Definitions,
    payload: &'a [u8],
) -> Result<Content<'a>, ContentError>
    ensures reads { (context : Context) (kind : ℕ) → context.definitions ≡ definitions.now → ReadsContent context kind types.ParameterBlock payload.now result }
    ensures valid { (context : Context) (kind : ℕ) → context.definitions ≡ definitions.now → IfOk result (λ content. IsValidContent context kind content) }
    ensures obu_type { IfOk result (λ content. type_in content ≡ types.ParameterBlock) }
{
    match read_block(alloc, definitions, payload) {
        Ok(block) => Ok(Content::ParameterBlock(block)),
        Err(error) => Err(error.map_fault(Fault::Block)),
    }
}

fn read_audio_frame<'a>(view: &ObuView<'a>) -> Result<Content<'a>, ContentError>
    requires low { 5 ≤ view.now.head.kind }
    requires high { view.now.head.kind ≤ 23 }
    ensures reads { (context : Context) → ReadsContent context view.now.head.kind types.AudioFrame view.now.payload.now result }
    ensures valid { (context : Context) → IfOk result (λ content. IsValidContent context view.now.head.kind content) }
    ensures obu_type { IfOk result (λ content. type_in content ≡ types.AudioFrame) }
    ensures trims { IfOk result (λ content. HasTrims content view.now.head.trim) }
{
    match read_frame(view) {
        Ok(frame) => Ok(Content::AudioFrame(frame)),
        Err(fault) => Err(Unread::Fault(Fault::Frame(fault))),
    }
}

/// Reads what an OBU says, by its type. `frame_length` is that of the codec config before it, or 0 without one, and the
/// definitions are those before it.
///
/// `Fault` comes exactly where the payload says nothing, and is the first fault of its fields; `Memory` only where memory
/// runs out, and never of a sequence header, a codec config, a delimiter, a frame or a reserved OBU. What is read is
/// valid, as `write_obu_of` asks.
pub fn read_content<'a>(
    alloc: Global,
    view: &ObuView<'a>,
    frame_length: u32,
    definitions: &Definitions,
) -> Result<Content<'a>, ContentError>
    ensures reads { ReadsContent (record { frame_length = frame_length; definitions = definitions.now }) view.now.head.kind (obu_type_of view.now.head.kind) view.now.payload.now result }
    ensures valid { IfOk result (λ content. IsValidContent (record { frame_length = frame_length; definitions = definitions.now }) view.now.head.kind content) }
    ensures obu_type { IfOk result (λ content. type_in content ≡ obu_type_of view.now.head.kind) }
    ensures trims { IfOk result (λ content. HasTrims content view.now.head.trim) }
{
    let payload = as_bytes_below_256(view.payload);
    match view.head.obu_type() {
        ObuType::SequenceHeader => read_sequence_header(payload),
        ObuType::CodecConfig => read_codec_config(payload),
        ObuType::AudioElement => read_audio_element(alloc, payload, frame_length),
        ObuType::MixPresentation => read_mix_presentation(alloc, payload),
        ObuType::ParameterBlock => read_parameter_block(alloc, definitions, payload),
        ObuType::TemporalDelimiter => Ok(Content::TemporalDelimiter(payload)),
        ObuType::AudioFrame => read_audio_frame(view),
        ObuType::Reserved => Ok(Content::Reserved(payload)),
    }
}
