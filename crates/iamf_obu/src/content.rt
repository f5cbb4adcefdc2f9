ghost use Rattle.std.specs.Prelude.{◌≡◌};
ghost use Rattle.iamf_obu.specs.ContentView.{type_in};

use obu_data::{FrameView, ParameterBlock};
use obu_descriptors::{AudioElement, CodecConfig, SequenceHeader};
use obu_header::ObuType;
use obu_mix::MixPresentation;

/// What an OBU says, by its type (IAMF 1.0.0, "OBU Header Syntax and Semantics", `obu_type`). The large descriptors stand in
/// boxes, so that a frame is moved as a small value.
#[derive(Drop)]
pub enum Content<'a> {
    /// A sequence header.
    SequenceHeader(SequenceHeader<'a>),
    /// A codec config.
    CodecConfig(CodecConfig<'a>),
    /// An audio element.
    AudioElement(Box<AudioElement<'a>>),
    /// A mix presentation.
    MixPresentation(Box<MixPresentation<'a>>),
    /// A parameter block.
    ParameterBlock(ParameterBlock<'a>),
    /// A temporal delimiter, with the bytes of its payload, which say nothing.
    TemporalDelimiter(&'a [u8]),
    /// An audio frame.
    AudioFrame(FrameView<'a>),
    /// An OBU of a reserved type, with the bytes of its payload, which are not read.
    Reserved(&'a [u8]),
}

impl<'a> Content<'a> {
    /// The type of OBUs that say this.
    pub fn obu_type(&self) -> ObuType
        ensures { result ≡ type_in self.now }
    {
        match self {
            Content::SequenceHeader(_) => ObuType::SequenceHeader,
            Content::CodecConfig(_) => ObuType::CodecConfig,
            Content::AudioElement(_) => ObuType::AudioElement,
            Content::MixPresentation(_) => ObuType::MixPresentation,
            Content::ParameterBlock(_) => ObuType::ParameterBlock,
            Content::TemporalDelimiter(_) => ObuType::TemporalDelimiter,
            Content::AudioFrame(_) => ObuType::AudioFrame,
            Content::Reserved(_) => ObuType::Reserved,
        }
    }
}
