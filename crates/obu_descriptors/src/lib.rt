//! The descriptors of an IAMF sequence: their records, read from payloads and written canonically.
#![tactic(auto)]

mod audio_element;
mod channels;
mod parameter;

pub use audio_element::AudioElement;
pub use channels::{coded_channels, substream_channels};
pub use obu_codec_config::{
    CodecConfig, Coding, SequenceHeader, codec_config_entry_law, written_codec_config_law,
    written_sequence_header_law,
};
pub use obu_element_config::{ElementConfig, Layer, OutputGain};
pub use obu_timing::{Cadence, DescriptorError, Fixed, Timing, put_timing};
pub use parameter::Param;
pub use spec_descriptors::DescriptorFault;
