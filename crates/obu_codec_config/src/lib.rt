//! Sequence headers and codec configs: their records, read from payloads and written canonically.
#![tactic(auto)]

mod codec_config;
mod reading_back;
mod sequence_header;
mod stream_info;

pub use codec_config::{CodecConfig, Coding};
pub use reading_back::{
    codec_config_entry_law, written_codec_config_law, written_sequence_header_law,
};
pub use sequence_header::SequenceHeader;
pub use spec_descriptors::DescriptorFault;
