//! The descriptors of an IAMF sequence: their syntax, and what is wrong with bytes that spell none.
#![tactic(auto)]

mod element_laws;
mod fault;
mod laws;
mod mix_laws;
mod tag_laws;

pub use element_laws::{audio_element_law, substream_channels_law};
pub use fault::{DescriptorFault, MixFault};
pub use laws::{codec_config_law, sequence_header_law};
pub use mix_laws::mix_presentation_law;
pub use tag_laws::one_reading_of_tags;
