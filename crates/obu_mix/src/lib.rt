//! Mix presentations: their records, read from payloads and written canonically.
#![tactic(auto)]

mod mix_presentation;
mod reading_back;
mod sub_mix;
mod tag;

pub use mix_presentation::MixPresentation;
pub use obu_loudness::{Anchor, LayoutLoudness};
pub use obu_mix_elements::{MixElement, MixError, MixGain};
pub use reading_back::written_mix_presentation_law;
pub use spec_descriptors::MixFault;
pub use sub_mix::SubMix;
pub use tag::Tag;
