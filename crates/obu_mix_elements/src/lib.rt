//! The elements of a sub-mix, their labels and the gains of mixes.
#![tactic(auto)]

mod mix_element;
mod mix_gain;
mod text;

pub use mix_element::{MixElement, elements_of, put_elements};
pub use mix_gain::{MixGain, mix_gain_of, put_mix_gain};
pub use spec_descriptors::MixFault;
pub use text::{put_texts, texts_of};

/// Why a part of a mix presentation is not read.
pub type MixError = iamf_bits::Unread<MixFault>;
