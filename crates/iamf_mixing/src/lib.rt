//! Mixes the elements of a mix presentation, temporal unit by temporal unit: the gains of its ticks, its demixing parameters,
//! the sum of its elements, and the bytes of the mix (IAMF 1.0.0, "Mix Presentation OBU Syntax and Semantics"). Nothing here
//! takes memory.
#![tactic(auto)]

mod blocks;
mod coded;
mod demixing;
mod gains;
mod output;
mod scenes;
mod sums;
mod track;

pub use blocks::gain_block;
pub use coded::{coded_row, read_lpcm};
pub use demixing::{index_after, parameters};
pub use gains::fill_block;
pub use output::{apply_output, put_samples};
pub use scenes::add_scene;
pub use sums::add_layers;
pub use track::GainTrack;
