//! What playing a mix for a target asks of audio elements and their layers, and of the parameter blocks of temporal units
//! (IAMF 1.0.0, "Audio Element OBU Syntax and Semantics", "Parameter Block OBU Syntax and Semantics"). Nothing here takes memory.
#![tactic(auto)]

mod blocks;
mod demixing;
mod elements;
mod layers;
mod units;

pub use blocks::{block_mode, goes_above, has_bezier, is_block_of, parts_of};
pub use demixing::{DemixingDefinition, demixing_in, demixing_of};
pub use elements::{is_for_other, is_unknown, lacks_layer, output_count, used_layers};
pub use layers::{has_high_gain, has_recon, layers_up_to, need_parameters};
pub use units::{BlockTest, has_reserved, some_block, unit_mode};
