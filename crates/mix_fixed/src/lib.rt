//! Demixing, gains and rounding in fixed point, in units of 1/2^28 (IAMF 1.0.0, "Scalable Channel Layout Config Syntax and
//! Semantics", "Demixing Info Parameter Data" and "Mix Gain Parameter Data"). Nothing here takes memory.
#![tactic(auto)]

mod floors;
mod gathering;
mod kernel;
mod narrow;
mod origins;
mod output;
mod pairs;
mod ratios;
mod samples;
mod scaled;
mod steps;

pub use demix_channels::DemixParams;
pub use kernel::Kernel;
pub use output::{apply_gain, round_clip};
