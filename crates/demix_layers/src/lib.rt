//! Demixing in exact fractions, the reference that the fixed point is measured by (IAMF 1.0.0, "Scalable Channel Layout Config
//! Syntax and Semantics" and "Demixing Info Parameter Data"). Nothing here takes memory.
#![tactic(auto)]

mod fractions;
mod gathering;
mod rows;
mod samples;
mod scene;
mod steps;
mod units;
mod walk;

pub use demix_channels::DemixParams;
pub use rows::demix_exact;
pub use scene::{scene_exact, valid_scenes_are_whole};
pub use spec_demix::Fraction;
pub use units::to_units;
