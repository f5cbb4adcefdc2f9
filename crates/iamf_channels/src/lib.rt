//! The channels that one audio element gives for a target, temporal unit by temporal unit: its frames are decoded, its demixing
//! parameters are taken on, and its channels at each tick are added to a mix (IAMF 1.0.0, "Audio Element OBU Syntax and
//! Semantics"). All memory is taken before the first unit.
#![tactic(auto)]

mod adding;
mod element_channels;
mod frames;
mod parameters;
mod reserving;

pub use element_channels::ElementChannels;
