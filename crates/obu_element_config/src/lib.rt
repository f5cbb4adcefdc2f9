//! What the substreams of an audio element are: layers of loudspeaker channels, or ambisonics.
#![tactic(auto)]

mod ambisonics;
mod config;
mod layer;

pub use config::{ElementConfig, put_config, read_config};
pub use layer::{Layer, OutputGain};
