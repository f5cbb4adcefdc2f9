//! Parameter blocks and the definitions that they are read by, and audio frames.
#![tactic(auto)]

mod fault;
mod laws;

pub use fault::BlockFault;
pub use laws::{audio_frame_law, parameter_block_law};
