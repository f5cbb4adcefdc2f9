//! The tables of loudspeaker layouts: their codes, channels and masks, and the channels that a layer of an audio
//! element transmits (IAMF 1.0.0, "Scalable Channel Layout Config Syntax and Semantics"); and the tables of demixing
//! modes, weights and gains. Nothing here takes memory.
#![tactic(auto)]

mod coded;
mod gains;
mod modes;
mod table;
#[cfg(test)]
mod tests;

pub use coded::{Transmitted, new_channels};
pub use gains::gain;
pub use modes::{demix_mode, weight};
pub use spec_gains::DemixMode;
pub use spec_layouts::{Channel, Layout};
pub use table::{channel_at, channel_count, channel_mask, layout};
