//! Frames of linear PCM (IAMF 1.0.0, "LPCM Specific"): whether a frame has its size, and its samples by place.
#![tactic(auto)]

mod frame;
mod number;

pub use frame::{fits_frame, sample};

#[cfg(test)]
mod tests;
