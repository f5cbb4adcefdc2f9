//! Subframes of FLAC frames (RFC 9639, section 9.2), read into rows of samples.
#![tactic(auto)]

mod code;
mod constant;
mod content;
mod fixed;
mod kind;
mod linear;
mod partition;
mod predicted;
mod predictor;
mod range;
mod row;
mod scale;
mod subframe;
mod verbatim;

pub use range::{fits, half};
pub use subframe::subframe_from;
