//! Headers of FLAC frames (RFC 9639, section 9.1).
#![tactic(auto)]

mod codes;
mod header;
mod number;
mod shape;

pub use header::header_from;
