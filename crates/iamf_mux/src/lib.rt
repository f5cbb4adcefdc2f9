//! IAMF sequences in MP4 files: written into one, and read out of one.
#![tactic(auto)]

mod body;
mod demuxing;
mod draft;
mod gathered;
mod muxing;
mod numbers;
#[cfg(test)]
mod tests;

pub use demuxing::{DemuxError, demux, sequence_track};
pub use muxing::{FileParts, file_parts, mux};
