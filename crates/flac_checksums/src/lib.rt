//! The checksums of FLAC frames (RFC 9639, sections 9.1.8 and 9.3), which begin with 0 and have no final change.
#![tactic(auto)]

mod fold;
mod frame_checksum;
mod header_checksum;

pub use frame_checksum::crc16;
pub use header_checksum::crc8;
