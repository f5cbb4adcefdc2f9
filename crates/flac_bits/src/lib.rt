//! Fields of a FLAC frame, read at a place of its bits.
#![tactic(auto)]

mod near;
mod reader;
mod rice;
mod window;

pub use near::Near;
pub use reader::Reader;
