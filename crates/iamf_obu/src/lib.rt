//! One whole OBU: what it says, read from its payload, and written canonically with its header.
#![tactic(auto)]

mod content;
mod reading;
mod writing;

pub use content::Content;
pub use reading::read_content;
pub use writing::write_obu_of;

/// Why the payload of an OBU is not read.
pub type ContentError = iamf_bits::Unread<spec_values::Fault>;
