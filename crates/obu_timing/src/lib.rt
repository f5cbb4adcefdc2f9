//! The timing of parameter definitions, and the forms of numbers and bytes that descriptors share.
#![tactic(auto)]

mod counted;
mod timing;

pub use counted::{put_numbers, put_sized};
pub use spec_descriptors::DescriptorFault;
pub use timing::{Cadence, Fixed, Timing, put_timing, read_timing};

/// Why a part of a descriptor is not read.
pub type DescriptorError = iamf_bits::Unread<DescriptorFault>;
