//! The admission of one OBU after another: each is read, tested after those before it, and taken in.
#![tactic(auto)]

mod admission;
mod admitted;
mod definitions;
mod kept;
mod parts;
mod role;

pub use admission::Admission;
pub use admitted::Admitted;

/// Why an OBU is not admitted: its first fault, or that memory ran out.
pub type AdmitError = iamf_bits::Unread<spec_values::Fault>;
