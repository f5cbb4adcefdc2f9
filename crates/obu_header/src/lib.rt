//! The header of an OBU: read from a buffer, and written canonically.
#![tactic(auto)]

mod first_byte;
mod head;
mod reading;
#[cfg(test)]
mod tests;
mod view;
mod writing;

pub use head::ObuHead;
pub use reading::read_obu;
pub use spec_obu::{HeaderFault, ObuType, Trim};
pub use view::ObuView;
pub use writing::{put_obu, write_obu};
