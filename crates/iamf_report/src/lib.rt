//! The report on a sequence: what it says of the descriptors, of the temporal units and of the samples, and its text.
#![tactic(auto)]

mod line;
mod print;
mod summary;
mod tally;

pub use print::report;
pub use summary::Summary;
pub use tally::{Tally, other_obus_law};
