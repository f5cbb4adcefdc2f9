//! The report on a sequence.
#![tactic(auto)]

mod laws;

pub use laws::{escaped_law, report_law};
