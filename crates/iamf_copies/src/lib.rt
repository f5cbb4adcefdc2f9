//! Owned copies of payloads, found by borrowed bytes (IAMF 1.0.0, "obu_redundant_copy").
#![tactic(auto)]

mod copies;

pub use copies::{Copies, other_obus_law};
