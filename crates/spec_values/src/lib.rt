//! What one OBU says: its payload by its type, its spellings, the canonical one, and the numbers of all refusals.
#![tactic(auto)]

mod fault;
mod laws;

pub use fault::Fault;
pub use laws::{one_canonical, one_payload, one_value};
