//! Which OBU may follow which in an IAMF sequence (IAMF 1.0.0, "IA Sequence Structure", "Temporal Unit", "IA Profiles").
#![tactic(auto)]

mod blocks;
mod channels;
mod clashing;
mod coded;
mod descriptors;
mod finding;
mod open_unit;
mod role;
mod rules;
mod substreams;

pub use role::Role;
pub use rules::Rules;
