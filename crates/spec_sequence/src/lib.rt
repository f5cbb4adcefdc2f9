//! IAMF sequences: which OBUs are admitted after others, which bytes are a sequence, what it is made of, and where and why
//! other bytes are refused.
#![tactic(auto)]

mod laws;

pub use laws::{encoded_law, narrow_law, one_answer};
