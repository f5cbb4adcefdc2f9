//! IAMF sequences that are checked as they come in, piece by piece.
#![tactic(auto)]

mod checker;
mod front;
mod open;
mod refusal;
mod walk;

pub use checker::StreamChecker;
