//! Which mixes of a sequence are played for a target, by the rules over the descriptors and the blocks (IAMF 1.0.0, "Mix
//! Presentation OBU Syntax and Semantics"). Nothing here takes memory.
#![tactic(auto)]

mod asking;
mod candidate;
mod elements;
mod lookup;
mod plan;
mod selecting;
mod selection;
mod shapes;

pub use plan::Plan;
pub use selecting::select;
pub use spec_play::{PlayFault, Target};
