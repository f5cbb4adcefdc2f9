//! What exact and fixed-point demixing share: the parameters of a demix, an element's layers as demixing sees them, where
//! their channels stand among the coded samples, and the tests of counts that a layer's step asks. Nothing here takes memory.
#![tactic(auto)]

mod conditions;
mod kinds;
mod layers;
mod params;
mod places;
mod reading;

pub use conditions::{are_samples, have_modest_gains, is_chain};
pub use kinds::{
    gives_back, gives_four, gives_three, gives_two, is_reached, kind, leaves_three, splits_two,
};
pub use layers::demix_layer;
pub use params::DemixParams;
pub use reading::{sent_first, sent_next};
