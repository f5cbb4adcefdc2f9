//! Tests of demixing, exact and in fixed point. They stand apart, since a crate with tests is proved twice.
#![tactic(auto)]

#[cfg(test)]
mod chains;
#[cfg(test)]
mod exact;
#[cfg(test)]
mod fixed;
#[cfg(test)]
mod layers;
