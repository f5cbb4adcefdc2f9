//! Tests of playing: what is asked of elements, gains and coded samples, and a player. They stand apart, since a crate with tests
//! is proved twice.
#![tactic(auto)]

#[cfg(test)]
mod elements;
#[cfg(test)]
mod mixing;
#[cfg(test)]
mod players;
