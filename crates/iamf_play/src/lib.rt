//! Plays a mix of a sequence for a target, temporal unit by temporal unit, into the bytes of a WAV file. All memory is taken
//! before the first unit is played.
#![tactic(auto)]

mod element;
mod gains;
mod mix;
mod player;
mod reserved;
mod reserving;

pub use player::Player;
