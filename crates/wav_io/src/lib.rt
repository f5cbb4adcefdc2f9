//! WAV files: their header, and the bytes of their samples. No memory is taken.
#![tactic(auto)]

mod head;
mod sample;
mod shape;
#[cfg(test)]
mod tests;

pub use head::header;
pub use sample::put_sample;
pub use shape::WaveShape;
