//! What is written of a sequence.

ghost use Rattle.std.specs.Prelude.{◌≡◌, ℕ, List};
ghost use Rattle.spec_bodies.specs.SequenceFile.{IsFileOf};
ghost use Rattle.spec_files.specs.MovieFile.{file};
ghost use Rattle.mp4_file.specs.Slices.{joined};
ghost use Rattle.mp4_file.specs.Views.{movie_of};

use mp4_file::Movie;

/// The body of a sequence as slices of its bytes, and what a file tells of its samples.
#[derive(Drop)]
pub struct Body<'a> {
    pub descriptors: Vec<&'a [u8]>,
    /// The frames and the blocks of all units. What lies end to end is one slice.
    pub units: Vec<&'a [u8]>,
    /// How many bytes each unit has.
    pub unit_lengths: Vec<u32>,
    /// Samples of a unit, per channel.
    pub frame_length: u32,
    /// Samples of a second, per channel.
    pub sample_rate: u32,
    /// How many samples, per channel, are trimmed at the starts of units.
    pub trimmed: u64,
    /// How many samples, per channel, no trim leaves out.
    pub kept: u64,
}

impl<'a> Body<'a> {
    ghost use Rattle.iamf_mux.specs.BodyView.{IsBodyOf};

    /// The file that is written.
    pub fn movie(&self) -> Movie<'_>
        requires { (bytes : List ℕ) × IsBodyOf self.now bytes }
        ensures file { (bytes : List ℕ) → IsBodyOf self.now bytes → IsFileOf bytes (file (movie_of result)) }
        ensures pieces { joined result.«data».now ≡ joined self.now.units.items }
    {
        Movie {
            descriptors: &self.descriptors,
            data: &self.units,
            unit_lengths: &self.unit_lengths,
            frame_length: self.frame_length,
            sample_rate: self.sample_rate,
            trimmed: self.trimmed,
            kept: self.kept,
        }
    }
}
