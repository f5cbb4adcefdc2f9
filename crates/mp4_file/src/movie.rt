//! What is written into a file.

ghost use Rattle.std.specs.Prelude.{◌≡◌, ◌+◌, ◌≤◌, ◌^◌, length, sum};
ghost use Rattle.mp4_file.specs.Slices.{joined};

/// What is written into a file: the descriptors and the units of a sequence, without delimiters, reserved OBUs and
/// redundant copies, and its numbers. The bytes stay where they are, in as many slices as they lie in.
#[derive(Clone, Copy)]
pub struct Movie<'a> {
    /// The descriptors, one after the other.
    pub descriptors: &'a [&'a [u8]],
    /// The OBUs of the units, one unit after the other.
    pub data: &'a [&'a [u8]],
    /// How many bytes of `data` each unit has.
    pub unit_lengths: &'a [u32],
    /// Samples of a unit, per channel.
    pub frame_length: u32,
    /// Samples of a second, per channel.
    pub sample_rate: u32,
    /// How many samples, per channel, are trimmed at the starts of units, each unit counted once.
    pub trimmed: u64,
    /// How many samples, per channel, are kept of all units.
    pub kept: u64,
    // The units are all of the data.
    pub ghost whole: { sum unit_lengths.now ≡ length (joined data.now) },
    // Few enough that each size and place in the file is a number of 32 bits.
    pub ghost bytes: { length (joined descriptors.now) + length (joined data.now) ≤ 2 ^ 30 },
    pub ghost units: { length unit_lengths.now ≤ 2 ^ 29 },
}
