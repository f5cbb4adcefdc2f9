/// How many samples of a channel an audio frame loses (IAMF 1.0.0, "OBU Header Syntax and Semantics").
#[derive(Clone, Copy, Debug, PartialEq, Eq)]
pub struct Trim {
    /// `num_samples_to_trim_at_end`.
    pub end: u32,
    /// `num_samples_to_trim_at_start`.
    pub start: u32,
}
