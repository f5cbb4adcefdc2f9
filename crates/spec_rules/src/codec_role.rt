use crate::codec::Codec;

/// What the rules look at in a codec config.
#[derive(Clone, Copy, Debug, PartialEq, Eq)]
pub struct CodecRole {
    /// `codec_config_id`.
    pub id: u32,
    /// `num_samples_per_frame`: samples of a channel in a frame, from 1 to 65535.
    pub frame_length: u16,
    /// How frames are coded.
    pub codec: Codec,
    /// Bits of a sample: 16, 24 or 32.
    pub depth: u8,
    /// Samples of a channel in a second.
    pub rate: u32,
}
