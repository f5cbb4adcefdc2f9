//! The shape of some sound.

/// The shape of some sound.
#[derive(Clone, Copy, Debug, PartialEq, Eq)]
pub struct WaveShape {
    /// How many channels, from 1 to 225.
    pub channels: u16,
    /// Which speakers they are (`dwChannelMask`), or 0 where that is not said.
    pub mask: u32,
    /// Samples of a second, per channel, at most 96000.
    pub rate: u32,
    /// Bits of a sample: 16, 24 or 32.
    pub depth: u8,
    /// Samples of a channel.
    pub frames: u64,
}
