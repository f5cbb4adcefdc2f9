//! The frame of a substream: samples one after the other, the channels of each side by side.
ghost use Rattle.std.specs.Prelude.{◌≡◌, ◌+◌, ◌/◌, ◌<◌, ◌≤◌, ◌==◌, IsTrue, length};
ghost use Rattle.spec_samples.specs.Lpcm.{frame_bytes, is_depth, sample_place, sample};

use crate::number::{number_16, number_24, number_32};

/// Whether a frame of `frame_length` samples in `channels` channels, each of `depth` bits, has `length` bytes
/// (IAMF 1.0.0, "LPCM Specific").
///
/// The arguments may have any value: no product wraps.
pub fn fits_frame(depth: u8, frame_length: u32, channels: u32, length: usize) -> bool
    ensures { result ≡ (length == frame_bytes frame_length channels depth) }
{
    let bits = u128::from(frame_length) * u128::from(channels) * u128::from(depth);
    length as u128 == bits / 8
}

/// Sample `n` of channel `c`, both counted from 0, in a frame of `channels` channels (IAMF 1.0.0, "LPCM Specific"):
/// the number in two's complement of `depth` bits whose bytes stand at `(n * channels + c) * (depth / 8)`, the
/// least significant first if `little`, else the most significant first.
///
/// `depth` is 16, 24 or 32. The channel is one of the frame's, and the sample's bytes are among `bytes`. The answer is
/// from `-2^(depth - 1)` to `2^(depth - 1) - 1`.
pub fn sample(bytes: &[u8], little: bool, depth: u8, channels: usize, n: usize, c: usize) -> i32
    requires depth { IsTrue (is_depth depth) }
    requires channel { c < channels }
    requires within { sample_place channels depth n c + depth / 8 ≤ length bytes.now }
    ensures { result ≡ sample bytes.now little depth channels n c }
{
    let size = usize::from(depth / 8);
    let place = (n * channels + c) * size;
    let spelled = &bytes[place..place + size];
    match depth {
        16 => number_16(spelled, little),
        24 => number_24(spelled, little),
        _ => number_32(spelled, little),
    }
}
