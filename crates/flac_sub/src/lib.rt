//! Decodes FLAC frames (RFC 9639, section 9), of one channel or two, at up to 32 bits.
#![tactic(auto)]

ghost use Rattle.std.specs.Prelude.{◌≡◌, ◌<◌, ◌≤◌, ◌⊎◌};
ghost use Rattle.spec_flac.specs.Frame.{IsDecoded};
ghost use Rattle.flac_sub.specs.FrameRows.{rows_of};

mod channels;
mod footer;
mod frame;
mod stereo;
#[cfg(test)]
mod tests;

use crate::frame::{decode_one, decode_two};
use iamf_bits::Planes;
pub use spec_flac::{FlacFault, FlacField, FlacShape};

/// Decodes the bytes, which are one frame of the shape and no more, into the first rows of the planes: the first
/// `shape.length` samples of row 0, and of row 1 where the shape has two channels. It takes no memory.
///
/// The shape has 1 or 2 channels and a depth from 1 to 32 bits; the planes have at least so many rows, of at least
/// `shape.length` samples.
///
/// # Errors
/// Exactly where the bytes are no such frame: the first fault in the order of the bits, or `Tail` where bytes
/// follow the frame. What the planes hold then is not specified; their size stays.
pub fn decode_frame(bytes: &[u8], shape: FlacShape, into: &mut Planes) -> Result<(), FlacFault>
    requires channels { (shape.channels ≡ 1) ⊎ (shape.channels ≡ 2) }
    requires low { 1 ≤ shape.depth }
    requires high { shape.depth ≤ 32 }
    requires rows { shape.channels ≤ into.old.channels }
    requires length { shape.length ≤ into.old.length }
    ensures decoded { IsDecoded result shape bytes.now (rows_of shape into.new) }
    ensures channels { into.new.channels ≡ into.old.channels }
    ensures length { into.new.length ≡ into.old.length }
{
    let count = shape.length as usize;
    let stride = into.length();
    let samples = into.samples_mut();
    if shape.channels == 1 {
        let (row, _others) = samples.split_at_mut(count);
        return decode_one(bytes, shape, row);
    }
    let (first, others) = samples.split_at_mut(stride);
    let (left, _rest) = first.split_at_mut(count);
    let (right, _last) = others.split_at_mut(count);
    decode_two(bytes, shape, left, right)
}
