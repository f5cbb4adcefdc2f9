//! The header of a WAV file (Microsoft, "Multiple Channel Audio Data and WAVE Files").

ghost use Rattle.std.specs.Prelude.{◌≡◌, ◌+◌, ◌*◌, ◌^◌, ◌<◌, ◌≤◌};
ghost use Rattle.spec_waves.specs.Wave.{IsShape, align, data_size, riff_size, riff, format, extension, data_head, header_bytes};
ghost use Rattle.wav_io.specs.Views.{shape_of};

use crate::shape::WaveShape;
use byteorder::{ByteOrder, LittleEndian};

/// `WAVE_FORMAT_EXTENSIBLE`.
const FORMAT_TAG: u16 = 0xfffe;

/// `KSDATAFORMAT_SUBTYPE_PCM`.
const PCM: [u8; 16] = [
    0x01, 0x00, 0x00, 0x00, 0x00, 0x00, 0x10, 0x00, 0x80, 0x00, 0x00, 0xaa, 0x00, 0x38, 0x9b, 0x71,
];

// The bytes of one sample of each channel.
fn block_align(shape: WaveShape) -> u16
    requires { IsShape (shape_of shape) }
    ensures exact { result ≡ align (shape_of shape) }
    ensures small { result ≤ 900 }
{
    shape.channels * u16::from(shape.depth / 8)
}

// The bytes of all samples.
fn data_len(shape: WaveShape) -> u32
    requires { IsShape (shape_of shape) }
    ensures { result ≡ data_size (shape_of shape) }
{
    (shape.frames * u64::from(block_align(shape))) as u32
}

fn riff_bytes(shape: WaveShape) -> [u8; 12]
    requires { IsShape (shape_of shape) }
    ensures { result ≡ riff (shape_of shape) }
{
    let data = data_len(shape);
    let mut bytes = *b"RIFF    WAVE";
    LittleEndian::write_u32(&mut bytes[4..8], 60 + data + data % 2);
    bytes
}

fn format_bytes(shape: WaveShape) -> [u8; 24]
    requires { IsShape (shape_of shape) }
    ensures { result ≡ format (shape_of shape) }
{
    let align = block_align(shape);
    let mut bytes = *b"fmt                     ";
    LittleEndian::write_u32(&mut bytes[4..8], 40);
    LittleEndian::write_u16(&mut bytes[8..10], FORMAT_TAG);
    LittleEndian::write_u16(&mut bytes[10..12], shape.channels);
    LittleEndian::write_u32(&mut bytes[12..16], shape.rate);
    LittleEndian::write_u32(&mut bytes[16..20], shape.rate * u32::from(align));
    LittleEndian::write_u16(&mut bytes[20..22], align);
    LittleEndian::write_u16(&mut bytes[22..24], u16::from(shape.depth));
    bytes
}

fn extension_bytes(shape: WaveShape) -> [u8; 24]
    ensures { result ≡ extension (shape_of shape) }
{
    let mut bytes = [0; 24];
    LittleEndian::write_u16(&mut bytes[0..2], 22);
    LittleEndian::write_u16(&mut bytes[2..4], u16::from(shape.depth));
    LittleEndian::write_u32(&mut bytes[4..8], shape.mask);
    bytes[8..24].copy_from_slice(&PCM);
    bytes
}

fn data_head_bytes(shape: WaveShape) -> [u8; 8]
    requires { IsShape (shape_of shape) }
    ensures { result ≡ data_head (shape_of shape) }
{
    let mut bytes = *b"data    ";
    LittleEndian::write_u32(&mut bytes[4..8], data_len(shape));
    bytes
}

/// The first 68 bytes of the WAV file of a sound: all before its samples. After the samples stands one more byte
/// where theirs are an odd number, which the header counts.
#[tactic(auto, unfolding(spec_waves::specs::Wave::header_bytes))]
pub fn header(shape: WaveShape) -> [u8; 68]
    requires { IsShape (shape_of shape) }
    ensures { result ≡ header_bytes (shape_of shape) }
{
    let mut bytes = [0; 68];
    bytes[0..12].copy_from_slice(&riff_bytes(shape));
    bytes[12..36].copy_from_slice(&format_bytes(shape));
    bytes[36..60].copy_from_slice(&extension_bytes(shape));
    bytes[60..68].copy_from_slice(&data_head_bytes(shape));
    bytes
}
