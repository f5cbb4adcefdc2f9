//! The coded frames of the codecs.
ghost use Rattle.std.specs.Prelude.{◌≡◌, ◌∷◌, [], IfSome, Some};
ghost use Rattle.std.specs.Option.{option_map};
ghost use Rattle.spec_flac.specs.FirstFault.{first_fault};
ghost use Rattle.spec_rules.specs.Rules.{first_of, when, has_other_length, flac_shape, codec_tests};
ghost use Rattle.spec_values.specs.declared.fault.Fault.TheVariants as fault;
ghost use Rattle.iamf_rules.specs.Coding.{HasRoom, IsDepth, IsChannels, CanDecode, KeepsRoom};

use flac_sub::{FlacFault, FlacShape, decode_frame};
use iamf_bits::Planes;
use lpcm_sub::fits_frame;
use spec_rules::{Codec, CodecRole};
use spec_values::Fault;

/// The shape of the frames of a substream with so many channels, 1 or 2, where the samples have 1 to 32 bits.
fn flac_shape(codec: &CodecRole, channels: u32) -> Option<FlacShape>
    ensures some { IsDepth codec.now.depth → IsChannels channels → result ≡ Some (flac_shape codec.now channels) }
    ensures small { IfSome result (λ shape. IsDepth shape.depth × IsChannels shape.channels × (shape.length ≡ codec.now.frame_length)) }
{
    let is_depth = 1 <= codec.depth && codec.depth <= 32;
    if !is_depth || channels == 0 || channels > 2 {
        return None;
    }
    Some(FlacShape {
        depth: codec.depth,
        rate: codec.rate,
        channels: channels as u8,
        length: u32::from(codec.frame_length),
    })
}

/// The first fault of the bytes as a frame of the shape, which is decoded into the planes where they have room.
fn flac_fault(bytes: &[u8], shape: FlacShape, planes: &mut Planes) -> Option<FlacFault>
    requires depth { IsDepth shape.depth }
    requires channels { IsChannels shape.channels }
    ensures fault { HasRoom (Some planes.old) shape.length → result ≡ first_fault shape bytes.now }
    ensures room { KeepsRoom (Some planes.old) (Some planes.new) }
{
    if planes.channels() < 2 || planes.length() < shape.length as usize {
        return None;
    }
    match decode_frame(bytes, shape, planes) {
        Ok(()) => None,
        Err(fault) => Some(fault),
    }
}

/// What is wrong with the bytes of a frame of FLAC.
fn flac_test(
    codec: &CodecRole,
    channels: u32,
    bytes: &[u8],
    planes: &mut Option<Planes>,
) -> Option<Fault>
    ensures fault { IsDepth codec.now.depth → IsChannels channels → HasRoom planes.old codec.now.frame_length
        → result ≡ option_map fault.Flac (first_fault (flac_shape codec.now channels) bytes.now) }
    ensures room { KeepsRoom planes.old planes.new }
{
    let shape = flac_shape(codec, channels)?;
    match planes {
        Some(planes) => flac_fault(bytes, shape, planes).map(Fault::Flac),
        None => None,
    }
}

/// What is wrong with the bytes of a frame of LPCM.
fn lpcm_test(codec: &CodecRole, channels: u32, bytes: &[u8]) -> Option<Fault>
    ensures { result ≡ when (has_other_length codec.now (Some channels) bytes.now) fault.Lpcm }
{
    if fits_frame(
        codec.depth,
        u32::from(codec.frame_length),
        channels,
        bytes.len(),
    ) {
        return None;
    }
    Some(Fault::Lpcm)
}

/// What is wrong with the bytes of a frame, of a substream whose number of channels may be known. A frame of FLAC is decoded
/// into the planes, where they have two rows of a frame's length.
pub(crate) fn coded_fault(
    codec: &CodecRole,
    channels: Option<u32>,
    bytes: &[u8],
    planes: &mut Option<Planes>,
) -> Option<Fault>
    ensures fault { CanDecode codec.now channels planes.old → result ≡ first_of (codec_tests (codec.now ∷ []) channels bytes.now) }
    ensures room { KeepsRoom planes.old planes.new }
{
    match codec.codec {
        Codec::Flac => {
            let channels = channels?;
            flac_test(codec, channels, bytes, planes)
        }
        Codec::Lpcm => {
            let channels = channels?;
            lpcm_test(codec, channels, bytes)
        }
    }
}
