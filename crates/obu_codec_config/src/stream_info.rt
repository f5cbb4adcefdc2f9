//! The metadata blocks of a FLAC stream (RFC 9639, section 8).
ghost use Rattle.std.specs.Prelude.{◌≡◌, ◌+◌, ◌<◌, [], OnOk};
ghost use Rattle.spec_bits.specs.Form.{Blocks};
ghost use Rattle.spec_bits.specs.Cursor.{IsOnByte};
ghost use Rattle.spec_syntax.specs.Syntax.{field};
ghost use Rattle.spec_syntax.specs.Reading.{Gives, read};
ghost use Rattle.spec_descriptors.specs.CodecConfig.{is_rate, is_depth, stream_info};
ghost use Rattle.obu_codec_config.specs.Payloads.{GivesPart};
ghost use Rattle.obu_codec_config.specs.CodecView.{StandsForInfo};

use iamf_bits::View;
use spec_descriptors::DescriptorFault;

// What is used of the first metadata block: whether it is the last, bits a sample, samples a second.
#[derive(Drop)]
pub(crate) struct StreamInfo {
    pub(crate) is_last: bool,
    pub(crate) depth: u8,
    pub(crate) rate: u32,
}

// The sample rates of this profile.
pub(crate) fn is_rate(rate: u32) -> bool
    ensures { result ≡ is_rate rate }
{
    rate == 16000 || rate == 32000 || rate == 44100 || rate == 48000 || rate == 96000
}

// The sample depths of this profile.
pub(crate) fn is_depth(depth: u32) -> bool
    ensures { result ≡ is_depth depth }
{
    depth == 16 || depth == 24 || depth == 32
}

// The first metadata block (RFC 9639, section 8.2).
#[tactic(auto, unfolding(spec_descriptors::specs::CodecConfig::stream_info))]
pub(crate) fn read_stream_info(view: &mut View<'_>) -> Result<StreamInfo, DescriptorFault>
    requires { IsOnByte view.old }
    ensures gives { GivesPart StandsForInfo result view.new (read (λ f. DescriptorFault.Field f) stream_info view.old) }
    ensures on_byte { OnOk result (IsOnByte view.new) }
{
    let is_last = view.take_bits(1)? == 1;
    let block_type = view.take_bits(7)?;
    let block_length = view.take_bits(24)?;
    if block_type != 0 || block_length != 34 {
        return Err(DescriptorFault::FlacConfig);
    }
    let _min_block_size = view.take_bits(16)?;
    let _max_block_size = view.take_bits(16)?;
    let _min_frame_size = view.take_bits(24)?;
    let _max_frame_size = view.take_bits(24)?;
    let rate = view.take_bits(20)?;
    if !is_rate(rate) {
        return Err(DescriptorFault::FlacConfig);
    }
    let _channels_less_one = view.take_bits(3)?;
    let depth = view.take_bits(5)? + 1;
    if !is_depth(depth) {
        return Err(DescriptorFault::FlacConfig);
    }
    let _total_samples_high = view.take_bits(4)?;
    let _total_samples_low = view.take_bits(32)?;
    let _digest = view.take_bytes(16)?;
    Ok(StreamInfo {
        is_last,
        depth: depth as u8,
        rate,
    })
}

// Passes over metadata blocks up to the last (RFC 9639, section 8.1), and gives their bytes.
pub(crate) fn read_blocks<'a>(view: &mut View<'a>) -> Result<&'a [u8], DescriptorFault>
    requires { IsOnByte view.old }
    ensures gives { Gives (λ b. b.now) result view.new (read (λ f. DescriptorFault.Field f) (field Blocks []) view.old) }
    ensures on_byte { OnOk result (IsOnByte view.new) }
{
    let start = view.at();
    'block: loop {
        let head = view.take_bytes(4)?;
        let size = u32::from_be_bytes([0, head[1], head[2], head[3]]) as usize;
        view.take_bytes(size)?;
        if head[0] >= 128 {
            return Ok(view.since(start));
        }
    }
}
