ghost use Rattle.std.specs.Prelude.{◌≡◌, ◌++◌, OnOk, IfOk};
ghost use Rattle.spec_bits.specs.Bits.{AreBytes, all_bits};
ghost use Rattle.spec_bits.specs.Cursor.{IsOnByte};
ghost use Rattle.spec_syntax.specs.Payload.{IsValid, canon};
ghost use Rattle.spec_syntax.specs.Reading.{read, start_of};
ghost use Rattle.spec_descriptors.specs.CodecConfig.{CodecConfigFields, lpcm_config, flac_config, codec_config};
ghost use Rattle.spec_descriptors.specs.DescriptorFields.{codec_config_fields};
ghost use Rattle.obu_codec_config.specs.Payloads.{GivesEntry, GivesPart};
ghost use Rattle.obu_codec_config.specs.WrittenPayloads.{AnswersCodec};
ghost use Rattle.obu_codec_config.specs.CodecView.{StandsForCoding, StandsForCodec};
ghost use Rattle.obu_codec_config.specs.CodecWriting.{codec_id_written, coding_written, config_written};

use crate::stream_info::{is_depth, is_rate, read_blocks, read_stream_info};
use iamf_bits::{Out, View};
use spec_descriptors::DescriptorFault;
use std::alloc::{AllocError, Global};

/// How the samples are coded.
#[derive(Clone, Copy, Debug, PartialEq, Eq)]
pub enum Coding<'a> {
    /// Linear PCM (IAMF 1.0.0, "LPCM Specific").
    Lpcm {
        /// The least significant byte of a sample comes first.
        little: bool,
        /// Bits of a sample: 16, 24 or 32.
        depth: u8,
        /// Samples a second: 16000, 32000, 44100, 48000 or 96000.
        rate: u32,
    },
    /// FLAC (IAMF 1.0.0, "FLAC Specific"; RFC 9639, section 8).
    Flac {
        /// The bytes of all metadata blocks.
        blocks: &'a [u8],
        /// Bits of a sample, from the first block: 16, 24 or 32.
        depth: u8,
        /// Samples a second, from the first block: 16000, 32000, 44100, 48000 or 96000.
        rate: u32,
    },
}

/// A codec config (IAMF 1.0.0, "Codec Config OBU Syntax and Semantics").
#[derive(Clone, Copy, Debug, PartialEq, Eq)]
pub struct CodecConfig<'a> {
    /// The id by which audio elements name it.
    pub id: u32,
    /// Samples of a channel in a frame: 1 to 65535.
    pub frame_length: u32,
    /// The codec and its settings.
    pub coding: Coding<'a>,
    /// The bytes of the payload after the known fields.
    pub tail: &'a [u8],
}

#[tactic(auto, unfolding(spec_descriptors::specs::CodecConfig::lpcm_config))]
fn read_lpcm<'a>(view: &mut View<'a>) -> Result<Coding<'a>, DescriptorFault>
    requires { IsOnByte view.old }
    ensures gives { GivesPart StandsForCoding result view.new (read (λ f. DescriptorFault.Field f) lpcm_config view.old) }
    ensures on_byte { OnOk result (IsOnByte view.new) }
{
    let flags = view.take_bits(8)?;
    if flags > 1 {
        return Err(DescriptorFault::LpcmConfig);
    }
    let depth = view.take_bits(8)?;
    if !is_depth(depth) {
        return Err(DescriptorFault::LpcmConfig);
    }
    let rate = view.take_bits(32)?;
    if !is_rate(rate) {
        return Err(DescriptorFault::LpcmConfig);
    }
    Ok(Coding::Lpcm {
        little: flags == 1,
        depth: depth as u8,
        rate,
    })
}

#[tactic(auto, using(spec_syntax::proofs::Reading::read_bind), unfolding(spec_descriptors::specs::CodecConfig::flac_config))]
fn read_flac<'a>(view: &mut View<'a>) -> Result<Coding<'a>, DescriptorFault>
    requires { IsOnByte view.old }
    ensures gives { GivesPart StandsForCoding result view.new (read (λ f. DescriptorFault.Field f) flac_config view.old) }
    ensures on_byte { OnOk result (IsOnByte view.new) }
{
    let start = view.at();
    let info = read_stream_info(view)?;
    if !info.is_last {
        read_blocks(view)?;
    }
    Ok(Coding::Flac {
        blocks: view.since(start),
        depth: info.depth,
        rate: info.rate,
    })
}

fn codec_id(coding: &Coding<'_>) -> u32
    ensures { result ≡ codec_id_written coding.now }
{
    match coding {
        Coding::Lpcm { .. } => 0x6970_636d,
        Coding::Flac { .. } => 0x664c_6143,
    }
}

#[tactic(auto, using(spec_bits::proofs::JoinLaws::joins, obu_timing::proofs::Spelling::bytes_spelled))]
fn put_coding(out: &mut Out, coding: &Coding<'_>) -> Result<(), AllocError>
    requires { out.old.used ≡ 0 }
    ensures bits { OnOk result (out.new.bits ≡ out.old.bits ++ coding_written coding.now) }
    ensures used { OnOk result (out.new.used ≡ 0) }
{
    match coding {
        Coding::Lpcm {
            little,
            depth,
            rate,
        } => {
            out.put_bits(u32::from(*little), 8)?;
            out.put_bits(u32::from(*depth), 8)?;
            out.put_bits(*rate, 32)?;
        }
        Coding::Flac { blocks, .. } => out.put_bytes(blocks)?,
    }
    Ok(())
}

impl<'a> CodecConfig<'a> {
    /// Reads a payload. An error exactly where the payload begins with no codec config: the fault of its
    /// first field that cannot be read or is not allowed.
    pub fn read(payload: &'a [u8]) -> Result<CodecConfig<'a>, DescriptorFault>
        ensures exact { AnswersCodec result payload.now }
        ensures valid { IfOk result (λ r. (c : CodecConfigFields) × StandsForCodec r c × IsValid codec_config codec_config_fields c) }
        ensures reads { GivesEntry StandsForCodec (λ c. c.tail.now) result (read (λ f. DescriptorFault.Field f) codec_config (start_of payload.now)) }
        ensures tail { IfOk result (λ c. AreBytes c.tail.now) }
    {
        CodecConfig::read_from(&mut View::whole(payload))
    }

    #[tactic(auto, using(spec_syntax::proofs::Reading::read_bind), unfolding(spec_descriptors::specs::CodecConfig::codec_config))]
    fn read_from(view: &mut View<'a>) -> Result<CodecConfig<'a>, DescriptorFault>
        requires { IsOnByte view.old }
        ensures gives { GivesEntry StandsForCodec (λ c. c.tail.now) result (read (λ f. DescriptorFault.Field f) codec_config view.old) }
        ensures tail { IfOk result (λ c. AreBytes c.tail.now) }
    {
        let id = view.take_leb()?;
        let codec_id = view.take_bits(32)?;
        if codec_id == 0x4f70_7573 {
            return Err(DescriptorFault::Opus);
        }
        if codec_id == 0x6d70_3461 {
            return Err(DescriptorFault::Aac);
        }
        if codec_id != 0x664c_6143 && codec_id != 0x6970_636d {
            return Err(DescriptorFault::CodecOther);
        }
        let frame_length = view.take_leb()?;
        if frame_length == 0 || frame_length > 65535 {
            return Err(DescriptorFault::FrameLength);
        }
        if view.take_i16()? != 0 {
            return Err(DescriptorFault::Roll);
        }
        let coding = if codec_id == 0x664c_6143 {
            read_flac(view)?
        } else {
            read_lpcm(view)?
        };
        Ok(CodecConfig {
            id,
            frame_length,
            coding,
            tail: view.rest(),
        })
    }

    #[tactic(auto, using(spec_bits::proofs::JoinLaws::joins))]
    fn put_fields(&self, out: &mut Out) -> Result<(), AllocError>
        requires { out.old.used ≡ 0 }
        ensures bits { OnOk result (out.new.bits ≡ out.old.bits ++ config_written self.now) }
        ensures used { OnOk result (out.new.used ≡ 0) }
    {
        out.put_leb(self.id)?;
        out.put_bits(codec_id(&self.coding), 32)?;
        out.put_leb(self.frame_length)?;
        out.put_i16(0)?;
        put_coding(out, &self.coding)?;
        Ok(())
    }

    /// Writes the fields of a valid record canonically, without the tail. An error only where memory runs out.
    pub fn write_fields(&self, alloc: Global) -> Result<Vec<u8>, AllocError>
        ensures { IfOk result (λ v. (c : CodecConfigFields) → StandsForCodec self.now c → all_bits v.items ≡ canon (codec_config_fields c)) }
    {
        let mut out = Out::new(alloc);
        self.put_fields(&mut out)?;
        Ok(out.finish())
    }

    /// Writes the canonical payload of a valid record: the fields in their shortest spelling, the metadata blocks
    /// as they are, and then the tail. An error only where memory runs out.
    pub fn write(&self, alloc: Global) -> Result<Vec<u8>, AllocError>
        requires { (c : CodecConfigFields) × StandsForCodec self.now c × IsValid codec_config codec_config_fields c }
        ensures { IfOk result (λ v. (c : CodecConfigFields) → StandsForCodec self.now c → all_bits v.items ≡ canon (codec_config_fields c) ++ all_bits self.now.tail.now) }
    {
        let mut out = Out::new(alloc);
        self.put_fields(&mut out)?;
        out.put_bytes(self.tail)?;
        Ok(out.finish())
    }
}
