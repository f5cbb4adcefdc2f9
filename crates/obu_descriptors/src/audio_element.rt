//! The audio element (IAMF 1.0.0, "Audio Element OBU Syntax and Semantics").

ghost use Rattle.std.specs.Prelude.{◌≡◌, [], ◌<◌, ◌^◌, map, length, IfOk, ℕ, ◌++◌, OnOk};
ghost use Rattle.spec_bits.specs.Cursor.{IsOnByte};
ghost use Rattle.spec_syntax.specs.Syntax.{each};
ghost use Rattle.spec_syntax.specs.Reading.{read, start_of};
ghost use Rattle.spec_syntax.specs.Payload.{IsValid, canon};
ghost use Rattle.spec_descriptors.specs.AudioElement.{substream_id_in, element_front, audio_element, type_of};
ghost use Rattle.spec_descriptors.specs.ElementFields.{audio_element_fields, front_of, front_fields};
ghost use Rattle.iamf_bits.specs.Outcome.{ReadsPart};
ghost use Rattle.obu_descriptors.specs.ElementView.{view_front, view_element};
ghost use Rattle.obu_descriptors.specs.ElementReading.{ReadsElement, AnswersElement, ReadsAs};
ghost use Rattle.spec_bits.specs.Bits.{AreBytes, all_bits};
ghost use Rattle.spec_syntax.specs.Fitting.{AllFit};
ghost use Rattle.obu_element_config.specs.ConfigView.{view_config};

use crate::DescriptorError;
use crate::parameter::{Param, put_params, read_params};
use iamf_bits::{Out, View};
use obu_element_config::{ElementConfig, put_config, read_config};
use obu_timing::put_numbers;
use smallvec::SmallVec;
use spec_descriptors::DescriptorFault;
use std::alloc::{AllocError, Global};

/// An audio element: its substreams, its parameters and what they make together.
#[derive(Debug, Drop)]
pub struct AudioElement<'a> {
    /// `audio_element_id`.
    pub id: u32,
    /// `codec_config_id`.
    pub codec: u32,
    /// `audio_substream_id` of each substream.
    pub substreams: SmallVec<u32, 16>,
    /// The parameters, in the order of the payload.
    pub params: SmallVec<Param<'a>, 2>,
    /// The configuration, whose type is `audio_element_type`.
    pub config: ElementConfig<'a>,
    /// The bytes after the configuration.
    pub tail: &'a [u8],
}

/// What stands before the parameters.
#[derive(Drop)]
pub(crate) struct Front {
    id: u32,
    kind: u8,
    codec: u32,
    substreams: SmallVec<u32, 16>,
}

/// The ids of so many substreams.
#[tactic(auto, using(spec_syntax::proofs::Reading::each_steps))]
fn read_substreams(
    alloc: Global,
    view: &mut View<'_>,
    count: u32,
) -> Result<SmallVec<u32, 16>, DescriptorError>
    requires { IsOnByte view.old }
    ensures reads { ReadsPart (λ v. v.items) result view.new (read (λ f. DescriptorFault.Field f) (each count substream_id_in []) view.old) }
    ensures count { IfOk result (λ v. length v.items ≡ count) }
{
    let mut substreams = SmallVec::new(alloc);
    for _ in 0..count {
        let id = view.take_leb()?;
        substreams.push(id)?;
    }
    Ok(substreams)
}

/// What stands before the parameters.
#[tactic(auto, using(spec_syntax::proofs::Reading::read_bind), unfolding(spec_descriptors::specs::AudioElement::element_front))]
fn read_front(alloc: Global, view: &mut View<'_>) -> Result<Front, DescriptorError>
    requires { IsOnByte view.old }
    ensures reads { ReadsPart view_front result view.new (read (λ f. DescriptorFault.Field f) element_front view.old) }
    ensures count { IfOk result (λ front. length front.substreams.items < 2 ^ 32) }
{
    let id = view.take_leb()?;
    let kind = view.take_bits(3)? as u8;
    view.skip_bits(5)?;
    let codec = view.take_leb()?;
    let count = view.take_leb()?;
    let substreams = match read_substreams(alloc, view, count) {
        Ok(substreams) => substreams,
        Err(error) => return Err(error),
    };
    Ok(Front {
        id,
        kind,
        codec,
        substreams,
    })
}

/// All fields, and then the tail.
#[tactic(auto, using(spec_syntax::proofs::Reading::read_bind), unfolding(spec_descriptors::specs::AudioElement::audio_element))]
fn read_fields<'a>(
    alloc: Global,
    view: &mut View<'a>,
    frame_length: u32,
) -> Result<AudioElement<'a>, DescriptorError>
    requires { IsOnByte view.old }
    ensures gives { ReadsElement result (read (λ f. DescriptorFault.Field f) (audio_element frame_length) view.old) }
    ensures tail { IfOk result (λ element. AreBytes element.tail.now) }
{
    let front = match read_front(alloc, view) {
        Ok(front) => front,
        Err(error) => return Err(error),
    };
    let count = view.take_leb()?;
    let params = match read_params(alloc, view, count, frame_length, front.kind) {
        Ok(params) => params,
        Err(error) => return Err(error),
    };
    let substreams = front.substreams.len() as u32;
    let config = match read_config(alloc, view, front.kind, substreams) {
        Ok(config) => config,
        Err(error) => return Err(error),
    };
    let tail = view.rest();
    Ok(AudioElement {
        id: front.id,
        codec: front.codec,
        substreams: front.substreams,
        params,
        config,
        tail,
    })
}

/// `audio_element_type`.
fn type_of(config: &ElementConfig<'_>) -> u8
    ensures { (count : ℕ) → result ≡ type_of (view_config count config.now) }
{
    match config {
        ElementConfig::Scalable { .. } => 0,
        ElementConfig::Mono { .. } => 1,
        ElementConfig::Projection { .. } => 1,
        ElementConfig::Other { kind, .. } => *kind,
    }
}

/// Puts what stands before the parameters.
#[tactic(auto, using(spec_bits::proofs::JoinLaws::joins))]
fn put_front(out: &mut Out, element: &AudioElement<'_>) -> Result<(), AllocError>
    requires used { out.old.used ≡ 0 }
    requires fits { AllFit (front_fields (front_of (view_element element.now))) }
    ensures bits { OnOk result (out.new.bits ≡ out.old.bits ++ canon (front_fields (front_of (view_element element.now)))) }
    ensures used { OnOk result (out.new.used ≡ 0) }
{
    out.put_leb(element.id)?;
    out.put_bits(u32::from(type_of(&element.config)), 3)?;
    out.put_zeros(5)?;
    out.put_leb(element.codec)?;
    put_numbers(out, element.substreams.as_slice())?;
    Ok(())
}

/// Puts all fields, without the tail.
#[tactic(auto, using(spec_bits::proofs::JoinLaws::joins, spec_syntax::proofs::Writing::canon_append, spec_syntax::proofs::Fitting::fit_front, spec_syntax::proofs::Fitting::fit_rest))]
fn put_fields(out: &mut Out, element: &AudioElement<'_>) -> Result<(), AllocError>
    requires used { out.old.used ≡ 0 }
    requires fits { AllFit (audio_element_fields (view_element element.now)) }
    ensures bits { OnOk result (out.new.bits ≡ out.old.bits ++ canon (audio_element_fields (view_element element.now))) }
    ensures used { OnOk result (out.new.used ≡ 0) }
{
    put_front(out, element)?;
    put_params(out, element.params.as_slice())?;
    put_config(out, &element.config, element.substreams.len())?;
    Ok(())
}

impl<'a> AudioElement<'a> {
    /// Reads the payload of an audio element. `frame_length` is the number of ticks in a frame of the codec config that
    /// comes before it, or 0 where there is none.
    ///
    /// `Fault` comes exactly where the payload does not begin with the fields of an audio element, and is the first
    /// fault; `Memory` only where memory runs out, which is asked for only as ids, parameters and layers are read.
    /// What is read is valid, as `write` asks.
    pub fn read(
        alloc: Global,
        payload: &'a [u8],
        frame_length: u32,
    ) -> Result<AudioElement<'a>, DescriptorError>
        ensures exact { AnswersElement frame_length result payload.now }
        ensures valid { IfOk result (λ element. IsValid (audio_element frame_length) audio_element_fields (view_element element)) }
        ensures reads { ReadsElement result (read (λ f. DescriptorFault.Field f) (audio_element frame_length) (start_of payload.now)) }
        ensures tail { IfOk result (λ element. AreBytes element.tail.now) }
    {
        read_fields(alloc, &mut View::whole(payload), frame_length)
    }

    /// Writes the fields of a valid element canonically, without the tail. An error only where memory runs out.
    pub fn write_fields(&self, alloc: Global) -> Result<Vec<u8>, AllocError>
        requires { (frame_length : ℕ) × IsValid (audio_element frame_length) audio_element_fields (view_element self.now) }
        ensures { IfOk result (λ v. all_bits v.items ≡ canon (audio_element_fields (view_element self.now))) }
    {
        let mut out = Out::new(alloc);
        put_fields(&mut out, self)?;
        Ok(out.finish())
    }

    /// Writes the canonical payload: each number in the shortest leb128, reserved bits 0, and then the tail. The element
    /// must be valid for some frame length, as each is that was read; for each such length `read` gives it back. An error
    /// only where memory runs out.
    #[tactic(auto, using(obu_timing::proofs::Spelling::bytes_spelled))]
    pub fn write(&self, alloc: Global) -> Result<Vec<u8>, AllocError>
        requires { (frame_length : ℕ) × IsValid (audio_element frame_length) audio_element_fields (view_element self.now) }
        ensures canonical { IfOk result (λ payload. all_bits payload.items ≡ canon (audio_element_fields (view_element self.now)) ++ all_bits self.now.tail.now) }
        ensures back { IfOk result (λ payload. (frame_length : ℕ) → IsValid (audio_element frame_length) audio_element_fields (view_element self.now) → ReadsAs frame_length self.now payload.items) }
    {
        let mut out = Out::new(alloc);
        put_fields(&mut out, self)?;
        out.put_bytes(self.tail)?;
        Ok(out.finish())
    }
}
