//! The parameters of an audio element (IAMF 1.0.0, "Audio Element OBU Syntax and Semantics").

ghost use Rattle.std.specs.Prelude.{◌≡◌, [], ◌==◌, map, ◌<◌, ◌^◌, ◌∷◌, ◌++◌, length, OnOk};
ghost use Rattle.std.specs.List.{list_any};
ghost use Rattle.spec_bits.specs.Cursor.{IsOnByte};
ghost use Rattle.spec_syntax.specs.Syntax.{each};
ghost use Rattle.spec_syntax.specs.Reading.{read};
ghost use Rattle.spec_descriptors.specs.AudioElement.{kind_of, is_refused_kind, demixing_definition, recon_gain_definition, extension_definition, parameter_in};
ghost use Rattle.iamf_bits.specs.Outcome.{ReadsPart, TakesPart};
ghost use Rattle.obu_descriptors.specs.ParameterView.{view_param};
ghost use Rattle.spec_bits.specs.Form.{Leb128};
ghost use Rattle.spec_syntax.specs.Payload.{a_field, canon};
ghost use Rattle.spec_syntax.specs.Repetition.{joined};
ghost use Rattle.spec_descriptors.specs.ElementFields.{default_fields, parameter_fields};
ghost use Rattle.spec_syntax.specs.Fitting.{AllFit};

use crate::DescriptorError;
use iamf_bits::{Out, Unread, View};
use obu_timing::{Timing, put_sized, put_timing, read_timing};
use smallvec::SmallVec;
use spec_descriptors::DescriptorFault;
use std::alloc::{AllocError, Global};
use std::default::MadeWith;

/// A parameter that an audio element names.
#[derive(Debug, Drop)]
pub enum Param<'a> {
    /// Demixing, type 1 (IAMF 1.0.0, "Demixing Parameter Definition").
    Demix {
        /// The timing of its blocks.
        timing: Timing,
        /// `dmixp_mode` of units without a block, below 8.
        mode: u8,
        /// `default_w`, the index of the height weight before the first unit, below 16.
        weight: u8,
    },
    /// Recon gains, type 2 (IAMF 1.0.0, "Recon Gain Parameter Definition").
    Recon {
        /// The timing of its blocks.
        timing: Timing,
    },
    /// A parameter of a type above 2, whose definition is kept unread.
    Other {
        /// `param_definition_type`.
        kind: u32,
        /// `param_definition_bytes`.
        bytes: &'a [u8],
    },
}

impl<'a> MadeWith<Global> for Param<'a> {
    fn made_with(_alloc: Global) -> Param<'a> {
        Param::Other {
            kind: 0,
            bytes: &[],
        }
    }
}

/// `param_definition_type`.
fn kind_of(param: &Param<'_>) -> u32
    ensures { result ≡ kind_of (view_param param.now) }
{
    match param {
        Param::Demix { .. } => 1,
        Param::Recon { .. } => 2,
        Param::Other { kind, .. } => *kind,
    }
}

/// Whether a parameter of a type is among these.
fn has_kind(params: &[Param<'_>], kind: u32) -> bool
    ensures { result ≡ list_any (λ p. kind_of (view_param p) == kind) params.now }
{
    params.iter().any(|param| kind_of(param) == kind)
}

/// Whether a type may not stand after the parameters before it, in an element of this type: 0 is none, and 1 and 2
/// stand at most once each, and in scalable elements alone.
#[tactic(auto, using(obu_element_config::proofs::Lists::list_any_map))]
fn is_refused_kind(element_type: u8, before: &[Param<'_>], kind: u32) -> bool
    ensures { result ≡ is_refused_kind element_type (map view_param before.now) kind }
{
    if kind == 0 {
        return true;
    }
    if kind > 2 {
        return false;
    }
    element_type != 0 || has_kind(before, kind)
}

/// A demixing definition with its default mode and weight.
#[tactic(auto, using(spec_syntax::proofs::Reading::read_bind), unfolding(spec_descriptors::specs::AudioElement::demixing_definition))]
fn read_demix<'a>(
    alloc: Global,
    view: &mut View<'a>,
    frame_length: u32,
) -> Result<Param<'a>, DescriptorError>
    requires { IsOnByte view.old }
    ensures { ReadsPart view_param result view.new (read (λ f. DescriptorFault.Field f) (demixing_definition frame_length) view.old) }
{
    let timing = read_timing(alloc, view, frame_length)?;
    let mode = view.take_bits(3)? as u8;
    view.skip_bits(5)?;
    let weight = view.take_bits(4)? as u8;
    view.skip_bits(4)?;
    Ok(Param::Demix {
        timing,
        mode,
        weight,
    })
}

/// A recon-gain definition.
#[tactic(auto, using(spec_syntax::proofs::Reading::read_bind), unfolding(spec_descriptors::specs::AudioElement::recon_gain_definition))]
fn read_recon<'a>(
    alloc: Global,
    view: &mut View<'a>,
    frame_length: u32,
) -> Result<Param<'a>, DescriptorError>
    requires { IsOnByte view.old }
    ensures { ReadsPart view_param result view.new (read (λ f. DescriptorFault.Field f) (recon_gain_definition frame_length) view.old) }
{
    let timing = read_timing(alloc, view, frame_length)?;
    Ok(Param::Recon { timing })
}

/// The definition of a type above 2.
#[tactic(auto, unfolding(spec_descriptors::specs::AudioElement::extension_definition))]
fn read_extension<'a>(view: &mut View<'a>, kind: u32) -> Result<Param<'a>, DescriptorFault>
    requires { IsOnByte view.old }
    ensures { TakesPart view_param result view.new (read (λ f. DescriptorFault.Field f) (extension_definition kind) view.old) }
{
    let size = view.take_leb()?;
    let bytes = view.take_bytes(size as usize)?;
    Ok(Param::Other { kind, bytes })
}

/// A parameter after those before it.
#[tactic(auto, unfolding(spec_descriptors::specs::AudioElement::parameter_in))]
fn read_param<'a>(
    alloc: Global,
    view: &mut View<'a>,
    frame_length: u32,
    element_type: u8,
    after: u32,
    before: &[Param<'a>],
) -> Result<Param<'a>, DescriptorError>
    requires { IsOnByte view.old }
    ensures { ReadsPart view_param result view.new (read (λ f. DescriptorFault.Field f) (parameter_in frame_length element_type after (map view_param before.now)) view.old) }
{
    let kind = view.take_leb()?;
    if is_refused_kind(element_type, before, kind) {
        return Err(DescriptorError::Fault(DescriptorFault::ParamKind));
    }
    if kind == 1 {
        return read_demix(alloc, view, frame_length);
    }
    if kind == 2 {
        return read_recon(alloc, view, frame_length);
    }
    read_extension(view, kind).map_err(Unread::Fault)
}

/// So many parameters.
#[tactic(auto, using(spec_syntax::proofs::Reading::each_steps))]
pub(crate) fn read_params<'a>(
    alloc: Global,
    view: &mut View<'a>,
    count: u32,
    frame_length: u32,
    element_type: u8,
) -> Result<SmallVec<Param<'a>, 2>, DescriptorError>
    requires { IsOnByte view.old }
    ensures { ReadsPart (λ v. map view_param v.items) result view.new (read (λ f. DescriptorFault.Field f) (each count (parameter_in frame_length element_type) []) view.old) }
{
    let mut params = SmallVec::new(alloc);
    for i in 0..count {
        let after = count - (i + 1);
        let param = read_param(
            alloc,
            view,
            frame_length,
            element_type,
            after,
            params.as_slice(),
        )?;
        params.push(param)?;
    }
    Ok(params)
}

#[tactic(auto, using(spec_bits::proofs::JoinLaws::joins))]
fn put_defaults(out: &mut Out, mode: u8, weight: u8) -> Result<(), AllocError>
    requires used { out.old.used ≡ 0 }
    requires mode { mode < 2 ^ 3 }
    requires weight { weight < 2 ^ 4 }
    ensures bits { OnOk result (out.new.bits ≡ out.old.bits ++ canon (default_fields mode weight)) }
    ensures used { OnOk result (out.new.used ≡ 0) }
{
    out.put_bits(u32::from(mode), 3)?;
    out.put_zeros(5)?;
    out.put_bits(u32::from(weight), 4)?;
    out.put_zeros(4)?;
    Ok(())
}

#[tactic(auto, using(spec_bits::proofs::JoinLaws::joins, spec_syntax::proofs::Writing::canon_append, spec_syntax::proofs::Fitting::fit_front, spec_syntax::proofs::Fitting::fit_rest))]
fn put_param(out: &mut Out, param: &Param<'_>) -> Result<(), AllocError>
    requires used { out.old.used ≡ 0 }
    requires fits { AllFit (parameter_fields (view_param param.now)) }
    ensures bits { OnOk result (out.new.bits ≡ out.old.bits ++ canon (parameter_fields (view_param param.now))) }
    ensures used { OnOk result (out.new.used ≡ 0) }
{
    match param {
        Param::Demix {
            timing,
            mode,
            weight,
        } => {
            out.put_leb(1)?;
            put_timing(out, timing)?;
            put_defaults(out, *mode, *weight)?;
        }
        Param::Recon { timing } => {
            out.put_leb(2)?;
            put_timing(out, timing)?;
        }
        Param::Other { kind, bytes } => {
            out.put_leb(*kind)?;
            put_sized(out, bytes)?;
        }
    }
    Ok(())
}

fn put_each(out: &mut Out, params: &[Param<'_>]) -> Result<(), AllocError>
    requires used { out.old.used ≡ 0 }
    requires fits { AllFit (joined parameter_fields (map view_param params.now)) }
    ensures bits { OnOk result (out.new.bits ≡ out.old.bits ++ canon (joined parameter_fields (map view_param params.now))) }
    ensures used { OnOk result (out.new.used ≡ 0) }
{
    for param in params {
        put_param(out, param)?;
    }
    Ok(())
}

/// Puts how many parameters there are, and then each.
#[tactic(auto, using(spec_bits::proofs::JoinLaws::joins, spec_syntax::proofs::Writing::views))]
pub(crate) fn put_params(out: &mut Out, params: &[Param<'_>]) -> Result<(), AllocError>
    requires used { out.old.used ≡ 0 }
    requires fits { AllFit (a_field Leb128 (length (map view_param params.now)) ∷ joined parameter_fields (map view_param params.now)) }
    ensures bits { OnOk result (out.new.bits ≡ out.old.bits ++ canon (a_field Leb128 (length (map view_param params.now)) ∷ joined parameter_fields (map view_param params.now))) }
    ensures used { OnOk result (out.new.used ≡ 0) }
{
    out.put_leb(params.len() as u32)?;
    put_each(out, params)?;
    Ok(())
}
