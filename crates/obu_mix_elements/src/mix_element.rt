//! An element of a sub-mix (IAMF 1.0.0, "Mix Presentation OBU Syntax and Semantics").

ghost use Rattle.std.specs.Prelude.{◌≡◌, [], map};
ghost use Rattle.spec_bits.specs.Cursor.{IsOnByte};
ghost use Rattle.spec_syntax.specs.Syntax.{each};
ghost use Rattle.spec_syntax.specs.Reading.{read};
ghost use Rattle.spec_descriptors.specs.MixPresentation.{mix_element, mix_element_in};
ghost use Rattle.iamf_bits.specs.Outcome.{ReadsPart};
ghost use Rattle.obu_mix_elements.specs.MixElementView.{view_mix_element};
ghost use Rattle.spec_syntax.specs.Repetition.{joined};
ghost use Rattle.spec_descriptors.specs.MixFields.{rendering_fields, mix_element_fields, elements_fields};
ghost use Rattle.spec_syntax.specs.Fitting.{AllFit};
ghost use Rattle.obu_timing.specs.Writing.{Puts};

use crate::MixError;
use crate::mix_gain::{MixGain, mix_gain_of, put_mix_gain};
use crate::text::{put_texts, texts_of};
use iamf_bits::{Out, View};
use obu_timing::Timing;
use smallvec::SmallVec;
use spec_descriptors::MixFault;
use std::alloc::{AllocError, Global};
use std::default::MadeWith;

/// An audio element in a sub-mix.
#[derive(Debug, Drop)]
pub struct MixElement<'a> {
    /// `audio_element_id`.
    pub element: u32,
    /// `localized_element_annotations`, one for each language of the mix presentation: UTF-8 without zero bytes, of at
    /// most 127 bytes.
    pub labels: SmallVec<&'a [u8], 2>,
    /// `headphones_rendering_mode`, below 4.
    pub mode: u8,
    /// `rendering_config_extension_bytes`.
    pub rendering: &'a [u8],
    /// `element_mix_gain`.
    pub gain: MixGain,
}

impl<'a> MadeWith<Global> for MixElement<'a> {
    fn made_with(alloc: Global) -> MixElement<'a> {
        MixElement {
            element: 0,
            labels: SmallVec::new(alloc),
            mode: 0,
            rendering: &[],
            gain: MixGain {
                timing: Timing {
                    id: 0,
                    rate: 0,
                    fixed: None,
                },
                gain: 0,
            },
        }
    }
}

/// An element with so many labels.
#[tactic(auto, using(spec_syntax::proofs::Reading::read_bind), unfolding(spec_descriptors::specs::MixPresentation::mix_element))]
fn element_of<'a>(
    alloc: Global,
    view: &mut View<'a>,
    label_count: u32,
) -> Result<MixElement<'a>, MixError>
    requires { IsOnByte view.old }
    ensures { ReadsPart view_mix_element result view.new (read (λ f. MixFault.Field f) (mix_element label_count) view.old) }
{
    let element = view.take_leb()?;
    let labels = match texts_of(alloc, view, label_count) {
        Ok(labels) => labels,
        Err(error) => return Err(error),
    };
    let mode = view.take_bits(2)? as u8;
    view.skip_bits(6)?;
    let size = view.take_leb()?;
    let rendering = view.take_bytes(size as usize)?;
    let gain = match mix_gain_of(alloc, view) {
        Ok(gain) => gain,
        Err(error) => return Err(error),
    };
    Ok(MixElement {
        element,
        labels,
        mode,
        rendering,
        gain,
    })
}

/// Reads so many elements with so many labels each.
///
/// `Fault` comes exactly where the payload does not go on with these, and is the first fault; `Memory` only where memory
/// runs out.
#[tactic(auto, using(spec_syntax::proofs::Reading::each_steps))]
pub fn elements_of<'a>(
    alloc: Global,
    view: &mut View<'a>,
    count: u32,
    label_count: u32,
) -> Result<SmallVec<MixElement<'a>, 2>, MixError>
    requires { IsOnByte view.old }
    ensures { ReadsPart (λ v. map view_mix_element v.items) result view.new (read (λ f. MixFault.Field f) (each count (mix_element_in label_count) []) view.old) }
{
    let mut elements = SmallVec::new(alloc);
    for _ in 0..count {
        let element = match element_of(alloc, view, label_count) {
            Ok(element) => element,
            Err(error) => return Err(error),
        };
        elements.push(element)?;
    }
    Ok(elements)
}

/// Puts how an element is rendered.
#[tactic(auto, using(spec_bits::proofs::JoinLaws::joins))]
fn put_rendering(out: &mut Out, element: &MixElement<'_>) -> Result<(), AllocError>
    requires used { out.old.used ≡ 0 }
    requires fits { AllFit (rendering_fields (view_mix_element element.now)) }
    ensures { Puts result out.old out.new (rendering_fields (view_mix_element element.now)) }
{
    out.put_bits(u32::from(element.mode), 2)?;
    out.put_zeros(6)?;
    out.put_leb(element.rendering.len() as u32)?;
    out.put_bytes(element.rendering)?;
    Ok(())
}

/// Puts an element.
#[tactic(auto, using(spec_bits::proofs::JoinLaws::joins, spec_syntax::proofs::Writing::canon_append, spec_syntax::proofs::Writing::views, spec_syntax::proofs::Fitting::fit_front, spec_syntax::proofs::Fitting::fit_rest), unfolding(spec_descriptors::specs::MixFields::mix_element_fields))]
fn put_element(out: &mut Out, element: &MixElement<'_>) -> Result<(), AllocError>
    requires used { out.old.used ≡ 0 }
    requires fits { AllFit (mix_element_fields (view_mix_element element.now)) }
    ensures { Puts result out.old out.new (mix_element_fields (view_mix_element element.now)) }
{
    out.put_leb(element.element)?;
    put_texts(out, element.labels.as_slice())?;
    put_rendering(out, element)?;
    put_mix_gain(out, &element.gain)?;
    Ok(())
}

/// Puts the elements one after the other.
fn put_all_elements(out: &mut Out, elements: &[MixElement<'_>]) -> Result<(), AllocError>
    requires used { out.old.used ≡ 0 }
    requires fits { AllFit (joined (λ e. mix_element_fields (view_mix_element e)) elements.now) }
    ensures { Puts result out.old out.new (joined (λ e. mix_element_fields (view_mix_element e)) elements.now) }
{
    for element in elements {
        put_element(out, element)?;
    }
    Ok(())
}

/// Puts how many elements there are, and these. An error only where memory runs out.
#[tactic(auto, using(spec_bits::proofs::JoinLaws::joins, spec_syntax::proofs::Writing::views))]
pub fn put_elements(out: &mut Out, elements: &[MixElement<'_>]) -> Result<(), AllocError>
    requires used { out.old.used ≡ 0 }
    requires fits { AllFit (elements_fields (map view_mix_element elements.now)) }
    ensures { Puts result out.old out.new (elements_fields (map view_mix_element elements.now)) }
{
    out.put_leb(elements.len() as u32)?;
    put_all_elements(out, elements)?;
    Ok(())
}
