//! A sub-mix (IAMF 1.0.0, "Mix Presentation OBU Syntax and Semantics").

ghost use Rattle.std.specs.Prelude.{◌≡◌, [], map};
ghost use Rattle.spec_bits.specs.Cursor.{IsOnByte};
ghost use Rattle.spec_syntax.specs.Syntax.{each};
ghost use Rattle.spec_syntax.specs.Reading.{read};
ghost use Rattle.spec_descriptors.specs.MixPresentation.{sub_mix, sub_mix_in};
ghost use Rattle.iamf_bits.specs.Outcome.{ReadsPart};
ghost use Rattle.obu_mix.specs.SubMixView.{view_sub_mix};
ghost use Rattle.spec_syntax.specs.Repetition.{joined};
ghost use Rattle.spec_descriptors.specs.MixFields.{sub_mix_fields, sub_mixes_fields};
ghost use Rattle.spec_syntax.specs.Fitting.{AllFit};
ghost use Rattle.obu_timing.specs.Writing.{Puts};

use crate::MixError;
use iamf_bits::{Out, View};
use obu_loudness::{LayoutLoudness, loudness_of, put_layouts};
use obu_mix_elements::{MixElement, MixGain, elements_of, mix_gain_of, put_elements, put_mix_gain};
use obu_timing::Timing;
use smallvec::SmallVec;
use spec_descriptors::MixFault;
use std::alloc::{AllocError, Global};
use std::default::MadeWith;

/// Elements that are mixed, and how loud they are together.
#[derive(Debug, Drop)]
pub struct SubMix<'a> {
    /// The elements, in the order of the payload.
    pub elements: SmallVec<MixElement<'a>, 2>,
    /// `output_mix_gain`, which is applied to the sum.
    pub output: MixGain,
    /// The loudness in each layout.
    pub layouts: SmallVec<LayoutLoudness<'a>, 2>,
}

impl<'a> MadeWith<Global> for SubMix<'a> {
    fn made_with(alloc: Global) -> SubMix<'a> {
        SubMix {
            elements: SmallVec::new(alloc),
            output: MixGain {
                timing: Timing {
                    id: 0,
                    rate: 0,
                    fixed: None,
                },
                gain: 0,
            },
            layouts: SmallVec::new(alloc),
        }
    }
}

/// A sub-mix whose elements have so many labels each.
#[tactic(auto, using(spec_syntax::proofs::Reading::read_bind), unfolding(spec_descriptors::specs::MixPresentation::sub_mix))]
fn sub_mix_of<'a>(
    alloc: Global,
    view: &mut View<'a>,
    label_count: u32,
) -> Result<SubMix<'a>, MixError>
    requires { IsOnByte view.old }
    ensures { ReadsPart view_sub_mix result view.new (read (λ f. MixFault.Field f) (sub_mix label_count) view.old) }
{
    let element_count = view.take_leb()?;
    let elements = match elements_of(alloc, view, element_count, label_count) {
        Ok(elements) => elements,
        Err(error) => return Err(error),
    };
    let output = match mix_gain_of(alloc, view) {
        Ok(output) => output,
        Err(error) => return Err(error),
    };
    let layout_count = view.take_leb()?;
    let layouts = match loudness_of(alloc, view, layout_count) {
        Ok(layouts) => layouts,
        Err(error) => return Err(error),
    };
    Ok(SubMix {
        elements,
        output,
        layouts,
    })
}

/// So many sub-mixes whose elements have so many labels each.
#[tactic(auto, using(spec_syntax::proofs::Reading::each_steps))]
pub(crate) fn sub_mixes_of<'a>(
    alloc: Global,
    view: &mut View<'a>,
    count: u32,
    label_count: u32,
) -> Result<SmallVec<SubMix<'a>, 1>, MixError>
    requires { IsOnByte view.old }
    ensures { ReadsPart (λ v. map view_sub_mix v.items) result view.new (read (λ f. MixFault.Field f) (each count (sub_mix_in label_count) []) view.old) }
{
    let mut sub_mixes = SmallVec::new(alloc);
    for _ in 0..count {
        let sub_mix = match sub_mix_of(alloc, view, label_count) {
            Ok(sub_mix) => sub_mix,
            Err(error) => return Err(error),
        };
        sub_mixes.push(sub_mix)?;
    }
    Ok(sub_mixes)
}

/// Puts a sub-mix.
#[tactic(auto, using(spec_bits::proofs::JoinLaws::joins, spec_syntax::proofs::Writing::canon_append, spec_syntax::proofs::Fitting::fit_front, spec_syntax::proofs::Fitting::fit_rest), unfolding(spec_descriptors::specs::MixFields::sub_mix_fields))]
fn put_sub_mix(out: &mut Out, sub_mix: &SubMix<'_>) -> Result<(), AllocError>
    requires used { out.old.used ≡ 0 }
    requires fits { AllFit (sub_mix_fields (view_sub_mix sub_mix.now)) }
    ensures { Puts result out.old out.new (sub_mix_fields (view_sub_mix sub_mix.now)) }
{
    put_elements(out, sub_mix.elements.as_slice())?;
    put_mix_gain(out, &sub_mix.output)?;
    put_layouts(out, sub_mix.layouts.as_slice())?;
    Ok(())
}

/// Puts the sub-mixes one after the other.
fn put_all_sub_mixes(out: &mut Out, sub_mixes: &[SubMix<'_>]) -> Result<(), AllocError>
    requires used { out.old.used ≡ 0 }
    requires fits { AllFit (joined (λ s. sub_mix_fields (view_sub_mix s)) sub_mixes.now) }
    ensures { Puts result out.old out.new (joined (λ s. sub_mix_fields (view_sub_mix s)) sub_mixes.now) }
{
    for sub_mix in sub_mixes {
        put_sub_mix(out, sub_mix)?;
    }
    Ok(())
}

/// Puts how many sub-mixes there are, and these.
#[tactic(auto, using(spec_bits::proofs::JoinLaws::joins, spec_syntax::proofs::Writing::views))]
pub(crate) fn put_sub_mixes(out: &mut Out, sub_mixes: &[SubMix<'_>]) -> Result<(), AllocError>
    requires used { out.old.used ≡ 0 }
    requires fits { AllFit (sub_mixes_fields (map view_sub_mix sub_mixes.now)) }
    ensures { Puts result out.old out.new (sub_mixes_fields (map view_sub_mix sub_mixes.now)) }
{
    out.put_leb(sub_mixes.len() as u32)?;
    put_all_sub_mixes(out, sub_mixes)?;
    Ok(())
}
