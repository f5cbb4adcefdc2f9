//! The parameter definitions of audio elements and of mix presentations (IAMF 1.0.0, "Parameter Definition Syntax and
//! Semantics").

ghost use Rattle.std.specs.Prelude.{◌≡◌, ◌≤◌, ◌<◌, ◌^◌, ℕ, List, [], ◌∷◌, map, length, option_map, OnOk, IfOk};
ghost use Rattle.std.specs.List.{All, flat_map};
ghost use Rattle.spec_syntax.specs.Payload.{IsValid};
ghost use Rattle.spec_descriptors.specs.Layers.{LayerFields};
ghost use Rattle.spec_descriptors.specs.AudioElement.{Demixing, ReconGain, audio_element};
ghost use Rattle.spec_descriptors.specs.ElementFields.{audio_element_fields};
ghost use Rattle.spec_sequence.specs.ValueRole.{layers_of, recon_flags_of, element_definition, gain_definition, sub_mix_definitions};
ghost use Rattle.spec_sequence.specs.ValueRole as roles;
ghost use Rattle.obu_timing.specs.TimingView.{view_fixed, view_timing};
ghost use Rattle.obu_element_config.specs.LayerView.{view_layer};
ghost use Rattle.obu_descriptors.specs.ParameterView.{view_param};
ghost use Rattle.obu_element_config.specs.ConfigView.{view_config};
ghost use Rattle.obu_descriptors.specs.ElementView.{view_element};
ghost use Rattle.obu_mix_elements.specs.MixGainView.{view_mix_gain};
ghost use Rattle.obu_mix.specs.SubMixView.{view_sub_mix};
ghost use Rattle.obu_mix.specs.MixView.{view_mix};
ghost use Rattle.obu_data.specs.DefinitionView.{view_definition};
ghost use Rattle.obu_data.specs.ShapeView.{view_shape, MayDefine, LastsAFrame};
ghost use Rattle.iamf_admission.specs.Defining.{Defines, one_definition, CanDefine};

use obu_data::{Definition, Shape};
use obu_descriptors::{AudioElement, ElementConfig, Layer, Param, Timing};
use obu_mix::{MixElement, MixGain, MixPresentation, SubMix};
use std::alloc::{AllocError, Global};

/// Puts one definition last.
fn add(definitions: &mut Vec<Definition>, id: u32, shape: Shape) -> Result<(), AllocError>
    requires { MayDefine shape }
    ensures { OnOk result (Defines definitions.old.items definitions.new.items (one_definition id (view_shape shape))) }
{
    definitions.push(Definition { id, shape })?;
    Ok(())
}

/// The recon flags of layers, bit i for layer i.
fn recon_flags(layers: &[Layer]) -> u8
    requires { length layers.now ≤ 6 }
    ensures flags { result ≡ recon_flags_of (map view_layer layers.now) }
    ensures below { result < 2 ^ length layers.now }
{
    match layers {
        [] => 0,
        [first, rest @ ..] => {
            let flags = 2 * recon_flags(rest);
            if first.recon { flags + 1 } else { flags }
        }
    }
}

fn add_demixing(
    alloc: Global,
    definitions: &mut Vec<Definition>,
    timing: &Timing,
) -> Result<(), AllocError>
    requires { LastsAFrame (option_map view_fixed timing.now.fixed) }
    ensures { OnOk result ((layers : List LayerFields) (mode weight : ℕ)
        → Defines definitions.old.items definitions.new.items (element_definition layers (Demixing (view_timing timing.now) mode weight))) }
{
    let cadence = timing.cadence(alloc)?;
    add(definitions, timing.id, Shape::Demix(cadence))?;
    Ok(())
}

fn add_recon(
    alloc: Global,
    definitions: &mut Vec<Definition>,
    timing: &Timing,
    layers: &[Layer],
) -> Result<(), AllocError>
    requires lasts { LastsAFrame (option_map view_fixed timing.now.fixed) }
    requires some { 1 ≤ length layers.now }
    requires few { length layers.now ≤ 6 }
    ensures { OnOk result (Defines definitions.old.items definitions.new.items (element_definition (map view_layer layers.now) (ReconGain (view_timing timing.now)))) }
{
    let cadence = timing.cadence(alloc)?;
    let flags = recon_flags(layers);
    let count = layers.len() as u8;
    add(definitions, timing.id, Shape::Recon(cadence, count, flags))?;
    Ok(())
}

/// The layers of a configuration, and none where it has no layers.
fn layers_of<'s>(config: &'s ElementConfig<'_>) -> &'s [Layer]
    ensures { (count : ℕ) → map view_layer result.now ≡ layers_of (view_config count config.now) }
{
    match config {
        ElementConfig::Scalable { layers } => layers.as_slice(),
        _ => &[],
    }
}

fn add_param(
    alloc: Global,
    definitions: &mut Vec<Definition>,
    param: &Param<'_>,
    layers: &[Layer],
) -> Result<(), AllocError>
    requires { CanDefine (map view_layer layers.now) (view_param param.now) }
    ensures { OnOk result (Defines definitions.old.items definitions.new.items (element_definition (map view_layer layers.now) (view_param param.now))) }
{
    match param {
        Param::Demix { timing, .. } => {
            add_demixing(alloc, definitions, timing)?;
            Ok(())
        }
        Param::Recon { timing } => {
            add_recon(alloc, definitions, timing, layers)?;
            Ok(())
        }
        Param::Other { .. } => Ok(()),
    }
}

fn add_params(
    alloc: Global,
    definitions: &mut Vec<Definition>,
    params: &[Param<'_>],
    layers: &[Layer],
) -> Result<(), AllocError>
    requires { All (λ p. CanDefine (map view_layer layers.now) (view_param p)) params.now }
    ensures { OnOk result (Defines definitions.old.items definitions.new.items (flat_map (λ p. element_definition (map view_layer layers.now) (view_param p)) params.now)) }
{
    for param in params {
        add_param(alloc, definitions, param, layers)?;
    }
    Ok(())
}

/// The definitions of an element, in their order. An `Err` comes only where memory runs out.
pub(crate) fn element_definitions(
    alloc: Global,
    element: &AudioElement<'_>,
) -> Result<Vec<Definition>, AllocError>
    requires { (frame_length : ℕ) × (0 < frame_length) × IsValid (audio_element frame_length) audio_element_fields (view_element element.now) }
    ensures { let e = roles.element_role (view_element element.now) in IfOk result (λ v. Defines [] v.items e.definitions) }
{
    let mut definitions = Vec::new(alloc);
    let layers = layers_of(&element.config);
    add_params(alloc, &mut definitions, element.params.as_slice(), layers)?;
    Ok(definitions)
}

fn add_gain(
    alloc: Global,
    definitions: &mut Vec<Definition>,
    gain: &MixGain,
) -> Result<(), AllocError>
    ensures { OnOk result (Defines definitions.old.items definitions.new.items (gain_definition (view_mix_gain gain.now) ∷ [])) }
{
    let cadence = gain.timing.cadence(alloc)?;
    add(definitions, gain.timing.id, Shape::Gain(cadence))?;
    Ok(())
}

fn add_gains(
    alloc: Global,
    definitions: &mut Vec<Definition>,
    elements: &[MixElement<'_>],
) -> Result<(), AllocError>
    ensures { OnOk result (Defines definitions.old.items definitions.new.items (flat_map (λ e. gain_definition (view_mix_gain e.gain) ∷ []) elements.now)) }
{
    for element in elements {
        add_gain(alloc, definitions, &element.gain)?;
    }
    Ok(())
}

fn add_sub_mix(
    alloc: Global,
    definitions: &mut Vec<Definition>,
    sub_mix: &SubMix<'_>,
) -> Result<(), AllocError>
    ensures { OnOk result (Defines definitions.old.items definitions.new.items (sub_mix_definitions (view_sub_mix sub_mix.now))) }
{
    add_gains(alloc, definitions, sub_mix.elements.as_slice())?;
    add_gain(alloc, definitions, &sub_mix.output)?;
    Ok(())
}

fn add_sub_mixes(
    alloc: Global,
    definitions: &mut Vec<Definition>,
    sub_mixes: &[SubMix<'_>],
) -> Result<(), AllocError>
    ensures { OnOk result (Defines definitions.old.items definitions.new.items (flat_map (λ s. sub_mix_definitions (view_sub_mix s)) sub_mixes.now)) }
{
    for sub_mix in sub_mixes {
        add_sub_mix(alloc, definitions, sub_mix)?;
    }
    Ok(())
}

/// The definitions of a mix: of each sub-mix those of its elements and then that of its output. An `Err` comes only where
/// memory runs out.
pub(crate) fn mix_definitions(
    alloc: Global,
    mix: &MixPresentation<'_>,
) -> Result<Vec<Definition>, AllocError>
    ensures { let m = roles.mix_role (view_mix mix.now) in IfOk result (λ v. Defines [] v.items m.definitions) }
{
    let mut definitions = Vec::new(alloc);
    add_sub_mixes(alloc, &mut definitions, mix.sub_mixes.as_slice())?;
    Ok(definitions)
}
