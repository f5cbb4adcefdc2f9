//! The layers of a scalable element up to that of a layout (IAMF 1.0.0, "Scalable Channel Layout Config Syntax and Semantics").

ghost use Rattle.std.specs.Prelude.{◌≡◌, map, option_map};
ghost use Rattle.std.specs.List.{list_any};
ghost use Rattle.obu_element_config.specs.LayerView.{view_gain, view_layer};
ghost use Rattle.spec_play.specs.UsedLayers.{is_of, layers_up_to, is_mixed_down, need_parameters};
ghost use Rattle.spec_play.specs.Selection.{has_recon, is_output_gain_above};

use demix_channels::{is_reached, kind, splits_two};
use obu_descriptors::{Layer, OutputGain};
use spec_layouts::Layout;

/// Whether the layer has the layout.
pub(crate) fn is_of(layout: Layout, layer: &Layer) -> bool
    ensures { result ≡ is_of layout (view_layer layer.now) }
{
    layer.layout == layout
}

/// The layers up to that of the layout, or all where none has it.
pub fn layers_up_to(layout: Layout, layers: &[Layer]) -> &[Layer]
    ensures { map view_layer result.now ≡ layers_up_to layout (map view_layer layers.now) }
{
    for (i, layer) in layers.iter().enumerate() {
        if is_of(layout, layer) {
            return &layers[..i + 1];
        }
    }
    layers
}

/// Whether channels of the higher layout come from those of the lower one by demixing parameters.
fn is_mixed_down(before: Layout, now: Layout) -> bool
    ensures { result ≡ is_mixed_down before now }
{
    let before = kind(before);
    let now = kind(now);
    is_reached(5, before.surround, now.surround)
        || (is_reached(7, before.surround, now.surround) || splits_two(before, now))
}

/// Whether some of the layers is played by demixing parameters.
pub fn need_parameters(layers: &[Layer]) -> bool
    ensures { result ≡ need_parameters (map view_layer layers.now) }
{
    for i in 1..layers.len() {
        if is_mixed_down(layers[i - 1].layout, layers[i].layout) {
            return true;
        }
    }
    false
}

/// Whether some of the layers has recon gains.
fn some_recon(layers: &[Layer]) -> bool
    ensures { result ≡ list_any (λ layer. layer.recon) layers.now }
{
    layers.iter().any(|layer| layer.recon)
}

/// Whether a layer other than the first has recon gains.
pub fn has_recon(layers: &[Layer]) -> bool
    ensures { result ≡ has_recon (map view_layer layers.now) }
{
    !layers.is_empty() && some_recon(&layers[1..])
}

/// Whether an output gain is above 32 dB.
fn is_high(gain: Option<OutputGain>) -> bool
    ensures { result ≡ is_output_gain_above (option_map view_gain gain) }
{
    match gain {
        Some(output) => output.gain > 8192,
        None => false,
    }
}

/// Whether some of the layers has an output gain above 32 dB.
fn some_high(layers: &[Layer]) -> bool
    ensures { result ≡ list_any (λ layer. is_output_gain_above (option_map view_gain layer.gain)) layers.now }
{
    layers.iter().any(|layer| is_high(layer.gain))
}

/// Whether a layer has an output gain above 32 dB, whatever its flags are.
pub fn has_high_gain(layers: &[Layer]) -> bool
    ensures { result ≡ list_any (λ layer. is_output_gain_above layer.gain) (map view_layer layers.now) }
{
    some_high(layers)
}
