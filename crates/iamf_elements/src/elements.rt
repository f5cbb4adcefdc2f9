//! What the selection asks of an element.

ghost use Rattle.std.specs.Prelude.{◌≡◌, map, not};
ghost use Rattle.std.specs.List.{list_any};
ghost use Rattle.std.specs.Option.{option_to_list};
ghost use Rattle.obu_element_config.specs.LayerView.{view_layer};
ghost use Rattle.obu_descriptors.specs.ElementView.{view_element};
ghost use Rattle.spec_play.specs.UsedLayers.{is_of, used_layers};
ghost use Rattle.spec_play.specs.Waves.{outputs_in};
ghost use Rattle.spec_play.specs.Selection.{lacks_layer, is_for_other, is_unknown};

use crate::layers::{is_of, layers_up_to};
use obu_descriptors::{AudioElement, ElementConfig, Layer};
use spec_layouts::Layout;
use spec_play::Target;

/// The layers that are played for the target: none but of a scalable element and for a layout.
pub fn used_layers<'l>(target: Target, element: &'l AudioElement<'_>) -> &'l [Layer]
    ensures { map view_layer result.now ≡ used_layers target (view_element element.now).config }
{
    match (target, &element.config) {
        (Target::Layer(layout), ElementConfig::Scalable { layers }) => {
            layers_up_to(layout, layers.as_slice())
        }
        _ => &[],
    }
}

/// Whether some of the layers has the layout.
fn has_layer(layout: Layout, layers: &[Layer]) -> bool
    ensures { result ≡ list_any (λ layer. is_of layout (view_layer layer)) layers.now }
{
    layers.iter().any(|layer| is_of(layout, layer))
}

/// Whether none of the layers has the layout.
fn is_missing(layout: Layout, layers: &[Layer]) -> bool
    ensures { result ≡ not (list_any (is_of layout) (map view_layer layers.now)) }
{
    !has_layer(layout, layers)
}

/// Whether a scalable element has no layer of the target's layout.
pub fn lacks_layer(target: Target, element: &AudioElement<'_>) -> bool
    ensures { result ≡ lacks_layer target (view_element element.now).config }
{
    match (target, &element.config) {
        (Target::Layer(layout), ElementConfig::Scalable { layers }) => {
            is_missing(layout, layers.as_slice())
        }
        _ => false,
    }
}

/// Whether the element is an ambisonics element and the target a layout, or the element scalable and the target a scene.
pub fn is_for_other(target: Target, element: &AudioElement<'_>) -> bool
    ensures { result ≡ is_for_other target (view_element element.now).config }
{
    match (target, &element.config) {
        (Target::Layer(_), ElementConfig::Mono { .. }) => true,
        (Target::Layer(_), ElementConfig::Projection { .. }) => true,
        (Target::Scene, ElementConfig::Scalable { .. }) => true,
        _ => false,
    }
}

/// Whether the element is of a type that is kept unread.
pub fn is_unknown(element: &AudioElement<'_>) -> bool
    ensures { result ≡ is_unknown (view_element element.now).config }
{
    match &element.config {
        ElementConfig::Other { .. } => true,
        _ => false,
    }
}

/// The number of outputs of an ambisonics element.
pub fn output_count(element: &AudioElement<'_>) -> Option<u8>
    ensures { option_to_list result ≡ outputs_in (view_element element.now).config }
{
    match &element.config {
        ElementConfig::Mono { outputs, .. } => Some(*outputs),
        ElementConfig::Projection { outputs, .. } => Some(*outputs),
        _ => None,
    }
}
