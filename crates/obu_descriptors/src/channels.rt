//! The channels of an element's substreams (IAMF 1.0.0, "substream_count" and "coupled_substream_count").

ghost use Rattle.std.specs.Prelude.{◌≡◌, ℕ, ◌+◌, ◌<◌, ◌≤◌, length, map, sum_by, slice_get, option_and_then};
ghost use Rattle.spec_syntax.specs.Payload.{IsValid};
ghost use Rattle.spec_descriptors.specs.AudioElement.{audio_element, coupled_first, layer_channels, substream_channels_of, coded_channels_of};
ghost use Rattle.spec_descriptors.specs.ElementFields.{audio_element_fields};
ghost use Rattle.obu_element_config.specs.LayerView.{view_layer};
ghost use Rattle.obu_descriptors.specs.ElementView.{view_element};
ghost use Rattle.obu_descriptors.specs.Channels.{AreCoupled};

use crate::audio_element::AudioElement;
use obu_element_config::{ElementConfig, Layer};

/// How many channels the layers transmit: one for each substream, and one more for each coupled one.
fn layers_channels(layers: &[Layer]) -> u32
    requires { length layers.now < 8 }
    ensures { result ≡ sum_by (λ layer. layer.substream_count + layer.coupled_substream_count) (map view_layer layers.now) }
{
    let mut sum = 0;
    for layer in layers {
        sum += u32::from(layer.substreams) + u32::from(layer.coupled);
    }
    sum
}

/// The channels of one of the layers' substreams, which are counted through all layers. `None` where there are not so
/// many.
fn channels_in_layers(layers: &[Layer], i: usize) -> Option<u32>
    requires { AreCoupled (map view_layer layers.now) }
    ensures { result ≡ slice_get (layer_channels (map view_layer layers.now)) i }
{
    let mut left = i;
    for layer in layers {
        if left < usize::from(layer.coupled) {
            return Some(2);
        }
        if left < usize::from(layer.substreams) {
            return Some(1);
        }
        left -= usize::from(layer.substreams);
    }
    None
}

/// The number of channels of all substreams of an element together. `None` exactly for an element of a type that is kept
/// unread. The element must be valid for some frame length, as each is that was read.
pub fn coded_channels(element: &AudioElement<'_>) -> Option<u32>
    requires { (frame_length : ℕ) × IsValid (audio_element frame_length) audio_element_fields (view_element element.now) }
    ensures { let fields = view_element element.now in result ≡ coded_channels_of fields.config }
{
    match &element.config {
        ElementConfig::Scalable { layers } => Some(layers_channels(layers.as_slice())),
        ElementConfig::Mono { .. } => Some(element.substreams.len() as u32),
        ElementConfig::Projection {
            substreams,
            coupled,
            ..
        } => Some(u32::from(*substreams) + u32::from(*coupled)),
        ElementConfig::Other { .. } => None,
    }
}

/// The number of channels of substream `i` of an element, which is 1 or 2; substreams are counted from 0 in their order.
/// `None` exactly for an element of a type that is kept unread. The element must be valid for some frame length, as each
/// is that was read.
pub fn substream_channels(element: &AudioElement<'_>, i: usize) -> Option<u32>
    requires valid { (frame_length : ℕ) × IsValid (audio_element frame_length) audio_element_fields (view_element element.now) }
    requires place { i < length element.now.substreams.items }
    ensures { let fields = view_element element.now in result ≡ option_and_then (λ channels. slice_get channels i) (substream_channels_of fields.config) }
{
    match &element.config {
        ElementConfig::Scalable { layers } => channels_in_layers(layers.as_slice(), i),
        ElementConfig::Mono { .. } => Some(1),
        ElementConfig::Projection { coupled, .. } => {
            Some(if i < usize::from(*coupled) { 2 } else { 1 })
        }
        ElementConfig::Other { .. } => None,
    }
}
