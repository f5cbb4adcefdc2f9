//! An element's layers as demixing sees them.

ghost use Rattle.std.specs.Prelude.{◌≡◌, ◌≤◌, pos, ◌≤ℤ◌};
ghost use Rattle.spec_demix.specs.Elements.{demix_layer_of};
ghost use Rattle.obu_element_config.specs.LayerView.{view_layer};
ghost use Rattle.demix_channels.specs.Gains.{IsModestGain};

use iamf_tables::gain;
use obu_element_config::Layer;
use spec_demix::DemixLayer;

/// The layer as demixing sees it, with what its output gain multiplies by.
pub fn demix_layer(layer: &Layer) -> DemixLayer
    ensures value { result ≡ demix_layer_of (view_layer layer.now) }
    ensures most { IsModestGain layer.now.gain → result.factor ≤ 39810717055340 }
{
    match layer.gain {
        Some(output) => DemixLayer {
            layout: layer.layout,
            flags: output.flags,
            factor: gain(output.gain),
        },
        None => DemixLayer {
            layout: layer.layout,
            flags: 0,
            factor: 1_000_000_000_000,
        },
    }
}
