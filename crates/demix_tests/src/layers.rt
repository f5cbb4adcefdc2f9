//! Layers, and what demixing asks of them.

ghost use Rattle.std.specs.Prelude.{◌≡◌, ◌<◌, ◌≤◌, length, map};
ghost use Rattle.spec_demix.specs.Fits.{target_channels};
ghost use Rattle.spec_demix.specs.Sent.{IsLayers};
ghost use Rattle.spec_demix.specs.Elements.{demix_layers_of};
ghost use Rattle.obu_element_config.specs.LayerView.{view_layer};
ghost use Rattle.demix_channels.specs.Gains.{HaveModestGains};

use demix_channels::{have_modest_gains, is_chain};
use iamf_tables::{Layout, channel_count};
use obu_element_config::Layer;
use std::process::Abort;

/// A layer without an output gain.
pub fn layer(layout: Layout) -> Layer {
    Layer {
        layout,
        gain: None,
        recon: false,
        substreams: 0,
        coupled: 0,
    }
}

/// Asserts what demixing to a layer asks of the layers up to it, where it has so many channels.
pub fn assert_layers(rt: &impl Abort, layers: &[Layer], target: usize, count: usize)
    ensures target { target < length layers.now }
    ensures chain { IsLayers (demix_layers_of (map view_layer layers.now)) target }
    ensures gains { HaveModestGains layers.now target }
    ensures count { count ≡ length (target_channels (demix_layers_of (map view_layer layers.now)) target) }
    ensures few { count ≤ 12 }
{
    assert!(rt; target < layers.len());
    assert!(rt; is_chain(layers, target));
    assert!(rt; have_modest_gains(layers, target));
    assert_eq!(rt; channel_count(layers[target].layout), count);
}
