//! The exact demix of an element to one of its layers.

ghost use Rattle.std.specs.Prelude.{◌≡◌, ◌<◌, ◌≤◌, All, length, map};
ghost use Rattle.spec_gains.specs.Modes.{coefficients_of, IsMode};
ghost use Rattle.spec_demix.specs.Sent.{IsLayers};
ghost use Rattle.spec_demix.specs.Fits.{Fits, target_channels};
ghost use Rattle.spec_demix.specs.Sizes.{AreSamples};
ghost use Rattle.spec_demix.specs.Elements.{demix_layers_of};
ghost use Rattle.obu_element_config.specs.LayerView.{view_layer};
ghost use Rattle.demix_channels.specs.Gains.{HaveModestGains};
ghost use Rattle.demix_layers.specs.Quotients.{IsBounded};

use crate::gathering::{gather, whole};
use crate::walk::walk;
use demix_channels::{DemixParams, kind};
use obu_element_config::Layer;
use spec_demix::Fraction;

/// Writes the channels of layer `target`, counted from 0, in the order of a WAV file, from the coded samples of one tick:
/// the one list of fractions whose downmix to each layer is what the layer transmits. Each has its own bottom.
///
/// The layers up to the target must be an allowed chain without binaural whose output gains are at most 32 dB. The coded
/// samples have 32 bits and stand in coded order, at least one for each channel of the target. The weight is at most 5000.
pub fn demix_exact<const C: usize>(
    layers: &[Layer],
    target: usize,
    params: DemixParams,
    coded: &[i64],
    out: &mut [Fraction; C],
)
    requires target { target < length layers.now }
    requires chain { IsLayers (demix_layers_of (map view_layer layers.now)) target }
    requires gains { HaveModestGains layers.now target }
    requires mode { IsMode params.mode }
    requires weight { params.weight ≤ 5000 }
    requires samples { AreSamples coded.now }
    requires count { C ≡ length (target_channels (demix_layers_of (map view_layer layers.now)) target) }
    requires room { C ≤ length coded.now }
    ensures fits { Fits (demix_layers_of (map view_layer layers.now)) target (coefficients_of params.mode) params.weight coded.now out.new }
    ensures small { All IsBounded out.new }
{
    let bed = walk(layers, target, params, coded);
    let layout = layers[target].layout;
    let channels = whole(kind(layout), params.mode, &bed);
    gather(layout, &channels, out);
}
