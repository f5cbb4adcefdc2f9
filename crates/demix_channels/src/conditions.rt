//! Tests of what demixing asks of its input, for callers that do not know it.

ghost use Rattle.std.specs.Prelude.{◌≡◌, ◌+◌, ◌^◌, ◌<◌, ◌≤◌, ◌↔◌, IsTrue, length, map};
ghost use Rattle.spec_demix.specs.Sent.{IsLayers};
ghost use Rattle.spec_demix.specs.Sizes.{AreSamples};
ghost use Rattle.spec_demix.specs.Elements.{demix_layers_of};
ghost use Rattle.obu_element_config.specs.LayerView.{view_layer};
ghost use Rattle.demix_channels.specs.Gains.{IsModestGain, HaveModestGains};

use iamf_tables::{Layout, new_channels};
use obu_element_config::{Layer, OutputGain};

/// Whether the layers up to `target` are an allowed chain without binaural.
pub fn is_chain(layers: &[Layer], target: usize) -> bool
    requires { target < length layers.now }
    ensures { IsTrue result ↔ IsLayers (demix_layers_of (map view_layer layers.now)) target }
{
    if layers[0].layout == Layout::Binaural {
        return false;
    }
    for i in 0..target {
        let before = layers[i].layout;
        let now = layers[i + 1].layout;
        if new_channels(Some(before), now).is_none() {
            return false;
        }
    }
    true
}

/// Whether an output gain is at most 32 dB.
fn is_modest(gain: Option<OutputGain>) -> bool
    ensures { IsTrue result ↔ IsModestGain gain }
{
    match gain {
        Some(output) => output.gain <= 8192,
        None => true,
    }
}

/// Whether no layer up to `target` has an output gain above 32 dB.
pub fn have_modest_gains(layers: &[Layer], target: usize) -> bool
    requires { target < length layers.now }
    ensures { IsTrue result ↔ HaveModestGains layers.now target }
{
    for i in 0..target + 1 {
        if !is_modest(layers[i].gain) {
            return false;
        }
    }
    true
}

/// Whether coded samples have 32 bits.
pub fn are_samples(coded: &[i64]) -> bool
    ensures { IsTrue result ↔ AreSamples coded.now }
{
    coded.iter().all(|y| y.unsigned_abs() <= 0x8000_0000)
}
