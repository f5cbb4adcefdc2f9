//! The exact walk: the layers in their order, each with what follows from it, as tops.

ghost use Rattle.std.specs.Prelude.{◌≡◌, ◌^◌, ◌<◌, ◌≤◌, length, map};
ghost use Rattle.spec_gains.specs.Modes.{coefficients_of, AreBounded};
ghost use Rattle.spec_demix.specs.Sent.{kinds_of, place_after, sent_by, IsLayers};
ghost use Rattle.spec_demix.specs.ExactWalk.{exact};
ghost use Rattle.spec_demix.specs.Sizes.{AreSamples};
ghost use Rattle.spec_demix.specs.Elements.{demix_layers_of};
ghost use Rattle.obu_element_config.specs.LayerView.{view_layer};
ghost use Rattle.demix_channels.specs.Gains.{HaveModestGains};
ghost use Rattle.demix_layers.specs.Within.{IsWithin};

use crate::samples::bed;
use crate::steps::{bed_begins, bed_step};
use demix_channels::{DemixParams, demix_layer, kind, sent_first, sent_next};
use iamf_tables::channel_count;
use obu_element_config::Layer;
use spec_demix::Bed;

/// All channels after the target layer.
pub(crate) fn walk(layers: &[Layer], target: usize, params: DemixParams, coded: &[i64]) -> Bed
    requires target { target < length layers.now }
    requires chain { IsLayers (demix_layers_of (map view_layer layers.now)) target }
    requires gains { HaveModestGains layers.now target }
    requires mode { AreBounded (coefficients_of params.mode) }
    requires weight { params.weight ≤ 5000 }
    requires samples { AreSamples coded.now }
    requires room { place_after (demix_layers_of (map view_layer layers.now)) target ≤ length coded.now }
    ensures value { let seen = demix_layers_of (map view_layer layers.now) in result ≡ exact (kinds_of seen) (coefficients_of params.mode) params.weight (sent_by seen coded.now) target }
    ensures within { IsWithin (2 ^ 77) result }
{
    let first = sent_first(demix_layer(&layers[0]));
    let begun = bed(&first, coded);
    let mut all = bed_begins(params.mode, &begun);
    for i in 0..target {
        let old = layers[i].layout;
        let new = demix_layer(&layers[i + 1]);
        let before = kind(old);
        let next = sent_next(before, new, channel_count(old));
        let sent = bed(&next, coded);
        all = bed_step(before, kind(new.layout), params, &all, &sent);
    }
    all
}
