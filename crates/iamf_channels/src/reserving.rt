//! Takes the memory for an element.

ghost use Rattle.std.specs.Prelude.{◌≡◌, ℕ, ◌-◌, ◌<◌, ◌≤◌, IsSome, All, map, take, sum_by, length, unwrap_or, IfOk, MatchOption};
ghost use Rattle.spec_descriptors.specs.AudioElement.{substream_channels_of, coded_channels_of};
ghost use Rattle.spec_demix.specs.Elements.{demix_layers_of};
ghost use Rattle.spec_demix.specs.Sent.{IsLayers};
ghost use Rattle.obu_descriptors.specs.ElementView.{view_element};
ghost use Rattle.obu_element_config.specs.LayerView.{view_layer};
ghost use Rattle.demix_channels.specs.Gains.{HaveModestGains};
ghost use Rattle.spec_syntax.specs.Payload.{IsValid};
ghost use Rattle.spec_descriptors.specs.AudioElement.{audio_element};
ghost use Rattle.spec_descriptors.specs.ElementFields.{audio_element_fields};
ghost use Rattle.iamf_channels.specs.Needed.{needed, stream_channels};

use iamf_bits::Planes;
use iamf_tables::channel_count;
use mix_fixed::Kernel;
use obu_descriptors::{AudioElement, Layer, coded_channels, substream_channels};
use spec_play::Target;
use std::alloc::{AllocError, Global};

/// A kernel for the last of some layers; `None` exactly where there are none.
pub(crate) fn kernel_of(layers: &[Layer]) -> Option<Kernel>
    requires chain { 0 < length layers.now → IsLayers (demix_layers_of (map view_layer layers.now)) (length layers.now - 1) }
    requires gains { 0 < length layers.now → HaveModestGains layers.now (length layers.now - 1) }
    ensures { MatchOption result (length layers.now ≡ 0) (λ kernel. (0 < length layers.now) × (kernel ≡ demix_layers_of (map view_layer layers.now))) }
{
    if layers.is_empty() {
        None
    } else {
        Some(Kernel::new(layers, layers.len() - 1))
    }
}

/// How many coded channels playing an element for a target needs.
pub(crate) fn needed_channels(target: Target, element: &AudioElement<'_>) -> usize
    requires valid { (length : ℕ) × IsValid (audio_element length) audio_element_fields (view_element element.now) }
    ensures { result ≡ needed target (view_element element.now).config }
{
    match target {
        Target::Layer(layout) => channel_count(layout),
        Target::Scene => match coded_channels(element) {
            Some(count) => count as usize,
            None => 0,
        },
    }
}

/// Rows for the channels of the first substreams of an element, of so many samples, until there are as many channels as are
/// needed; and how many channels they have. The only error is want of memory.
pub(crate) fn reserve(
    alloc: Global,
    element: &AudioElement<'_>,
    needed: usize,
    frame_length: usize,
) -> Result<(Vec<Planes>, usize), AllocError>
    requires valid { (length : ℕ) × IsValid (audio_element length) audio_element_fields (view_element element.now) }
    requires known { IsSome (substream_channels_of (view_element element.now).config) }
    requires there { needed ≤ unwrap_or (coded_channels_of (view_element element.now).config) 0 }
    requires few { needed ≤ 255 }
    requires length { frame_length ≤ 65535 }
    ensures channels { IfOk result (λ rows. map (λ p. p.channels) rows.0.items ≡ take (length rows.0.items) (stream_channels (view_element element.now).config)) }
    ensures count { IfOk result (λ rows. length rows.0.items ≤ length element.now.substreams.items) }
    ensures lengths { IfOk result (λ rows. All (λ p. p.length ≡ frame_length) rows.0.items) }
    ensures sum { IfOk result (λ rows. rows.1 ≡ sum_by (λ p. p.channels) rows.0.items) }
    ensures enough { IfOk result (λ rows. needed ≤ rows.1) }
{
    let mut planes = Vec::new(alloc);
    let mut total = 0;
    for i in 0..element.substreams.len() {
        if needed <= total {
            return Ok((planes, total));
        }
        match substream_channels(element, i) {
            Some(channels) => {
                planes.push(Planes::new(alloc, channels as usize, frame_length)?)?;
                total += channels as usize;
            }
            None => unreachable!(),
        }
    }
    Ok((planes, total))
}
