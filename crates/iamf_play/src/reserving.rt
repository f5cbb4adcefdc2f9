//! Takes the memory of a player.

ghost use Rattle.std.specs.Prelude.{◌≡◌, ℕ, ◌+◌, ◌*◌, ◌^◌, ◌<◌, ◌≤◌, IfOk, Some, length, slice_get};
ghost use Rattle.spec_rules.specs.Units.{unit_count};
ghost use Rattle.spec_sequence.specs.Reading.{roles};
ghost use Rattle.spec_descriptors.specs.CodecConfig.{CodecConfigFields};
ghost use Rattle.spec_sequence.specs.ValueRole.{role_of_codec};
ghost use Rattle.obu_codec_config.specs.CodecView.{StandsForCodec};
ghost use Rattle.spec_play.specs.Mixes.{MixedElement, Rendition, unit_length};
ghost use Rattle.spec_play.specs.Waves.{mask_for, wave_shape};
ghost use Rattle.spec_play.specs.Laws.{IsHearable};
ghost use Rattle.wav_io.specs.Views.{shape_of};
ghost use Rattle.iamf_select.specs.PlanView.{IsSelected};
ghost use Rattle.iamf_play.specs.PlayedElements.{IsPart, AreParts};
ghost use Rattle.iamf_play.specs.Reserving.{IsReserved};

use crate::element::PlayedElement;
use crate::gains::UnitGains;
use crate::reserved::Reserved;
use iamf_channels::ElementChannels;
use iamf_elements::output_count;
use iamf_select::Plan;
use iamf_sequence::Sequence;
use iamf_tables::{channel_count, channel_mask};
use obu_descriptors::{CodecConfig, Coding};
use spec_play::Target;
use std::alloc::{AllocError, Global};
use wav_io::WaveShape;

/// Bits of a sample, and samples of a channel in a second.
fn depth_and_rate(codec: &CodecConfig<'_>) -> (u8, u32)
    ensures depth { (c : CodecConfigFields) → StandsForCodec codec.now c → result.0 ≡ (role_of_codec c).depth }
    ensures rate { (c : CodecConfigFields) → StandsForCodec codec.now c → result.1 ≡ (role_of_codec c).rate }
{
    match codec.coding {
        Coding::Lpcm { depth, rate, .. } => (depth, rate),
        Coding::Flac { depth, rate, .. } => (depth, rate),
    }
}

/// How many channels the WAV file of a plan has.
fn wave_channels(plan: &Plan<'_, '_>) -> u16
    ensures count { (r : Rendition) → IsSelected plan.now r → result ≡ (wave_shape r).channels }
    ensures some { 1 ≤ result }
    ensures few { result ≤ 225 }
{
    match plan.target() {
        Target::Layer(layout) => channel_count(layout) as u16,
        Target::Scene => {
            plan.one_rendition();
            match output_count(plan.element(0)) {
                Some(outputs) => u16::from(outputs),
                None => unreachable!(),
            }
        }
    }
}

/// Which speakers they are.
fn wave_mask(target: Target) -> u32
    requires { IsHearable target }
    ensures { result ≡ mask_for target }
{
    match target {
        Target::Layer(layout) => channel_mask(layout),
        Target::Scene => 0,
    }
}

/// A sequence has few units. The call does nothing: its clause is a law.
fn few_units(sequence: &Sequence<'_>)
    ensures { unit_count (roles sequence.now.entries) < 2 ^ 42 }
{
    let _bytes = sequence.bytes();
}

/// The shape of the WAV file of a plan.
fn wave_of(plan: &Plan<'_, '_>) -> WaveShape
    ensures is { (r : Rendition) → IsSelected plan.now r → shape_of result ≡ wave_shape r }
    ensures some { 1 ≤ result.channels }
    ensures few { result.channels ≤ 225 }
{
    plan.one_rendition();
    let sequence = plan.sequence();
    let (depth, rate) = depth_and_rate(sequence.codec());
    WaveShape {
        channels: wave_channels(plan),
        mask: wave_mask(plan.target()),
        rate,
        depth,
        frames: sequence.kept(),
    }
}

/// Element `i` of a plan, with room for a unit of so many ticks. The only error is want of memory.
fn element_of<'s, 'a>(
    alloc: Global,
    plan: &Plan<'s, 'a>,
    i: usize,
    ticks: usize,
) -> Result<PlayedElement<'s, 'a>, AllocError>
    requires { (r : Rendition) → IsSelected plan.now r → i < length r.elements }
    ensures { IfOk result (λ p. (r : Rendition) (m : MixedElement) → IsSelected plan.now r → unit_length r ≡ ticks → slice_get r.elements i ≡ Some m → IsPart plan.now.sequence r m 0 p) }
{
    plan.one_rendition();
    let channels = ElementChannels::new(alloc, plan.sequence(), plan.element(i), plan.target())?;
    let gains = UnitGains::new(alloc, plan.element_gain(i), ticks)?;
    Ok(PlayedElement { channels, gains })
}

/// The elements of a plan.
fn elements_of<'s, 'a>(
    alloc: Global,
    plan: &Plan<'s, 'a>,
    ticks: usize,
) -> Result<Vec<PlayedElement<'s, 'a>>, AllocError>
    ensures { IfOk result (λ ps. (r : Rendition) → IsSelected plan.now r → unit_length r ≡ ticks → AreParts plan.now.sequence r 0 ps.items) }
{
    let mut elements = Vec::new(alloc);
    for i in 0..plan.element_count() {
        let element = element_of(alloc, plan, i, ticks)?;
        elements.push(element)?;
    }
    Ok(elements)
}

/// All that playing a plan needs. The only error is want of memory.
pub(crate) fn reserve<'s, 'a>(
    alloc: Global,
    plan: &Plan<'s, 'a>,
) -> Result<Reserved<'s, 'a>, AllocError>
    ensures { IfOk result (λ v. (r : Rendition) → IsSelected plan.now r → IsReserved plan.now.sequence r 0 v) }
{
    let ticks = plan.sequence().codec().frame_length as usize;
    let shape = wave_of(plan);
    few_units(plan.sequence());
    plan.one_rendition();
    let elements = elements_of(alloc, plan, ticks)?;
    let output = UnitGains::new(alloc, plan.output_gain(), ticks)?;
    let values = ticks * usize::from(shape.channels);
    let mixed = vec![in alloc; 0i128; values]?;
    let bytes = vec![in alloc; 0u8; values * usize::from(shape.depth / 8)]?;
    Ok(Reserved {
        elements,
        output,
        shape,
        kept: 0,
        mixed,
        bytes,
    })
}
