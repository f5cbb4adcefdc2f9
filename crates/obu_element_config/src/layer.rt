//! The layers of a scalable element (IAMF 1.0.0, "Scalable Channel Layout Config Syntax and Semantics").

ghost use Rattle.std.specs.Prelude.{◌≡◌, [], ◌≤◌, ◌%◌, map, length, Some, IfOk, option_map, ◌<◌, ◌^◌, ◌∷◌, ◌++◌, OnOk};
ghost use Rattle.spec_bits.specs.Cursor.{IsOnByte};
ghost use Rattle.spec_syntax.specs.Syntax.{each};
ghost use Rattle.spec_syntax.specs.Reading.{read};
ghost use Rattle.spec_layouts.specs.Transmitted.{pairs_of, singles_of};
ghost use Rattle.spec_descriptors.specs.Layers.{output_gain, layer_of, layer_after, layer_in, scalable_config};
ghost use Rattle.iamf_bits.specs.Outcome.{ReadsPart, TakesPart};
ghost use Rattle.obu_element_config.specs.LayerView.{view_gain, view_layer};
ghost use Rattle.spec_syntax.specs.Payload.{canon};
ghost use Rattle.spec_syntax.specs.Repetition.{joined};
ghost use Rattle.spec_layouts.specs.Layouts.{code_of};
ghost use Rattle.spec_descriptors.specs.ElementFields.{gain_fields, counts_fields, layer_fields, scalable_fields};
ghost use Rattle.spec_syntax.specs.Fitting.{AllFit};

use iamf_bits::{Out, Unread, View};
use iamf_tables::{Transmitted, layout, new_channels};
use obu_timing::DescriptorError;
use smallvec::SmallVec;
use spec_descriptors::DescriptorFault;
use spec_layouts::Layout;
use std::alloc::{AllocError, Global};

/// The output gain of a layer.
#[derive(Clone, Copy, Debug, Default, PartialEq, Eq)]
pub struct OutputGain {
    /// `output_gain_flags`, below 64: the channels that the gain is for.
    pub flags: u8,
    /// `output_gain` in 1/256 dB.
    pub gain: i16,
}

/// A layer, which gives one more layout with the channels of the layers below.
#[derive(Clone, Copy, Debug, Default, PartialEq, Eq)]
pub struct Layer {
    /// `loudspeaker_layout`.
    pub layout: Layout,
    /// `None` where `output_gain_is_present_flag` is 0.
    pub gain: Option<OutputGain>,
    /// `recon_gain_is_present_flag`.
    pub recon: bool,
    /// `substream_count`.
    pub substreams: u8,
    /// `coupled_substream_count`: so many of the substreams have two channels.
    pub coupled: u8,
}

/// An output gain.
#[tactic(auto, unfolding(spec_descriptors::specs::Layers::output_gain))]
fn read_gain(view: &mut View<'_>) -> Result<Option<OutputGain>, DescriptorFault>
    requires { IsOnByte view.old }
    ensures { TakesPart (λ g. option_map view_gain g) result view.new (read (λ f. DescriptorFault.Field f) output_gain view.old) }
{
    let flags = view.take_bits(6)? as u8;
    view.skip_bits(2)?;
    let gain = view.take_i16()?;
    Ok(Some(OutputGain { flags, gain }))
}

/// The rest of a layer, after its layout.
#[tactic(auto, using(spec_syntax::proofs::Reading::read_bind), unfolding(spec_descriptors::specs::Layers::layer_of))]
fn read_after_layout(
    view: &mut View<'_>,
    before: Option<Layout>,
    now: Layout,
    channels: &Transmitted,
) -> Result<Layer, DescriptorFault>
    requires place { view.old.place % 8 ≡ 4 }
    requires pairs { channels.now.pairs ≡ pairs_of before now }
    requires singles { channels.now.singles ≡ singles_of before now }
    ensures reads { TakesPart view_layer result view.new (read (λ f. DescriptorFault.Field f) (layer_of before now) view.old) }
    ensures layout { IfOk result (λ layer. layer.layout ≡ now) }
{
    let has_gain = view.take_bits(1)?;
    let has_recon = view.take_bits(1)?;
    view.skip_bits(2)?;
    let substreams = view.take_bits(8)? as u8;
    let coupled = view.take_bits(8)? as u8;
    if usize::from(coupled) != channels.pairs() || substreams < coupled {
        return Err(DescriptorFault::Layers);
    }
    if usize::from(substreams - coupled) != channels.singles() {
        return Err(DescriptorFault::Layers);
    }
    let gain = if has_gain == 1 {
        match read_gain(view) {
            Ok(gain) => gain,
            Err(fault) => return Err(fault),
        }
    } else {
        None
    };
    Ok(Layer {
        layout: now,
        gain,
        recon: has_recon == 1,
        substreams,
        coupled,
    })
}

/// A layer after one of the layout `before`, or the first.
#[tactic(auto, unfolding(spec_descriptors::specs::Layers::layer_after))]
fn read_layer(view: &mut View<'_>, before: Option<Layout>) -> Result<Layer, DescriptorFault>
    requires { IsOnByte view.old }
    ensures { TakesPart view_layer result view.new (read (λ f. DescriptorFault.Field f) (layer_after before) view.old) }
{
    let code = view.take_bits(4)? as u8;
    let Some(now) = layout(code) else {
        return Err(DescriptorFault::Layers);
    };
    let Some(channels) = new_channels(before, now) else {
        return Err(DescriptorFault::Layers);
    };
    read_after_layout(view, before, now, &channels)
}

/// The layers of a scalable element, of which there are at most 6.
#[tactic(auto, using(spec_syntax::proofs::Reading::each_steps), unfolding(spec_descriptors::specs::Layers::scalable_config))]
pub(crate) fn read_layers(
    alloc: Global,
    view: &mut View<'_>,
) -> Result<SmallVec<Layer, 6>, DescriptorError>
    requires { IsOnByte view.old }
    ensures reads { ReadsPart (λ v. map view_layer v.items) result view.new (read (λ f. DescriptorFault.Field f) scalable_config view.old) }
    ensures few { IfOk result (λ v. length v.items ≤ 6) }
{
    let count = view.take_bits(3)?;
    if count == 0 || count == 7 {
        return Err(DescriptorError::Fault(DescriptorFault::Layers));
    }
    view.skip_bits(5)?;
    let mut layers = SmallVec::new(alloc);
    let mut before = None;
    for i in 0..count {
        let layer = match read_layer(view, before) {
            Ok(layer) => layer,
            Err(fault) => return Err(Unread::Fault(fault)),
        };
        before = Some(layer.layout);
        layers.push(layer)?;
    }
    Ok(layers)
}

/// `loudspeaker_layout`.
fn code_of(layout: Layout) -> u32
    ensures code { result ≡ code_of layout }
    ensures fits { result < 2 ^ 4 }
{
    match layout {
        Layout::Mono => 0,
        Layout::Stereo => 1,
        Layout::L51 => 2,
        Layout::L512 => 3,
        Layout::L514 => 4,
        Layout::L71 => 5,
        Layout::L712 => 6,
        Layout::L714 => 7,
        Layout::L312 => 8,
        Layout::Binaural => 9,
    }
}

#[tactic(auto, using(spec_bits::proofs::JoinLaws::joins))]
fn put_gain(out: &mut Out, gain: &OutputGain) -> Result<(), AllocError>
    requires used { out.old.used ≡ 0 }
    requires fits { AllFit (gain_fields (Some (view_gain gain.now))) }
    ensures bits { OnOk result (out.new.bits ≡ out.old.bits ++ canon (gain_fields (Some (view_gain gain.now)))) }
    ensures used { OnOk result (out.new.used ≡ 0) }
{
    out.put_bits(u32::from(gain.flags), 6)?;
    out.put_zeros(2)?;
    out.put_i16(gain.gain)?;
    Ok(())
}

/// Puts the fields of a layer after its layout.
#[tactic(auto, using(spec_bits::proofs::JoinLaws::joins))]
fn put_counts(out: &mut Out, layer: &Layer) -> Result<(), AllocError>
    requires used { out.old.used ≡ 4 }
    requires fits { AllFit (counts_fields (view_layer layer.now)) }
    ensures bits { OnOk result (out.new.bits ≡ out.old.bits ++ canon (counts_fields (view_layer layer.now))) }
    ensures used { OnOk result (out.new.used ≡ 0) }
{
    out.put_bits(u32::from(layer.gain.is_some()), 1)?;
    out.put_bits(u32::from(layer.recon), 1)?;
    out.put_zeros(2)?;
    out.put_bits(u32::from(layer.substreams), 8)?;
    out.put_bits(u32::from(layer.coupled), 8)?;
    if let Some(gain) = &layer.gain {
        put_gain(out, gain)?;
    }
    Ok(())
}

#[tactic(auto, using(spec_bits::proofs::JoinLaws::joins))]
fn put_layer(out: &mut Out, layer: &Layer) -> Result<(), AllocError>
    requires used { out.old.used ≡ 0 }
    requires fits { AllFit (layer_fields (view_layer layer.now)) }
    ensures bits { OnOk result (out.new.bits ≡ out.old.bits ++ canon (layer_fields (view_layer layer.now))) }
    ensures used { OnOk result (out.new.used ≡ 0) }
{
    out.put_bits(code_of(layer.layout), 4)?;
    put_counts(out, layer)?;
    Ok(())
}

fn put_each(out: &mut Out, layers: &[Layer]) -> Result<(), AllocError>
    requires used { out.old.used ≡ 0 }
    requires fits { AllFit (joined layer_fields (map view_layer layers.now)) }
    ensures bits { OnOk result (out.new.bits ≡ out.old.bits ++ canon (joined layer_fields (map view_layer layers.now))) }
    ensures used { OnOk result (out.new.used ≡ 0) }
{
    for layer in layers {
        put_layer(out, layer)?;
    }
    Ok(())
}

/// Puts how many layers there are, and then each.
#[tactic(auto, using(spec_bits::proofs::JoinLaws::joins, spec_syntax::proofs::Writing::views))]
pub(crate) fn put_layers(out: &mut Out, layers: &[Layer]) -> Result<(), AllocError>
    requires used { out.old.used ≡ 0 }
    requires fits { AllFit (scalable_fields (map view_layer layers.now)) }
    ensures bits { OnOk result (out.new.bits ≡ out.old.bits ++ canon (scalable_fields (map view_layer layers.now))) }
    ensures used { OnOk result (out.new.used ≡ 0) }
{
    out.put_bits(layers.len() as u32, 3)?;
    out.put_zeros(5)?;
    put_each(out, layers)?;
    Ok(())
}
