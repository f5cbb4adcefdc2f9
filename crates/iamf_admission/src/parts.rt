//! What has to be made of a content before the rules can look at it.
ghost use Rattle.std.specs.Prelude.{◌≡◌, ◌<◌, ◌++◌, ℕ, map, IfOk, OnOk};
ghost use Rattle.std.specs.List.{All, flat_map};
ghost use Rattle.spec_syntax.specs.Payload.{IsValid};
ghost use Rattle.spec_descriptors.specs.AudioElement.{audio_element, substream_channels_of};
ghost use Rattle.spec_descriptors.specs.ElementFields.{audio_element_fields};
ghost use Rattle.spec_values.specs.Content as said;
ghost use Rattle.obu_descriptors.specs.ElementView.{view_element};
ghost use Rattle.obu_data.specs.ShapeView.{MayDefine};
ghost use Rattle.iamf_obu.specs.ContentView.{IsValidContent};
ghost use Rattle.std.specs.Option.{option_map};
ghost use Rattle.iamf_admission.specs.PartsView.{view_channels, HasElementParts, HasMixParts, HasParts};

use crate::definitions::{element_definitions, mix_definitions};
use iamf_obu::Content;
use obu_data::Definition;
use obu_descriptors::{AudioElement, coded_channels, substream_channels};
use obu_mix::{MixElement, MixPresentation};
use std::alloc::{AllocError, Global};

/// What is made of a content for its role.
#[derive(Drop)]
pub(crate) struct Parts {
    /// The ids of the elements of a mix presentation, one sub-mix after the other.
    pub(crate) elements: Vec<u32>,
    /// The numbers of channels of an element's substreams, where they are known.
    pub(crate) channels: Option<Vec<u32>>,
    /// The parameter definitions of an element or a mix presentation.
    pub(crate) definitions: Vec<Definition>,
}

impl Parts {
    /// Those of a content that needs none. It takes no memory.
    fn none(alloc: Global) -> Parts
        ensures { All (λ d. MayDefine d.shape) result.definitions.items }
    {
        Parts {
            elements: Vec::new(alloc),
            channels: None,
            definitions: Vec::new(alloc),
        }
    }

    pub(crate) fn channels(&self) -> Option<&[u32]>
        ensures { option_map (λ c. c.now) result ≡ view_channels self.now.channels }
    {
        match &self.channels {
            Some(channels) => Some(channels.as_slice()),
            None => None,
        }
    }
}

/// The numbers of channels of a valid element's substreams, where they are known.
fn channels_of(alloc: Global, element: &AudioElement<'_>) -> Result<Option<Vec<u32>>, AllocError>
    requires { (frame_length : ℕ) × IsValid (audio_element frame_length) audio_element_fields (view_element element.now) }
    ensures { let e = view_element element.now in IfOk result (λ channels. view_channels channels ≡ substream_channels_of e.config) }
{
    if coded_channels(element).is_none() {
        return Ok(None);
    }
    let mut channels = Vec::new(alloc);
    for i in 0..element.substreams.len() {
        if let Some(count) = substream_channels(element, i) {
            channels.push(count)?;
        }
    }
    Ok(Some(channels))
}

/// Puts the ids of elements of a sub-mix last.
fn push_elements(ids: &mut Vec<u32>, elements: &[MixElement<'_>]) -> Result<(), AllocError>
    ensures { OnOk result (ids.new.items ≡ ids.old.items ++ map (λ element. element.element) elements.now) }
{
    for element in elements {
        ids.push(element.element)?;
    }
    Ok(())
}

/// The ids of the elements that the sub-mixes of a mix name, one sub-mix after the other.
fn elements_of(alloc: Global, mix: &MixPresentation<'_>) -> Result<Vec<u32>, AllocError>
    ensures { IfOk result (λ ids. ids.items ≡ flat_map (λ sub_mix. map (λ element. element.element) sub_mix.elements.items) mix.now.sub_mixes.items) }
{
    let mut ids = Vec::new(alloc);
    for sub_mix in mix.sub_mixes.as_slice() {
        push_elements(&mut ids, sub_mix.elements.as_slice())?;
    }
    Ok(ids)
}

/// Those of an element. Without a codec config, where the frame length is 0, it has no definitions: it is refused then before
/// any is looked at.
fn element_parts(
    alloc: Global,
    element: &AudioElement<'_>,
    frame_length: u16,
) -> Result<Parts, AllocError>
    requires { IsValid (audio_element frame_length) audio_element_fields (view_element element.now) }
    ensures parts { IfOk result (λ parts. HasElementParts frame_length element.now parts) }
    ensures allowed { IfOk result (λ parts. All (λ d. MayDefine d.shape) parts.definitions.items) }
{
    let channels = channels_of(alloc, element)?;
    if frame_length == 0 {
        return Ok(Parts {
            elements: Vec::new(alloc),
            channels,
            definitions: Vec::new(alloc),
        });
    }
    let definitions = element_definitions(alloc, element)?;
    Ok(Parts {
        elements: Vec::new(alloc),
        channels,
        definitions,
    })
}

fn mix_parts(alloc: Global, mix: &MixPresentation<'_>) -> Result<Parts, AllocError>
    ensures parts { IfOk result (λ parts. HasMixParts mix.now parts) }
    ensures allowed { IfOk result (λ parts. All (λ d. MayDefine d.shape) parts.definitions.items) }
{
    let elements = elements_of(alloc, mix)?;
    let definitions = mix_definitions(alloc, mix)?;
    Ok(Parts {
        elements,
        channels: None,
        definitions,
    })
}

/// What is made of a content that was read where frames have so many samples, or 0 without a codec config. An `Err` comes
/// only of an element and a mix presentation, where memory runs out.
pub(crate) fn parts_of(
    alloc: Global,
    content: &Content<'_>,
    frame_length: u16,
) -> Result<Parts, AllocError>
    requires { (context : said.Context) × (kind : ℕ) × (context.frame_length ≡ frame_length) × IsValidContent context kind content.now }
    ensures parts { IfOk result (λ parts. HasParts frame_length content.now parts) }
    ensures allowed { IfOk result (λ parts. All (λ d. MayDefine d.shape) parts.definitions.items) }
{
    match content {
        Content::AudioElement(element) => element_parts(alloc, element, frame_length),
        Content::MixPresentation(mix) => mix_parts(alloc, mix),
        _ => Ok(Parts::none(alloc)),
    }
}
