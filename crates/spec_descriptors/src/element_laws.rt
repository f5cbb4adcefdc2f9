ghost use Rattle.std.specs.Prelude.{◌≡◌, ℕ, List, Some, length, sum};
ghost use Rattle.spec_syntax.specs.Laws.{IsSyntaxOf};
ghost use Rattle.spec_descriptors.specs.AudioElement.{AudioElementFields, audio_element, substream_channels_of, coded_channels_of};
ghost use Rattle.spec_syntax.specs.Payload.{IsValid};
ghost use Rattle.spec_descriptors.specs.ElementFields.{audio_element_fields};

use crate::fault::DescriptorFault;

/// Of any bytes exactly one holds, for each frame length: they begin with one audio element, or have one first fault.
/// Reading answers it. An audio element stands for one list of fields, none of its spellings is shorter than the
/// canonical one, and the canonical one reads as the same audio element, whatever follows.
pub fn audio_element_law()
    ensures { (frame_length : ℕ) → IsSyntaxOf (λ f. DescriptorFault.Field f) (audio_element frame_length) audio_element_fields }
{}

/// A valid audio element has a number of channels for each of its substreams, and these add up to its coded channels.
pub fn substream_channels_law()
    ensures length { (frame_length : ℕ) (element : AudioElementFields) (channels : List ℕ) → IsValid (audio_element frame_length) audio_element_fields element → substream_channels_of element.config ≡ Some channels → length channels ≡ length element.audio_substream_ids }
    ensures sum { (element : AudioElementFields) (channels : List ℕ) → substream_channels_of element.config ≡ Some channels → coded_channels_of element.config ≡ Some (sum channels) }
{}
