//! Descriptors of a sequence by their ids.

ghost use Rattle.std.specs.Prelude.{◌==◌, find, IfSome};
ghost use Rattle.spec_sequence.specs.Parts.{audio_elements};
ghost use Rattle.spec_sequence.specs.Reading.{values_of};
ghost use Rattle.spec_play.specs.Mixes.{mix_of};
ghost use Rattle.obu_descriptors.specs.ElementView.{view_element};
ghost use Rattle.obu_mix.specs.MixView.{view_mix};
ghost use Rattle.iamf_sequence.specs.ContentsView.{IsElement};
ghost use Rattle.iamf_select.specs.Finds.{Finds};

use iamf_sequence::Sequence;
use obu_descriptors::AudioElement;
use obu_mix::MixPresentation;

/// The mix presentation of an id.
pub(crate) fn mix_of<'s, 'a>(sequence: &'s Sequence<'a>, id: u32) -> Option<&'s MixPresentation<'a>>
    ensures { Finds view_mix result (mix_of (values_of sequence.now.entries) id) }
{
    for i in 0..sequence.mix_count() {
        let mix = sequence.mix(i);
        if mix.id == id {
            return Some(mix);
        }
    }
    None
}

/// The audio element of an id.
pub(crate) fn element_of<'s, 'a>(
    sequence: &'s Sequence<'a>,
    id: u32,
) -> Option<&'s AudioElement<'a>>
    ensures found { Finds view_element result (find (λ e. e.audio_element_id == id) (audio_elements (values_of sequence.now.entries))) }
    ensures valid { IfSome result (λ element. IsElement element.now) }
{
    for i in 0..sequence.element_count() {
        let element = sequence.element(i);
        if element.id == id {
            return Some(element);
        }
    }
    None
}
