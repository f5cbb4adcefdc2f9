//! The demixing definition of an element (IAMF 1.0.0, "Demixing Info Parameter Definition").

ghost use Rattle.std.specs.Prelude.{◌≡◌, map, take};
ghost use Rattle.std.specs.Option.{option_to_list};
ghost use Rattle.obu_descriptors.specs.ElementView.{view_element};
ghost use Rattle.obu_descriptors.specs.ParameterView.{view_param};
ghost use Rattle.spec_play.specs.DemixingOverTime.{demixing_in, demixing_of};
ghost use Rattle.iamf_elements.specs.DemixingView.{view_demixing};

use obu_descriptors::{AudioElement, Param};

/// What a demixing definition says.
#[derive(Clone, Copy, Debug, PartialEq, Eq)]
pub struct DemixingDefinition {
    /// The id of its parameter blocks.
    pub id: u32,
    /// `dmixp_mode` of units without a block.
    pub mode: u8,
    /// `default_w`: the index of the weight of units without a block.
    pub weight_index: u8,
}

/// What a parameter says, if it is a demixing definition.
pub fn demixing_in(param: &Param<'_>) -> Option<DemixingDefinition>
    ensures { map view_demixing (option_to_list result) ≡ demixing_in (view_param param.now) }
{
    match param {
        Param::Demix {
            timing,
            mode,
            weight,
        } => Some(DemixingDefinition {
            id: timing.id,
            mode: *mode,
            weight_index: *weight,
        }),
        _ => None,
    }
}

/// The element's first demixing definition, of which a sequence has one at most.
pub fn demixing_of(element: &AudioElement<'_>) -> Option<DemixingDefinition>
    ensures { map view_demixing (option_to_list result) ≡ take 1 (demixing_of (view_element element.now)) }
{
    for param in element.params.as_slice() {
        if let Some(definition) = demixing_in(param) {
            return Some(definition);
        }
    }
    None
}
