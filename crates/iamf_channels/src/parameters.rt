//! The demixing parameters of an element over time (IAMF 1.0.0, "Demixing Info Parameter Data").

ghost use Rattle.std.specs.Prelude.{◌≡◌, ◌+◌, ◌<◌, ◌≤◌, ◌&&◌, false, Some, None, length};
ghost use Rattle.std.specs.List.{list_any};
ghost use Rattle.spec_gains.specs.Modes.{mode_of, IsMode};
ghost use Rattle.spec_gains.specs.Weights.{weight_of};
ghost use Rattle.spec_descriptors.specs.AudioElement.{AudioElementFields};
ghost use Rattle.spec_play.specs.Mixes.{Rendition};
ghost use Rattle.spec_play.specs.DemixingOverTime.{unit_modes, index_after_modes};
ghost use Rattle.spec_play.specs.DemixingOverTime as fields;
ghost use Rattle.spec_play.specs.Selection.{is_reserved, needs_parameters, has_reserved};
ghost use Rattle.obu_descriptors.specs.ElementView.{view_element};
ghost use Rattle.iamf_channels.specs.Heard.{units_in, unit_in};
ghost use Rattle.iamf_channels.specs.Parameters.{AreParameters, HasParameters, IsUnreserved, AreUnreserved, unit_parameters, HasDemixing, AreSound};

use demix_channels::DemixParams;
use iamf_elements::{DemixingDefinition, demixing_of, need_parameters, unit_mode, used_layers};
use iamf_mixing::{index_after, parameters};
use iamf_sequence::Sequence;
use obu_descriptors::AudioElement;
use spec_play::Target;

/// The demixing parameters of an element after some units.
#[derive(Clone, Copy)]
pub(crate) struct Demixing {
    /// How they are found; `None` where they do not matter.
    definition: Option<DemixingDefinition>,
    /// The index of the weight after those units.
    index: u8,
    /// Of the last of those units.
    params: DemixParams,
}

impl Demixing {
    /// The parameters of the last unit.
    pub(crate) fn params(self) -> DemixParams
        ensures { result ≡ self.params }
    {
        self.params
    }
}

/// The parameters of a mode that is not reserved.
fn params_of(mode: u8, index: u8) -> DemixParams
    requires { is_reserved mode ≡ false }
    ensures mode { mode_of mode ≡ Some result.mode }
    ensures weight { weight_of index ≡ result.weight }
    ensures listed { IsMode result.mode }
    ensures small { result.weight ≤ 5000 }
{
    match parameters(mode, index) {
        Some(params) => params,
        None => unreachable!(),
    }
}

/// How an element's parameters are found, where they matter.
fn definition_of(target: Target, element: &AudioElement<'_>) -> Option<DemixingDefinition>
    ensures by { (r : Rendition) → r.target ≡ target → HasParameters r (view_element element.now) result }
    ensures unreserved { (r : Rendition) → r.target ≡ target → (needs_parameters r.target (view_element element.now) && list_any (has_reserved r.units) (fields.demixing_of (view_element element.now))) ≡ false → AreUnreserved r.units result }
{
    if need_parameters(used_layers(target, element)) {
        demixing_of(element)
    } else {
        None
    }
}

/// The parameters of an element before the first unit.
pub(crate) fn first_demixing(target: Target, element: &AudioElement<'_>) -> Demixing
    ensures has { (r : Rendition) → r.target ≡ target → (needs_parameters r.target (view_element element.now) && list_any (has_reserved r.units) (fields.demixing_of (view_element element.now))) ≡ false → HasDemixing r (view_element element.now) 0 result }
    ensures sound { AreSound result }
{
    Demixing {
        definition: definition_of(target, element),
        index: 0,
        params: params_of(0, 0),
    }
}

/// The parameters by a definition, taken on to unit `u`, before which the index of the weight is `index`.
fn taken_on(
    definition: DemixingDefinition,
    index: u8,
    sequence: &Sequence<'_>,
    u: usize,
) -> Demixing
    requires unit { u < length (units_in sequence.now) }
    requires unreserved { IsUnreserved (unit_in sequence.now u) definition }
    requires index { index ≤ 10 }
    ensures definition { result.definition ≡ Some definition }
    ensures index { result.index ≡ index_after_modes (unit_modes definition.id (unit_in sequence.now u)) index }
    ensures params { AreParameters (unit_parameters (unit_in sequence.now u) definition result.index) result.params }
    ensures sound { AreSound result }
{
    let mode = unit_mode(definition.id, sequence.unit(u));
    let index = index_after(mode, index);
    let params = match mode {
        Some(code) => params_of(code, index),
        None => params_of(definition.mode, definition.weight_index),
    };
    Demixing {
        definition: Some(definition),
        index,
        params,
    }
}

/// The parameters taken on to unit `u`, the next one.
pub(crate) fn next_demixing(before: Demixing, sequence: &Sequence<'_>, u: usize) -> Demixing
    requires unit { u < length (units_in sequence.now) }
    requires unreserved { AreUnreserved (units_in sequence.now) before.definition }
    requires sound { AreSound before }
    ensures has { (r : Rendition) (element : AudioElementFields) → r.units ≡ units_in sequence.now → HasDemixing r element u before → HasDemixing r element (u + 1) result }
    ensures sound { AreSound result }
{
    match before.definition {
        Some(definition) => taken_on(definition, before.index, sequence, u),
        None => before,
    }
}
