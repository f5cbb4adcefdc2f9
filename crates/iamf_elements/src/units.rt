//! What the selection asks of temporal units.

ghost use Rattle.std.specs.Prelude.{◌≡◌, ℕ, take};
ghost use Rattle.std.specs.List.{list_any};
ghost use Rattle.std.specs.Option.{option_to_list};
ghost use Rattle.spec_sequence.specs.Parts.{UnitValue, temporal_units};
ghost use Rattle.spec_sequence.specs.Reading.{values_of};
ghost use Rattle.spec_play.specs.DemixingOverTime.{unit_modes};
ghost use Rattle.spec_play.specs.Selection.{is_reserved, uses_reserved, has_reserved};
ghost use Rattle.iamf_sequence.specs.UnitView.{IsUnit, view_block_value};
ghost use Rattle.iamf_elements.specs.DemixingView.{view_demixing};
ghost use Rattle.iamf_elements.specs.BlockTests.{passes, unit_passes};

use crate::blocks::{block_mode, goes_above, has_bezier, is_block_of};
use crate::demixing::DemixingDefinition;
use iamf_sequence::{Sequence, Unit};
use obu_data::ParameterBlock;

/// What is asked of a block of a mix gain.
#[derive(Clone, Copy, Debug, PartialEq, Eq)]
pub enum BlockTest {
    /// Nothing.
    Any,
    /// That a part is animated by a Bezier curve.
    Bezier,
    /// That a part starts or ends above 32 dB.
    High,
}

/// Whether a block has the id and passes the test.
fn passes(test: BlockTest, id: u32, block: &ParameterBlock<'_>) -> bool
    ensures { result ≡ passes test id (view_block_value block.now) }
{
    match test {
        BlockTest::Any => is_block_of(id, block),
        BlockTest::Bezier => is_block_of(id, block) && has_bezier(block),
        BlockTest::High => is_block_of(id, block) && goes_above(block),
    }
}

/// Whether a block of the unit has the id and passes the test.
fn unit_passes(test: BlockTest, id: u32, unit: &Unit<'_>) -> bool
    ensures { (v : UnitValue) → IsUnit unit.now v → result ≡ unit_passes test id v }
{
    for i in 0..unit.block_count() {
        if passes(test, id, unit.block(i)) {
            return true;
        }
    }
    false
}

/// Whether a block of some unit has the id and passes the test.
pub fn some_block(test: BlockTest, id: u32, sequence: &Sequence<'_>) -> bool
    ensures { result ≡ list_any (unit_passes test id) (temporal_units (values_of sequence.now.entries)) }
{
    for u in 0..sequence.unit_count() {
        if unit_passes(test, id, sequence.unit(u)) {
            return true;
        }
    }
    false
}

/// The demixing mode of the unit's first block of the id, of which there is one at most.
pub fn unit_mode(id: u32, unit: &Unit<'_>) -> Option<u8>
    ensures { (v : UnitValue) → IsUnit unit.now v → option_to_list result ≡ take 1 (unit_modes id v) }
{
    for i in 0..unit.block_count() {
        if let Some(mode) = block_mode(id, unit.block(i)) {
            return Some(mode);
        }
    }
    None
}

/// Whether a mode is reserved.
fn is_reserved(mode: u8) -> bool
    ensures { result ≡ is_reserved mode }
{
    match mode {
        0 | 1 | 2 | 4 | 5 | 6 => false,
        _ => true,
    }
}

/// Whether the unit's block has a reserved mode or, where it has none, the definition.
fn uses_reserved(definition: DemixingDefinition, unit: &Unit<'_>) -> bool
    ensures { (v : UnitValue) → IsUnit unit.now v → result ≡ uses_reserved (view_demixing definition) (unit_modes definition.id v) }
{
    match unit_mode(definition.id, unit) {
        Some(mode) => is_reserved(mode),
        None => is_reserved(definition.mode),
    }
}

/// Whether some unit uses a reserved mode.
pub fn has_reserved(definition: DemixingDefinition, sequence: &Sequence<'_>) -> bool
    ensures { result ≡ has_reserved (temporal_units (values_of sequence.now.entries)) (view_demixing definition) }
{
    for u in 0..sequence.unit_count() {
        if uses_reserved(definition, sequence.unit(u)) {
            return true;
        }
    }
    false
}
