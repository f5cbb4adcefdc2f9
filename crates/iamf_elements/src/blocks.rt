//! What the selection and the player ask of a parameter block.

ghost use Rattle.std.specs.Prelude.{◌≡◌, [], map, if◌then◌else◌, ◌==◌};
ghost use Rattle.std.specs.List.{list_any};
ghost use Rattle.std.specs.Option.{option_to_list};
ghost use Rattle.obu_data.specs.BlockView.{view_gain_part, view_block};
ghost use Rattle.spec_play.specs.DemixingOverTime.{mode_in};
ghost use Rattle.spec_play.specs.Selection.{parts_in, is_bezier, goes_above};

use obu_data::{BlockContent, GainPart, ParameterBlock};

/// Whether the block has the id.
pub fn is_block_of(id: u32, block: &ParameterBlock<'_>) -> bool
    ensures { result ≡ ((view_block block.now).parameter_id == id) }
{
    block.id == id
}

/// The demixing mode of a block of the id; none of another block.
pub fn block_mode(id: u32, block: &ParameterBlock<'_>) -> Option<u8>
    ensures { option_to_list result ≡ (if (view_block block.now).parameter_id == id then mode_in (view_block block.now).content else []) }
{
    match &block.content {
        BlockContent::Demix { mode } if block.id == id => Some(*mode),
        _ => None,
    }
}

/// Whether a part is animated by a Bezier curve.
fn is_bezier(part: GainPart) -> bool
    ensures { result ≡ is_bezier (view_gain_part part) }
{
    match part {
        GainPart::Bezier { .. } => true,
        _ => false,
    }
}

/// Whether a part starts or ends above 32 dB.
fn is_above(part: GainPart) -> bool
    ensures { result ≡ goes_above (view_gain_part part) }
{
    match part {
        GainPart::Step { start } => start > 8192,
        GainPart::Linear { start, end } => start > 8192 || end > 8192,
        GainPart::Bezier { start, end, .. } => start > 8192 || end > 8192,
    }
}

/// Whether some part is animated by a Bezier curve.
fn some_bezier(parts: &[GainPart]) -> bool
    ensures { result ≡ list_any (λ part. is_bezier (view_gain_part part)) parts.now }
{
    parts.iter().any(|part| is_bezier(*part))
}

/// Whether some part starts or ends above 32 dB.
fn some_above(parts: &[GainPart]) -> bool
    ensures { result ≡ list_any (λ part. goes_above (view_gain_part part)) parts.now }
{
    parts.iter().any(|part| is_above(*part))
}

/// The parts of a block of mix gains; of another block none.
pub fn parts_of<'p>(block: &'p ParameterBlock<'_>) -> &'p [GainPart]
    ensures { map view_gain_part result.now ≡ parts_in (view_block block.now).content }
{
    match &block.content {
        BlockContent::Gain { parts, .. } => parts.as_slice(),
        _ => &[],
    }
}

/// Whether the block has a part that is animated by a Bezier curve.
pub fn has_bezier(block: &ParameterBlock<'_>) -> bool
    ensures { result ≡ list_any is_bezier (parts_in (view_block block.now).content) }
{
    some_bezier(parts_of(block))
}

/// Whether the block has a part that starts or ends above 32 dB.
pub fn goes_above(block: &ParameterBlock<'_>) -> bool
    ensures { result ≡ list_any goes_above (parts_in (view_block block.now).content) }
{
    some_above(parts_of(block))
}
