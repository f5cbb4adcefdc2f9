//! The blocks of a mix gain (IAMF 1.0.0, "Parameter Block OBU Syntax and Semantics").

ghost use Rattle.std.specs.Prelude.{◌≡◌, [], ◌∷◌, None, Some, MatchOption};
ghost use Rattle.obu_data.specs.BlockView.{view_block};
ghost use Rattle.obu_mix_elements.specs.MixGainView.{view_mix_gain};
ghost use Rattle.spec_sequence.specs.Parts.{BlockValue};
ghost use Rattle.spec_play.specs.GainsOverTime.{gain_block_of};
ghost use Rattle.iamf_mixing.specs.Rows.{block_of};

use obu_data::{BlockContent, GainPart, ParameterBlock};
use obu_mix_elements::MixGain;
use obu_timing::Fixed;

/// A block's own timing, or that of the definition where it has none.
fn timing_of<'b>(own: &'b Option<Fixed>, defined: &'b Option<Fixed>) -> Option<&'b Fixed>
    ensures { MatchOption result ((own.now ≡ None) × (defined.now ≡ None)) (λ fixed. MatchOption own.now (defined.now ≡ Some fixed.now) (λ f. f ≡ fixed.now)) }
{
    match own {
        Some(fixed) => Some(fixed),
        None => match defined {
            Some(fixed) => Some(fixed),
            None => None,
        },
    }
}

/// The timing and the subblocks of a block of the mix gain. `None` for a block of another parameter, or of another kind.
pub fn gain_block<'b>(
    gain: &'b MixGain,
    block: &'b ParameterBlock<'_>,
) -> Option<(&'b Fixed, &'b [GainPart])>
    ensures { (b : BlockValue) → b.fields ≡ view_block block.now → MatchOption result (gain_block_of (view_mix_gain gain.now) b ≡ []) (λ p. gain_block_of (view_mix_gain gain.now) b ≡ block_of p.0.now p.1.now ∷ []) }
{
    if block.id != gain.timing.id {
        return None;
    }
    match &block.content {
        BlockContent::Gain { timing, parts } => match timing_of(timing, &gain.timing.fixed) {
            Some(fixed) => Some((fixed, parts.as_slice())),
            None => None,
        },
        _ => None,
    }
}
