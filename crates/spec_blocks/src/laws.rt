ghost use Rattle.std.specs.Prelude.{ℕ, List};
ghost use Rattle.spec_syntax.specs.Laws.{IsSyntaxOf};
ghost use Rattle.spec_blocks.specs.Shape.{Definition};
ghost use Rattle.spec_blocks.specs.ParameterBlock.{parameter_block};
ghost use Rattle.spec_blocks.specs.AudioFrame.{audio_frame};
ghost use Rattle.spec_blocks.specs.BlockFieldLists.{block_fields, frame_fields};

use crate::fault::BlockFault;

/// Among any definitions, of any bytes exactly one holds: they begin with a parameter block's fields, for one record and
/// one tail, or have one first fault. Each record stands for one list of fields, and what is written canonically reads as
/// the same record.
pub fn parameter_block_law()
    ensures { (definitions : List Definition) → IsSyntaxOf (λ f. BlockFault.Field f) (parameter_block definitions) block_fields }
{}

/// The same of what stands before the codec's frame in an audio frame of each type.
pub fn audio_frame_law()
    ensures { (obu_type : ℕ) → IsSyntaxOf (λ f. f) (audio_frame obu_type) (frame_fields obu_type) }
{}
