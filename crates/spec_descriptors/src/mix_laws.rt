ghost use Rattle.spec_syntax.specs.Laws.{IsSyntaxOf};
ghost use Rattle.spec_descriptors.specs.MixPresentation.{mix_presentation};
ghost use Rattle.spec_descriptors.specs.MixFields.{mix_presentation_fields};

use crate::fault::MixFault;

/// Of any bytes exactly one holds: they begin with one mix presentation, or have one first fault. Reading answers it. A
/// mix presentation stands for one list of fields, none of its spellings is shorter than the canonical one, and the
/// canonical one reads as the same mix presentation, whatever follows.
pub fn mix_presentation_law()
    ensures { IsSyntaxOf (λ f. MixFault.Field f) mix_presentation mix_presentation_fields }
{}
