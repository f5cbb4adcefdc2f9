ghost use Rattle.spec_syntax.specs.Laws.{IsSyntaxOf};
ghost use Rattle.spec_descriptors.specs.SequenceHeader.{sequence_header};
ghost use Rattle.spec_descriptors.specs.CodecConfig.{codec_config};
ghost use Rattle.spec_descriptors.specs.DescriptorFields.{sequence_header_fields, codec_config_fields};

use crate::fault::DescriptorFault;

/// Of any bytes exactly one holds: they begin with one sequence header, or have one first fault. Reading answers
/// it. A sequence header stands for one list of fields, none of its spellings is shorter than the canonical one,
/// and the canonical one reads as the same sequence header, whatever follows.
pub fn sequence_header_law()
    ensures { IsSyntaxOf (λ f. DescriptorFault.Field f) sequence_header sequence_header_fields }
{}

/// The same of codec configs.
pub fn codec_config_law()
    ensures { IsSyntaxOf (λ f. DescriptorFault.Field f) codec_config codec_config_fields }
{}
