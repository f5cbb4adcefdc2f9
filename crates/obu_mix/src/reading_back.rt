//! What is written is read again.
ghost use Rattle.obu_mix.specs.SameMix.{WrittenReadsBack};

/// What `MixPresentation::write` gives for a valid mix presentation is read as the same one, unless memory runs out.
pub fn written_mix_presentation_law()
    ensures { WrittenReadsBack }
{}
