//! Laws of playing. Each function is empty: its clauses are the laws.

ghost use Rattle.std.specs.Prelude.{◌≡◌, [], ◌∷◌, pos, negsuc};
ghost use Rattle.spec_blocks.specs.ParameterBlock.{Step, Linear};
ghost use Rattle.spec_play.specs.GainsOverTime.{part_gain};
ghost use Rattle.spec_play.specs.DemixingOverTime.{index_after_modes};
ghost use Rattle.spec_play.specs.Laws.{FixedMixIsNear, FixedWavePlays, SelectedIsPlayable, SomeExact, RowsAreOfFrame, FramesAreWhole, OneCodecConfig};

/// A mix of a sequence that the selection passes is played.
pub fn selected_mixes_are_playable()
    ensures { SelectedIsPlayable }
{}

/// Each sample has an exact value.
pub fn exact_values_are_there()
    ensures { SomeExact }
{}

/// The mix in units of 1/2^28 differs from the exact one by less than 2^22 units.
pub fn the_fixed_mix_is_near()
    ensures { FixedMixIsNear }
{}

/// The header, the bytes of the units and the byte that makes their number even are a WAV file that plays the mix.
pub fn the_fixed_wave_plays()
    ensures { FixedWavePlays }
{}

/// The rows of samples of a FLAC frame are those of its fields.
pub fn rows_are_of_the_frame()
    ensures { RowsAreOfFrame }
{}

/// The frames of each unit of a sequence are whole: one of each substream, which its codec decodes.
pub fn frames_are_whole()
    ensures whole { FramesAreWhole }
    ensures codec { OneCodecConfig }
{}

/// From 0 dB to -6 dB in eight ticks, the gain at tick 4 is 0.750593616813.
pub fn linear_gains_are_exact()
    ensures first { part_gain 8 (Linear (pos 0) (negsuc 1535)) 0 ≡ 1000000000000 }
    ensures middle { part_gain 8 (Linear (pos 0) (negsuc 1535)) 4 ≡ 750593616813 }
    ensures step { part_gain 8 (Step (negsuc 1535)) 7 ≡ 501187233627 }
{}

/// The modes 0 to 2 take the index down to 0, the modes 4 to 6 up to 10, and the reserved ones leave it.
pub fn indices_are_stepped()
    ensures down { index_after_modes (2 ∷ []) 5 ≡ 4 }
    ensures least { index_after_modes (0 ∷ []) 0 ≡ 0 }
    ensures up { index_after_modes (4 ∷ []) 5 ≡ 6 }
    ensures most { index_after_modes (6 ∷ []) 10 ≡ 10 }
    ensures kept { index_after_modes (7 ∷ []) 5 ≡ 5 }
{}
