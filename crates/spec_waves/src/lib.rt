//! The WAV file of some sound, and laws of it.
#![tactic(auto)]

ghost use Rattle.spec_waves.specs.Laws.{HeaderHasSize, RiffHasSize, SampleIsSpelled};

/// The header has 68 bytes (`header`), the size in it counts all that follows it (`riff`), and the bytes of a
/// sample spell it in two's complement (`sample`).
pub fn wave_law()
    ensures header { HeaderHasSize }
    ensures riff { RiffHasSize }
    ensures sample { SampleIsSpelled }
{}
