//! The boxes of an MP4 file with an IAMF track: what they are, which rules hold of a file that is read, which
//! rule is the first to fail of one that is not, and laws of these.
#![tactic(auto)]

ghost use Rattle.spec_boxes.specs.Laws.{EachHasOne, ReadingIsRules};
ghost use Rattle.spec_boxes.specs.Tiling.{PartsTile};
ghost use Rattle.spec_boxes.specs.Chunks.{SamplesLie, ChunksCount};
ghost use Rattle.spec_boxes.specs.ObuLists.{ObusAreWhole, WholeAreObus};

mod fault;
mod kinds;

pub use fault::{BoxFault, BoxRefusal};
pub use kinds::{
    CO64, EDTS, ELST, IACB, IAMF, MDIA, MINF, MOOF, MOOV, MVEX, ROLL, SBGP, SGPD, STBL, STCO, STSC,
    STSD, STSZ, STTS, TRAK,
};

/// Of every file exactly one holds, all rules with one configuration and one list of samples, or one first rule
/// that fails at one place with one code; and reading box by box answers exactly this.
pub fn one_answer()
    ensures one { EachHasOne }
    ensures read { ReadingIsRules }
{}

/// The boxes that are read of a part stand end to end from its start to its end, wherever there are such boxes;
/// and else reading stops at the one place where no box stands.
pub fn parts_tile()
    ensures { PartsTile }
{}

/// The samples of a chunk lie end to end from its place on (`samples`), and a chunk has as many samples as the
/// last run that begins at or before it says (`chunks`).
pub fn samples_lie()
    ensures samples { SamplesLie }
    ensures chunks { ChunksCount }
{}

/// Bytes that pass as a list of OBUs of some types are whole OBUs of these types one after the other, and such
/// bytes pass.
pub fn obus_whole()
    ensures whole { ObusAreWhole }
    ensures again { WholeAreObus }
{}
