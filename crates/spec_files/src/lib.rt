//! The body of a sequence, its descriptors and its temporal units; the MP4 file and the bare sequence that are
//! written of a body; and the laws that these have that body.
#![tactic(auto)]

ghost use Rattle.spec_files.specs.Laws.{FileHolds, FileHoldsOnly, UnitsAreFew, RebuiltHasBody, OneBody};

/// The file that is written of a body of at most 2^30 bytes holds it (`holds`) and no other (`only`). The units of
/// such a body are few enough wherever each has two bytes (`few`).
pub fn file_holds()
    ensures holds { FileHolds }
    ensures only { FileHoldsOnly }
    ensures few { UnitsAreFew }
{}

/// The bare sequence that is built of a body has that body (`body`), and bytes have one body (`one`).
pub fn rebuilt_keeps()
    ensures body { RebuiltHasBody }
    ensures one { OneBody }
{}
