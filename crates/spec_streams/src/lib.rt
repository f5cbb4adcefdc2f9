//! Streams of IAMF OBUs that come in pieces: what is sure of the bytes so far, however they go on.
#![tactic(auto)]

ghost use Rattle.spec_streams.specs.Laws.{SureFaultStays, PartialIsNotWhole, ObuFaultIsItsOwn, SettledStays, PartialIsNotSettled};

/// What stands at the front of bytes, and is not just cut off, stands there however they go on.
pub fn front_law()
    ensures stays { SureFaultStays }
    ensures partial { PartialIsNotWhole }
    ensures own { ObuFaultIsItsOwn }
{}

/// A settled refusal is the refusal of each list of bytes that begins so. After OBUs that are admitted, the front of one
/// that is cut off settles nothing.
pub fn settled_law()
    ensures stays { SettledStays }
    ensures partial { PartialIsNotSettled }
{}
