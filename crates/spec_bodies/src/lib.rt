//! The body of a sequence, the MP4 file that is written of it, and the laws that the file and the rebuilt sequence have
//! this body.
#![tactic(auto)]

ghost use Rattle.spec_bodies.specs.Laws.{ReadIsSequence, SequenceReads, OneSequence, OneSequenceBody, WrittenHolds, RebuiltReads, OneFile, OneBare, FileKeepsBody};

/// Bytes that read are the OBUs of one sequence, which has one body.
pub fn sequence_has_body()
    ensures read { ReadIsSequence }
    ensures reads { SequenceReads }
    ensures one { OneSequence }
    ensures one_body { OneSequenceBody }
{}

/// The file that is written of a sequence of at most 2^30 bytes holds its body, and nothing else.
pub fn written_holds()
    ensures holds { WrittenHolds }
    ensures one { OneFile }
{}

/// What is rebuilt of the body of a sequence reads, and has this body; so does what is read out of its file.
pub fn rebuilt_reads()
    ensures reads { RebuiltReads }
    ensures one { OneBare }
    ensures keeps { FileKeepsBody }
{}
