//! Laws of the definitions. Each function is empty: its clauses are the laws.

ghost use Rattle.spec_sequence.specs.Laws.{EitherReadsOrRefused, ReadsIsNotRefused, OneEntries, OneReading, OneRefusal, EncodedReads, EncodedSame, NarrowSame};

/// Of any bytes exactly one holds: they read as one sequence, or they are refused at one place for one fault.
pub fn one_answer()
    ensures either { EitherReadsOrRefused }
    ensures not_both { ReadsIsNotRefused }
    ensures entries { OneEntries }
    ensures reading { OneReading }
    ensures refusal { OneRefusal }
{}

/// What is written of a sequence that was read reads as the same values, and canonical bytes are written as they were.
pub fn encoded_law()
    ensures reads { EncodedReads }
    ensures same { EncodedSame }
{}

/// Bytes are a sequence of the Simple or the Base profile exactly where they are one by the rules without the wide
/// profile, with the same values.
pub fn narrow_law()
    ensures { NarrowSame }
{}
