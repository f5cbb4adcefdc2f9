//! The command that checks its input as it comes in.
ghost use Rattle.std.specs.Prelude.{ℕ, List, IfOk};
ghost use Rattle.spec_report.specs.Report.{report};
ghost use Rattle.iamf_tool.specs.declared.command.Command.TheVariants as given;
ghost use Rattle.iamf_tool.specs.Outcome.{SequenceGives};
ghost use Rattle.iamf_tool.specs.Answers.{view_answer};
ghost use Rattle.iamf_stream.specs.Feeding.{Tells};
ghost use Rattle.iamf_tool.specs.Checks.{Checks};
ghost use Rattle.iamf_tool.specs.Ends.{side, ran, Ends};

use crate::answer::{Answer, answer_to};
use crate::ending::conclude;
use crate::notes::unread;
use crate::status::Status;
use crate::whole::LIMIT;
use iamf_io::{Failed, ReadError, Sink, Source};
use iamf_sequence::{DecodeError, Summary, report};
use iamf_stream::StreamChecker;
use std::alloc::{AllocError, Global};

// The most bytes that are read at once.
const PIECE: usize = 65536;

// Checks the bytes that the source gives, of which there are at most 2^30, and reads them to their end also where they are
// refused before it.
fn checked<R: Source>(
    alloc: Global,
    source: &mut R,
) -> Result<Result<Summary, DecodeError>, ReadError>
    ensures { Checks result (side R.left R.faults source.old source.new) }
{
    let mut checker = StreamChecker::new(alloc);
    let mut piece = [0u8; PIECE];
    let mut read = 0u64;
    // Each read gives a byte, the end or a fault, so there are at most 2^30 + 2 of them.
    'reading: loop {
        let most = (LIMIT + 1 - read).min(PIECE as u64) as usize;
        let count = match source.read(&mut piece[..most]) {
            Ok(count) => count,
            Err(Failed) => return Err(ReadError::Failed),
        };
        if count == 0 {
            return Ok(checker.finish());
        }
        read += count as u64;
        if read > LIMIT {
            return Err(ReadError::TooLarge);
        }
        // Why it goes no further it answers again at the end.
        let _ = checker.feed(&piece[..count]);
    }
}

// The report of the sequence, or the refusal.
fn report_of(alloc: Global, answer: Result<Summary, DecodeError>) -> Result<Answer, AllocError>
    ensures { IfOk result (λ a. (bytes : List ℕ) → Tells answer bytes → SequenceGives report bytes (view_answer a)) }
{
    match answer {
        Ok(summary) => Ok(Answer::Output(report(alloc, &summary)?)),
        Err(error) => answer_to(error),
    }
}

/// Reads the input piece by piece, and writes the report of the sequence that it is, or notes why it is none.
pub fn check<R: Source, W: Sink, N: Sink>(
    alloc: Global,
    source: &mut R,
    out: &mut W,
    notes: &mut N,
) -> Status
    ensures { Ends result given.Check (ran (side R.left R.faults source.old source.new)
        (side W.held W.faults out.old out.new) (side N.held N.faults notes.old notes.new)) }
{
    match checked(alloc, source) {
        Ok(answer) => conclude(alloc, report_of(alloc, answer), out, notes),
        Err(error) => unread(error, notes),
    }
}
