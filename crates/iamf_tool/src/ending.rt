//! How the work on a whole input ends.
ghost use Rattle.std.specs.Prelude.{◌≡◌, ℕ, List, IfOk};
ghost use Rattle.iamf_tool.specs.declared.command.Command as given;
ghost use Rattle.iamf_tool.specs.Outcome.{Outcome};
ghost use Rattle.iamf_tool.specs.Answers.{view_answer};
ghost use Rattle.iamf_tool.specs.Ends.{side, Delivers, Concludes};

use crate::answer::Answer;
use crate::notes::{ended, refuse, refuse_to_play};
use crate::status::Status;
use iamf_io::{Sink, write_all};
use std::alloc::{AllocError, Global};

// Writes the output.
fn deliver<W: Sink, N: Sink>(output: &[u8], out: &mut W, notes: &mut N) -> Status
    ensures { Delivers result output.now (side W.held W.faults out.old out.new)
        (side N.held N.faults notes.old notes.new) }
{
    match write_all(out, output) {
        Ok(()) => {}
        Err(_) => return ended(Status::WriteFault, notes),
    }
    match out.flush() {
        Ok(()) => Status::Done,
        Err(_) => ended(Status::WriteFault, notes),
    }
}

/// Writes what a command gives for its input, or notes why it gives nothing. An `Err` says that there is no memory.
pub fn conclude<W: Sink, N: Sink>(
    alloc: Global,
    answer: Result<Answer, AllocError>,
    out: &mut W,
    notes: &mut N,
) -> Status
    ensures { (c : given.Command) (b : List ℕ) → IfOk answer (λ a. Outcome c b (view_answer a))
        → Concludes result c b (side W.held W.faults out.old out.new) (side N.held N.faults notes.old notes.new) }
{
    match answer {
        Ok(Answer::Output(output)) => deliver(&output, out, notes),
        Ok(Answer::Refusal { at, code }) => refuse(alloc, at, code, notes),
        Ok(Answer::Unplayable { code }) => refuse_to_play(alloc, code, notes),
        Err(_) => ended(Status::Memory, notes),
    }
}
