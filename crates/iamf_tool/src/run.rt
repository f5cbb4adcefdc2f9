ghost use Rattle.iamf_tool.specs.Words.{command_of, IsHearableCommand};
ghost use Rattle.iamf_tool.specs.Ends.{side, ran, Ends, Runs};
ghost use Rattle.iamf_tool.specs.Complete.{Completes};

use crate::checking::check;
use crate::command::{Command, read_words};
use crate::notes::ended;
use crate::playing::play;
use crate::status::Status;
use crate::whole::whole;
use iamf_io::{Sink, Source};
use std::alloc::Global;

// Does what the command says. Each command is a job of its own.
fn job<R: Source, W: Sink, N: Sink>(
    alloc: Global,
    command: Command,
    source: &mut R,
    out: &mut W,
    notes: &mut N,
) -> Status
    requires { IsHearableCommand command }
    ensures { Ends result command (ran (side R.left R.faults source.old source.new)
        (side W.held W.faults out.old out.new) (side N.held N.faults notes.old notes.new)) }
{
    match command {
        Command::Check => check(alloc, source, out, notes),
        Command::Convert(conversion) => whole(alloc, conversion, source, out, notes),
        Command::Play { mix, target } => play(alloc, mix, target, source, out, notes),
    }
}

/// Does what the words say: reads `source` to its end, writes the output on `out` and a line on `notes` where
/// there is none. `words` are the command line without the program's name.
///
/// The status says how it ended, and the clauses what then stands on `source`, `out` and `notes`:
///
/// - `Done`: the whole input was read, and `out` has grown by the output that the command gives for it.
/// - `Refused`: the whole input was read and is refused, or its mix is not played; `notes` has the line of the refusal.
/// - `Usage` exactly where the words are no command; nothing is read.
/// - `Memory` where there is no memory; `out` is unchanged.
/// - `ReadFault` only where the source's count of faults rose in this call; `out` is unchanged.
/// - `WriteFault` only where the count of `out` rose in this call; `out` has grown by a front of the output.
/// - `TooLarge` exactly where the source gave 2^30 + 1 bytes without a fault; `out` is unchanged.
///
/// The input is the bytes that the source gave in this call; of a source that tells its bytes, they are all of these. A
/// failure of `notes` changes no status: it then holds a front of its line.
pub fn run<R: Source, W: Sink, N: Sink>(
    alloc: Global,
    words: &[String],
    source: &mut R,
    out: &mut W,
    notes: &mut N,
) -> Status
    // How it ends, whatever pieces the input comes in.
    ensures ends { Runs result (command_of words.now) (ran (side R.left R.faults source.old source.new)
        (side W.held W.faults out.old out.new) (side N.held N.faults notes.old notes.new)) }

    // How it has to end where nothing failed, unless there was no memory.
    ensures completes { Completes result (command_of words.now) (ran (side R.left R.faults source.old source.new)
        (side W.held W.faults out.old out.new) (side N.held N.faults notes.old notes.new)) }
{
    match read_words(words) {
        Some(command) => job(alloc, command, source, out, notes),
        None => ended(Status::Usage, notes),
    }
}
