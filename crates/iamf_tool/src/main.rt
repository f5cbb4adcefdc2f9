//! Lists, checks and canonically writes IAMF sequences (AOMedia Immersive Audio Model and Formats 1.0.0), writes them into
//! MP4 files and reads them out of such files, and plays their mixes into WAV files.
#![tactic(auto)]

mod answer;
mod arguments;
mod canon;
mod checking;
mod command;
mod ending;
mod listing;
mod muxing;
mod notes;
mod piecewise;
mod playing;
mod run;
mod status;
#[cfg(test)]
mod tests;
mod whole;

use iamf_io::{StdSink, StdSource};
use run::run;
use std::process::ExitCode;
use std::{env, io};

// The exit status where the system gives no words for another cause than want of memory.
const NO_WORDS: u8 = 7;

// The exit status where there is no memory for the words.
const NO_MEMORY: u8 = 3;

// The command line without the program's name.
fn words_of(rt: &HostRuntime) -> io::Result<Vec<String>> {
    let mut words = Vec::new(rt.alloc());
    for word in env::args(rt)?.skip(1) {
        words.push(word)?;
    }
    Ok(words)
}

fn main(rt: HostRuntime) -> ExitCode {
    let words = match words_of(&rt) {
        Ok(words) => words,
        Err(e) => {
            return match e.kind() {
                io::ErrorKind::OutOfMemory => ExitCode::from(NO_MEMORY),
                _ => ExitCode::from(NO_WORDS),
            };
        }
    };
    let mut source = StdSource::new(rt.stdin());
    let mut out = StdSink::new(rt.stdout());
    let mut notes = StdSink::new(rt.stderr());
    let status = run(rt.alloc(), &words, &mut source, &mut out, &mut notes);
    ExitCode::from(status.number())
}
