ghost use Rattle.std.specs.Prelude.{◌≡◌, ◌++◌, IfOk};
ghost use Rattle.iamf_tool.specs.Status.{status_of, status_line};
ghost use Rattle.iamf_tool.specs.Ends.{side, Noted, Refuses, refusal_line, unplayable_line};

use crate::status::Status;
use iamf_io::{ReadError, Sink, write_all};
use itoa::Buffer;
use std::alloc::{AllocError, Global};

// Writes a line on the notes. Their failure changes nothing.
fn note<N: Sink>(notes: &mut N, line: &[u8])
    ensures { Noted (side N.held N.faults notes.old notes.new) line.now }
{
    match write_all(notes, line) {
        Ok(()) => {}
        Err(_) => {}
    }
}

/// Notes the line of the status, and answers it.
pub fn ended<N: Sink>(status: Status, notes: &mut N) -> Status
    ensures same { result ≡ status }
    ensures noted { Noted (side N.held N.faults notes.old notes.new) (status_line status) }
{
    note(notes, status.line());
    status
}

/// Notes why the input was not read, and answers the status.
pub fn unread<N: Sink>(error: ReadError, notes: &mut N) -> Status
    ensures same { result ≡ status_of error }
    ensures noted { Noted (side N.held N.faults notes.old notes.new) (status_line (status_of error)) }
{
    match error {
        ReadError::Failed => ended(Status::ReadFault, notes),
        ReadError::TooLarge => ended(Status::TooLarge, notes),
        ReadError::Memory(_) => ended(Status::Memory, notes),
    }
}

// The line of a refusal.
fn refusal(alloc: Global, at: u64, code: u32) -> Result<Vec<u8>, AllocError>
    ensures { IfOk result (λ line. line.items ≡ refusal_line at code) }
{
    let mut digits = Buffer::new();
    let mut line = Vec::from_slice(alloc, b"refused ")?;
    line.extend_from_slice(digits.format(at).as_bytes())?;
    line.push(b' ')?;
    line.extend_from_slice(digits.format(code).as_bytes())?;
    line.push(b'\n')?;
    Ok(line)
}

// The line of a mix that is not played.
fn unplayable(alloc: Global, code: u32) -> Result<Vec<u8>, AllocError>
    ensures { IfOk result (λ line. line.items ≡ unplayable_line code) }
{
    let mut digits = Buffer::new();
    let mut line = Vec::from_slice(alloc, b"unplayable ")?;
    line.extend_from_slice(digits.format(code).as_bytes())?;
    line.push(b'\n')?;
    Ok(line)
}

/// Notes the place and the number of a refusal.
pub fn refuse<N: Sink>(alloc: Global, at: u64, code: u32, notes: &mut N) -> Status
    ensures { Refuses result (refusal_line at code) (side N.held N.faults notes.old notes.new) }
{
    match refusal(alloc, at, code) {
        Ok(line) => {
            note(notes, &line);
            Status::Refused
        }
        Err(_) => ended(Status::Memory, notes),
    }
}

/// Notes the number of the rule for which a mix is not played.
pub fn refuse_to_play<N: Sink>(alloc: Global, code: u32, notes: &mut N) -> Status
    ensures { Refuses result (unplayable_line code) (side N.held N.faults notes.old notes.new) }
{
    match unplayable(alloc, code) {
        Ok(line) => {
            note(notes, &line);
            Status::Refused
        }
        Err(_) => ended(Status::Memory, notes),
    }
}
