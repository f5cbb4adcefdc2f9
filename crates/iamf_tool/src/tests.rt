mod case;
mod files;
mod parts;
mod refusals;
mod selections;
mod sequences;
mod wave_parts;
mod waves;

ghost use Rattle.std.specs.Prelude.{None};

use crate::run::run;
use crate::status::Status;
use case::{Case, PLAIN, check_all, owned};
use iamf_io::{Failed, MemorySink, Source};
use parts::{DELIMITER, DESCRIPTORS, HEAD, SAMPLES};
use std::alloc::{AllocError, Global};
use std::test::Fail;

// One temporal unit.
const ONE_UNIT: &[&[u8]] = &[DESCRIPTORS, DELIMITER, HEAD, SAMPLES];

const ITS_LINES: &[u8] =
    b"0 31 8 ---\n8 0 16 ---\n24 1 12 ---\n36 2 30 ---\n66 4 2 ---\n68 6 34 ---\n";

const LISTED: &[Case<'static>] = &[
    Case {
        words: &["list"],
        input: ONE_UNIT,
        out: &[ITS_LINES],
        ..PLAIN
    },
    Case {
        words: &["list"],
        input: ONE_UNIT,
        out: &[ITS_LINES],
        piece: 1,
        ..PLAIN
    },
    Case {
        words: &["list"],
        ..PLAIN
    },
    // A redundant reserved OBU is allowed; a frame may be trimmed; any OBU may have an extension.
    Case {
        words: &["list"],
        input: &[b"\xc4\x00\x32\x02\x03\x05\xc1\x02\x01\x00"],
        out: &[b"0 24 2 r--\n2 6 4 -t-\n6 24 4 --x\n"],
        ..PLAIN
    },
];

#[test]
fn obus_are_listed(rt: HostRuntime) -> Result<(), Fail> {
    check_all(&rt, rt.alloc(), LISTED)?;
    Ok(())
}

// An input, and what is noted of it.
const FAULTY: &[(&[u8], &[u8])] = &[
    (
        b"\xf8\x86\x80\x80\x80\x80\x80\x80\x80\x00\x00",
        b"refused 0 1\n",
    ),
    (b"\xf8\x80\x80\x80\x80\x10", b"refused 0 1\n"),
    (b"\xf8\xff\xff\xff\xff\x0f", b"refused 0 2\n"),
    (b"\xc0\x00\xfa\x06", b"refused 2 3\n"),
    (b"\x32\x02\x03", b"refused 0 5\n"),
    (b"\x32\x01\x03", b"refused 0 4\n"),
    // A redundant temporal delimiter.
    (b"\x24\x00", b"refused 0 3\n"),
];

#[test]
fn faulty_headers_are_refused_by_place_and_number(rt: HostRuntime) -> Result<(), Fail> {
    for (input, notes) in FAULTY {
        Case::refuses(&["list"], &[*input], notes).check(&rt, rt.alloc())?;
    }
    Ok(())
}

const NO_COMMANDS: &[&[&str]] = &[
    &[],
    &[""],
    &["lists"],
    &["list", "list"],
    &["check", ""],
    &["canon", "check"],
];

#[test]
fn words_that_are_no_command_read_nothing(rt: HostRuntime) -> Result<(), Fail> {
    for words in NO_COMMANDS {
        Case::says_nothing(words, ONE_UNIT).check(&rt, rt.alloc())?;
    }
    Ok(())
}

const FAILURES: &[Case<'static>] = &[
    // The third read, the second write, the flush and the note.
    Case {
        words: &["list"],
        input: ONE_UNIT,
        piece: 40,
        read_fails: &[2],
        status: Status::ReadFault,
        notes: b"read failed\n",
        ..PLAIN
    },
    Case {
        words: &["list"],
        input: ONE_UNIT,
        most: 10,
        write_fails: &[1],
        status: Status::WriteFault,
        out: &[b"0 31 8 ---"],
        notes: b"write failed\n",
        ..PLAIN
    },
    Case {
        words: &["list"],
        input: ONE_UNIT,
        write_fails: &[1],
        status: Status::WriteFault,
        out: &[ITS_LINES],
        notes: b"write failed\n",
        ..PLAIN
    },
    Case {
        words: &["list"],
        input: &[b"\xf8"],
        note_fails: &[0],
        status: Status::Refused,
        ..PLAIN
    },
];

#[test]
fn failures_of_the_outside_have_their_status(rt: HostRuntime) -> Result<(), Fail> {
    check_all(&rt, rt.alloc(), FAILURES)?;
    Ok(())
}

// A source that never ends.
#[derive(Drop)]
struct Endless;

impl Source for Endless {
    ghost left = { λ _. None };

    ghost faults = { λ _. 0 };

    fn read(&mut self, into: &mut [u8]) -> Result<usize, Failed> {
        Ok(into.len())
    }
}

/// The status of a run on it, and whether it wrote nothing and noted that.
fn after_endless(alloc: Global, words: &[String]) -> Result<(Status, bool), AllocError> {
    let mut out = MemorySink::new(alloc, 64, 64, &[])?;
    let mut notes = MemorySink::new(alloc, 64, 64, &[])?;
    let status = run(alloc, words, &mut Endless, &mut out, &mut notes);
    let is_noted = notes.bytes() == b"input too large\n".as_slice();
    Ok((status, out.bytes().is_empty() && is_noted))
}

#[test]
fn an_input_that_never_ends_is_too_large(rt: HostRuntime) -> Result<(), Fail> {
    let words = owned(rt.alloc(), &["list"])?;
    let found = after_endless(rt.alloc(), &words)?;
    assert_eq!(rt; found, (Status::TooLarge, true));
    Ok(())
}

const STATUSES: &[Status] = &[
    Status::Done,
    Status::Refused,
    Status::Usage,
    Status::Memory,
    Status::ReadFault,
    Status::WriteFault,
    Status::TooLarge,
];

#[test]
fn each_status_has_its_number(rt: HostRuntime) {
    for (number, status) in STATUSES.iter().enumerate() {
        assert_eq!(rt; usize::from(status.number()), number);
    }
}
