//! Runs over memory.
use crate::run::run;
use crate::status::Status;
use iamf_io::{MemorySink, MemorySource};
use iamf_sequence::{Sequence, decode, encode, encode_obu, report, summary};
use std::alloc::{AllocError, Global};
use std::process::Abort;
use std::test::Fail;

/// What stands at the end of a run.
#[derive(Debug, Drop, PartialEq, Eq)]
pub struct Ended {
    pub status: Status,
    pub out: Vec<u8>,
    pub notes: Vec<u8>,
}

/// What a run takes, and how it ends.
#[derive(Clone, Copy)]
pub struct Case<'a> {
    pub words: &'a [&'a str],
    /// The parts of the input, one after the other.
    pub input: &'a [&'a [u8]],
    /// How many bytes a read gives at most.
    pub piece: usize,
    pub read_fails: &'a [u64],
    /// How many bytes a write takes at most.
    pub most: usize,
    pub write_fails: &'a [u64],
    pub note_fails: &'a [u64],
    pub status: Status,
    /// The parts of the output, one after the other.
    pub out: &'a [&'a [u8]],
    pub notes: &'a [u8],
}

/// A run without words and without input that writes nothing, where nothing fails.
pub const PLAIN: Case<'static> = Case {
    words: &[],
    input: &[],
    piece: 4096,
    read_fails: &[],
    most: 4096,
    write_fails: &[],
    note_fails: &[],
    status: Status::Done,
    out: &[],
    notes: b"",
};

impl<'a> Case<'a> {
    /// A run that writes this.
    pub fn writes(words: &'a [&'a str], input: &'a [&'a [u8]], out: &'a [&'a [u8]]) -> Case<'a> {
        Case {
            words,
            input,
            out,
            ..PLAIN
        }
    }

    /// A run that notes this refusal.
    pub fn refuses(words: &'a [&'a str], input: &'a [&'a [u8]], notes: &'a [u8]) -> Case<'a> {
        Case {
            words,
            input,
            status: Status::Refused,
            notes,
            ..PLAIN
        }
    }

    /// A run whose words say nothing that can be done. Even the first read would fail.
    pub fn says_nothing(words: &'a [&'a str], input: &'a [&'a [u8]]) -> Case<'a> {
        Case {
            words,
            input,
            read_fails: &[0],
            status: Status::Usage,
            notes: b"usage: iamf_tool COMMAND < INPUT > OUTPUT\n",
            ..PLAIN
        }
    }

    /// How it has to end.
    fn wanted(&self, alloc: Global) -> Result<Ended, AllocError> {
        let out = whole(alloc, self.out)?;
        let notes = Vec::from_slice(alloc, self.notes)?;
        Ok(Ended {
            status: self.status,
            out,
            notes,
        })
    }

    /// How it ends with these words and this input. Reads and writes are of at least one byte.
    fn ends(&self, alloc: Global, words: &[String], input: &[u8]) -> Result<Ended, AllocError> {
        let piece = self.piece.max(1);
        let most = self.most.max(1);
        let mut source = MemorySource::new(alloc, input, &[piece], self.read_fails)?;
        let mut out = MemorySink::new(alloc, 4096, most, self.write_fails)?;
        let mut notes = MemorySink::new(alloc, 4096, 4096, self.note_fails)?;
        let status = run(alloc, words, &mut source, &mut out, &mut notes);
        at_end(alloc, status, &out, &notes)
    }

    /// How it ends.
    pub fn came(&self, alloc: Global) -> Result<Ended, AllocError> {
        let words = owned(alloc, self.words)?;
        let input = whole(alloc, self.input)?;
        self.ends(alloc, &words, &input)
    }

    /// Asserts that the run ends so.
    pub fn check(&self, rt: &impl Abort, alloc: Global) -> Result<(), AllocError> {
        let wanted = self.wanted(alloc)?;
        let came = self.came(alloc)?;
        assert_eq!(rt; came, wanted, "of {:?}", self.input);
        Ok(())
    }
}

/// Asserts that each run ends so.
pub fn check_all(rt: &impl Abort, alloc: Global, cases: &[Case<'_>]) -> Result<(), AllocError> {
    for case in cases {
        case.check(rt, alloc)?;
    }
    Ok(())
}

/// The words, with their memory.
pub fn owned(alloc: Global, words: &[&str]) -> Result<Vec<String>, AllocError> {
    let mut owned = Vec::new(alloc);
    for word in words {
        owned.push(String::from_str(alloc, word)?)?;
    }
    Ok(owned)
}

/// What stands in the sinks.
fn at_end(
    alloc: Global,
    status: Status,
    out: &MemorySink,
    notes: &MemorySink,
) -> Result<Ended, AllocError> {
    let out = Vec::from_slice(alloc, out.bytes())?;
    let notes = Vec::from_slice(alloc, notes.bytes())?;
    Ok(Ended { status, out, notes })
}

/// The parts, one after the other.
pub fn whole(alloc: Global, parts: &[&[u8]]) -> Result<Vec<u8>, AllocError> {
    let mut bytes = Vec::new(alloc);
    for part in parts {
        bytes.extend_from_slice(part)?;
    }
    Ok(bytes)
}

/// The report on the sequence that is kept of the input.
pub fn reported(rt: &impl Abort, alloc: Global, input: &[&[u8]]) -> Result<Vec<u8>, Fail> {
    let bytes = whole(alloc, input)?;
    assert!(rt; bytes.len() <= 1 << 30);
    let sequence = decode(alloc, &bytes)?;
    let summary = summary(alloc, &sequence)?;
    Ok(report(alloc, &summary)?)
}

/// The canonical spelling of the sequence that is kept of the input.
pub fn encoded(rt: &impl Abort, alloc: Global, input: &[&[u8]]) -> Result<Vec<u8>, Fail> {
    let bytes = whole(alloc, input)?;
    assert!(rt; bytes.len() <= 1 << 30);
    let sequence = decode(alloc, &bytes)?;
    Ok(encode(alloc, &sequence)?)
}

/// The canonical spellings of the OBUs of a sequence, one by one.
fn obus(alloc: Global, sequence: &Sequence<'_>) -> Result<Vec<u8>, AllocError> {
    let mut obus = Vec::new(alloc);
    for i in 0..sequence.count() {
        obus.extend_from_slice(&encode_obu(alloc, sequence, i)?)?;
    }
    Ok(obus)
}

/// Those of the OBUs of the sequence that is kept of the input.
pub fn encoded_obus(rt: &impl Abort, alloc: Global, input: &[&[u8]]) -> Result<Vec<u8>, Fail> {
    let bytes = whole(alloc, input)?;
    assert!(rt; bytes.len() <= 1 << 30);
    let sequence = decode(alloc, &bytes)?;
    Ok(obus(alloc, &sequence)?)
}
