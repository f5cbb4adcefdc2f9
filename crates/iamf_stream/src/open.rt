ghost use Rattle.std.specs.Prelude.{◌≡◌, ℕ, List, [], ◌<◌, ◌++◌, length};
ghost use Rattle.iamf_report.specs.Lines.{Facts};
ghost use Rattle.iamf_stream.specs.Standing.{Stands, HasRoom, HasRoomFor, Passed};
ghost use Rattle.iamf_stream.specs.Steps.{Goes, Fills, Completes, Ends};

use crate::front::cut_fault;
use crate::refusal::{not_admitted, refused};
use crate::walk::walk;
use bytes::BytesMut;
use iamf_sequence::{Admission, DecodeError, Fault, Summary};
use std::alloc::Global;

/// A stream of which nothing is refused so far.
#[derive(Drop)]
pub(crate) struct Open {
    /// What is kept of the OBUs that were admitted.
    pub admission: Admission,
    /// How many bytes these have.
    pub passed: u64,
    /// The bytes after them, which are part of an OBU.
    pub waiting: BytesMut,
    /// How many of these there have to be before the OBU is looked at.
    pub wanted: usize,
}

impl Open {
    /// The stream of no bytes.
    pub fn new(alloc: Global) -> Open
        ensures { Stands result [] }
    {
        Open {
            admission: Admission::new(alloc),
            passed: 0,
            waiting: BytesMut::new(alloc),
            wanted: 1,
        }
    }

    // Admits what is whole among the bytes that wait.
    fn look(&mut self) -> Result<(), DecodeError>
        requires { HasRoom self.old.admission self.old.passed self.old.waiting.items }
        ensures { (stream : List ℕ) → Passed self.old.admission self.old.passed self.old.waiting.items stream → Goes self.new result stream }
    {
        let walked = match walk(&mut self.admission, self.passed, self.waiting.as_slice()) {
            Ok(walked) => walked,
            Err(error) => return Err(error),
        };
        self.passed += walked.admitted as u64;
        self.waiting.advance(walked.admitted);
        self.wanted = walked.wanted;
        Ok(())
    }

    // Adds bytes of the piece to those that wait, as many as are wanted, and answers how many.
    fn fill(&mut self, piece: &[u8]) -> Result<usize, DecodeError>
        requires some { 0 < length piece.now }
        requires room { HasRoomFor self.old piece.now }
        ensures { (stream : List ℕ) → Stands self.old stream → Fills self.new result piece.now stream }
    {
        let missing = self.wanted - self.waiting.len();
        if let Err(error) = self.waiting.reserve(missing) {
            return Err(DecodeError::Memory(error));
        }
        let count = missing.min(piece.len());
        self.waiting.extend_reserved(&piece[..count]);
        if count < missing {
            return Ok(count);
        }
        match self.look() {
            Ok(()) => Ok(count),
            Err(error) => Err(error),
        }
    }

    // Completes the OBU that waits, as far as the piece goes, and answers how many bytes of the piece it took.
    fn complete(&mut self, piece: &[u8]) -> Result<usize, DecodeError>
        requires { HasRoomFor self.old piece.now }
        ensures { (stream : List ℕ) → Stands self.old stream → Completes self.new result piece.now stream }
    {
        let mut at = 0;
        while at < piece.len() && !self.waiting.is_empty() {
            match self.fill(&piece[at..]) {
                Ok(count) => at += count,
                Err(error) => return Err(error),
            }
        }
        Ok(at)
    }

    // Admits what is whole in a piece, where no bytes wait, and keeps what is left of it.
    fn pass(&mut self, piece: &[u8]) -> Result<(), DecodeError>
        requires none { self.old.waiting.items ≡ [] }
        requires room { HasRoomFor self.old piece.now }
        ensures { (stream : List ℕ) → Stands self.old stream → Goes self.new result (stream ++ piece.now) }
    {
        let walked = match walk(&mut self.admission, self.passed, piece) {
            Ok(walked) => walked,
            Err(error) => return Err(error),
        };
        self.passed += walked.admitted as u64;
        self.wanted = walked.wanted;
        self.waiting.clear();
        match self.waiting.extend_from_slice(&piece[walked.admitted..]) {
            Ok(()) => Ok(()),
            Err(error) => Err(DecodeError::Memory(error)),
        }
    }

    /// Takes the next piece.
    pub fn feed(&mut self, piece: &[u8]) -> Result<(), DecodeError>
        requires { HasRoomFor self.old piece.now }
        ensures { (stream : List ℕ) → Stands self.old stream → Goes self.new result (stream ++ piece.now) }
    {
        let at = match self.complete(piece) {
            Ok(at) => at,
            Err(error) => return Err(error),
        };
        if at < piece.len() {
            self.pass(&piece[at..])
        } else {
            Ok(())
        }
    }

    /// The answer for the whole stream.
    pub fn finish(self) -> Result<Summary, DecodeError>
        ensures { (stream : List ℕ) → Stands self stream → Ends result stream }
    {
        let Open {
            admission,
            passed,
            waiting,
            wanted: _,
        } = self;
        if !waiting.is_empty() {
            return Err(refused(passed, Fault::Header(cut_fault(waiting.as_slice()))));
        }
        match admission.end() {
            Ok(summary) => Ok(summary),
            Err(error) => Err(not_admitted(passed, error)),
        }
    }
}
