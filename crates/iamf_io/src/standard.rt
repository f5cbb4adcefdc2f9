//! The adapters over the readers and writers of the standard library.
ghost use Rattle.std.specs.Prelude.{◌≡◌, ◌<◌, None, IfOk, length};
ghost use Rattle.std.specs.Io.{ReadsAtMost, WritesAtMost};
ghost use Rattle.std.specs.Io.KnownBytes.{Keeps, ReadConsumes, WriteAppends};
ghost use Rattle.iamf_io.specs.Causes.{Counts, HasCause};
ghost use Rattle.iamf_io.specs.Standard.{reader_of, read_faults, writer_of, write_faults};

use crate::traits::{Failed, Sink, Source};
use std::io::{Read, Write};

/// A source over any reader of the standard library.
///
/// As a [`Source`] it does not tell which bytes it will give: that a file, a pipe or a terminal gives its bytes
/// whole and in order is trusted, and no clause says it. Its count of faults is proved, and so is that it gives
/// what the reader gives.
#[derive(Drop)]
pub struct StdSource<R: Read> {
    reader: R,
    faults: u64,
}

impl<R: Read> StdSource<R> {
    /// A source over `reader`, which has not failed so far.
    pub fn new(reader: R) -> StdSource<R>
        ensures reader { reader_of result ≡ reader }
        ensures faults { read_faults result ≡ 0 }
    {
        StdSource { reader, faults: 0 }
    }
}

impl<R: Read> Source for StdSource<R> {
    ghost left = { λ _. None };

    ghost faults = { λ s. read_faults s };

    /// One read of the reader.
    ///
    /// # Errors
    ///
    /// `Failed` where the reader answers an error, whatever its kind.
    fn read(&mut self, into: &mut [u8]) -> Result<usize, Failed>
        requires { 0 < length into.old }
        ensures bound { ReadsAtMost result into.new }
        ensures cause { HasCause (read_faults self.old) (read_faults self.new) result }
        ensures counts { Counts (read_faults self.old) (read_faults self.new) result }
        ensures given { ReadConsumes (R.remaining (reader_of self.old)) (R.remaining (reader_of self.new))
            result into.new }
    {
        match self.reader.read(into) {
            Ok(count) => Ok(count),
            Err(_) => {
                self.faults = self.faults.saturating_add(1);
                Err(Failed)
            }
        }
    }
}

/// A sink over any writer of the standard library.
///
/// As a [`Sink`] it does not tell which bytes it has taken: that a file, a pipe or a terminal passes on what it
/// takes is trusted, and no clause says it. Its count of faults is proved, and so is that the writer takes what
/// it takes.
#[derive(Drop)]
pub struct StdSink<W: Write> {
    writer: W,
    faults: u64,
}

impl<W: Write> StdSink<W> {
    /// A sink over `writer`, which has not failed so far.
    pub fn new(writer: W) -> StdSink<W>
        ensures writer { writer_of result ≡ writer }
        ensures faults { write_faults result ≡ 0 }
    {
        StdSink { writer, faults: 0 }
    }
}

impl<W: Write> Sink for StdSink<W> {
    ghost held = { λ _. None };

    ghost faults = { λ s. write_faults s };

    /// One write of the writer.
    ///
    /// # Errors
    ///
    /// `Failed` where the writer answers an error, whatever its kind, or takes no byte.
    fn write(&mut self, piece: &[u8]) -> Result<usize, Failed>
        requires { 0 < length piece.now }
        ensures some { IfOk result (λ n. 0 < n) }
        ensures bound { WritesAtMost result piece.now }
        ensures cause { HasCause (write_faults self.old) (write_faults self.new) result }
        ensures counts { Counts (write_faults self.old) (write_faults self.new) result }
        ensures taken { WriteAppends (W.contents (writer_of self.old)) (W.contents (writer_of self.new))
            result piece.now }
    {
        match self.writer.write(piece) {
            Ok(0) | Err(_) => {
                self.faults = self.faults.saturating_add(1);
                Err(Failed)
            }
            Ok(count) => Ok(count),
        }
    }

    /// One flush of the writer.
    ///
    /// # Errors
    ///
    /// `Failed` where the writer answers an error, whatever its kind.
    fn flush(&mut self) -> Result<(), Failed>
        ensures cause { HasCause (write_faults self.old) (write_faults self.new) result }
        ensures counts { Counts (write_faults self.old) (write_faults self.new) result }
        ensures taken { Keeps (W.contents (writer_of self.old)) (W.contents (writer_of self.new)) }
    {
        match self.writer.flush() {
            Ok(()) => Ok(()),
            Err(_) => {
                self.faults = self.faults.saturating_add(1);
                Err(Failed)
            }
        }
    }
}
