ghost use Rattle.std.specs.Prelude.{◌≤◌, IfOk};

use super::*;
use std::io::{Read, Write};
use std::rt::Files;
use std::test::Fail;
use std::{fs, io};

const DIGITS: &[u8] = b"0123456789";

#[test]
fn files_are_read_and_written_whole(rt: HostRuntime) -> Result<(), Fail> {
    fs::write(&rt, "in.bin", DIGITS)?;
    let mut source = StdSource::new(fs::open(&rt, "in.bin")?);
    let bytes = read_all(rt.alloc(), &mut source, 1000)?;
    assert_eq!(rt; bytes.as_slice(), DIGITS);
    let mut sink = StdSink::new(fs::create(&rt, "out.bin")?);
    write_all(&mut sink, &bytes)?;
    sink.flush()?;
    let back = fs::read(&rt, "out.bin")?;
    assert_eq!(rt; back.as_slice(), DIGITS);
    Ok(())
}

#[test]
fn pieces_of_one_give_the_same_bytes(rt: HostRuntime) -> Result<(), Fail> {
    let mut source = MemorySource::new(rt.alloc(), DIGITS, &[1], &[])?;
    let bytes = read_all(rt.alloc(), &mut source, 1000)?;
    assert_eq!(rt; bytes.as_slice(), DIGITS);
    Ok(())
}

#[test]
fn pieces_bound_the_reads_in_turn(rt: HostRuntime) -> Result<(), Fail> {
    let mut source = MemorySource::new(rt.alloc(), DIGITS, &[3, 1], &[])?;
    let mut into = [0; 8];
    for count in [3, 1, 3, 1, 2, 0] {
        assert_eq!(rt; source.read(&mut into)?, count);
    }
    Ok(())
}

#[test]
fn a_third_read_that_fails_fails_the_whole(rt: HostRuntime) -> Result<(), Fail> {
    let mut source = MemorySource::new(rt.alloc(), DIGITS, &[4], &[2])?;
    let result = read_all(rt.alloc(), &mut source, 1000);
    assert!(rt; matches!(result, Err(ReadError::Failed)));
    // The read after it goes on where the failed one stood.
    let rest = read_all(rt.alloc(), &mut source, 1000)?;
    assert_eq!(rt; rest.as_slice(), b"89".as_slice());
    Ok(())
}

#[test]
fn the_limit_may_be_reached_and_not_passed(rt: HostRuntime) -> Result<(), Fail> {
    let mut source = MemorySource::new(rt.alloc(), DIGITS, &[4], &[])?;
    let bytes = read_all(rt.alloc(), &mut source, 10)?;
    assert_eq!(rt; bytes.as_slice(), DIGITS);
    let mut source = MemorySource::new(rt.alloc(), DIGITS, &[4], &[])?;
    let result = read_all(rt.alloc(), &mut source, 9);
    assert!(rt; matches!(result, Err(ReadError::TooLarge)));
    Ok(())
}

#[test]
fn a_second_write_that_fails_leaves_the_first_ten_bytes(rt: HostRuntime) -> Result<(), Fail> {
    let mut sink = MemorySink::new(rt.alloc(), 100, 10, &[1])?;
    assert!(rt; write_all(&mut sink, b"0123456789abcdef").is_err());
    assert_eq!(rt; sink.bytes(), DIGITS);
    Ok(())
}

#[test]
fn a_full_sink_fails(rt: HostRuntime) -> Result<(), Fail> {
    let mut sink = MemorySink::new(rt.alloc(), 6, 4, &[])?;
    assert!(rt; write_all(&mut sink, DIGITS).is_err());
    assert_eq!(rt; sink.bytes(), b"012345".as_slice());
    Ok(())
}

#[test]
fn writes_and_flushes_are_numbered_together(rt: HostRuntime) -> Result<(), Fail> {
    let mut sink = MemorySink::new(rt.alloc(), 100, 10, &[1])?;
    write_all(&mut sink, DIGITS)?;
    assert!(rt; sink.flush().is_err());
    sink.flush()?;
    assert_eq!(rt; sink.bytes(), DIGITS);
    Ok(())
}

/// A stream of which each call takes or gives so many bytes, in turn, and fails where there is no number.
#[derive(Drop)]
struct Stream {
    answers: [Option<usize>; 4],
    calls: usize,
}

impl Stream {
    fn new(answers: [Option<usize>; 4]) -> Stream {
        Stream { answers, calls: 0 }
    }

    fn answer(&mut self, most: usize) -> io::Result<usize>
        ensures { IfOk result (λ n. n ≤ most) }
    {
        let answer = match self.answers.get(self.calls) {
            Some(Some(count)) => Ok(most.min(*count)),
            _ => Err(io::Error::from(io::ErrorKind::TimedOut)),
        };
        self.calls = self.calls.saturating_add(1);
        answer
    }
}

impl Read for Stream {
    fn read(&mut self, buf: &mut [u8]) -> io::Result<usize> {
        self.answer(buf.len())
    }
}

impl Write for Stream {
    fn write(&mut self, buf: &[u8]) -> io::Result<usize> {
        self.answer(buf.len())
    }

    fn flush(&mut self) -> io::Result<()> {
        match self.answer(0) {
            Ok(_) => Ok(()),
            Err(error) => Err(error),
        }
    }
}

#[test]
fn each_read_asks_the_reader(rt: HostRuntime) -> Result<(), Fail> {
    let mut source = StdSource::new(Stream::new([Some(3), None, Some(2), Some(0)]));
    let mut into = [0; 8];
    assert_eq!(rt; source.read(&mut into)?, 3);
    assert!(rt; source.read(&mut into).is_err());
    assert_eq!(rt; source.read(&mut into)?, 2);
    assert_eq!(rt; source.read(&mut into)?, 0);
    Ok(())
}

#[test]
fn each_write_and_flush_asks_the_writer(rt: HostRuntime) -> Result<(), Fail> {
    let mut sink = StdSink::new(Stream::new([Some(3), None, Some(0), Some(0)]));
    assert_eq!(rt; sink.write(DIGITS)?, 3);
    assert!(rt; sink.flush().is_err());
    assert!(rt; sink.write(DIGITS).is_err());
    sink.flush()?;
    assert!(rt; sink.flush().is_err());
    Ok(())
}
