//! Streams that come in pieces of each length.

use iamf_sequence::DecodeError;
use iamf_stream::StreamChecker;
use std::alloc::{AllocError, Global};
use std::process::Abort;
use std::test::Fail;

/// A sequence header of the profile Simple, LPCM of 16 bits in frames of 8 samples, the stereo element 1 and mix 2 of it:
/// 66 bytes.
const DESCRIPTORS: &[u8] = b"\xf8\x06iamf\x00\x00\
    \x00\x0e\x00ipcm\x08\x00\x00\x01\x10\x00\x00\xbb\x80\
    \x08\x0a\x01\x00\x00\x01\x00\x00\x20\x10\x01\x01\
    \x10\x1c\x02\x00\x01\x01\x01\x00\x00\x64\x80\xf7\x02\x80\x00\x00\
    \x65\x80\xf7\x02\x80\x00\x00\x01\x80\x00\x00\x00\x00\x00";

/// The same of FLAC in frames of 16 samples and of a mono element, and a delimiter: 100 bytes.
const FLAC_DESCRIPTORS: &[u8] = b"\xf8\x06iamf\x00\x00\
    \x00\x2e\x00fLaC\x10\x00\x00\x80\x00\x00\x22\
    \x00\x10\x00\x10\x00\x00\x00\x00\x00\x00\x0b\xb8\x00\xf0\x00\x00\x00\x10\
    \0\0\0\0\0\0\0\0\0\0\0\0\0\0\0\0\
    \x08\x0a\x01\x00\x00\x01\x00\x00\x20\x00\x01\x00\
    \x10\x1c\x02\x00\x01\x01\x01\x00\x00\x64\x80\xf7\x02\x80\x00\x00\
    \x65\x80\xf7\x02\x80\x00\x00\x01\x80\x00\x00\x00\x00\x00\
    \x20\x00";

/// A delimiter, and a frame of 8 stereo samples.
const UNIT: &[u8] = b"\x20\x00\x30\x20abcdefghijklmnopqrstuvwxyzABCDEF";

/// A frame of FLAC of 16 samples, as a stock encoder writes 16 times -32768, and one with another last byte.
const FLAC_FRAME: &[u8] = b"\x30\x0c\xff\xf8\x6a\x08\x00\x0f\x0a\x01\x00\x03\xbe\x9d";

const WRONG_FRAME: &[u8] = b"\x30\x0c\xff\xf8\x6a\x08\x00\x0f\x0a\x01\x00\x03\xbe\x9e";

/// The most bytes of a piece, longer ones than each stream among them.
const PIECES: &[usize] = &[1, 2, 7, 65536, 4_000_000];

/// Feeds the stream in pieces of so many bytes at most. The answer is where it is refused and by which number, and twice 0
/// where it is a sequence.
fn answer(alloc: Global, stream: &[u8], piece: usize) -> (u64, u32) {
    let mut checker = StreamChecker::new(alloc);
    for piece in stream.chunks(piece.max(1)) {
        if checker.fed() > 1 << 39 || piece.len() > 1 << 39 {
            break;
        }
        let _ = checker.feed(piece);
    }
    match checker.finish() {
        Ok(_) => (0, 0),
        Err(DecodeError::Refused(refusal)) => (refusal.at, refusal.code()),
        Err(DecodeError::Memory(_)) => (0, 1000),
    }
}

/// Asserts that the stream is answered so in pieces of each length.
fn assert_answers(rt: &impl Abort, alloc: Global, stream: &[u8], wanted: (u64, u32)) {
    for piece in PIECES {
        assert_eq!(rt; (*piece, answer(alloc, stream, *piece)), (*piece, wanted));
    }
}

/// The parts as one stream.
fn joined(alloc: Global, front: &[u8], rest: &[u8]) -> Result<Vec<u8>, AllocError> {
    let mut stream = Vec::from_slice(alloc, front)?;
    stream.extend_from_slice(rest)?;
    Ok(stream)
}

// Two parts of a stream, and its answer.
const STREAMS: &[(&[u8], &[u8], (u64, u32))] = &[
    (DESCRIPTORS, UNIT, (0, 0)),
    (FLAC_DESCRIPTORS, FLAC_FRAME, (0, 0)),
    (FLAC_DESCRIPTORS, WRONG_FRAME, (100, 44)),
    // A redundant copy of the sequence header, and one with another byte.
    (DESCRIPTORS, b"\xfc\x06iamf\x00\x00", (0, 0)),
    (DESCRIPTORS, b"\xfc\x06iamf\x00\x01", (66, 34)),
    // A reserved OBU whose size takes 8 bytes, and sizes that are no numbers.
    (
        DESCRIPTORS,
        b"\xc0\x81\x80\x80\x80\x80\x80\x80\x00a",
        (0, 0),
    ),
    (b"\xf8\x86\x80\x80\x80\x80\x80\x80\x80\x00", b"a", (0, 1)),
    (b"\xf8\x80\x80", b"\x80\x80\x10", (0, 1)),
    (b"\xf8\xff\xff", b"\xff\xff\x0f", (0, 2)),
    // A redundant delimiter, of a size that is not whole and of one that is.
    (b"\x24", b"\x80", (0, 3)),
    (b"\x24", b"\x80\x00", (0, 3)),
    // A frame whose trims take more than its bytes.
    (DESCRIPTORS, b"\x32\x01\x00a", (66, 4)),
];

#[test]
fn each_cutting_answers_as_the_whole(rt: HostRuntime) -> Result<(), Fail> {
    for (front, rest, wanted) in STREAMS {
        let stream = joined(rt.alloc(), front, rest)?;
        assert_answers(&rt, rt.alloc(), &stream, *wanted);
    }
    Ok(())
}

/// The answer to the first bytes of one unit.
fn of_front(count: usize) -> (u64, u32) {
    match count {
        0 | 8 | 24 | 36 => (count as u64, 35),
        1..=7 => (0, 5),
        9..=23 => (8, 5),
        25..=35 => (24, 5),
        37..=65 => (36, 5),
        66 | 102 => (0, 0),
        67 => (66, 5),
        68 => (68, 39),
        _ => (68, 5),
    }
}

#[test]
fn each_front_of_one_unit_has_its_answer(rt: HostRuntime) -> Result<(), Fail> {
    let stream = joined(rt.alloc(), DESCRIPTORS, UNIT)?;
    for count in 0..=stream.len() {
        assert_answers(&rt, rt.alloc(), &stream[..count], of_front(count));
    }
    Ok(())
}

/// The descriptors, and a reserved OBU of this header and so many zeros.
fn with_long_obu(alloc: Global, header: &[u8], zeros: usize) -> Result<Vec<u8>, AllocError> {
    let mut stream = joined(alloc, DESCRIPTORS, header)?;
    for _ in 0..zeros {
        stream.push(0)?;
    }
    Ok(stream)
}

#[test]
fn an_obu_has_two_mebibytes_at_most(rt: HostRuntime) -> Result<(), Fail> {
    let largest = with_long_obu(rt.alloc(), b"\xc0\xfc\xff\x7f", 2_097_148)?;
    let larger = with_long_obu(rt.alloc(), b"\xc0\xfd\xff\x7f", 2_097_149)?;
    for piece in [4096, 65536, 4_000_000] {
        let found = [
            answer(rt.alloc(), &largest, piece),
            answer(rt.alloc(), &larger, piece),
        ];
        assert_eq!(rt; found, [(0, 0), (66, 2)]);
    }
    Ok(())
}

/// Feeds a piece. The answer is where it is refused.
fn refusal(checker: &mut StreamChecker, piece: &[u8]) -> Option<u64> {
    if checker.fed() > 1 << 39 || piece.len() > 1 << 39 {
        return None;
    }
    match checker.feed(piece) {
        Err(DecodeError::Refused(refusal)) => Some(refusal.at),
        _ => None,
    }
}

// A frame that comes too early, of which only the first bytes are there, and then the rest of it and more: each piece, where
// it is refused, and how many bytes are fed and wait.
const EARLY: &[(&[u8], Option<u64>, u64, usize)] = &[
    (b"\xf8\x06iamf\x00\x00\x30", None, 9, 1),
    (b"\x02", None, 10, 2),
    (b"ab", Some(8), 10, 0),
    (UNIT, Some(8), 10, 0),
];

#[test]
fn a_refusal_stays(rt: HostRuntime) {
    let mut checker = StreamChecker::new(rt.alloc());
    for (piece, refused, fed, waiting) in EARLY {
        let found = refusal(&mut checker, piece);
        assert_eq!(rt;
            (found, checker.fed(), checker.waiting()),
            (*refused, *fed, *waiting)
        );
    }
}
