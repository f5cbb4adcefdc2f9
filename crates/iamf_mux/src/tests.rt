//! Sequences written into files and read out of them.

use crate::{DemuxError, demux, file_parts, mux};
use iamf_sequence::{DecodeError, decode};
use mp4_boxes::read_box;
use std::alloc::{AllocError, Global};
use std::process::Abort;
use std::test::Fail;

/// A sequence header, LPCM of 16 bits in frames of 8 samples, a stereo element and a mix of it: 66 bytes.
const DESCRIPTORS: &[u8] = b"\xf8\x06iamf\x00\x00\
    \x00\x0e\x00ipcm\x08\x00\x00\x01\x10\x00\x00\xbb\x80\
    \x08\x0a\x01\x00\x00\x01\x00\x00\x20\x10\x01\x01\
    \x10\x1c\x02\x00\x01\x01\x01\x00\x00\x64\x80\xf7\x02\x80\x00\x00\
    \x65\x80\xf7\x02\x80\x00\x00\x01\x80\x00\x00\x00\x00\x00";

const DELIMITER: &[u8] = b"\x20\x00";

/// A frame of 32 bytes.
const FRAME: &[u8] = b"\x30\x20abcdefghijklmnopqrstuvwxyzABCDEF";

/// The same, where 3 samples are trimmed at the end and 5 at the start.
const TRIMMED: &[u8] = b"\x32\x22\x03\x05abcdefghijklmnopqrstuvwxyzABCDEF";

/// The same, where all 8 samples are trimmed at the start.
const LATE: &[u8] = b"\x32\x22\x00\x08abcdefghijklmnopqrstuvwxyzABCDEF";

/// The sequence header again, and a reserved OBU.
const COPY: &[u8] = b"\xfc\x06iamf\x00\x00";

const RESERVED: &[u8] = b"\xc0\x01\x00";

fn joined(alloc: Global, parts: &[&[u8]]) -> Result<Vec<u8>, AllocError> {
    let mut bytes = Vec::new(alloc);
    for part in parts {
        bytes.extend_from_slice(part)?;
    }
    Ok(bytes)
}

/// What is written of the sequence of these parts.
fn file_of(rt: &impl Abort, alloc: Global, parts: &[&[u8]]) -> Result<Vec<u8>, Fail> {
    let bytes = joined(alloc, parts)?;
    assert!(rt; bytes.len() <= 1 << 30);
    let sequence = decode(alloc, &bytes)?;
    Ok(mux(alloc, &sequence)?)
}

/// A sequence, the length of its file, and the bare sequence that is read out of the file.
type Written = (&'static [&'static [u8]], usize, &'static [&'static [u8]]);

const WRITTEN: &[Written] = &[
    (
        &[DESCRIPTORS, DELIMITER, FRAME],
        683,
        &[DESCRIPTORS, DELIMITER, FRAME],
    ),
    // A unit that ends by completeness.
    (&[DESCRIPTORS, FRAME], 683, &[DESCRIPTORS, DELIMITER, FRAME]),
    // All samples are trimmed.
    (
        &[DESCRIPTORS, DELIMITER, TRIMMED],
        729,
        &[DESCRIPTORS, DELIMITER, TRIMMED],
    ),
    // Neither the copy nor the reserved OBU is part of the body.
    (
        &[DESCRIPTORS, COPY, LATE, RESERVED, FRAME, COPY],
        767,
        &[DESCRIPTORS, DELIMITER, LATE, DELIMITER, FRAME],
    ),
    (&[DESCRIPTORS], 621, &[DESCRIPTORS]),
];

#[test]
fn what_is_written_is_read(rt: HostRuntime) -> Result<(), Fail> {
    for (parts, len, bare) in WRITTEN {
        let file = file_of(&rt, rt.alloc(), parts)?;
        assert_eq!(rt; file.len(), *len);
        assert!(rt; file.len() <= 1 << 30);
        assert_eq!(rt; demux(rt.alloc(), &file)?, joined(rt.alloc(), bare)?);
    }
    Ok(())
}

#[test]
fn what_lies_end_to_end_is_one_part_of_a_file(rt: HostRuntime) -> Result<(), Fail> {
    let bytes = joined(rt.alloc(), &[DESCRIPTORS, LATE, FRAME, COPY, FRAME])?;
    assert!(rt; bytes.len() <= 1 << 30);
    let parts = file_parts(rt.alloc(), &bytes)?;
    assert_eq!(rt; parts.units.len(), 2);
    let data = joined(rt.alloc(), &parts.units)?;
    assert_eq!(rt; data, joined(rt.alloc(), &[LATE, FRAME, FRAME])?);
    let file = joined(rt.alloc(), &[&parts.front, &data])?;
    assert_eq!(rt; file, mux(rt.alloc(), &decode(rt.alloc(), &bytes)?)?);
    Ok(())
}

#[test]
fn bytes_that_are_no_sequence_give_no_file(rt: HostRuntime) -> Result<(), Fail> {
    let mut bytes = joined(rt.alloc(), &[DESCRIPTORS, DELIMITER, FRAME])?;
    assert_eq!(rt; bytes.len(), 102);
    // The frame is of a substream that no element has.
    bytes[68] = b'8';
    match file_parts(rt.alloc(), &bytes) {
        Err(DecodeError::Refused(refusal)) => assert_eq!(rt;
            (refusal.at, refusal.code()),
            (68, 38)
        ),
        Err(DecodeError::Memory(error)) => return Err(Fail::from(error)),
        Ok(_) => assert!(rt; false, "a file"),
    }
    Ok(())
}

#[test]
fn one_unit_lies_after_its_tables(rt: HostRuntime) -> Result<(), Fail> {
    let file = file_of(&rt, rt.alloc(), &[DESCRIPTORS, DELIMITER, FRAME])?;
    assert_eq!(rt; file.len(), 683);
    let moov = read_box(&file, 24, 683, true)?;
    assert_eq!(rt; (moov.kind, moov.end), (*b"moov", 641));
    let mdat = read_box(&file, 641, 683, true)?;
    assert_eq!(rt; (mdat.kind, mdat.payload), (*b"mdat", FRAME));
    Ok(())
}

/// The answer to a file, where it gives no sequence.
fn refusal(rt: &impl Abort, alloc: Global, file: &[u8]) -> Result<Option<(u64, u32)>, AllocError> {
    assert!(rt; file.len() <= 1 << 30);
    match demux(alloc, file) {
        Ok(_) => Ok(None),
        Err(DemuxError::Box(refusal)) => Ok(Some((refusal.at, u32::from(refusal.fault.code())))),
        Err(DemuxError::Inner(refusal)) => Ok(Some((refusal.at, refusal.code()))),
        Err(DemuxError::Memory(error)) => Err(error),
    }
}

/// A place of the file of one unit, the byte that stands there in stead of its own, and where and why it is then refused.
const CHANGED: &[(usize, u8, Option<(u64, u32)>)] = &[
    (649, b'0', None),
    // The size of `moov`, and the version of `iacb`.
    (24, 0xff, Some((24, 70))),
    (477, 2, Some((469, 77))),
    // The frame is of a substream that no element has.
    (649, b'8', Some((68, 38))),
];

#[test]
fn the_first_fault_of_a_file_is_told(rt: HostRuntime) -> Result<(), Fail> {
    for (at, byte, wanted) in CHANGED {
        let mut file = file_of(&rt, rt.alloc(), &[DESCRIPTORS, DELIMITER, FRAME])?;
        assert!(rt; *at < file.len());
        file[*at] = *byte;
        assert_eq!(rt; refusal(&rt, rt.alloc(), &file)?, *wanted, "{at}");
    }
    Ok(())
}
