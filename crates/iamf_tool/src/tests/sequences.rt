//! `check` and `canon` on worked examples.
use super::case::{Case, PLAIN, check_all, encoded, encoded_obus, reported, whole};
use super::parts::{
    BLOCK, CODEC, DELIMITER, DESCRIPTORS, ELEMENT, FLAC, FLAC_FRAME, FOUR_OUTPUTS, HEAD, HEADER,
    MIX, MIX_OF_BOTH, MONO, ONE_OUTPUT, OPUS, SAMPLES, SECOND_ELEMENT,
};
use crate::status::Status;
use std::alloc::{AllocError, Global};
use std::process::Abort;
use std::test::Fail;

/// The parts of an input, and those of its output.
type Written = (&'static [&'static [u8]], &'static [&'static [u8]]);

/// The lines of the descriptors.
const LINES: &[u8] =
    b"profile 0 0\ncodec 0 ipcm 8 48000 16\nelement 1 scalable 1 2\nmix 2 1 1 fits\n";

const NO_UNIT: &[u8] = b"units 0\nsamples 0\n";

const ONE_UNIT: &[u8] = b"units 1\nsamples 8\n";

const LABELLED_MIX: &[u8] = b"\x10\x2a\x02\x01en-us\x00Mix\x00\x01\x01\x01Bed\x00\x00\x00\
    \x64\x80\xf7\x02\x80\x00\x00\x65\x80\xf7\x02\x80\x00\x00\x01\x80\x00\x00\x00\x00\x00";

const BASE_HEADER: &[u8] = b"\xf8\x06iamf\x01\x00";

const REPORTS: &[Written] = &[
    (&[DESCRIPTORS, DELIMITER, HEAD, SAMPLES], &[LINES, ONE_UNIT]),
    // The unit ends with its last missing frame.
    (&[DESCRIPTORS, HEAD, SAMPLES], &[LINES, ONE_UNIT]),
    (&[DESCRIPTORS], &[LINES, NO_UNIT]),
    // Both trims together are as long as the frame.
    (
        &[DESCRIPTORS, DELIMITER, b"\x32\x22\x03\x05", SAMPLES],
        &[LINES, b"units 1\nsamples 0\n"],
    ),
    // A redundant copy of the sequence header, after it and between frames.
    (&[DESCRIPTORS, b"\xfc\x06iamf\x00\x00"], &[LINES, NO_UNIT]),
    (
        &[
            DESCRIPTORS,
            HEAD,
            SAMPLES,
            b"\xfc\x06iamf\x00\x00",
            HEAD,
            SAMPLES,
        ],
        &[LINES, b"units 2\nsamples 16\n"],
    ),
    (
        &[DESCRIPTORS, DELIMITER, BLOCK, HEAD, SAMPLES],
        &[LINES, ONE_UNIT],
    ),
    // A Bezier curve.
    (
        &[
            DESCRIPTORS,
            DELIMITER,
            b"\x18\x0b\x64\x08\x08\x02\x00\x00\xfa\x00\xfa\x00\x80",
            HEAD,
            SAMPLES,
        ],
        &[LINES, ONE_UNIT],
    ),
    (
        &[
            HEADER,
            CODEC,
            ELEMENT,
            LABELLED_MIX,
            DELIMITER,
            HEAD,
            SAMPLES,
        ],
        &[LINES, ONE_UNIT],
    ),
    (
        &[HEADER, CODEC, ONE_OUTPUT, MIX, DELIMITER, b"\x30\x10", MONO],
        &[
            b"profile 0 0\ncodec 0 ipcm 8 48000 16\nelement 1 scene 1 1\nmix 2 1 1 fits\n",
            ONE_UNIT,
        ],
    ),
    (
        &[
            HEADER,
            CODEC,
            FOUR_OUTPUTS,
            MIX,
            DELIMITER,
            b"\x30\x10",
            MONO,
            b"\x38\x10",
            MONO,
            b"\x40\x10",
            MONO,
        ],
        &[
            b"profile 0 0\ncodec 0 ipcm 8 48000 16\nelement 1 scene 3 3\nmix 2 1 1 fits\n",
            ONE_UNIT,
        ],
    ),
    // Two elements, with their frames in the other order.
    (
        &[
            BASE_HEADER,
            CODEC,
            ELEMENT,
            SECOND_ELEMENT,
            MIX_OF_BOTH,
            DELIMITER,
            b"\x38\x20",
            SAMPLES,
            HEAD,
            SAMPLES,
        ],
        &[
            b"profile 1 0\ncodec 0 ipcm 8 48000 16\nelement 1 scalable 1 2\n",
            b"element 2 scalable 1 2\nmix 2 1 2 fits\n",
            ONE_UNIT,
        ],
    ),
    // A second mix, which defines the gains again.
    (
        &[
            DESCRIPTORS,
            b"\x10\x1c\x03\x00\x01\x01\x01\x00\x00\x64\x80\xf7\x02\x80\x00\x00\
              \x65\x80\xf7\x02\x80\x00\x00\x01\x80\x00\x00\x00\x00\x00",
        ],
        &[LINES, b"mix 3 1 1 fits\n", NO_UNIT],
    ),
    (
        &[HEADER, FLAC, ELEMENT, MIX, FLAC_FRAME],
        &[
            b"profile 0 0\ncodec 0 fLaC 8 48000 16\nelement 1 scalable 1 2\nmix 2 1 1 fits\n",
            ONE_UNIT,
        ],
    ),
    // The wide profile.
    (
        &[
            b"\xf8\x06iamf\x02\x00",
            CODEC,
            ELEMENT,
            SECOND_ELEMENT,
            MIX_OF_BOTH,
        ],
        &[
            b"profile 2 0\ncodec 0 ipcm 8 48000 16\nelement 1 scalable 1 2\n",
            b"element 2 scalable 1 2\nmix 2 1 2 fits\n",
            NO_UNIT,
        ],
    ),
    // A tag.
    (
        &[
            HEADER,
            CODEC,
            ELEMENT,
            b"\x10\x25\x02\x00\x01\x01\x01\x00\x00\x64\x80\xf7\x02\x80\x00\x00\
              \x65\x80\xf7\x02\x80\x00\x00\x01\x80\x00\x00\x00\x00\x00\x01lang\0en\0",
        ],
        &[LINES, b"tag lang en\n", NO_UNIT],
    ),
];

#[test]
fn sequences_are_reported(rt: HostRuntime) -> Result<(), Fail> {
    for (input, report) in REPORTS {
        Case::writes(&["check"], input, report).check(&rt, rt.alloc())?;
    }
    Ok(())
}

#[test]
fn kept_sequences_have_the_same_report(rt: HostRuntime) -> Result<(), Fail> {
    for (input, report) in REPORTS {
        let wanted = whole(rt.alloc(), report)?;
        let found = reported(&rt, rt.alloc(), input)?;
        assert_eq!(rt; found.as_slice(), wanted.as_slice());
    }
    Ok(())
}

const SPELLINGS: &[Written] = &[
    // A size that is longer than it has to be.
    (
        &[
            b"\xf8\x86\x00iamf\x00\x00",
            CODEC,
            ELEMENT,
            MIX,
            DELIMITER,
            HEAD,
            SAMPLES,
        ],
        &[DESCRIPTORS, DELIMITER, HEAD, SAMPLES],
    ),
    // A long id, and reserved bits.
    (
        &[
            HEADER,
            b"\x00\x0f\x80\x00ipcm\x08\x00\x00\x01\x10\x00\x00\xbb\x80",
            b"\x08\x0a\x01\x1f\x00\x01\x00\x00\x3f\x13\x01\x01",
            MIX,
        ],
        &[DESCRIPTORS],
    ),
    // A copy, a reserved OBU with an extension, a block and trims.
    (
        &[
            DESCRIPTORS,
            b"\xfc\x86\x00iamf\x00\x00",
            b"\xc1\x82\x00\x01\xee",
            b"\x18\x09\xe4\x00\x08\x08\x01\x00\x00\xfa\x00",
            b"\x32\x24\x83\x00\x85\x00",
            SAMPLES,
        ],
        &[
            DESCRIPTORS,
            b"\xfc\x06iamf\x00\x00",
            b"\xc1\x02\x01\xee",
            BLOCK,
            b"\x32\x22\x03\x05",
            SAMPLES,
        ],
    ),
    // Bytes after what is known are kept.
    (
        &[b"\xf8\x07iamf\x00\x00\xaa", CODEC, ELEMENT, LABELLED_MIX],
        &[b"\xf8\x07iamf\x00\x00\xaa", CODEC, ELEMENT, LABELLED_MIX],
    ),
    (
        &[HEADER, CODEC, ONE_OUTPUT, MIX, DELIMITER, b"\x30\x10", MONO],
        &[HEADER, CODEC, ONE_OUTPUT, MIX, DELIMITER, b"\x30\x10", MONO],
    ),
];

#[test]
fn sequences_are_spelled_canonically(rt: HostRuntime) -> Result<(), Fail> {
    for (input, spelling) in SPELLINGS {
        Case::writes(&["canon"], input, spelling).check(&rt, rt.alloc())?;
    }
    Case::refuses(&["canon"], &[HEADER, OPUS, ELEMENT, MIX], b"refused 8 13\n").check(
        &rt,
        rt.alloc(),
    )?;
    Ok(())
}

#[test]
fn kept_sequences_have_the_same_spelling(rt: HostRuntime) -> Result<(), Fail> {
    for (input, spelling) in SPELLINGS {
        let wanted = whole(rt.alloc(), spelling)?;
        let found = encoded(&rt, rt.alloc(), input)?;
        assert_eq!(rt; found.as_slice(), wanted.as_slice());
        let obus = encoded_obus(&rt, rt.alloc(), input)?;
        assert!(rt; obus.as_slice() == wanted.as_slice());
    }
    Ok(())
}

const SEQUENCE: &[&[u8]] = &[DESCRIPTORS, DELIMITER, HEAD, SAMPLES];

// Pieces of one byte, and the failures of the third read and of the second write.
const OUTSIDE: &[Case<'static>] = &[
    Case {
        words: &["check"],
        input: SEQUENCE,
        piece: 1,
        out: &[LINES, ONE_UNIT],
        ..PLAIN
    },
    Case {
        words: &["check"],
        input: SEQUENCE,
        piece: 40,
        read_fails: &[2],
        status: Status::ReadFault,
        notes: b"read failed\n",
        ..PLAIN
    },
    Case {
        words: &["canon"],
        input: SEQUENCE,
        most: 10,
        write_fails: &[1],
        status: Status::WriteFault,
        out: &[b"\xf8\x06iamf\x00\x00\x00\x0e"],
        notes: b"write failed\n",
        ..PLAIN
    },
];

#[test]
fn the_outside_gives_pieces_or_fails(rt: HostRuntime) -> Result<(), Fail> {
    check_all(&rt, rt.alloc(), OUTSIDE)?;
    Ok(())
}

// What is noted of so many bytes of a sequence of one unit, where they are no sequence.
fn fault_of_front(count: usize) -> Option<(usize, u8)> {
    match count {
        0 | 8 | 24 | 36 => Some((count, 35)),
        1..=7 => Some((0, 5)),
        9..=23 => Some((8, 5)),
        25..=35 => Some((24, 5)),
        37..=65 => Some((36, 5)),
        67 => Some((66, 5)),
        68 => Some((68, 39)),
        69..=101 => Some((68, 5)),
        _ => None,
    }
}

/// A front is refused so, or is a sequence without a unit.
fn check_front(
    rt: &impl Abort,
    alloc: Global,
    front: &[u8],
    fault: Option<(usize, u8)>,
) -> Result<(), AllocError> {
    match fault {
        Some((at, code)) => {
            let notes = format!(in alloc; "refused {at} {code}\n")?;
            Case::refuses(&["check"], &[front], notes.as_bytes()).check(rt, alloc)
        }
        None => Case::writes(&["check"], &[front], &[LINES, NO_UNIT]).check(rt, alloc),
    }
}

#[test]
fn fronts_of_a_sequence_are_refused(rt: HostRuntime) -> Result<(), Fail> {
    let bytes = whole(rt.alloc(), SEQUENCE)?;
    for count in 0..bytes.len() {
        check_front(&rt, rt.alloc(), &bytes[..count], fault_of_front(count))?;
    }
    Ok(())
}

/// The descriptors, and a reserved OBU of 2^21 - 4 bytes after its size, whose least byte is this.
fn with_long_obu(alloc: Global, size: u8) -> Result<Vec<u8>, AllocError> {
    let mut bytes = whole(alloc, &[DESCRIPTORS, &[0xc0, size, 0xff, 0x7f]])?;
    for _ in 0..2097148 {
        bytes.push(0)?;
    }
    Ok(bytes)
}

#[test]
fn an_obu_of_two_mebibytes_is_accepted(rt: HostRuntime) -> Result<(), Fail> {
    let bytes = with_long_obu(rt.alloc(), 0xfc)?;
    let input = &[bytes.as_slice()];
    let written = Case::writes(&["check"], input, &[LINES, NO_UNIT]);
    written.check(&rt, rt.alloc())?;
    Ok(())
}

#[test]
fn an_obu_above_two_mebibytes_is_refused(rt: HostRuntime) -> Result<(), Fail> {
    let bytes = with_long_obu(rt.alloc(), 0xfd)?;
    let input = &[bytes.as_slice()];
    let refused = Case::refuses(&["check"], input, b"refused 66 2\n");
    refused.check(&rt, rt.alloc())?;
    Ok(())
}
