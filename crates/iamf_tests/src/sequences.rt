//! Each call on a sequence and its units, on one made input.

use iamf_sequence::{
    DecodeError, Sequence, Unit, decode, encode, encode_obu, report, respell, summarize, summary,
};
use obu_descriptors::ElementConfig;
use std::alloc::{AllocError, Global};
use std::process::Abort;
use std::test::Fail;

/// A sequence header of the profile Base, with a tail of one byte.
const HEADER: &[u8] = b"\xf8\x07iamf\x01\x00\xaa";

/// LPCM of 16 bits at 48 kHz, in frames of 8 samples, with a tail of one byte.
const CODEC: &[u8] = b"\x00\x0f\x00ipcm\x08\x00\x00\x01\x10\x00\x00\xbb\x80\xab";

/// The stereo element 1 of substream 0, with a tail of one byte.
const STEREO: &[u8] = b"\x08\x0b\x01\x00\x00\x01\x00\x00\x20\x10\x01\x01\xac";

/// Element 3 of a type that is not read, of substream 7.
const OTHER: &[u8] = b"\x08\x09\x03\x40\x00\x01\x07\x00\x02\xba\xbb";

/// Mix 2 of element 1, with a tail of one byte, which counts no tags. Its gains are 100 and 101, with blocks that have their own timing.
const MIX: &[u8] = b"\x10\x1d\x02\x00\x01\x01\x01\x00\x00\x64\x80\xf7\x02\x80\x00\x00\
    \x65\x80\xf7\x02\x80\x00\x00\x01\x80\x00\x00\x00\x00\x00\x00";

/// Mix 4 of two sub-mixes, which name element 1 and element 3.
const TWO_SUB_MIXES: &[u8] = b"\x10\x35\x04\x00\x02\
    \x01\x01\x00\x00\x64\x80\xf7\x02\x80\x00\x00\x65\x80\xf7\x02\x80\x00\x00\x01\x80\x00\x00\x00\x00\x00\
    \x01\x03\x00\x00\x66\x80\xf7\x02\x80\x00\x00\x65\x80\xf7\x02\x80\x00\x00\x01\x80\x00\x00\x00\x00\x00";

const DELIMITER: &[u8] = b"\x20\x00";

/// A block of gain 100 that lasts a frame: from 0 to -6 dB.
const BLOCK: &[u8] = b"\x18\x08\x64\x08\x08\x01\x00\x00\xfa\x00";

/// A frame of substream 7, with 5 samples left out at its start.
const OTHER_FRAME: &[u8] = b"\x6a\x05\x00\x05xyz";

/// A frame of substream 0, with 5 samples left out at its start.
const STEREO_FRAME: &[u8] = b"\x32\x22\x00\x05abcdefghijklmnopqrstuvwxyzABCDEF";

/// A redundant copy of the sequence header.
const COPY: &[u8] = b"\xfc\x07iamf\x01\x00\xaa";

const PARTS: &[&[u8]] = &[
    HEADER,
    CODEC,
    STEREO,
    OTHER,
    MIX,
    TWO_SUB_MIXES,
    DELIMITER,
    BLOCK,
    OTHER_FRAME,
    STEREO_FRAME,
    COPY,
];

const LINES: &[u8] =
    b"profile 1 0\ncodec 0 ipcm 8 48000 16\nelement 1 scalable 1 2\nelement 3 other 1 0\n\
    mix 2 1 1 fits\nmix 4 2 2 -\nunits 1\nsamples 3\n";

/// The parts, one after the other.
fn whole(alloc: Global, parts: &[&[u8]]) -> Result<Vec<u8>, AllocError> {
    let mut bytes = Vec::new(alloc);
    for part in parts {
        bytes.extend_from_slice(part)?;
    }
    Ok(bytes)
}

/// The sequence that the bytes are.
fn read<'a>(rt: &impl Abort, alloc: Global, bytes: &'a [u8]) -> Result<Sequence<'a>, Fail> {
    assert!(rt; bytes.len() <= 4096);
    Ok(decode(alloc, bytes)?)
}

/// The OBUs lie one after the other in so many bytes, and those of data are of their unit.
fn assert_obus(rt: &impl Abort, sequence: &Sequence<'_>, size: usize) {
    assert!(rt; sequence.count() == 11);
    let mut at = 0;
    for i in 0..11 {
        let obu = sequence.obu(i);
        let unit = if (6..10).contains(&i) { Some(0) } else { None };
        assert_eq!(rt; (i, obu.at, sequence.unit_of(i)), (i, at, unit));
        at = obu.end;
    }
    assert!(rt; at == size && sequence.bytes().len() == size);
    assert!(rt; sequence.kept() == 3);
}

fn assert_header_and_codec(rt: &impl Abort, sequence: &Sequence<'_>) {
    let header = sequence.header();
    assert!(rt; header.primary == 1 && header.tail == b"\xaa".as_slice());
    let codec = sequence.codec();
    assert!(rt; codec.frame_length == 8 && codec.tail == b"\xab".as_slice());
}

fn assert_elements(rt: &impl Abort, sequence: &Sequence<'_>) {
    assert!(rt; sequence.element_count() == 2);
    let first = sequence.element(0);
    assert!(rt; first.id == 1 && first.tail == b"\xac".as_slice());
    let second = sequence.element(1);
    assert!(rt; second.id == 3 && matches!(second.config, ElementConfig::Other { .. }));
}

fn assert_mixes(rt: &impl Abort, sequence: &Sequence<'_>) {
    assert!(rt; sequence.mix_count() == 2);
    let first = sequence.mix(0);
    assert!(rt; first.id == 2 && matches!(&first.tags, Some(tags) if tags.len() == 0));
    let second = sequence.mix(1);
    assert!(rt; second.id == 4 && second.sub_mixes.len() == 2 && second.tags.is_none());
}

/// How many bytes the frame of a substream has.
fn frame_length(unit: &Unit<'_>, substream: u32) -> Option<usize> {
    match unit.frame(substream) {
        Some(frame) => Some(frame.bytes.len()),
        None => None,
    }
}

fn assert_unit(rt: &impl Abort, unit: &Unit<'_>) {
    assert!(rt; unit.trim().start == 5);
    let found = [
        frame_length(unit, 0),
        frame_length(unit, 7),
        frame_length(unit, 1),
    ];
    assert_eq!(rt; found, [Some(32), Some(3), None]);
    assert!(rt; unit.block_count() == 1);
    assert!(rt; unit.block(0).id == 100);
}

fn assert_units(rt: &impl Abort, sequence: &Sequence<'_>) {
    assert!(rt; sequence.unit_count() == 1);
    assert_unit(rt, sequence.unit(0));
    let definitions = sequence.definitions();
    assert!(rt; definitions.find(100).is_some() && definitions.find(7).is_none());
}

#[test]
fn a_sequence_has_its_parts(rt: HostRuntime) -> Result<(), Fail> {
    let bytes = whole(rt.alloc(), PARTS)?;
    let sequence = read(&rt, rt.alloc(), &bytes)?;
    assert_obus(&rt, &sequence, bytes.len());
    assert_header_and_codec(&rt, &sequence);
    assert_elements(&rt, &sequence);
    assert_mixes(&rt, &sequence);
    assert_units(&rt, &sequence);
    Ok(())
}

/// Each OBU of the sequence is written as its part.
fn assert_spellings(rt: &impl Abort, alloc: Global, sequence: &Sequence<'_>) -> Result<(), Fail> {
    assert!(rt; sequence.count() == 11);
    for (i, part) in PARTS.iter().enumerate() {
        assert!(rt; i < 11);
        let spelling = encode_obu(alloc, sequence, i)?;
        assert_eq!(rt; (i, spelling.as_slice()), (i, *part));
    }
    Ok(())
}

/// The report on the sequence.
fn report_of(alloc: Global, sequence: &Sequence<'_>) -> Result<Vec<u8>, AllocError> {
    let summary = summary(alloc, sequence)?;
    report(alloc, &summary)
}

#[test]
fn a_sequence_is_written_and_reported(rt: HostRuntime) -> Result<(), Fail> {
    let bytes = whole(rt.alloc(), PARTS)?;
    let sequence = read(&rt, rt.alloc(), &bytes)?;
    assert!(rt; encode(rt.alloc(), &sequence)?.as_slice() == bytes.as_slice());
    assert!(rt; report_of(rt.alloc(), &sequence)?.as_slice() == LINES);
    assert_spellings(&rt, rt.alloc(), &sequence)
}

#[test]
fn bytes_are_written_again(rt: HostRuntime) -> Result<(), Fail> {
    let bytes = whole(rt.alloc(), PARTS)?;
    assert!(rt; bytes.len() <= 4096);
    let found = respell(rt.alloc(), &bytes)?;
    assert!(rt; found.as_slice() == bytes.as_slice());
    Ok(())
}

/// A sequence header of the profile, and then the parts.
fn of_profile(alloc: Global, profile: u8, parts: &[&[u8]]) -> Result<Vec<u8>, AllocError> {
    let mut bytes = Vec::from_slice(alloc, b"\xf8\x06iamf")?;
    bytes.push(profile)?;
    bytes.push(0)?;
    for part in parts {
        bytes.extend_from_slice(part)?;
    }
    Ok(bytes)
}

/// The report on the sequence that the bytes are.
fn reported(rt: &impl Abort, alloc: Global, bytes: &[u8]) -> Result<Vec<u8>, Fail> {
    assert!(rt; bytes.len() <= 4096);
    let summary = summarize(alloc, bytes)?;
    Ok(report(alloc, &summary)?)
}

/// The place and the number of the refusal of the bytes, and 0 and 0 where they are not refused.
fn refused(rt: &impl Abort, alloc: Global, bytes: &[u8]) -> (u64, u32) {
    assert!(rt; bytes.len() <= 4096);
    match summarize(alloc, bytes) {
        Ok(_) => (0, 0),
        Err(error) => match error {
            DecodeError::Refused(refusal) => (refusal.at, refusal.code()),
            DecodeError::Memory(_) => (0, 0),
        },
    }
}

/// LPCM of 16 bits at 48 kHz, in frames of 8 samples.
const LPCM: &[u8] = b"\x00\x0e\x00ipcm\x08\x00\x00\x01\x10\x00\x00\xbb\x80";

/// FLAC of 16 bits at 48 kHz, in frames of 8 samples.
const FLAC: &[u8] = b"\x00\x2e\x00fLaC\x08\x00\x00\x80\x00\x00\x22\x00\x08\x00\x08\
    \x00\x00\x00\x00\x00\x00\x0b\xb8\x02\xf0\x00\x00\x00\x00\
    \x00\x00\x00\x00\x00\x00\x00\x00\x00\x00\x00\x00\x00\x00\x00\x00";

/// The stereo element 1 of substream 0.
const ELEMENT: &[u8] = b"\x08\x0a\x01\x00\x00\x01\x00\x00\x20\x10\x01\x01";

/// Mix 2 of element 1 without its type and its size, and without a tail.
const MIX_OF_ONE: &[u8] = b"\x02\x00\x01\x01\x01\x00\x00\x64\x80\xf7\x02\x80\x00\x00\
    \x65\x80\xf7\x02\x80\x00\x00\x01\x80\x00\x00\x00\x00\x00";

/// Elements 1 to a number, each of a substream of its own, in a layout and with so many coupled substreams.
fn elements(alloc: Global, last: u8, layout: u8, coupled: u8) -> Result<Vec<u8>, AllocError> {
    let mut bytes = Vec::new(alloc);
    for id in 1..=last {
        bytes.extend_from_slice(&[0x08, 0x0a, id, 0, 0, 1, id, 0, 0x20, layout, 1, coupled])?;
    }
    Ok(bytes)
}

/// A mix with this head, its type to its number of elements, which are 1 to a number and then some more.
fn mix(alloc: Global, head: &[u8], last: u8, more: &[u8]) -> Result<Vec<u8>, AllocError> {
    let mut ids = Vec::new(alloc);
    for id in 1..=last {
        ids.push(id)?;
    }
    ids.extend_from_slice(more)?;
    let mut bytes = Vec::from_slice(alloc, head)?;
    for id in ids.as_slice() {
        bytes.extend_from_slice(&[*id, 0, 0, 0x64, 0x80, 0xf7, 0x02, 0x80, 0, 0])?;
    }
    bytes.extend_from_slice(b"\x65\x80\xf7\x02\x80\x00\x00\x01\x80\x00\x00\x00\x00\x00")?;
    Ok(bytes)
}

/// A sequence of the profile with three stereo elements and a mix of them, and then these bytes.
fn of_three_elements(alloc: Global, profile: u8, more: &[u8]) -> Result<Vec<u8>, AllocError> {
    let mut bytes = of_profile(alloc, profile, &[LPCM])?;
    bytes.extend_from_slice(&elements(alloc, 3, 0x10, 1)?)?;
    bytes.extend_from_slice(&mix(alloc, b"\x10\x30\x02\x00\x01\x03", 3, &[])?)?;
    bytes.extend_from_slice(more)?;
    Ok(bytes)
}

#[test]
fn three_elements_fit_the_wide_profile(rt: HostRuntime) -> Result<(), Fail> {
    let bytes = of_three_elements(rt.alloc(), 2, b"")?;
    let text = reported(&rt, rt.alloc(), &bytes)?;
    assert_eq!(rt;
        text.as_slice(),
        b"profile 2 0\ncodec 0 ipcm 8 48000 16\nelement 1 scalable 1 2\n\
          element 2 scalable 1 2\nelement 3 scalable 1 2\nmix 2 1 3 fits\nunits 0\nsamples 0\n"
            .as_slice()
    );
    Ok(())
}

#[test]
fn profiles_are_refused(rt: HostRuntime) -> Result<(), Fail> {
    // Three elements do not fit the base profile, which is the fault of the first data OBU.
    let base = of_three_elements(rt.alloc(), 1, DELIMITER)?;
    // There is no profile above the wide one.
    let above = of_profile(rt.alloc(), 3, &[LPCM, ELEMENT])?;
    let found = [
        refused(&rt, rt.alloc(), &base),
        refused(&rt, rt.alloc(), &above),
    ];
    assert_eq!(rt; found, [(110, 36), (0, 12)]);
    Ok(())
}

/// Twenty-eight elements, a mix of them, and a mix of them and of the first once more.
fn of_many_elements(alloc: Global) -> Result<Vec<u8>, AllocError> {
    let mut bytes = of_profile(alloc, 2, &[LPCM])?;
    bytes.extend_from_slice(&elements(alloc, 28, 0, 0)?)?;
    bytes.extend_from_slice(&mix(alloc, b"\x10\xaa\x02\x02\x00\x01\x1c", 28, &[])?)?;
    bytes.extend_from_slice(&mix(alloc, b"\x10\xb4\x02\x03\x00\x01\x1d", 28, &[1])?)?;
    Ok(bytes)
}

#[test]
fn twenty_eight_elements_fit_and_one_more_does_not(rt: HostRuntime) -> Result<(), Fail> {
    let bytes = of_many_elements(rt.alloc())?;
    let text = reported(&rt, rt.alloc(), &bytes)?;
    let last = b"mix 2 1 28 fits\nmix 3 1 29 -\nunits 0\nsamples 0\n";
    assert!(rt; text.as_slice().ends_with(last), "{text:?}");
    Ok(())
}

/// The report on a mix with this head and this tail.
fn tail_reported(
    rt: &impl Abort,
    alloc: Global,
    head: &[u8],
    tail: &[u8],
) -> Result<Vec<u8>, Fail> {
    let bytes = of_profile(alloc, 0, &[LPCM, ELEMENT, head, MIX_OF_ONE, tail])?;
    reported(rt, alloc, &bytes)
}

// The head of a mix, its tail, and the report after the line of the mix.
const TAILS: &[(&[u8], &[u8], &[u8])] = &[
    (
        b"\x10\x25",
        b"\x01lang\0en\0",
        b"mix 2 1 1 fits\ntag lang en\nunits 0\nsamples 0\n",
    ),
    // Of two tags one is missing, so there are none.
    (
        b"\x10\x25",
        b"\x02lang\0en\0",
        b"mix 2 1 1 fits\nunits 0\nsamples 0\n",
    ),
    (
        b"\x10\x22",
        b"\x01a b\0\0",
        b"mix 2 1 1 fits\ntag a\\20b \nunits 0\nsamples 0\n",
    ),
];

const FRONT: &[u8] = b"profile 0 0\ncodec 0 ipcm 8 48000 16\nelement 1 scalable 1 2\n";

#[test]
fn tags_follow_their_mix(rt: HostRuntime) -> Result<(), Fail> {
    for (head, tail, lines) in TAILS {
        let found = tail_reported(&rt, rt.alloc(), head, tail)?;
        let wanted = whole(rt.alloc(), &[FRONT, lines])?;
        assert_eq!(rt; found.as_slice(), wanted.as_slice());
    }
    Ok(())
}

/// A frame of FLAC of substream 0: 8 samples of 4660 on the left and of -292 on the right, without its last byte.
const FLAC_FRAME: &[u8] = b"\x30\x0f\xff\xf8\x6a\x18\x00\x07\x90\x00\x12\x34\x00\xfe\xdc\x00";

/// A sequence of that frame with this last byte.
fn of_flac(alloc: Global, last: &[u8]) -> Result<Vec<u8>, AllocError> {
    of_profile(
        alloc,
        0,
        &[FLAC, ELEMENT, b"\x10\x1c", MIX_OF_ONE, FLAC_FRAME, last],
    )
}

#[test]
fn frames_of_flac_are_decoded(rt: HostRuntime) -> Result<(), Fail> {
    let right = of_flac(rt.alloc(), b"\x6b")?;
    let text = reported(&rt, rt.alloc(), &right)?;
    assert!(rt;
        text.as_slice().ends_with(b"units 1\nsamples 8\n"),
        "{text:?}"
    );
    let wrong = of_flac(rt.alloc(), b"\x6a")?;
    assert!(rt; refused(&rt, rt.alloc(), &wrong) == (98, 44));
    Ok(())
}
