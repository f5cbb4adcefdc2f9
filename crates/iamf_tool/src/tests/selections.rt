//! `play`: words that say it, and mixes that are not played.
use super::case::{Case, whole};
use super::parts::{
    BLOCK, CODEC, DELIMITER, DESCRIPTORS, ELEMENT, HEAD, HEADER, MIX, ONE_OUTPUT, SAMPLES,
};
use super::wave_parts::{MIX_ABOVE, ONE, STEREO_51};
use std::alloc::{AllocError, Global};
use std::test::Fail;

/// The id of a mix, a target, the parts of an input, and what is noted.
type Unplayable = (
    &'static str,
    &'static str,
    &'static [&'static [u8]],
    &'static [u8],
);

/// Element 1 with the layers stereo and 5.1, of which the second has recon gains, and no demixing parameter.
const RECON_ELEMENT: &[u8] =
    b"\x08\x10\x01\x00\x00\x04\x00\x01\x02\x03\x00\x40\x10\x01\x01\x24\x03\x01";

/// Element 1 with the layers stereo and 5.1, and the reserved default mode 3.
const RESERVED_ELEMENT: &[u8] =
    b"\x08\x1a\x01\x00\x00\x04\x00\x01\x02\x03\x01\x01\x66\x80\xf7\x02\x00\x01\x01\x60\x00\
    \x40\x10\x01\x01\x20\x03\x01";

/// The ambisonics element 2 of one output, of substream 1.
const SCENE_ELEMENT: &[u8] = b"\x08\x0a\x02\x20\x00\x01\x01\x00\x00\x01\x01\x00";

/// Element 3 of a type that is kept unread, of substream 2.
const OTHER_ELEMENT: &[u8] = b"\x08\x07\x03\x40\x00\x01\x02\x00\x00";

/// Mix 3, of element 3.
const MIX_OF_OTHER: &[u8] =
    b"\x10\x1c\x03\x00\x01\x01\x03\x00\x00\x66\x80\xf7\x02\x80\x00\x00\x65\x80\xf7\x02\x80\
    \x00\x00\x01\x80\x00\x00\x00\x00\x00";

/// Mix 3, of the elements 2 and 3.
const MIX_OF_OTHERS: &[u8] =
    b"\x10\x26\x03\x00\x01\x02\x02\x00\x00\x67\x80\xf7\x02\x80\x00\x00\x03\x00\x00\x66\x80\
    \xf7\x02\x80\x00\x00\x65\x80\xf7\x02\x80\x00\x00\x01\x80\x00\x00\x00\x00\x00";

/// Mix 2, of element 1 with a gain at 44100 Hz.
const MIX_AT_44100: &[u8] =
    b"\x10\x1c\x02\x00\x01\x01\x01\x00\x00\x64\xc4\xd8\x02\x80\x00\x00\x65\x80\xf7\x02\x80\
    \x00\x00\x01\x80\x00\x00\x00\x00\x00";

/// A block of gain 100 that lasts a frame, by a Bezier curve.
const BEZIER: &[u8] = b"\x18\x0b\x64\x08\x08\x02\x00\x00\xfa\x00\xfa\x00\x80";

/// A unit of the layers stereo and 5.1.
const FRAMES: &[u8] =
    b"\x30\x04\x01\x00\x02\x00\x38\x04\x03\x00\x04\x00\x40\x02\x05\x00\x48\x02\x06\x00";

const UNPLAYABLE: &[Unplayable] = &[
    // Bytes that are no sequence are refused before the mix is looked for.
    ("3", "stereo", &[], b"refused 0 35\n"),
    // The least id and the greatest, which no mix has.
    ("0", "7.1.4", &[DESCRIPTORS], b"unplayable 50\n"),
    ("4294967295", "7.1.4", &[DESCRIPTORS], b"unplayable 50\n"),
    // No mix has the id.
    (
        "3",
        "stereo",
        &[DESCRIPTORS, DELIMITER, HEAD, SAMPLES],
        b"unplayable 50\n",
    ),
    (
        "3",
        "mono",
        &[DESCRIPTORS, DELIMITER, HEAD, SAMPLES],
        b"unplayable 50\n",
    ),
    // No element, and two sub-mixes.
    (
        "3",
        "stereo",
        &[
            DESCRIPTORS,
            b"\x10\x12\x03\x00\x01\x00\x65\x80\xf7\x02\x80\x00\x00\x01\x80\x00\x00\x00\x00\x00",
        ],
        b"unplayable 51\n",
    ),
    (
        "3",
        "mono",
        &[
            DESCRIPTORS,
            b"\x10\x35\x03\x00\x02\x01\x01\x00\x00\x64\x80\xf7\x02\x80\x00\x00\x65\x80\xf7\x02\x80\
    \x00\x00\x01\x80\x00\x00\x00\x00\x00\x01\x01\x00\x00\x64\x80\xf7\x02\x80\x00\x00\x65\
    \x80\xf7\x02\x80\x00\x00\x01\x80\x00\x00\x00\x00\x00",
        ],
        b"unplayable 51\n",
    ),
    // No such layer.
    (
        "2",
        "5.1",
        &[DESCRIPTORS, DELIMITER, HEAD, SAMPLES],
        b"unplayable 52\n",
    ),
    // A recon gain in a layer that is used, where there is one.
    (
        "2",
        "7.1",
        &[HEADER, ONE, RECON_ELEMENT, MIX],
        b"unplayable 52\n",
    ),
    (
        "2",
        "5.1",
        &[HEADER, ONE, RECON_ELEMENT, MIX],
        b"unplayable 55\n",
    ),
    // Ambisonics for loudspeakers, and loudspeakers as a scene.
    (
        "2",
        "mono",
        &[HEADER, ONE, ONE_OUTPUT, MIX],
        b"unplayable 53\n",
    ),
    (
        "2",
        "acn",
        &[DESCRIPTORS, DELIMITER, HEAD, SAMPLES],
        b"unplayable 53\n",
    ),
    // Also beside an element of another type, which is not played for any target.
    (
        "3",
        "stereo",
        &[
            HEADER,
            ONE,
            ELEMENT,
            SCENE_ELEMENT,
            OTHER_ELEMENT,
            MIX,
            MIX_OF_OTHERS,
        ],
        b"unplayable 53\n",
    ),
    (
        "3",
        "stereo",
        &[HEADER, ONE, ELEMENT, OTHER_ELEMENT, MIX, MIX_OF_OTHER],
        b"unplayable 54\n",
    ),
    (
        "3",
        "acn",
        &[
            HEADER,
            ONE,
            ELEMENT,
            SCENE_ELEMENT,
            OTHER_ELEMENT,
            MIX,
            MIX_OF_OTHERS,
        ],
        b"unplayable 54\n",
    ),
    // No demixing parameter, where the layers need one.
    (
        "2",
        "5.1",
        &[
            HEADER,
            ONE,
            b"\x08\x10\x01\x00\x00\x04\x00\x01\x02\x03\x00\x40\x10\x01\x01\x20\x03\x01",
            MIX,
        ],
        b"unplayable 56\n",
    ),
    // A reserved default mode, and one of a block.
    (
        "2",
        "5.1",
        &[HEADER, ONE, RESERVED_ELEMENT, MIX, FRAMES],
        b"unplayable 57\n",
    ),
    (
        "2",
        "5.1",
        &[HEADER, ONE, RESERVED_ELEMENT, MIX_ABOVE, FRAMES],
        b"unplayable 57\n",
    ),
    (
        "2",
        "5.1",
        &[HEADER, ONE, STEREO_51, MIX, b"\x18\x02\x66\xe0", FRAMES],
        b"unplayable 57\n",
    ),
    // A gain at another rate that has a block.
    (
        "2",
        "stereo",
        &[HEADER, CODEC, ELEMENT, MIX_AT_44100, BLOCK, HEAD, SAMPLES],
        b"unplayable 58\n",
    ),
    (
        "2",
        "stereo",
        &[HEADER, CODEC, ELEMENT, MIX_AT_44100, BEZIER, HEAD, SAMPLES],
        b"unplayable 58\n",
    ),
    // A Bezier curve, also where a gain is too great.
    (
        "2",
        "stereo",
        &[DESCRIPTORS, BEZIER, HEAD, SAMPLES],
        b"unplayable 59\n",
    ),
    (
        "2",
        "stereo",
        &[HEADER, CODEC, ELEMENT, MIX_ABOVE, BEZIER, HEAD, SAMPLES],
        b"unplayable 59\n",
    ),
    // A default gain above 32 dB, one of a block, and one of a layer.
    (
        "2",
        "stereo",
        &[HEADER, CODEC, ELEMENT, MIX_ABOVE],
        b"unplayable 60\n",
    ),
    (
        "2",
        "stereo",
        &[
            DESCRIPTORS,
            b"\x18\x06\x64\x08\x08\x00\x20\x01",
            HEAD,
            SAMPLES,
        ],
        b"unplayable 60\n",
    ),
    (
        "2",
        "stereo",
        &[
            HEADER,
            ONE,
            b"\x08\x0d\x01\x00\x00\x01\x00\x00\x20\x18\x01\x01\xc0\x20\x01",
            MIX,
        ],
        b"unplayable 60\n",
    ),
];

#[test]
fn mixes_are_not_played_by_the_first_rule(rt: HostRuntime) -> Result<(), Fail> {
    for (mix, target, input, notes) in UNPLAYABLE {
        Case::refuses(&["play", *mix, *target], input, notes).check(&rt, rt.alloc())?;
    }
    Ok(())
}

const NO_COMMANDS: &[&[&str]] = &[
    &["play"],
    &["play", "2"],
    &["play", "02", "stereo"],
    &["play", "+2", "stereo"],
    &["play", "", "stereo"],
    &["play", "4294967296", "stereo"],
    &["play", "2", "binaural"],
    &["play", "2", "Stereo"],
    &["play", "stereo", "2"],
    &["play", "2", "stereo", ""],
];

#[test]
fn words_that_name_no_mix_or_no_target_read_nothing(rt: HostRuntime) -> Result<(), Fail> {
    for words in NO_COMMANDS {
        Case::says_nothing(words, &[]).check(&rt, rt.alloc())?;
    }
    Ok(())
}

/// FLAC of 32 bits at 48 kHz, in frames of 65535 samples.
const LONG_FLAC: &[u8] =
    b"\x00\x30\x00fLaC\xff\xff\x03\x00\x00\x80\x00\x00\x22\xff\xff\xff\xff\x00\x00\x00\x00\
    \x00\x00\x0b\xb8\x01\xf0\x00\x00\x00\x00\x00\x00\x00\x00\x00\x00\x00\x00\x00\x00\x00\
    \x00\x00\x00\x00\x00";

/// A frame of it: zeros in one channel.
const LONG_FRAME: &[u8] = b"\x30\x0f\xff\xf8\x7a\x0e\x00\xff\xfe\x90\x00\x00\x00\x00\x00\xee\xb1";

/// The head of an ambisonics element of 225 outputs, all of substream 0.
const OUTPUTS_HEAD: &[u8] = b"\x08\xea\x01\x01\x20\x00\x01\x00\x00\x00\xe1\x01";

/// A sequence of so many frames, each of which plays as 58981500 bytes.
fn with_long_frames(alloc: Global, count: usize) -> Result<Vec<u8>, AllocError> {
    let mut bytes = whole(alloc, &[HEADER, LONG_FLAC, OUTPUTS_HEAD, &[0; 225], MIX])?;
    for _ in 0..count {
        bytes.extend_from_slice(LONG_FRAME)?;
    }
    Ok(bytes)
}

#[test]
fn a_wave_above_four_gibibytes_is_not_written(rt: HostRuntime) -> Result<(), Fail> {
    let bytes = with_long_frames(rt.alloc(), 73)?;
    let input = &[bytes.as_slice()];
    Case::refuses(&["play", "2", "acn"], input, b"unplayable 61\n").check(&rt, rt.alloc())?;
    Ok(())
}
