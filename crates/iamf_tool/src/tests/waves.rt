//! `play`: WAV files.
use super::case::{Case, PLAIN, check_all};
use super::parts::{
    BLOCK, DELIMITER, DESCRIPTORS, ELEMENT, FLAC, FLAC_FRAME, FOUR_OUTPUTS, HEAD, HEADER, MIX,
    MIX_OF_BOTH, ONE_OUTPUT, SAMPLES, SECOND_ELEMENT,
};
use super::wave_parts::{
    FLAC_OF_32, FOUR_OUTPUTS_FORMAT, L51_FORMAT, L312_512, L512_FORMAT, MIX_DOWN, MIX_UP, MONO_51,
    MONO_ELEMENT, MONO_FORMAT, MONO_FORMAT_OF_24, MONO_STEREO, ONE, ONE_OF_24, ONE_OUTPUT_FORMAT,
    RAMP, STEREO_51, STEREO_FORMAT, STEREO_FORMAT_OF_32,
};
use crate::status::Status;
use std::test::Fail;

/// A target, the parts of an input, and those of its WAV file.
type Played = (
    &'static str,
    &'static [&'static [u8]],
    &'static [&'static [u8]],
);

/// A unit of the layers 3.1.2 and 5.1.2: left channels of 1707 and 1000, and a top left channel of 1000.
const FRAMES_OF_L512: &[u8] =
    b"\x30\x04\xab\x06\x00\x00\x38\x04\xe8\x03\x00\x00\x40\x02\x00\x00\x48\x02\x00\x00\x50\
    \x04\xe8\x03\x00\x00";

const PLAYED: &[Played] = &[
    // One unit: its samples unchanged.
    (
        "stereo",
        &[DESCRIPTORS, DELIMITER, HEAD, SAMPLES],
        &[
            b"RIFF\x5c\x00\x00\x00",
            STEREO_FORMAT,
            b"data\x20\x00\x00\x00",
            SAMPLES,
        ],
    ),
    // The sample file of this repository.
    (
        "stereo",
        &[
            DESCRIPTORS,
            DELIMITER,
            HEAD,
            b"\x00\x01\x02\x03\x04\x05\x06\x07\x08\x09\x0a\x0b\x0c\x0d\x0e\x0f\x10\x11\x12\x13\x14\
    \x15\x16\x17\x18\x19\x1a\x1b\x1c\x1d\x1e\x1f",
        ],
        &[
            b"RIFF\x5c\x00\x00\x00",
            STEREO_FORMAT,
            b"data\x20\x00\x00\x00",
            b"\x00\x01\x02\x03\x04\x05\x06\x07\x08\x09\x0a\x0b\x0c\x0d\x0e\x0f\x10\x11\x12\x13\x14\
    \x15\x16\x17\x18\x19\x1a\x1b\x1c\x1d\x1e\x1f",
        ],
    ),
    // No unit.
    (
        "stereo",
        &[DESCRIPTORS],
        &[
            b"RIFF\x3c\x00\x00\x00",
            STEREO_FORMAT,
            b"data\x00\x00\x00\x00",
        ],
    ),
    // Three samples left out at the end, and two at the start.
    (
        "stereo",
        &[DESCRIPTORS, b"\x32\x22\x03\x02", SAMPLES],
        &[
            b"RIFF\x48\x00\x00\x00",
            STEREO_FORMAT,
            b"data\x0c\x00\x00\x00",
            b"ijklmnopqrst",
        ],
    ),
    // A default gain of -6 dB: 5011.87.
    (
        "stereo",
        &[HEADER, ONE, ELEMENT, MIX_DOWN, b"\x30\x04\x10\x27\x10\x27"],
        &[
            b"RIFF\x40\x00\x00\x00",
            STEREO_FORMAT,
            b"data\x04\x00\x00\x00",
            b"\x94\x13\x94\x13",
        ],
    ),
    // The greatest gain: 3981.07 and -3981.07.
    (
        "stereo",
        &[HEADER, ONE, ELEMENT, MIX_UP, b"\x30\x04\x64\x00\x9c\xff"],
        &[
            b"RIFF\x40\x00\x00\x00",
            STEREO_FORMAT,
            b"data\x04\x00\x00\x00",
            b"\x8d\x0f\x73\xf0",
        ],
    ),
    // Mono, and stereo above it.
    (
        "mono",
        &[
            HEADER,
            ONE,
            MONO_STEREO,
            MIX,
            b"\x30\x02\x64\x00",
            b"\x38\x02\x96\x00",
        ],
        &[
            b"RIFF\x3e\x00\x00\x00",
            MONO_FORMAT,
            b"data\x02\x00\x00\x00",
            b"\x64\x00",
        ],
    ),
    (
        "stereo",
        &[
            HEADER,
            ONE,
            MONO_STEREO,
            MIX,
            b"\x30\x02\x64\x00",
            b"\x38\x02\x96\x00",
        ],
        &[
            b"RIFF\x40\x00\x00\x00",
            STEREO_FORMAT,
            b"data\x04\x00\x00\x00",
            b"\x96\x00\x32\x00",
        ],
    ),
    // Mono, and 5.1 above it: the right surround channel is 500 over 0.707.
    (
        "5.1",
        &[
            HEADER,
            ONE,
            MONO_51,
            MIX,
            b"\x30\x02\xee\x02",
            b"\x38\x04\x25\x01\x00\x00",
            b"\x40\x02\x00\x00",
            b"\x48\x02\x00\x00",
            b"\x50\x02\xe8\x03",
        ],
        &[
            b"RIFF\x48\x00\x00\x00",
            L51_FORMAT,
            b"data\x0c\x00\x00\x00",
            b"\x25\x01\x00\x00\x00\x00\x00\x00\xe8\x03\xc3\x02",
        ],
    ),
    // Stereo, and 5.1 above it, by a block of mode 0.
    (
        "5.1",
        &[
            HEADER,
            ONE,
            STEREO_51,
            MIX,
            b"\x18\x02\x66\x00",
            b"\x30\x04\xe8\x03\x00\x00",
            b"\x38\x04\x25\x01\x00\x00",
            b"\x40\x02\x00\x00",
            b"\x48\x02\x00\x00",
        ],
        &[
            b"RIFF\x48\x00\x00\x00",
            L51_FORMAT,
            b"data\x0c\x00\x00\x00",
            b"\x25\x01\x00\x00\x00\x00\x00\x00\xe8\x03\x00\x00",
        ],
    ),
    // 3.1.2, and 5.1.2 above it: the weight of the height is stepped in units with a block, and else the default one.
    (
        "5.1.2",
        &[
            HEADER,
            ONE,
            L312_512,
            MIX,
            b"\x18\x02\x66\x80",
            FRAMES_OF_L512,
            FRAMES_OF_L512,
            b"\x18\x02\x66\x80",
            FRAMES_OF_L512,
        ],
        &[
            b"RIFF\x6c\x00\x00\x00",
            L512_FORMAT,
            b"data\x30\x00\x00\x00",
            b"\xe8\x03\x00\x00\x00\x00\x00\x00\xe8\x03\x00\x00\xdb\x03\x00\x00",
            b"\xe8\x03\x00\x00\x00\x00\x00\x00\xe8\x03\x00\x00\xe8\x03\x00\x00",
            b"\xe8\x03\x00\x00\x00\x00\x00\x00\xe8\x03\x00\x00\xcc\x03\x00\x00",
        ],
    ),
    // Two elements, of which the first is 6 dB louder: 29857.87, and 39857.87, which is clipped.
    (
        "stereo",
        &[
            b"\xf8\x06iamf\x01\x00",
            ONE,
            ELEMENT,
            SECOND_ELEMENT,
            MIX_OF_BOTH,
            b"\x30\x04\x30\x75\x30\x75",
            b"\x38\x04\xd0\x8a\xe0\xb1",
        ],
        &[
            b"RIFF\x40\x00\x00\x00",
            STEREO_FORMAT,
            b"data\x04\x00\x00\x00",
            b"\xa2\x74\xff\x7f",
        ],
    ),
    // A gain from 0 to -6 dB.
    (
        "stereo",
        &[DESCRIPTORS, BLOCK, HEAD, RAMP],
        &[
            b"RIFF\x5c\x00\x00\x00",
            STEREO_FORMAT,
            b"data\x20\x00\x00\x00",
            b"\x10\x27\x00\x00\xa0\x24\x00\x00\x31\x22\x00\x00\xc1\x1f\x00\x00\x52\x1d\x00\x00\xe2\
    \x1a\x00\x00\x73\x18\x00\x00\x03\x16\x00\x00",
        ],
    ),
    // One output, which is half of its substream.
    (
        "acn",
        &[HEADER, ONE, ONE_OUTPUT, MIX, b"\x30\x02\x64\x00"],
        &[
            b"RIFF\x3e\x00\x00\x00",
            ONE_OUTPUT_FORMAT,
            b"data\x02\x00\x00\x00",
            b"\x32\x00",
        ],
    ),
    // Four outputs, of which the last is silent.
    (
        "acn",
        &[
            HEADER,
            ONE,
            FOUR_OUTPUTS,
            MIX,
            b"\x30\x02\x64\x00",
            b"\x38\x02\x65\x00",
            b"\x40\x02\x9a\xff",
        ],
        &[
            b"RIFF\x44\x00\x00\x00",
            FOUR_OUTPUTS_FORMAT,
            b"data\x08\x00\x00\x00",
            b"\x64\x00\x65\x00\x9a\xff\x00\x00",
        ],
    ),
    // Three bytes of data, and one that makes them even.
    (
        "mono",
        &[
            HEADER,
            ONE_OF_24,
            MONO_ELEMENT,
            MIX,
            b"\x30\x03\x01\x02\x03",
        ],
        &[
            b"RIFF\x40\x00\x00\x00",
            MONO_FORMAT_OF_24,
            b"data\x03\x00\x00\x00",
            b"\x01\x02\x03\x00",
        ],
    ),
    // FLAC: constant subframes; wasted bits; and a side of 33 bits.
    (
        "stereo",
        &[HEADER, FLAC, ELEMENT, MIX, FLAC_FRAME],
        &[
            b"RIFF\x5c\x00\x00\x00",
            STEREO_FORMAT,
            b"data\x20\x00\x00\x00",
            b"\x34\x12\xdc\xfe\x34\x12\xdc\xfe\x34\x12\xdc\xfe\x34\x12\xdc\xfe\x34\x12\xdc\xfe\x34\
    \x12\xdc\xfe\x34\x12\xdc\xfe\x34\x12\xdc\xfe",
        ],
    ),
    (
        "stereo",
        &[
            HEADER,
            FLAC,
            ELEMENT,
            MIX,
            b"\x30\x1b\xff\xf8\x6a\x18\x00\x07\x90\x03\x20\x00\x00\x0f\xff\xc0\xc9\xf9\xc7\xff\xc0\
    \x00\x00\xa0\x1f\xff\xa0\x41\x62",
        ],
        &[
            b"RIFF\x5c\x00\x00\x00",
            STEREO_FORMAT,
            b"data\x20\x00\x00\x00",
            b"\x00\x00\xfd\xff\x08\x00\xfd\xff\xf8\xff\xfd\xff\x20\x03\xfd\xff\xe0\xfc\xfd\xff\xf8\
    \x7f\xfd\xff\x00\x80\xfd\xff\x28\x00\xfd\xff",
        ],
    ),
    (
        "stereo",
        &[
            HEADER,
            FLAC_OF_32,
            ELEMENT,
            MIX,
            b"\x30\x14\xff\xf8\x6a\x8e\x00\x07\x44\x00\x7f\xff\xff\xff\x00\x7f\xff\xff\xff\x80\x1f\
    \x1d",
        ],
        &[
            b"RIFF\x7c\x00\x00\x00",
            STEREO_FORMAT_OF_32,
            b"data\x40\x00\x00\x00",
            b"\xff\xff\xff\x7f\x00\x00\x00\x80\xff\xff\xff\x7f\x00\x00\x00\x80\xff\xff\xff\x7f\x00\
    \x00\x00\x80\xff\xff\xff\x7f\x00\x00\x00\x80\xff\xff\xff\x7f\x00\x00\x00\x80\xff\xff\
    \xff\x7f\x00\x00\x00\x80\xff\xff\xff\x7f\x00\x00\x00\x80\xff\xff\xff\x7f\x00\x00\x00\
    \x80",
        ],
    ),
];

#[test]
fn mixes_are_played(rt: HostRuntime) -> Result<(), Fail> {
    for (target, input, wave) in PLAYED {
        Case::writes(&["play", "2", *target], input, wave).check(&rt, rt.alloc())?;
    }
    Ok(())
}

const ONE_UNIT: &[&[u8]] = &[DESCRIPTORS, DELIMITER, HEAD, SAMPLES];

// The front of a WAV file of one unit, which has 32 bytes of data.
const HEAD_OF_WAVE: &[&[u8]] = &[
    b"RIFF\x5c\x00\x00\x00",
    STEREO_FORMAT,
    b"data\x20\x00\x00\x00",
];

const FAILURES: &[Case<'static>] = &[
    // The head is written, and then no byte of the unit.
    Case {
        words: &["play", "2", "stereo"],
        input: ONE_UNIT,
        write_fails: &[1],
        status: Status::WriteFault,
        out: HEAD_OF_WAVE,
        notes: b"write failed\n",
        ..PLAIN
    },
    Case {
        words: &["play", "2", "stereo"],
        input: ONE_UNIT,
        read_fails: &[0],
        status: Status::ReadFault,
        notes: b"read failed\n",
        ..PLAIN
    },
];

#[test]
fn failures_of_the_outside_end_a_wave(rt: HostRuntime) -> Result<(), Fail> {
    check_all(&rt, rt.alloc(), FAILURES)?;
    Ok(())
}
