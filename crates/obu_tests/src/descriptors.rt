//! Sequence headers, codec configs and timings.

use crate::changed::changed;
use obu_descriptors::*;
use smallvec::SmallVec;
use spec_bits::FieldFault;
use std::alloc::{AllocError, Global};
use std::test::Fail;

const SHORT: DescriptorFault = DescriptorFault::Field(FieldFault::Short);

// Profile 0 twice.
const HEADER: &[u8] = b"iamf\x00\x00";

// 16 bits little-endian at 48 kHz, in frames of 8 samples.
const LPCM: &[u8] = b"\x00ipcm\x08\x00\x00\x01\x10\x00\x00\xbb\x80";

// 16 bits at 48 kHz, in frames of 64 samples, with one metadata block.
const FLAC: &[u8] = b"\x00fLaC\x40\x00\x00\x80\x00\x00\x22\x00\x40\x00\x40\
    \x00\x00\x00\x00\x00\x00\x0b\xb8\x02\xf0\x00\x00\x00\x00\x00\x00\
    \x00\x00\x00\x00\x00\x00\x00\x00\x00\x00\x00\x00\x00\x00";

// Its block.
const FLAC_BLOCK: &[u8] = b"\x80\x00\x00\x22\x00\x40\x00\x40\
    \x00\x00\x00\x00\x00\x00\x0b\xb8\x02\xf0\x00\x00\x00\x00\x00\x00\
    \x00\x00\x00\x00\x00\x00\x00\x00\x00\x00\x00\x00\x00\x00";

// The same with a second block of three bytes, and two bytes after it.
const TWO_BLOCKS: &[u8] = b"\x00fLaC\x40\x00\x00\x00\x00\x00\x22\x00\x40\x00\x40\
    \x00\x00\x00\x00\x00\x00\x0b\xb8\x02\xf0\x00\x00\x00\x00\x00\x00\
    \x00\x00\x00\x00\x00\x00\x00\x00\x00\x00\x00\x00\x00\x00\
    \x84\x00\x00\x03\x07\x08\x09\xa1\xa2";

// Its blocks.
const BOTH_BLOCKS: &[u8] = b"\x00\x00\x00\x22\x00\x40\x00\x40\
    \x00\x00\x00\x00\x00\x00\x0b\xb8\x02\xf0\x00\x00\x00\x00\x00\x00\
    \x00\x00\x00\x00\x00\x00\x00\x00\x00\x00\x00\x00\x00\x00\
    \x84\x00\x00\x03\x07\x08\x09";

// Id 5 with a tail of one byte, in numbers as short as they can be, and in longer ones.
const TAILED: &[u8] = b"\x05ipcm\x08\x00\x00\x01\x10\x00\x00\xbb\x80\x2a";

const LONG: &[u8] =
    b"\x85\x80\x00ipcm\x88\x80\x80\x80\x80\x80\x80\x00\x00\x00\x01\x10\x00\x00\xbb\x80\x2a";

// A payload, and what is read of it.
const HEADERS: &[(&[u8], Result<SequenceHeader<'static>, DescriptorFault>)] = &[
    (
        HEADER,
        Ok(SequenceHeader {
            primary: 0,
            additional: 0,
            tail: b"",
        }),
    ),
    (
        b"iamf\x01\x00",
        Ok(SequenceHeader {
            primary: 1,
            additional: 0,
            tail: b"",
        }),
    ),
    (
        b"iamf\x02\x00",
        Ok(SequenceHeader {
            primary: 2,
            additional: 0,
            tail: b"",
        }),
    ),
    (
        b"iamf\x01\xff\x2a",
        Ok(SequenceHeader {
            primary: 1,
            additional: 255,
            tail: b"\x2a",
        }),
    ),
    // The code is tested before the profile.
    (b"iamg\x03\x00", Err(DescriptorFault::Code)),
    (b"iamf\x03\x00", Err(DescriptorFault::Profile)),
];

#[test]
fn headers_are_read(rt: HostRuntime) {
    for (payload, wanted) in HEADERS {
        assert_eq!(rt; SequenceHeader::read(payload), *wanted);
    }
}

// What is read of the payload that ends with a tail, however long its numbers are.
const TAILED_CONFIG: CodecConfig<'static> = CodecConfig {
    id: 5,
    frame_length: 8,
    coding: Coding::Lpcm {
        little: true,
        depth: 16,
        rate: 48000,
    },
    tail: b"\x2a",
};

// A payload, and what is read of it.
const CONFIGS: &[(&[u8], Result<CodecConfig<'static>, DescriptorFault>)] = &[
    (
        LPCM,
        Ok(CodecConfig {
            id: 0,
            frame_length: 8,
            coding: Coding::Lpcm {
                little: true,
                depth: 16,
                rate: 48000,
            },
            tail: b"",
        }),
    ),
    (
        FLAC,
        Ok(CodecConfig {
            id: 0,
            frame_length: 64,
            coding: Coding::Flac {
                blocks: FLAC_BLOCK,
                depth: 16,
                rate: 48000,
            },
            tail: b"",
        }),
    ),
    (
        TWO_BLOCKS,
        Ok(CodecConfig {
            id: 0,
            frame_length: 64,
            coding: Coding::Flac {
                blocks: BOTH_BLOCKS,
                depth: 16,
                rate: 48000,
            },
            tail: b"\xa1\xa2",
        }),
    ),
    (TAILED, Ok(TAILED_CONFIG)),
    (LONG, Ok(TAILED_CONFIG)),
    (b"\x00Opus", Err(DescriptorFault::Opus)),
    (b"\x00mp4a", Err(DescriptorFault::Aac)),
    // The longest frame, one of a sample more, and an id of 2^32.
    (b"\x00ipcm\xff\xff\x03", Err(SHORT)),
    (b"\x00ipcm\x80\x80\x04", Err(DescriptorFault::FrameLength)),
    (
        b"\x80\x80\x80\x80\x10",
        Err(DescriptorFault::Field(FieldFault::Leb)),
    ),
    // A block of a wrong type whose length is cut off.
    (b"\x00fLaC\x40\x00\x00\x81\x00\x00", Err(SHORT)),
];

#[test]
fn codec_configs_are_read(rt: HostRuntime) {
    for (payload, wanted) in CONFIGS {
        assert_eq!(rt; CodecConfig::read(payload), *wanted);
    }
}

// A payload, the place and the value of a byte that is changed, and the fault.
const CHANGED_BYTES: &[(&[u8], usize, u8, DescriptorFault)] = &[
    (LPCM, 2, 0x6f, DescriptorFault::CodecOther),
    (LPCM, 5, 0x00, DescriptorFault::FrameLength),
    (LPCM, 7, 0x01, DescriptorFault::Roll),
    (LPCM, 8, 0x02, DescriptorFault::LpcmConfig),
    (LPCM, 9, 0x14, DescriptorFault::LpcmConfig),
    (LPCM, 13, 0x81, DescriptorFault::LpcmConfig),
    (FLAC, 8, 0x81, DescriptorFault::FlacConfig),
    (FLAC, 11, 0x21, DescriptorFault::FlacConfig),
    (FLAC, 24, 0x12, DescriptorFault::FlacConfig),
    (FLAC, 25, 0xe0, DescriptorFault::FlacConfig),
    (FLAC, 8, 0x00, SHORT),
];

#[test]
fn codec_configs_are_refused(rt: HostRuntime) -> Result<(), Fail> {
    for (payload, place, byte, fault) in CHANGED_BYTES {
        let payload = changed(rt.alloc(), payload, *place, *byte)?;
        let found = CodecConfig::read(&payload).err();
        assert_eq!(rt; (*place, found), (*place, Some(*fault)));
    }
    Ok(())
}

/// How many fronts of a sequence header lack a field, from the empty one on.
fn short_headers(payload: &[u8]) -> usize {
    for n in 0..payload.len() {
        if SequenceHeader::read(&payload[..n]) != Err(SHORT) {
            return n;
        }
    }
    payload.len()
}

/// How many fronts of a codec config lack a field, from the empty one on.
fn short_configs(payload: &[u8]) -> usize {
    for n in 0..payload.len() {
        if CodecConfig::read(&payload[..n]) != Err(SHORT) {
            return n;
        }
    }
    payload.len()
}

#[test]
fn each_truncation_lacks_a_field(rt: HostRuntime) {
    let found = [
        short_headers(HEADER),
        short_configs(LPCM),
        short_configs(TWO_BLOCKS),
    ];
    assert_eq!(rt; found, [6, 14, 53]);
}

/// What is read of a sequence header, written again.
fn header_written(alloc: Global, payload: &[u8]) -> Result<Vec<u8>, Fail> {
    Ok(SequenceHeader::read(payload)?.write(alloc)?)
}

/// Its fields alone.
fn header_fields(alloc: Global, payload: &[u8]) -> Result<Vec<u8>, Fail> {
    Ok(SequenceHeader::read(payload)?.write_fields(alloc)?)
}

#[test]
fn headers_are_written(rt: HostRuntime) -> Result<(), Fail> {
    for payload in [HEADER, b"iamf\x00\x00\xa1"] {
        let whole = header_written(rt.alloc(), payload)?;
        assert!(rt; whole.as_slice() == payload);
        let fields = header_fields(rt.alloc(), payload)?;
        assert!(rt; fields.as_slice() == HEADER);
    }
    Ok(())
}

/// What is read of a codec config, written again.
fn config_written(alloc: Global, payload: &[u8]) -> Result<Vec<u8>, Fail> {
    Ok(CodecConfig::read(payload)?.write(alloc)?)
}

/// Its fields alone.
fn config_fields(alloc: Global, payload: &[u8]) -> Result<Vec<u8>, Fail> {
    Ok(CodecConfig::read(payload)?.write_fields(alloc)?)
}

// A payload, and how what is read of it is written: the fields, and the tail.
const WRITTEN: &[(&[u8], &[u8], &[u8])] = &[
    (LPCM, LPCM, b""),
    (FLAC, FLAC, b""),
    (TWO_BLOCKS, TWO_BLOCKS_FIELDS, b"\xa1\xa2"),
    (TAILED, TAILED_FIELDS, b"\x2a"),
    (LONG, TAILED_FIELDS, b"\x2a"),
];

const TAILED_FIELDS: &[u8] = b"\x05ipcm\x08\x00\x00\x01\x10\x00\x00\xbb\x80";

const TWO_BLOCKS_FIELDS: &[u8] = b"\x00fLaC\x40\x00\x00\x00\x00\x00\x22\x00\x40\x00\x40\
    \x00\x00\x00\x00\x00\x00\x0b\xb8\x02\xf0\x00\x00\x00\x00\x00\x00\
    \x00\x00\x00\x00\x00\x00\x00\x00\x00\x00\x00\x00\x00\x00\
    \x84\x00\x00\x03\x07\x08\x09";

#[test]
fn codec_configs_are_written_shortest(rt: HostRuntime) -> Result<(), Fail> {
    for (row, (payload, wanted, tail)) in WRITTEN.iter().enumerate() {
        let fields = config_fields(rt.alloc(), payload)?;
        assert_eq!(rt; (row, fields.as_slice()), (row, *wanted));
        let whole = config_written(rt.alloc(), payload)?;
        assert!(rt; whole.starts_with(wanted) && whole.ends_with(tail));
        assert!(rt; whole.len() == wanted.len() + tail.len());
    }
    Ok(())
}

/// A copy of the timing's cadence, as text.
fn copied(alloc: Global, timing: &Timing) -> Result<String, AllocError> {
    let copy = timing.cadence(alloc)?.try_clone(alloc)?;
    format!(in alloc; "{copy:?}")
}

#[test]
fn a_cadence_is_copied(rt: HostRuntime) -> Result<(), Fail> {
    let durations = SmallVec::from_slice(rt.alloc(), &[3, 5, 1, 1, 2])?;
    let timing = Timing {
        id: 100,
        rate: 48000,
        fixed: Some(Fixed {
            duration: 12,
            constant: 0,
            durations,
        }),
    };
    let text = copied(rt.alloc(), &timing)?;
    assert!(rt;
        text.as_str()
            == "Cadence { rate: 48000, fixed: Some(Fixed { duration: 12, constant: 0, durations: [3, 5, 1, 1, 2] }) }"
    );
    Ok(())
}
