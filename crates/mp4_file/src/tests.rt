//! Files written and read back.

use crate::{Movie, rebuild, write_movie};
use mp4_boxes::{BoxFault, audio_track, read_box};
use spec_boxes::{STCO, STSC, STSZ, STTS};
use std::alloc::{AllocError, Global};
use std::test::Fail;

/// A sequence header, a codec config, an audio element and a mix presentation, which are 66 bytes.
const DESCRIPTORS: &[u8] = b"\xf8\x06iamf\x00\x00\
    \x00\x0e\x00ipcm\x08\x00\x00\x01\x10\x00\x00\xbb\x80\
    \x08\x0a\x01\x00\x00\x01\x00\x00\x20\x10\x01\x01\
    \x10\x1c\x02\x00\x01\x01\x01\x00\x00\x64\x80\xf7\x02\x80\x00\x00\
    \x65\x80\xf7\x02\x80\x00\x00\x01\x80\x00\x00\x00\x00\x00";

/// A frame of 32 bytes, its header first.
const HEADER: &[u8] = b"\x30\x20";

const SAMPLES: &[u8] = b"abcdefghijklmnopqrstuvwxyzABCDEF";

/// The same, where 3 samples are trimmed at the end and 5 at the start.
const TRIMMED_HEADER: &[u8] = b"\x32\x22\x03\x05";

/// The file of the descriptors and one frame of 8 samples, box by box, each up to the first box in it.
const FILE: &[&[u8]] = &[
    b"\x00\x00\x00\x18ftypiso6\x00\x00\x00\x00iso6iamf",
    b"\x00\x00\x02\x69moov",
    b"\x00\x00\x00\x78mvhd\x01\x00\x00\x00\x00\x00\x00\x00\x00\x00\x00\x00\x00\x00\x00\x00\x00\
      \x00\x00\x00\x00\x00\xbb\x80\x00\x00\x00\x00\x00\x00\x00\x08\x00\x01\x00\x00\x01\x00\
      \x00\x00\x00\x00\x00\x00\x00\x00\x00\x00\x00\x01\x00\x00\x00\x00\x00\x00\x00\x00\x00\
      \x00\x00\x00\x00\x00\x00\x01\x00\x00\x00\x00\x00\x00\x00\x00\x00\x00\x00\x00\x00\x00\
      \x40\x00\x00\x00\x00\x00\x00\x00\x00\x00\x00\x00\x00\x00\x00\x00\x00\x00\x00\x00\x00\
      \x00\x00\x00\x00\x00\x00\x00\x00\x00\x00\x02",
    b"\x00\x00\x01\xe9trak",
    b"\x00\x00\x00\x68tkhd\x01\x00\x00\x03\x00\x00\x00\x00\x00\x00\x00\x00\x00\x00\x00\x00\x00\
      \x00\x00\x00\x00\x00\x00\x01\x00\x00\x00\x00\x00\x00\x00\x00\x00\x00\x00\x08\x00\x00\
      \x00\x00\x00\x00\x00\x00\x00\x00\x00\x00\x01\x00\x00\x00\x00\x01\x00\x00\x00\x00\x00\
      \x00\x00\x00\x00\x00\x00\x00\x00\x00\x00\x01\x00\x00\x00\x00\x00\x00\x00\x00\x00\x00\
      \x00\x00\x00\x00\x40\x00\x00\x00\x00\x00\x00\x00\x00\x00\x00\x00",
    b"\x00\x00\x01\x79mdia",
    b"\x00\x00\x00\x2cmdhd\x01\x00\x00\x00\x00\x00\x00\x00\x00\x00\x00\x00\x00\x00\x00\x00\x00\
      \x00\x00\x00\x00\x00\xbb\x80\x00\x00\x00\x00\x00\x00\x00\x08\x55\xc4\x00\x00",
    b"\x00\x00\x00\x21hdlr\x00\x00\x00\x00\x00\x00\x00\x00soun\x00\x00\x00\x00\x00\x00\x00\x00\
      \x00\x00\x00\x00\x00",
    b"\x00\x00\x01\x24minf",
    b"\x00\x00\x00\x10smhd\x00\x00\x00\x00\x00\x00\x00\x00",
    b"\x00\x00\x00\x24dinf",
    b"\x00\x00\x00\x1cdref\x00\x00\x00\x00\x00\x00\x00\x01",
    b"\x00\x00\x00\x0curl \x00\x00\x00\x01",
    b"\x00\x00\x00\xe8stbl",
    b"\x00\x00\x00\x80stsd\x00\x00\x00\x00\x00\x00\x00\x01",
    b"\x00\x00\x00\x70iamf\x00\x00\x00\x00\x00\x00\x00\x01\x00\x00\x00\x00\x00\x00\x00\x00\x00\
      \x00\x00\x10\x00\x00\x00\x00\x00\x00\x00\x00",
    b"\x00\x00\x00\x4ciacb\x01\x42",
    DESCRIPTORS,
    b"\x00\x00\x00\x18stts\x00\x00\x00\x00\x00\x00\x00\x01\x00\x00\x00\x01\x00\x00\x00\x08",
    b"\x00\x00\x00\x1cstsc\x00\x00\x00\x00\x00\x00\x00\x01\x00\x00\x00\x01\x00\x00\x00\x01\x00\
      \x00\x00\x01",
    b"\x00\x00\x00\x18stsz\x00\x00\x00\x00\x00\x00\x00\x00\x00\x00\x00\x01\x00\x00\x00\x22",
    b"\x00\x00\x00\x14stco\x00\x00\x00\x00\x00\x00\x00\x01\x00\x00\x02\x89",
    b"\x00\x00\x00\x2amdat",
    HEADER,
    SAMPLES,
];

/// The places of its boxes after `moov`, and their ends.
const PLACES: &[(usize, usize)] = &[
    (0, 24),
    (24, 641),
    (32, 152),
    (152, 641),
    (264, 641),
    (349, 641),
    (409, 641),
    (417, 545),
    (433, 545),
    (469, 545),
    (545, 569),
    (569, 597),
    (597, 621),
    (621, 641),
    (641, 683),
];

fn joined(alloc: Global, parts: &[&[u8]]) -> Result<Vec<u8>, AllocError> {
    let mut bytes = Vec::new(alloc);
    for part in parts {
        bytes.extend_from_slice(part)?;
    }
    Ok(bytes)
}

/// The file of one unit of 8 samples.
fn file_of_one(alloc: Global) -> Result<Vec<u8>, AllocError> {
    let movie = Movie {
        descriptors: &[DESCRIPTORS],
        data: &[HEADER, SAMPLES],
        unit_lengths: &[34],
        frame_length: 8,
        sample_rate: 48000,
        trimmed: 0,
        kept: 8,
    };
    write_movie(alloc, &movie)
}

#[test]
fn one_unit_is_written_box_by_box(rt: HostRuntime) -> Result<(), Fail> {
    let file = file_of_one(rt.alloc())?;
    assert_eq!(rt; file.len(), 683);
    assert_eq!(rt; file, joined(rt.alloc(), FILE)?);
    for (at, end) in PLACES {
        assert!(rt; *at < file.len());
        assert_eq!(rt; read_box(&file, *at, file.len(), false)?.end, *end, "{at}");
    }
    Ok(())
}

#[test]
fn trims_are_written_as_an_edit(rt: HostRuntime) -> Result<(), Fail> {
    let movie = Movie {
        descriptors: &[DESCRIPTORS],
        data: &[TRIMMED_HEADER, SAMPLES],
        unit_lengths: &[36],
        frame_length: 8,
        sample_rate: 48000,
        trimmed: 5,
        kept: 0,
    };
    let file = write_movie(rt.alloc(), &movie)?;
    assert_eq!(rt; file.len(), 729);
    // One edit of no duration, which begins at sample 5.
    assert_eq!(rt;
        file.get(264..308),
        Some(
            b"\x00\x00\x00\x2cedts\x00\x00\x00\x24elst\x01\x00\x00\x00\x00\x00\x00\x01\
              \x00\x00\x00\x00\x00\x00\x00\x00\x00\x00\x00\x00\x00\x00\x00\x05\x00\x01\x00\x00"
                .as_slice()
        )
    );
    let track = audio_track(&file)?;
    assert_eq!(rt;
        rebuild(rt.alloc(), &track)?,
        joined(
            rt.alloc(),
            &[DESCRIPTORS, b"\x20\x00", TRIMMED_HEADER, SAMPLES]
        )?
    );
    Ok(())
}

#[test]
fn no_unit_is_no_chunk(rt: HostRuntime) -> Result<(), Fail> {
    let movie = Movie {
        descriptors: &[DESCRIPTORS],
        data: &[],
        unit_lengths: &[],
        frame_length: 8,
        sample_rate: 48000,
        trimmed: 0,
        kept: 0,
    };
    let file = write_movie(rt.alloc(), &movie)?;
    assert_eq!(rt; file.len(), 621);
    let track = audio_track(&file)?;
    assert_eq!(rt; track.sample_count(), 0);
    assert_eq!(rt; rebuild(rt.alloc(), &track)?.as_slice(), DESCRIPTORS);
    Ok(())
}

#[test]
fn units_of_several_slices_are_samples(rt: HostRuntime) -> Result<(), Fail> {
    let movie = Movie {
        descriptors: &[&DESCRIPTORS[..8], &DESCRIPTORS[8..]],
        data: &[HEADER, SAMPLES, TRIMMED_HEADER, SAMPLES, HEADER, SAMPLES],
        unit_lengths: &[70, 34],
        frame_length: 8,
        sample_rate: 48000,
        trimmed: 5,
        kept: 8,
    };
    let file = write_movie(rt.alloc(), &movie)?;
    let track = audio_track(&file)?;
    assert_eq!(rt; track.config(), DESCRIPTORS);
    assert_eq!(rt; track.sample_count(), 2);
    assert_eq!(rt;
        rebuild(rt.alloc(), &track)?,
        joined(
            rt.alloc(),
            &[
                DESCRIPTORS,
                b"\x20\x00",
                HEADER,
                SAMPLES,
                TRIMMED_HEADER,
                SAMPLES,
                b"\x20\x00",
                HEADER,
                SAMPLES,
            ]
        )?
    );
    Ok(())
}

/// Bytes that stand at a place of the file in stead of its own, and where and why it is then refused.
type Changed = (usize, &'static [u8], Option<(u64, BoxFault)>);

const CHANGED: &[Changed] = &[
    (24, b"\xff\xff\xff\xff", Some((24, BoxFault::BoxSize))),
    (477, b"\x02", Some((469, BoxFault::Config))),
    (545, b"\x00\x00\x00\x00", Some((545, BoxFault::BoxSize))),
    (561, b"\xff\xff\xff\xff", Some((545, BoxFault::Table(STTS)))),
    (585, b"\x00\x00\x00\x00", Some((569, BoxFault::Table(STSC)))),
    (589, b"\xff\xff\xff\xff", Some((569, BoxFault::Table(STSC)))),
    (
        593,
        b"\x00\x00\x00\x02",
        Some((569, BoxFault::Descriptions)),
    ),
    (613, b"\xff\xff\xff\xff", Some((597, BoxFault::Table(STSZ)))),
    (617, b"\x00\x00\x00\x23", Some((621, BoxFault::Chunk))),
    (633, b"\xff\xff\xff\xff", Some((621, BoxFault::Table(STCO)))),
    (637, b"\xff\xff\xff\xff", Some((621, BoxFault::Chunk))),
    (641, b"\x00\x00\x00\x00", None),
    (641, b"\x00\x00\x00\x07", Some((641, BoxFault::BoxSize))),
];

fn changed(alloc: Global, file: &[u8], at: usize, bytes: &[u8]) -> Result<Vec<u8>, AllocError> {
    let mut copy = Vec::new(alloc);
    for (place, byte) in file.iter().enumerate() {
        let new = if place >= at {
            bytes.get(place - at)
        } else {
            None
        };
        copy.push(*new.unwrap_or(byte))?;
    }
    Ok(copy)
}

fn refusal(file: &[u8]) -> Option<(u64, BoxFault)> {
    match audio_track(file) {
        Ok(_) => None,
        Err(refusal) => Some((refusal.at, refusal.fault)),
    }
}

#[test]
fn changed_bytes_are_refused_where_they_break_a_rule(rt: HostRuntime) -> Result<(), Fail> {
    let file = file_of_one(rt.alloc())?;
    for (at, bytes, wanted) in CHANGED {
        let file = changed(rt.alloc(), &file, *at, bytes)?;
        assert_eq!(rt; refusal(&file), *wanted, "{at}");
    }
    Ok(())
}
