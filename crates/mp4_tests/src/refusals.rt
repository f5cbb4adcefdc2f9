//! What is refused, where and why: each rule at each box that can break it, and the order of the rules.

use crate::file::{
    ELST, ENTRY, Edit, IACB, MDAT, MDIA, MINF, MOOV, SBGP, SGPD, SPARE, SPARE_IN_ENTRY,
    SPARE_IN_MOOV, SPARE_IN_STBL, STBL, STCO, STSC, STSD, STSZ, STTS, TRAK, VIDEO_TRAK, file,
};
use mp4_boxes::{BoxFault, BoxRefusal, audio_track};
use spec_boxes as kind;
use std::test::Fail;

/// Edits of the file, and where and why it is then refused.
type Refused = (&'static [Edit], usize, BoxFault);

/// A size that does not fit, at the top, inside `moov` and inside the boxes on the way to the tables.
const SIZES: &[Refused] = &[
    (&[(0, b"\x00\x00\x00\x07")], 0, BoxFault::BoxSize),
    // A large size below that of its header, and one of 2^32 and more.
    (&[(MDAT + 15, b"\x0f")], MDAT, BoxFault::BoxSize),
    (&[(MDAT + 11, b"\x01")], MDAT, BoxFault::BoxSize),
    (&[(MOOV, b"\x00\x00\x01\xbf")], MOOV, BoxFault::BoxSize),
    (&[(MOOV, b"\xff\xff\xff\xff")], MOOV, BoxFault::BoxSize),
    // One byte is left at the end of the file.
    (&[(MOOV, b"\x00\x00\x01\xbd")], 500, BoxFault::BoxSize),
    (
        &[(SPARE_IN_MOOV, b"\x00\x00\x00\x00")],
        SPARE_IN_MOOV,
        BoxFault::BoxSize,
    ),
    // A box of a track that is not the one that is read, and a sample entry of it.
    (
        &[(VIDEO_TRAK + 8, b"\x00\x00\x00\x31")],
        VIDEO_TRAK + 8,
        BoxFault::BoxSize,
    ),
    (
        &[(VIDEO_TRAK + 48, b"\x00\x00\x00\x07")],
        VIDEO_TRAK + 48,
        BoxFault::BoxSize,
    ),
    (&[(ELST, b"\x00\x00\x00\x25")], ELST, BoxFault::BoxSize),
    (&[(MDIA, b"\x00\x00\x01\x3b")], MDIA, BoxFault::BoxSize),
    (&[(MINF, b"\x00\x00\x00\x00")], MINF, BoxFault::BoxSize),
    (&[(STBL, b"\x00\x00\x01\x2b")], STBL, BoxFault::BoxSize),
    (&[(STSD, b"\x00\x00\x00\x00")], STSD, BoxFault::BoxSize),
    (&[(ENTRY, b"\x00\x00\x00\x3f")], ENTRY, BoxFault::BoxSize),
    (
        &[(SPARE_IN_ENTRY, b"\x00\x00\x00\x04")],
        SPARE_IN_ENTRY,
        BoxFault::BoxSize,
    ),
    // A large size without room for it.
    (
        &[(SPARE_IN_STBL, b"\x00\x00\x00\x01")],
        SPARE_IN_STBL,
        BoxFault::BoxSize,
    ),
];

const MISSING: &[Refused] = &[
    (&[(MOOV + 4, b"free")], 0, BoxFault::Missing(kind::MOOV)),
    (&[(TRAK + 4, b"free")], MOOV, BoxFault::Missing(kind::IAMF)),
    (&[(MDIA + 4, b"free")], MOOV, BoxFault::Missing(kind::IAMF)),
    (&[(MINF + 4, b"free")], MOOV, BoxFault::Missing(kind::IAMF)),
    (&[(STBL + 4, b"free")], MOOV, BoxFault::Missing(kind::IAMF)),
    (&[(STSD + 4, b"free")], MOOV, BoxFault::Missing(kind::IAMF)),
    (&[(ENTRY + 4, b"mp4a")], MOOV, BoxFault::Missing(kind::IAMF)),
    // An `stsd` whose payload has 7 bytes is passed over.
    (
        &[(STSD + 3, b"\x0f"), (STSD + 15, b"\x00\x00\x00\x3ffree")],
        MOOV,
        BoxFault::Missing(kind::IAMF),
    ),
    (&[(STTS + 4, b"free")], STBL, BoxFault::Missing(kind::STTS)),
    (&[(STSC + 4, b"free")], STBL, BoxFault::Missing(kind::STSC)),
    (&[(STSZ + 4, b"stz2")], STBL, BoxFault::Missing(kind::STSZ)),
    (&[(STCO + 4, b"free")], STBL, BoxFault::Missing(kind::STCO)),
    (&[(IACB + 4, b"free")], ENTRY, BoxFault::Missing(kind::IACB)),
];

const TWICE: &[Refused] = &[
    (&[(SPARE + 4, b"moov")], MOOV, BoxFault::Twice(kind::MOOV)),
    (
        &[(SPARE_IN_STBL + 4, b"stsd")],
        SPARE_IN_STBL,
        BoxFault::Twice(kind::STSD),
    ),
    (
        &[(SPARE_IN_STBL + 4, b"stts")],
        SPARE_IN_STBL,
        BoxFault::Twice(kind::STTS),
    ),
    (
        &[(SPARE_IN_STBL + 4, b"stsc")],
        SPARE_IN_STBL,
        BoxFault::Twice(kind::STSC),
    ),
    (
        &[(SPARE_IN_STBL + 4, b"stsz")],
        SPARE_IN_STBL,
        BoxFault::Twice(kind::STSZ),
    ),
    (
        &[(SPARE_IN_STBL + 4, b"stco")],
        SPARE_IN_STBL,
        BoxFault::Twice(kind::STCO),
    ),
    (
        &[(SPARE_IN_STBL + 4, b"co64")],
        SPARE_IN_STBL,
        BoxFault::Twice(kind::STCO),
    ),
    (
        &[(SPARE_IN_ENTRY + 4, b"iacb")],
        IACB,
        BoxFault::Twice(kind::IACB),
    ),
];

const VERSIONS: &[Refused] = &[
    (&[(STSD + 8, b"\x01")], STSD, BoxFault::Version(kind::STSD)),
    (&[(STTS + 8, b"\x01")], STTS, BoxFault::Version(kind::STTS)),
    (&[(STSC + 8, b"\x01")], STSC, BoxFault::Version(kind::STSC)),
    (&[(STSZ + 8, b"\x01")], STSZ, BoxFault::Version(kind::STSZ)),
    (&[(STCO + 8, b"\x01")], STCO, BoxFault::Version(kind::STCO)),
    (
        &[(STCO + 4, b"co64\x01")],
        STCO,
        BoxFault::Version(kind::CO64),
    ),
    (&[(ELST + 8, b"\x02")], ELST, BoxFault::Version(kind::ELST)),
];

/// Tables with less room than their counts need, and tables that do not agree.
const TABLES: &[Refused] = &[
    // A payload of 3 bytes, and of 4.
    (
        &[(STTS + 3, b"\x0b"), (STTS + 11, b"\x00\x00\x00\x15free")],
        STTS,
        BoxFault::Table(kind::STTS),
    ),
    (
        &[(STSZ + 3, b"\x0c"), (STSZ + 12, b"\x00\x00\x00\x14free")],
        STSZ,
        BoxFault::Table(kind::STSZ),
    ),
    (
        &[(STTS + 12, b"\x00\x00\x00\x04")],
        STTS,
        BoxFault::Table(kind::STTS),
    ),
    (
        &[(STTS + 12, b"\xff\xff\xff\xff")],
        STTS,
        BoxFault::Table(kind::STTS),
    ),
    (
        &[(STTS + 16, b"\x00\x00\x00\x03")],
        STTS,
        BoxFault::Table(kind::STTS),
    ),
    (
        &[(STSC + 12, b"\x00\x00\x00\x03")],
        STSC,
        BoxFault::Table(kind::STSC),
    ),
    (
        &[(STSC + 12, b"\x00\x00\x00\x00")],
        STSC,
        BoxFault::Table(kind::STSC),
    ),
    (
        &[(STSC + 12, b"\xff\xff\xff\xff")],
        STSC,
        BoxFault::Table(kind::STSC),
    ),
    // The first run does not begin with chunk 1, the second not after it or not among the chunks.
    (
        &[(STSC + 16, b"\x00\x00\x00\x00")],
        STSC,
        BoxFault::Table(kind::STSC),
    ),
    (
        &[(STSC + 28, b"\x00\x00\x00\x01")],
        STSC,
        BoxFault::Table(kind::STSC),
    ),
    (
        &[(STSC + 28, b"\x00\x00\x00\x03")],
        STSC,
        BoxFault::Table(kind::STSC),
    ),
    // A chunk without samples, and chunks with four samples in all.
    (
        &[(STSC + 32, b"\x00\x00\x00\x00")],
        STSC,
        BoxFault::Table(kind::STSC),
    ),
    (
        &[(STSC + 32, b"\x00\x00\x00\x02")],
        STSC,
        BoxFault::Table(kind::STSC),
    ),
    (
        &[(STSZ + 16, b"\x00\x00\x00\x04")],
        STSZ,
        BoxFault::Table(kind::STSZ),
    ),
    (
        &[(STSZ + 16, b"\xff\xff\xff\xff")],
        STSZ,
        BoxFault::Table(kind::STSZ),
    ),
    (
        &[(STCO + 12, b"\x00\x00\x00\x03")],
        STCO,
        BoxFault::Table(kind::STCO),
    ),
    (&[(STCO + 4, b"co64")], STCO, BoxFault::Table(kind::CO64)),
    // An edit list with payloads of 3 bytes and of 7, and with more entries than there are, in both versions.
    (
        &[(ELST + 3, b"\x0b"), (ELST + 11, b"\x00\x00\x00\x19free")],
        ELST,
        BoxFault::Table(kind::ELST),
    ),
    (
        &[(ELST + 3, b"\x0f"), (ELST + 15, b"\x00\x00\x00\x15free")],
        ELST,
        BoxFault::Table(kind::ELST),
    ),
    (
        &[(ELST + 12, b"\x00\x00\x00\x02")],
        ELST,
        BoxFault::Table(kind::ELST),
    ),
    (
        &[(ELST + 8, b"\x01"), (ELST + 12, b"\x00\x00\x00\x02")],
        ELST,
        BoxFault::Table(kind::ELST),
    ),
];

const DESCRIPTIONS: &[Refused] = &[
    (
        &[(STSD + 12, b"\x00\x00\x00\x02")],
        STSD,
        BoxFault::Descriptions,
    ),
    (
        &[(STSD + 12, b"\x00\x00\x00\x00")],
        STSD,
        BoxFault::Descriptions,
    ),
    (
        &[(STSC + 36, b"\x00\x00\x00\x02")],
        STSC,
        BoxFault::Descriptions,
    ),
];

const CHUNKS: &[Refused] = &[
    (&[(STCO + 20, b"\xff\xff\xff\xff")], STCO, BoxFault::Chunk),
    // The last sample ends one byte after the file.
    (&[(STSZ + 28, b"\x00\x00\x01\xca")], STCO, BoxFault::Chunk),
    // Each sample is in the file, and together they have 600 bytes.
    (&[(STSZ + 12, b"\x00\x00\x00\xc8")], STCO, BoxFault::Chunk),
    (&[(STSZ + 12, b"\xff\xff\xff\xff")], STCO, BoxFault::Chunk),
    // An empty sample after the end of the file.
    (
        &[
            (STSZ + 28, b"\x00\x00\x00\x00"),
            (STCO + 20, b"\x00\x00\x01\xf6"),
        ],
        STCO,
        BoxFault::Chunk,
    ),
];

const CONFIGURATIONS: &[Refused] = &[
    // A sample entry whose payload has 27 bytes.
    (
        &[(ENTRY + 3, b"\x23"), (ENTRY + 35, b"\x00\x00\x00\x1bfree")],
        ENTRY,
        BoxFault::Config,
    ),
    // An `iacb` without a byte.
    (
        &[(IACB + 3, b"\x08"), (IACB + 8, b"\x00\x00\x00\x0afree")],
        IACB,
        BoxFault::Config,
    ),
    (&[(IACB + 8, b"\x00")], IACB, BoxFault::Config),
    (&[(IACB + 8, b"\x02")], IACB, BoxFault::Config),
    // A size that ends nowhere, one with more bytes than there are, and one that cuts the OBU.
    (
        &[(IACB + 9, b"\x80\x80\x80\x80\x80\x80\x80\x80")],
        IACB,
        BoxFault::Config,
    ),
    (&[(IACB + 9, b"\x09")], IACB, BoxFault::Config),
    (&[(IACB + 9, b"\x07")], IACB, BoxFault::Config),
    // A trimming flag where none may stand, a parameter block, a delimiter and a frame.
    (&[(IACB + 10, b"\xfa")], IACB, BoxFault::Config),
    (&[(IACB + 10, b"\x18")], IACB, BoxFault::Config),
    (&[(IACB + 10, b"\x20")], IACB, BoxFault::Config),
    (&[(IACB + 10, b"\xb8")], IACB, BoxFault::Config),
];

const ROLLS: &[Refused] = &[
    // A payload too short for a count, and one for its entries.
    (
        &[(SGPD + 3, b"\x17"), (SGPD + 23, b"\x00\x00\x00\x11free")],
        SGPD,
        BoxFault::Roll,
    ),
    (&[(SGPD + 20, b"\x00\x00\x00\x09")], SGPD, BoxFault::Roll),
    (&[(SGPD + 20, b"\xff\xff\xff\xff")], SGPD, BoxFault::Roll),
    // An entry of one byte.
    (&[(SGPD + 16, b"\x00\x00\x00\x01")], SGPD, BoxFault::Roll),
    // Entries with lengths of their own: below 2, and past the end.
    (&[(SGPD + 16, b"\x00\x00\x00\x00")], SGPD, BoxFault::Roll),
    (
        &[(
            SGPD + 16,
            b"\x00\x00\x00\x00\x00\x00\x00\x01\x00\x00\x00\x0d",
        )],
        SGPD,
        BoxFault::Roll,
    ),
    (
        &[(
            SGPD + 16,
            b"\x00\x00\x00\x00\x00\x00\x00\x02\x00\x00\x00\x0c",
        )],
        SGPD,
        BoxFault::Roll,
    ),
    (&[(SBGP + 16, b"\x00\x00\x00\x03")], SBGP, BoxFault::Roll),
    (&[(SBGP + 20, b"\x00\x00\x00\x03")], SBGP, BoxFault::Roll),
    // Version 1 has a parameter before the count.
    (&[(SBGP + 8, b"\x01")], SBGP, BoxFault::Roll),
];

const SAMPLES: &[Refused] = &[
    // A temporal delimiter, a header fault, and an OBU that is cut.
    (&[(36, b"\x20")], 36, BoxFault::Sample),
    (&[(39, b"\x1a")], 39, BoxFault::Sample),
    (&[(45, b"\x02")], 44, BoxFault::Sample),
];

const FRAGMENTS: &[Refused] = &[
    (&[(SPARE + 4, b"moof")], SPARE, BoxFault::Fragmented),
    (
        &[(SPARE_IN_MOOV + 4, b"mvex")],
        SPARE_IN_MOOV,
        BoxFault::Fragmented,
    ),
];

/// Two rules that fail: the one that is tested first decides, wherever its box stands.
const ORDER: &[Refused] = &[
    (&[(MOOV + 4, b"moof")], 0, BoxFault::Missing(kind::MOOV)),
    (
        &[(SPARE + 4, b"moof"), (SPARE_IN_MOOV, b"\x00\x00\x00\x00")],
        SPARE,
        BoxFault::Fragmented,
    ),
    (
        &[
            (SPARE_IN_MOOV + 4, b"mvex"),
            (VIDEO_TRAK + 8, b"\x00\x00\x00\x00"),
        ],
        SPARE_IN_MOOV,
        BoxFault::Fragmented,
    ),
    (
        &[(VIDEO_TRAK + 8, b"\x00\x00\x00\x00"), (STTS + 4, b"free")],
        VIDEO_TRAK + 8,
        BoxFault::BoxSize,
    ),
    (
        &[(STTS + 4, b"free"), (SPARE_IN_STBL + 4, b"stsd")],
        SPARE_IN_STBL,
        BoxFault::Twice(kind::STSD),
    ),
    (
        &[(STSD + 8, b"\x01"), (STCO + 4, b"free")],
        STBL,
        BoxFault::Missing(kind::STCO),
    ),
    (
        &[(STSD + 12, b"\x00\x00\x00\x02"), (STCO + 8, b"\x01")],
        STCO,
        BoxFault::Version(kind::STCO),
    ),
    (
        &[
            (STSD + 12, b"\x00\x00\x00\x02"),
            (STSZ + 16, b"\x00\x00\x00\x04"),
        ],
        STSD,
        BoxFault::Descriptions,
    ),
    (
        &[
            (STSZ + 16, b"\x00\x00\x00\x04"),
            (STCO + 12, b"\x00\x00\x00\x03"),
        ],
        STSZ,
        BoxFault::Table(kind::STSZ),
    ),
    (
        &[
            (STCO + 12, b"\x00\x00\x00\x03"),
            (STTS + 12, b"\x00\x00\x00\x04"),
        ],
        STCO,
        BoxFault::Table(kind::STCO),
    ),
    (
        &[
            (STTS + 12, b"\x00\x00\x00\x04"),
            (STSC + 12, b"\x00\x00\x00\x03"),
        ],
        STTS,
        BoxFault::Table(kind::STTS),
    ),
    // A description is looked at after all else of its table.
    (
        &[
            (STSC + 24, b"\x00\x00\x00\x02"),
            (STSC + 32, b"\x00\x00\x00\x02"),
        ],
        STSC,
        BoxFault::Table(kind::STSC),
    ),
    (
        &[(STSC + 24, b"\x00\x00\x00\x02"), (ELST + 8, b"\x02")],
        STSC,
        BoxFault::Descriptions,
    ),
    // The version of an edit list is looked at before its room for a count.
    (
        &[
            (ELST + 3, b"\x0f"),
            (ELST + 8, b"\x02"),
            (ELST + 15, b"\x00\x00\x00\x15free"),
        ],
        ELST,
        BoxFault::Version(kind::ELST),
    ),
    (
        &[(ELST + 8, b"\x02"), (SGPD + 16, b"\x00\x00\x00\x01")],
        ELST,
        BoxFault::Version(kind::ELST),
    ),
    (
        &[
            (SGPD + 16, b"\x00\x00\x00\x01"),
            (SBGP + 16, b"\x00\x00\x00\x03"),
        ],
        SGPD,
        BoxFault::Roll,
    ),
    (
        &[(SBGP + 16, b"\x00\x00\x00\x03"), (IACB + 8, b"\x02")],
        SBGP,
        BoxFault::Roll,
    ),
    (
        &[(SPARE_IN_ENTRY, b"\x00\x00\x00\x04"), (IACB + 4, b"free")],
        SPARE_IN_ENTRY,
        BoxFault::BoxSize,
    ),
    (
        &[(IACB + 8, b"\x02"), (STCO + 20, b"\xff\xff\xff\xff")],
        IACB,
        BoxFault::Config,
    ),
    (
        &[(STCO + 20, b"\xff\xff\xff\xff"), (36, b"\x20")],
        STCO,
        BoxFault::Chunk,
    ),
    (&[(36, b"\x20"), (44, b"\x20")], 36, BoxFault::Sample),
];

fn refusal(file: &[u8]) -> Option<BoxRefusal> {
    audio_track(file).err()
}

#[test]
fn the_first_rule_that_fails_is_named(rt: HostRuntime) -> Result<(), Fail> {
    let tables = [
        SIZES,
        MISSING,
        TWICE,
        VERSIONS,
        TABLES,
        DESCRIPTIONS,
        CHUNKS,
        CONFIGURATIONS,
        ROLLS,
        SAMPLES,
        FRAGMENTS,
        ORDER,
    ];
    for table in tables {
        for (edits, at, fault) in table {
            let file = file(rt.alloc(), edits)?;
            let wanted = BoxRefusal {
                at: *at as u64,
                fault: *fault,
            };
            assert_eq!(rt; refusal(&file), Some(wanted), "{edits:?}");
        }
    }
    Ok(())
}
