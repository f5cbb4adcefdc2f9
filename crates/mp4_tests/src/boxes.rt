//! Reading a file with a box of each kind that a rule names, and what the rules let pass.

use crate::file::{
    DESCRIPTORS, ELST, Edit, FIRST, MDAT, MOOV, SBGP, SECOND, SGPD, SPARE, SPARE_IN_MOOV, STCO,
    STSC, STSD, STSZ, STTS, THIRD, TRAK, file,
};
use mp4_boxes::{audio_track, read_box, track_of};
use std::test::Fail;

#[test]
fn the_samples_come_in_order(rt: HostRuntime) -> Result<(), Fail> {
    let file = file(rt.alloc(), &[])?;
    let track = audio_track(&file)?;
    assert_eq!(rt; track.config(), DESCRIPTORS);
    assert_eq!(rt; track.sample_count(), 3);
    assert_eq!(rt; track.trak().at, TRAK);
    let mut samples = track.samples();
    assert_eq!(rt; samples.next_sample(), Some(FIRST));
    assert_eq!(rt; samples.next_sample(), Some(SECOND));
    assert_eq!(rt; samples.next_sample(), Some(THIRD));
    assert_eq!(rt; samples.next_sample(), None);
    Ok(())
}

#[test]
fn boxes_stand_where_their_sizes_say(rt: HostRuntime) -> Result<(), Fail> {
    let file = file(rt.alloc(), &[(MOOV, b"\x00\x00\x00\x00")])?;
    assert_eq!(rt; file.len(), 501);
    let mdat = read_box(&file, MDAT, file.len(), true)?;
    assert_eq!(rt; mdat.kind, *b"mdat");
    assert_eq!(rt; mdat.end, SPARE);
    assert_eq!(rt; mdat.payload.len(), 11);
    // A size of 0 reaches to the end at the top, and nowhere else.
    let moov = read_box(&file, MOOV, file.len(), true)?;
    assert_eq!(rt; moov.end, 501);
    assert!(rt; read_box(&file, MOOV, file.len(), false).is_err());
    Ok(())
}

#[test]
fn what_fragments_have_is_passed_over_on_demand(rt: HostRuntime) -> Result<(), Fail> {
    let file = file(
        rt.alloc(),
        &[(SPARE + 4, b"moof"), (SPARE_IN_MOOV + 4, b"mvex")],
    )?;
    assert!(rt; audio_track(&file).is_err());
    let track = track_of(&file)?;
    assert_eq!(rt; track.sample_count(), 3);
    assert_eq!(rt; track.trak().at, TRAK);
    Ok(())
}

/// Edits that no rule refuses, and the samples that the file then has.
type Read = (&'static [Edit], &'static [&'static [u8]]);

const READ: &[Read] = &[
    (&[(MOOV, b"\x00\x00\x00\x00")], &[FIRST, SECOND, THIRD]),
    // One chunk with a place of 64 bits.
    (
        &[
            (STCO + 4, b"co64\x00\x00\x00\x00\x00\x00\x00\x01"),
            (STCO + 16, b"\x00\x00\x00\x00\x00\x00\x00\x24"),
            (STSC + 12, b"\x00\x00\x00\x01"),
            (STSC + 20, b"\x00\x00\x00\x03"),
            (
                STSZ + 20,
                b"\x00\x00\x00\x03\x00\x00\x00\x04\x00\x00\x00\x00",
            ),
        ],
        &[FIRST, SECOND, b""],
    ),
    // Samples of one size: the second chunk is the place of the first.
    (
        &[
            (STSZ + 12, b"\x00\x00\x00\x03"),
            (STSC + 20, b"\x00\x00\x00\x01"),
            (STSC + 32, b"\x00\x00\x00\x02"),
            (STCO + 16, b"\x00\x00\x00\x2c\x00\x00\x00\x24"),
            (36, b"\x30\x01\x11\x30\x01\x11"),
        ],
        &[THIRD, FIRST, FIRST],
    ),
    // An empty sample at the very end of the file.
    (
        &[
            (STSZ + 28, b"\x00\x00\x00\x00"),
            (STCO + 20, b"\x00\x00\x01\xf5"),
        ],
        &[FIRST, SECOND, b""],
    ),
    // No samples: two chunks have none, and no run.
    (
        &[
            (STSZ + 16, b"\x00\x00\x00\x00"),
            (STSC + 12, b"\x00\x00\x00\x00"),
            (STCO + 12, b"\x00\x00\x00\x00"),
            (STTS + 12, b"\x00\x00\x00\x00"),
            (SBGP + 16, b"\x00\x00\x00\x00"),
        ],
        &[],
    ),
    // An edit list of version 1, and one in a box that no rule names.
    (&[(ELST + 8, b"\x01")], &[FIRST, SECOND, THIRD]),
    (&[(ELST + 4, b"free\x07")], &[FIRST, SECOND, THIRD]),
    // Groups of other types and versions, no entry of one byte, and entries with lengths of their own.
    (
        &[(SGPD + 8, b"\x02"), (SGPD + 16, b"\x00\x00\x00\x01")],
        &[FIRST, SECOND, THIRD],
    ),
    (
        &[(SGPD + 12, b"prol\x00\x00\x00\x01")],
        &[FIRST, SECOND, THIRD],
    ),
    (
        &[(SGPD + 16, b"\x00\x00\x00\x01\x00\x00\x00\x00")],
        &[FIRST, SECOND, THIRD],
    ),
    (
        &[(
            SGPD + 16,
            b"\x00\x00\x00\x00\x00\x00\x00\x02\x00\x00\x00\x02\x00\x00\x00\x00\x00\x06",
        )],
        &[FIRST, SECOND, THIRD],
    ),
    (
        &[(SBGP + 8, b"\x02\x00\x00\x00roll\xff")],
        &[FIRST, SECOND, THIRD],
    ),
    // Flags are not looked at, and reserved OBUs may stand among the descriptors and in samples.
    (
        &[(STSD + 9, b"\x01\x02\x03"), (36, b"\xc0")],
        &[b"\xc0\x01\x11", SECOND, THIRD],
    ),
];

#[test]
fn what_the_rules_let_pass_is_read(rt: HostRuntime) -> Result<(), Fail> {
    for (edits, wanted) in READ {
        let file = file(rt.alloc(), edits)?;
        let track = audio_track(&file)?;
        let mut samples = track.samples();
        for sample in *wanted {
            assert_eq!(rt; samples.next_sample(), Some(*sample), "{edits:?}");
        }
        assert_eq!(rt; samples.next_sample(), None, "{edits:?}");
    }
    Ok(())
}
