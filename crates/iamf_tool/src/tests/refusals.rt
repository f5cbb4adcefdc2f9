//! What `check` refuses, and which of several faults it names.
use super::case::Case;
use super::parts::{
    BLOCK, CODEC, DELIMITER, DESCRIPTORS, ELEMENT, FLAC, FLAC_FRAME, HEAD, HEADER, MIX,
    MIX_OF_BOTH, OPUS, OTHER_FLAC_FRAME, SAMPLES, SECOND_ELEMENT,
};
use std::test::Fail;

/// The parts of an input, and what is noted of it.
type Refused = (&'static [&'static [u8]], &'static [u8]);

const HEADERS_AND_PAYLOADS: &[Refused] = &[
    // A size of nine bytes, and one of 2^32.
    (
        &[b"\xf8\x86\x80\x80\x80\x80\x80\x80\x80\x00\x00"],
        b"refused 0 1\n",
    ),
    (&[b"\xf8\x80\x80\x80\x80\x10"], b"refused 0 1\n"),
    (&[b"\xf8\xff\xff\xff\xff\x0f"], b"refused 0 2\n"),
    // A profile above the wide one.
    (&[b"\xf8\x06iamf\x03\x00"], b"refused 0 12\n"),
    // The id of the codec config is 2^32.
    (
        &[
            HEADER,
            b"\x00\x12\x80\x80\x80\x80\x10ipcm\x08\x00\x00\x01\x10\x00\x00\xbb\x80",
            ELEMENT,
            MIX,
        ],
        b"refused 8 10\n",
    ),
    // A language that is not UTF-8.
    (
        &[
            HEADER,
            CODEC,
            ELEMENT,
            b"\x10\x2a\x02\x01\xffn-us\x00Mix\x00\x01\x01\x01Bed\x00\x00\x00\
              \x64\x80\xf7\x02\x80\x00\x00\x65\x80\xf7\x02\x80\x00\x00\x01\x80\x00\x00\x00\x00\x00",
        ],
        b"refused 36 10\n",
    ),
    (&[HEADER, OPUS, ELEMENT, MIX], b"refused 8 13\n"),
    (
        &[
            HEADER,
            b"\x00\x0e\x00mp4a\x08\x00\x00\x01\x10\x00\x00\xbb\x80",
            ELEMENT,
            MIX,
        ],
        b"refused 8 14\n",
    ),
    // A layer of stereo after one of 5.1.
    (
        &[
            HEADER,
            CODEC,
            b"\x08\x11\x01\x00\x00\x05\x00\x01\x02\x03\x04\x00\x40\x20\x04\x02\x10\x01\x01",
            MIX,
        ],
        b"refused 24 22\n",
    ),
];

const OF_DESCRIPTORS: &[Refused] = &[
    // The order is tested before the payload.
    (&[OPUS], b"refused 0 30\n"),
    (&[DESCRIPTORS, b"\x08\x00"], b"refused 66 30\n"),
    (
        &[DESCRIPTORS, HEAD, SAMPLES, b"\x10\x00"],
        b"refused 100 30\n",
    ),
    // The payload is tested before the ids.
    (&[HEADER, CODEC, CODEC], b"refused 24 31\n"),
    (&[HEADER, CODEC, OPUS], b"refused 24 13\n"),
    (&[HEADER, CODEC, ELEMENT, ELEMENT], b"refused 36 31\n"),
    // A codec config that is not there, with the id of an element, with its substream, and with neither.
    (
        &[
            HEADER,
            CODEC,
            ELEMENT,
            b"\x08\x0a\x01\x00\x05\x01\x01\x00\x20\x10\x01\x01",
        ],
        b"refused 36 31\n",
    ),
    (
        &[
            HEADER,
            CODEC,
            ELEMENT,
            b"\x08\x0a\x02\x00\x05\x01\x00\x00\x20\x10\x01\x01",
        ],
        b"refused 36 31\n",
    ),
    (
        &[
            HEADER,
            CODEC,
            ELEMENT,
            b"\x08\x0a\x02\x00\x05\x01\x01\x00\x20\x10\x01\x01",
        ],
        b"refused 36 32\n",
    ),
    (&[HEADER, ELEMENT], b"refused 8 32\n"),
    // A substream twice in one element.
    (
        &[
            HEADER,
            CODEC,
            b"\x08\x0e\x01\x20\x00\x02\x05\x05\x00\x00\x04\x02\x00\x01\xff\xff",
        ],
        b"refused 24 31\n",
    ),
    (&[HEADER, CODEC, MIX], b"refused 24 32\n"),
    // Element 9 is not there: in a mix with an id that stands, and in one with another shape of gain 100.
    (
        &[
            DESCRIPTORS,
            b"\x10\x1c\x02\x00\x01\x01\x09\x00\x00\x64\xc4\xd8\x02\x80\x00\x00\
              \x65\x80\xf7\x02\x80\x00\x00\x01\x80\x00\x00\x00\x00\x00",
        ],
        b"refused 66 31\n",
    ),
    (
        &[
            DESCRIPTORS,
            b"\x10\x1c\x03\x00\x01\x01\x09\x00\x00\x64\xc4\xd8\x02\x80\x00\x00\
              \x65\x80\xf7\x02\x80\x00\x00\x01\x80\x00\x00\x00\x00\x00",
        ],
        b"refused 66 32\n",
    ),
    (
        &[
            DESCRIPTORS,
            b"\x10\x1c\x03\x00\x01\x01\x01\x00\x00\x64\xc4\xd8\x02\x80\x00\x00\
              \x65\x80\xf7\x02\x80\x00\x00\x01\x80\x00\x00\x00\x00\x00",
        ],
        b"refused 66 33\n",
    ),
    // Both gains of a mix have the id 100, and other rates.
    (
        &[
            HEADER,
            CODEC,
            ELEMENT,
            b"\x10\x1c\x02\x00\x01\x01\x01\x00\x00\x64\x80\xf7\x02\x80\x00\x00\
              \x64\xc4\xd8\x02\x80\x00\x00\x01\x80\x00\x00\x00\x00\x00",
        ],
        b"refused 36 33\n",
    ),
    (&[DESCRIPTORS, b"\xfc\x06iamf\x00\x01"], b"refused 66 34\n"),
    // The payload of a copy is not read.
    (
        &[
            HEADER,
            b"\x04\x0e\x00Opus\x08\x00\x00\x01\x10\x00\x00\xbb\x80",
        ],
        b"refused 8 34\n",
    ),
    (&[HEADER, b"\xf8\x06none\x00\x00"], b"refused 8 37\n"),
    (&[DESCRIPTORS, HEAD, SAMPLES, HEADER], b"refused 100 37\n"),
];

const OF_UNITS: &[Refused] = &[
    (&[], b"refused 0 35\n"),
    (&[HEADER, CODEC, ELEMENT], b"refused 36 35\n"),
    (&[HEADER, CODEC, ELEMENT, DELIMITER], b"refused 36 35\n"),
    // A frame without the id of its substream.
    (&[HEADER, CODEC, ELEMENT, b"\x28\x00"], b"refused 36 35\n"),
    (&[DESCRIPTORS, b"\x28\x00"], b"refused 66 10\n"),
    // A mix of two elements does not fit the profile Simple.
    (
        &[HEADER, CODEC, ELEMENT, SECOND_ELEMENT, MIX_OF_BOTH],
        b"refused 88 36\n",
    ),
    (
        &[
            HEADER,
            CODEC,
            ELEMENT,
            SECOND_ELEMENT,
            MIX_OF_BOTH,
            DELIMITER,
            HEAD,
            SAMPLES,
        ],
        b"refused 88 36\n",
    ),
    (
        &[
            HEADER,
            CODEC,
            ELEMENT,
            SECOND_ELEMENT,
            MIX_OF_BOTH,
            b"\x28\x00",
        ],
        b"refused 88 36\n",
    ),
    // A frame of no substream, with trims that are too long.
    (
        &[DESCRIPTORS, b"\x3a\x22\x05\x06", SAMPLES],
        b"refused 66 38\n",
    ),
    (
        &[DESCRIPTORS, DELIMITER, HEAD, SAMPLES, HEAD, SAMPLES],
        b"refused 102 38\n",
    ),
    // The unit before lacks its frame.
    (&[DESCRIPTORS, DELIMITER, DELIMITER], b"refused 68 39\n"),
    (&[DESCRIPTORS, HEAD, SAMPLES, BLOCK], b"refused 110 39\n"),
    // Trims that are too long, also of a frame that is too short, and another trim after one at the end.
    (
        &[DESCRIPTORS, DELIMITER, b"\x32\x22\x03\x06", SAMPLES],
        b"refused 68 40\n",
    ),
    (
        &[DESCRIPTORS, DELIMITER, b"\x32\x03\x03\x06a"],
        b"refused 68 40\n",
    ),
    (
        &[DESCRIPTORS, b"\x32\x22\x03\x00", SAMPLES, HEAD, SAMPLES],
        b"refused 102 40\n",
    ),
    // A second block in a frame's time, and one that cannot be read.
    (&[DESCRIPTORS, DELIMITER, BLOCK, BLOCK], b"refused 78 41\n"),
    (
        &[
            DESCRIPTORS,
            DELIMITER,
            BLOCK,
            b"\x18\x08\x64\x08\x08\x03\x00\x00\xfa\x00",
        ],
        b"refused 78 26\n",
    ),
    // A delimiter after a unit without one, whether or not that is complete.
    (
        &[DESCRIPTORS, HEAD, SAMPLES, DELIMITER],
        b"refused 100 42\n",
    ),
    (&[DESCRIPTORS, BLOCK, DELIMITER], b"refused 76 42\n"),
    (&[DESCRIPTORS, b"\x30\x03abc"], b"refused 66 43\n"),
    // The sync code of a FLAC frame, and its last checksum.
    (
        &[HEADER, FLAC, ELEMENT, MIX, HEAD, SAMPLES],
        b"refused 98 44\n",
    ),
    (
        &[HEADER, FLAC, ELEMENT, MIX, FLAC_FRAME, OTHER_FLAC_FRAME],
        b"refused 115 44\n",
    ),
];

#[test]
fn inputs_are_refused_by_their_first_fault(rt: HostRuntime) -> Result<(), Fail> {
    for rows in [HEADERS_AND_PAYLOADS, OF_DESCRIPTORS, OF_UNITS] {
        for (input, notes) in rows {
            Case::refuses(&["check"], input, notes).check(&rt, rt.alloc())?;
        }
    }
    Ok(())
}
