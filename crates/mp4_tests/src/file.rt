//! A file with a box of each kind that a rule names, and copies of it with some bytes changed.

use std::alloc::{AllocError, Global};

// Places of its boxes. A spare box is one that no rule names, in the box that it is called after.
pub const MDAT: usize = 20;

pub const SPARE: usize = 47;

pub const MOOV: usize = 55;

pub const SPARE_IN_MOOV: usize = 63;

pub const VIDEO_TRAK: usize = 71;

pub const TRAK: usize = 127;

pub const ELST: usize = 143;

pub const SPARE_IN_TRAK: usize = 179;

pub const MDIA: usize = 187;

pub const MINF: usize = 195;

pub const STBL: usize = 203;

pub const STSD: usize = 211;

pub const ENTRY: usize = 227;

pub const SPARE_IN_ENTRY: usize = 263;

pub const IACB: usize = 271;

pub const STTS: usize = 289;

pub const STSC: usize = 321;

pub const STSZ: usize = 361;

pub const STCO: usize = 393;

pub const SGPD: usize = 417;

pub const SBGP: usize = 457;

pub const SPARE_IN_STBL: usize = 493;

/// The samples: three frames of substream 0.
pub const FIRST: &[u8] = b"\x30\x01\x11";

pub const SECOND: &[u8] = b"\x30\x02\x22\x33";

pub const THIRD: &[u8] = b"\x30\x01\x44";

/// The descriptors: a sequence header.
pub const DESCRIPTORS: &[u8] = b"\xf8\x06iamf\x00\x00";

// The file, box by box, each up to the first box in it.
const FILE: &[&[u8]] = &[
    b"\x00\x00\x00\x14ftypiso6\x00\x00\x00\x00iamf",
    // The chunks: the first two samples from 36, a byte of none, and the third sample from 44.
    b"\x00\x00\x00\x01mdat\x00\x00\x00\x00\x00\x00\x00\x1b\x30\x01\x11\x30\x02\x22\x33\xff\x30\
      \x01\x44",
    b"\x00\x00\x00\x08free",
    // After `mdat`.
    b"\x00\x00\x01\xbemoov",
    b"\x00\x00\x00\x08free",
    // A track of video, which has no path to an IAMF sample entry.
    b"\x00\x00\x00\x38trak",
    b"\x00\x00\x00\x30mdia",
    b"\x00\x00\x00\x28minf",
    b"\x00\x00\x00\x20stbl",
    b"\x00\x00\x00\x18stsd\x00\x00\x00\x00\x00\x00\x00\x01",
    b"\x00\x00\x00\x08avc1",
    b"\x00\x00\x01\x76trak",
    b"\x00\x00\x00\x2cedts",
    // One edit, and bytes after it.
    b"\x00\x00\x00\x24elst\x00\x00\x00\x00\x00\x00\x00\x01\x00\x00\x00\x18\x00\x00\x00\x00\x00\
      \x01\x00\x00\x00\x00\x00\x00\x00\x00\x00\x00",
    b"\x00\x00\x00\x08free",
    b"\x00\x00\x01\x3amdia",
    b"\x00\x00\x01\x32minf",
    b"\x00\x00\x01\x2astbl",
    b"\x00\x00\x00\x4estsd\x00\x00\x00\x00\x00\x00\x00\x01",
    b"\x00\x00\x00\x3eiamf\x00\x00\x00\x00\x00\x00\x00\x01\x00\x00\x00\x00\x00\x00\x00\x00\x00\
      \x00\x00\x10\x00\x00\x00\x00\x00\x00\x00\x00",
    b"\x00\x00\x00\x08free",
    // The descriptors.
    b"\x00\x00\x00\x12iacb\x01\x08\xf8\x06iamf\x00\x00",
    // Two samples, and one.
    b"\x00\x00\x00\x20stts\x00\x00\x00\x00\x00\x00\x00\x02\x00\x00\x00\x02\x00\x00\x00\x08\x00\
      \x00\x00\x01\x00\x00\x00\x08",
    // Two samples in each chunk from the first on, one from the second on.
    b"\x00\x00\x00\x28stsc\x00\x00\x00\x00\x00\x00\x00\x02\x00\x00\x00\x01\x00\x00\x00\x02\x00\
      \x00\x00\x01\x00\x00\x00\x02\x00\x00\x00\x01\x00\x00\x00\x01",
    // 3, 4 and 3 bytes.
    b"\x00\x00\x00\x20stsz\x00\x00\x00\x00\x00\x00\x00\x00\x00\x00\x00\x03\x00\x00\x00\x03\x00\
      \x00\x00\x04\x00\x00\x00\x03",
    // The chunks at 36 and 44.
    b"\x00\x00\x00\x18stco\x00\x00\x00\x00\x00\x00\x00\x02\x00\x00\x00\x24\x00\x00\x00\x2c",
    // One entry of two bytes, and bytes after it.
    b"\x00\x00\x00\x28sgpd\x01\x00\x00\x00roll\x00\x00\x00\x02\x00\x00\x00\x01\x00\x00\x00\x00\
      \x00\x00\x00\x00\x00\x00\x00\x00\x00\x00\x00\x00",
    // Two samples in the group, and one in none.
    b"\x00\x00\x00\x24sbgp\x00\x00\x00\x00roll\x00\x00\x00\x02\x00\x00\x00\x02\x00\x00\x00\x01\
      \x00\x00\x00\x01\x00\x00\x00\x00",
    b"\x00\x00\x00\x08free",
];

/// Bytes that stand at a place in stead of those of the file.
pub type Edit = (usize, &'static [u8]);

fn edited(byte: u8, place: usize, edits: &[Edit]) -> u8 {
    for (at, bytes) in edits {
        if place >= *at {
            if let Some(new) = bytes.get(place - *at) {
                return *new;
            }
        }
    }
    byte
}

/// The file with these edits.
pub fn file(alloc: Global, edits: &[Edit]) -> Result<Vec<u8>, AllocError> {
    let mut file = Vec::new(alloc);
    for part in FILE {
        for byte in *part {
            let new = edited(*byte, file.len(), edits);
            file.push(new)?;
        }
    }
    Ok(file)
}
