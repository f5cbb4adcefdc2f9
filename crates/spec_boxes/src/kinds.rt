//! The kinds of the boxes that the rules name (ISO/IEC 14496-12; the last two are of IAMF 1.0.0,
//! "ISOBMFF IAMF Encapsulation").

/// The movie.
pub const MOOV: [u8; 4] = [b'm', b'o', b'o', b'v'];

/// A movie fragment.
pub const MOOF: [u8; 4] = [b'm', b'o', b'o', b'f'];

/// What says that the movie has fragments.
pub const MVEX: [u8; 4] = [b'm', b'v', b'e', b'x'];

/// A track.
pub const TRAK: [u8; 4] = [b't', b'r', b'a', b'k'];

/// The edits of a track.
pub const EDTS: [u8; 4] = [b'e', b'd', b't', b's'];

/// The list of its edits.
pub const ELST: [u8; 4] = [b'e', b'l', b's', b't'];

/// The media of a track.
pub const MDIA: [u8; 4] = [b'm', b'd', b'i', b'a'];

/// What is known of the media.
pub const MINF: [u8; 4] = [b'm', b'i', b'n', b'f'];

/// The tables of samples.
pub const STBL: [u8; 4] = [b's', b't', b'b', b'l'];

/// The sample descriptions.
pub const STSD: [u8; 4] = [b's', b't', b's', b'd'];

/// The times of the samples.
pub const STTS: [u8; 4] = [b's', b't', b't', b's'];

/// The samples of each chunk.
pub const STSC: [u8; 4] = [b's', b't', b's', b'c'];

/// The sizes of the samples.
pub const STSZ: [u8; 4] = [b's', b't', b's', b'z'];

/// The places of the chunks, in 32 bits.
pub const STCO: [u8; 4] = [b's', b't', b'c', b'o'];

/// The places of the chunks, in 64 bits.
pub const CO64: [u8; 4] = [b'c', b'o', b'6', b'4'];

/// Descriptions of groups of samples.
pub const SGPD: [u8; 4] = [b's', b'g', b'p', b'd'];

/// Which samples are in which group.
pub const SBGP: [u8; 4] = [b's', b'b', b'g', b'p'];

/// The grouping type of pre-roll, which is no box.
pub const ROLL: [u8; 4] = [b'r', b'o', b'l', b'l'];

/// The sample entry of an IAMF track.
pub const IAMF: [u8; 4] = [b'i', b'a', b'm', b'f'];

/// The descriptors of an IAMF track.
pub const IACB: [u8; 4] = [b'i', b'a', b'c', b'b'];
