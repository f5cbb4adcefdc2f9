//! Why a file is not read.

ghost use Rattle.std.specs.Prelude.{◌≡◌};
ghost use Rattle.spec_boxes.specs.Code.{code_of};

/// Why a file is not read as an MP4 file with an IAMF track.
///
/// A kind is the four letters of a box (ISO/IEC 14496-12, "Object Structure").
#[derive(Clone, Copy, Debug, PartialEq, Eq)]
pub enum BoxFault {
    /// A size below that of the box's header, a box that passes the end of its parent, a size of 0 inside a
    /// box, or too few bytes left for a header.
    BoxSize,
    /// A box of this kind must be there and is not.
    Missing([u8; 4]),
    /// A box of this kind stands twice where it may stand once.
    Twice([u8; 4]),
    /// A box of this kind has a version that is not read.
    Version([u8; 4]),
    /// The box of this kind is too short for its counts, or its counts do not agree with those of another table.
    Table([u8; 4]),
    /// There is more or less than one sample description, or a chunk that does not use the first.
    Descriptions,
    /// A sample passes the end of the file, or all samples together have more bytes than the file.
    Chunk,
    /// The sample entry, or the `iacb` box in it, does not read (IAMF 1.0.0, "IA Configuration Box").
    Config,
    /// A box of the grouping type `roll` does not read.
    Roll,
    /// A sample is no list of whole OBUs, or holds a temporal delimiter (IAMF 1.0.0, "IA Sample Format").
    Sample,
    /// The file is in movie fragments.
    Fragmented,
}

impl BoxFault {
    /// The number of the refusal, from 70 to 80.
    pub fn code(self) -> u8
        ensures { result ≡ code_of self }
    {
        match self {
            BoxFault::BoxSize => 70,
            BoxFault::Missing(_) => 71,
            BoxFault::Twice(_) => 72,
            BoxFault::Version(_) => 73,
            BoxFault::Table(_) => 74,
            BoxFault::Descriptions => 75,
            BoxFault::Chunk => 76,
            BoxFault::Config => 77,
            BoxFault::Roll => 78,
            BoxFault::Sample => 79,
            BoxFault::Fragmented => 80,
        }
    }
}

/// Where a file is refused, and why.
#[derive(Clone, Copy, Debug, PartialEq, Eq)]
pub struct BoxRefusal {
    /// The place in the file of the box, or of the sample, at which the rule fails.
    pub at: u64,
    pub fault: BoxFault,
}
