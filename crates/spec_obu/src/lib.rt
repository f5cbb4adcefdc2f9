//! The header of an OBU: what its spellings are, why a header cannot be read, and what a listing of OBUs is.
#![tactic(auto)]

ghost use Rattle.std.specs.Prelude.{◌≡◌};
ghost use Rattle.spec_obu.specs.Code.{code_of};
ghost use Rattle.spec_obu.specs.Laws.{EitherHeaderOrFault, NotHeaderAndFault, OneValue, OneFault};
ghost use Rattle.spec_obu.specs.Laws.{HeaderIsRead, HeaderIsReadAgain, HeaderFails, HeaderFailsOnly};
ghost use Rattle.spec_obu.specs.Laws.{CanonicalIsHeader, CanonicalIsShortest};
ghost use Rattle.spec_obu.specs.Laws.{ListedIsNotRefused, EitherListedOrRefused, OneListing, OneRefusal};

mod obu_type;
mod plain;
mod trim;

pub use obu_type::ObuType;
pub use plain::plain_fault;
pub use trim::Trim;

/// Why the header of an OBU cannot be read (IAMF 1.0.0, "OBU Header Syntax and Semantics").
///
/// The tests come in the order `Leb`, `ObuSize`, `Flags`, `Cut`, `HeaderSize`, and the first that fails is the fault.
#[derive(Clone, Copy, Debug, PartialEq, Eq)]
pub enum HeaderFault {
    /// `obu_size` has 8 bytes that all say that another follows, or its value is 2^32 or more.
    Leb,
    /// The whole OBU would have more than 2^21 bytes, which is this project's limit.
    ObuSize,
    /// The trimming flag stands on a type outside 5 to 23, or the redundant flag on a type from 3 to 23.
    Flags,
    /// The trims, the extension's size or the extension's bytes do not read within the `obu_size` bytes.
    HeaderSize,
    /// The input ends within `obu_size`, or before the end of the OBU.
    Cut,
}

impl HeaderFault {
    /// The number of the refusal, from 1 to 5.
    pub fn code(self) -> u8
        ensures { result ≡ code_of self }
    {
        match self {
            HeaderFault::Leb => 1,
            HeaderFault::ObuSize => 2,
            HeaderFault::Flags => 3,
            HeaderFault::HeaderSize => 4,
            HeaderFault::Cut => 5,
        }
    }
}

/// Each list of bytes that is not empty either begins with a header or has a first fault, with one value or
/// one fault; and reading answers exactly these.
pub fn one_header()
    ensures either { EitherHeaderOrFault }
    ensures not_both { NotHeaderAndFault }
    ensures one_value { OneValue }
    ensures one_fault { OneFault }

    ensures read { HeaderIsRead }
    ensures again { HeaderIsReadAgain }
    ensures fails { HeaderFails }
    ensures only { HeaderFailsOnly }
{}

/// The canonical spelling of a head and a payload is a spelling of them wherever there is one, and no other is shorter.
pub fn canonical_header_law()
    ensures is_header { CanonicalIsHeader }
    ensures is_shortest { CanonicalIsShortest }
{}

/// Each list of bytes either has a listing or is refused, and there is one of either.
pub fn one_outcome()
    ensures either { EitherListedOrRefused }
    ensures excludes { ListedIsNotRefused }
    ensures listing { OneListing }
    ensures refusal { OneRefusal }
{}
