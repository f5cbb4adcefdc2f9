ghost use Rattle.std.specs.Prelude.{◌≡◌};
ghost use Rattle.spec_values.specs.Code.{code_of};

use spec_bits::FieldFault;
use spec_blocks::BlockFault;
use spec_descriptors::{DescriptorFault, MixFault};
use spec_flac::FlacFault;
use spec_obu::HeaderFault;

/// Why bytes are no sequence. An OBU's header is tested first, then the rules and the payload in an order that depends on
/// its type; `docs/FORMAT_SEQUENCES.md` has the order.
#[derive(Clone, Copy, Debug, PartialEq, Eq)]
pub enum Fault {
    /// The header of an OBU.
    Header(HeaderFault),
    /// The payload of a sequence header, a codec config or an audio element.
    Descriptor(DescriptorFault),
    /// The payload of a mix presentation.
    Mix(MixFault),
    /// The payload of a parameter block.
    Block(BlockFault),
    /// The substream id of an audio frame.
    Frame(FieldFault),
    /// A descriptor stands before the sequence header, or after one of a later type or after a data OBU.
    Order,
    /// A second codec config, or the id of an element, a mix or a substream that stands earlier.
    Repeated(u32),
    /// An element's codec config, or a mix's element, stands in no earlier descriptor.
    Unknown(u32),
    /// A parameter's definition differs from an earlier one of the same id.
    ParamClash(u32),
    /// A redundant copy has no earlier OBU of its type with the same payload.
    Redundant,
    /// One of the four types of descriptors is missing.
    Incomplete,
    /// No mix presentation fits the primary profile.
    NoMixFits,
    /// A second sequence header.
    SecondSequence,
    /// An audio frame of no substream, or a second one of its substream in its temporal unit.
    UnitFrame,
    /// A temporal unit lacks a frame.
    UnitShort,
    /// The trims of an audio frame.
    Trim,
    /// A parameter block that comes too late, or twice in a temporal unit.
    BlockTime,
    /// A temporal delimiter in a sequence that does not begin its first unit by one.
    Delimiter,
    /// The length of an LPCM frame.
    Lpcm,
    /// A FLAC frame.
    Flac(FlacFault),
}

impl Fault {
    /// The number of the refusal.
    pub fn code(self) -> u32
        ensures { result ≡ code_of self }
    {
        match self {
            Fault::Header(fault) => u32::from(fault.code()),
            Fault::Descriptor(fault) => u32::from(fault.code()),
            Fault::Mix(fault) => u32::from(fault.code()),
            Fault::Block(fault) => u32::from(fault.code()),
            Fault::Frame(_) => 10,
            Fault::Order => 30,
            Fault::Repeated(_) => 31,
            Fault::Unknown(_) => 32,
            Fault::ParamClash(_) => 33,
            Fault::Redundant => 34,
            Fault::Incomplete => 35,
            Fault::NoMixFits => 36,
            Fault::SecondSequence => 37,
            Fault::UnitFrame => 38,
            Fault::UnitShort => 39,
            Fault::Trim => 40,
            Fault::BlockTime => 41,
            Fault::Delimiter => 42,
            Fault::Lpcm => 43,
            Fault::Flac(_) => 44,
        }
    }
}
