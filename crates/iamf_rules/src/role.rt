use obu_data::Definition;
use spec_obu::Trim;
use spec_rules::CodecRole;

/// What the rules look at in an OBU.
#[derive(Clone, Copy, Drop)]
pub enum Role<'r> {
    /// A reserved OBU or a redundant copy, which counts for nothing.
    Ignored,
    SequenceHeader {
        primary_profile: u8,
    },
    CodecConfig(CodecRole),
    /// `codec` is the id of its codec config. `channels` are those of each substream in order, where they are known.
    AudioElement {
        id: u32,
        codec: u32,
        substreams: &'r [u32],
        channels: Option<&'r [u32]>,
        definitions: &'r [Definition],
    },
    /// `elements` are the ids of the elements of all sub-mixes, one sub-mix after the other, and `sub_mixes` is how many
    /// sub-mixes there are.
    MixPresentation {
        id: u32,
        elements: &'r [u32],
        sub_mixes: usize,
        definitions: &'r [Definition],
    },
    Delimiter,
    /// `duration` is the block's own, in ticks of its parameter's rate, where it has one.
    ParameterBlock {
        id: u32,
        duration: Option<u32>,
    },
    AudioFrame {
        substream: u32,
        trim: Trim,
        bytes: &'r [u8],
    },
}
