ghost use Rattle.std.specs.Prelude.{◌≡◌};
ghost use Rattle.spec_obu.specs.Kinds.{obu_type_of, is_descriptor, is_data};

/// What an OBU is (IAMF 1.0.0, "OBU Header Syntax and Semantics", `obu_type`).
#[derive(Clone, Copy, Debug, PartialEq, Eq)]
pub enum ObuType {
    /// Type 31.
    SequenceHeader,
    /// Type 0.
    CodecConfig,
    /// Type 1.
    AudioElement,
    /// Type 2.
    MixPresentation,
    /// Type 3.
    ParameterBlock,
    /// Type 4.
    TemporalDelimiter,
    /// Types 5 to 23. One of type 5 names its substream, and those from 6 on are of the substreams 0 to 17.
    AudioFrame,
    /// Types 24 to 30.
    Reserved,
}

impl ObuType {
    /// The type that the number names. A header has none above 31; each of these would be reserved.
    pub fn of_number(number: u8) -> ObuType
        ensures { result ≡ obu_type_of number }
    {
        match number {
            0 => ObuType::CodecConfig,
            1 => ObuType::AudioElement,
            2 => ObuType::MixPresentation,
            3 => ObuType::ParameterBlock,
            4 => ObuType::TemporalDelimiter,
            5..=23 => ObuType::AudioFrame,
            31 => ObuType::SequenceHeader,
            _ => ObuType::Reserved,
        }
    }

    /// Whether it is one of the four types that come before all data, and of which there are redundant copies.
    pub fn is_descriptor(self) -> bool
        ensures { result ≡ is_descriptor self }
    {
        match self {
            ObuType::SequenceHeader
            | ObuType::CodecConfig
            | ObuType::AudioElement
            | ObuType::MixPresentation => true,
            _ => false,
        }
    }

    /// Whether it is one of the three types that temporal units are made of.
    pub fn is_data(self) -> bool
        ensures { result ≡ is_data self }
    {
        match self {
            ObuType::ParameterBlock | ObuType::TemporalDelimiter | ObuType::AudioFrame => true,
            _ => false,
        }
    }
}
