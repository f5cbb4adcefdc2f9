ghost use Rattle.std.specs.Prelude.{◌≡◌};
ghost use Rattle.spec_descriptors.specs.Code.{descriptor_code, mix_code};

use spec_bits::FieldFault;

/// Why a sequence header, codec config or audio element cannot be read. The faults are tested field by field,
/// in the order of the syntax.
#[derive(Clone, Copy, Debug, PartialEq, Eq)]
pub enum DescriptorFault {
    /// A field ends past the payload, or its leb128 or text is none.
    Field(FieldFault),
    /// `ia_code` is not `iamf`.
    Code,
    /// `primary_profile` is above 2.
    Profile,
    /// `codec_id` is `Opus`.
    Opus,
    /// `codec_id` is `mp4a`.
    Aac,
    /// `codec_id` is none of the four.
    CodecOther,
    /// `num_samples_per_frame` is 0 or above 65535.
    FrameLength,
    /// `audio_roll_distance` is not 0.
    Roll,
    /// `sample_format_flags` is above 1, `sample_size` is not 16, 24 or 32, or `sample_rate` is none of the five.
    LpcmConfig,
    /// The first metadata block is not of type 0 and length 34, or its rate or depth is not of this profile.
    FlacConfig,
    /// A parameter type is 0, or is 1 or 2 and stands twice or in an element that is not scalable.
    ParamKind,
    /// The mode, duration or constant of a demixing or recon-gain definition is not that of the frames; or the
    /// durations of a mix gain do not fit.
    ParamShape,
    /// The number of layers, a layout, a layer's step or its counts are not allowed.
    Layers,
    /// `num_substreams` is not what the layers or the ambisonics configuration say.
    Substreams,
    /// The ambisonics mode or one of its counts is not allowed.
    Ambisonics,
}

impl DescriptorFault {
    /// The number of the refusal.
    pub fn code(self) -> u8
        ensures { result ≡ descriptor_code self }
    {
        match self {
            DescriptorFault::Field(_) => 10,
            DescriptorFault::Code => 11,
            DescriptorFault::Profile => 12,
            DescriptorFault::Opus => 13,
            DescriptorFault::Aac => 14,
            DescriptorFault::CodecOther => 15,
            DescriptorFault::FrameLength => 16,
            DescriptorFault::Roll => 17,
            DescriptorFault::LpcmConfig => 18,
            DescriptorFault::FlacConfig => 19,
            DescriptorFault::ParamKind => 20,
            DescriptorFault::ParamShape => 21,
            DescriptorFault::Layers => 22,
            DescriptorFault::Substreams => 23,
            DescriptorFault::Ambisonics => 24,
        }
    }
}

impl From<FieldFault> for DescriptorFault {
    ghost use Rattle.std.specs.Prelude.{◌≡◌};
    ghost use Rattle.spec_descriptors.specs.declared.fault.DescriptorFault.TheVariants.{Field};

    ghost from_gives = { λ f e. e ≡ Field f };

    fn from(fault: FieldFault) -> DescriptorFault {
        DescriptorFault::Field(fault)
    }
}

/// Why a mix presentation cannot be read.
#[derive(Clone, Copy, Debug, PartialEq, Eq)]
pub enum MixFault {
    /// A field ends past the payload, or its leb128 or text is none.
    Field(FieldFault),
    /// The durations of a mix gain do not fit.
    ParamShape,
    /// A loudness layout has type 0 or 1.
    LayoutType,
}

impl From<FieldFault> for MixFault {
    ghost use Rattle.std.specs.Prelude.{◌≡◌};
    ghost use Rattle.spec_descriptors.specs.declared.fault.MixFault.TheVariants.{Field};

    ghost from_gives = { λ f e. e ≡ Field f };

    fn from(fault: FieldFault) -> MixFault {
        MixFault::Field(fault)
    }
}

impl MixFault {
    /// The number of the refusal.
    pub fn code(self) -> u8
        ensures { result ≡ mix_code self }
    {
        match self {
            MixFault::Field(_) => 10,
            MixFault::ParamShape => 21,
            MixFault::LayoutType => 25,
        }
    }
}
