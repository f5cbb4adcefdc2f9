ghost use Rattle.std.specs.Prelude.{◌≡◌};
ghost use Rattle.spec_blocks.specs.Code.{block_code};

use spec_bits::FieldFault;

/// Why a parameter block cannot be read. The faults are tested field by field, in the order of the syntax.
#[derive(Clone, Copy, Debug, PartialEq, Eq)]
pub enum BlockFault {
    /// A field ends past the payload, or its leb128 is none.
    Field(FieldFault),
    /// The animation type of a mix gain is above 2.
    Animation,
    /// The block's own duration is 0, it has no subblock, a subblock lasts 0, or they do not add up to it.
    Subblocks,
    /// The flags of a recon gain are 4096 or more.
    ReconFlags,
}

impl From<FieldFault> for BlockFault {
    ghost use Rattle.std.specs.Prelude.{◌≡◌};
    ghost use Rattle.spec_blocks.specs.declared.fault.BlockFault.TheVariants.{Field};

    ghost from_gives = { λ f e. e ≡ Field f };

    fn from(fault: FieldFault) -> BlockFault {
        BlockFault::Field(fault)
    }
}

impl BlockFault {
    /// The number of the refusal.
    pub fn code(self) -> u8
        ensures { result ≡ block_code self }
    {
        match self {
            BlockFault::Field(_) => 10,
            BlockFault::Animation => 26,
            BlockFault::Subblocks => 27,
            BlockFault::ReconFlags => 28,
        }
    }
}
