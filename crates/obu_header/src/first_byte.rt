ghost use Rattle.std.specs.Prelude.{◌≡◌};
ghost use Rattle.spec_obu.specs.Kinds.{obu_type_of};
ghost use Rattle.spec_obu.specs.Header.{are_allowed};
ghost use Rattle.obu_header.specs.FirstByte.{Decodes};

use spec_obu::ObuType;

// `obu_type` and the three flags, as the first byte of an OBU has them.
#[derive(Clone, Copy)]
pub(crate) struct FirstByte {
    pub(crate) kind: u8,
    pub(crate) redundant: bool,
    pub(crate) trimmed: bool,
    pub(crate) extended: bool,
}

impl FirstByte {
    #[inline]
    pub(crate) fn of(byte: u8) -> FirstByte
        ensures { Decodes result byte }
    {
        FirstByte {
            kind: byte / 8,
            redundant: byte / 4 % 2 == 1,
            trimmed: byte / 2 % 2 == 1,
            extended: byte % 2 == 1,
        }
    }

    // Whether the flags may stand on the type: the trimming flag on audio frames alone, the redundant flag on no data.
    pub(crate) fn is_allowed(&self) -> bool
        ensures { result ≡ are_allowed (obu_type_of self.now.kind) self.now.redundant self.now.trimmed }
    {
        let obu_type = ObuType::of_number(self.kind);
        (!self.trimmed || obu_type == ObuType::AudioFrame)
            && (!self.redundant || !obu_type.is_data())
    }
}
