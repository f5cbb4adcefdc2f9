ghost use Rattle.std.specs.Prelude.{◌≡◌, ◌<◌};
ghost use Rattle.spec_obu.specs.Header.{first_byte, is_copy};
ghost use Rattle.spec_obu.specs.Kinds.{obu_type_of};
ghost use Rattle.obu_header.specs.View.{head_of};

use spec_obu::{ObuType, Trim};

/// The fields of an OBU's header (IAMF 1.0.0, "OBU Header Syntax and Semantics").
#[derive(Clone, Copy)]
pub struct ObuHead<'a> {
    /// The number of the type, `obu_type`, from 0 to 31.
    pub kind: u8,
    /// `obu_redundant_copy`.
    pub redundant: bool,
    /// There where `obu_trimming_status_flag` is set.
    pub trim: Option<Trim>,
    /// The bytes of the extension, there where `obu_extension_flag` is set.
    pub extension: Option<&'a [u8]>,
}

impl<'a> ObuHead<'a> {
    /// What the OBU is.
    #[inline]
    pub fn obu_type(&self) -> ObuType
        ensures { result ≡ obu_type_of self.now.kind }
    {
        ObuType::of_number(self.kind)
    }

    /// Whether the OBU is a redundant copy. A reserved OBU is none, whatever its flag says.
    pub fn is_copy(&self) -> bool
        ensures { result ≡ is_copy (head_of self.now) }
    {
        self.redundant && self.obu_type() != ObuType::Reserved
    }

    // `obu_type` and the three flags.
    pub(crate) fn first_byte(&self) -> u8
        requires { self.now.kind < 32 }
        ensures { result ≡ first_byte (head_of self.now) }
    {
        8 * self.kind
            + if self.redundant { 4 } else { 0 }
            + if self.trim.is_some() { 2 } else { 0 }
            + if self.extension.is_some() { 1 } else { 0 }
    }
}
