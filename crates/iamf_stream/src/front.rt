ghost use Rattle.std.specs.Prelude.{◌<◌, length};
ghost use Rattle.spec_obu.specs.Faults.{IsFirstFault};
ghost use Rattle.spec_streams.specs.Front.{IsPartial};
ghost use Rattle.iamf_stream.specs.Front.{IsFront, IsLength};

use iamf_bits::{FieldFault, View};
use obu_header::{HeaderFault, ObuView, read_obu};

/// What stands at the front of bytes, as far as they tell.
pub(crate) enum Front<'a> {
    /// A whole OBU.
    Obu(ObuView<'a>),
    /// Part of an OBU. There have to be so many bytes before more can be said.
    Partial(usize),
    /// A fault of a header, which stays whatever follows.
    Fault(HeaderFault),
}

/// What stands at the front of the bytes, of which there is one at least.
pub(crate) fn front_of(bytes: &[u8]) -> Front<'_>
    requires { 0 < length bytes.now }
    ensures { IsFront bytes.now result }
{
    let fault = match read_obu(bytes, 0) {
        Ok(obu) => return Front::Obu(obu),
        Err(fault) => fault,
    };
    match obu_length(bytes) {
        Ok(length) => {
            if fault == HeaderFault::Cut {
                Front::Partial(length)
            } else {
                Front::Fault(fault)
            }
        }
        Err(no_size) => {
            if no_size == FieldFault::Short {
                Front::Partial(bytes.len() + 1)
            } else {
                Front::Fault(fault)
            }
        }
    }
}

// How many bytes the OBU has that begins by these, or why its size cannot be read.
fn obu_length(bytes: &[u8]) -> Result<usize, FieldFault>
    requires { 0 < length bytes.now }
    ensures { IsLength bytes.now result }
{
    let mut view = View::whole(&bytes[1..]);
    match view.take_leb() {
        Ok(size) => Ok(bytes.len() - view.left() + size as usize),
        Err(fault) => Err(fault),
    }
}

/// The fault of the bytes, where they are part of an OBU and nothing follows them.
pub(crate) fn cut_fault(bytes: &[u8]) -> HeaderFault
    requires { 0 < length bytes.now }
    ensures { IsPartial bytes.now → IsFirstFault result bytes.now }
{
    match read_obu(bytes, 0) {
        Ok(_) => HeaderFault::Cut,
        Err(fault) => fault,
    }
}
