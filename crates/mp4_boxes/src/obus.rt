//! Lists of OBUs in the boxes and samples of a file.

ghost use Rattle.std.specs.Prelude.{◌≡◌};
ghost use Rattle.spec_boxes.specs.ObuLists.{are_obus as are_obus_of};
ghost use Rattle.mp4_boxes.specs.Holding.{may_hold};

use obu_header::{ObuType, read_obu};

/// What holds a list of OBUs.
#[derive(Clone, Copy)]
pub enum Holder {
    /// An `iacb` box, which holds descriptors and reserved types.
    Configuration,
    /// A sample, which holds all types but temporal delimiters.
    Sample,
}

fn may(holder: Holder, kind: u8) -> bool
    ensures { result ≡ may_hold holder kind }
{
    let obu_type = ObuType::of_number(kind);
    match holder {
        Holder::Configuration => obu_type.is_descriptor() || obu_type == ObuType::Reserved,
        Holder::Sample => obu_type != ObuType::TemporalDelimiter,
    }
}

/// Whether the bytes are whole OBUs, of types that may stand there.
pub fn are_obus(bytes: &[u8], holder: Holder) -> bool
    ensures { result ≡ are_obus_of (may_hold holder) bytes.now }
{
    let mut at = 0;
    while at < bytes.len() {
        match read_obu(bytes, at) {
            Ok(obu) => {
                if !may(holder, obu.head.kind) {
                    return false;
                }
                at = obu.end;
            }
            Err(_) => return false,
        }
    }
    true
}
