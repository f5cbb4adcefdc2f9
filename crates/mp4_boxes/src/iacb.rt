//! The descriptors of an IAMF track (IAMF 1.0.0, "IA Sample Entry" and "IA Configuration Box").

ghost use Rattle.std.specs.Prelude.{◌≡◌};
ghost use Rattle.spec_boxes.specs.Boxes.{Gives};
ghost use Rattle.spec_boxes.specs.Configuration.{config_in, config_at};
ghost use Rattle.mp4_boxes.specs.Views.{box_of, StandsIn};

use crate::box_view::BoxView;
use crate::boxes::Boxes;
use crate::full_box::refused;
use crate::obus::{Holder, are_obus};
use iamf_bits::View;
use spec_boxes::{BoxFault, BoxRefusal, IACB};

// In bytes: the fields of a sample entry of sound before the boxes in it.
const ENTRY_FIELDS: usize = 28;

// The bytes of the descriptors in `iacb`.
#[tactic(auto, unfolding(spec_boxes::specs::Configuration::config_in))]
fn config_bytes<'a>(iacb: &BoxView<'a>) -> Result<&'a [u8], BoxRefusal>
    ensures { Gives (λ b. b.now) result (config_in (box_of iacb.now) iacb.now.payload.now) }
{
    let bytes = iacb.payload;
    if bytes.is_empty() {
        return Err(refused(iacb, BoxFault::Config));
    }
    if bytes[0] != 1 {
        return Err(refused(iacb, BoxFault::Config));
    }
    let mut rest = View::new(bytes, 1, bytes.len());
    let Ok(size) = rest.take_leb() else {
        return Err(refused(iacb, BoxFault::Config));
    };
    let Ok(config) = rest.take_bytes(size as usize) else {
        return Err(refused(iacb, BoxFault::Config));
    };
    if !are_obus(config, Holder::Configuration) {
        return Err(refused(iacb, BoxFault::Config));
    }
    Ok(config)
}

/// The bytes of the descriptors of a sample entry.
#[tactic(auto, unfolding(spec_boxes::specs::Configuration::config_at))]
pub fn read_config<'a>(file: &'a [u8], entry: &BoxView<'a>) -> Result<&'a [u8], BoxRefusal>
    requires { StandsIn file.now entry.now }
    ensures { Gives (λ b. b.now) result (config_at file.now (box_of entry.now)) }
{
    if entry.payload.len() < ENTRY_FIELDS {
        return Err(refused(entry, BoxFault::Config));
    }
    let in_entry = Boxes::inside(file, entry, ENTRY_FIELDS)?;
    let iacb = in_entry.only(IACB, IACB, entry.at)?;
    config_bytes(&iacb)
}
