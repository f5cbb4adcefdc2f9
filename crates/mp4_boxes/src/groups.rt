//! The groups for pre-roll, which are only tested.

ghost use Rattle.std.specs.Prelude.{◌≡◌, ◌≤◌, length, nat_eq};
ghost use Rattle.std.specs.Cmp.Lexicographic.{pointwise};
ghost use Rattle.spec_boxes.specs.Bytes.{kind_at};
ghost use Rattle.spec_boxes.specs.declared.kinds.TheConstants.{ROLL as ROLL_KIND};
ghost use Rattle.spec_boxes.specs.Boxes.{Gives};
ghost use Rattle.spec_boxes.specs.Groups.{group_fits as group_fits_of, groups_at};
ghost use Rattle.mp4_boxes.specs.Views.{box_of, boxes_of, file_of};

use crate::box_view::BoxView;
use crate::boxes::Boxes;
use crate::full_box::refused;
use crate::sbgp::groups_fit;
use crate::sgpd::descriptions_fit;
use spec_boxes::{BoxFault, BoxRefusal, ROLL, SBGP, SGPD};

fn is_roll(bytes: &[u8]) -> bool
    requires { 8 ≤ length bytes.now }
    ensures { result ≡ pointwise nat_eq (kind_at bytes.now 4) ROLL_KIND }
{
    [bytes[4], bytes[5], bytes[6], bytes[7]] == ROLL
}

// Whether a box is none that is tested, or reads.
fn group_fits(view: &BoxView<'_>, samples: u32) -> bool
    ensures { result ≡ group_fits_of samples (box_of view.now) view.now.payload.now }
{
    let bytes = view.payload;
    if bytes.len() < 8 {
        return true;
    }
    if !is_roll(bytes) {
        return true;
    }
    let version = bytes[0];
    if view.kind == SGPD && version == 1 {
        return descriptions_fit(bytes);
    }
    if view.kind == SBGP && version <= 1 {
        return groups_fit(bytes, if version == 1 { 12 } else { 8 }, samples);
    }
    true
}

/// That each `sgpd` and `sbgp` of the grouping type `roll`, of a version that is known, reads.
pub fn check_groups<'a>(file: &'a [u8], in_stbl: &Boxes<'a>, samples: u32) -> Result<(), BoxRefusal>
    requires { file_of in_stbl.now ≡ file.now }
    ensures { Gives (λ _. tt) result (groups_at file.now samples (boxes_of in_stbl.now)) }
{
    let mut rest = *in_stbl;
    while let Some(view) = rest.next_box() {
        if !group_fits(&view, samples) {
            return Err(refused(&view, BoxFault::Roll));
        }
    }
    Ok(())
}
