//! What is tested of boxes that begin with a version (ISO/IEC 14496-12, "Object Structure", `FullBox`).

ghost use Rattle.std.specs.Prelude.{◌≡◌};
ghost use Rattle.spec_boxes.specs.Boxes.{Gives};
ghost use Rattle.spec_boxes.specs.Tables.{has_version, has_room};
ghost use Rattle.mp4_boxes.specs.Views.{box_of};

use crate::box_view::BoxView;
use spec_boxes::{BoxFault, BoxRefusal};

/// A refusal at a box.
pub fn refused(view: &BoxView<'_>, fault: BoxFault) -> BoxRefusal
    ensures { result ≡ record { at = view.now.at; fault = fault } }
{
    BoxRefusal {
        at: view.at as u64,
        fault,
    }
}

/// That a box has so many bytes of payload.
pub fn check_room(view: &BoxView<'_>, bytes: u64) -> Result<(), BoxRefusal>
    ensures { Gives (λ _. tt) result (has_room (box_of view.now) view.now.payload.now bytes) }
{
    if (view.payload.len() as u64) < bytes {
        return Err(refused(view, BoxFault::Table(view.kind)));
    }
    Ok(())
}

/// That a box has version 0.
pub fn check_version(view: &BoxView<'_>) -> Result<(), BoxRefusal>
    ensures { Gives (λ _. tt) result (has_version (box_of view.now) view.now.payload.now) }
{
    check_room(view, 4)?;
    if view.payload[0] != 0 {
        return Err(refused(view, BoxFault::Version(view.kind)));
    }
    Ok(())
}
