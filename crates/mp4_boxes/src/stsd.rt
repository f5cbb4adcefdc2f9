//! The sample descriptions (ISO/IEC 14496-12, "Sample Description Box").

ghost use Rattle.spec_boxes.specs.Boxes.{Gives};
ghost use Rattle.spec_boxes.specs.Tables.{one_description};
ghost use Rattle.mp4_boxes.specs.Views.{box_of};

use crate::box_view::BoxView;
use crate::full_box::refused;
use crate::numbers::read_word;
use spec_boxes::{BoxFault, BoxRefusal};

/// That `stsd` counts one description.
pub fn check_descriptions(view: &BoxView<'_>) -> Result<(), BoxRefusal>
    ensures { Gives (λ _. tt) result (one_description (box_of view.now) view.now.payload.now) }
{
    if view.payload.len() < 8 || read_word(view.payload, 4) != 1 {
        return Err(refused(view, BoxFault::Descriptions));
    }
    Ok(())
}
