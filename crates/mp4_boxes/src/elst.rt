//! The edit list of a track (ISO/IEC 14496-12, "Edit List Box"), whose shape alone is tested.

ghost use Rattle.std.specs.Prelude.{◌≡◌, ◌+◌, ◌*◌, length};
ghost use Rattle.spec_boxes.specs.Boxes.{Gives};
ghost use Rattle.spec_boxes.specs.Edits.{edits_at, entries_read};
ghost use Rattle.mp4_boxes.specs.Views.{box_of, boxes_of, file_of, StandsIn};

use crate::box_view::BoxView;
use crate::boxes::Boxes;
use crate::full_box::refused;
use crate::numbers::read_word;
use spec_boxes::{BoxFault, BoxRefusal, EDTS, ELST};

// That an edit list has a known version, and room for its entries.
fn check_entries(elst: &BoxView<'_>) -> Result<(), BoxRefusal>
    ensures { Gives (λ _. tt) result (entries_read (box_of elst.now) elst.now.payload.now) }
{
    if elst.payload.len() < 4 {
        return Err(refused(elst, BoxFault::Table(ELST)));
    }
    let version = elst.payload[0];
    if version > 1 {
        return Err(refused(elst, BoxFault::Version(ELST)));
    }
    if elst.payload.len() < 8 {
        return Err(refused(elst, BoxFault::Table(ELST)));
    }
    let entry = if version == 1 { 20 } else { 12 };
    if (elst.payload.len() as u64) < 8 + entry * u64::from(read_word(elst.payload, 4)) {
        return Err(refused(elst, BoxFault::Table(ELST)));
    }
    Ok(())
}

/// That the first edit list of a track, where there is one, reads.
#[tactic(auto, unfolding(spec_boxes::specs::Edits::edits_at))]
pub fn check_edits<'a>(file: &'a [u8], in_trak: &Boxes<'a>) -> Result<(), BoxRefusal>
    requires { file_of in_trak.now ≡ file.now }
    ensures { Gives (λ _. tt) result (edits_at file.now (boxes_of in_trak.now)) }
{
    let Some(edts) = in_trak.first(EDTS) else {
        return Ok(());
    };
    let in_edts = Boxes::inside(file, &edts, 0)?;
    let Some(elst) = in_edts.first(ELST) else {
        return Ok(());
    };
    check_entries(&elst)
}
