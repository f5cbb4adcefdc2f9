//! The tables in `stbl` (ISO/IEC 14496-12, "Sample Table Box").

ghost use Rattle.std.specs.Prelude.{◌≡◌, length, IfOk, true};
ghost use Rattle.spec_boxes.specs.Boxes.{Gives};
ghost use Rattle.spec_boxes.specs.Tables.{tables_in, agree, runs_of};
ghost use Rattle.spec_boxes.specs.TablesAt.{tables_at};
ghost use Rattle.mp4_boxes.specs.Views.{boxes_of, file_of};
ghost use Rattle.mp4_boxes.specs.TrackTables.{table_boxes_of, tables_of, TablesStand};

use crate::box_view::BoxView;
use crate::boxes::Boxes;
use crate::full_box::check_version;
use crate::stco::Places;
use crate::stsc::Runs;
use crate::stsd::check_descriptions;
use crate::stsz::Sizes;
use crate::stts::check_times;
use spec_boxes::{BoxRefusal, CO64, STCO, STSC, STSD, STSZ, STTS};

/// The boxes with the tables of a track.
#[derive(Clone, Copy)]
pub struct TableBoxes<'a> {
    pub stsd: BoxView<'a>,
    pub stts: BoxView<'a>,
    pub stsc: BoxView<'a>,
    pub stsz: BoxView<'a>,
    /// `stco` or `co64`.
    pub chunks: BoxView<'a>,
}

/// The tables of a track.
#[derive(Clone, Copy)]
pub struct Tables<'a> {
    pub boxes: TableBoxes<'a>,
    pub sizes: Sizes<'a>,
    pub places: Places<'a>,
    pub runs: Runs<'a>,
}

// The boxes with the tables, each of which stands once in the `stbl` at the place.
#[tactic(auto, unfolding(spec_boxes::specs::Tables::tables_in))]
fn find_tables<'a>(
    file: &'a [u8],
    in_stbl: &Boxes<'a>,
    place: usize,
) -> Result<TableBoxes<'a>, BoxRefusal>
    requires { file_of in_stbl.now ≡ file.now }
    ensures exact { Gives table_boxes_of result (tables_in place (boxes_of in_stbl.now)) }
    ensures stands { IfOk result (TablesStand file.now) }
{
    let stsd = in_stbl.only(STSD, STSD, place)?;
    let stts = in_stbl.only(STTS, STTS, place)?;
    let stsc = in_stbl.only(STSC, STSC, place)?;
    let stsz = in_stbl.only(STSZ, STSZ, place)?;
    let chunks = in_stbl.only(STCO, CO64, place)?;
    Ok(TableBoxes {
        stsd,
        stts,
        stsc,
        stsz,
        chunks,
    })
}

/// The tables among the boxes of the `stbl` at the place.
#[tactic(auto, unfolding(spec_boxes::specs::TablesAt::tables_at))]
pub fn read_tables<'a>(
    file: &'a [u8],
    in_stbl: &Boxes<'a>,
    place: usize,
) -> Result<Tables<'a>, BoxRefusal>
    requires { file_of in_stbl.now ≡ file.now }
    ensures exact { Gives tables_of result (tables_at file.now place (boxes_of in_stbl.now)) }
    ensures agrees { IfOk result (λ t. agree (runs_of t.runs.count t.runs.bytes.now 8) t.places.count t.sizes.count ≡ true) }
{
    let boxes = find_tables(file, in_stbl, place)?;
    check_version(&boxes.stsd)?;
    check_version(&boxes.stts)?;
    check_version(&boxes.stsc)?;
    check_version(&boxes.stsz)?;
    check_version(&boxes.chunks)?;
    check_descriptions(&boxes.stsd)?;
    let sizes = Sizes::read(&boxes.stsz)?;
    let places = Places::read(&boxes.chunks)?;
    check_times(&boxes.stts, sizes.count)?;
    let runs = Runs::read(&boxes.stsc, places.count, sizes.count)?;
    Ok(Tables {
        boxes,
        sizes,
        places,
        runs,
    })
}
