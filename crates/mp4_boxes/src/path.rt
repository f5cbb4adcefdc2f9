//! The way from the top of a file to the tables of its IAMF track.

ghost use Rattle.std.specs.Prelude.{◌≡◌, ◌≤◌, length, IfOk, is_ok};
ghost use Rattle.spec_boxes.specs.Boxes.{Gives};
ghost use Rattle.spec_boxes.specs.Parts.{none_of};
ghost use Rattle.spec_boxes.specs.Paths.{walk_at, audio_in, found_at, only_if};
ghost use Rattle.mp4_boxes.specs.Views.{box_of, boxes_of, file_of, StandsIn};
ghost use Rattle.mp4_boxes.specs.PathViews.{walk_of, WalkStands, FoundStands, GivesWalk};

use crate::box_view::BoxView;
use crate::boxes::Boxes;
use spec_boxes::{BoxFault, BoxRefusal, IAMF, MDIA, MINF, MOOF, MOOV, MVEX, STBL, STSD, TRAK};

/// The boxes of a track on the way to its tables.
#[derive(Clone, Copy)]
pub struct Walk<'a> {
    pub trak: BoxView<'a>,
    pub in_trak: Boxes<'a>,
    pub stbl: BoxView<'a>,
    pub in_stbl: Boxes<'a>,
    /// The first sample entry.
    pub entry: BoxView<'a>,
}

// The way through a `trak`, where it has one and its first sample entry is of IAMF.
#[tactic(auto, unfolding(spec_boxes::specs::Paths::walk_at))]
fn walk_trak<'a>(file: &'a [u8], trak: &BoxView<'a>) -> Result<Option<Walk<'a>>, BoxRefusal>
    requires { StandsIn file.now trak.now }
    ensures exact { GivesWalk result (walk_at file.now (box_of trak.now)) }
    ensures stands { IfOk result (FoundStands file.now) }
{
    let in_trak = Boxes::inside(file, trak, 0)?;
    let Some(mdia) = in_trak.first(MDIA) else {
        return Ok(None);
    };
    let in_mdia = Boxes::inside(file, &mdia, 0)?;
    let Some(minf) = in_mdia.first(MINF) else {
        return Ok(None);
    };
    let in_minf = Boxes::inside(file, &minf, 0)?;
    let Some(stbl) = in_minf.first(STBL) else {
        return Ok(None);
    };
    let in_stbl = Boxes::inside(file, &stbl, 0)?;
    let Some(stsd) = in_stbl.first(STSD) else {
        return Ok(None);
    };
    if stsd.payload.len() < 8 {
        return Ok(None);
    }
    let mut entries = Boxes::inside(file, &stsd, 8)?;
    let Some(entry) = entries.next_box() else {
        return Ok(None);
    };
    if entry.kind != IAMF {
        return Ok(None);
    }
    Ok(Some(Walk {
        trak: *trak,
        in_trak,
        stbl,
        in_stbl,
        entry,
    }))
}

// The way to the first IAMF track among the boxes of `moov`.
fn find_audio<'a>(file: &'a [u8], in_moov: &Boxes<'a>) -> Result<Option<Walk<'a>>, BoxRefusal>
    requires { file_of in_moov.now ≡ file.now }
    ensures exact { GivesWalk result (audio_in file.now (boxes_of in_moov.now)) }
    ensures stands { IfOk result (FoundStands file.now) }
{
    let mut rest = *in_moov;
    while let Some(view) = rest.next_box() {
        if view.kind == TRAK {
            match walk_trak(file, &view) {
                Ok(found) => {
                    if found.is_some() {
                        return Ok(found);
                    }
                }
                Err(refusal) => return Err(refusal),
            }
        }
    }
    Ok(None)
}

// That no box has a kind of fragments, where the file must be whole.
fn check_whole(boxes: &Boxes<'_>, kind: [u8; 4], whole: bool) -> Result<(), BoxRefusal>
    ensures { Gives (λ _. tt) result (only_if whole (none_of kind (boxes_of boxes.now))) }
{
    if whole { boxes.without(kind) } else { Ok(()) }
}

/// The way to the IAMF track of a file, which must be whole or may be in fragments.
#[tactic(auto, unfolding(spec_boxes::specs::Paths::found_at))]
pub fn find_track<'a>(file: &'a [u8], whole: bool) -> Result<Walk<'a>, BoxRefusal>
    ensures exact { Gives walk_of result (found_at whole file.now) }
    ensures stands { IfOk result (WalkStands file.now) }
{
    let top = Boxes::tile(file, 0, file.len(), true)?;
    let moov = top.only(MOOV, MOOV, 0)?;
    check_whole(&top, MOOF, whole)?;
    let in_moov = Boxes::inside(file, &moov, 0)?;
    check_whole(&in_moov, MVEX, whole)?;
    match find_audio(file, &in_moov)? {
        Some(walk) => Ok(walk),
        None => Err(BoxRefusal {
            at: moov.at as u64,
            fault: BoxFault::Missing(IAMF),
        }),
    }
}
