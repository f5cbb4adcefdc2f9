//! The IAMF track of a file.

ghost use Rattle.std.specs.Prelude.{◌≡◌, true, false, Some, IfOk, IfErr};
ghost use Rattle.spec_boxes.specs.Boxes.{Gives};
ghost use Rattle.spec_boxes.specs.Code.{code_of};
ghost use Rattle.spec_boxes.specs.Tracks.{track_at};
ghost use Rattle.spec_boxes.specs.Rules.{first_of, rules, track};
ghost use Rattle.spec_boxes.specs.Laws.{Holds, BoxRefuses, HoldsIn, RefusesIn};
ghost use Rattle.mp4_boxes.specs.TrackViews.{track_seen, track_file};

use crate::cursor::Cursor;
use crate::elst::check_edits;
use crate::fits::{check_samples, samples_fit};
use crate::groups::check_groups;
use crate::iacb::read_config;
use crate::path::find_track;
use crate::tables::read_tables;
use crate::track::Track;
use spec_boxes::{BoxFault, BoxRefusal};

// The track, rule by rule; a file that is `whole` must have no fragments.
#[tactic(auto, using(spec_boxes::proofs::Samples::fit_in_file), unfolding(spec_boxes::specs::Tracks::track_at))]
fn read_track<'a>(file: &'a [u8], whole: bool) -> Result<Track<'a>, BoxRefusal>
    ensures exact { Gives track_seen result (track_at whole file.now) }
    ensures file { IfOk result (λ t. track_file t ≡ file.now) }
{
    let walk = find_track(file, whole)?;
    let tables = read_tables(file, &walk.in_stbl, walk.stbl.at)?;
    check_edits(file, &walk.in_trak)?;
    check_groups(file, &walk.in_stbl, tables.sizes.count)?;
    let config = read_config(file, &walk.entry)?;
    let cursor = Cursor::new(file, tables.sizes, tables.places, tables.runs);
    if !samples_fit(file, &cursor) {
        return Err(BoxRefusal {
            at: tables.boxes.chunks.at as u64,
            fault: BoxFault::Chunk,
        });
    }
    check_samples(file, &cursor)?;
    Ok(Track::new(
        file,
        walk.trak,
        config,
        tables.sizes,
        tables.places,
        tables.runs,
    ))
}

/// The IAMF track of an MP4 file: the first track whose first sample entry is `iamf`. It takes no memory, and
/// time that grows with the file.
///
/// # Errors
///
/// The first rule that fails, exactly where one does, with the place of the box or of the sample at which it
/// fails. Of a file that it refuses nothing else is known.
#[tactic(auto, using(spec_boxes::proofs::Answer::read_holds, spec_boxes::proofs::Answer::read_trak, spec_boxes::proofs::Answer::read_refuses, spec_boxes::proofs::Answer::read_fails))]
pub fn audio_track<'a>(file: &'a [u8]) -> Result<Track<'a>, BoxRefusal>
    ensures holds { IfOk result (λ t. Holds file.now (track_seen t).config (track_seen t).samples) }
    ensures trak { IfOk result (λ t. (track_seen t).trak ≡ (track file.now).trak) }
    ensures file { IfOk result (λ t. track_file t ≡ file.now) }
    ensures refused { IfErr result (λ e. BoxRefuses file.now e.at (code_of e.fault)) }
    ensures fault { IfErr result (λ e. first_of (rules true file.now) ≡ Some e) }
{
    read_track(file, true)
}

/// The IAMF track of an MP4 file that may be in fragments, with the samples that `moov` itself has.
///
/// # Errors
///
/// As `audio_track`, but never `Fragmented`: the rules that only a whole file keeps are left out.
#[tactic(auto, using(spec_boxes::proofs::Answer::read_holds, spec_boxes::proofs::Answer::read_trak, spec_boxes::proofs::Answer::read_refuses, spec_boxes::proofs::Answer::read_fails))]
pub fn track_of<'a>(file: &'a [u8]) -> Result<Track<'a>, BoxRefusal>
    ensures holds { IfOk result (λ t. HoldsIn false file.now (track_seen t).config (track_seen t).samples) }
    ensures trak { IfOk result (λ t. (track_seen t).trak ≡ (track file.now).trak) }
    ensures file { IfOk result (λ t. track_file t ≡ file.now) }
    ensures refused { IfErr result (λ e. RefusesIn false file.now e.at (code_of e.fault)) }
    ensures fault { IfErr result (λ e. first_of (rules false file.now) ≡ Some e) }
{
    read_track(file, false)
}
