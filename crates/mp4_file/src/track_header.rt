//! The track's header and its edit (ISO/IEC 14496-12, "Track Header Box" and "Edit List Box").

ghost use Rattle.std.specs.Prelude.{◌≡◌, ◌*◌, ◌==◌, ◌++◌, [], OnOk, codes};
ghost use Rattle.spec_files.specs.Pieces.{box, written};
ghost use Rattle.spec_files.specs.MovieFile.{tkhd_body, track_times, track_settings, edit, edts_body, elst_body, with_edit, count};
ghost use Rattle.mp4_file.specs.Views.{movie_of};

use crate::fields::{put_full, put_half, put_head, put_long, put_word};
use crate::movie::Movie;
use crate::movie_header::put_matrix;
use crate::sizes::{EDTS_LEN, has_edit};
use spec_boxes::{EDTS, ELST};
use std::alloc::AllocError;

#[tactic(auto, using(std::proofs::Common::append_assoc))]
fn put_track_times(out: &mut Vec<u8>, movie: &Movie<'_>) -> Result<(), AllocError>
    ensures { OnOk result (out.new.items ≡ out.old.items ++ track_times (movie_of movie.now)) }
{
    out.extend_from_slice(&[0; 16])?;
    put_word(out, 1)?;
    out.extend_from_slice(&[0; 4])?;
    put_long(out, movie.kept)
}

#[tactic(auto, using(std::proofs::Common::append_assoc))]
fn put_track_settings(out: &mut Vec<u8>) -> Result<(), AllocError>
    ensures { OnOk result (out.new.items ≡ out.old.items ++ track_settings) }
{
    out.extend_from_slice(&[0; 12])?;
    put_half(out, 0x100)?;
    out.extend_from_slice(&[0; 2])?;
    put_matrix(out)?;
    out.extend_from_slice(&[0; 8])
}

#[tactic(auto, using(std::proofs::Common::append_assoc), unfolding(spec_files::specs::MovieFile::tkhd_body))]
pub fn put_tkhd(out: &mut Vec<u8>, movie: &Movie<'_>) -> Result<(), AllocError>
    ensures { OnOk result (out.new.items ≡ out.old.items ++ box (codes "tkhd") (tkhd_body (movie_of movie.now))) }
{
    put_full(out, 104, b"tkhd", 0x100_0003)?;
    put_track_times(out, movie)?;
    put_track_settings(out)
}

#[tactic(auto, using(std::proofs::Common::append_assoc))]
fn put_edit(out: &mut Vec<u8>, movie: &Movie<'_>) -> Result<(), AllocError>
    ensures { OnOk result (out.new.items ≡ out.old.items ++ edit (movie_of movie.now)) }
{
    put_word(out, 1)?;
    put_long(out, movie.kept)?;
    put_long(out, movie.trimmed)?;
    put_half(out, 1)?;
    out.extend_from_slice(&[0; 2])?;
    Ok(())
}

#[tactic(auto, using(std::proofs::Common::append_assoc), unfolding(spec_files::specs::MovieFile::edts_body, spec_files::specs::MovieFile::elst_body))]
fn put_edit_boxes(out: &mut Vec<u8>, movie: &Movie<'_>) -> Result<(), AllocError>
    ensures { OnOk result (out.new.items ≡ out.old.items ++ box EDTS (edts_body (movie_of movie.now))) }
{
    put_head(out, EDTS_LEN, &EDTS)?;
    put_full(out, 36, &ELST, 0x100_0000)?;
    put_edit(out, movie)?;
    Ok(())
}

/// The edit, where some samples are trimmed.
pub fn put_edts(out: &mut Vec<u8>, movie: &Movie<'_>) -> Result<(), AllocError>
    ensures { OnOk result (out.new.items ≡ out.old.items ++ written (with_edit (movie.now.kept == count (movie_of movie.now) * movie.now.frame_length) (movie_of movie.now) [])) }
{
    if has_edit(movie) {
        put_edit_boxes(out, movie)?;
    }
    Ok(())
}
