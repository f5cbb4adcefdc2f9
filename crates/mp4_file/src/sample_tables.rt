//! The tables of samples (ISO/IEC 14496-12, "Decoding Time to Sample Box", "Sample To Chunk Box", "Sample Size Box"
//! and "Chunk Offset Box"): all units are samples of one chunk.

ghost use Rattle.std.specs.Prelude.{◌≡◌, ◌++◌, OnOk};
ghost use Rattle.std.specs.List.{flat_map};
ghost use Rattle.spec_files.specs.Pieces.{box, word};
ghost use Rattle.spec_files.specs.MovieFile.{stts_body, stsc_body, stsz_body, stco_body};
ghost use Rattle.mp4_file.specs.Views.{movie_of};

use crate::fields::{put_full, put_word};
use crate::movie::Movie;
use crate::sizes::{stsz_len, unit_count};
use spec_boxes::{STCO, STSC, STSZ, STTS};
use std::alloc::AllocError;

pub fn put_stts(out: &mut Vec<u8>, movie: &Movie<'_>) -> Result<(), AllocError>
    ensures { OnOk result (out.new.items ≡ out.old.items ++ box STTS (stts_body (movie_of movie.now))) }
{
    if movie.unit_lengths.is_empty() {
        put_full(out, 16, &STTS, 0)?;
        put_word(out, 0)?;
        return Ok(());
    }
    put_full(out, 24, &STTS, 0)?;
    put_word(out, 1)?;
    put_word(out, unit_count(movie))?;
    put_word(out, movie.frame_length)?;
    Ok(())
}

pub fn put_stsc(out: &mut Vec<u8>, movie: &Movie<'_>) -> Result<(), AllocError>
    ensures { OnOk result (out.new.items ≡ out.old.items ++ box STSC (stsc_body (movie_of movie.now))) }
{
    if movie.unit_lengths.is_empty() {
        put_full(out, 16, &STSC, 0)?;
        put_word(out, 0)?;
        return Ok(());
    }
    put_full(out, 28, &STSC, 0)?;
    put_word(out, 1)?;
    put_word(out, 1)?;
    put_word(out, unit_count(movie))?;
    put_word(out, 1)?;
    Ok(())
}

fn put_lengths(out: &mut Vec<u8>, lengths: &[u32]) -> Result<(), AllocError>
    ensures { OnOk result (out.new.items ≡ out.old.items ++ flat_map word lengths.now) }
{
    for length in lengths {
        put_word(out, *length)?;
    }
    Ok(())
}

pub fn put_stsz(out: &mut Vec<u8>, movie: &Movie<'_>) -> Result<(), AllocError>
    ensures { OnOk result (out.new.items ≡ out.old.items ++ box STSZ (stsz_body (movie_of movie.now))) }
{
    put_full(out, stsz_len(movie), &STSZ, 0)?;
    put_word(out, 0)?;
    put_word(out, unit_count(movie))?;
    put_lengths(out, movie.unit_lengths)?;
    Ok(())
}

/// The place of the one chunk.
pub fn put_stco(out: &mut Vec<u8>, movie: &Movie<'_>, place: u32) -> Result<(), AllocError>
    ensures { OnOk result (out.new.items ≡ out.old.items ++ box STCO (stco_body (movie_of movie.now) place)) }
{
    if movie.unit_lengths.is_empty() {
        put_full(out, 16, &STCO, 0)?;
        put_word(out, 0)?;
        return Ok(());
    }
    put_full(out, 20, &STCO, 0)?;
    put_word(out, 1)?;
    put_word(out, place)?;
    Ok(())
}
