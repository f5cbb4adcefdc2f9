//! The boxes that hold the others (ISO/IEC 14496-12, "Movie Box" to "Sample Table Box").

ghost use Rattle.std.specs.Prelude.{◌≡◌, ◌++◌, OnOk};
ghost use Rattle.spec_files.specs.Pieces.{box};
ghost use Rattle.spec_files.specs.MovieFile.{stbl_body, minf_body, mdia_body, trak_body, moov_body};
ghost use Rattle.mp4_file.specs.Views.{movie_of};

use crate::description::put_stsd;
use crate::fields::put_head;
use crate::media_header::{put_dinf, put_hdlr, put_mdhd, put_smhd};
use crate::movie::Movie;
use crate::movie_header::put_mvhd;
use crate::sample_tables::{put_stco, put_stsc, put_stsz, put_stts};
use crate::sizes::{mdia_len, minf_len, moov_len, stbl_len, trak_len};
use crate::track_header::{put_edts, put_tkhd};
use spec_boxes::{MDIA, MINF, MOOV, STBL, TRAK};
use std::alloc::AllocError;

fn put_stbl(out: &mut Vec<u8>, movie: &Movie<'_>, place: u32) -> Result<(), AllocError>
    ensures { OnOk result (out.new.items ≡ out.old.items ++ box STBL (stbl_body (movie_of movie.now) place)) }
{
    put_head(out, stbl_len(movie), &STBL)?;
    put_stsd(out, movie)?;
    put_stts(out, movie)?;
    put_stsc(out, movie)?;
    put_stsz(out, movie)?;
    put_stco(out, movie, place)?;
    Ok(())
}

fn put_minf(out: &mut Vec<u8>, movie: &Movie<'_>, place: u32) -> Result<(), AllocError>
    ensures { OnOk result (out.new.items ≡ out.old.items ++ box MINF (minf_body (movie_of movie.now) place)) }
{
    put_head(out, minf_len(movie), &MINF)?;
    put_smhd(out)?;
    put_dinf(out)?;
    put_stbl(out, movie, place)?;
    Ok(())
}

fn put_mdia(out: &mut Vec<u8>, movie: &Movie<'_>, place: u32) -> Result<(), AllocError>
    ensures { OnOk result (out.new.items ≡ out.old.items ++ box MDIA (mdia_body (movie_of movie.now) place)) }
{
    put_head(out, mdia_len(movie), &MDIA)?;
    put_mdhd(out, movie)?;
    put_hdlr(out)?;
    put_minf(out, movie, place)?;
    Ok(())
}

fn put_trak(out: &mut Vec<u8>, movie: &Movie<'_>, place: u32) -> Result<(), AllocError>
    ensures { OnOk result (out.new.items ≡ out.old.items ++ box TRAK (trak_body (movie_of movie.now) place)) }
{
    put_head(out, trak_len(movie), &TRAK)?;
    put_tkhd(out, movie)?;
    put_edts(out, movie)?;
    put_mdia(out, movie, place)?;
    Ok(())
}

/// The movie, whose one chunk lies at the place.
pub fn put_moov(out: &mut Vec<u8>, movie: &Movie<'_>, place: u32) -> Result<(), AllocError>
    ensures { OnOk result (out.new.items ≡ out.old.items ++ box MOOV (moov_body (movie_of movie.now) place)) }
{
    put_head(out, moov_len(movie), &MOOV)?;
    put_mvhd(out, movie)?;
    put_trak(out, movie, place)?;
    Ok(())
}
