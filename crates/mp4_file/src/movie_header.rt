//! The brands and the movie's header (ISO/IEC 14496-12, "File Type Box" and "Movie Header Box").

ghost use Rattle.std.specs.Prelude.{◌≡◌, ◌++◌, OnOk, codes};
ghost use Rattle.spec_files.specs.Pieces.{box};
ghost use Rattle.spec_files.specs.MovieFile.{ftyp_body, mvhd_body, matrix, movie_times, movie_settings};
ghost use Rattle.mp4_file.specs.Views.{movie_of};

use crate::fields::{put_full, put_half, put_head, put_long, put_word};
use crate::movie::Movie;
use std::alloc::AllocError;

#[tactic(auto, using(std::proofs::Common::append_assoc), unfolding(spec_files::specs::MovieFile::ftyp_body))]
pub fn put_ftyp(out: &mut Vec<u8>) -> Result<(), AllocError>
    ensures { OnOk result (out.new.items ≡ out.old.items ++ box (codes "ftyp") ftyp_body) }
{
    put_head(out, 24, b"ftyp")?;
    out.extend_from_slice(b"iso6")?;
    out.extend_from_slice(&[0; 4])?;
    out.extend_from_slice(b"iso6")?;
    out.extend_from_slice(b"iamf")
}

/// The unit matrix.
#[tactic(auto, using(std::proofs::Common::append_assoc))]
pub fn put_matrix(out: &mut Vec<u8>) -> Result<(), AllocError>
    ensures { OnOk result (out.new.items ≡ out.old.items ++ matrix) }
{
    put_word(out, 0x1_0000)?;
    out.extend_from_slice(&[0; 12])?;
    put_word(out, 0x1_0000)?;
    out.extend_from_slice(&[0; 12])?;
    put_word(out, 0x4000_0000)
}

#[tactic(auto, using(std::proofs::Common::append_assoc))]
fn put_movie_times(out: &mut Vec<u8>, movie: &Movie<'_>) -> Result<(), AllocError>
    ensures { OnOk result (out.new.items ≡ out.old.items ++ movie_times (movie_of movie.now)) }
{
    out.extend_from_slice(&[0; 16])?;
    put_word(out, movie.sample_rate)?;
    put_long(out, movie.kept)
}

#[tactic(auto, using(std::proofs::Common::append_assoc))]
fn put_movie_settings(out: &mut Vec<u8>) -> Result<(), AllocError>
    ensures { OnOk result (out.new.items ≡ out.old.items ++ movie_settings) }
{
    put_word(out, 0x1_0000)?;
    put_half(out, 0x100)?;
    out.extend_from_slice(&[0; 10])?;
    put_matrix(out)?;
    out.extend_from_slice(&[0; 24])?;
    put_word(out, 2)
}

#[tactic(auto, using(std::proofs::Common::append_assoc), unfolding(spec_files::specs::MovieFile::mvhd_body))]
pub fn put_mvhd(out: &mut Vec<u8>, movie: &Movie<'_>) -> Result<(), AllocError>
    ensures { OnOk result (out.new.items ≡ out.old.items ++ box (codes "mvhd") (mvhd_body (movie_of movie.now))) }
{
    put_full(out, 120, b"mvhd", 0x100_0000)?;
    put_movie_times(out, movie)?;
    put_movie_settings(out)
}
