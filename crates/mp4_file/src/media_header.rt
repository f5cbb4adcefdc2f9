//! The media's headers (ISO/IEC 14496-12, "Media Header Box", "Handler Reference Box", "Sound Media Header Box" and
//! "Data Reference Box").

ghost use Rattle.std.specs.Prelude.{◌≡◌, ◌++◌, OnOk, codes};
ghost use Rattle.spec_files.specs.Pieces.{box};
ghost use Rattle.spec_files.specs.MovieFile.{mdhd_body, hdlr_body, smhd_body, dinf_body};
ghost use Rattle.mp4_file.specs.Views.{movie_of};

use crate::fields::{put_full, put_half, put_head, put_long, put_word};
use crate::movie::Movie;
use crate::sizes::all_samples;
use std::alloc::AllocError;

#[tactic(auto, using(std::proofs::Common::append_assoc), unfolding(spec_files::specs::MovieFile::mdhd_body))]
pub fn put_mdhd(out: &mut Vec<u8>, movie: &Movie<'_>) -> Result<(), AllocError>
    ensures { OnOk result (out.new.items ≡ out.old.items ++ box (codes "mdhd") (mdhd_body (movie_of movie.now))) }
{
    put_full(out, 44, b"mdhd", 0x100_0000)?;
    out.extend_from_slice(&[0; 16])?;
    put_word(out, movie.sample_rate)?;
    put_long(out, all_samples(movie))?;
    // The language `und`.
    put_half(out, 0x55c4)?;
    out.extend_from_slice(&[0; 2])?;
    Ok(())
}

#[tactic(auto, using(std::proofs::Common::append_assoc), unfolding(spec_files::specs::MovieFile::hdlr_body))]
pub fn put_hdlr(out: &mut Vec<u8>) -> Result<(), AllocError>
    ensures { OnOk result (out.new.items ≡ out.old.items ++ box (codes "hdlr") hdlr_body) }
{
    put_full(out, 33, b"hdlr", 0)?;
    out.extend_from_slice(&[0; 4])?;
    out.extend_from_slice(b"soun")?;
    out.extend_from_slice(&[0; 13])
}

#[tactic(auto, using(std::proofs::Common::append_assoc), unfolding(spec_files::specs::MovieFile::smhd_body))]
pub fn put_smhd(out: &mut Vec<u8>) -> Result<(), AllocError>
    ensures { OnOk result (out.new.items ≡ out.old.items ++ box (codes "smhd") smhd_body) }
{
    put_full(out, 16, b"smhd", 0)?;
    out.extend_from_slice(&[0; 4])
}

/// The media is in the same file.
#[tactic(auto, using(std::proofs::Common::append_assoc), unfolding(spec_files::specs::MovieFile::dinf_body))]
pub fn put_dinf(out: &mut Vec<u8>) -> Result<(), AllocError>
    ensures { OnOk result (out.new.items ≡ out.old.items ++ box (codes "dinf") dinf_body) }
{
    put_head(out, 36, b"dinf")?;
    put_full(out, 28, b"dref", 0)?;
    put_word(out, 1)?;
    put_full(out, 12, b"url ", 1)?;
    Ok(())
}
