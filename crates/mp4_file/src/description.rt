//! The sample description (ISO/IEC 14496-12, "Sample Description Box"; IAMF 1.0.0, "IA Sample Entry" and "IA
//! Configuration Box").

ghost use Rattle.std.specs.Prelude.{◌≡◌, ◌++◌, OnOk};
ghost use Rattle.spec_files.specs.Pieces.{box};
ghost use Rattle.spec_files.specs.MovieFile.{iacb_body, entry_fields, stsd_body};
ghost use Rattle.mp4_file.specs.Views.{movie_of};

use crate::fields::{put_full, put_half, put_head, put_leb, put_pieces, put_word};
use crate::movie::Movie;
use crate::sizes::{descriptors_len, entry_len, iacb_len, stsd_len};
use spec_boxes::{IACB, IAMF, STSD};
use std::alloc::AllocError;

#[tactic(auto, using(std::proofs::Common::append_assoc))]
fn put_entry_fields(out: &mut Vec<u8>) -> Result<(), AllocError>
    ensures { OnOk result (out.new.items ≡ out.old.items ++ entry_fields) }
{
    out.extend_from_slice(&[0; 6])?;
    // Which data reference, and bits of a sample.
    put_half(out, 1)?;
    out.extend_from_slice(&[0; 10])?;
    put_half(out, 16)?;
    out.extend_from_slice(&[0; 8])
}

fn put_iacb(out: &mut Vec<u8>, movie: &Movie<'_>) -> Result<(), AllocError>
    ensures { OnOk result (out.new.items ≡ out.old.items ++ box IACB (iacb_body (movie_of movie.now))) }
{
    put_head(out, iacb_len(movie), &IACB)?;
    out.push(1)?;
    put_leb(out, descriptors_len(movie))?;
    put_pieces(out, movie.descriptors)?;
    Ok(())
}

/// The description of the samples, with the descriptors.
pub fn put_stsd(out: &mut Vec<u8>, movie: &Movie<'_>) -> Result<(), AllocError>
    ensures { OnOk result (out.new.items ≡ out.old.items ++ box STSD (stsd_body (movie_of movie.now))) }
{
    put_full(out, stsd_len(movie), &STSD, 0)?;
    put_word(out, 1)?;
    put_head(out, entry_len(movie), &IAMF)?;
    put_entry_fields(out)?;
    put_iacb(out, movie)?;
    Ok(())
}
