//! The file.

ghost use Rattle.std.specs.Prelude.{◌≡◌, ◌+◌, ◌*◌, ◌≤◌, ◌++◌, length, OnOk, IfOk};
ghost use Rattle.spec_boxes.specs.Laws.{Holds};
ghost use Rattle.spec_files.specs.MovieFile.{moov_body, file};
ghost use Rattle.spec_files.specs.Body.{IsBody};
ghost use Rattle.mp4_file.specs.Slices.{joined};
ghost use Rattle.mp4_file.specs.Views.{movie_of};

use crate::containers::put_moov;
use crate::fields::{put_head, put_pieces};
use crate::movie::Movie;
use crate::movie_header::put_ftyp;
use crate::sizes::{data_len, moov_len};
use std::alloc::{AllocError, Global};

// In bytes: `ftyp`, and the header of `mdat`.
const FTYP_LEN: u32 = 24;

const HEADER_LEN: u32 = 8;

// In bytes: all that stands before the data.
fn front_len(movie: &Movie<'_>) -> u32
    ensures exact { result ≡ 40 + length (moov_body (movie_of movie.now) 0) }
    ensures small { result ≤ length (joined movie.now.descriptors.now) + 4 * length movie.now.unit_lengths.now + 627 }
{
    FTYP_LEN + moov_len(movie) + HEADER_LEN
}

// All that stands before the data.
fn put_front(out: &mut Vec<u8>, movie: &Movie<'_>) -> Result<(), AllocError>
    ensures { OnOk result (out.new.items ++ joined movie.now.data.now ≡ out.old.items ++ file (movie_of movie.now)) }
{
    put_ftyp(out)?;
    put_moov(out, movie, front_len(movie))?;
    put_head(out, HEADER_LEN + data_len(movie), b"mdat")?;
    Ok(())
}

fn put_file(alloc: Global, movie: &Movie<'_>) -> Result<Vec<u8>, AllocError>
    ensures { IfOk result (λ v. v.items ≡ file (movie_of movie.now)) }
{
    let len = front_len(movie) + data_len(movie);
    let mut out = Vec::with_capacity(alloc, len as usize)?;
    put_front(&mut out, movie)?;
    put_pieces(&mut out, movie.data)?;
    Ok(out)
}

/// All of a movie's file that stands before its data: the tables, and the header of the data, which then ends the file.
///
/// # Errors
///
/// Want of memory alone.
pub fn write_front(alloc: Global, movie: &Movie<'_>) -> Result<Vec<u8>, AllocError>
    ensures { IfOk result (λ v. v.items ++ joined movie.now.data.now ≡ file (movie_of movie.now)) }
{
    let mut out = Vec::with_capacity(alloc, front_len(movie) as usize)?;
    put_front(&mut out, movie)?;
    Ok(out)
}

/// The MP4 file of a movie, with the tables before the data, and each unit a sample of one chunk. All sizes are
/// known before, and the memory is taken at once.
///
/// The file holds the descriptors and the units wherever the former are whole descriptors and the latter whole
/// parameter blocks and audio frames.
///
/// # Errors
///
/// Want of memory alone.
pub fn write_movie(alloc: Global, movie: &Movie<'_>) -> Result<Vec<u8>, AllocError>
    ensures file { IfOk result (λ v. v.items ≡ file (movie_of movie.now)) }
    ensures holds { IfOk result (λ v. IsBody (movie_of movie.now).descriptors (movie_of movie.now).units → Holds v.items (movie_of movie.now).descriptors (movie_of movie.now).units) }
{
    put_file(alloc, movie)
}
