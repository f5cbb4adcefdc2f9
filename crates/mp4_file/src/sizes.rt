//! The sizes of the boxes in bytes, headers and all, before they are written.

ghost use Rattle.std.specs.Prelude.{◌≡◌, ◌↔◌, ℕ, ◌+◌, ◌*◌, ◌==◌, ◌++◌, ◌<◌, ◌≤◌, ◌^◌, List, [], length, IsTrue, true, false};
ghost use Rattle.spec_bits.specs.Leb.{leb_bytes};
ghost use Rattle.spec_files.specs.Pieces.{written};
ghost use Rattle.spec_files.specs.MovieFile.{count, all_units, rows, with_edit, iacb_body, entry_body, stsd_body, stbl_body, minf_body, mdia_body, trak_body, moov_body};
ghost use Rattle.mp4_file.specs.Slices.{joined};
ghost use Rattle.mp4_file.specs.Views.{movie_of};

use crate::movie::Movie;

/// An `edts` box with one edit.
pub const EDTS_LEN: u32 = 44;

/// How many units there are.
pub fn unit_count(movie: &Movie<'_>) -> u32
    ensures exact { result ≡ length movie.now.unit_lengths.now }
    ensures count { result ≡ count (movie_of movie.now) }
    ensures small { result ≤ 2 ^ 29 }
{
    movie.unit_lengths.len() as u32
}

/// How many samples, per channel, all units have.
pub fn all_samples(movie: &Movie<'_>) -> u64
    ensures { result ≡ count (movie_of movie.now) * movie.now.frame_length }
{
    u64::from(unit_count(movie)) * u64::from(movie.frame_length)
}

/// Whether some samples are trimmed.
pub fn has_edit(movie: &Movie<'_>) -> bool
    ensures trimmed { result ≡ true → (movie.now.kept == count (movie_of movie.now) * movie.now.frame_length) ≡ false }
    ensures whole { result ≡ false → (movie.now.kept == count (movie_of movie.now) * movie.now.frame_length) ≡ true }
{
    movie.kept != all_samples(movie)
}

// How many bytes slices have together.
fn joined_len(pieces: &[&[u8]]) -> u32
    requires { length (joined pieces.now) ≤ 2 ^ 30 }
    ensures { result ≡ length (joined pieces.now) }
{
    let mut total = 0;
    for piece in pieces {
        total += piece.len() as u32;
    }
    total
}

/// The bytes of the descriptors.
pub fn descriptors_len(movie: &Movie<'_>) -> u32
    ensures exact { result ≡ length (joined movie.now.descriptors.now) }
    ensures small { result ≤ 2 ^ 30 }
{
    joined_len(movie.descriptors)
}

/// The bytes of the units.
pub fn data_len(movie: &Movie<'_>) -> u32
    ensures exact { result ≡ length (all_units (movie_of movie.now)) }
    ensures small { result + length (joined movie.now.descriptors.now) ≤ 2 ^ 30 }
{
    joined_len(movie.data)
}

// The bytes of a number in the shortest leb128.
#[tactic(auto, unfolding(spec_bits::specs::Leb::leb_bytes))]
fn leb_len(x: u32) -> u32
    ensures exact { result ≡ length (leb_bytes x) }
    ensures few { result ≤ 5 }
{
    if x < 0x80 {
        1
    } else if x < 0x4000 {
        2
    } else if x < 0x20_0000 {
        3
    } else if x < 0x1000_0000 {
        4
    } else {
        5
    }
}

pub fn iacb_len(movie: &Movie<'_>) -> u32
    ensures exact { result ≡ 8 + length (iacb_body (movie_of movie.now)) }
    ensures small { result ≤ length (joined movie.now.descriptors.now) + 14 }
{
    let descriptors = descriptors_len(movie);
    9 + leb_len(descriptors) + descriptors
}

pub fn entry_len(movie: &Movie<'_>) -> u32
    ensures exact { result ≡ 8 + length (entry_body (movie_of movie.now)) }
    ensures small { result ≤ length (joined movie.now.descriptors.now) + 50 }
{
    36 + iacb_len(movie)
}

pub fn stsd_len(movie: &Movie<'_>) -> u32
    ensures exact { result ≡ 8 + length (stsd_body (movie_of movie.now)) }
    ensures small { result ≤ length (joined movie.now.descriptors.now) + 66 }
{
    16 + entry_len(movie)
}

// A table with one row, which has none where there are no units.
fn table_len(movie: &Movie<'_>, row: u32) -> u32
    requires { row ≤ 12 }
    ensures exact { (bytes : List ℕ) → length bytes ≡ row → result ≡ 12 + length (rows (count (movie_of movie.now) == 0) bytes) }
    ensures small { result ≤ 16 + row }
{
    if movie.unit_lengths.is_empty() {
        16
    } else {
        16 + row
    }
}

pub fn stsz_len(movie: &Movie<'_>) -> u32
    ensures exact { result ≡ 20 + 4 * count (movie_of movie.now) }
    ensures size { result ≡ 20 + 4 * length movie.now.unit_lengths.now }
{
    20 + 4 * unit_count(movie)
}

pub fn stbl_len(movie: &Movie<'_>) -> u32
    ensures exact { (place : ℕ) → result ≡ 8 + length (stbl_body (movie_of movie.now) place) }
    ensures small { result ≤ length (joined movie.now.descriptors.now) + 4 * length movie.now.unit_lengths.now + 166 }
{
    8 + stsd_len(movie)
        + table_len(movie, 8)
        + table_len(movie, 12)
        + stsz_len(movie)
        + table_len(movie, 4)
}

pub fn minf_len(movie: &Movie<'_>) -> u32
    ensures exact { (place : ℕ) → result ≡ 8 + length (minf_body (movie_of movie.now) place) }
    ensures small { result ≤ length (joined movie.now.descriptors.now) + 4 * length movie.now.unit_lengths.now + 226 }
{
    60 + stbl_len(movie)
}

pub fn mdia_len(movie: &Movie<'_>) -> u32
    ensures exact { (place : ℕ) → result ≡ 8 + length (mdia_body (movie_of movie.now) place) }
    ensures small { result ≤ length (joined movie.now.descriptors.now) + 4 * length movie.now.unit_lengths.now + 311 }
{
    85 + minf_len(movie)
}

// The edit, where some samples are trimmed.
fn edts_len(movie: &Movie<'_>) -> u32
    ensures exact { result ≡ length (written (with_edit (movie.now.kept == count (movie_of movie.now) * movie.now.frame_length) (movie_of movie.now) [])) }
    ensures small { result ≤ EDTS_LEN }
{
    if has_edit(movie) { EDTS_LEN } else { 0 }
}

pub fn trak_len(movie: &Movie<'_>) -> u32
    ensures exact { (place : ℕ) → result ≡ 8 + length (trak_body (movie_of movie.now) place) }
    ensures small { result ≤ length (joined movie.now.descriptors.now) + 4 * length movie.now.unit_lengths.now + 467 }
{
    112 + edts_len(movie) + mdia_len(movie)
}

pub fn moov_len(movie: &Movie<'_>) -> u32
    ensures exact { (place : ℕ) → result ≡ 8 + length (moov_body (movie_of movie.now) place) }
    ensures small { result ≤ length (joined movie.now.descriptors.now) + 4 * length movie.now.unit_lengths.now + 595 }
{
    128 + trak_len(movie)
}
