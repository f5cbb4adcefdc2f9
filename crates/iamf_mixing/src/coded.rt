//! Coded samples of a frame, in rows of planes, and those of a tick.

ghost use Rattle.std.specs.Prelude.{◌≡◌, ℕ, ◌+◌, ◌<◌, ◌≤◌, ◌++◌, All, IsTrue, length, map, pos, slice_index_or, sum_by, take, drop};
ghost use Rattle.std.specs.List.{flat_map};
ghost use Rattle.iamf_bits.specs.Rows.{sample_of};
ghost use Rattle.spec_samples.specs.Lpcm.{frame_bytes, is_depth, sample};
ghost use Rattle.iamf_mixing.specs.Ticks.{tick_of};

use iamf_bits::Planes;
use lpcm_sub::sample;

/// Reads channel `c` of a frame of linear PCM of so many channels into a row.
#[inline(always)]
fn read_row(bytes: &[u8], little: bool, depth: u8, channels: usize, c: usize, row: &mut [i64])
    requires depth { IsTrue (is_depth depth) }
    requires channel { c < channels }
    requires whole { length bytes.now ≡ frame_bytes (length row.old) channels depth }
    ensures { (n : ℕ) → n < length row.old → slice_index_or row.new n (pos 0) ≡ sample bytes.now little depth channels n c }
{
    for n in 0..row.len() {
        let value = sample(bytes, little, depth, channels, n, c);
        row[n] = i64::from(value);
    }
}

/// Reads each channel of a frame of linear PCM into its row. Where the order and the depth are literals, the code is made for
/// them.
#[inline(always)]
fn read_rows(bytes: &[u8], little: bool, depth: u8, rows: &mut Planes)
    requires depth { IsTrue (is_depth depth) }
    requires whole { length bytes.now ≡ frame_bytes rows.old.length rows.old.channels depth }
    ensures samples { (c n : ℕ) → c < rows.old.channels → n < rows.old.length → sample_of rows.new c n ≡ sample bytes.now little depth rows.old.channels n c }
    ensures channels { rows.new.channels ≡ rows.old.channels }
    ensures length { rows.new.length ≡ rows.old.length }
{
    let channels = rows.channels();
    let ticks = rows.length();
    let samples = rows.samples_mut();
    for c in 0..channels {
        let row = &mut samples[c * ticks..(c + 1) * ticks];
        read_row(bytes, little, depth, channels, c, row);
    }
}

/// Reads a frame of a depth in one of the byte orders.
#[inline(always)]
fn read_depth(bytes: &[u8], little: bool, depth: u8, rows: &mut Planes)
    requires depth { IsTrue (is_depth depth) }
    requires whole { length bytes.now ≡ frame_bytes rows.old.length rows.old.channels depth }
    ensures samples { (c n : ℕ) → c < rows.old.channels → n < rows.old.length → sample_of rows.new c n ≡ sample bytes.now little depth rows.old.channels n c }
    ensures channels { rows.new.channels ≡ rows.old.channels }
    ensures length { rows.new.length ≡ rows.old.length }
{
    match depth {
        16 => read_rows(bytes, little, 16, rows),
        24 => read_rows(bytes, little, 24, rows),
        _ => read_rows(bytes, little, 32, rows),
    }
}

/// Reads a frame of linear PCM (IAMF 1.0.0, "LPCM Specific") into planes with a row for each of its channels. The frame has the
/// bytes of so many samples of 16, 24 or 32 bits.
pub fn read_lpcm(bytes: &[u8], little: bool, depth: u8, rows: &mut Planes)
    requires depth { IsTrue (is_depth depth) }
    requires whole { length bytes.now ≡ frame_bytes rows.old.length rows.old.channels depth }
    ensures samples { (c n : ℕ) → c < rows.old.channels → n < rows.old.length → sample_of rows.new c n ≡ sample bytes.now little depth rows.old.channels n c }
    ensures channels { rows.new.channels ≡ rows.old.channels }
    ensures length { rows.new.length ≡ rows.old.length }
{
    if little {
        read_depth(bytes, true, depth, rows);
    } else {
        read_depth(bytes, false, depth, rows);
    }
}

/// Writes the samples of a tick in each row of the planes to a place of a row and the places after it.
fn put_tick(planes: &Planes, n: usize, at: usize, row: &mut [i64])
    requires within { n < planes.now.length }
    requires room { at + planes.now.channels ≤ length row.old }
    ensures { row.new ≡ take at row.old ++ (tick_of n planes.now ++ drop (at + planes.now.channels) row.old) }
{
    match planes.channels() {
        1 => row[at] = planes.at(0, n),
        2 => {
            row[at] = planes.at(0, n);
            row[at + 1] = planes.at(1, n);
        }
        channels => {
            for c in 0..channels {
                row[at + c] = planes.at(c, n);
            }
        }
    }
}

/// Writes the samples of tick `n` into a row: those of each row of each of the planes, in their order. The row has a place for
/// each.
pub fn coded_row(planes: &[Planes], n: usize, row: &mut [i64])
    requires within { All (λ p. n < p.length) planes.now }
    requires room { length row.old ≡ sum_by (λ p. p.channels) planes.now }
    ensures { row.new ≡ flat_map (tick_of n) planes.now }
{
    let mut at = 0;
    for substream in planes {
        put_tick(substream, n, at, row);
        at += substream.channels();
    }
}
