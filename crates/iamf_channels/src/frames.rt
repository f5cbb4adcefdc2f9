//! Decodes the frames of a temporal unit into planes (IAMF 1.0.0, "LPCM Specific", "FLAC Specific").

ghost use Rattle.std.specs.Prelude.{◌≡◌, ◌≢◌, ℕ, ◌+◌, ◌<◌, ◌≤◌, ◌^◌, ℤ, pos, IsTrue, List, [], length, map, slice_index_or, unsigned_abs};
ghost use Rattle.spec_samples.specs.Lpcm.{is_depth};
ghost use Rattle.spec_flac.specs.Frame.{IsFrame};
ghost use Rattle.spec_play.specs.CodedSamples.{flac_rows};
ghost use Rattle.iamf_bits.specs.Rows.{sample_of};
ghost use Rattle.iamf_channels.specs.Heard.{codec_in, units_in, unit_in};
ghost use Rattle.spec_sequence.specs.ValueRole.{role_of_codec};
ghost use Rattle.spec_play.specs.Laws.{HasFrame};
ghost use Rattle.iamf_channels.specs.Decoded.{no_rows, IsStream, IsFrameBy, sample_by, Holds};

use flac_sub::{FlacShape, decode_frame};
use iamf_bits::Planes;
use iamf_mixing::read_lpcm;
use iamf_sequence::Sequence;
use obu_descriptors::{CodecConfig, Coding};

/// Decodes bytes that are one FLAC frame of the shape into rows of the same shape.
fn decode_flac(bytes: &[u8], shape: FlacShape, rows: &mut Planes)
    requires channels { IsStream shape.channels }
    requires depth { IsTrue (is_depth shape.depth) }
    requires rows { rows.old.channels ≡ shape.channels }
    requires length { rows.old.length ≡ shape.length }
    requires frame { (samples : List (List ℤ)) × IsFrame shape bytes.now samples }
    ensures samples { (c n : ℕ) → c < rows.old.channels → n < rows.old.length → sample_of rows.new c n ≡ slice_index_or (slice_index_or (flac_rows shape bytes.now) c []) n (pos 0) }
    ensures small { (c n : ℕ) → c < rows.old.channels → n < rows.old.length → unsigned_abs (sample_of rows.new c n) ≤ 2 ^ 31 }
    ensures channels { rows.new.channels ≡ rows.old.channels }
    ensures length { rows.new.length ≡ rows.old.length }
{
    match decode_frame(bytes, shape, rows) {
        Ok(()) => {}
        Err(_) => unreachable!(),
    }
}

/// Decodes bytes that are a frame of a substream into rows for its channels.
fn decode_into(codec: &CodecConfig<'_>, bytes: &[u8], rows: &mut Planes)
    requires length { rows.old.length ≡ codec.now.frame_length }
    requires whole { IsFrameBy codec.now.coding rows.old.length rows.old.channels bytes.now }
    ensures samples { (c n : ℕ) → c < rows.old.channels → n < rows.old.length → sample_of rows.new c n ≡ sample_by codec.now.coding rows.old.length rows.old.channels bytes.now n c }
    ensures small { (c n : ℕ) → c < rows.old.channels → n < rows.old.length → unsigned_abs (sample_of rows.new c n) ≤ 2 ^ 31 }
    ensures channels { rows.new.channels ≡ rows.old.channels }
    ensures length { rows.new.length ≡ rows.old.length }
{
    match codec.coding {
        Coding::Lpcm { little, depth, .. } => read_lpcm(bytes, little, depth, rows),
        Coding::Flac { depth, rate, .. } => {
            let shape = FlacShape {
                depth,
                rate,
                channels: rows.channels() as u8,
                length: codec.frame_length,
            };
            decode_flac(bytes, shape, rows);
        }
    }
}

/// Decodes the frame that unit `u` has of a substream into rows for its channels.
fn decode_stream(sequence: &Sequence<'_>, u: usize, substream: u32, rows: &mut Planes)
    requires unit { u < length (units_in sequence.now) }
    requires length { rows.old.length ≡ (codec_in sequence.now).num_samples_per_frame }
    requires depth { IsTrue (is_depth (role_of_codec (codec_in sequence.now)).depth) }
    requires whole { HasFrame (codec_in sequence.now) (unit_in sequence.now u) (substream, rows.old.channels) }
    ensures holds { Holds (codec_in sequence.now) (unit_in sequence.now u) substream rows.new }
    ensures channels { rows.new.channels ≡ rows.old.channels }
    ensures length { rows.new.length ≡ rows.old.length }
{
    match sequence.unit(u).frame(substream) {
        Some(frame) => decode_into(sequence.codec(), frame.bytes, rows),
        None => unreachable!(),
    }
}

/// Decodes the frames that unit `u` has of the first substreams, each into its planes.
pub(crate) fn decode_unit(
    sequence: &Sequence<'_>,
    u: usize,
    substreams: &[u32],
    planes: &mut [Planes],
)
    requires unit { u < length (units_in sequence.now) }
    requires count { length planes.old ≤ length substreams.now }
    requires lengths { (i : ℕ) → i < length planes.old → (slice_index_or planes.old i no_rows).length ≡ (codec_in sequence.now).num_samples_per_frame }
    requires depth { IsTrue (is_depth (role_of_codec (codec_in sequence.now)).depth) }
    requires whole { (i : ℕ) → i < length planes.old → HasFrame (codec_in sequence.now) (unit_in sequence.now u) (slice_index_or substreams.now i 0, (slice_index_or planes.old i no_rows).channels) }
    ensures holds { (i : ℕ) → i < length planes.old → Holds (codec_in sequence.now) (unit_in sequence.now u) (slice_index_or substreams.now i 0) (slice_index_or planes.new i no_rows) }
    ensures channels { map (λ p. p.channels) planes.new ≡ map (λ p. p.channels) planes.old }
    ensures lengths { map (λ p. p.length) planes.new ≡ map (λ p. p.length) planes.old }
{
    for i in 0..planes.len() {
        decode_stream(sequence, u, substreams[i], &mut planes[i]);
    }
}
