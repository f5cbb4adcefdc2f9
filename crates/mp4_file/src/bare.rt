//! The bare sequence of a track.

ghost use Rattle.std.specs.Prelude.{◌≡◌, ◌<◌, ◌^◌, ◌++◌, length, OnOk, IfOk};
ghost use Rattle.std.specs.List.{flat_map};
ghost use Rattle.spec_files.specs.Body.{rebuilt, marked};
ghost use Rattle.mp4_boxes.specs.TrackViews.{track_seen, samples_left};

use mp4_boxes::{Samples, Track};
use std::alloc::{AllocError, Global};

/// A temporal delimiter (IAMF 1.0.0, "Temporal Delimiter OBU").
pub const DELIMITER: [u8; 2] = [0x20, 0x00];

// How many bytes the samples have.
fn samples_len(samples: &Samples<'_>) -> usize {
    let mut rest = *samples;
    let mut total = 0usize;
    while let Some(bytes) = rest.next_sample() {
        total = total.saturating_add(bytes.len());
    }
    total
}

// Each sample after a delimiter.
fn put_samples(out: &mut Vec<u8>, samples: &Samples<'_>) -> Result<(), AllocError>
    ensures { OnOk result (out.new.items ≡ out.old.items ++ flat_map marked (samples_left samples.now)) }
{
    let mut rest = *samples;
    while let Some(bytes) = rest.next_sample() {
        out.extend_from_slice(&DELIMITER)?;
        out.extend_from_slice(bytes)?;
    }
    Ok(())
}

/// The bare sequence of a track: its descriptors, and each sample as a temporal unit after its delimiter. The
/// memory is taken at once.
///
/// # Errors
///
/// Want of memory alone.
#[tactic(auto, unfolding(spec_files::specs::Body::rebuilt))]
pub fn rebuild(alloc: Global, track: &Track<'_>) -> Result<Vec<u8>, AllocError>
    ensures bytes { IfOk result (λ v. v.items ≡ rebuilt (track_seen track.now).config (track_seen track.now).samples) }
    ensures few { OnOk result (length (track_seen track.now).samples < 2 ^ 32) }
{
    let samples = track.samples();
    let config = track.config();
    let delimiters = DELIMITER.len() * track.sample_count() as usize;
    let room = config
        .len()
        .saturating_add(delimiters)
        .saturating_add(samples_len(&samples));
    let mut out = Vec::with_capacity(alloc, room)?;
    out.extend_from_slice(config)?;
    put_samples(&mut out, &samples)?;
    Ok(out)
}
