//! The gains of the ticks of a temporal unit (IAMF 1.0.0, "Parameter Block OBU Syntax and Semantics").

ghost use Rattle.std.specs.Prelude.{◌≡◌, ℕ, ◌+◌, ◌*◌, ◌^◌, ◌<◌, ◌≤◌, true, length, slice_index, slice_index_or, IfOk};
ghost use Rattle.spec_rules.specs.Units.{unit_count};
ghost use Rattle.spec_sequence.specs.Parts.{BlockValue, temporal_units};
ghost use Rattle.spec_sequence.specs.Reading.{values_of, roles};
ghost use Rattle.obu_data.specs.BlockView.{view_block};
ghost use Rattle.obu_mix_elements.specs.MixGainView.{view_mix_gain};
ghost use Rattle.spec_play.specs.Mixes.{Rendition, unit_length, unit_of};
ghost use Rattle.iamf_mixing.specs.Tracks.{IsOn, IsFilled, HasGains};
ghost use Rattle.iamf_sequence.specs.UnitView.{IsUnit};
ghost use Rattle.iamf_play.specs.Rows.{Took};

use iamf_mixing::{GainTrack, gain_block};
use iamf_sequence::{Sequence, Unit};
use obu_data::ParameterBlock;
use obu_mix::MixGain;
use std::alloc::{AllocError, Global};

/// Takes the next block of a track into the row of the ticks of unit `u`. Answers whether the track has passed the block; if
/// not, the row is complete.
fn take_block(
    track: &mut GainTrack,
    gain: &MixGain,
    block: &ParameterBlock<'_>,
    u: usize,
    row: &mut [u64],
) -> bool
    requires small { (u + 1) * length row.old < 2 ^ 60 }
    requires unit { track.old.unit ≤ u }
    requires end { track.old.end ≤ (u + 1) * length row.old }
    requires block { track.old.block < 2 ^ 63 }
    ensures takes { (r : Rendition) (b : BlockValue) → unit_length r ≡ length row.old → b.fields ≡ view_block block.now
        → track.old.block < length (unit_of r track.old.unit).blocks → b ≡ slice_index_or (unit_of r track.old.unit).blocks track.old.block b
        → IsFilled r (view_mix_gain gain.now) u row.old track.old → Took result r (view_mix_gain gain.now) u row.new track.new }
    ensures end { track.new.end ≤ (u + 1) * length row.old }
    ensures unit { track.new.unit ≡ track.old.unit }
    ensures next { result ≡ true → track.new.block ≡ track.old.block + 1 }
{
    match gain_block(gain, block) {
        None => {
            track.pass();
            true
        }
        Some((fixed, parts)) => track.write(u, fixed, parts, row),
    }
}

/// Takes the blocks of the track's unit that it has not passed, and goes on to the next unit. Answers whether it did; if not,
/// the row is complete.
fn take_unit(
    track: &mut GainTrack,
    gain: &MixGain,
    unit: &Unit<'_>,
    u: usize,
    row: &mut [u64],
) -> bool
    requires small { (u + 1) * length row.old < 2 ^ 60 }
    requires few { u < 2 ^ 60 }
    requires unit { track.old.unit ≤ u }
    requires end { track.old.end ≤ (u + 1) * length row.old }
    ensures takes { (r : Rendition) → unit_length r ≡ length row.old → IsUnit unit.now (unit_of r track.old.unit)
        → IsFilled r (view_mix_gain gain.now) u row.old track.old → Took result r (view_mix_gain gain.now) u row.new track.new }
    ensures end { track.new.end ≤ (u + 1) * length row.old }
    ensures next { result ≡ true → (track.new.unit ≡ track.old.unit + 1) × (track.new.block ≡ 0) }
    ensures stays { track.new.unit ≤ track.old.unit + 1 }
{
    for i in track.block..unit.block_count() {
        if !take_block(track, gain, unit.block(i), u, row) {
            return false;
        }
    }
    track.next_unit();
    true
}

/// Fills the row of the ticks of unit `u` with the gains of a mix gain. The track has come through the units before it.
fn fill_row(
    track: &mut GainTrack,
    gain: &MixGain,
    sequence: &Sequence<'_>,
    u: usize,
    row: &mut [u64],
)
    requires begun { u < unit_count (roles sequence.now.entries) }
    requires small { (u + 1) * length row.old < 2 ^ 60 }
    requires few { u < 2 ^ 60 }
    requires unit { track.old.unit ≤ u }
    requires end { track.old.end ≤ u * length row.old }
    ensures fills { (r : Rendition) → unit_length r ≡ length row.old → r.units ≡ temporal_units (values_of sequence.now.entries)
        → IsOn r (view_mix_gain gain.now) track.old → IsOn r (view_mix_gain gain.now) track.new × HasGains r (view_mix_gain gain.now) u row.new }
    ensures end { track.new.end ≤ (u + 1) * length row.old }
    ensures unit { track.new.unit ≤ u + 1 }
{
    track.begin(gain.gain, row);
    for v in track.unit..u + 1 {
        if !take_unit(track, gain, sequence.unit(v), u, row) {
            return;
        }
    }
}

/// The gains of a mix gain at the ticks of one temporal unit after the other.
#[derive(Drop)]
pub(crate) struct UnitGains<'s> {
    pub(crate) gain: &'s MixGain,
    pub(crate) track: GainTrack,
    pub(crate) row: Vec<u64>,
}

impl<'s> UnitGains<'s> {
    ghost use Rattle.iamf_play.specs.Gains.{IsReady};

    /// With room for a unit of so many ticks. An `Err` comes only where memory runs out.
    pub(crate) fn new(
        alloc: Global,
        gain: &'s MixGain,
        ticks: usize,
    ) -> Result<UnitGains<'s>, AllocError>
        ensures gain { IfOk result (λ g. g.gain.now ≡ gain.now) }
        ensures ready { IfOk result (λ g. (r : Rendition) → unit_length r ≡ ticks → IsReady r g 0) }
    {
        Ok(UnitGains {
            gain,
            track: GainTrack::new(),
            row: vec![in alloc; 0u64; ticks]?,
        })
    }

    /// The gain at tick `n` of the unit that was filled last, in parts of 10^12.
    #[inline]
    pub(crate) fn at(&self, n: usize) -> u64
        requires { n < length self.now.row.items }
        ensures { result ≡ slice_index self.now.row.items n }
    {
        self.row[n]
    }

    /// Fills the row with the gains of unit `u`. The units before it have been filled, in their order.
    pub(crate) fn fill(&mut self, sequence: &Sequence<'_>, u: usize)
        requires begun { u < unit_count (roles sequence.now.entries) }
        requires few { u < 2 ^ 42 }
        requires ready { (r : Rendition) × IsReady r self.old u × (unit_length r < 2 ^ 17) }
        ensures gain { self.new.gain.now ≡ self.old.gain.now }
        ensures fills { (r : Rendition) → r.units ≡ temporal_units (values_of sequence.now.entries) → IsReady r self.old u
            → IsReady r self.new (u + 1) × HasGains r (view_mix_gain self.old.gain.now) u self.new.row.items }
    {
        fill_row(
            &mut self.track,
            self.gain,
            sequence,
            u,
            self.row.as_mut_slice(),
        );
    }
}
