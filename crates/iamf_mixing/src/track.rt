//! How far a player has come with the parameter blocks of a mix gain.

ghost use Rattle.std.specs.Prelude.{◌≡◌, ℕ, ◌+◌, ◌*◌, ◌^◌, ◌<◌, ◌≤◌, [], true, false, nat_lt, List, length, slice_index_or};
ghost use Rattle.spec_descriptors.specs.MixGain.{MixGainFields};
ghost use Rattle.spec_sequence.specs.Parts.{BlockValue};
ghost use Rattle.spec_play.specs.Mixes.{Rendition, unit_length, unit_of};
ghost use Rattle.spec_play.specs.GainsOverTime.{gain_block_of};
ghost use Rattle.iamf_mixing.specs.Rows.{block_of};

use crate::gains::fill_block;
use iamf_tables::gain;
use obu_data::GainPart;
use obu_timing::Fixed;

/// How far a player has come with the parameter blocks of a mix gain, which follow each other in time: each starts with its
/// unit or where the one before it ends, whichever is later (IAMF 1.0.0, "Parameter Block OBU Syntax and Semantics").
#[derive(Clone, Copy, Debug, PartialEq, Eq)]
pub struct GainTrack {
    /// The unit of the next block, counted from 0.
    pub unit: usize,
    /// Its place among the blocks of the unit.
    pub block: usize,
    /// The tick at which the blocks before it end, counted from the start of the first unit.
    pub end: u64,
}

impl GainTrack {
    ghost use Rattle.iamf_mixing.specs.Tracks.{IsOn, IsFilled, IsNext, HasGains};

    /// A track before the first block.
    pub fn new() -> GainTrack
        ensures on { (r : Rendition) (gain : MixGainFields) → IsOn r gain result }
        ensures start { result ≡ record { unit = 0; block = 0; end = 0 } }
    {
        GainTrack {
            unit: 0,
            block: 0,
            end: 0,
        }
    }

    /// Fills the row of the ticks of a unit with the default gain. All blocks that the track has passed end with the unit's
    /// start or before.
    pub fn begin(&self, default: i16, row: &mut [u64])
        ensures { (r : Rendition) (gain : MixGainFields) (u : ℕ) → gain.default_mix_gain ≡ default → self.now.end ≤ u * unit_length r → IsOn r gain self.now → IsFilled r gain u row.new self.now }
    {
        let level = gain(default);
        for slot in row.iter_mut() {
            *slot = level;
        }
    }

    /// Passes a block of another parameter.
    pub fn pass(&mut self)
        requires { self.old.block < 2 ^ 63 }
        ensures next { self.new ≡ record self.old { block = self.old.block + 1 } }
        ensures filled { (r : Rendition) (gain : MixGainFields) (u : ℕ) (row : List ℕ) (block : BlockValue) → self.old.block < length (unit_of r self.old.unit).blocks
            → block ≡ slice_index_or (unit_of r self.old.unit).blocks self.old.block block → gain_block_of gain block ≡ [] → IsFilled r gain u row self.old → IsFilled r gain u row self.new }
    {
        self.block += 1;
    }

    /// Goes on to the first block of the next unit.
    pub fn next_unit(&mut self)
        requires { self.old.unit < 2 ^ 63 }
        ensures next { self.new ≡ record self.old { unit = self.old.unit + 1; block = 0 } }
        ensures filled { (r : Rendition) (gain : MixGainFields) (u : ℕ) (row : List ℕ) → length (unit_of r self.old.unit).blocks ≤ self.old.block → IsFilled r gain u row self.old → IsFilled r gain u row self.new }
    {
        self.unit += 1;
        self.block = 0;
    }

    /// Writes the gains of the next block into the row of the ticks of a unit. Answers whether the block ends with the unit or
    /// before: then the track has passed it. Else the row is complete, and the track stays before the block.
    pub fn write(&mut self, unit: usize, fixed: &Fixed, parts: &[GainPart], row: &mut [u64]) -> bool
        requires small { (unit + 1) * length row.old < 2 ^ 60 }
        requires unit { self.old.unit ≤ unit }
        requires end { self.old.end ≤ (unit + 1) * length row.old }
        requires block { self.old.block < 2 ^ 63 }
        ensures passed { result ≡ true → (r : Rendition) (gain : MixGainFields) → unit_length r ≡ length row.old → IsNext r gain self.old (block_of fixed.now parts.now) → IsFilled r gain unit row.old self.old → IsFilled r gain unit row.new self.new }
        ensures complete { result ≡ false → (r : Rendition) (gain : MixGainFields) → unit_length r ≡ length row.old → IsNext r gain self.old (block_of fixed.now parts.now) → IsFilled r gain unit row.old self.old → HasGains r gain unit row.new }
        ensures end { self.new.end ≤ (unit + 1) * length row.old }
        ensures unit { self.new.unit ≡ self.old.unit }
        ensures next { result ≡ true → self.new.block ≡ self.old.block + 1 }
        ensures stays { result ≡ false → self.new ≡ self.old }
    {
        let ticks = row.len();
        let first = (unit * ticks) as u64;
        let start = self.end.max((self.unit * ticks) as u64);
        let end = start + u64::from(fixed.duration);
        fill_block(row, first, start, fixed, parts);
        if end > first + ticks as u64 {
            return false;
        }
        self.block += 1;
        self.end = end;
        true
    }

    /// Whether the track is past all blocks of a unit; then a row of the unit's ticks that it filled is complete.
    pub fn is_past(&self, unit: usize) -> bool
        ensures value { result ≡ nat_lt unit self.now.unit }
        ensures complete { result ≡ true → (r : Rendition) (gain : MixGainFields) (row : List ℕ) → self.now.block ≡ 0 → length row ≡ unit_length r → IsFilled r gain unit row self.now → HasGains r gain unit row }
    {
        unit < self.unit
    }
}
