//! The gains of the ticks that a parameter block covers (IAMF 1.0.0, "Mix Gain Parameter Data"), in parts of 10^12. Ticks are
//! counted from the start of the first unit.

ghost use Rattle.std.specs.Prelude.{◌≡◌, ℕ, ◌+◌, ◌-◌, ◌*◌, ◌/◌, ◌^◌, ◌<◌, ◌≤◌, length, map, min, slice_index};
ghost use Rattle.spec_gains.specs.Gains.{gain_of};
ghost use Rattle.obu_timing.specs.TimingView.{view_fixed};
ghost use Rattle.obu_data.specs.BlockView.{view_gain_part};
ghost use Rattle.spec_play.specs.GainsOverTime.{part_gain, subblock_durations};
ghost use Rattle.iamf_mixing.specs.Rows.{timed_block, gain_over};

use crate::sums::ONE;
use iamf_tables::gain;
use obu_data::GainPart;
use obu_timing::Fixed;

/// A straight line between two gains.
#[derive(Clone, Copy)]
struct Line {
    start: u64,
    end: u64,
    /// How many ticks there are from the start to the end, below 2^32.
    duration: u64,
}

/// Where a tick stands in a row of so many ticks from `first` on: at its start if it is earlier, and at its end if later.
fn place(first: u64, count: usize, tick: u64) -> usize
    ensures { result ≡ min (tick - first) count }
{
    tick.saturating_sub(first).min(count as u64) as usize
}

/// The gain `k` ticks after the start of a line.
#[tactic(auto, using(crate::proofs::Subblocks::between_fits))]
fn between(line: Line, k: u64) -> u64
    requires inside { k < line.duration }
    requires short { line.duration < 2 ^ 32 }
    ensures { result ≡ (line.start * (line.duration - k) + line.end * k) / line.duration }
{
    let before = u128::from(line.start) * u128::from(line.duration - k);
    let after = u128::from(line.end) * u128::from(k);
    ((before + after) / u128::from(line.duration)) as u64
}

/// Writes one gain from a place of a row to another.
fn fill_level(row: &mut [u64], from: usize, to: usize, level: u64)
    requires order { from ≤ to }
    requires to { to ≤ length row.old }
    ensures inside { (k : ℕ) → from ≤ k → k < to → slice_index row.new k ≡ level }
    ensures before { (k : ℕ) → k < from → slice_index row.new k ≡ slice_index row.old k }
    ensures after { (k : ℕ) → to ≤ k → slice_index row.new k ≡ slice_index row.old k }
{
    for k in from..to {
        row[k] = level;
    }
}

/// Writes the gains of a line from a place of a row to another, the first of which is `passed` ticks after the line's start.
fn fill_line(row: &mut [u64], from: usize, to: usize, passed: u64, line: Line)
    requires order { from ≤ to }
    requires to { to ≤ length row.old }
    requires inside { from < to → passed + (to - from) ≤ line.duration }
    requires short { line.duration < 2 ^ 32 }
    ensures inside { (k : ℕ) → from ≤ k → k < to → slice_index row.new k ≡ (line.start * (line.duration - (passed + (k - from))) + line.end * (passed + (k - from))) / line.duration }
    ensures before { (k : ℕ) → k < from → slice_index row.new k ≡ slice_index row.old k }
    ensures after { (k : ℕ) → to ≤ k → slice_index row.new k ≡ slice_index row.old k }
{
    for k in from..to {
        row[k] = between(line, passed + (k - from) as u64);
    }
}

/// Writes the gains of the ticks of a row from tick `start` to before tick `end`, which a subblock of `duration` ticks has from
/// its start on. The row begins at tick `first`.
fn fill_part(row: &mut [u64], first: u64, start: u64, end: u64, duration: u32, part: GainPart)
    requires order { start ≤ end }
    requires within { end ≤ start + duration }
    requires room { first + length row.old < 2 ^ 63 }
    ensures inside { (k : ℕ) → k < length row.old → start ≤ first + k → first + k < end → slice_index row.new k ≡ part_gain duration (view_gain_part part) (first + k - start) }
    ensures before { (k : ℕ) → k < length row.old → first + k < start → slice_index row.new k ≡ slice_index row.old k }
    ensures after { (k : ℕ) → k < length row.old → end ≤ first + k → slice_index row.new k ≡ slice_index row.old k }
{
    let from = place(first, row.len(), start);
    let to = place(first, row.len(), end);
    match part {
        GainPart::Step { start: level } => fill_level(row, from, to, gain(level)),
        GainPart::Bezier { start: level, .. } => fill_level(row, from, to, gain(level)),
        GainPart::Linear {
            start: low,
            end: high,
        } => {
            let line = Line {
                start: gain(low),
                end: gain(high),
                duration: u64::from(duration),
            };
            fill_line(row, from, to, first.saturating_sub(start), line);
        }
    }
}

/// How many subblocks a block with this timing has.
fn subblock_count(fixed: &Fixed) -> usize
    ensures { result ≡ length (subblock_durations (view_fixed fixed.now)) }
{
    if fixed.constant == 0 {
        fixed.durations.as_slice().len()
    } else {
        fixed.duration.div_ceil(fixed.constant) as usize
    }
}

/// How long subblock `i` lasts.
fn subblock_duration(fixed: &Fixed, i: usize) -> u32
    requires { i < length (subblock_durations (view_fixed fixed.now)) }
    ensures { result ≡ slice_index (subblock_durations (view_fixed fixed.now)) i }
{
    if fixed.constant == 0 {
        fixed.durations.as_slice()[i]
    } else {
        fixed
            .constant
            .min(fixed.duration - i as u32 * fixed.constant)
    }
}

/// Writes the gains of a block that starts at tick `start` at the ticks of a row that it covers, and leaves the others. The row
/// begins at tick `first`. Past the last of the subblocks the gain is 1.
pub fn fill_block(row: &mut [u64], first: u64, start: u64, fixed: &Fixed, parts: &[GainPart])
    requires row { first + length row.old < 2 ^ 63 }
    requires block { start < 2 ^ 63 }
    ensures { (k : ℕ) → k < length row.old → slice_index row.new k ≡ gain_over (timed_block start fixed.now parts.now) (first + k) (slice_index row.old k) }
{
    let end = start + u64::from(fixed.duration);
    let count = subblock_count(fixed).min(parts.len());
    let mut at = start;
    for i in 0..count {
        let duration = subblock_duration(fixed, i);
        let next = end.min(at + u64::from(duration));
        fill_part(row, first, at, next, duration, parts[i]);
        at = next;
    }
    let from = place(first, row.len(), at);
    let to = place(first, row.len(), end);
    fill_level(row, from, to, ONE);
}
