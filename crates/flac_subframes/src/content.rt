//! The samples of a subframe of any kind.
ghost use Rattle.std.specs.Prelude.{◌≡◌, ℕ, ◌+◌, ◌-◌, ◌^◌, ◌<◌, ◌≤◌, false, length, take, OnOk};
ghost use Rattle.spec_syntax.specs.Reading.{read, Answers};
ghost use Rattle.spec_flac.specs.Faults.{short};
ghost use Rattle.spec_flac.specs.Subframe.{content, linear, verbatim, half_of, is_reserved, order_of};
ghost use Rattle.flac_subframes.specs.Rows.{AreWithin};

use crate::constant::constant_from;
use crate::fixed::fixed_from;
use crate::linear::linear_from;
use crate::predicted::warm_up;
use flac_bits::Reader;
use spec_flac::FlacFault;

/// The samples of a verbatim subframe.
fn verbatim_into(reader: &mut Reader<'_>, depth: u32, row: &mut [i64]) -> Result<(), FlacFault>
    requires low { 1 ≤ depth }
    requires high { depth ≤ 33 }
    ensures gives { Answers (λ _. (row.new, reader.new)) result (read short (verbatim depth (length row.old)) reader.old) }
    ensures small { OnOk result (AreWithin (half_of depth) row.new) }
{
    let count = row.len();
    warm_up(reader, depth, row, count)
}

/// The samples of a linear subframe.
fn linear_into(
    reader: &mut Reader<'_>,
    order: u64,
    depth: u32,
    row: &mut [i64],
) -> Result<(), FlacFault>
    requires low { 1 ≤ depth }
    requires high { depth ≤ 33 }
    requires some { 1 ≤ order }
    requires few { order ≤ 32 }
    requires row { order ≤ length row.old }
    ensures gives { Answers (λ _. (row.new, reader.new)) result (read short (linear order depth (length row.old)) reader.old) }
    ensures small { OnOk result (AreWithin (half_of depth) row.new) }
{
    match order {
        1 => linear_from::<1>(reader, depth, row),
        2 => linear_from::<2>(reader, depth, row),
        3 => linear_from::<3>(reader, depth, row),
        4 => linear_from::<4>(reader, depth, row),
        5 => linear_from::<5>(reader, depth, row),
        6 => linear_from::<6>(reader, depth, row),
        7 => linear_from::<7>(reader, depth, row),
        8 => linear_from::<8>(reader, depth, row),
        9 => linear_from::<9>(reader, depth, row),
        10 => linear_from::<10>(reader, depth, row),
        11 => linear_from::<11>(reader, depth, row),
        12 => linear_from::<12>(reader, depth, row),
        13 => linear_from::<13>(reader, depth, row),
        14 => linear_from::<14>(reader, depth, row),
        15 => linear_from::<15>(reader, depth, row),
        16 => linear_from::<16>(reader, depth, row),
        17 => linear_from::<17>(reader, depth, row),
        18 => linear_from::<18>(reader, depth, row),
        19 => linear_from::<19>(reader, depth, row),
        20 => linear_from::<20>(reader, depth, row),
        21 => linear_from::<21>(reader, depth, row),
        22 => linear_from::<22>(reader, depth, row),
        23 => linear_from::<23>(reader, depth, row),
        24 => linear_from::<24>(reader, depth, row),
        25 => linear_from::<25>(reader, depth, row),
        26 => linear_from::<26>(reader, depth, row),
        27 => linear_from::<27>(reader, depth, row),
        28 => linear_from::<28>(reader, depth, row),
        29 => linear_from::<29>(reader, depth, row),
        30 => linear_from::<30>(reader, depth, row),
        31 => linear_from::<31>(reader, depth, row),
        _ => linear_from::<32>(reader, depth, row),
    }
}

/// The samples of a subframe of the kind.
#[tactic(auto, unfolding(spec_flac::specs::Subframe::content))]
pub fn content_from(
    reader: &mut Reader<'_>,
    kind: u64,
    depth: u32,
    row: &mut [i64],
) -> Result<(), FlacFault>
    requires low { 1 ≤ depth }
    requires high { depth ≤ 33 }
    requires few { kind < 64 }
    requires known { is_reserved kind ≡ false }
    requires order { order_of kind ≤ length row.old }
    ensures gives { Answers (λ _. (row.new, reader.new)) result (read short (content kind depth (length row.old)) reader.old) }
    ensures small { OnOk result (AreWithin (half_of depth) row.new) }
{
    if kind == 0 {
        return constant_from(reader, depth, row);
    }
    if kind == 1 {
        return verbatim_into(reader, depth, row);
    }
    if kind < 32 {
        return fixed_from(reader, kind as usize - 8, depth, row);
    }
    linear_into(reader, kind - 31, depth, row)
}
