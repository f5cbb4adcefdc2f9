//! Left and right from what two subframes hold.
ghost use Rattle.std.specs.Prelude.{◌≡◌, ℕ, ◌+◌, ◌-◌, ◌*◌, ◌^◌, ◌<◌, ◌≤◌, ℤ, pos, ◌+ℤ◌, ◌-ℤ◌, length, unsigned_abs, slice_index_or, [], ◌∷◌};
ghost use Rattle.std.specs.Int.{int_div_euclid};
ghost use Rattle.spec_bits.specs.Cursor.{Cursor};
ghost use Rattle.spec_syntax.specs.Reading.{read, Answers};
ghost use Rattle.spec_flac.specs.Faults.{short};
ghost use Rattle.spec_flac.specs.Subframe.{half_of};
ghost use Rattle.spec_flac.specs.Frame as table;
ghost use Rattle.flac_subframes.specs.Rows.{AreSmall};

use flac_subframes::{fits, half};
use spec_flac::FlacFault;

/// Half of the side, rounded up: what the left is above the middle.
#[inline(always)]
fn above(side: i64) -> i64
    requires { unsigned_abs side ≤ 2 ^ 32 }
    ensures is { result ≡ int_div_euclid (side +ℤ pos 1) (pos 2) }
    ensures small { unsigned_abs result ≤ 2 ^ 32 }
{
    (side + 1) >> 1
}

#[inline(always)]
fn plus(a: i64, b: i64) -> i64
    requires a { unsigned_abs a ≤ 2 ^ 32 }
    requires b { unsigned_abs b ≤ 2 ^ 32 }
    ensures is { result ≡ a +ℤ b }
    ensures small { unsigned_abs result ≤ 2 ^ 33 }
{
    a + b
}

#[inline(always)]
fn less(a: i64, b: i64) -> i64
    requires a { unsigned_abs a ≤ 2 ^ 33 }
    requires b { unsigned_abs b ≤ 2 ^ 32 }
    ensures { result ≡ a -ℤ b }
{
    a - b
}

/// The left of a middle and a side.
#[inline(always)]
fn left(middle: i64, side: i64) -> i64
    requires middle { unsigned_abs middle ≤ 2 ^ 32 }
    requires side { unsigned_abs side ≤ 2 ^ 32 }
    ensures is { result ≡ int_div_euclid (table.middle middle side +ℤ side) (pos 2) }
    ensures small { unsigned_abs result ≤ 2 ^ 33 }
{
    plus(middle, above(side))
}

/// The right of a middle and a side.
#[inline(always)]
fn right(middle: i64, side: i64) -> i64
    requires middle { unsigned_abs middle ≤ 2 ^ 32 }
    requires side { unsigned_abs side ≤ 2 ^ 32 }
    ensures { result ≡ int_div_euclid (table.middle middle side -ℤ side) (pos 2) }
{
    less(left(middle, side), side)
}

#[inline(always)]
fn left_of<const CODE: u32>(a: i64, b: i64) -> i64
    requires a { unsigned_abs a ≤ 2 ^ 32 }
    requires b { unsigned_abs b ≤ 2 ^ 32 }
    ensures { result ≡ table.left_of CODE a b }
{
    if CODE == 8 {
        return a;
    }
    if CODE == 9 {
        return plus(a, b);
    }
    left(a, b)
}

#[inline(always)]
fn right_of<const CODE: u32>(a: i64, b: i64) -> i64
    requires a { unsigned_abs a ≤ 2 ^ 32 }
    requires b { unsigned_abs b ≤ 2 ^ 32 }
    ensures { result ≡ table.right_of CODE a b }
{
    if CODE == 8 {
        return less(a, b);
    }
    if CODE == 9 {
        return b;
    }
    right(a, b)
}

// Left and right in place of what two subframes hold, by one code. Kept out of its callers, so that its loop has all
// registers.
#[inline(never)]
fn decorrelated_by<const CODE: u32>(
    depth: u32,
    first: &mut [i64],
    second: &mut [i64],
) -> Result<(), FlacFault>
    requires low { 1 ≤ depth }
    requires high { depth ≤ 33 }
    requires equal { length first.old ≡ length second.old }
    requires first { AreSmall first.old }
    requires second { AreSmall second.old }
    ensures { (c : Cursor) → Answers (λ _. (first.new ∷ second.new ∷ [], c)) result (read short (table.left_and_right CODE depth first.old second.old) c) }
{
    let half = half(depth);
    for n in 0..first.len() {
        let left = left_of::<CODE>(first[n], second[n]);
        let right = right_of::<CODE>(first[n], second[n]);
        if !fits(half, left) {
            return Err(FlacFault::Range);
        }
        if !fits(half, right) {
            return Err(FlacFault::Range);
        }
        first[n] = left;
        second[n] = right;
    }
    Ok(())
}

/// Left and right in place of what two subframes hold.
pub fn decorrelated(
    code: u32,
    depth: u32,
    first: &mut [i64],
    second: &mut [i64],
) -> Result<(), FlacFault>
    requires joint { 8 ≤ code }
    requires known { code ≤ 10 }
    requires low { 1 ≤ depth }
    requires high { depth ≤ 33 }
    requires equal { length first.old ≡ length second.old }
    requires first { AreSmall first.old }
    requires second { AreSmall second.old }
    ensures { (c : Cursor) → Answers (λ _. (first.new ∷ second.new ∷ [], c)) result (read short (table.left_and_right code depth first.old second.old) c) }
{
    match code {
        8 => decorrelated_by::<8>(depth, first, second),
        9 => decorrelated_by::<9>(depth, first, second),
        _ => decorrelated_by::<10>(depth, first, second),
    }
}
