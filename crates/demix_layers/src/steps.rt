//! One step of the exact walk: what a layer adds to the channels of those below it, as tops. No number overflows, since each
//! top is at most a known multiple of what can be transmitted.

ghost use Rattle.std.specs.Prelude.{◌≡◌, ◌*◌, ◌^◌, ◌≤◌, pos, ◌-ℤ◌, ◌*ℤ◌, if◌then◌else◌};
ghost use Rattle.spec_gains.specs.Modes.{coefficients_of, AreBounded};
ghost use Rattle.spec_demix.specs.ExactWalk.{exact_first_side, exact_first_tops, exact_first, exact_side_after, exact_tops_after, exact_after};
ghost use Rattle.demix_layers.specs.Within.{AtMost, IsWithinSide, IsWithinTops, IsWithin, IsSentSide, IsSentTops, IsSent};

use demix_channels::{
    DemixParams, gives_back, gives_four, gives_three, gives_two, is_reached, leaves_three,
    splits_two,
};
use iamf_tables::DemixMode;
use spec_demix::{Bed, Kind, Side, Tops};

/// A transmitted channel times a coefficient.
fn times(coefficient: u32, sent: i128) -> i128
    requires { AtMost (2 ^ 77) 1 sent }
    ensures value { result ≡ pos coefficient *ℤ sent }
    ensures most { AtMost (2 ^ 77) coefficient result }
{
    i128::from(coefficient) * sent
}

/// A channel that comes with the layer where a test holds, and else stays.
fn sent_or_old(test: bool, sent: i128, old: i128) -> i128
    requires sent { AtMost (2 ^ 77) 1 sent }
    requires old { AtMost (2 ^ 77) 1 old }
    ensures value { result ≡ (if test then sent else old) }
    ensures most { AtMost (2 ^ 77) 1 result }
{
    if test { sent } else { old }
}

/// Left of stereo.
fn two_left(test: bool, sent: i128, old: i128) -> i128
    requires sent { AtMost (2 ^ 77) 1 sent }
    requires old { AtMost (2 ^ 77) 3 old }
    ensures value { result ≡ (if test then sent else old) }
    ensures most { AtMost (2 ^ 77) 3 result }
{
    if test { sent } else { old }
}

/// Right of stereo, from mono and left.
fn two_right(test: bool, mono: i128, left: i128, old: i128) -> i128
    requires mono { AtMost (2 ^ 77) 1 mono }
    requires left { AtMost (2 ^ 77) 1 left }
    requires old { AtMost (2 ^ 77) 3 old }
    ensures value { result ≡ (if test then pos 2 *ℤ mono -ℤ left else old) }
    ensures most { AtMost (2 ^ 77) 3 result }
{
    if test { 2 * mono - left } else { old }
}

/// Left or right of 3.1.2.
fn three(test: bool, two: i128, center: i128, old: i128) -> i128
    requires two { AtMost (2 ^ 77) 3 two }
    requires center { AtMost (2 ^ 77) 1 center }
    requires old { AtMost (2 ^ 77) 4000 old }
    ensures value { result ≡ (if test then pos 1000 *ℤ two -ℤ pos 707 *ℤ center else old) }
    ensures most { AtMost (2 ^ 77) 4000 result }
{
    if test { 1000 * two - 707 * center } else { old }
}

/// The surround of 5.1.
fn surround(test: bool, three: i128, five: i128, old: i128) -> i128
    requires three { AtMost (2 ^ 77) 4000 three }
    requires five { AtMost (2 ^ 77) 1 five }
    requires old { AtMost (2 ^ 77) 5000 old }
    ensures value { result ≡ (if test then three -ℤ pos 1000 *ℤ five else old) }
    ensures most { AtMost (2 ^ 77) 5000 result }
{
    if test { three - 1000 * five } else { old }
}

/// The rear of 7.1, from the surround and the side times its coefficient.
fn rear(test: bool, surround: i128, side: i128, old: i128) -> i128
    requires surround { AtMost (2 ^ 77) 5000 surround }
    requires side { AtMost (2 ^ 77) 866000 side }
    requires old { AtMost (2 ^ 77) 6000000 old }
    ensures value { result ≡ (if test then pos 1000 *ℤ surround -ℤ side else old) }
    ensures most { AtMost (2 ^ 77) 6000000 result }
{
    if test { 1000 * surround - side } else { old }
}

/// A product of two coefficients.
pub(crate) fn product(a: u32, b: u32) -> u32
    requires a { a ≤ 1000 }
    requires b { b ≤ 1000 }
    ensures value { result ≡ a * b }
    ensures first { a ≤ 866 → result ≤ 866000 }
    ensures second { b ≤ 866 → result ≤ 866000 }
{
    a * b
}

/// One side after a layer, where `two` is its channel of stereo.
fn side_step(
    before: u8,
    now: u8,
    mode: DemixMode,
    two: i128,
    center: i128,
    old: &Side,
    sent: &Side,
) -> Side
    requires mode { AreBounded (coefficients_of mode) }
    requires two { AtMost (2 ^ 77) 3 two }
    requires center { AtMost (2 ^ 77) 1 center }
    requires old { IsWithinSide (2 ^ 77) old.now }
    requires sent { IsSentSide (2 ^ 77) sent.now }
    ensures value { result ≡ exact_side_after before now (coefficients_of mode) two center old.now sent.now }
    ensures within { IsWithinSide (2 ^ 77) result }
{
    let fifth = is_reached(5, before, now);
    let seventh = is_reached(7, before, now);
    let three = three(is_reached(3, before, now), two, center, old.three);
    let surround = surround(fifth, three, sent.five, old.surround);
    let beside = times(product(mode.alpha, mode.delta), sent.side);
    Side {
        two,
        three,
        five: sent_or_old(fifth, sent.five, old.five),
        surround,
        side: sent_or_old(seventh, sent.side, old.side),
        rear: rear(seventh, surround, beside, old.rear),
    }
}

/// A surround times a weight.
fn weighed(weight: u32, surround: i128) -> i128
    requires weight { weight ≤ 5000 }
    requires surround { AtMost (2 ^ 77) 5000 surround }
    ensures value { result ≡ pos weight *ℤ surround }
    ensures most { AtMost (2 ^ 77) 25000000 result }
{
    i128::from(weight) * surround
}

/// The top of two.
fn top_two(leaves: bool, gives: bool, share: i128, three: i128, sent: i128, old: i128) -> i128
    requires share { AtMost (2 ^ 77) 25000000 share }
    requires three { AtMost (2 ^ 77) 1 three }
    requires sent { AtMost (2 ^ 77) 1 sent }
    requires old { AtMost (2 ^ 77) 40000000 old }
    ensures value { result ≡ (if leaves then pos 10000000 *ℤ three -ℤ share else (if gives then pos 10000000 *ℤ sent else old)) }
    ensures most { AtMost (2 ^ 77) 40000000 result }
{
    if leaves {
        10_000_000 * three - share
    } else if gives {
        10_000_000 * sent
    } else {
        old
    }
}

/// The back top of four.
fn top_back(splits: bool, gives: bool, two: i128, four: i128, sent: i128, old: i128) -> i128
    requires two { AtMost (2 ^ 77) 40000000 two }
    requires four { AtMost (2 ^ 77) 1 four }
    requires sent { AtMost (2 ^ 77) 8660000 sent }
    requires old { AtMost (2 ^ 77) 50000000 old }
    ensures value { result ≡ (if splits then two -ℤ pos 10000000 *ℤ four else (if gives then sent else old)) }
    ensures most { AtMost (2 ^ 77) 50000000 result }
{
    if splits {
        two - 10_000_000 * four
    } else if gives {
        sent
    } else {
        old
    }
}

/// One side's tops after a layer, with the surround of 5.1.
fn tops_step(
    before: Kind,
    now: Kind,
    params: DemixParams,
    surround: i128,
    old: &Tops,
    sent: &Tops,
) -> Tops
    requires mode { AreBounded (coefficients_of params.mode) }
    requires weight { params.weight ≤ 5000 }
    requires surround { AtMost (2 ^ 77) 5000 surround }
    requires old { IsWithinTops (2 ^ 77) old.now }
    requires sent { IsSentTops (2 ^ 77) sent.now }
    ensures value { result ≡ exact_tops_after before now (coefficients_of params.mode) params.weight surround old.now sent.now }
    ensures within { IsWithinTops (2 ^ 77) result }
{
    let two = top_two(
        leaves_three(before, now),
        gives_two(before, now),
        weighed(params.weight, surround),
        old.three,
        sent.two,
        old.two,
    );
    Tops {
        three: sent_or_old(gives_three(before, now), sent.three, old.three),
        two,
        four: sent_or_old(gives_four(before, now), sent.four, old.four),
        back: top_back(
            splits_two(before, now),
            gives_back(before, now),
            two,
            sent.four,
            times(10_000 * params.mode.gamma, sent.back),
            old.back,
        ),
    }
}

/// All channels after a layer.
pub(crate) fn bed_step(before: Kind, now: Kind, params: DemixParams, old: &Bed, sent: &Bed) -> Bed
    requires mode { AreBounded (coefficients_of params.mode) }
    requires weight { params.weight ≤ 5000 }
    requires old { IsWithin (2 ^ 77) old.now }
    requires sent { IsSent (2 ^ 77) sent.now }
    ensures value { result ≡ exact_after before now (coefficients_of params.mode) params.weight old.now sent.now }
    ensures within { IsWithin (2 ^ 77) result }
{
    let (from, to) = (before.surround, now.surround);
    let second = is_reached(2, from, to);
    let third = is_reached(3, from, to);
    let center = sent_or_old(third, sent.center, old.center);
    let low = sent_or_old(third, sent.low, old.low);
    let left_two = two_left(second, sent.left.two, old.left.two);
    let right_two = two_right(second, old.mono, sent.left.two, old.right.two);
    let left = side_step(
        from,
        to,
        params.mode,
        left_two,
        center,
        &old.left,
        &sent.left,
    );
    let right = side_step(
        from,
        to,
        params.mode,
        right_two,
        center,
        &old.right,
        &sent.right,
    );
    let left_top = tops_step(
        before,
        now,
        params,
        left.surround,
        &old.left_top,
        &sent.left_top,
    );
    let right_top = tops_step(
        before,
        now,
        params,
        right.surround,
        &old.right_top,
        &sent.right_top,
    );
    Bed {
        mono: old.mono,
        center,
        low,
        left,
        right,
        left_top,
        right_top,
    }
}

/// What the exact walk begins with, of one side.
fn side_begins(mode: DemixMode, sent: &Side) -> Side
    requires mode { AreBounded (coefficients_of mode) }
    requires sent { IsSentSide (2 ^ 77) sent.now }
    ensures value { result ≡ exact_first_side (coefficients_of mode) sent.now }
    ensures within { IsWithinSide (2 ^ 77) result }
{
    Side {
        two: sent.two,
        three: times(1000, sent.three),
        five: sent.five,
        surround: times(mode.delta, sent.surround),
        side: sent.side,
        rear: times(product(mode.delta, mode.beta), sent.rear),
    }
}

/// What it begins with, of one side's tops.
fn tops_begin(mode: DemixMode, sent: &Tops) -> Tops
    requires mode { AreBounded (coefficients_of mode) }
    requires sent { IsSentTops (2 ^ 77) sent.now }
    ensures value { result ≡ exact_first_tops (coefficients_of mode) sent.now }
    ensures within { IsWithinTops (2 ^ 77) result }
{
    Tops {
        three: sent.three,
        two: times(10_000_000, sent.two),
        four: sent.four,
        back: times(10_000 * mode.gamma, sent.back),
    }
}

/// What the exact walk begins with.
pub(crate) fn bed_begins(mode: DemixMode, sent: &Bed) -> Bed
    requires mode { AreBounded (coefficients_of mode) }
    requires sent { IsSent (2 ^ 77) sent.now }
    ensures value { result ≡ exact_first (coefficients_of mode) sent.now }
    ensures within { IsWithin (2 ^ 77) result }
{
    Bed {
        mono: sent.mono,
        center: sent.center,
        low: sent.low,
        left: side_begins(mode, &sent.left),
        right: side_begins(mode, &sent.right),
        left_top: tops_begin(mode, &sent.left_top),
        right_top: tops_begin(mode, &sent.right_top),
    }
}
