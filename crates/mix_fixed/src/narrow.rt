//! How each kind of channel follows from those that are sent and from others, in 64 bits. No number overflows, since each
//! channel is at most a known multiple of what can be sent.

ghost use Rattle.std.specs.Prelude.{◌≡◌, ◌*◌, ◌≤◌, pos, ◌-ℤ◌, ◌*ℤ◌, ◌+ℤ◌, ◌^◌, ◌⊎◌, unsigned_abs, if◌then◌else◌};
ghost use Rattle.spec_gains.specs.Modes.{coefficients_of, AreBounded, IsMode};
ghost use Rattle.spec_demix.specs.Floor.{floor_of};
ghost use Rattle.mix_fixed.specs.Within.{AtMost};
ghost use Rattle.mix_fixed.specs.Quiet.{hundredth, OfBed, IsQuiet};
ghost use Rattle.mix_fixed.specs.Ratios.{IsRatio};
ghost use Rattle.mix_fixed.specs.Pairs.{left_side, right_side, left_tops, right_tops};
ghost use Rattle.mix_fixed.specs.Scaled.{scale, units_by, side_by, tops_by, bed_by};
ghost use Rattle.mix_fixed.specs.Origins.{side_from, tops_from, all_from};

use crate::floors::{high_word, over, over_both};
use crate::origins::Origins;
use crate::pairs::{Ears, Heights, Pair};
use crate::ratios::{CENTER, Ratios, ratios_of};
use crate::scaled::{Scaled, ScaledBed};
use crate::steps::share_of;
use demix_channels::DemixParams;
use iamf_tables::DemixMode;
use spec_demix::Bed;

/// The floor of a sample times a rest in parts of 2^63 that was rounded up: 2^31 makes up for the rounding.
#[inline(always)]
fn part_of(y: i64, rest: i64) -> i64
    requires short { unsigned_abs y ≤ 2 ^ 31 }
    ensures value { result ≡ floor_of (y *ℤ rest +ℤ pos (2 ^ 31)) (2 ^ 63) }
    ensures small { unsigned_abs result ≤ 2 ^ 32 }
{
    // twice as much over twice as much: the floor is a word of the product, and takes no shift
    high_word(i128::from(2 * y) * i128::from(rest) + 0x1_0000_0000) as i64
}

/// A sample times a factor, in units.
#[inline(always)]
fn scale(y: i64, whole: i64, rest: i64) -> i64
    requires whole { unsigned_abs y * unsigned_abs whole ≤ 2 ^ 59 }
    requires short { unsigned_abs y ≤ 2 ^ 31 }
    ensures value { result ≡ scale y whole rest }
    ensures most { AtMost hundredth 100 result }
{
    y * whole + part_of(y, rest)
}

/// The same by a whole factor.
#[inline(always)]
fn scale_whole(y: i64, whole: i64) -> i64
    requires whole { unsigned_abs y * unsigned_abs whole ≤ 2 ^ 59 }
    ensures value { result ≡ scale y whole (pos 0) }
    ensures most { AtMost hundredth 100 result }
{
    y * whole
}

/// A channel that is sent; 0 where it is not. Where all factors are whole, no rest is looked at.
#[inline(always)]
fn sample<const PLAIN: bool>(sent: &Scaled, coded: &[i64]) -> i64
    requires quiet { IsQuiet PLAIN coded.now sent.now }
    ensures value { result ≡ units_by coded.now sent.now }
    ensures most { AtMost hundredth 100 result }
{
    if PLAIN {
        scale_whole(coded[sent.place], sent.whole)
    } else {
        scale(coded[sent.place], sent.whole, sent.rest)
    }
}

/// The same channel of both sides, as it is sent.
#[inline(always)]
fn samples<const PLAIN: bool>(left: &Scaled, right: &Scaled, coded: &[i64]) -> Pair
    requires quiet_left { IsQuiet PLAIN coded.now left.now }
    requires quiet_right { IsQuiet PLAIN coded.now right.now }
    ensures left { result.left ≡ units_by coded.now left.now }
    ensures right { result.right ≡ units_by coded.now right.now }
    ensures most_left { AtMost hundredth 100 result.left }
    ensures most_right { AtMost hundredth 100 result.right }
{
    Pair {
        left: sample::<PLAIN>(left, coded),
        right: sample::<PLAIN>(right, coded),
    }
}

/// Right of stereo: from mono and left, or as it is sent.
#[inline(always)]
fn two_right<const PLAIN: bool>(
    follows: bool,
    mono: i64,
    left: i64,
    sent: &Scaled,
    coded: &[i64],
) -> i64
    requires quiet { IsQuiet PLAIN coded.now sent.now }
    requires mono { AtMost hundredth 100 mono }
    requires left { AtMost hundredth 100 left }
    ensures value { result ≡ (if follows then pos 2 *ℤ mono -ℤ left else units_by coded.now sent.now) }
    ensures most { AtMost hundredth 300 result }
{
    if follows {
        2 * mono - left
    } else {
        sample::<PLAIN>(sent, coded)
    }
}

/// The center's part of the left and the right of stereo.
#[inline(always)]
fn share_of_center(center: i64) -> i64
    requires { AtMost hundredth 100 center }
    ensures value { result ≡ floor_of (pos 707 *ℤ center) 1000 }
    ensures most { AtMost hundredth 72 result }
{
    over(707, center, 1000, CENTER)
}

/// Left and right of 3.1.2.
#[inline(always)]
fn three<const PLAIN: bool>(
    follows: bool,
    two: Pair,
    center: i64,
    left: &Scaled,
    right: &Scaled,
    coded: &[i64],
) -> Pair
    requires two_left { AtMost hundredth 300 two.left }
    requires two_right { AtMost hundredth 300 two.right }
    requires center { AtMost hundredth 100 center }
    requires quiet_left { IsQuiet PLAIN coded.now left.now }
    requires quiet_right { IsQuiet PLAIN coded.now right.now }
    ensures left { result.left ≡ (if follows then two.left -ℤ floor_of (pos 707 *ℤ center) 1000 else units_by coded.now left.now) }
    ensures right { result.right ≡ (if follows then two.right -ℤ floor_of (pos 707 *ℤ center) 1000 else units_by coded.now right.now) }
    ensures most_left { AtMost hundredth 372 result.left }
    ensures most_right { AtMost hundredth 372 result.right }
{
    if follows {
        let share = share_of_center(center);
        Pair {
            left: two.left - share,
            right: two.right - share,
        }
    } else {
        samples::<PLAIN>(left, right, coded)
    }
}

/// What is left of channels beside parts of them, over the coefficient with which they were mixed in.
#[inline(always)]
fn unmixed(coefficient: u32, ratio: i64, whole: Pair, part: Pair) -> Pair
    requires least { 707 ≤ coefficient }
    requires most { coefficient ≤ 866 }
    requires ratio { IsRatio 1000 coefficient ratio }
    requires whole_left { AtMost hundredth 422 whole.left }
    requires whole_right { AtMost hundredth 422 whole.right }
    requires part_left { AtMost hundredth 100 part.left }
    requires part_right { AtMost hundredth 100 part.right }
    ensures left { result.left ≡ floor_of (pos 1000 *ℤ (whole.left -ℤ part.left)) coefficient }
    ensures right { result.right ≡ floor_of (pos 1000 *ℤ (whole.right -ℤ part.right)) coefficient }
    ensures most_left { AtMost hundredth 740 result.left }
    ensures most_right { AtMost hundredth 740 result.right }
{
    let rest = Pair {
        left: whole.left - part.left,
        right: whole.right - part.right,
    };
    over_both(rest, coefficient, ratio)
}

/// The surrounds of 5.1.
#[inline(always)]
fn surrounds<const PLAIN: bool>(
    origins: &Origins,
    mode: DemixMode,
    ratio: i64,
    three: Pair,
    five: Pair,
    sent: &ScaledBed,
    coded: &[i64],
) -> Pair
    requires mode { AreBounded (coefficients_of mode) }
    requires ratio { IsRatio 1000 mode.delta ratio }
    requires three_left { AtMost hundredth 372 three.left }
    requires three_right { AtMost hundredth 372 three.right }
    requires five_left { AtMost hundredth 100 five.left }
    requires five_right { AtMost hundredth 100 five.right }
    requires quiet { OfBed (IsQuiet PLAIN coded.now) sent.now }
    ensures left { result.left ≡ (if origins.now.surround then floor_of (pos 1000 *ℤ (three.left -ℤ five.left)) mode.delta else units_by coded.now sent.now.left.surround) }
    ensures right { result.right ≡ (if origins.now.surround then floor_of (pos 1000 *ℤ (three.right -ℤ five.right)) mode.delta else units_by coded.now sent.now.right.surround) }
    ensures most_left { AtMost hundredth 740 result.left }
    ensures most_right { AtMost hundredth 740 result.right }
{
    if origins.surround {
        unmixed(mode.delta, ratio, three, five)
    } else {
        samples::<PLAIN>(&sent.left.surround, &sent.right.surround, coded)
    }
}

/// What is left of surrounds beside their sides: in each mode of the table alpha is 1 or the same as beta.
#[inline(always)]
fn behind(mode: DemixMode, ratio: i64, surround: Pair, side: Pair) -> Pair
    requires mode { AreBounded (coefficients_of mode) }
    requires alpha { (mode.alpha ≡ 1000) ⊎ (mode.alpha ≡ mode.beta) }
    requires ratio { IsRatio 1000 mode.beta ratio }
    requires surround_left { AtMost hundredth 740 surround.left }
    requires surround_right { AtMost hundredth 740 surround.right }
    requires side_left { AtMost hundredth 100 side.left }
    requires side_right { AtMost hundredth 100 side.right }
    ensures left { result.left ≡ floor_of (pos 1000 *ℤ surround.left -ℤ pos mode.alpha *ℤ side.left) mode.beta }
    ensures right { result.right ≡ floor_of (pos 1000 *ℤ surround.right -ℤ pos mode.alpha *ℤ side.right) mode.beta }
{
    if mode.alpha == 1000 {
        let rest = Pair {
            left: surround.left - side.left,
            right: surround.right - side.right,
        };
        over_both(rest, mode.beta, ratio)
    } else {
        let all = over_both(surround, mode.beta, ratio);
        Pair {
            left: all.left - side.left,
            right: all.right - side.right,
        }
    }
}

/// The rears of 7.1.
#[inline(always)]
fn rears<const PLAIN: bool>(
    origins: &Origins,
    mode: DemixMode,
    ratio: i64,
    surround: Pair,
    side: Pair,
    sent: &ScaledBed,
    coded: &[i64],
) -> Pair
    requires mode { AreBounded (coefficients_of mode) }
    requires alpha { (mode.alpha ≡ 1000) ⊎ (mode.alpha ≡ mode.beta) }
    requires ratio { IsRatio 1000 mode.beta ratio }
    requires surround_left { AtMost hundredth 740 surround.left }
    requires surround_right { AtMost hundredth 740 surround.right }
    requires side_left { AtMost hundredth 100 side.left }
    requires side_right { AtMost hundredth 100 side.right }
    requires quiet { OfBed (IsQuiet PLAIN coded.now) sent.now }
    ensures left { result.left ≡ (if origins.now.rear then floor_of (pos 1000 *ℤ surround.left -ℤ pos mode.alpha *ℤ side.left) mode.beta else units_by coded.now sent.now.left.rear) }
    ensures right { result.right ≡ (if origins.now.rear then floor_of (pos 1000 *ℤ surround.right -ℤ pos mode.alpha *ℤ side.right) mode.beta else units_by coded.now sent.now.right.rear) }
{
    if origins.rear {
        behind(mode, ratio, surround, side)
    } else {
        samples::<PLAIN>(&sent.left.rear, &sent.right.rear, coded)
    }
}

/// The channels at ear height, from those of stereo and the center.
#[inline(always)]
fn ears<const PLAIN: bool>(
    origins: &Origins,
    mode: DemixMode,
    ratios: Ratios,
    two: Pair,
    center: i64,
    sent: &ScaledBed,
    coded: &[i64],
) -> Ears
    requires mode { AreBounded (coefficients_of mode) }
    requires alpha { (mode.alpha ≡ 1000) ⊎ (mode.alpha ≡ mode.beta) }
    requires beta { IsRatio 1000 mode.beta ratios.beta }
    requires delta { IsRatio 1000 mode.delta ratios.gamma }
    requires two_left { AtMost hundredth 300 two.left }
    requires two_right { AtMost hundredth 300 two.right }
    requires center { AtMost hundredth 100 center }
    requires quiet { OfBed (IsQuiet PLAIN coded.now) sent.now }
    ensures left { left_side result ≡ side_from origins.now (coefficients_of mode) two.left (floor_of (pos 707 *ℤ center) 1000) (side_by coded.now sent.now.left) }
    ensures right { right_side result ≡ side_from origins.now (coefficients_of mode) two.right (floor_of (pos 707 *ℤ center) 1000) (side_by coded.now sent.now.right) }
    ensures most_left { AtMost hundredth 740 result.surround.left }
    ensures most_right { AtMost hundredth 740 result.surround.right }
{
    let (l, r) = (&sent.left, &sent.right);
    let three = three::<PLAIN>(origins.three, two, center, &l.three, &r.three, coded);
    let five = samples::<PLAIN>(&l.five, &r.five, coded);
    let surround = surrounds::<PLAIN>(origins, mode, ratios.gamma, three, five, sent, coded);
    let side = samples::<PLAIN>(&l.side, &r.side, coded);
    let rear = rears::<PLAIN>(origins, mode, ratios.beta, surround, side, sent, coded);
    Ears {
        two,
        three,
        five,
        surround,
        side,
        rear,
    }
}

/// What a surround adds to the top of 3.1.2, by a weight in parts of 10^7.
#[inline(always)]
fn narrow_share(weight: u32, surround: i64) -> i64
    requires weight { weight ≤ 5000 * 866 }
    requires surround { AtMost hundredth 740 surround }
    ensures value { result ≡ floor_of (pos weight *ℤ surround) 10000000 }
    ensures most { AtMost hundredth 321 result }
{
    share_of(weight, i128::from(surround)) as i64
}

/// The top of two from that of 3.1.2.
#[inline(always)]
fn top_beside(weight: u32, surround: i64, three: i64) -> i64
    requires weight { weight ≤ 5000 * 866 }
    requires surround { AtMost hundredth 740 surround }
    requires three { AtMost hundredth 100 three }
    ensures value { result ≡ three -ℤ floor_of (pos weight *ℤ surround) 10000000 }
    ensures most { AtMost hundredth 422 result }
{
    three - narrow_share(weight, surround)
}

/// The tops of two.
#[inline(always)]
fn top_two<const PLAIN: bool>(
    origins: &Origins,
    weight: u32,
    surround: Pair,
    three: Pair,
    sent: &ScaledBed,
    coded: &[i64],
) -> Pair
    requires weight { weight ≤ 5000 * 866 }
    requires surround_left { AtMost hundredth 740 surround.left }
    requires surround_right { AtMost hundredth 740 surround.right }
    requires three_left { AtMost hundredth 100 three.left }
    requires three_right { AtMost hundredth 100 three.right }
    requires quiet { OfBed (IsQuiet PLAIN coded.now) sent.now }
    ensures left { result.left ≡ (if origins.now.top then three.left -ℤ floor_of (pos weight *ℤ surround.left) 10000000 else units_by coded.now sent.now.left_top.two) }
    ensures right { result.right ≡ (if origins.now.top then three.right -ℤ floor_of (pos weight *ℤ surround.right) 10000000 else units_by coded.now sent.now.right_top.two) }
    ensures most_left { AtMost hundredth 422 result.left }
    ensures most_right { AtMost hundredth 422 result.right }
{
    if origins.top {
        Pair {
            left: top_beside(weight, surround.left, three.left),
            right: top_beside(weight, surround.right, three.right),
        }
    } else {
        samples::<PLAIN>(&sent.left_top.two, &sent.right_top.two, coded)
    }
}

/// The back tops of four.
#[inline(always)]
fn top_back<const PLAIN: bool>(
    origins: &Origins,
    mode: DemixMode,
    ratio: i64,
    two: Pair,
    four: Pair,
    sent: &ScaledBed,
    coded: &[i64],
) -> Pair
    requires mode { AreBounded (coefficients_of mode) }
    requires ratio { IsRatio 1000 mode.gamma ratio }
    requires two_left { AtMost hundredth 422 two.left }
    requires two_right { AtMost hundredth 422 two.right }
    requires four_left { AtMost hundredth 100 four.left }
    requires four_right { AtMost hundredth 100 four.right }
    requires quiet { OfBed (IsQuiet PLAIN coded.now) sent.now }
    ensures left { result.left ≡ (if origins.now.back then floor_of (pos 1000 *ℤ (two.left -ℤ four.left)) mode.gamma else units_by coded.now sent.now.left_top.back) }
    ensures right { result.right ≡ (if origins.now.back then floor_of (pos 1000 *ℤ (two.right -ℤ four.right)) mode.gamma else units_by coded.now sent.now.right_top.back) }
{
    if origins.back {
        unmixed(mode.gamma, ratio, two, four)
    } else {
        samples::<PLAIN>(&sent.left_top.back, &sent.right_top.back, coded)
    }
}

/// The channels above, with the surrounds of 5.1.
#[inline(always)]
fn heights<const PLAIN: bool>(
    origins: &Origins,
    params: DemixParams,
    ratio: i64,
    surround: Pair,
    sent: &ScaledBed,
    coded: &[i64],
) -> Heights
    requires mode { AreBounded (coefficients_of params.mode) }
    requires weight { params.weight ≤ 5000 }
    requires ratio { IsRatio 1000 params.mode.gamma ratio }
    requires surround_left { AtMost hundredth 740 surround.left }
    requires surround_right { AtMost hundredth 740 surround.right }
    requires quiet { OfBed (IsQuiet PLAIN coded.now) sent.now }
    ensures left { left_tops result ≡ tops_from origins.now (coefficients_of params.mode) params.weight surround.left (tops_by coded.now sent.now.left_top) }
    ensures right { right_tops result ≡ tops_from origins.now (coefficients_of params.mode) params.weight surround.right (tops_by coded.now sent.now.right_top) }
{
    let (l, r) = (&sent.left_top, &sent.right_top);
    let three = samples::<PLAIN>(&l.three, &r.three, coded);
    let weight = params.weight * params.mode.delta;
    let two = top_two::<PLAIN>(origins, weight, surround, three, sent, coded);
    let four = samples::<PLAIN>(&l.four, &r.four, coded);
    let back = top_back::<PLAIN>(origins, params.mode, ratio, two, four, sent, coded);
    Heights {
        three,
        two,
        four,
        back,
    }
}

/// All channels.
#[inline(always)]
pub(crate) fn bed<const PLAIN: bool>(
    origins: &Origins,
    params: DemixParams,
    sent: &ScaledBed,
    coded: &[i64],
) -> Bed
    requires known { IsMode params.mode }
    requires mode { AreBounded (coefficients_of params.mode) }
    requires weight { params.weight ≤ 5000 }
    requires quiet { OfBed (IsQuiet PLAIN coded.now) sent.now }
    ensures { result ≡ all_from origins.now (coefficients_of params.mode) params.weight (bed_by coded.now sent.now) }
{
    let mode = params.mode;
    let ratios = ratios_of(mode);
    let mono = sample::<PLAIN>(&sent.mono, coded);
    let center = sample::<PLAIN>(&sent.center, coded);
    let low = sample::<PLAIN>(&sent.low, coded);
    let left = sample::<PLAIN>(&sent.left.two, coded);
    let right = two_right::<PLAIN>(origins.right, mono, left, &sent.right.two, coded);
    let two = Pair { left, right };
    let ears = ears::<PLAIN>(origins, mode, ratios, two, center, sent, coded);
    let heights = heights::<PLAIN>(origins, params, ratios.gamma, ears.surround, sent, coded);
    Bed {
        mono: i128::from(mono),
        center: i128::from(center),
        low: i128::from(low),
        left: ears.left(),
        right: ears.right(),
        left_top: heights.left(),
        right_top: heights.right(),
    }
}
