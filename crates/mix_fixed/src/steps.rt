//! How each kind of channel follows from those that are sent and from others. No number overflows, since each channel is at
//! most a known multiple of what can be sent.

ghost use Rattle.std.specs.Prelude.{◌≡◌, ◌*◌, ◌^◌, ◌≤◌, length, pos, ◌-ℤ◌, ◌*ℤ◌, if◌then◌else◌};
ghost use Rattle.spec_gains.specs.Modes.{coefficients_of, AreBounded};
ghost use Rattle.spec_demix.specs.Floor.{floor_of};
ghost use Rattle.spec_demix.specs.FixedWalk.{units_of, side_units, tops_units, bed_units};
ghost use Rattle.spec_demix.specs.Sent.{sample_of, side_of, tops_of, bed_of};
ghost use Rattle.spec_demix.specs.Sizes.{AreSamples};
ghost use Rattle.demix_channels.specs.Room.{IsSentWithin, AreSidesWithin, AreTopsWithin, AreWithin};
ghost use Rattle.mix_fixed.specs.Within.{AtMost};
ghost use Rattle.mix_fixed.specs.Origins.{side_from, tops_from, bed_from};

use crate::floors::floor;
use crate::origins::Origins;
use crate::samples::sample;
use demix_channels::DemixParams;
use iamf_tables::DemixMode;
use spec_demix::{Bed, Sent, SentSide, SentTops, Side, Tops};

/// Right of stereo: from mono and left, or as it is sent.
#[inline]
#[tactic(auto, using(crate::proofs::SampleSizes::sample_most))]
fn two_right(follows: bool, mono: i128, left: i128, sent: Sent, coded: &[i64]) -> i128
    requires within { IsSentWithin (length coded.now) sent }
    requires samples { AreSamples coded.now }
    requires mono { AtMost (2 ^ 58) 100 mono }
    requires left { AtMost (2 ^ 58) 100 left }
    ensures value { result ≡ (if follows then pos 2 *ℤ mono -ℤ left else units_of (sample_of coded.now sent)) }
    ensures most { AtMost (2 ^ 58) 300 result }
{
    if follows {
        2 * mono - left
    } else {
        sample(sent, coded)
    }
}

/// The center's part of the left and the right of stereo.
#[inline]
fn share_of_center(center: i128) -> i128
    requires { AtMost (2 ^ 58) 100 center }
    ensures value { result ≡ floor_of (pos 707 *ℤ center) 1000 }
    ensures most { AtMost (2 ^ 58) 72 result }
{
    floor(707 * center, 1000)
}

/// Left or right of 3.1.2.
#[inline]
fn three(follows: bool, two: i128, share: i128, sent: Sent, coded: &[i64]) -> i128
    requires two { AtMost (2 ^ 58) 300 two }
    requires share { AtMost (2 ^ 58) 72 share }
    requires within { IsSentWithin (length coded.now) sent }
    requires samples { AreSamples coded.now }
    ensures value { result ≡ (if follows then two -ℤ share else units_of (sample_of coded.now sent)) }
    ensures most { AtMost (2 ^ 58) 372 result }
{
    if follows {
        two - share
    } else {
        sample(sent, coded)
    }
}

/// What is left of a channel beside a part of it, over the coefficient with which it was mixed in.
#[inline]
fn unmixed(coefficient: u32, whole: i128, part: i128) -> i128
    requires least { 707 ≤ coefficient }
    requires most { coefficient ≤ 866 }
    requires whole { AtMost (2 ^ 58) 422 whole }
    requires part { AtMost (2 ^ 58) 100 part }
    ensures value { result ≡ floor_of (pos 1000 *ℤ (whole -ℤ part)) coefficient }
    ensures most { AtMost (2 ^ 58) 740 result }
{
    floor(1000 * (whole - part), coefficient)
}

/// The surround of 5.1.
#[inline]
fn surround(follows: bool, delta: u32, three: i128, five: i128, sent: Sent, coded: &[i64]) -> i128
    requires least { 707 ≤ delta }
    requires most { delta ≤ 866 }
    requires three { AtMost (2 ^ 58) 372 three }
    requires five { AtMost (2 ^ 58) 100 five }
    requires within { IsSentWithin (length coded.now) sent }
    requires samples { AreSamples coded.now }
    ensures value { result ≡ (if follows then floor_of (pos 1000 *ℤ (three -ℤ five)) delta else units_of (sample_of coded.now sent)) }
    ensures most { AtMost (2 ^ 58) 740 result }
{
    if follows {
        unmixed(delta, three, five)
    } else {
        sample(sent, coded)
    }
}

/// A channel times a coefficient in thousandths.
#[inline]
fn times(coefficient: u32, channel: i128) -> i128
    requires coefficient { coefficient ≤ 1000 }
    requires channel { AtMost (2 ^ 58) 100 channel }
    ensures value { result ≡ pos coefficient *ℤ channel }
    ensures most { AtMost (2 ^ 58) 100000 result }
{
    i128::from(coefficient) * channel
}

/// What is left of a surround beside its side part, in thousandths, over a coefficient.
#[inline]
fn behind(beta: u32, surround: i128, side: i128) -> i128
    requires least { 707 ≤ beta }
    requires most { beta ≤ 1000 }
    requires surround { AtMost (2 ^ 58) 740 surround }
    requires side { AtMost (2 ^ 58) 100000 side }
    ensures value { result ≡ floor_of (pos 1000 *ℤ surround -ℤ side) beta }
    ensures most { AtMost (2 ^ 58) 1190 result }
{
    floor(1000 * surround - side, beta)
}

/// The rear of 7.1.
#[inline]
fn rear(
    follows: bool,
    mode: DemixMode,
    surround: i128,
    side: i128,
    sent: Sent,
    coded: &[i64],
) -> i128
    requires mode { AreBounded (coefficients_of mode) }
    requires surround { AtMost (2 ^ 58) 740 surround }
    requires side { AtMost (2 ^ 58) 100 side }
    requires within { IsSentWithin (length coded.now) sent }
    requires samples { AreSamples coded.now }
    ensures { result ≡ (if follows then floor_of (pos 1000 *ℤ surround -ℤ pos mode.alpha *ℤ side) mode.beta else units_of (sample_of coded.now sent)) }
{
    if follows {
        behind(mode.beta, surround, times(mode.alpha, side))
    } else {
        sample(sent, coded)
    }
}

/// One side's channels at ear height, where `two` is that of stereo and `share` the center's part of it.
#[inline]
fn side(
    origins: &Origins,
    mode: DemixMode,
    two: i128,
    share: i128,
    sent: &SentSide,
    coded: &[i64],
) -> Side
    requires mode { AreBounded (coefficients_of mode) }
    requires two { AtMost (2 ^ 58) 300 two }
    requires share { AtMost (2 ^ 58) 72 share }
    requires within { AreSidesWithin (length coded.now) sent.now }
    requires samples { AreSamples coded.now }
    ensures value { result ≡ side_from origins.now (coefficients_of mode) two share (side_units (side_of coded.now sent.now)) }
    ensures surround { AtMost (2 ^ 58) 740 result.surround }
{
    let three = three(origins.three, two, share, sent.three, coded);
    let five = sample(sent.five, coded);
    let surround = surround(
        origins.surround,
        mode.delta,
        three,
        five,
        sent.surround,
        coded,
    );
    let side = sample(sent.side, coded);
    let rear = rear(origins.rear, mode, surround, side, sent.rear, coded);
    Side {
        two,
        three,
        five,
        surround,
        side,
        rear,
    }
}

/// What a surround adds to the top of 3.1.2, by a weight in parts of 10^7.
#[inline]
pub(crate) fn share_of(weight: u32, surround: i128) -> i128
    requires weight { weight ≤ 5000 * 866 }
    requires surround { AtMost (2 ^ 58) 740 surround }
    ensures value { result ≡ floor_of (pos weight *ℤ surround) 10000000 }
    ensures most { AtMost (2 ^ 58) 321 result }
{
    floor(i128::from(weight) * surround, 10_000_000)
}

/// The top of two.
#[inline]
fn top_two(
    follows: bool,
    weight: u32,
    surround: i128,
    three: i128,
    sent: Sent,
    coded: &[i64],
) -> i128
    requires weight { weight ≤ 5000 * 866 }
    requires surround { AtMost (2 ^ 58) 740 surround }
    requires three { AtMost (2 ^ 58) 100 three }
    requires within { IsSentWithin (length coded.now) sent }
    requires samples { AreSamples coded.now }
    ensures value { result ≡ (if follows then three -ℤ floor_of (pos weight *ℤ surround) 10000000 else units_of (sample_of coded.now sent)) }
    ensures most { AtMost (2 ^ 58) 422 result }
{
    if follows {
        three - share_of(weight, surround)
    } else {
        sample(sent, coded)
    }
}

/// The back top of four.
#[inline]
fn top_back(follows: bool, gamma: u32, two: i128, four: i128, sent: Sent, coded: &[i64]) -> i128
    requires least { 707 ≤ gamma }
    requires most { gamma ≤ 866 }
    requires two { AtMost (2 ^ 58) 422 two }
    requires four { AtMost (2 ^ 58) 100 four }
    requires within { IsSentWithin (length coded.now) sent }
    requires samples { AreSamples coded.now }
    ensures { result ≡ (if follows then floor_of (pos 1000 *ℤ (two -ℤ four)) gamma else units_of (sample_of coded.now sent)) }
{
    if follows {
        unmixed(gamma, two, four)
    } else {
        sample(sent, coded)
    }
}

/// One side's tops, with the surround of 5.1.
#[inline]
fn tops(
    origins: &Origins,
    params: DemixParams,
    surround: i128,
    sent: &SentTops,
    coded: &[i64],
) -> Tops
    requires mode { AreBounded (coefficients_of params.mode) }
    requires weight { params.weight ≤ 5000 }
    requires surround { AtMost (2 ^ 58) 740 surround }
    requires within { AreTopsWithin (length coded.now) sent.now }
    requires samples { AreSamples coded.now }
    ensures { result ≡ tops_from origins.now (coefficients_of params.mode) params.weight surround (tops_units (tops_of coded.now sent.now)) }
{
    let three = sample(sent.three, coded);
    let two = top_two(
        origins.top,
        params.weight * params.mode.delta,
        surround,
        three,
        sent.two,
        coded,
    );
    let four = sample(sent.four, coded);
    let back = top_back(origins.back, params.mode.gamma, two, four, sent.back, coded);
    Tops {
        three,
        two,
        four,
        back,
    }
}

/// All channels.
#[inline]
pub(crate) fn bed(origins: &Origins, params: DemixParams, coded: &[i64]) -> Bed
    requires mode { AreBounded (coefficients_of params.mode) }
    requires weight { params.weight ≤ 5000 }
    requires within { AreWithin (length coded.now) origins.now.sent }
    requires samples { AreSamples coded.now }
    ensures { result ≡ bed_from origins.now (coefficients_of params.mode) params.weight coded.now }
{
    let sent = &origins.sent;
    let mode = params.mode;
    let mono = sample(sent.mono, coded);
    let center = sample(sent.center, coded);
    let low = sample(sent.low, coded);
    let left_two = sample(sent.left.two, coded);
    let right_two = two_right(origins.right, mono, left_two, sent.right.two, coded);
    let share = share_of_center(center);
    let left = side(origins, mode, left_two, share, &sent.left, coded);
    let right = side(origins, mode, right_two, share, &sent.right, coded);
    let left_top = tops(origins, params, left.surround, &sent.left_top, coded);
    let right_top = tops(origins, params, right.surround, &sent.right_top, coded);
    Bed {
        mono,
        center,
        low,
        left,
        right,
        left_top,
        right_top,
    }
}
