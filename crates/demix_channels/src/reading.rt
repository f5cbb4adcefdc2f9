//! What a layer transmits: which coded sample each channel is, and by what it is multiplied.

ghost use Rattle.std.specs.Prelude.{◌≡◌, ◌+◌, ◌<◌, ◌≤◌, ◌&&◌, nat_le, nat_lt, if◌then◌else◌};
ghost use Rattle.spec_demix.specs.Kinds.{kind_of};
ghost use Rattle.spec_demix.specs.OutputGains.{factor_of};
ghost use Rattle.spec_demix.specs.Sent.{nothing_sent, sent_if, plain_if, first_side, first_tops, first_sent, next_tops, next_sent};

use crate::kinds::{gives_back, gives_four, gives_three, gives_two, is_reached, kind};
use crate::places::{back_place, center_place, first_top, side_place, stereo_place, top_place};
use spec_demix::{DemixLayer, Kind, Sent, SentBed, SentSide, SentTops};

/// The places of the flags of an output gain, from the least significant.
const LEFT: u8 = 5;

const RIGHT: u8 = 4;

const LEFT_SURROUND: u8 = 3;

const RIGHT_SURROUND: u8 = 2;

const LEFT_TOP: u8 = 1;

const RIGHT_TOP: u8 = 0;

const ONE: u64 = 1_000_000_000_000;

const NOTHING: Sent = Sent {
    place: 0,
    factor: 0,
};

fn sent_if(test: bool, factor: u64, place: usize) -> Sent
    ensures { result ≡ sent_if test factor place }
{
    if test {
        Sent { place, factor }
    } else {
        NOTHING
    }
}

/// A channel that no output gain acts on.
fn plain_if(test: bool, place: usize) -> Sent
    ensures { result ≡ plain_if test place }
{
    sent_if(test, ONE, place)
}

/// What a channel with a flag is multiplied by.
fn factor(layer: DemixLayer, flag: u8) -> u64
    requires { flag < 8 }
    ensures { result ≡ factor_of layer flag }
{
    if (layer.flags >> flag) % 2 == 1 {
        layer.factor
    } else {
        ONE
    }
}

/// Whether a count is at least `low` and below `end`.
fn is_within(low: u8, count: u8, end: u8) -> bool
    ensures { result ≡ (nat_le low count && nat_lt count end) }
{
    low <= count && count < end
}

fn side_first(layer: DemixLayer, kind: Kind, right: usize, front: u8, back: u8) -> SentSide
    requires kind { kind ≡ kind_of layer.layout }
    requires right { right < 2 }
    requires front { front < 8 }
    requires back { back < 8 }
    ensures { result ≡ first_side layer right front back }
{
    let surround = kind.surround;
    let front = factor(layer, front);
    let back = factor(layer, back);
    SentSide {
        two: sent_if(is_within(2, surround, 3), front, right),
        three: sent_if(is_within(3, surround, 5), front, right),
        five: plain_if(5 <= surround, right),
        surround: sent_if(is_within(5, surround, 7), back, 2 + right),
        side: plain_if(7 <= surround, 2 + right),
        rear: plain_if(7 <= surround, 4 + right),
    }
}

fn has_top_three(kind: Kind) -> bool
    ensures { result ≡ (nat_le 2 kind.height && nat_lt kind.surround 5) }
{
    2 <= kind.height && kind.surround < 5
}

fn has_top_two(kind: Kind) -> bool
    ensures { result ≡ (nat_le 2 kind.height && (nat_lt kind.height 4 && nat_le 5 kind.surround)) }
{
    2 <= kind.height && (kind.height < 4 && 5 <= kind.surround)
}

fn tops_first(layer: DemixLayer, kind: Kind, right: usize, flag: u8) -> SentTops
    requires kind { kind ≡ kind_of layer.layout }
    requires right { right < 2 }
    requires flag { flag < 8 }
    ensures { result ≡ first_tops layer right flag }
{
    let at = first_top(kind.surround) + right;
    let factor = factor(layer, flag);
    SentTops {
        three: sent_if(has_top_three(kind), factor, at),
        two: sent_if(has_top_two(kind), factor, at),
        four: sent_if(4 <= kind.height, factor, at),
        back: plain_if(4 <= kind.height, 2 + at),
    }
}

/// What a first layer transmits.
pub fn sent_first(layer: DemixLayer) -> SentBed
    ensures { result ≡ first_sent layer }
{
    let kind = kind(layer.layout);
    let center = first_top(kind.surround) + usize::from(kind.height);
    SentBed {
        mono: sent_if(kind.surround < 2, factor(layer, LEFT), 0),
        center: plain_if(3 <= kind.surround, center),
        low: plain_if(3 <= kind.surround, 1 + center),
        left: side_first(layer, kind, 0, LEFT, LEFT_SURROUND),
        right: side_first(layer, kind, 1, RIGHT, RIGHT_SURROUND),
        left_top: tops_first(layer, kind, 0, LEFT_TOP),
        right_top: tops_first(layer, kind, 1, RIGHT_TOP),
    }
}

/// What the single left channel of stereo is multiplied by.
fn stereo_factor(layer: DemixLayer, now: Kind) -> u64
    ensures { result ≡ (if nat_lt now.surround 5 then factor_of layer 5 else 1000000000000) }
{
    if now.surround < 5 {
        factor(layer, LEFT)
    } else {
        ONE
    }
}

fn left_next(before: Kind, layer: DemixLayer, now: Kind, at: usize) -> SentSide
    requires now { now ≡ kind_of layer.layout }
    requires at { at ≤ 12 }
    ensures { result ≡ (next_sent before layer at).left }
{
    SentSide {
        two: sent_if(
            is_reached(2, before.surround, now.surround),
            stereo_factor(layer, now),
            stereo_place(before, now, at),
        ),
        three: NOTHING,
        five: plain_if(is_reached(5, before.surround, now.surround), at),
        surround: NOTHING,
        side: plain_if(
            is_reached(7, before.surround, now.surround),
            side_place(before, now, at),
        ),
        rear: NOTHING,
    }
}

fn right_next(before: Kind, layer: DemixLayer, now: Kind, at: usize) -> SentSide
    requires now { now ≡ kind_of layer.layout }
    requires at { at ≤ 12 }
    ensures { result ≡ (next_sent before layer at).right }
{
    SentSide {
        two: NOTHING,
        three: NOTHING,
        five: plain_if(is_reached(5, before.surround, now.surround), at + 1),
        surround: NOTHING,
        side: plain_if(
            is_reached(7, before.surround, now.surround),
            side_place(before, now, at) + 1,
        ),
        rear: NOTHING,
    }
}

fn tops_next(
    before: Kind,
    layer: DemixLayer,
    now: Kind,
    at: usize,
    right: usize,
    flag: u8,
) -> SentTops
    requires now { now ≡ kind_of layer.layout }
    requires at { at ≤ 12 }
    requires right { right < 2 }
    requires flag { flag < 8 }
    ensures { result ≡ next_tops before layer at right flag }
{
    let top = top_place(before, now, at) + right;
    let factor = factor(layer, flag);
    SentTops {
        three: sent_if(gives_three(before, now), factor, top),
        two: sent_if(gives_two(before, now), factor, top),
        four: sent_if(gives_four(before, now), factor, top),
        back: plain_if(gives_back(before, now), back_place(before, now, at) + right),
    }
}

/// What a layer after one with the counts `before` transmits, whose coded samples begin at `at`.
pub fn sent_next(before: Kind, layer: DemixLayer, at: usize) -> SentBed
    requires { at ≤ 12 }
    ensures { result ≡ next_sent before layer at }
{
    let now = kind(layer.layout);
    let three = is_reached(3, before.surround, now.surround);
    let center = center_place(before, now, at);
    SentBed {
        mono: NOTHING,
        center: plain_if(three, center),
        low: plain_if(three, center + 1),
        left: left_next(before, layer, now, at),
        right: right_next(before, layer, now, at),
        left_top: tops_next(before, layer, now, at, 0, LEFT_TOP),
        right_top: tops_next(before, layer, now, at, 1, RIGHT_TOP),
    }
}
