//! Where each channel of an element comes from. No channel that one layer gives is given anew by a later one, so that all
//! layers can be demixed in one go.

ghost use Rattle.std.specs.Prelude.{◌≡◌, ◌<◌, ◌≤◌, length, if◌then◌else◌};
ghost use Rattle.mix_fixed.specs.Kernel.{target_of};
ghost use Rattle.mix_fixed.specs.Origins.{side_origins, tops_origins, sent_origins, origins_after, origins_of};

use demix_channels::{
    gives_back, gives_four, gives_three, gives_two, is_reached, kind, leaves_three, sent_first,
    sent_next, splits_two,
};
use iamf_tables::channel_count;
use spec_demix::{DemixLayer, Kind, Sent, SentBed, SentSide, SentTops};

/// Which coded sample each channel is, whichever layer transmits it, and which channels follow from others.
#[derive(Clone, Copy)]
pub(crate) struct Origins {
    pub(crate) sent: SentBed,
    /// The right of stereo follows from mono and the left.
    pub(crate) right: bool,
    /// The left and right of 3.1.2 follow from those of stereo and the center.
    pub(crate) three: bool,
    /// The surrounds of 5.1 follow from the left and right of 3.1.2 and of 5.1.
    pub(crate) surround: bool,
    /// The rears of 7.1 follow from the surrounds of 5.1 and the sides.
    pub(crate) rear: bool,
    /// The tops of two follow from those of 3.1.2 and the surrounds of 5.1.
    pub(crate) top: bool,
    /// The back tops follow from the tops of two and the front tops of four.
    pub(crate) back: bool,
}

fn later(test: bool, next: Sent, old: Sent) -> Sent
    ensures { result ≡ (if test then next else old) }
{
    if test { next } else { old }
}

fn side_origins(before: u8, now: u8, old: &SentSide, next: &SentSide) -> SentSide
    ensures { result ≡ side_origins before now old.now next.now }
{
    SentSide {
        two: later(is_reached(2, before, now), next.two, old.two),
        three: old.three,
        five: later(is_reached(5, before, now), next.five, old.five),
        surround: old.surround,
        side: later(is_reached(7, before, now), next.side, old.side),
        rear: old.rear,
    }
}

fn tops_origins(before: Kind, now: Kind, old: &SentTops, next: &SentTops) -> SentTops
    ensures { result ≡ tops_origins before now old.now next.now }
{
    SentTops {
        three: later(gives_three(before, now), next.three, old.three),
        two: later(gives_two(before, now), next.two, old.two),
        four: later(gives_four(before, now), next.four, old.four),
        back: later(gives_back(before, now), next.back, old.back),
    }
}

fn sent_origins(before: Kind, now: Kind, old: &SentBed, next: &SentBed) -> SentBed
    ensures { result ≡ sent_origins before now old.now next.now }
{
    let (from, to) = (before.surround, now.surround);
    let three = is_reached(3, from, to);
    SentBed {
        mono: old.mono,
        center: later(three, next.center, old.center),
        low: later(three, next.low, old.low),
        left: side_origins(from, to, &old.left, &next.left),
        right: side_origins(from, to, &old.right, &next.right),
        left_top: tops_origins(before, now, &old.left_top, &next.left_top),
        right_top: tops_origins(before, now, &old.right_top, &next.right_top),
    }
}

/// The origins after one layer more.
fn origins_after(before: Kind, now: Kind, old: &Origins, next: &SentBed) -> Origins
    ensures { result ≡ origins_after before now old.now next.now }
{
    let (from, to) = (before.surround, now.surround);
    Origins {
        sent: sent_origins(before, now, &old.sent, next),
        right: is_reached(2, from, to) || old.right,
        three: is_reached(3, from, to) || old.three,
        surround: is_reached(5, from, to) || old.surround,
        rear: is_reached(7, from, to) || old.rear,
        top: leaves_three(before, now) || old.top,
        back: splits_two(before, now) || old.back,
    }
}

/// The origins of the channels of some layers, of which the first is an element's first.
pub(crate) fn origins_of(layers: &[DemixLayer]) -> Origins
    requires some { 0 < length layers.now }
    ensures { result ≡ origins_of layers.now (target_of layers.now) }
{
    let mut all = Origins {
        sent: sent_first(layers[0]),
        right: false,
        three: false,
        surround: false,
        rear: false,
        top: false,
        back: false,
    };
    for i in 0..layers.len() - 1 {
        let old = layers[i].layout;
        let before = kind(old);
        let next = sent_next(before, layers[i + 1], channel_count(old));
        let now = kind(layers[i + 1].layout);
        all = origins_after(before, now, &all, &next);
    }
    all
}
