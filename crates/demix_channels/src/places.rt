//! Where the channels of a layer stand among its coded samples.

ghost use Rattle.std.specs.Prelude.{◌≡◌, ◌+◌, ◌≤◌};
ghost use Rattle.spec_demix.specs.Sent.{count_if, first_top, next_side_at, next_top_at, next_back_at, next_center_at, next_stereo_at};

use crate::kinds::{gives_back, is_reached};
use spec_demix::Kind;

/// Where the height channels of a first layer begin.
pub(crate) fn first_top(surround: u8) -> usize
    ensures value { result ≡ first_top surround }
    ensures small { result ≤ 6 }
{
    if 7 <= surround {
        6
    } else if 5 <= surround {
        4
    } else {
        2
    }
}

fn count_if(test: bool, n: usize) -> usize
    ensures value { result ≡ count_if test n }
    ensures small { result ≤ n }
{
    if test { n } else { 0 }
}

/// Where the side surrounds of a next layer begin, whose channels begin at `at`.
pub(crate) fn side_place(before: Kind, now: Kind, at: usize) -> usize
    requires { at ≤ 12 }
    ensures value { result ≡ next_side_at before now at }
    ensures small { result ≤ 14 }
{
    at + count_if(is_reached(5, before.surround, now.surround), 2)
}

/// Where its top front channels begin.
pub(crate) fn top_place(before: Kind, now: Kind, at: usize) -> usize
    requires { at ≤ 12 }
    ensures value { result ≡ next_top_at before now at }
    ensures small { result ≤ 16 }
{
    side_place(before, now, at) + count_if(is_reached(7, before.surround, now.surround), 2)
}

/// Where its top back channels begin.
pub(crate) fn back_place(before: Kind, now: Kind, at: usize) -> usize
    requires { at ≤ 12 }
    ensures value { result ≡ next_back_at before now at }
    ensures small { result ≤ 18 }
{
    top_place(before, now, at) + count_if(before.height < now.height, 2)
}

/// Where its center is.
pub(crate) fn center_place(before: Kind, now: Kind, at: usize) -> usize
    requires { at ≤ 12 }
    ensures value { result ≡ next_center_at before now at }
    ensures small { result ≤ 20 }
{
    back_place(before, now, at) + count_if(gives_back(before, now), 2)
}

/// Where its single left channel of stereo is.
pub(crate) fn stereo_place(before: Kind, now: Kind, at: usize) -> usize
    requires { at ≤ 12 }
    ensures value { result ≡ next_stereo_at before now at }
    ensures small { result ≤ 22 }
{
    center_place(before, now, at) + count_if(is_reached(3, before.surround, now.surround), 2)
}
