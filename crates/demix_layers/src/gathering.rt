//! The channels of a target, from those that the exact walk keeps.

ghost use Rattle.std.specs.Prelude.{◌≡◌, ◌≢◌, ◌*◌, ◌<◌, ◌≤◌, pos, length, map};
ghost use Rattle.spec_gains.specs.Modes.{coefficients_of, AreBounded};
ghost use Rattle.spec_layouts.specs.Layouts.{channels};
ghost use Rattle.spec_demix.specs.ExactWalk.{over, front_fraction, top_fraction, surround_fraction, rear_fraction, back_fraction, parts_of, whole_of};
ghost use Rattle.demix_layers.specs.Quotients.{IsQuotient, AreHalf, AreWhole, fraction_at};

use crate::fractions::{Half, Whole};
use crate::steps::product;
use iamf_tables::DemixMode;
use spec_demix::{Bed, Fraction, Kind, Side, Tops};
use spec_layouts::Layout;

/// A top over a bottom.
fn over(top: i128, bottom: u128) -> Fraction
    requires some { 0 < bottom }
    requires small { bottom ≤ 10000000000000000000000 }
    ensures { IsQuotient (over top bottom) result }
{
    Fraction {
        top,
        bottom: bottom as i128,
    }
}

fn front(kind: Kind, v: &Side) -> Fraction
    ensures { IsQuotient (front_fraction kind v.now) result }
{
    if 5 <= kind.surround {
        over(v.five, 1_000_000_000_000)
    } else if 3 <= kind.surround {
        over(v.three, 1_000_000_000_000_000)
    } else {
        over(v.two, 1_000_000_000_000)
    }
}

fn top(kind: Kind, v: &Tops) -> Fraction
    ensures { IsQuotient (top_fraction kind v.now) result }
{
    if 4 <= kind.height {
        over(v.four, 1_000_000_000_000)
    } else if 5 <= kind.surround {
        over(v.two, 10_000_000_000_000_000_000)
    } else {
        over(v.three, 1_000_000_000_000)
    }
}

fn surround(mode: DemixMode, v: &Side) -> Fraction
    requires { AreBounded (coefficients_of mode) }
    ensures { IsQuotient (surround_fraction (coefficients_of mode) v.now) result }
{
    over(v.surround, 1_000_000_000_000 * u128::from(mode.delta))
}

fn rear(mode: DemixMode, v: &Side) -> Fraction
    requires { AreBounded (coefficients_of mode) }
    ensures { IsQuotient (rear_fraction (coefficients_of mode) v.now) result }
{
    over(
        v.rear,
        1_000_000_000_000 * u128::from(product(mode.delta, mode.beta)),
    )
}

fn back(mode: DemixMode, v: &Tops) -> Fraction
    requires { AreBounded (coefficients_of mode) }
    ensures { IsQuotient (back_fraction (coefficients_of mode) v.now) result }
{
    over(v.back, 10_000_000_000_000_000 * u128::from(mode.gamma))
}

fn half(kind: Kind, mode: DemixMode, v: &Side, t: &Tops) -> Half
    requires { AreBounded (coefficients_of mode) }
    ensures { AreHalf (parts_of kind (coefficients_of mode) v.now t.now) result }
{
    Half {
        front: front(kind, v),
        surround: surround(mode, v),
        side: over(v.side, 1_000_000_000_000),
        rear: rear(mode, v),
        top: top(kind, t),
        top_back: back(mode, t),
    }
}

/// The channels of a layout with these counts.
pub(crate) fn whole(kind: Kind, mode: DemixMode, v: &Bed) -> Whole
    requires { AreBounded (coefficients_of mode) }
    ensures { AreWhole (whole_of kind (coefficients_of mode) v.now) result }
{
    Whole {
        mono: over(v.mono, 1_000_000_000_000),
        center: over(v.center, 1_000_000_000_000),
        low: over(v.low, 1_000_000_000_000),
        left: half(kind, mode, &v.left, &v.left_top),
        right: half(kind, mode, &v.right, &v.right_top),
    }
}

macro_rules! row {
    ($out:ident, $n:literal: $($channel:expr),*) => {{
        let row: [Fraction; $n] = [$($channel),*];
        $out.copy_from_slice(&row);
    }};
}

/// A layout's channels in the order of a WAV file.
pub(crate) fn gather<const C: usize>(layout: Layout, x: &Whole, out: &mut [Fraction; C])
    requires speakers { layout ≢ Layout.Binaural }
    requires count { C ≡ length (channels layout) }
    ensures { out.new ≡ map (fraction_at x.now) (channels layout) }
{
    let (l, r) = (&x.left, &x.right);
    match layout {
        Layout::Mono => row!(out, 1: x.mono),
        Layout::Stereo => row!(out, 2: l.front, r.front),
        Layout::L51 => row!(out, 6: l.front, r.front, x.center, x.low, l.surround, r.surround),
        Layout::L512 =>
            row!(out, 8: l.front, r.front, x.center, x.low, l.surround, r.surround, l.top, r.top),
        Layout::L514 =>
            row!(out, 10: l.front, r.front, x.center, x.low, l.surround, r.surround, l.top, r.top, l.top_back, r.top_back),
        Layout::L71 =>
            row!(out, 8: l.front, r.front, x.center, x.low, l.rear, r.rear, l.side, r.side),
        Layout::L712 =>
            row!(out, 10: l.front, r.front, x.center, x.low, l.rear, r.rear, l.side, r.side, l.top, r.top),
        Layout::L714 =>
            row!(out, 12: l.front, r.front, x.center, x.low, l.rear, r.rear, l.side, r.side, l.top, r.top, l.top_back, r.top_back),
        Layout::L312 => row!(out, 6: l.front, r.front, x.center, x.low, l.top, r.top),
        Layout::Binaural => unreachable!(),
    }
}
