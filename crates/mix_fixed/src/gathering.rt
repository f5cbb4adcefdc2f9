//! The target's channels among all.

ghost use Rattle.std.specs.Prelude.{◌≡◌, ◌≢◌, length, map};
ghost use Rattle.spec_layouts.specs.Layouts.{channels};
ghost use Rattle.spec_demix.specs.Kinds.{kind_of};
ghost use Rattle.spec_demix.specs.Values.{value_of};

use spec_demix::Bed;
use spec_layouts::Layout;

macro_rules! row {
    ($out:ident, $n:literal: $($channel:expr),*) => {{
        // A caller's count of channels leaves few layouts, and the compiler needs to keep no other.
        if $out.len() == $n {
            let row: [i128; $n] = [$($channel),*];
            put(&row, $out);
        }
    }};
}

/// Writes a row of channels, one by one: a row whose place is never asked for stays in registers.
#[inline(always)]
fn put(row: &[i128], out: &mut [i128])
    requires { length row.now ≡ length out.old }
    ensures { out.new ≡ row.now }
{
    for i in 0..row.len() {
        out[i] = row[i];
    }
}

/// The channels of a layout in the order of a WAV file.
#[inline(always)]
pub(crate) fn gather<const C: usize>(layout: Layout, bed: &Bed, out: &mut [i128; C])
    requires speakers { layout ≢ Layout.Binaural }
    requires count { C ≡ length (channels layout) }
    ensures { out.new ≡ map (value_of (kind_of layout) bed.now) (channels layout) }
{
    let (l, r, lt, rt) = (&bed.left, &bed.right, &bed.left_top, &bed.right_top);
    match layout {
        Layout::Mono => row!(out, 1: bed.mono),
        Layout::Stereo => row!(out, 2: l.two, r.two),
        Layout::L51 => row!(out, 6: l.five, r.five, bed.center, bed.low, l.surround, r.surround),
        Layout::L512 =>
            row!(out, 8: l.five, r.five, bed.center, bed.low, l.surround, r.surround, lt.two, rt.two),
        Layout::L514 =>
            row!(out, 10: l.five, r.five, bed.center, bed.low, l.surround, r.surround, lt.four, rt.four, lt.back, rt.back),
        Layout::L71 =>
            row!(out, 8: l.five, r.five, bed.center, bed.low, l.rear, r.rear, l.side, r.side),
        Layout::L712 =>
            row!(out, 10: l.five, r.five, bed.center, bed.low, l.rear, r.rear, l.side, r.side, lt.two, rt.two),
        Layout::L714 =>
            row!(out, 12: l.five, r.five, bed.center, bed.low, l.rear, r.rear, l.side, r.side, lt.four, rt.four, lt.back, rt.back),
        Layout::L312 => row!(out, 6: l.three, r.three, bed.center, bed.low, lt.three, rt.three),
        Layout::Binaural => unreachable!(),
    }
}
