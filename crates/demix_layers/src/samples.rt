//! What a layer transmits, in parts of 10^12.

ghost use Rattle.std.specs.Prelude.{◌≡◌, ◌*◌, ◌^◌, ◌<◌, ◌≤◌, pos, ◌*ℤ◌, unsigned_abs, length};
ghost use Rattle.spec_demix.specs.Sent.{sample_of, side_of, tops_of, bed_of};
ghost use Rattle.spec_demix.specs.Sizes.{AreSamples};
ghost use Rattle.demix_channels.specs.Room.{IsSentWithin, AreSidesWithin, AreTopsWithin, AreWithin};

use spec_demix::{Bed, Sent, SentBed, SentSide, SentTops, Side, Tops};

/// A coded sample times a factor.
fn scaled(y: i64, factor: u64) -> i128
    requires y { unsigned_abs y ≤ 2 ^ 31 }
    requires factor { factor ≤ 39810717055340 }
    ensures { result ≡ y *ℤ pos factor }
{
    i128::from(y) * i128::from(factor)
}

/// A channel that a layer transmits.
fn sample(sent: Sent, coded: &[i64]) -> i128
    requires within { IsSentWithin (length coded.now) sent }
    requires samples { AreSamples coded.now }
    ensures { result ≡ sample_of coded.now sent }
{
    scaled(coded[sent.place], sent.factor)
}

fn side(sent: &SentSide, coded: &[i64]) -> Side
    requires within { AreSidesWithin (length coded.now) sent.now }
    requires samples { AreSamples coded.now }
    ensures { result ≡ side_of coded.now sent.now }
{
    Side {
        two: sample(sent.two, coded),
        three: sample(sent.three, coded),
        five: sample(sent.five, coded),
        surround: sample(sent.surround, coded),
        side: sample(sent.side, coded),
        rear: sample(sent.rear, coded),
    }
}

fn tops(sent: &SentTops, coded: &[i64]) -> Tops
    requires within { AreTopsWithin (length coded.now) sent.now }
    requires samples { AreSamples coded.now }
    ensures { result ≡ tops_of coded.now sent.now }
{
    Tops {
        three: sample(sent.three, coded),
        two: sample(sent.two, coded),
        four: sample(sent.four, coded),
        back: sample(sent.back, coded),
    }
}

/// All channels that a layer transmits.
pub(crate) fn bed(sent: &SentBed, coded: &[i64]) -> Bed
    requires within { AreWithin (length coded.now) sent.now }
    requires samples { AreSamples coded.now }
    ensures { result ≡ bed_of coded.now sent.now }
{
    Bed {
        mono: sample(sent.mono, coded),
        center: sample(sent.center, coded),
        low: sample(sent.low, coded),
        left: side(&sent.left, coded),
        right: side(&sent.right, coded),
        left_top: tops(&sent.left_top, coded),
        right_top: tops(&sent.right_top, coded),
    }
}
