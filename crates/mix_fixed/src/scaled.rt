//! What is sent, with its factors in units of 1/2^28: made once, so that a tick takes no division by 10^12.

ghost use Rattle.std.specs.Prelude.{◌≡◌, ◌+◌, ◌*◌, ◌/◌, ◌^◌, ◌<◌, ◌≤ℤ◌, IsTrue, pos};
ghost use Rattle.mix_fixed.specs.Scaled.{scaled_of, scaled_side, scaled_tops, scaled_bed};
ghost use Rattle.mix_fixed.specs.Quiet.{OfSides, OfTops, OfBed, IsBelow};

use spec_demix::{Sent, SentBed, SentSide, SentTops};

/// 5^12: 2^28 / 10^12 is 2^16 / 5^12.
const FIFTHS: u64 = 244_140_625;

/// A channel that is sent.
#[derive(Clone, Copy)]
pub(crate) struct Scaled {
    /// The place among the coded samples.
    pub(crate) place: usize,
    /// How many whole units its factor has.
    pub(crate) whole: i64,
    /// What is left of the factor, in parts of a unit over 2^63, rounded up.
    pub(crate) rest: i64,
}

/// The same of one side's channels at ear height.
#[derive(Clone, Copy)]
pub(crate) struct ScaledSide {
    pub(crate) two: Scaled,
    pub(crate) three: Scaled,
    pub(crate) five: Scaled,
    pub(crate) surround: Scaled,
    pub(crate) side: Scaled,
    pub(crate) rear: Scaled,
}

/// The same of one side's tops.
#[derive(Clone, Copy)]
pub(crate) struct ScaledTops {
    pub(crate) three: Scaled,
    pub(crate) two: Scaled,
    pub(crate) four: Scaled,
    pub(crate) back: Scaled,
}

/// The same of all channels.
#[derive(Clone, Copy)]
pub(crate) struct ScaledBed {
    pub(crate) mono: Scaled,
    pub(crate) center: Scaled,
    pub(crate) low: Scaled,
    pub(crate) left: ScaledSide,
    pub(crate) right: ScaledSide,
    pub(crate) left_top: ScaledTops,
    pub(crate) right_top: ScaledTops,
}

/// The largest of both parts of some factors.
#[derive(Clone, Copy)]
pub(crate) struct Most {
    whole: i64,
    rest: i64,
}

/// A number of parts over 5^12 in parts over 2^63, rounded up.
fn fraction(parts: u64) -> i64
    requires { parts < 244140625 }
    ensures { result ≡ pos ((parts * 2 ^ 63 + 244140624) / 244140625) }
{
    ((u128::from(parts) * 0x8000_0000_0000_0000 + 244_140_624) / 244_140_625) as i64
}

fn scale_sent(sent: Sent) -> Scaled
    ensures { result ≡ scaled_of sent }
{
    let parts = sent.factor % FIFTHS * 0x1_0000;
    Scaled {
        place: sent.place,
        whole: (sent.factor / FIFTHS * 0x1_0000 + parts / FIFTHS) as i64,
        rest: fraction(parts % FIFTHS),
    }
}

fn scaled_side(sent: &SentSide) -> ScaledSide
    ensures { result ≡ scaled_side sent.now }
{
    ScaledSide {
        two: scale_sent(sent.two),
        three: scale_sent(sent.three),
        five: scale_sent(sent.five),
        surround: scale_sent(sent.surround),
        side: scale_sent(sent.side),
        rear: scale_sent(sent.rear),
    }
}

fn scaled_tops(sent: &SentTops) -> ScaledTops
    ensures { result ≡ scaled_tops sent.now }
{
    ScaledTops {
        three: scale_sent(sent.three),
        two: scale_sent(sent.two),
        four: scale_sent(sent.four),
        back: scale_sent(sent.back),
    }
}

/// All channels that are sent, with their factors in units.
pub(crate) fn scaled_bed(sent: &SentBed) -> ScaledBed
    ensures { result ≡ scaled_bed sent.now }
{
    ScaledBed {
        mono: scale_sent(sent.mono),
        center: scale_sent(sent.center),
        low: scale_sent(sent.low),
        left: scaled_side(&sent.left),
        right: scaled_side(&sent.right),
        left_top: scaled_tops(&sent.left_top),
        right_top: scaled_tops(&sent.right_top),
    }
}

impl Most {
    /// Whether no channel is made louder: then 64 bits hold samples of 32 bits in units.
    #[inline]
    pub(crate) fn is_calm(self) -> bool
        ensures { IsTrue result → self.whole ≤ℤ pos (2 ^ 28) }
    {
        self.whole <= 0x1000_0000
    }

    /// Whether, besides, each factor is a whole number of units, as without output gains.
    #[inline]
    pub(crate) fn is_whole(self) -> bool
        ensures calm { IsTrue result → self.whole ≤ℤ pos (2 ^ 28) }
        ensures none { IsTrue result → self.rest ≤ℤ pos 0 }
    {
        self.rest <= 0 && self.whole <= 0x1000_0000
    }
}

fn larger(a: i64, b: i64) -> i64
    ensures left { a ≤ℤ result }
    ensures right { b ≤ℤ result }
{
    if a < b { b } else { a }
}

fn both(a: Most, b: Most) -> Most
    ensures whole_left { a.whole ≤ℤ result.whole }
    ensures whole_right { b.whole ≤ℤ result.whole }
    ensures rest_left { a.rest ≤ℤ result.rest }
    ensures rest_right { b.rest ≤ℤ result.rest }
{
    Most {
        whole: larger(a.whole, b.whole),
        rest: larger(a.rest, b.rest),
    }
}

fn pair(a: &Scaled, b: &Scaled) -> Most
    ensures left { IsBelow result a.now }
    ensures right { IsBelow result b.now }
{
    Most {
        whole: larger(a.whole, b.whole),
        rest: larger(a.rest, b.rest),
    }
}

fn most_of_side(sent: &ScaledSide) -> Most
    ensures { OfSides (IsBelow result) sent.now }
{
    let fronts = pair(&sent.two, &sent.three);
    let middle = pair(&sent.five, &sent.surround);
    let backs = pair(&sent.side, &sent.rear);
    both(both(fronts, middle), backs)
}

fn most_of_tops(sent: &ScaledTops) -> Most
    ensures { OfTops (IsBelow result) sent.now }
{
    let two = pair(&sent.three, &sent.two);
    let four = pair(&sent.four, &sent.back);
    both(two, four)
}

/// The largest of both parts of all factors.
pub(crate) fn most_of(sent: &ScaledBed) -> Most
    ensures { OfBed (IsBelow result) sent.now }
{
    let middle = both(pair(&sent.mono, &sent.center), pair(&sent.low, &sent.low));
    let sides = both(most_of_side(&sent.left), most_of_side(&sent.right));
    let tops = both(most_of_tops(&sent.left_top), most_of_tops(&sent.right_top));
    both(both(middle, sides), tops)
}
