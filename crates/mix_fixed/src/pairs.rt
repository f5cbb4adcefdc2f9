//! Channels that stand on both sides.

ghost use Rattle.std.specs.Prelude.{◌≡◌};
ghost use Rattle.mix_fixed.specs.Pairs.{left_side, right_side, left_tops, right_tops};

use spec_demix::{Side, Tops};

/// A channel of both sides.
#[derive(Clone, Copy)]
pub(crate) struct Pair {
    pub(crate) left: i64,
    pub(crate) right: i64,
}

/// The channels at ear height.
#[derive(Clone, Copy)]
pub(crate) struct Ears {
    pub(crate) two: Pair,
    pub(crate) three: Pair,
    pub(crate) five: Pair,
    pub(crate) surround: Pair,
    pub(crate) side: Pair,
    pub(crate) rear: Pair,
}

/// The channels above.
#[derive(Clone, Copy)]
pub(crate) struct Heights {
    pub(crate) three: Pair,
    pub(crate) two: Pair,
    pub(crate) four: Pair,
    pub(crate) back: Pair,
}

impl Ears {
    #[inline(always)]
    pub(crate) fn left(self) -> Side
        ensures { result ≡ left_side self }
    {
        Side {
            two: i128::from(self.two.left),
            three: i128::from(self.three.left),
            five: i128::from(self.five.left),
            surround: i128::from(self.surround.left),
            side: i128::from(self.side.left),
            rear: i128::from(self.rear.left),
        }
    }

    #[inline(always)]
    pub(crate) fn right(self) -> Side
        ensures { result ≡ right_side self }
    {
        Side {
            two: i128::from(self.two.right),
            three: i128::from(self.three.right),
            five: i128::from(self.five.right),
            surround: i128::from(self.surround.right),
            side: i128::from(self.side.right),
            rear: i128::from(self.rear.right),
        }
    }
}

impl Heights {
    #[inline(always)]
    pub(crate) fn left(self) -> Tops
        ensures { result ≡ left_tops self }
    {
        Tops {
            three: i128::from(self.three.left),
            two: i128::from(self.two.left),
            four: i128::from(self.four.left),
            back: i128::from(self.back.left),
        }
    }

    #[inline(always)]
    pub(crate) fn right(self) -> Tops
        ensures { result ≡ right_tops self }
    {
        Tops {
            three: i128::from(self.three.right),
            two: i128::from(self.two.right),
            four: i128::from(self.four.right),
            back: i128::from(self.back.right),
        }
    }
}
