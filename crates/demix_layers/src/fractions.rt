//! The exact walk's tops over their bottoms.

use spec_demix::Fraction;

/// One side of a layout's channels.
#[derive(Clone, Copy)]
pub(crate) struct Half {
    pub(crate) front: Fraction,
    pub(crate) surround: Fraction,
    pub(crate) side: Fraction,
    pub(crate) rear: Fraction,
    pub(crate) top: Fraction,
    pub(crate) top_back: Fraction,
}

/// The channels of one layout.
#[derive(Clone, Copy)]
pub(crate) struct Whole {
    pub(crate) mono: Fraction,
    pub(crate) center: Fraction,
    pub(crate) low: Fraction,
    pub(crate) left: Half,
    pub(crate) right: Half,
}
