//! What the layers of a scalable element and the matrix of an ambisonics element say of the channels that are heard, with
//! the laws of it: downmixes, the one list of channels whose downmixes are what the layers transmit, the walk that gives it
//! in whole numbers of units, and scenes (IAMF 1.0.0, "Scalable Channel Layout Config Syntax and Semantics", "Demixing Info
//! Parameter Data" and "Ambisonics Config Syntax and Semantics").
#![tactic(auto)]

ghost use Rattle.std.specs.Prelude.{pos, ◌<ℤ◌};

mod laws;

pub use laws::{
    channels_are_small, layers_are_read_in_order, one_list_fits, the_exact_walk_fits,
    the_fixed_walk_is_near,
};
use spec_layouts::Layout;

/// A layer as demixing sees it.
#[derive(Clone, Copy, Debug, PartialEq, Eq)]
pub struct DemixLayer {
    /// Its layout.
    pub layout: Layout,
    /// `output_gain_flags`: the channels that its output gain is for, 0 where it has none.
    pub flags: u8,
    /// What its output gain multiplies by, times 10^12.
    pub factor: u64,
}

/// A fraction.
#[derive(Clone, Copy, Debug)]
pub struct Fraction {
    pub top: i128,
    /// Above 0.
    pub bottom: i128,
    ghost above_zero: { pos 0 <ℤ bottom },
}

/// The numbers of surround and of height channels of a layout.
#[derive(Clone, Copy, Debug, PartialEq, Eq)]
pub struct Kind {
    pub surround: u8,
    pub height: u8,
}

/// One side's channels at ear height, each for all layouts that have it: the left or right of stereo, of 3.1.2, and of 5.1
/// and 7.1, the surround of 5.1, and the side and rear surround of 7.1.
#[derive(Clone, Copy, Debug, PartialEq, Eq)]
pub struct Side {
    pub two: i128,
    pub three: i128,
    pub five: i128,
    pub surround: i128,
    pub side: i128,
    pub rear: i128,
}

/// One side's channels above: the top of 3.1.2, that of the other layouts with two height channels, and the front and the
/// back top of those with four.
#[derive(Clone, Copy, Debug, PartialEq, Eq)]
pub struct Tops {
    pub three: i128,
    pub two: i128,
    pub four: i128,
    pub back: i128,
}

/// All channels, each for all layouts that have it.
#[derive(Clone, Copy, Debug, PartialEq, Eq)]
pub struct Bed {
    pub mono: i128,
    pub center: i128,
    pub low: i128,
    pub left: Side,
    pub right: Side,
    pub left_top: Tops,
    pub right_top: Tops,
}

/// Where a channel that a layer transmits stands, and what it is multiplied by. A channel that the layer does not transmit
/// has the factor 0.
#[derive(Clone, Copy, Debug, PartialEq, Eq)]
pub struct Sent {
    /// The place among the element's coded samples.
    pub place: usize,
    /// In parts of 10^12.
    pub factor: u64,
}

/// The same of one side's channels at ear height.
#[derive(Clone, Copy, Debug, PartialEq, Eq)]
pub struct SentSide {
    pub two: Sent,
    pub three: Sent,
    pub five: Sent,
    pub surround: Sent,
    pub side: Sent,
    pub rear: Sent,
}

/// The same of one side's channels above.
#[derive(Clone, Copy, Debug, PartialEq, Eq)]
pub struct SentTops {
    pub three: Sent,
    pub two: Sent,
    pub four: Sent,
    pub back: Sent,
}

/// The same of all channels.
#[derive(Clone, Copy, Debug, PartialEq, Eq)]
pub struct SentBed {
    pub mono: Sent,
    pub center: Sent,
    pub low: Sent,
    pub left: SentSide,
    pub right: SentSide,
    pub left_top: SentTops,
    pub right_top: SentTops,
}
