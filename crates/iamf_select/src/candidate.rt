//! A mix that may be played.

use iamf_sequence::Sequence;
use obu_descriptors::AudioElement;
use obu_mix::{MixGain, SubMix};
use spec_play::Target;

/// The one sub-mix of a mix presentation, for a target.
#[derive(Clone, Copy)]
pub(crate) struct Candidate<'s, 'a> {
    pub(crate) sequence: &'s Sequence<'a>,
    pub(crate) sub_mix: &'s SubMix<'a>,
    pub(crate) target: Target,
}

/// An element of a mix, and the gain by which it goes into the mix.
#[derive(Clone, Copy)]
pub(crate) struct Heard<'s, 'a> {
    pub(crate) element: &'s AudioElement<'a>,
    pub(crate) gain: &'s MixGain,
}

/// What is asked of each element of a mix, and of its gain.
#[derive(Clone, Copy, Debug, PartialEq, Eq)]
pub(crate) enum ElementTest {
    /// A scalable element has no layer of the target's layout.
    LacksLayer,
    /// It is not of the target's kind.
    IsForOther,
    /// It is of a type that is kept unread.
    IsUnknown,
    /// A used layer after the first has recon gains.
    HasRecon,
    /// It needs demixing parameters and has no definition of them.
    LacksDemixing,
    /// It needs demixing parameters, and some unit has a reserved mode.
    HasReserved,
    /// Its gain has another rate than the samples, and a block.
    HasOtherRate,
    /// A block of its gain is animated by a Bezier curve.
    HasBezier,
    /// Its gain is above 32 dB somewhere.
    HasHighGain,
    /// The output gain of a used layer is above 32 dB.
    HasHighLayer,
}
