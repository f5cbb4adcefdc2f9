ghost use Rattle.std.specs.Prelude.{◌≡◌};
ghost use Rattle.spec_play.specs.Code.{code_of};

/// Why a mix presentation is not played for a target, in the order of testing.
#[derive(Clone, Copy, Debug, PartialEq, Eq)]
pub enum PlayFault {
    /// No mix presentation has the id.
    NoMix,
    /// The mix has not exactly one sub-mix, or that has no element, more than 28, or more than 28 coded channels.
    MixShape,
    /// A scalable element has no layer of the layout.
    NoLayer,
    /// An ambisonics element for a layout, a scalable one for a scene, or ambisonics elements of different output counts.
    SceneTarget,
    /// An element of a type that is kept unread.
    UnknownElement,
    /// A layer after the first, up to that of the layout, has recon gains.
    Recon,
    /// An element has no demixing parameter, which the layers up to that of the layout need.
    NoDemix,
    /// A temporal unit uses a reserved demixing mode.
    DemixReserved,
    /// A mix gain whose parameter has blocks is given at another rate than that of the samples.
    ParamRate,
    /// A mix gain is animated by a Bezier curve.
    Bezier,
    /// A gain is above 32 dB.
    GainRange,
    /// The WAV file would be longer than its sizes of 32 bits can say.
    WavTooLong,
}

impl PlayFault {
    /// The number of the refusal, from 50 to 61.
    pub fn code(self) -> u32
        ensures { result ≡ code_of self }
    {
        match self {
            PlayFault::NoMix => 50,
            PlayFault::MixShape => 51,
            PlayFault::NoLayer => 52,
            PlayFault::SceneTarget => 53,
            PlayFault::UnknownElement => 54,
            PlayFault::Recon => 55,
            PlayFault::NoDemix => 56,
            PlayFault::DemixReserved => 57,
            PlayFault::ParamRate => 58,
            PlayFault::Bezier => 59,
            PlayFault::GainRange => 60,
            PlayFault::WavTooLong => 61,
        }
    }
}
