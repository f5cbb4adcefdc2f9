//! The gains of IAMF, which are numbers of 1/256 dB, and the table of demixing modes with the weights of height channels
//! (IAMF 1.0.0, "Mix Gain Parameter Data" and "Demixing Info Parameter Data").
#![tactic(auto)]

mod laws;

pub use laws::{
    coarse_gains_rise, gains_are_bounded, gains_are_exact, modes_are_bounded, weights_are_bounded,
};

/// A demixing mode, `dmixp_mode`: four coefficients, in thousandths, and how it steps the index of the weight.
#[derive(Clone, Copy, Debug, PartialEq, Eq)]
pub struct DemixMode {
    /// How much of a side surround of 7.1 is in the surround of 5.1.
    pub alpha: u32,
    /// How much of a rear surround of 7.1 is in the surround of 5.1.
    pub beta: u32,
    /// How much of a top back channel is in the top of two height channels.
    pub gamma: u32,
    /// How much of a surround of 5.1 is in the front of 3.1.2.
    pub delta: u32,
    /// -1 or 1: what is added to the index of the weight.
    pub step: i8,
}
