//! The parameters of a demix (IAMF 1.0.0, "Demixing Info Parameter Data").

use iamf_tables::DemixMode;

/// What a unit's demixing parameters say.
#[derive(Clone, Copy, Debug, PartialEq, Eq)]
pub struct DemixParams {
    /// The mode.
    pub mode: DemixMode,
    /// The weight of a surround of 5.1 in the height channels of 3.1.2, in ten-thousandths, at most 5000.
    pub weight: u32,
}
