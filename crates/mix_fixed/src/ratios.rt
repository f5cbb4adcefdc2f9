//! What thousandths over the coefficients of a mode are.

ghost use Rattle.std.specs.Prelude.{◌≡◌, ◌⊎◌};
ghost use Rattle.spec_gains.specs.Modes.{IsMode};
ghost use Rattle.mix_fixed.specs.Ratios.{IsRatio};

use iamf_tables::DemixMode;

/// How far 1000 over the coefficients lies above 1, in parts of 2^64, rounded up.
#[derive(Clone, Copy)]
pub(crate) struct Ratios {
    /// Over beta.
    pub(crate) beta: i64,
    /// Over gamma and delta, which are the same.
    pub(crate) gamma: i64,
}

/// How far 707 / 1000 lies above 1.
pub(crate) const CENTER: i64 = -5_404_896_013_596_898_623;

const OVER_866: i64 = 2_854_346_080_689_468_726;

const OVER_707: i64 = 7_644_831_702_400_139_496;

/// The ratios of a mode of the table.
#[inline(always)]
pub(crate) fn ratios_of(mode: DemixMode) -> Ratios
    requires { IsMode mode }
    ensures alpha { (mode.alpha ≡ 1000) ⊎ (mode.alpha ≡ mode.beta) }
    ensures beta { IsRatio 1000 mode.beta result.beta }
    ensures gamma { IsRatio 1000 mode.gamma result.gamma }
    ensures delta { IsRatio 1000 mode.delta result.gamma }
{
    if mode.beta == 866 {
        Ratios {
            beta: OVER_866,
            gamma: OVER_866,
        }
    } else if mode.beta == 707 {
        Ratios {
            beta: OVER_707,
            gamma: OVER_707,
        }
    } else {
        Ratios {
            beta: 0,
            gamma: OVER_707,
        }
    }
}
