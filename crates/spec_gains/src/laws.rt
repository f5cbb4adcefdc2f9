//! Laws of gains, modes and weights. Each function is empty: its clauses are the laws.

ghost use Rattle.std.specs.Prelude.{◌≡◌, ℕ, ◌+◌, ◌<◌, ◌≤◌, ℤ, pos, negsuc, ◌≤ℤ◌};
ghost use Rattle.spec_gains.specs.declared.DemixMode.{DemixMode};
ghost use Rattle.spec_gains.specs.Gains.{gain_of, coarse_of};
ghost use Rattle.spec_gains.specs.Modes.{IsMode, coefficients_of, AreBounded};
ghost use Rattle.spec_gains.specs.Weights.{weight_of};

/// The gains of 0, -6, 6 and 32 dB.
pub fn gains_are_exact()
    ensures none { gain_of (pos 0) ≡ 1000000000000 }
    ensures minus_6 { gain_of (negsuc 1535) ≡ 501187233627 }
    ensures plus_6 { gain_of (pos 1536) ≡ 1995262314968 }
    ensures plus_32 { gain_of (pos 8192) ≡ 39810717055340 }
{}

/// A gain of at most 32 dB multiplies by at most what 32 dB multiplies by.
pub fn gains_are_bounded()
    ensures { (gain : ℤ) → gain ≤ℤ pos 8192 → gain_of gain ≤ 39810717055340 }
{}

/// The twenty gains of whole decibels rise.
pub fn coarse_gains_rise()
    ensures { (decibels : ℕ) → decibels < 19 → coarse_of decibels < coarse_of (decibels + 1) }
{}

/// Alpha and beta are at most 1, gamma and delta at most 0.866, and beta, gamma and delta at least 0.707.
pub fn modes_are_bounded()
    ensures { (mode : DemixMode) → IsMode mode → AreBounded (coefficients_of mode) }
{}

/// No weight is above a half.
pub fn weights_are_bounded()
    ensures { (index : ℕ) → weight_of index ≤ 5000 }
{}
