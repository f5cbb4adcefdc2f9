//! Demixing parameters over time (IAMF 1.0.0, "Demixing Info Parameter Data").

ghost use Rattle.std.specs.Prelude.{◌≡◌, ◌<◌, ◌≤◌, Some, None, IfSome, MatchOption};
ghost use Rattle.std.specs.Option.{option_to_list};
ghost use Rattle.spec_gains.specs.Modes.{mode_of, IsMode};
ghost use Rattle.spec_gains.specs.Weights.{weight_of};
ghost use Rattle.spec_play.specs.DemixingOverTime.{moved, index_after_modes};

use demix_channels::DemixParams;
use iamf_tables::{demix_mode, weight};

/// The index of a weight after a step, held to 0 to 10.
fn moved(step: i8, index: u8) -> u8
    requires { index ≤ 10 }
    ensures value { result ≡ moved step index }
    ensures most { result ≤ 10 }
{
    let by = step.unsigned_abs();
    if step < 0 {
        index.saturating_sub(by)
    } else {
        index.saturating_add(by).min(10)
    }
}

/// The index of an element's weight after a unit with a block of this `dmixp_mode`, or with none; `index` is that before the
/// unit. A mode is below 8, and an index at most 10.
pub fn index_after(mode: Option<u8>, index: u8) -> u8
    requires mode { IfSome mode (λ code. code < 8) }
    requires index { index ≤ 10 }
    ensures value { result ≡ index_after_modes (option_to_list mode) index }
    ensures most { result ≤ 10 }
{
    let Some(code) = mode else {
        return index;
    };
    match demix_mode(code) {
        Some(mode) => moved(mode.step, index),
        None => index,
    }
}

/// The demixing parameters of a `dmixp_mode`, which is below 8, and of the index of a weight: `None` exactly for a reserved
/// mode.
pub fn parameters(code: u8, index: u8) -> Option<DemixParams>
    requires { code < 8 }
    ensures value { MatchOption result (mode_of code ≡ None) (λ p. (mode_of code ≡ Some p.mode) × (p.weight ≡ weight_of index)) }
    ensures mode { IfSome result (λ p. IsMode p.mode) }
    ensures weight { IfSome result (λ p. p.weight ≤ 5000) }
{
    match demix_mode(code) {
        Some(mode) => Some(DemixParams {
            mode,
            weight: weight(index),
        }),
        None => None,
    }
}
