//! Demixing modes and weights (IAMF 1.0.0, "Demixing Info Parameter Data").

ghost use Rattle.std.specs.Prelude.{◌≡◌, ◌<◌, ◌≤◌, ◌⊎◌, ◌↔◌, IsNone};
ghost use Rattle.spec_gains.specs.Modes.{mode_of, row};
ghost use Rattle.spec_gains.specs.Weights.{weight_of};

use spec_gains::DemixMode;

const WEIGHTS: [u32; 11] = [0, 179, 391, 658, 1038, 2500, 3962, 4342, 4609, 4821, 5000];

fn row(alpha: u32, beta: u32, gamma: u32, delta: u32, step: i8) -> Option<DemixMode>
    ensures { result ≡ row alpha beta gamma delta step }
{
    Some(DemixMode {
        alpha,
        beta,
        gamma,
        delta,
        step,
    })
}

/// The mode of a code of `dmixp_mode`, which is a field of 3 bits: `None` exactly for the reserved codes 3 and 7.
pub fn demix_mode(code: u8) -> Option<DemixMode>
    requires { code < 8 }
    ensures value { result ≡ mode_of code }
    ensures none { IsNone result ↔ ((code ≡ 3) ⊎ (code ≡ 7)) }
{
    match code {
        0 => row(1000, 1000, 707, 707, -1),
        1 => row(707, 707, 707, 707, -1),
        2 => row(1000, 866, 866, 866, -1),
        4 => row(1000, 1000, 707, 707, 1),
        5 => row(707, 707, 707, 707, 1),
        6 => row(1000, 866, 866, 866, 1),
        _ => None,
    }
}

/// The weight of an index, in ten-thousandths, from 0 to 5000. An index above 10 counts as 10.
pub fn weight(index: u8) -> u32
    ensures value { result ≡ weight_of index }
    ensures most { result ≤ 5000 }
{
    WEIGHTS[usize::from(index.min(10))]
}
