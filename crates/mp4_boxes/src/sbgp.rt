//! Which samples are in which group (ISO/IEC 14496-12, "Sample to Group Box").

ghost use Rattle.std.specs.Prelude.{◌≡◌, ◌≤◌};
ghost use Rattle.spec_boxes.specs.Groups.{groups_fit as groups_fit_of};

use crate::numbers::read_word;
use crate::stts::sum_counts;

/// Whether the groups in the payload of an `sbgp`, whose count stands at a place, are there, and have together at
/// most so many samples.
pub fn groups_fit(bytes: &[u8], at: usize, samples: u32) -> bool
    requires { at ≤ 12 }
    ensures { result ≡ groups_fit_of samples bytes.now at }
{
    if bytes.len() < at + 4 {
        return false;
    }
    let count = read_word(bytes, at);
    if ((bytes.len() - at - 4) as u64) < 8 * u64::from(count) {
        return false;
    }
    sum_counts(bytes, count, at + 4) <= u64::from(samples)
}
