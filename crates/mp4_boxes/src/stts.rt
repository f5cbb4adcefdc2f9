//! The times of the samples (ISO/IEC 14496-12, "Decoding Time to Sample Box"), of which the counts alone are used.

ghost use Rattle.std.specs.Prelude.{◌≡◌, ◌+◌, ◌*◌, ◌≤◌, length, sum};
ghost use Rattle.spec_boxes.specs.Boxes.{Gives};
ghost use Rattle.spec_boxes.specs.Tables.{stts_at, words};
ghost use Rattle.mp4_boxes.specs.Views.{box_of};

use crate::box_view::BoxView;
use crate::full_box::{check_room, refused};
use crate::numbers::read_word;
use spec_boxes::{BoxFault, BoxRefusal};

/// The sum of the first words of so many pairs of words from a place on.
pub fn sum_counts(bytes: &[u8], count: u32, start: usize) -> u64
    requires { start + 8 * count ≤ length bytes.now }
    ensures { result ≡ sum (words 8 count bytes.now start) }
{
    let mut total = 0u64;
    for i in 0..count as usize {
        total += u64::from(read_word(bytes, start + 8 * i));
    }
    total
}

/// That the runs of `stts` have so many samples.
#[tactic(auto, unfolding(spec_boxes::specs::Tables::stts_at))]
pub fn check_times(view: &BoxView<'_>, samples: u32) -> Result<(), BoxRefusal>
    ensures { Gives (λ _. tt) result (stts_at (box_of view.now) view.now.payload.now samples) }
{
    check_room(view, 8)?;
    let count = read_word(view.payload, 4);
    check_room(view, 8 + 8 * u64::from(count))?;
    if sum_counts(view.payload, count, 8) != u64::from(samples) {
        return Err(refused(view, BoxFault::Table(view.kind)));
    }
    Ok(())
}
