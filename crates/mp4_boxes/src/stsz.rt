//! The sizes of the samples (ISO/IEC 14496-12, "Sample Size Box").

ghost use Rattle.std.specs.Prelude.{◌≡◌, ◌+◌, ◌*◌, ◌<◌, ◌≤◌, ◌∷◌, length};
ghost use Rattle.spec_boxes.specs.Boxes.{Gives};
ghost use Rattle.spec_boxes.specs.Tables.{sizes_at};
ghost use Rattle.spec_boxes.specs.Spans.{sizes_from};

use crate::box_view::BoxView;
use crate::full_box::check_room;
use crate::numbers::read_word;
use spec_boxes::BoxRefusal;

/// The sizes of the samples in bytes: a common one, or a list where that is 0.
#[derive(Clone, Copy)]
pub struct Sizes<'a> {
    pub common: u32,
    pub count: u32,
    pub bytes: &'a [u8],
    pub ghost room: { common ≡ 0 → 12 + 4 * count ≤ length bytes.now },
}

impl<'a> Sizes<'a> {
    ghost use Rattle.mp4_boxes.specs.Views.{box_of};
    ghost use Rattle.mp4_boxes.specs.TableViews.{sizes_of};

    /// The sizes in `stsz`.
    #[tactic(auto, unfolding(spec_boxes::specs::Tables::sizes_at))]
    pub fn read(view: &BoxView<'a>) -> Result<Sizes<'a>, BoxRefusal>
        ensures { Gives sizes_of result (sizes_at (box_of view.now) view.now.payload.now) }
    {
        check_room(view, 12)?;
        let common = read_word(view.payload, 4);
        let count = read_word(view.payload, 8);
        if common == 0 {
            check_room(view, 12 + 4 * u64::from(count))?;
        }
        Ok(Sizes {
            common,
            count,
            bytes: view.payload,
        })
    }

    /// The size of sample k.
    #[inline]
    pub fn at(&self, k: u32) -> u32
        requires { k < self.now.count }
        ensures { sizes_from self.now.common self.now.count self.now.bytes.now k ≡ result ∷ sizes_from self.now.common self.now.count self.now.bytes.now (k + 1) }
    {
        if self.common == 0 {
            read_word(self.bytes, 12 + 4 * k as usize)
        } else {
            self.common
        }
    }
}
