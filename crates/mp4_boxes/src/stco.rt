//! The places of the chunks (ISO/IEC 14496-12, "Chunk Offset Box"), in `stco` with 32 bits or in `co64` with 64.

ghost use Rattle.std.specs.Prelude.{◌≡◌, ◌+◌, ◌*◌, ◌<◌, ◌≤◌, ◌∷◌, length, if◌then◌else◌};
ghost use Rattle.spec_boxes.specs.Boxes.{Gives};
ghost use Rattle.spec_boxes.specs.Tables.{places_at};
ghost use Rattle.spec_boxes.specs.Spans.{places_from};

use crate::box_view::BoxView;
use crate::full_box::check_room;
use crate::numbers::{read_long, read_word};
use spec_boxes::{BoxRefusal, CO64};

/// The places of the chunks in the file.
#[derive(Clone, Copy)]
pub struct Places<'a> {
    pub wide: bool,
    pub count: u32,
    pub bytes: &'a [u8],
    pub ghost room: { 8 + (if wide then 8 else 4) * count ≤ length bytes.now },
}

impl<'a> Places<'a> {
    ghost use Rattle.mp4_boxes.specs.Views.{box_of};
    ghost use Rattle.mp4_boxes.specs.TableViews.{places_of};

    /// The places in `stco` or `co64`.
    #[tactic(auto, unfolding(spec_boxes::specs::Tables::places_at))]
    pub fn read(view: &BoxView<'a>) -> Result<Places<'a>, BoxRefusal>
        ensures { Gives places_of result (places_at (box_of view.now) view.now.payload.now) }
    {
        check_room(view, 8)?;
        let count = read_word(view.payload, 4);
        let wide = view.kind == CO64;
        let width = if wide { 8 } else { 4 };
        check_room(view, 8 + width * u64::from(count))?;
        Ok(Places {
            wide,
            count,
            bytes: view.payload,
        })
    }

    /// The place of chunk j, counted from 0.
    #[inline]
    pub fn at(&self, j: u32) -> u64
        requires { j < self.now.count }
        ensures { places_from self.now.wide self.now.count self.now.bytes.now j ≡ result ∷ places_from self.now.wide self.now.count self.now.bytes.now (j + 1) }
    {
        if self.wide {
            read_long(self.bytes, 8 + 8 * j as usize)
        } else {
            u64::from(read_word(self.bytes, 8 + 4 * j as usize))
        }
    }
}
