//! The samples of a track, one after the other.

ghost use Rattle.std.specs.Prelude.{◌≡◌, true, length};
ghost use Rattle.spec_boxes.specs.Spans.{in_file};
ghost use Rattle.mp4_boxes.specs.Cursors.{spans_left};

use crate::cursor::{Cursor, Step};

/// The samples that are left of a track, in their order. It is a copy of its own: taking samples from it leaves
/// the track and other copies as they are.
#[derive(Clone, Copy)]
pub struct Samples<'a> {
    cursor: Cursor<'a>,
    ghost within: { in_file (length cursor.file.now) (spans_left cursor) ≡ true },
}

impl<'a> Samples<'a> {
    ghost use Rattle.std.specs.Prelude.{[], ◌++◌, map, ⊤, MatchOption};
    ghost use Rattle.std.specs.Option.{option_map, option_to_list};
    ghost use Rattle.spec_boxes.specs.Tracks.{sample_bytes};
    ghost use Rattle.mp4_boxes.specs.TrackViews.{samples_left};

    pub(crate) fn new(cursor: Cursor<'a>) -> Samples<'a>
        requires { in_file (length cursor.file.now) (spans_left cursor) ≡ true }
        ensures { samples_left result ≡ map (sample_bytes cursor.entry.file.now) (spans_left cursor.entry) }
    {
        Samples { cursor }
    }

    /// The bytes of the next sample; none exactly after the last.
    #[inline]
    pub fn next_sample(&mut self) -> Option<&'a [u8]>
        ensures next { samples_left self.old ≡ option_to_list (option_map (λ b. b.now) result) ++ samples_left self.new }
        ensures none { MatchOption result (samples_left self.old ≡ []) (λ _. ⊤) }
    {
        let mut cursor = self.cursor;
        match cursor.step() {
            Step::Sample(_, bytes) => {
                self.cursor = cursor;
                Some(bytes)
            }
            Step::End | Step::Outside => None,
        }
    }
}
