//! The boxes of a part of a file.

ghost use Rattle.std.specs.Prelude.{◌≡◌, ◌+◌, ◌-◌, ◌<◌, ◌≤◌, ◌++◌, [], ◌∷◌, true, length, find, filter, is_ok, IfOk, IfSome, MatchOption};
ghost use Rattle.std.specs.Option.{option_map, option_to_list};
ghost use Rattle.spec_boxes.specs.Boxes.{tiles, Gives, Covers};

use crate::box_view::{BoxView, box_view};
use spec_boxes::{BoxFault, BoxRefusal};

/// The boxes that are left of a part of a file, which boxes cover end to end.
#[derive(Clone, Copy)]
pub struct Boxes<'a> {
    file: &'a [u8],
    at: usize,
    end: usize,
    top: bool,
    ghost in_order: { at ≤ end },
    ghost in_file: { end ≤ length file.now },
    // That boxes cover the part is tested once, so that no later call can fail.
    ghost tiled: { is_ok (tiles top file.now at end) ≡ true },
}

// Whether boxes cover the part.
fn check_tiles(file: &[u8], start: usize, end: usize, top: bool) -> Result<(), BoxRefusal>
    requires in_order { start ≤ end }
    requires in_file { end ≤ length file.now }
    ensures { Covers result (tiles top file.now start end) }
{
    let mut at = start;
    while at < end {
        match box_view(file, at, end, top) {
            Ok(view) => at = view.end,
            Err(refusal) => return Err(refusal),
        }
    }
    Ok(())
}

impl<'a> Boxes<'a> {
    ghost use Rattle.mp4_boxes.specs.Views.{boxes_of, box_of, file_of, StandsIn};
    ghost use Rattle.spec_boxes.specs.Parts.{kind_is, either_is, exactly_one, none_of, children};

    /// The boxes of a part of the file. With `top` the part is the whole file, where a size of 0 reaches to its end.
    ///
    /// # Errors
    ///
    /// `BoxSize` exactly where boxes do not tile the part, at the place where boxes end to end stop and none stands.
    pub fn tile(
        file: &'a [u8],
        start: usize,
        end: usize,
        top: bool,
    ) -> Result<Boxes<'a>, BoxRefusal>
        requires in_order { start ≤ end }
        requires in_file { end ≤ length file.now }
        ensures exact { Gives boxes_of result (tiles top file.now start end) }
        ensures file { IfOk result (λ b. file_of b ≡ file.now) }
    {
        check_tiles(file, start, end, top)?;
        Ok(Boxes {
            file,
            at: start,
            end,
            top,
        })
    }

    /// The boxes in a box of the file, from the byte `skip` of its payload on. Errors as `tile`.
    pub fn inside(file: &'a [u8], view: &BoxView<'a>, skip: usize) -> Result<Boxes<'a>, BoxRefusal>
        requires stands { StandsIn file.now view.now }
        requires skipped { skip ≤ length view.now.payload.now }
        ensures exact { Gives boxes_of result (children file.now (box_of view.now) skip) }
        ensures file { IfOk result (λ b. file_of b ≡ file.now) }
    {
        Boxes::tile(file, view.end - view.payload.len() + skip, view.end, false)
    }

    /// The next box; none exactly after the last.
    pub fn next_box(&mut self) -> Option<BoxView<'a>>
        ensures boxes { boxes_of self.old ≡ option_to_list (option_map box_of result) ++ boxes_of self.new }
        ensures none { MatchOption result (boxes_of self.old ≡ []) (λ b. StandsIn (file_of self.old) b) }
        ensures file { file_of self.new ≡ file_of self.old }
    {
        if self.at == self.end {
            return None;
        }
        match box_view(self.file, self.at, self.end, self.top) {
            Ok(view) => {
                self.at = view.end;
                Some(view)
            }
            Err(_) => None,
        }
    }

    /// The first box of a kind, where there is one.
    pub fn first(&self, kind: [u8; 4]) -> Option<BoxView<'a>>
        ensures found { option_map box_of result ≡ find (kind_is kind) (boxes_of self.now) }
        ensures stands { IfSome result (λ b. StandsIn (file_of self.now) b) }
    {
        let mut rest = *self;
        while let Some(view) = rest.next_box() {
            if view.kind == kind {
                return Some(view);
            }
        }
        None
    }

    /// The one box of a kind, or of another kind that may stand in its stead.
    ///
    /// # Errors
    ///
    /// `Missing` of the first kind, at `place`, exactly where there is none; `Twice` of the first kind, at the
    /// second of them, exactly where there are more.
    pub fn only(
        &self,
        kind: [u8; 4],
        other: [u8; 4],
        place: usize,
    ) -> Result<BoxView<'a>, BoxRefusal>
        ensures exact { Gives box_of result (exactly_one place kind (filter (either_is kind other) (boxes_of self.now))) }
        ensures stands { IfOk result (λ b. StandsIn (file_of self.now) b) }
    {
        let mut found: Option<BoxView<'a>> = None;
        let mut rest = *self;
        while let Some(view) = rest.next_box() {
            if view.kind == kind || view.kind == other {
                match found {
                    Some(_) => {
                        return Err(BoxRefusal {
                            at: view.at as u64,
                            fault: BoxFault::Twice(kind),
                        });
                    }
                    None => found = Some(view),
                }
            }
        }
        match found {
            Some(view) => Ok(view),
            None => Err(BoxRefusal {
                at: place as u64,
                fault: BoxFault::Missing(kind),
            }),
        }
    }

    /// That no box has a kind that only a file in fragments has.
    ///
    /// # Errors
    ///
    /// `Fragmented` exactly where there is such a box, at the first.
    pub fn without(&self, kind: [u8; 4]) -> Result<(), BoxRefusal>
        ensures { Gives (λ _. tt) result (none_of kind (boxes_of self.now)) }
    {
        match self.first(kind) {
            Some(view) => Err(BoxRefusal {
                at: view.at as u64,
                fault: BoxFault::Fragmented,
            }),
            None => Ok(()),
        }
    }
}
