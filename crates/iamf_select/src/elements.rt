//! The elements of a candidate, by their places among those that are heard.

ghost use Rattle.std.specs.Prelude.{◌≡◌, ◌<◌, length, slice_get, Some};
ghost use Rattle.iamf_sequence.specs.ContentsView.{IsElement};
ghost use Rattle.iamf_select.specs.CandidateView.{heard, view_heard};

use crate::candidate::{Candidate, Heard};
use crate::lookup::element_of;

/// Element `i` of the candidate and its gain, counted from 0. A named element that is not there is not counted.
pub(crate) fn heard_at<'s, 'a>(candidate: &Candidate<'s, 'a>, i: usize) -> Heard<'s, 'a>
    requires { i < length (heard candidate.now).elements }
    ensures is { slice_get (heard candidate.now).elements i ≡ Some (view_heard result) }
    ensures valid { IsElement result.element.now }
{
    let mut left = i;
    for named in candidate.sub_mix.elements.as_slice() {
        match element_of(candidate.sequence, named.element) {
            Some(element) => {
                if left == 0 {
                    return Heard {
                        element,
                        gain: &named.gain,
                    };
                }
                left -= 1;
            }
            None => {}
        }
    }
    unreachable!()
}
