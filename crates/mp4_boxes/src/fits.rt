//! Whether the samples are in the file, and what they hold.

ghost use Rattle.std.specs.Prelude.{◌≡◌, length, true};
ghost use Rattle.spec_boxes.specs.Boxes.{Gives};
ghost use Rattle.spec_boxes.specs.Tracks.{samples_at};
ghost use Rattle.spec_boxes.specs.Spans.{fit, in_file};
ghost use Rattle.mp4_boxes.specs.Cursors.{spans_left};

use crate::cursor::{Cursor, Step};
use crate::obus::{Holder, are_obus};
use spec_boxes::{BoxFault, BoxRefusal};

/// Whether each sample is in the file, and all together have no more bytes than it.
pub fn samples_fit(file: &[u8], cursor: &Cursor<'_>) -> bool
    requires { cursor.now.file.now ≡ file.now }
    ensures { result ≡ fit (length file.now) (length file.now) (spans_left cursor.now) }
{
    let mut rest = *cursor;
    let mut room = file.len();
    loop {
        match rest.step() {
            Step::End => return true,
            Step::Outside => return false,
            Step::Sample(_, bytes) => {
                if bytes.len() > room {
                    return false;
                }
                room -= bytes.len();
            }
        }
    }
}

/// That each sample is whole OBUs without a temporal delimiter.
pub fn check_samples(file: &[u8], cursor: &Cursor<'_>) -> Result<(), BoxRefusal>
    requires file { cursor.now.file.now ≡ file.now }
    requires within { in_file (length file.now) (spans_left cursor.now) ≡ true }
    ensures { Gives (λ _. tt) result (samples_at file.now (spans_left cursor.now)) }
{
    let mut rest = *cursor;
    loop {
        match rest.step() {
            Step::End => return Ok(()),
            Step::Outside => return Ok(()),
            Step::Sample(at, bytes) => {
                if !are_obus(bytes, Holder::Sample) {
                    return Err(BoxRefusal {
                        at: at as u64,
                        fault: BoxFault::Sample,
                    });
                }
            }
        }
    }
}
