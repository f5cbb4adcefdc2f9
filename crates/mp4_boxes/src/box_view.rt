//! One box of a file.

ghost use Rattle.std.specs.Prelude.{◌≡◌, ◌+◌, ◌-◌, ◌<◌, ◌≤◌, length, IfOk, IfErr, slice_range};
ghost use Rattle.spec_boxes.specs.Boxes.{box_at, sized, Gives};
ghost use Rattle.spec_boxes.specs.Tiling.{Stands, NoneStands};
ghost use Rattle.mp4_boxes.specs.Views.{box_of};

use crate::numbers::{read_long, read_word};
use spec_boxes::{BoxFault, BoxRefusal};

/// A box of a file (ISO/IEC 14496-12, "Object Structure").
#[derive(Clone, Copy)]
pub struct BoxView<'a> {
    /// The place in the file of its first byte.
    pub at: usize,
    /// The place after its last byte.
    pub end: usize,
    /// Its four letters.
    pub kind: [u8; 4],
    /// What follows its header: its last bytes before `end`.
    pub payload: &'a [u8],
}

// A box whose header has so many bytes, and which has so many in all.
fn sized_box<'a>(
    buffer: &'a [u8],
    at: usize,
    header: usize,
    size: u64,
    end: usize,
) -> Result<BoxView<'a>, BoxRefusal>
    requires begins { at + header ≤ end }
    requires named { 8 ≤ header }
    requires within { end ≤ length buffer.now }
    ensures exact { Gives box_of result (sized buffer.now at header size end) }
    ensures at { IfOk result (λ b. b.at ≡ at) }
    ensures header { IfOk result (λ b. at + 8 + length b.payload.now ≤ b.end) }
    ensures within { IfOk result (λ b. b.end ≤ end) }
    ensures payload { IfOk result (λ b. b.payload.now ≡ slice_range buffer.now (b.end - length b.payload.now) b.end) }
{
    if size < header as u64 || size > (end - at) as u64 {
        return Err(BoxRefusal {
            at: at as u64,
            fault: BoxFault::BoxSize,
        });
    }
    let past = at + size as usize;
    Ok(BoxView {
        at,
        end: past,
        kind: [
            buffer[at + 4],
            buffer[at + 5],
            buffer[at + 6],
            buffer[at + 7],
        ],
        payload: &buffer[at + header..past],
    })
}

/// The box at a place of a part that ends at `end`, as reading gives it.
#[tactic(auto, unfolding(spec_boxes::specs::Boxes::box_at))]
pub fn box_view<'a>(
    buffer: &'a [u8],
    at: usize,
    end: usize,
    top: bool,
) -> Result<BoxView<'a>, BoxRefusal>
    requires begins { at < end }
    requires within { end ≤ length buffer.now }
    ensures exact { Gives box_of result (box_at top buffer.now at end) }
    ensures at { IfOk result (λ b. b.at ≡ at) }
    ensures header { IfOk result (λ b. at + 8 + length b.payload.now ≤ b.end) }
    ensures within { IfOk result (λ b. b.end ≤ end) }
    ensures payload { IfOk result (λ b. b.payload.now ≡ slice_range buffer.now (b.end - length b.payload.now) b.end) }
{
    let refusal = BoxRefusal {
        at: at as u64,
        fault: BoxFault::BoxSize,
    };
    if end - at < 8 {
        return Err(refusal);
    }
    match read_word(buffer, at) {
        1 => {
            if end - at < 16 {
                return Err(refusal);
            }
            sized_box(buffer, at, 16, read_long(buffer, at + 8), end)
        }
        0 => {
            if !top {
                return Err(refusal);
            }
            sized_box(buffer, at, 8, (end - at) as u64, end)
        }
        size => sized_box(buffer, at, 8, u64::from(size), end),
    }
}

/// The box at a place of a part of the buffer that ends at `end`. With `top` the part is a whole file, where a
/// size of 0 reaches to `end`. It takes no memory.
///
/// # Errors
///
/// `BoxSize` at the place, exactly where no box stands there: fewer than 8 bytes are left, or fewer than 16
/// where the size is 1; the size is below the header's or passes `end`; or it is 0 and the part is no file.
#[tactic(auto, using(crate::proofs::Standing::stands, crate::proofs::Standing::none_stands))]
pub fn read_box<'a>(
    buffer: &'a [u8],
    at: usize,
    end: usize,
    top: bool,
) -> Result<BoxView<'a>, BoxRefusal>
    requires begins { at < end }
    requires within { end ≤ length buffer.now }
    ensures stands { IfOk result (λ b. Stands top buffer.now end (box_of b)) }
    ensures at { IfOk result (λ b. b.at ≡ at) }
    ensures payload { IfOk result (λ b. b.payload.now ≡ slice_range buffer.now (box_of b).start b.end) }
    ensures none { IfErr result (NoneStands top buffer.now at end) }
{
    box_view(buffer, at, end, top)
}
