//! How many samples each chunk has (ISO/IEC 14496-12, "Sample To Chunk Box").

ghost use Rattle.std.specs.Prelude.{◌≡◌, ◌+◌, ◌*◌, ◌<◌, ◌≤◌, length, IfOk, true};
ghost use Rattle.spec_boxes.specs.Bytes.{word_at};
ghost use Rattle.spec_boxes.specs.Boxes.{Gives};
ghost use Rattle.spec_boxes.specs.Tables.{runs_at, runs_of, agree, all_first};

use crate::box_view::BoxView;
use crate::full_box::{check_room, refused};
use crate::numbers::read_word;
use spec_boxes::{BoxFault, BoxRefusal};

/// Runs of chunks that have as many samples each.
#[derive(Clone, Copy)]
pub struct Runs<'a> {
    pub count: u32,
    pub bytes: &'a [u8],
    pub ghost room: { 8 + 12 * count ≤ length bytes.now },
}

// Whether the runs begin with chunk 1, rise within the chunks, and have some samples each, and the chunks so many.
fn runs_agree(bytes: &[u8], count: u32, chunks: u32, samples: u32) -> bool
    requires { 8 + 12 * count ≤ length bytes.now }
    ensures { result ≡ agree (runs_of count bytes.now 8) chunks samples }
{
    if count == 0 {
        return chunks == 0 && samples == 0;
    }
    let mut before = read_word(bytes, 8);
    let mut each = read_word(bytes, 12);
    if before != 1 {
        return false;
    }
    if before > chunks {
        return false;
    }
    if each == 0 {
        return false;
    }
    let mut total = 0u64;
    for i in 1..count as usize {
        let first = read_word(bytes, 8 + 12 * i);
        let next = read_word(bytes, 12 + 12 * i);
        if first <= before {
            return false;
        }
        if first > chunks {
            return false;
        }
        if next == 0 {
            return false;
        }
        total += u64::from(first - before) * u64::from(each);
        before = first;
        each = next;
    }
    total + (u64::from(chunks - before) + 1) * u64::from(each) == u64::from(samples)
}

// Whether each run has the first description.
fn first_descriptions(bytes: &[u8], count: u32) -> bool
    requires { 8 + 12 * count ≤ length bytes.now }
    ensures { result ≡ all_first (runs_of count bytes.now 8) }
{
    for i in 0..count as usize {
        if read_word(bytes, 16 + 12 * i) != 1 {
            return false;
        }
    }
    true
}

impl<'a> Runs<'a> {
    ghost use Rattle.mp4_boxes.specs.Views.{box_of};
    ghost use Rattle.mp4_boxes.specs.TableViews.{run_list};

    /// The runs in `stsc`, where there are so many chunks and samples.
    #[tactic(auto, unfolding(spec_boxes::specs::Tables::runs_at))]
    pub fn read(view: &BoxView<'a>, chunks: u32, samples: u32) -> Result<Runs<'a>, BoxRefusal>
        ensures exact { Gives run_list result (runs_at (box_of view.now) view.now.payload.now chunks samples) }
        ensures agrees { IfOk result (λ r. agree (runs_of r.count r.bytes.now 8) chunks samples ≡ true) }
    {
        check_room(view, 8)?;
        let count = read_word(view.payload, 4);
        check_room(view, 8 + 12 * u64::from(count))?;
        if !runs_agree(view.payload, count, chunks, samples) {
            return Err(refused(view, BoxFault::Table(view.kind)));
        }
        if !first_descriptions(view.payload, count) {
            return Err(refused(view, BoxFault::Descriptions));
        }
        Ok(Runs {
            count,
            bytes: view.payload,
        })
    }

    /// The first chunk of run r, counted from 1.
    #[inline]
    pub fn first(&self, r: u32) -> u32
        requires { r < self.now.count }
        ensures { result ≡ word_at self.now.bytes.now (8 + 12 * r) }
    {
        read_word(self.bytes, 8 + 12 * r as usize)
    }

    /// How many samples each chunk of run r has.
    #[inline]
    pub fn each(&self, r: u32) -> u32
        requires { r < self.now.count }
        ensures { result ≡ word_at self.now.bytes.now (12 + 12 * r) }
    {
        read_word(self.bytes, 12 + 12 * r as usize)
    }
}
