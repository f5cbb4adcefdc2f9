//! A place among the samples of a track.

ghost use Rattle.std.specs.Prelude.{◌≡◌, ℕ, ◌+◌, ◌-◌, ◌*◌, ◌<◌, ◌≤◌, ◌∷◌, true, false, length};
ghost use Rattle.spec_boxes.specs.Bytes.{word_at};
ghost use Rattle.spec_boxes.specs.Tables.{runs_of, rise_after, total_from, agree, chunk_counts, place_list, size_list};
ghost use Rattle.spec_boxes.specs.Spans.{spans, sizes_from, places_from, runs_from};

use crate::stco::Places;
use crate::stsc::Runs;
use crate::stsz::Sizes;

/// What a step through the samples comes to.
#[derive(Clone, Copy)]
pub enum Step<'a> {
    /// All samples were passed.
    End,
    /// The next sample's place and bytes.
    Sample(usize, &'a [u8]),
    /// The next sample passes the end of the file.
    Outside,
}

/// A place among the samples of a track.
#[derive(Clone, Copy)]
pub struct Cursor<'a> {
    file: &'a [u8],
    sizes: Sizes<'a>,
    places: Places<'a>,
    runs: Runs<'a>,
    // how many samples, chunks and runs were begun
    sample: u32,
    chunk: u32,
    run: u32,
    // how many samples each chunk of the run has, and how many are left in the chunk
    each: u32,
    left: u32,
    // where the next sample in the chunk lies
    place: u64,
    ghost sample_in: { sample ≤ sizes.count },
    ghost chunk_in: { chunk ≤ places.count },
    ghost run_in: { run ≤ runs.count },
    ghost some: { chunk < places.count → 0 < each },
    ghost rising: { rise_after chunk (runs_from runs.count runs.bytes.now run) places.count ≡ true },
    ghost total: { left + total_from (chunk + 1) each (runs_from runs.count runs.bytes.now run) places.count ≡ sizes.count - sample },
}

impl<'a> Cursor<'a> {
    ghost use Rattle.mp4_boxes.specs.Cursors.{spans_left, Steps, Turns, Onward};

    pub fn new(file: &'a [u8], sizes: Sizes<'a>, places: Places<'a>, runs: Runs<'a>) -> Cursor<'a>
        requires { agree (runs_of runs.count runs.bytes.now 8) places.count sizes.count ≡ true }
        ensures all { spans_left result ≡ spans (place_list places.entry.wide places.entry.count places.entry.bytes.now) (chunk_counts (runs_of runs.entry.count runs.entry.bytes.now 8) places.entry.count) (size_list sizes.entry.common sizes.entry.count sizes.entry.bytes.now) }
        ensures file { result.file.now ≡ file.now }
    {
        if runs.count == 0 {
            return Cursor {
                file,
                sizes,
                places,
                runs,
                sample: 0,
                chunk: 0,
                run: 0,
                each: 0,
                left: 0,
                place: 0,
            };
        }
        let each = runs.each(0);
        Cursor {
            file,
            sizes,
            places,
            runs,
            sample: 0,
            chunk: 0,
            run: 1,
            each,
            left: 0,
            place: 0,
        }
    }

    // Whether a run begins with the next chunk.
    fn turns(&self, chunk: u32) -> bool
        requires { chunk ≡ self.now.chunk + 1 }
        ensures turns { result ≡ true → Turns self.now chunk }
        ensures stays { result ≡ false → rise_after chunk (runs_from self.now.runs.count self.now.runs.bytes.now self.now.run) self.now.places.count ≡ true }
    {
        if self.run == self.runs.count {
            return false;
        }
        if self.runs.first(self.run) == chunk {
            return true;
        }
        false
    }

    // The cursor where the next chunk is begun.
    fn entered(&self) -> Cursor<'a>
        requires none_left { self.now.left ≡ 0 }
        requires more { self.now.sample < self.now.sizes.count }
        ensures same { spans_left result ≡ spans_left self.now }
        ensures some { 0 < result.left }
        ensures sample { result.sample ≡ self.now.sample }
        ensures sizes { result.sizes ≡ self.now.sizes }
        ensures file { result.file.now ≡ self.now.file.now }
    {
        let chunk = self.chunk + 1;
        let place = self.places.at(self.chunk);
        if self.turns(chunk) {
            let each = self.runs.each(self.run);
            return Cursor {
                file: self.file,
                sizes: self.sizes,
                places: self.places,
                runs: self.runs,
                sample: self.sample,
                chunk,
                run: self.run + 1,
                each,
                left: each,
                place,
            };
        }
        Cursor {
            file: self.file,
            sizes: self.sizes,
            places: self.places,
            runs: self.runs,
            sample: self.sample,
            chunk,
            run: self.run,
            each: self.each,
            left: self.each,
            place,
        }
    }

    // The next sample of a chunk that has one.
    fn take(&mut self) -> Step<'a>
        requires some { 0 < self.old.left }
        requires more { self.old.sample < self.old.sizes.count }
        ensures steps { Steps self.old result self.new }
        ensures file { self.new.file.now ≡ self.old.file.now }
        ensures onward { Onward self.old result self.new }
    {
        let size = u64::from(self.sizes.at(self.sample));
        let end = self.file.len() as u64;
        if self.place > end {
            return Step::Outside;
        }
        if size > end - self.place {
            return Step::Outside;
        }
        let at = self.place as usize;
        let bytes = &self.file[at..at + size as usize];
        self.sample += 1;
        self.left -= 1;
        self.place += size;
        Step::Sample(at, bytes)
    }

    /// The next sample.
    pub fn step(&mut self) -> Step<'a>
        ensures steps { Steps self.old result self.new }
        ensures file { self.new.file.now ≡ self.old.file.now }
        ensures onward { Onward self.old result self.new }
    {
        if self.sample == self.sizes.count {
            return Step::End;
        }
        if self.left == 0 {
            *self = self.entered();
        }
        self.take()
    }
}
