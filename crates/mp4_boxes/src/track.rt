//! An IAMF track.

ghost use Rattle.std.specs.Prelude.{◌≡◌, true, length};
ghost use Rattle.spec_boxes.specs.Tables.{agree, runs_of};
ghost use Rattle.spec_boxes.specs.Spans.{in_file};
ghost use Rattle.mp4_boxes.specs.TableViews.{span_list};
ghost use Rattle.mp4_boxes.specs.Views.{box_of, StandsIn};

use crate::box_view::BoxView;
use crate::cursor::Cursor;
use crate::samples::Samples;
use crate::stco::Places;
use crate::stsc::Runs;
use crate::stsz::Sizes;

/// An IAMF track, as views of its file: the descriptors, and tables whose samples all lie in the file.
#[derive(Clone, Copy)]
pub struct Track<'a> {
    file: &'a [u8],
    trak: BoxView<'a>,
    config: &'a [u8],
    sizes: Sizes<'a>,
    places: Places<'a>,
    runs: Runs<'a>,
    ghost stands: { StandsIn file.now trak },
    ghost agrees: { agree (runs_of runs.count runs.bytes.now 8) places.count sizes.count ≡ true },
    ghost within: { in_file (length file.now) (span_list sizes places runs) ≡ true },
}

impl<'a> Track<'a> {
    ghost use Rattle.std.specs.Prelude.{map};
    ghost use Rattle.spec_boxes.specs.Tracks.{sample_bytes};
    ghost use Rattle.mp4_boxes.specs.TrackViews.{track_seen, track_file, samples_left};

    // A track of tables that agree, whose samples are in the file.
    pub(crate) fn new(
        file: &'a [u8],
        trak: BoxView<'a>,
        config: &'a [u8],
        sizes: Sizes<'a>,
        places: Places<'a>,
        runs: Runs<'a>,
    ) -> Track<'a>
        requires stands { StandsIn file.now trak }
        requires agrees { agree (runs_of runs.count runs.bytes.now 8) places.count sizes.count ≡ true }
        requires within { in_file (length file.now) (span_list sizes places runs) ≡ true }
        ensures track { track_seen result ≡ record { trak = box_of trak.entry; config = config.now; samples = map (sample_bytes file.now) (span_list sizes.entry places.entry runs.entry) } }
        ensures file { track_file result ≡ file.now }
    {
        Track {
            file,
            trak,
            config,
            sizes,
            places,
            runs,
        }
    }

    /// The `trak` box.
    pub fn trak(&self) -> BoxView<'a>
        ensures trak { box_of result ≡ (track_seen self.now).trak }
        ensures stands { StandsIn (track_file self.now) result }
    {
        self.trak
    }

    /// The bytes of the descriptors, which are those in `iacb`.
    pub fn config(&self) -> &'a [u8]
        ensures { result.now ≡ (track_seen self.now).config }
    {
        self.config
    }

    /// How many samples there are.
    #[tactic(auto, using(crate::proofs::Counted::counted))]
    pub fn sample_count(&self) -> u32
        ensures { result ≡ length (track_seen self.now).samples }
    {
        self.sizes.count
    }

    /// The samples, in order.
    pub fn samples(&self) -> Samples<'a>
        ensures { samples_left result ≡ (track_seen self.now).samples }
    {
        Samples::new(Cursor::new(self.file, self.sizes, self.places, self.runs))
    }
}
