ghost use Rattle.std.specs.Prelude.{◌≡◌, ◌+◌, ◌-◌, ◌^◌, ◌<◌};

use spec_obu::Trim;
use spec_values::Fault;

/// The temporal unit that is open, and what is kept of those before it.
#[derive(Clone, Copy)]
pub(crate) struct OpenUnit {
    /// Whether the first data OBU is a delimiter, once there is one.
    pub(crate) delimited: Option<bool>,
    /// How many units stand before it.
    pub(crate) number: u64,
    /// Whether a data OBU of the unit has come.
    pub(crate) begun: bool,
    /// How many of its frames have come.
    pub(crate) frames: usize,
    /// The trim of the frames that have come.
    pub(crate) trim: Option<Trim>,
    /// The samples of a channel that the units before it keep.
    pub(crate) samples: u64,
    /// Whether a unit before it has an end trim.
    pub(crate) cut: bool,
}

/// The samples of a channel that a frame of the length keeps.
fn kept_by(length: u16, trim: Trim) -> u64
    ensures value { result ≡ length - (trim.start + trim.end) }
    ensures small { result < 2 ^ 16 }
{
    u64::from(length).saturating_sub(u64::from(trim.start) + u64::from(trim.end))
}

impl OpenUnit {
    ghost use Rattle.iamf_rules.specs.UnitSteps.{no_unit, kept_of, bad_trim, delimiter_fault_of, end_fault_of, is_full, IsSmall, begun, closed, with_frame, with_delimiter, units_of};

    /// The first unit, before any data OBU.
    pub(crate) fn new() -> OpenUnit
        ensures { result ≡ no_unit }
    {
        OpenUnit {
            delimited: None,
            number: 0,
            begun: false,
            frames: 0,
            trim: None,
            samples: 0,
            cut: false,
        }
    }

    /// Whether the trim is longer than the frame or another than those of the unit's frames, begins after samples that
    /// were kept, or follows an end trim.
    pub(crate) fn has_bad_trim(&self, length: u16, trim: Trim) -> bool
        ensures { result ≡ bad_trim self.now length trim }
    {
        let is_other = match self.trim {
            Some(other) => !(other.end == trim.end && other.start == trim.start),
            None => false,
        };
        u64::from(length) < u64::from(trim.start) + u64::from(trim.end)
            || is_other
            || (0 < trim.start && 0 < self.samples)
            || self.cut
    }

    /// What is wrong with a delimiter, where there are so many substreams.
    pub(crate) fn delimiter_fault(&self, substreams: usize) -> Option<Fault>
        ensures { result ≡ delimiter_fault_of self.now substreams }
    {
        match self.delimited {
            Some(false) => Some(Fault::Delimiter),
            Some(true) if !self.is_full(substreams) => Some(Fault::UnitShort),
            _ => None,
        }
    }

    /// What is wrong with the end, where there are so many substreams.
    pub(crate) fn end_fault(&self, substreams: usize) -> Option<Fault>
        ensures { result ≡ end_fault_of self.now substreams }
    {
        if self.begun && !self.is_full(substreams) {
            return Some(Fault::UnitShort);
        }
        None
    }

    fn is_full(&self, substreams: usize) -> bool
        ensures { result ≡ is_full self.now substreams }
    {
        self.frames == substreams
    }

    /// How many units are begun.
    pub(crate) fn units(&self) -> u64
        ensures { IsSmall self.now → result ≡ units_of self.now }
    {
        if self.begun {
            self.number.saturating_add(1)
        } else {
            self.number
        }
    }

    /// The samples of a channel that this unit keeps as far as its frames have come.
    fn kept(&self, length: u16) -> u64
        ensures value { result ≡ kept_of length self.now.trim }
        ensures small { result < 2 ^ 16 }
    {
        match self.trim {
            Some(trim) => kept_by(length, trim),
            None => 0,
        }
    }

    /// The samples of a channel that the units before it keep, and this unit as far as its frames have come.
    pub(crate) fn samples(&self, length: u16) -> u64
        ensures { IsSmall self.now → result ≡ self.now.samples + kept_of length self.now.trim }
    {
        self.samples.saturating_add(self.kept(length))
    }

    /// Goes on to the next unit.
    fn close(&mut self, length: u16)
        ensures { IsSmall self.old → self.new ≡ closed self.old length }
    {
        self.samples = self.samples(length);
        if let Some(trim) = self.trim {
            self.cut = self.cut || 0 < trim.end;
        }
        self.number = self.number.saturating_add(1);
        self.begun = false;
        self.frames = 0;
        self.trim = None;
    }

    /// Adds a block, or what a frame is apart from being one.
    pub(crate) fn begin(&mut self)
        ensures { self.new ≡ begun self.old }
    {
        if self.delimited.is_none() {
            self.delimited = Some(false);
        }
        self.begun = true;
    }

    /// Adds a frame, where there are so many substreams.
    pub(crate) fn add_frame(&mut self, substreams: usize, length: u16, trim: Trim)
        ensures { self.old.frames < 2 ^ 62 → IsSmall self.old → self.new ≡ with_frame self.old substreams length trim }
    {
        self.frames = self.frames.saturating_add(1);
        self.trim = Some(trim);
        self.begin();
        if self.delimited == Some(false) && self.is_full(substreams) {
            self.close(length);
        }
    }

    /// Adds a delimiter, which begins the next unit unless no data OBU has come.
    pub(crate) fn add_delimiter(&mut self, length: u16)
        ensures { IsSmall self.old → self.new ≡ with_delimiter self.old length }
    {
        if self.delimited.is_some() {
            self.close(length);
        }
        self.delimited = Some(true);
        self.begun = true;
    }
}
