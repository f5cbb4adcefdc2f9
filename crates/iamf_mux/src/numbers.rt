//! What a file tells of the samples of its units.

ghost use Rattle.std.specs.Prelude.{◌≡◌, ◌+◌, ◌<◌, ◌≤◌, ◌^◌, ℕ, List, [], ◌∷◌, ◌++◌, Some};
ghost use Rattle.spec_rules.specs.Admitted.{IsAdmitted};
ghost use Rattle.spec_rules.specs.Descriptors.{codec_of, codecs};
ghost use Rattle.spec_sequence.specs.Parts.{FrameValue, UnitValue, frame_of};
ghost use Rattle.spec_sequence.specs.Reading.{Entry, roles};
ghost use Rattle.spec_sequence.specs.ValueRole.{role};
ghost use Rattle.iamf_admission.specs.Numbers.{number_after};
ghost use Rattle.iamf_admission.specs.Taking.{IsSaid, Says};
ghost use Rattle.iamf_sequence.specs.UnitView.{opened, change_last};
ghost use Rattle.iamf_mux.specs.Rates.{rate_in, first_rate};
ghost use Rattle.iamf_mux.specs.Trims.{first_start, AddsFrames};

use iamf_obu::Content;
use obu_descriptors::Coding;

/// How many samples, per channel, are trimmed at the starts of units. The trims of a unit are those of its first frame.
#[derive(Drop)]
pub struct Starts {
    pub trimmed: u64,
    /// How many units are begun.
    pub units: u64,
    /// Whether the last of them has a frame.
    pub framed: bool,
}

impl Starts {
    ghost use Rattle.iamf_mux.specs.NumbersView.{AreStarts};

    /// Of no unit.
    pub fn new() -> Starts
        ensures none { AreStarts result [] }
        ensures units { result.units ≡ 0 }
        ensures trimmed { result.trimmed ≡ 0 }
    {
        Starts {
            trimmed: 0,
            units: 0,
            framed: false,
        }
    }

    // The unit is begun, if it is not yet.
    fn begin(&mut self, unit: u64)
        requires { self.old.units < 2 ^ 63 }
        ensures begun { (us : List UnitValue) → AreStarts self.old us → AreStarts self.new (opened unit us) }
        ensures some { 0 < self.new.units }
        ensures units { self.new.units ≤ self.old.units + 1 }
        ensures same { self.new.trimmed ≡ self.old.trimmed }
    {
        if unit >= self.units {
            self.units += 1;
            self.framed = false;
        }
    }

    // The last unit has one more frame.
    fn put_frame(&mut self, start: u32)
        requires some { 0 < self.old.units }
        requires trimmed { self.old.trimmed < 2 ^ 63 }
        ensures put { (us : List UnitValue) (fs : List FrameValue) (change : UnitValue → UnitValue) → AreStarts self.old us → first_start fs ≡ Some start → AddsFrames change fs
            → AreStarts self.new (change_last change us) }
        ensures trimmed { self.new.trimmed < self.old.trimmed + 2 ^ 32 }
        ensures same { self.new.units ≡ self.old.units }
    {
        if !self.framed {
            self.trimmed += u64::from(start);
            self.framed = true;
        }
    }

    /// The next data OBU. It is of the last unit or of the next, which has this number, and, where it is a frame, so many
    /// samples are trimmed at its start.
    pub fn add(&mut self, unit: u64, start: Option<u32>)
        requires units { self.old.units < 2 ^ 63 }
        requires trimmed { self.old.trimmed < 2 ^ 63 }
        ensures added { (us : List UnitValue) (fs : List FrameValue) (change : UnitValue → UnitValue) → AreStarts self.old us → first_start fs ≡ start → AddsFrames change fs
            → AreStarts self.new (change_last change (opened unit us)) }
        ensures units { self.new.units ≤ self.old.units + 1 }
        ensures trimmed { self.new.trimmed ≤ self.old.trimmed + 2 ^ 32 }
    {
        self.begin(unit);
        if let Some(start) = start {
            self.put_frame(start);
        }
    }
}

// Samples of a second, per channel.
fn rate(coding: &Coding<'_>) -> u32
    ensures { result ≡ rate_in coding.now }
{
    match coding {
        Coding::Lpcm { rate, .. } | Coding::Flac { rate, .. } => *rate,
    }
}

// The sample rate that a codec config tells.
fn rate_told(content: &Content<'_>) -> Option<u32>
    ensures { (past : List Entry) (e : Entry) → IsSaid content.now past e → first_rate (codec_of (role e.value)) ≡ result }
{
    match content {
        Content::CodecConfig(config) => Some(rate(&config.coding)),
        _ => None,
    }
}

// The sample rate, with one more OBU.
fn rate_after(told: Option<u32>, content: &Content<'_>) -> Option<u32>
    ensures { (past : List Entry) (e : Entry) → told ≡ first_rate (codecs (roles past)) → IsSaid content.now past e → result ≡ first_rate (codecs (roles (past ++ e ∷ []))) }
{
    match told {
        Some(rate) => Some(rate),
        None => rate_told(content),
    }
}

// How many samples are trimmed at the start of a frame.
fn start_told(content: &Content<'_>) -> Option<u32>
    ensures { (past : List Entry) (e : Entry) → IsSaid content.now past e → first_start (frame_of e.value) ≡ result }
{
    match content {
        Content::AudioFrame(frame) => Some(frame.trim.start),
        _ => None,
    }
}

/// What the OBUs that were read tell of the samples.
#[derive(Drop)]
pub struct Numbers {
    /// Samples of a second, per channel, once a codec config tells it.
    pub sample_rate: Option<u32>,
    pub starts: Starts,
}

impl Numbers {
    ghost use Rattle.iamf_mux.specs.NumbersView.{AreNumbers, AreFew};

    /// Of no OBU.
    pub fn new() -> Numbers
        ensures none { AreNumbers result [] }
        ensures few { AreFew result 0 }
    {
        Numbers {
            sample_rate: None,
            starts: Starts::new(),
        }
    }

    // What the next OBU says, which is no redundant copy, and the number of its unit.
    fn add_said(&mut self, content: &Content<'_>, unit: Option<u64>)
        requires few { (at : ℕ) × AreFew self.old at × (at < 2 ^ 30) }
        ensures added { (past : List Entry) (e : Entry) → AreNumbers self.old past → IsAdmitted (roles past) → IsSaid content.now past e → unit ≡ number_after (roles past) (role e.value)
            → AreNumbers self.new (past ++ e ∷ []) }
        ensures few { (at : ℕ) → AreFew self.old at → AreFew self.new (at + 1) }
    {
        self.sample_rate = rate_after(self.sample_rate, content);
        if let Some(unit) = unit {
            self.starts.add(unit, start_told(content));
        }
    }

    /// What the next OBU says, and the number of its unit. A redundant copy says nothing new.
    pub fn add(&mut self, content: &Option<Content<'_>>, unit: Option<u64>)
        requires few { (at : ℕ) × AreFew self.old at × (at < 2 ^ 30) }
        ensures added { (past : List Entry) (e : Entry) → AreNumbers self.old past → IsAdmitted (roles past) → Says content.now past e → unit ≡ number_after (roles past) (role e.value)
            → AreNumbers self.new (past ++ e ∷ []) }
        ensures few { (at : ℕ) → AreFew self.old at → AreFew self.new (at + 1) }
    {
        if let Some(content) = content {
            self.add_said(content, unit);
        }
    }
}
