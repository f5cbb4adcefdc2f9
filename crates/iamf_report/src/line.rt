//! What the lines of descriptors print.

use spec_rules::Codec;

/// What the line of the sequence header prints.
#[derive(Clone, Copy, Debug)]
pub(crate) struct HeaderLine {
    pub(crate) primary: u8,
    pub(crate) additional: u8,
}

/// What the line of a codec config prints.
#[derive(Clone, Copy, Debug)]
pub(crate) struct CodecLine {
    pub(crate) id: u32,
    pub(crate) codec: Codec,
    /// Samples of a channel in a frame.
    pub(crate) frame_length: u32,
    /// Samples a second.
    pub(crate) rate: u32,
    /// Bits of a sample.
    pub(crate) depth: u8,
}

/// What an audio element is made of.
#[derive(Clone, Copy, Debug)]
pub(crate) enum ElementKind {
    /// Channels in layers.
    Scalable,
    /// Ambisonics.
    Scene,
    /// A type that is kept unread.
    Other,
}

/// What the line of an audio element prints.
#[derive(Clone, Copy, Debug)]
pub(crate) struct ElementLine {
    pub(crate) id: u32,
    pub(crate) kind: ElementKind,
    pub(crate) substreams: usize,
    /// Coded channels, 0 where their number is not known.
    pub(crate) channels: u32,
}

/// What the line of a mix presentation prints.
#[derive(Clone, Copy, Debug)]
pub(crate) struct MixLine {
    pub(crate) id: u32,
    pub(crate) sub_mixes: usize,
    /// Of all sub-mixes together; one that is named twice counts twice.
    pub(crate) elements: u64,
    /// Whether it fits the primary profile.
    pub(crate) fits: bool,
}

/// What the line of a tag prints.
#[derive(Debug, Drop)]
pub(crate) struct TagLine {
    pub(crate) name: Vec<u8>,
    pub(crate) value: Vec<u8>,
}

/// The line of a mix presentation, and those of its tags.
#[derive(Debug, Drop)]
pub(crate) struct MixLines {
    pub(crate) mix: MixLine,
    pub(crate) tags: Vec<TagLine>,
}

/// The lines of the descriptors of a sequence.
#[derive(Debug, Drop)]
pub(crate) struct Lines {
    pub(crate) header: Option<HeaderLine>,
    pub(crate) codec: Option<CodecLine>,
    pub(crate) elements: Vec<ElementLine>,
    pub(crate) mixes: Vec<MixLines>,
}
