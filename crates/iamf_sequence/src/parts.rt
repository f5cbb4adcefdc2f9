//! What a sequence is made of.

use crate::unit::Unit;
use iamf_admission::Admission;
use obu_descriptors::{AudioElement, CodecConfig, SequenceHeader};
use obu_header::ObuView;
use obu_mix::MixPresentation;

/// An OBU of a sequence.
#[derive(Clone, Copy)]
pub struct Placed<'a> {
    pub(crate) view: ObuView<'a>,
    /// The number of its temporal unit, where it has one.
    pub(crate) unit: Option<u64>,
}

/// What is kept of the OBUs of a sequence.
#[derive(Drop)]
pub struct Parts<'a> {
    pub(crate) obus: Vec<Placed<'a>>,
    pub(crate) header: SequenceHeader<'a>,
    pub(crate) codec: CodecConfig<'a>,
    pub(crate) elements: Vec<AudioElement<'a>>,
    pub(crate) mixes: Vec<MixPresentation<'a>>,
    pub(crate) units: Vec<Unit<'a>>,
    /// It admitted all of them, and knows the parameter definitions and the number of samples.
    pub(crate) admission: Admission,
}
