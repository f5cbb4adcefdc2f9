//! Worked payloads, each fault at the field that has it, and channels.

ghost use Rattle.std.specs.Prelude.{ℕ};
ghost use Rattle.spec_syntax.specs.Payload.{IsValid};
ghost use Rattle.spec_descriptors.specs.AudioElement.{audio_element};
ghost use Rattle.spec_descriptors.specs.ElementFields.{audio_element_fields};
ghost use Rattle.obu_descriptors.specs.ElementView.{view_element};

use obu_descriptors::{AudioElement, DescriptorError, coded_channels, substream_channels};
use std::alloc::{AllocError, Global};
use std::process::Abort;
use std::test::Fail;

// One layer, stereo.
const STEREO: &[u8] = b"\x01\x00\x00\x01\x00\x00\x20\x10\x01\x01";

// The layers stereo, 5.1.2 and 7.1.4, with demixing and recon gains, in frames of 1024 ticks.
const LAYERS: &[u8] = b"\x01\x00\x00\x07\x00\x01\x02\x03\x04\x05\x06\
    \x02\x01\x66\x80\xf7\x02\x00\x80\x08\x80\x08\x40\x70\x02\x67\x80\xf7\x02\x00\x80\x08\x80\x08\
    \x60\x10\x01\x01\x34\x04\x02\x74\x02\x02\x99";

// One channel by a matrix of one coefficient, 16384.
const PROJECTION: &[u8] = b"\x01\x20\x00\x01\x00\x00\x01\x01\x01\x00\x40\x00";

// Four outputs of three substreams, the last silent.
const SCENE: &[u8] = b"\x01\x20\x00\x03\x00\x01\x02\x00\x00\x04\x03\x00\x01\x02\xff";

// A type that is kept unread, with a parameter that is, and a tail.
const UNREAD: &[u8] = b"\x01\x40\x00\x00\x01\x05\x02\xaa\xbb\x03\x01\x02\x03\x99";

// Mono with a gain of -1536 for the flags 32.
const GAIN: &[u8] = b"\x01\x00\x00\x01\x00\x00\x20\x0c\x01\x00\x80\xfa\x00";

// Stereo with recon gains of no codec config, whose subblocks last 5 and 6 ticks.
const SUBBLOCKS: &[u8] =
    b"\x01\x00\x00\x01\x00\x01\x02\x67\x01\x00\x00\x00\x02\x05\x06\x20\x10\x01\x01";

// A payload, how many ticks a frame has, and what is read.
const READ: &[(&[u8], u32, &str)] = &[
    (
        STEREO,
        8,
        "Ok(AudioElement { id: 1, codec: 0, substreams: [0], params: [], config: Scalable { layers: \
         [Layer { layout: Stereo, gain: None, recon: false, substreams: 1, coupled: 1 }] }, tail: [] })",
    ),
    (
        LAYERS,
        1024,
        "Ok(AudioElement { id: 1, codec: 0, substreams: [0, 1, 2, 3, 4, 5, 6], params: \
         [Demix { timing: Timing { id: 102, rate: 48000, fixed: \
         Some(Fixed { duration: 1024, constant: 1024, durations: [] }) }, mode: 2, weight: 7 }, \
         Recon { timing: Timing { id: 103, rate: 48000, fixed: \
         Some(Fixed { duration: 1024, constant: 1024, durations: [] }) } }], config: Scalable { layers: \
         [Layer { layout: Stereo, gain: None, recon: false, substreams: 1, coupled: 1 }, \
         Layer { layout: L512, gain: None, recon: true, substreams: 4, coupled: 2 }, \
         Layer { layout: L714, gain: None, recon: true, substreams: 2, coupled: 2 }] }, tail: [153] })",
    ),
    (
        PROJECTION,
        8,
        "Ok(AudioElement { id: 1, codec: 0, substreams: [0], params: [], config: \
         Projection { outputs: 1, substreams: 1, coupled: 0, matrix: [64, 0] }, tail: [] })",
    ),
    (
        SCENE,
        8,
        "Ok(AudioElement { id: 1, codec: 0, substreams: [0, 1, 2], params: [], config: \
         Mono { outputs: 4, mapping: [0, 1, 2, 255] }, tail: [] })",
    ),
    (
        UNREAD,
        8,
        "Ok(AudioElement { id: 1, codec: 0, substreams: [], params: [Other { kind: 5, bytes: [170, 187] }], \
         config: Other { kind: 2, bytes: [1, 2, 3] }, tail: [153] })",
    ),
    (
        GAIN,
        8,
        "Ok(AudioElement { id: 1, codec: 0, substreams: [0], params: [], config: Scalable { layers: \
         [Layer { layout: Mono, gain: Some(OutputGain { flags: 32, gain: -1536 }), recon: true, \
         substreams: 1, coupled: 0 }] }, tail: [] })",
    ),
    (
        SUBBLOCKS,
        0,
        "Ok(AudioElement { id: 1, codec: 0, substreams: [0], params: \
         [Recon { timing: Timing { id: 103, rate: 1, fixed: \
         Some(Fixed { duration: 0, constant: 0, durations: [5, 6] }) } }], config: Scalable { layers: \
         [Layer { layout: Stereo, gain: None, recon: false, substreams: 1, coupled: 1 }] }, tail: [] })",
    ),
];

/// What is read of the payload, as text.
fn shown(alloc: Global, payload: &[u8], frame_length: u32) -> Result<String, AllocError> {
    format!(in alloc; "{:?}", AudioElement::read(alloc, payload, frame_length))
}

#[test]
fn worked_payloads_are_read(rt: HostRuntime) -> Result<(), Fail> {
    for (payload, frame_length, text) in READ {
        let found = shown(rt.alloc(), payload, *frame_length)?;
        assert_eq!(rt; found.as_str(), *text);
    }
    Ok(())
}

fn read<'a>(
    rt: &impl Abort,
    alloc: Global,
    payload: &'a [u8],
    frame_length: u32,
) -> AudioElement<'a>
    ensures { (frame_length : ℕ) × IsValid (audio_element frame_length) audio_element_fields (view_element result) }
{
    match AudioElement::read(alloc, payload, frame_length) {
        Ok(element) => element,
        Err(_) => panic!(rt; "refused"),
    }
}

/// What is read of the payload, written again.
fn written(
    rt: &impl Abort,
    alloc: Global,
    payload: &[u8],
    frame_length: u32,
) -> Result<Vec<u8>, AllocError> {
    read(rt, alloc, payload, frame_length).write(alloc)
}

/// How many bytes its fields have.
fn fields_length(
    rt: &impl Abort,
    alloc: Global,
    payload: &[u8],
    frame_length: u32,
) -> Result<usize, AllocError> {
    let fields = read(rt, alloc, payload, frame_length).write_fields(alloc)?;
    Ok(fields.len())
}

// Long numbers, and all reserved bits set.
const LONG: &[u8] = b"\x81\x80\x00\x1f\x80\x00\x81\x00\x80\x00\x80\x00\x3f\x13\x01\x01";

#[test]
fn payloads_are_written_shortest(rt: HostRuntime) -> Result<(), Fail> {
    for (payload, frame_length, fields) in FIELDS {
        let found = written(&rt, rt.alloc(), payload, *frame_length)?;
        assert_eq!(rt; found.as_slice(), *payload);
        let length = fields_length(&rt, rt.alloc(), payload, *frame_length)?;
        assert!(rt; length == *fields);
    }
    let found = written(&rt, rt.alloc(), LONG, 8)?;
    assert!(rt; found.as_slice() == STEREO);
    Ok(())
}

/// The number of the refusal, 0 where there is none, and 1 where memory ran out.
fn refusal(alloc: Global, payload: &[u8], frame_length: u32) -> u8 {
    match AudioElement::read(alloc, payload, frame_length) {
        Ok(_) => 0,
        Err(DescriptorError::Fault(fault)) => fault.code(),
        Err(DescriptorError::Memory(_)) => 1,
    }
}

/// How many fronts of the payload lack a field, from the empty one on.
fn short_fronts(alloc: Global, payload: &[u8], frame_length: u32) -> usize {
    for n in 0..payload.len() {
        if refusal(alloc, &payload[..n], frame_length) != 10 {
            return n;
        }
    }
    payload.len()
}

// A payload, how many ticks a frame has, and how many bytes its fields have.
const FIELDS: &[(&[u8], u32, usize)] = &[
    (STEREO, 8, 10),
    (LAYERS, 1024, 44),
    (PROJECTION, 8, 12),
    (SCENE, 8, 15),
    (UNREAD, 8, 13),
    (GAIN, 8, 13),
    (SUBBLOCKS, 0, 19),
];

#[test]
fn each_truncation_lacks_a_field(rt: HostRuntime) {
    for (payload, frame_length, fields) in FIELDS {
        assert_eq!(rt; short_fronts(rt.alloc(), payload, *frame_length), *fields);
    }
}

// A payload, how many ticks a frame has, and the number of the fault. Each but the first of the demixing parameters ends
// with the field that has the fault, or goes on with zeros.
const FAULTS: &[(&[u8], u32, u8)] = &[
    // More substreams than bytes.
    (b"\x01\x00\x00\xff\xff\xff\xff\x0f\x00\x00", 8, 10),
    // A parameter that the type of the element does not have.
    (b"\x01\x00\x00\x00\x01\x00", 8, 20),
    (b"\x01\x20\x00\x00\x01\x01", 8, 20),
    (b"\x01\x40\x00\x00\x01\x02", 8, 20),
    // Two demixing parameters; then another mode, duration and constant of the first, and another frame.
    (
        b"\x01\x00\x00\x00\x02\x01\x66\x01\x00\x08\x08\x20\x00\x01",
        8,
        20,
    ),
    (
        b"\x01\x00\x00\x00\x02\x01\x66\x01\x80\x08\x08\x20\x00\x01",
        8,
        21,
    ),
    (
        b"\x01\x00\x00\x00\x02\x01\x66\x01\x00\x07\x08\x20\x00\x01",
        8,
        21,
    ),
    (
        b"\x01\x00\x00\x00\x02\x01\x66\x01\x00\x08\x09\x20\x00\x01",
        8,
        21,
    ),
    (
        b"\x01\x00\x00\x00\x02\x01\x66\x01\x00\x08\x08\x20\x00\x01",
        9,
        21,
    ),
    // Layers.
    (b"\x01\x00\x00\x00\x00\x00\x00\x00\x00\x00", 8, 22),
    (b"\x01\x00\x00\x00\x00\xe0\x00\x00\x00\x00", 8, 22),
    (b"\x01\x00\x00\x00\x00\x20\xa0\x00\x00\x00", 8, 22),
    (b"\x01\x00\x00\x00\x00\x20\x10\x01\x00\x00", 8, 22),
    (b"\x01\x00\x00\x00\x00\x20\x10\x02\x01\x00", 8, 22),
    (b"\x01\x00\x00\x00\x00\x20\x20\x04\x02\x00", 8, 23),
    (b"\x01\x00\x00\x00\x00\x40\x10\x01\x01\x10", 8, 22),
    (
        b"\x01\x00\x00\x05\x00\x01\x02\x03\x04\x00\x40\x20\x04\x02\x10",
        8,
        22,
    ),
    (b"\x01\x00\x00\x02\x00\x01\x00\x20\x10\x01\x01", 8, 23),
    // Ambisonics: an unknown mode, then by a mapping, and by a matrix.
    (b"\x01\x20\x00\x00\x00\x02\x00\x00\x00\x00", 8, 24),
    (b"\x01\x20\x00\x00\x00\x00\x02\x01\x00\x00", 8, 24),
    (b"\x01\x20\x00\x00\x00\x00\x00\x01\x00\x00", 8, 24),
    (b"\x01\x20\x00\x00\x00\x00\x01\x00\x00\x00", 8, 24),
    (b"\x01\x20\x00\x00\x00\x00\x01\x02\x00\x00", 8, 24),
    (b"\x01\x20\x00\x00\x00\x00\x04\x02\x01\x02", 8, 24),
    (b"\x01\x20\x00\x00\x00\x01\x01\x01\x02\x00", 8, 24),
    (b"\x01\x20\x00\x00\x00\x01\x01\x00\x00\x00", 8, 24),
    (b"\x01\x20\x00\x00\x00\x00\x01\x01\xff\x00", 8, 23),
    (b"\x01\x20\x00\x00\x00\x00\x04\x02\x01\xff", 8, 10),
];

#[test]
fn faults_stand_at_their_field(rt: HostRuntime) {
    for (row, (payload, frame_length, code)) in FAULTS.iter().enumerate() {
        let found = refusal(rt.alloc(), payload, *frame_length);
        assert_eq!(rt; (row, found), (row, *code));
    }
}

/// The substreams of the payload have so many channels together, and so many each.
fn assert_channels(
    rt: &impl Abort,
    alloc: Global,
    payload: &[u8],
    frame_length: u32,
    all: Option<u32>,
    each: &[u32],
) {
    let element = read(rt, alloc, payload, frame_length);
    assert!(rt; coded_channels(&element) == all);
    assert!(rt; each.len() == element.substreams.len());
    for (i, channels) in each.iter().enumerate() {
        assert!(rt; substream_channels(&element, i) == Some(*channels));
    }
}

#[test]
fn substreams_have_one_channel_or_two(rt: HostRuntime) {
    let alloc = rt.alloc();
    assert_channels(&rt, alloc, STEREO, 8, Some(2), &[2]);
    assert_channels(&rt, alloc, LAYERS, 1024, Some(12), &[2, 2, 2, 1, 1, 2, 2]);
    assert_channels(&rt, alloc, PROJECTION, 8, Some(1), &[1]);
    assert_channels(&rt, alloc, SCENE, 8, Some(3), &[1, 1, 1]);
    assert_channels(&rt, alloc, UNREAD, 8, None, &[]);
}
