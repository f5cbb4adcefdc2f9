//! Mix presentations without tags.

use crate::changed::changed;
use obu_mix::*;
use spec_bits::FieldFault;
use std::alloc::{AllocError, Global};
use std::test::Fail;

// Mix 2: one sub-mix of element 1 with gain 100 under output gain 101, both of mode 1 at 48 kHz, and stereo.
const PLAIN: &[u8] = b"\x02\x00\x01\x01\x01\x00\x00\x64\x80\xf7\x02\x80\x00\x00\
    \x65\x80\xf7\x02\x80\x00\x00\x01\x80\x00\x00\x00\x00\x00";

// The same with the language en-us, the name Mix and the label Bed.
const LABELLED: &[u8] = b"\x02\x01en-us\x00Mix\x00\x01\x01\x01Bed\x00\x00\x00\
    \x64\x80\xf7\x02\x80\x00\x00\x65\x80\xf7\x02\x80\x00\x00\x01\x80\x00\x00\x00\x00\x00";

// Two elements whose blocks last 8 ticks, in subblocks of 4 ticks, and of 3 and 5; the second has two rendering bytes.
// The layouts are sound system 12, with all that a loudness may have, and binaural. Two bytes follow.
const FULL: &[u8] = b"\x07\x00\x01\x02\x01\x40\x00\x64\x80\xf7\x02\x00\x08\x04\x00\x01\
    \x02\x80\x02\xaa\xbb\x65\x80\xf7\x02\x00\x08\x00\x02\x03\x05\xff\xff\
    \x66\x80\xf7\x02\x80\xff\x00\x02\xb0\x07\xf1\x00\xfe\x80\xff\x9c\
    \x02\x01\xf2\x00\x02\xf3\x00\x03\x11\x22\x33\xc0\x00\x80\x00\x7f\xff\xa1\xa2";

const SHORT: MixFault = MixFault::Field(FieldFault::Short);

// A payload, and what is read.
const READ: &[(&[u8], &str)] = &[
    // Labels are read without their zero byte.
    (
        LABELLED,
        "Ok(MixPresentation { id: 2, languages: [[101, 110, 45, 117, 115]], names: [[77, 105, 120]], sub_mixes: \
         [SubMix { elements: [MixElement { element: 1, labels: [[66, 101, 100]], mode: 0, rendering: [], gain: \
         MixGain { timing: Timing { id: 100, rate: 48000, fixed: None }, gain: 0 } }], output: \
         MixGain { timing: Timing { id: 101, rate: 48000, fixed: None }, gain: 0 }, layouts: \
         [LayoutLoudness { system: Some(0), info: 0, integrated: 0, peak: 0, true_peak: None, anchors: [], \
         extra: [] }] }], tags: None, tail: [] })",
    ),
    (
        FULL,
        "Ok(MixPresentation { id: 7, languages: [], names: [], sub_mixes: \
         [SubMix { elements: [MixElement { element: 1, labels: [], mode: 1, rendering: [], gain: \
         MixGain { timing: Timing { id: 100, rate: 48000, fixed: \
         Some(Fixed { duration: 8, constant: 4, durations: [] }) }, gain: 1 } }, \
         MixElement { element: 2, labels: [], mode: 2, rendering: [170, 187], gain: \
         MixGain { timing: Timing { id: 101, rate: 48000, fixed: \
         Some(Fixed { duration: 8, constant: 0, durations: [3, 5] }) }, gain: -1 } }], output: \
         MixGain { timing: Timing { id: 102, rate: 48000, fixed: None }, gain: -256 }, layouts: \
         [LayoutLoudness { system: Some(12), info: 7, integrated: -3840, peak: -384, true_peak: Some(-100), \
         anchors: [Anchor { kind: 1, loudness: -3584 }, Anchor { kind: 2, loudness: -3328 }], \
         extra: [17, 34, 51] }, \
         LayoutLoudness { system: None, info: 0, integrated: -32768, peak: 32767, true_peak: None, anchors: [], \
         extra: [] }] }], tags: None, tail: [161, 162] })",
    ),
];

/// What is read of the payload, as text.
fn shown(alloc: Global, payload: &[u8]) -> Result<String, AllocError> {
    format!(in alloc; "{:?}", MixPresentation::read(alloc, payload))
}

#[test]
fn worked_payloads_are_read(rt: HostRuntime) -> Result<(), Fail> {
    for (payload, text) in READ {
        let found = shown(rt.alloc(), payload)?;
        assert_eq!(rt; found.as_str(), *text);
    }
    Ok(())
}

/// What is read of the payload, written again; no byte where it is refused.
fn written(alloc: Global, payload: &[u8]) -> Result<Vec<u8>, AllocError> {
    match MixPresentation::read(alloc, payload) {
        Ok(mix) => mix.write(alloc),
        Err(_) => Ok(Vec::new(alloc)),
    }
}

// A payload, and how what is read of it is written.
const WRITTEN: &[(&[u8], &[u8])] = &[
    (PLAIN, PLAIN),
    (LABELLED, LABELLED),
    (FULL, FULL),
    // No sub-mix, no element, and no anchor.
    (NO_SUB_MIX, NO_SUB_MIX),
    (NO_ELEMENT, NO_ELEMENT),
    (NO_ANCHOR, NO_ANCHOR),
    // Long numbers, and all reserved bits set.
    (LONG, PLAIN),
];

const NO_SUB_MIX: &[u8] = b"\x02\x00\x00";

const NO_ELEMENT: &[u8] = b"\x02\x00\x01\x00\x65\x80\xf7\x02\x80\x00\x00\x00";

const NO_ANCHOR: &[u8] =
    b"\x02\x00\x01\x00\x65\x80\xf7\x02\x80\x00\x00\x01\x80\x02\x00\x00\x00\x00\x00";

const LONG: &[u8] = b"\x82\x80\x00\x80\x00\x81\x00\x81\x80\x80\x80\x80\x80\x80\x00\
    \x01\x3f\x80\x00\x64\x80\xf7\x82\x00\xff\x00\x00\xe5\x00\x80\
    \xf7\x02\xff\x00\x00\x81\x00\x83\x00\x00\x00\x00\x00";

#[test]
fn payloads_are_written_canonically(rt: HostRuntime) -> Result<(), Fail> {
    for (payload, wanted) in WRITTEN {
        let found = written(rt.alloc(), payload)?;
        assert_eq!(rt; found.as_slice(), *wanted);
    }
    // The reserved bits of the binaural layout.
    let binaural = changed(rt.alloc(), FULL, 60, 0xff)?;
    let found = written(rt.alloc(), &binaural)?;
    assert_eq!(rt; found.as_slice(), FULL);
    Ok(())
}

fn fault_of(alloc: Global, payload: &[u8]) -> Option<MixFault> {
    match MixPresentation::read(alloc, payload) {
        Err(MixError::Fault(fault)) => Some(fault),
        _ => None,
    }
}

/// How many fronts of the payload lack a field, from the empty one on.
fn short_fronts(alloc: Global, payload: &[u8]) -> usize {
    for n in 0..payload.len() {
        if fault_of(alloc, &payload[..n]) != Some(SHORT) {
            return n;
        }
    }
    payload.len()
}

#[test]
fn each_truncation_lacks_a_field(rt: HostRuntime) {
    for (payload, fields) in [(PLAIN, 28), (LABELLED, 42), (FULL, 66)] {
        assert_eq!(rt; short_fronts(rt.alloc(), payload), fields);
    }
}

// A payload that ends right after the field that is refused, and the fault.
const FAULTS: &[(&[u8], MixFault)] = &[
    // Each count is 2^32 - 1: labels, sub-mixes, elements, rendering bytes, durations and layouts.
    (b"\x02\xff\xff\xff\xff\x0f\x65\x00", SHORT),
    (b"\x02\x00\xff\xff\xff\xff\x0f", SHORT),
    (b"\x02\x00\x01\xff\xff\xff\xff\x0f\x01", SHORT),
    (b"\x02\x00\x01\x01\x01\x00\xff\xff\xff\xff\x0f", SHORT),
    (
        b"\x02\x00\x01\x00\x65\x01\x00\x08\x00\xff\xff\xff\xff\x0f\x01",
        SHORT,
    ),
    (
        b"\x02\x00\x01\x00\x65\x01\x80\x00\x00\xff\xff\xff\xff\x0f",
        SHORT,
    ),
    // An id of 2^32.
    (
        b"\x80\x80\x80\x80\x10\x00\x00",
        MixFault::Field(FieldFault::Leb),
    ),
    // The output gain of a sub-mix without an element has no duration, no subblock, an empty one, and subblocks whose
    // sum is below the duration, above it, and above it by 2^32.
    (b"\x02\x00\x01\x00\x65\x01\x00\x00", MixFault::ParamShape),
    (
        b"\x02\x00\x01\x00\x65\x01\x00\x08\x00\x00",
        MixFault::ParamShape,
    ),
    (
        b"\x02\x00\x01\x00\x65\x01\x00\x08\x00\x02\x00",
        MixFault::ParamShape,
    ),
    (
        b"\x02\x00\x01\x00\x65\x01\x00\x08\x00\x02\x03\x04",
        MixFault::ParamShape,
    ),
    (
        b"\x02\x00\x01\x00\x65\x01\x00\x08\x00\x02\x03\x06",
        MixFault::ParamShape,
    ),
    (
        b"\x02\x00\x01\x00\x65\x01\x00\x08\x00\x02\xff\xff\xff\xff\x0f\x09",
        MixFault::ParamShape,
    ),
    // The layout types 0 and 1, with other bits.
    (
        b"\x02\x00\x01\x01\x01\x00\x00\x64\x80\xf7\x02\x80\x00\x00\x65\x80\xf7\x02\x80\x00\x00\x01\x00",
        MixFault::LayoutType,
    ),
    (
        b"\x02\x00\x01\x01\x01\x00\x00\x64\x80\xf7\x02\x80\x00\x00\x65\x80\xf7\x02\x80\x00\x00\x01\x3f",
        MixFault::LayoutType,
    ),
    (
        b"\x02\x00\x01\x01\x01\x00\x00\x64\x80\xf7\x02\x80\x00\x00\x65\x80\xf7\x02\x80\x00\x00\x01\x40",
        MixFault::LayoutType,
    ),
    (
        b"\x02\x00\x01\x01\x01\x00\x00\x64\x80\xf7\x02\x80\x00\x00\x65\x80\xf7\x02\x80\x00\x00\x01\x7f",
        MixFault::LayoutType,
    ),
];

#[test]
fn payloads_are_refused_at_their_first_fault(rt: HostRuntime) {
    for (row, (payload, fault)) in FAULTS.iter().enumerate() {
        let found = fault_of(rt.alloc(), payload);
        assert_eq!(rt; (row, found), (row, Some(*fault)));
    }
}

// A payload, the place and the value of a byte that is changed, and the fault.
const CHANGED_BYTES: &[(&[u8], usize, u8, MixFault)] = &[
    // A language that is not UTF-8.
    (LABELLED, 2, 0xff, MixFault::Field(FieldFault::Text)),
    // Subblocks of an element that do not fill the duration.
    (FULL, 30, 0x06, MixFault::ParamShape),
    // Layout types, with more bytes after them.
    (PLAIN, 22, 0x00, MixFault::LayoutType),
    (PLAIN, 22, 0x3f, MixFault::LayoutType),
    (PLAIN, 22, 0x40, MixFault::LayoutType),
    (PLAIN, 22, 0x7f, MixFault::LayoutType),
];

#[test]
fn changed_bytes_are_refused(rt: HostRuntime) -> Result<(), Fail> {
    for (row, (payload, place, byte, fault)) in CHANGED_BYTES.iter().enumerate() {
        let payload = changed(rt.alloc(), payload, *place, *byte)?;
        let found = fault_of(rt.alloc(), &payload);
        assert_eq!(rt; (row, found), (row, Some(*fault)));
    }
    Ok(())
}

// A constant need not divide the duration, and may be longer.
#[test]
fn each_constant_is_read(rt: HostRuntime) -> Result<(), Fail> {
    for constant in 1..128u8 {
        let payload = changed(rt.alloc(), FULL, 13, constant)?;
        assert!(rt; fault_of(rt.alloc(), &payload).is_none());
    }
    Ok(())
}

/// The sound system of the first layout of the first sub-mix.
fn first_system(sub_mixes: &[SubMix<'_>]) -> Option<u8> {
    let sub_mix = sub_mixes.first()?;
    sub_mix.layouts.as_slice().first()?.system
}

fn system_of(alloc: Global, payload: &[u8]) -> Option<u8> {
    match MixPresentation::read(alloc, payload) {
        Ok(mix) => first_system(mix.sub_mixes.as_slice()),
        Err(_) => None,
    }
}

#[test]
fn each_sound_system_is_carried(rt: HostRuntime) -> Result<(), Fail> {
    for system in 0..16u8 {
        let payload = changed(rt.alloc(), PLAIN, 22, 0x80 + 4 * system)?;
        assert_eq!(rt; system_of(rt.alloc(), &payload), Some(system));
    }
    Ok(())
}
