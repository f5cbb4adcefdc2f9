//! Parameter blocks, their definitions, and audio frames.

ghost use Rattle.std.specs.Prelude.{◌≡◌, option_map};
ghost use Rattle.obu_timing.specs.TimingView.{view_fixed};
ghost use Rattle.obu_data.specs.ShapeView.{LastsAFrame, MayDefine};

use obu_data::*;
use obu_descriptors::{Cadence, Fixed};
use obu_header::{ObuHead, ObuView, Trim};
use smallvec::SmallVec;
use spec_bits::FieldFault;
use spec_blocks::BlockFault;
use std::alloc::{AllocError, Global};
use std::test::Fail;

// A timing whose blocks have their own.
fn own_cadence(rate: u32) -> Cadence {
    Cadence { rate, fixed: None }
}

// A timing of one subblock a frame.
fn frame_cadence(alloc: Global, rate: u32) -> Cadence
    ensures { LastsAFrame (option_map view_fixed result.fixed) }
{
    Cadence {
        rate,
        fixed: Some(Fixed {
            duration: 64,
            constant: 64,
            durations: SmallVec::new(alloc),
        }),
    }
}

// Eight ticks in subblocks of three, or in subblocks of these durations where there are any.
fn eight_ticks(alloc: Global, durations: &[u32]) -> Result<Cadence, AllocError> {
    Ok(Cadence {
        rate: 48000,
        fixed: Some(Fixed {
            duration: 8,
            constant: if durations.is_empty() { 3 } else { 0 },
            durations: SmallVec::from_slice(alloc, durations)?,
        }),
    })
}

// Mix gains 100 with timings of their own, 101 of constant subblocks and 103 of two durations; demixing 102; recon gains
// 104 for the second and the third of three layers.
fn definitions(alloc: Global) -> Result<Definitions, Fail> {
    let mut all = Definitions::new(alloc);
    all.add(100, Shape::Gain(own_cadence(48000)))?;
    all.add(101, Shape::Gain(eight_ticks(alloc, &[])?))?;
    all.add(102, Shape::Demix(frame_cadence(alloc, 48000)))?;
    all.add(103, Shape::Gain(eight_ticks(alloc, &[5, 3])?))?;
    all.add(104, Shape::Recon(frame_cadence(alloc, 48000), 3, 6))?;
    Ok(all)
}

// A payload, and what is read.
const READ: &[(&[u8], &str)] = &[
    // Mix gains in each timing: a line, a curve, subblocks of three ticks, and of five and three.
    (
        b"\x64\x08\x08\x01\0\0\xfa\0",
        "Ok(ParameterBlock { id: 100, content: Gain { timing: \
         Some(Fixed { duration: 8, constant: 8, durations: [] }), parts: \
         [Linear { start: 0, end: -1536 }] }, tail: [] })",
    ),
    (
        b"\x64\x08\x08\x02\0\0\xfa\0\xfa\0\x80",
        "Ok(ParameterBlock { id: 100, content: Gain { timing: \
         Some(Fixed { duration: 8, constant: 8, durations: [] }), parts: \
         [Bezier { start: 0, end: -1536, control: -1536, time: 128 }] }, tail: [] })",
    ),
    (
        b"\x64\x08\x03\x00\0\x01\x00\0\x01\x01\0\0\xfa\0",
        "Ok(ParameterBlock { id: 100, content: Gain { timing: \
         Some(Fixed { duration: 8, constant: 3, durations: [] }), parts: \
         [Step { start: 1 }, Step { start: 1 }, Linear { start: 0, end: -1536 }] }, tail: [] })",
    ),
    (
        b"\x64\x08\x00\x02\x05\x00\0\x01\x03\x01\0\0\xfa\0",
        "Ok(ParameterBlock { id: 100, content: Gain { timing: \
         Some(Fixed { duration: 8, constant: 0, durations: [5, 3] }), parts: \
         [Step { start: 1 }, Linear { start: 0, end: -1536 }] }, tail: [] })",
    ),
    (
        b"\x64\x08\x00\x02\x05\x00\0\x01\x03\x00\0\x01",
        "Ok(ParameterBlock { id: 100, content: Gain { timing: \
         Some(Fixed { duration: 8, constant: 0, durations: [5, 3] }), parts: \
         [Step { start: 1 }, Step { start: 1 }] }, tail: [] })",
    ),
    (
        b"\x65\x00\0\x01\x00\0\x01\x01\0\0\xfa\0",
        "Ok(ParameterBlock { id: 101, content: Gain { timing: None, parts: \
         [Step { start: 1 }, Step { start: 1 }, Linear { start: 0, end: -1536 }] }, tail: [] })",
    ),
    (
        b"\x67\x00\0\x01\x01\0\0\xfa\0",
        "Ok(ParameterBlock { id: 103, content: Gain { timing: None, parts: \
         [Step { start: 1 }, Linear { start: 0, end: -1536 }] }, tail: [] })",
    ),
    // Recon gains follow their flags, which are 5 and 4095.
    (
        b"\x68\x05\xaa\xbb\xff\x1f\x01\x02\x03\x04\x05\x06\x07\x08\x09\x0a\x0b\x0c",
        "Ok(ParameterBlock { id: 104, content: Recon { layers: \
         [ReconPart { flags: 5, gains: [170, 187] }, \
         ReconPart { flags: 4095, gains: [1, 2, 3, 4, 5, 6, 7, 8, 9, 10, 11, 12] }] }, tail: [] })",
    ),
    // Demixing, and an id that no definition has.
    (
        b"\x66\x00",
        "Ok(ParameterBlock { id: 102, content: Demix { mode: 0 }, tail: [] })",
    ),
    (
        b"\x66\xa0\x09\x09",
        "Ok(ParameterBlock { id: 102, content: Demix { mode: 5 }, tail: [9, 9] })",
    ),
    (
        b"\x05\x01\x02\x03",
        "Ok(ParameterBlock { id: 5, content: Opaque([1, 2, 3]), tail: [] })",
    ),
    // No duration; no subblock; an empty one; and a sum that is not the duration, which is found after the last.
    (b"\x64\x00", "Err(Fault(Subblocks))"),
    (b"\x64\x08\x00\x00", "Err(Fault(Subblocks))"),
    (b"\x64\x08\x00\x02\x00", "Err(Fault(Subblocks))"),
    (
        b"\x64\x08\x00\x02\x05\x00\0\x01\x04\x00\0\x01",
        "Err(Fault(Subblocks))",
    ),
    (
        b"\x64\x08\x00\x02\x05\x00\0\x01\x04\x00\0",
        "Err(Fault(Field(Short)))",
    ),
    // An animation above 2.
    (
        b"\x64\x08\x00\x02\x05\x00\0\x01\x04\x03",
        "Err(Fault(Animation))",
    ),
    (b"\x64\x08\x08\x03", "Err(Fault(Animation))"),
    (b"\x67\x00\0\x01\x03", "Err(Fault(Animation))"),
    // Flags of 4096.
    (b"\x68\x80\x20", "Err(Fault(ReconFlags))"),
    (b"\x68\x00\x80\x20", "Err(Fault(ReconFlags))"),
    // Counts of 2^32 - 1, and an id of 2^32.
    (b"\x64\xff\xff\xff\xff\x0f\x01", "Err(Fault(Field(Short)))"),
    (
        b"\x64\x08\x00\xff\xff\xff\xff\x0f",
        "Err(Fault(Field(Short)))",
    ),
    (b"\x80\x80\x80\x80\x10", "Err(Fault(Field(Leb)))"),
];

/// What is read of the payload, as text.
fn shown(alloc: Global, all: &Definitions, payload: &[u8]) -> Result<String, AllocError> {
    format!(in alloc; "{:?}", read_block(alloc, all, payload))
}

#[test]
fn blocks_are_read_or_refused(rt: HostRuntime) -> Result<(), Fail> {
    let all = definitions(rt.alloc())?;
    for (payload, text) in READ {
        let found = shown(rt.alloc(), &all, payload)?;
        assert_eq!(rt; found.as_str(), *text);
    }
    Ok(())
}

/// How many fronts of the payload lack a field, from the empty one on.
fn short_fronts(alloc: Global, all: &Definitions, payload: &[u8]) -> usize {
    for n in 0..payload.len() {
        match read_block(alloc, all, &payload[..n]) {
            Err(BlockError::Fault(BlockFault::Field(FieldFault::Short))) => {}
            _ => return n,
        }
    }
    payload.len()
}

const WHOLE: &[&[u8]] = &[
    b"\x64\x08\x08\x02\0\0\xfa\0\xfa\0\x80",
    b"\x64\x08\x00\x02\x05\x00\0\x01\x03\x01\0\0\xfa\0",
    b"\x65\x00\0\x01\x00\0\x01\x01\0\0\xfa\0",
    b"\x66\x00",
    b"\x68\x05\xaa\xbb\x01\xcc",
];

#[test]
fn every_cut_block_is_short(rt: HostRuntime) -> Result<(), Fail> {
    let all = definitions(rt.alloc())?;
    for payload in WHOLE {
        assert_eq!(rt; short_fronts(rt.alloc(), &all, payload), payload.len());
    }
    Ok(())
}

// A payload, and how what is read of it is written.
const WRITTEN: &[(&[u8], &[u8])] = &[
    (b"\x64\x08\x08\x01\0\0\xfa\0", b"\x64\x08\x08\x01\0\0\xfa\0"),
    (
        b"\x64\x08\x08\x02\0\0\xfa\0\xfa\0\x80",
        b"\x64\x08\x08\x02\0\0\xfa\0\xfa\0\x80",
    ),
    (
        b"\xe4\x00\x88\x00\x80\x00\x81\x00\x88\x00\x80\x00\0\x01",
        b"\x64\x08\x00\x01\x08\x00\0\x01",
    ),
    (
        b"\x67\x00\0\x01\x01\0\0\xfa\0",
        b"\x67\x00\0\x01\x01\0\0\xfa\0",
    ),
    (b"\x66\x3f\x09", b"\x66\x20\x09"),
    (b"\x68\x85\x00\xaa\xbb\x01\xcc", b"\x68\x05\xaa\xbb\x01\xcc"),
    (b"\x85\x00\x81\x00", b"\x05\x81\x00"),
];

/// What is read of the payload, written again.
fn written(alloc: Global, all: &Definitions, payload: &[u8]) -> Result<Vec<u8>, Fail> {
    let block = read_block(alloc, all, payload)?;
    Ok(write_block(alloc, all, &block)?)
}

#[test]
fn blocks_are_written_canonically(rt: HostRuntime) -> Result<(), Fail> {
    let all = definitions(rt.alloc())?;
    for (payload, canonical) in WRITTEN {
        let found = written(rt.alloc(), &all, payload)?;
        assert_eq!(rt; found.as_slice(), *canonical);
    }
    Ok(())
}

/// Whether the shape clashes with that of the id. Else it is the one that the id has from now on.
fn clashes(all: &mut Definitions, id: u32, shape: Shape) -> bool
    requires { MayDefine shape }
{
    matches!(all.add(id, shape), Err(DefinitionError::Clash(_)))
}

#[test]
fn another_shape_clashes(rt: HostRuntime) -> Result<(), Fail> {
    let alloc = rt.alloc();
    let mut all = definitions(alloc)?;
    let five_and_three = eight_ticks(alloc, &[5, 3])?;
    let three_and_five = eight_ticks(alloc, &[3, 5])?;
    let found = [
        clashes(&mut all, 100, Shape::Gain(own_cadence(48000))),
        clashes(&mut all, 103, Shape::Gain(five_and_three)),
        clashes(
            &mut all,
            104,
            Shape::Recon(frame_cadence(alloc, 48000), 3, 6),
        ),
        clashes(&mut all, 100, Shape::Gain(own_cadence(44100))),
        clashes(&mut all, 100, Shape::Gain(frame_cadence(alloc, 48000))),
        clashes(&mut all, 103, Shape::Gain(three_and_five)),
        clashes(&mut all, 102, Shape::Gain(frame_cadence(alloc, 48000))),
        clashes(
            &mut all,
            104,
            Shape::Recon(frame_cadence(alloc, 48000), 3, 4),
        ),
        clashes(
            &mut all,
            104,
            Shape::Recon(frame_cadence(alloc, 48000), 4, 6),
        ),
    ];
    assert_eq!(rt;
        found,
        [false, false, false, true, true, true, true, true, true]
    );
    Ok(())
}

#[test]
fn a_clash_changes_nothing(rt: HostRuntime) -> Result<(), Fail> {
    let mut all = definitions(rt.alloc())?;
    assert!(rt; clashes(&mut all, 102, Shape::Gain(own_cadence(48000))));
    let found = shown(rt.alloc(), &all, b"\x66\x00")?;
    assert!(rt;
        found.as_str() == "Ok(ParameterBlock { id: 102, content: Demix { mode: 0 }, tail: [] })"
    );
    Ok(())
}

fn frame_obu(kind: u8, trim: Option<Trim>, payload: &[u8]) -> ObuView<'_>
    ensures { result.head.kind ≡ kind }
{
    ObuView {
        at: 0,
        end: payload.len(),
        head: ObuHead {
            kind,
            redundant: false,
            trim,
            extension: None,
        },
        payload,
    }
}

/// What is read of a frame: its substream, its trim and its bytes.
type Frame<'a> = Result<(u32, Trim, &'a [u8]), FieldFault>;

fn frame_of(kind: u8, trim: Option<Trim>, payload: &[u8]) -> Frame<'_> {
    if kind < 5 || kind > 23 {
        return Err(FieldFault::Short);
    }
    match read_frame(&frame_obu(kind, trim, payload)) {
        Ok(frame) => Ok((frame.substream, frame.trim, frame.bytes)),
        Err(fault) => Err(fault),
    }
}

const TRIM: Trim = Trim { end: 3, start: 5 };

const NO_TRIM: Trim = Trim { end: 0, start: 0 };

// A frame that names its substream: its trim and its payload, and what is read.
const FRAMES: &[(Option<Trim>, &[u8], Frame<'static>)] = &[
    (
        Some(TRIM),
        b"\x80\x01\xaa\xbb",
        Ok((128, TRIM, b"\xaa\xbb")),
    ),
    (None, b"\x83\x00\xaa", Ok((3, NO_TRIM, b"\xaa"))),
    (None, b"\x80", Err(FieldFault::Short)),
    (None, b"\x80\x80\x80\x80\x10", Err(FieldFault::Leb)),
];

#[test]
fn frames_have_their_substream(rt: HostRuntime) {
    for (trim, payload, wanted) in FRAMES {
        assert_eq!(rt; frame_of(5, *trim, payload), *wanted);
    }
}

#[test]
fn types_6_to_23_are_of_the_first_substreams(rt: HostRuntime) {
    for substream in 0..18u8 {
        let found = frame_of(6 + substream, None, b"\x80\x01");
        assert_eq!(rt;
            found,
            Ok((u32::from(substream), NO_TRIM, b"\x80\x01".as_slice()))
        );
    }
}
