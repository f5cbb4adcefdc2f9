//! The rules of a sequence, by what is said one after the other.

ghost use Rattle.std.specs.Prelude.{◌≡◌};
ghost use Rattle.iamf_rules.specs.RoleView.{CanDefine};

use iamf_rules::{Role, Rules};
use obu_data::{Definition, Shape};
use obu_descriptors::{Cadence, Fixed};
use smallvec::SmallVec;
use spec_obu::{ObuType, Trim};
use spec_rules::{Codec, CodecRole};
use spec_values::Fault;
use std::alloc::{AllocError, Global};
use std::process::Abort;
use std::test::Fail;

/// What an OBU says that defines no parameter.
#[derive(Clone, Copy)]
enum Said {
    Nothing,
    /// The primary profile.
    Header(u8),
    /// Codec config 5: samples of 16 bits, 8 in a frame.
    Config(Codec),
    /// An element: its id, its codec config, its substreams and their channels.
    Element(u32, u32, &'static [u32], Option<&'static [u32]>),
    /// A mix of one sub-mix: its id and its elements.
    Mix(u32, &'static [u32]),
    Delimiter,
    /// A block: its parameter, and its own duration.
    Block(u32, Option<u32>),
    /// A frame: its substream, its trim and its bytes.
    Frame(u32, Trim, &'static [u8]),
}

fn role(said: &Said) -> Role<'static>
    ensures { CanDefine result }
{
    match said {
        Said::Nothing => Role::Ignored,
        Said::Header(profile) => Role::SequenceHeader {
            primary_profile: *profile,
        },
        Said::Config(codec) => Role::CodecConfig(CodecRole {
            id: 5,
            frame_length: 8,
            codec: *codec,
            depth: 16,
            rate: 48000,
        }),
        Said::Element(id, codec, substreams, channels) => Role::AudioElement {
            id: *id,
            codec: *codec,
            substreams,
            channels: *channels,
            definitions: &[],
        },
        Said::Mix(id, elements) => Role::MixPresentation {
            id: *id,
            elements,
            sub_mixes: 1,
            definitions: &[],
        },
        Said::Delimiter => Role::Delimiter,
        Said::Block(id, duration) => Role::ParameterBlock {
            id: *id,
            duration: *duration,
        },
        Said::Frame(substream, trim, bytes) => Role::AudioFrame {
            substream: *substream,
            trim: *trim,
            bytes,
        },
    }
}

/// What is done with the rules, or asked of them.
#[derive(Clone, Copy)]
enum Step {
    /// This is added.
    Adds(Said),
    /// This would be refused so, or not.
    After(Said, Option<Fault>),
    /// An OBU of this type would be refused so, or not, before its payload is read.
    Before(ObuType, Option<Fault>),
    /// The end would be refused so, or not.
    Ends(Option<Fault>),
}

/// What is answered to a step, and what should be.
fn answers(
    rules: &mut Rules,
    alloc: Global,
    step: &Step,
) -> Result<(Option<Fault>, Option<Fault>), AllocError> {
    match step {
        Step::Adds(said) => {
            rules.add(alloc, &role(said))?;
            Ok((None, None))
        }
        Step::After(said, fault) => {
            let found = rules.fault_after(alloc, &role(said), &mut None)?;
            Ok((found, *fault))
        }
        Step::Before(obu_type, fault) => Ok((rules.fault_before(*obu_type), *fault)),
        Step::Ends(fault) => Ok((rules.end_fault(), *fault)),
    }
}

/// The steps are answered as they should be.
fn assert_steps(
    rt: &impl Abort,
    alloc: Global,
    rules: &mut Rules,
    steps: &[Step],
) -> Result<(), AllocError> {
    for (row, step) in steps.iter().enumerate() {
        let (found, wanted) = answers(rules, alloc, step)?;
        assert_eq!(rt; (row, found), (row, wanted));
    }
    Ok(())
}

const ORDER: &[Step] = &[
    Step::Before(ObuType::SequenceHeader, None),
    Step::Before(ObuType::Reserved, None),
    Step::Before(ObuType::CodecConfig, Some(Fault::Order)),
    Step::Before(ObuType::AudioFrame, Some(Fault::Incomplete)),
    Step::Ends(Some(Fault::Incomplete)),
    Step::Adds(Said::Header(0)),
    Step::Before(ObuType::SequenceHeader, Some(Fault::SecondSequence)),
    Step::Before(ObuType::CodecConfig, None),
    Step::Adds(Said::Config(Codec::Lpcm)),
    Step::Adds(Said::Element(1, 5, &[7], Some(&[2]))),
    Step::Adds(Said::Nothing),
    Step::Before(ObuType::CodecConfig, Some(Fault::Order)),
    Step::Before(ObuType::AudioElement, None),
];

#[test]
fn descriptors_come_in_order(rt: HostRuntime) -> Result<(), Fail> {
    let mut rules = Rules::new(rt.alloc());
    assert_steps(&rt, rt.alloc(), &mut rules, ORDER)?;
    Ok(())
}

/// Simple: an element of substream 7 with two channels and 9 with one, in one mix.
const LPCM: &[Step] = &[
    Step::Adds(Said::Header(0)),
    Step::Adds(Said::Config(Codec::Lpcm)),
    Step::Adds(Said::Element(1, 5, &[7, 9], Some(&[2, 1]))),
    Step::Adds(Said::Mix(2, &[1])),
];

/// The same in FLAC.
const FLAC: &[Step] = &[
    Step::Adds(Said::Header(0)),
    Step::Adds(Said::Config(Codec::Flac)),
    Step::Adds(Said::Element(1, 5, &[7, 9], Some(&[2, 1]))),
    Step::Adds(Said::Mix(2, &[1])),
];

const IDS: &[Step] = &[
    Step::After(Said::Config(Codec::Flac), Some(Fault::Repeated(5))),
    Step::After(
        Said::Element(1, 5, &[8], Some(&[2])),
        Some(Fault::Repeated(1)),
    ),
    Step::After(
        Said::Element(3, 5, &[8, 9], Some(&[2])),
        Some(Fault::Repeated(9)),
    ),
    Step::After(
        Said::Element(3, 5, &[8, 6, 8], Some(&[2])),
        Some(Fault::Repeated(8)),
    ),
    Step::After(Said::Element(3, 5, &[8, 6], Some(&[2])), None),
    Step::After(Said::Element(3, 4, &[8], None), Some(Fault::Unknown(4))),
    Step::After(Said::Mix(2, &[1]), Some(Fault::Repeated(2))),
    Step::After(Said::Mix(3, &[1, 6]), Some(Fault::Unknown(6))),
    Step::After(Said::Mix(3, &[1]), None),
];

#[test]
fn ids_are_new_or_known(rt: HostRuntime) -> Result<(), Fail> {
    let mut rules = Rules::new(rt.alloc());
    assert_steps(&rt, rt.alloc(), &mut rules, LPCM)?;
    assert_steps(&rt, rt.alloc(), &mut rules, IDS)?;
    Ok(())
}

/// An element of one substream, which has its id.
fn element<'r>(id: u32, substreams: &'r [u32], channels: &'r [u32]) -> Role<'r>
    ensures { CanDefine result }
{
    Role::AudioElement {
        id,
        codec: 5,
        substreams,
        channels: Some(channels),
        definitions: &[],
    }
}

/// Whether so many elements of so many channels each fit the profile.
fn fits(alloc: Global, profile: u8, count: u32, channels: u32) -> Result<bool, AllocError> {
    let mut rules = Rules::new(alloc);
    rules.add(alloc, &role(&Said::Header(profile)))?;
    let mut ids: Vec<u32> = Vec::new(alloc);
    for id in 0..count {
        rules.add(alloc, &element(id, &[id], &[channels]))?;
        match ids.push(id) {
            Ok(()) => {}
            Err(_) => return Err(AllocError),
        }
    }
    Ok(rules.fits(ids.as_slice(), 1) && !rules.fits(ids.as_slice(), 2))
}

// A profile, how many elements of how many channels, and whether a mix of them fits.
const FITTING: &[(u8, u32, u32, bool)] = &[
    (0, 1, 16, true),
    (0, 1, 17, false),
    (0, 2, 2, false),
    (1, 2, 9, true),
    (1, 2, 10, false),
    (1, 3, 1, false),
    (2, 28, 1, true),
    (2, 29, 0, false),
    (2, 1, 28, true),
    (2, 1, 29, false),
    (2, 2, u32::MAX, false),
];

#[test]
fn mixes_fit_their_profile(rt: HostRuntime) -> Result<(), Fail> {
    for (row, (profile, count, channels, answer)) in FITTING.iter().enumerate() {
        let found = fits(rt.alloc(), *profile, *count, *channels)?;
        assert_eq!(rt; (row, found), (row, *answer));
    }
    Ok(())
}

const NO_TRIM: Trim = Trim { end: 0, start: 0 };

const TRIM: Trim = Trim { end: 0, start: 5 };

const UNIT: &[Step] = &[
    Step::Adds(Said::Frame(9, TRIM, &[0; 16])),
    Step::Ends(Some(Fault::UnitShort)),
    Step::After(Said::Frame(9, TRIM, &[0; 16]), Some(Fault::UnitFrame)),
    Step::After(Said::Frame(8, TRIM, &[0; 16]), Some(Fault::UnitFrame)),
    Step::After(Said::Frame(7, TRIM, &[0; 31]), Some(Fault::Lpcm)),
    Step::After(Said::Frame(7, NO_TRIM, &[0; 32]), Some(Fault::Trim)),
    Step::After(Said::Frame(7, TRIM, &[0; 32]), None),
    Step::Adds(Said::Frame(7, TRIM, &[0; 32])),
    Step::Ends(None),
    Step::After(Said::Delimiter, Some(Fault::Delimiter)),
];

#[test]
fn frames_fill_a_unit_in_either_order(rt: HostRuntime) -> Result<(), Fail> {
    let mut rules = Rules::new(rt.alloc());
    assert_steps(&rt, rt.alloc(), &mut rules, LPCM)?;
    assert!(rt; rules.frame_length() == 8);
    assert_steps(&rt, rt.alloc(), &mut rules, UNIT)?;
    assert_eq!(rt;
        [rules.units(), rules.samples(), rules.unit_number()],
        [1, 3, 1]
    );
    Ok(())
}

/// All samples are left out.
const ALL: Trim = Trim { end: 2, start: 6 };

const TRIMMED: &[Step] = &[
    Step::Adds(Said::Delimiter),
    Step::Adds(Said::Frame(7, ALL, &[0; 32])),
    Step::After(Said::Delimiter, Some(Fault::UnitShort)),
    Step::Adds(Said::Frame(9, ALL, &[0; 16])),
    Step::After(Said::Delimiter, None),
    Step::Adds(Said::Delimiter),
    Step::After(Said::Frame(9, NO_TRIM, &[0; 16]), Some(Fault::Trim)),
];

#[test]
fn an_end_is_trimmed_last(rt: HostRuntime) -> Result<(), Fail> {
    let mut rules = Rules::new(rt.alloc());
    assert_steps(&rt, rt.alloc(), &mut rules, LPCM)?;
    assert_steps(&rt, rt.alloc(), &mut rules, TRIMMED)?;
    assert_eq!(rt; [rules.units(), rules.samples()], [2, 0]);
    Ok(())
}

const FLAC_FRAME: &[Step] = &[Step::After(Said::Frame(7, NO_TRIM, &[0; 32]), None)];

#[test]
fn flac_frames_without_room_are_not_read(rt: HostRuntime) -> Result<(), Fail> {
    let mut rules = Rules::new(rt.alloc());
    assert_steps(&rt, rt.alloc(), &mut rules, FLAC)?;
    assert_steps(&rt, rt.alloc(), &mut rules, FLAC_FRAME)?;
    Ok(())
}

/// The timing of blocks of one subblock, of 4 ticks.
fn cadence(alloc: Global, rate: u32) -> Cadence {
    Cadence {
        rate,
        fixed: Some(Fixed {
            duration: 4,
            constant: 4,
            durations: SmallVec::new(alloc),
        }),
    }
}

#[test]
fn definitions_agree(rt: HostRuntime) -> Result<(), Fail> {
    let alloc = rt.alloc();
    let mut rules = Rules::new(alloc);
    assert_steps(&rt, alloc, &mut rules, LPCM)?;
    for (id, rate, fault) in [(3, 48000, None), (4, 44100, Some(Fault::ParamClash(100)))] {
        let gain = Definition {
            id: 100,
            shape: Shape::Gain(cadence(alloc, rate)),
        };
        let mix = Role::MixPresentation {
            id,
            elements: &[1],
            sub_mixes: 1,
            definitions: &[gain],
        };
        assert!(rt; rules.fault_after(alloc, &mix, &mut None)? == fault);
        if fault.is_none() {
            rules.add(alloc, &mix)?;
        }
    }
    assert!(rt; rules.definitions().find(100).is_some());
    assert!(rt; rules.definitions().find(101).is_none());
    Ok(())
}

// Gain 100 is defined, 101 is not. Two blocks of 4 ticks fill the unit.
const BLOCKS: &[Step] = &[
    Step::After(Said::Block(100, None), None),
    Step::Adds(Said::Block(100, None)),
    Step::After(Said::Block(101, Some(9)), None),
    Step::Adds(Said::Block(101, Some(9))),
    Step::After(Said::Block(100, None), None),
    Step::Adds(Said::Block(100, None)),
    Step::After(Said::Block(101, Some(9)), None),
    Step::Adds(Said::Block(101, Some(9))),
    Step::After(Said::Block(100, None), Some(Fault::BlockTime)),
];

#[test]
fn a_block_starts_in_its_unit(rt: HostRuntime) -> Result<(), Fail> {
    let alloc = rt.alloc();
    let mut rules = Rules::new(alloc);
    assert_steps(&rt, alloc, &mut rules, LPCM)?;
    let gain = Definition {
        id: 100,
        shape: Shape::Gain(cadence(alloc, 48000)),
    };
    let mix = Role::MixPresentation {
        id: 3,
        elements: &[1],
        sub_mixes: 1,
        definitions: &[gain],
    };
    rules.add(alloc, &mix)?;
    assert_steps(&rt, alloc, &mut rules, BLOCKS)?;
    Ok(())
}
