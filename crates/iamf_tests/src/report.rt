//! The lines of each kind of descriptor, of tags and of no descriptor at all.

ghost use Rattle.std.specs.Prelude.{ℕ};
ghost use Rattle.spec_syntax.specs.Payload.{IsValid};
ghost use Rattle.spec_descriptors.specs.AudioElement.{audio_element};
ghost use Rattle.spec_descriptors.specs.ElementFields.{audio_element_fields};
ghost use Rattle.obu_descriptors.specs.ElementView.{view_element};
ghost use Rattle.obu_mix.specs.MixView.{IsValidMix};

use iamf_report::{Tally, report};
use obu_descriptors::{AudioElement, CodecConfig, Coding, SequenceHeader};
use obu_mix::MixPresentation;
use std::alloc::{AllocError, Global};
use std::process::Abort;
use std::test::Fail;

// Element 1: one layer, stereo, of one substream of two channels.
const STEREO: &[u8] = b"\x01\x00\x00\x01\x00\x00\x20\x10\x01\x01";

// Element 300: four ambisonics channels, of three substreams of one channel each; the last channel is silent.
const SCENE: &[u8] = b"\xac\x02\x20\x00\x03\x01\x02\x03\x00\x00\x04\x03\x00\x01\x02\xff";

// Element 3: four ambisonics channels by a matrix, of two substreams of two channels each.
const PROJECTION: &[u8] = b"\x03\x20\x00\x02\x04\x05\x00\x01\x04\x02\x02\
    \x7f\xff\x00\x00\x00\x00\x00\x00\x00\x00\x7f\xff\x00\x00\x00\x00\x00\x00\
    \x00\x00\x7f\xff\x00\x00\x00\x00\x00\x00\x00\x00\x7f\xff";

// Element 4: of type 2, which is kept unread, with two substreams and a configuration of one byte.
const UNREAD: &[u8] = b"\x04\x40\x00\x02\x06\x07\x00\x01\xaa";

// A mix gain of 0 dB: parameter 100, at 48000 ticks a second, whose blocks say how long they last.
const GAIN: &[u8] = b"\x64\x80\xf7\x02\x80\x00\x00";

// One layout, stereo, of which nothing but the integrated loudness and the peak is said.
const LAYOUT: &[u8] = b"\x01\x80\x00\x00\x00\x00\x00";

/// A count below 128, as its one byte.
fn count(number: usize) -> u8 {
    (number % 128) as u8
}

/// The payload of a mix presentation without labels: its sub-mixes are the ids of their elements.
fn mix_payload(alloc: Global, id: u8, sub_mixes: &[&[u8]]) -> Result<Vec<u8>, AllocError> {
    let mut payload = Vec::from_slice(alloc, &[id, 0, count(sub_mixes.len())])?;
    for elements in sub_mixes {
        payload.push(count(elements.len()))?;
        for element in elements.iter() {
            payload.extend_from_slice(&[*element, 0, 0])?;
            payload.extend_from_slice(GAIN)?;
        }
        payload.extend_from_slice(GAIN)?;
        payload.extend_from_slice(LAYOUT)?;
    }
    Ok(payload)
}

fn read_element<'a>(rt: &impl Abort, alloc: Global, payload: &'a [u8]) -> AudioElement<'a>
    ensures { (frame_length : ℕ) × IsValid (audio_element frame_length) audio_element_fields (view_element result) }
{
    match AudioElement::read(alloc, payload, 8) {
        Ok(element) => element,
        Err(_) => panic!(rt; "refused"),
    }
}

fn read_mix<'a>(rt: &impl Abort, alloc: Global, payload: &'a [u8]) -> MixPresentation<'a>
    ensures { IsValidMix result }
{
    match MixPresentation::read(alloc, payload) {
        Ok(mix) => mix,
        Err(_) => panic!(rt; "refused"),
    }
}

/// A tally of a sequence header and a codec config.
fn begun(alloc: Global) -> Tally {
    let mut tally = Tally::new(alloc);
    tally.add_header(&SequenceHeader {
        primary: 2,
        additional: 255,
        tail: &[],
    });
    tally.add_codec(&CodecConfig {
        id: 7,
        frame_length: 960,
        coding: Coding::Lpcm {
            little: true,
            depth: 24,
            rate: 44100,
        },
        tail: &[],
    });
    tally
}

/// Adds a mix to the tally: the elements of its sub-mixes, and the bytes after them.
fn add_mix(
    rt: &impl Abort,
    alloc: Global,
    tally: &mut Tally,
    id: u8,
    sub_mixes: &[&[u8]],
    tail: &[u8],
    fits: bool,
) -> Result<(), AllocError> {
    let mut payload = mix_payload(alloc, id, sub_mixes)?;
    payload.extend_from_slice(tail)?;
    let mix = read_mix(rt, alloc, payload.as_slice());
    tally.add_mix(alloc, &mix, fits)
}

#[test]
fn each_descriptor_has_its_line(rt: HostRuntime) -> Result<(), Fail> {
    let mut tally = begun(rt.alloc());
    for payload in [STEREO, SCENE, PROJECTION, UNREAD] {
        tally.add_element(&read_element(&rt, rt.alloc(), payload))?;
    }
    add_mix(&rt, rt.alloc(), &mut tally, 2, &[&[1]], b"", true)?;
    add_mix(&rt, rt.alloc(), &mut tally, 3, &[&[1], &[1, 3]], b"", false)?;
    let text = report(rt.alloc(), &tally.finish(3, 2856))?;
    let want = b"profile 2 255
codec 7 ipcm 960 44100 24
element 1 scalable 1 2
element 300 scene 3 3
element 3 scene 2 4
element 4 other 2 0
mix 2 1 1 fits
mix 3 2 3 -
units 3
samples 2856
";
    assert_eq!(rt; text.as_slice(), want.as_slice());
    Ok(())
}

#[test]
fn the_tags_of_a_mix_stand_right_after_its_line(rt: HostRuntime) -> Result<(), Fail> {
    let mut tally = Tally::new(rt.alloc());
    let two = b"\x02lang\0en\0title\0One\0";
    add_mix(&rt, rt.alloc(), &mut tally, 2, &[&[1]], two, true)?;
    add_mix(
        &rt,
        rt.alloc(),
        &mut tally,
        3,
        &[&[1]],
        b"\x01lang\0nl\0",
        false,
    )?;
    let text = report(rt.alloc(), &tally.finish(0, 0))?;
    let want = b"mix 2 1 1 fits
tag lang en
tag title One
mix 3 1 1 -
tag lang nl
units 0
samples 0
";
    assert_eq!(rt; text.as_slice(), want.as_slice());
    Ok(())
}

/// The report on nothing but mix 2 of element 1, which fits, with these bytes after its sub-mixes.
fn mix_report(rt: &impl Abort, alloc: Global, tail: &[u8]) -> Result<Vec<u8>, AllocError> {
    let mut tally = Tally::new(alloc);
    add_mix(rt, alloc, &mut tally, 2, &[&[1]], tail, true)?;
    report(alloc, &tally.finish(0, 0))
}

// The bytes after the sub-mixes, and the report.
const TAILS: &[(&[u8], &[u8])] = &[
    // Names and values are escaped.
    (
        b"\x01a b\0\0",
        b"mix 2 1 1 fits\ntag a\\20b \nunits 0\nsamples 0\n",
    ),
    (b"\x01\0\0", b"mix 2 1 1 fits\ntag  \nunits 0\nsamples 0\n"),
    (
        b"\x01\x01\x02\t\n\r\0\x1b\x1f !\0",
        b"mix 2 1 1 fits\ntag \\01\\02\\09\\0a\\0d \\1b\\1f\\20!\nunits 0\nsamples 0\n",
    ),
    (
        b"\x01C:\\x\0\x7e\x7f\0",
        b"mix 2 1 1 fits\ntag C:\\5cx ~\\7f\nunits 0\nsamples 0\n",
    ),
    (
        b"\x01\xc3\xa9\0\\\\\0",
        b"mix 2 1 1 fits\ntag \xc3\xa9 \\5c\\5c\nunits 0\nsamples 0\n",
    ),
    // No byte, no tag, two tags of which one is there, and a name without an end.
    (b"", b"mix 2 1 1 fits\nunits 0\nsamples 0\n"),
    (b"\0", b"mix 2 1 1 fits\nunits 0\nsamples 0\n"),
    (b"\x02lang\0en\0", b"mix 2 1 1 fits\nunits 0\nsamples 0\n"),
    (b"\x01lang", b"mix 2 1 1 fits\nunits 0\nsamples 0\n"),
];

#[test]
fn tails_are_reported_as_tags_or_not_at_all(rt: HostRuntime) -> Result<(), Fail> {
    for (tail, report) in TAILS {
        let found = mix_report(&rt, rt.alloc(), tail)?;
        assert_eq!(rt; found.as_slice(), *report);
    }
    Ok(())
}
