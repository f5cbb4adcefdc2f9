//! The text of the report.

ghost use Rattle.std.specs.Prelude.{◌≡◌, ◌++◌, ◌∷◌, ◌<◌, List, IfOk, OnOk, option_map, option_to_list};
ghost use Rattle.std.specs.List.{flat_map};
ghost use Rattle.spec_values.specs.Value.{ObuValue};
ghost use Rattle.spec_report.specs.Report.{and_number, header_line, codec_line, codec_name, fits_mark, hex_digit, escaped, tag_line, report};
ghost use Rattle.iamf_report.specs.Lines.{facts_of};
ghost use Rattle.iamf_report.specs.LinesView.{view_header, view_codec, view_tag, view_mix, view_lines};
ghost use Rattle.iamf_report.specs.Text.{kind_name, element_text, mix_text, mix_texts, count_text, text_of};

use crate::line::{
    CodecLine, ElementKind, ElementLine, HeaderLine, Lines, MixLine, MixLines, TagLine,
};
use crate::summary::Summary;
use itoa::Buffer;
use spec_rules::Codec;
use std::alloc::{AllocError, Global};

fn codec_name(codec: Codec) -> &'static [u8]
    ensures { result.now ≡ codec_name codec }
{
    match codec {
        Codec::Lpcm => b"ipcm",
        Codec::Flac => b"fLaC",
    }
}

fn kind_name(kind: ElementKind) -> &'static [u8]
    ensures { result.now ≡ kind_name kind }
{
    match kind {
        ElementKind::Scalable => b"scalable",
        ElementKind::Scene => b"scene",
        ElementKind::Other => b"other",
    }
}

fn fits_mark(fits: bool) -> &'static [u8]
    ensures { result.now ≡ fits_mark fits }
{
    if fits { b"fits" } else { b"-" }
}

/// Puts a space and the number.
fn push_number(text: &mut Vec<u8>, number: u64) -> Result<(), AllocError>
    ensures { OnOk result (text.new.items ≡ and_number text.old.items number) }
{
    let mut digits = Buffer::new();
    text.push(b' ')?;
    text.extend_from_slice(digits.format(number).as_bytes())?;
    Ok(())
}

/// Puts a space and the word.
#[tactic(auto, using(crate::proofs::TextLaws::texts))]
fn push_word(text: &mut Vec<u8>, word: &[u8]) -> Result<(), AllocError>
    ensures { OnOk result (text.new.items ≡ text.old.items ++ 32 ∷ word.now) }
{
    text.push(b' ')?;
    text.extend_from_slice(word)?;
    Ok(())
}

/// The lower-case digit of a number below 16.
fn hex_digit(number: u8) -> u8
    requires { number < 16 }
    ensures { result ≡ hex_digit number }
{
    if number < 10 {
        b'0' + number
    } else {
        b'a' + (number - 10)
    }
}

/// Puts a byte: one up to a space, 127 and the backslash as a backslash and two digits.
#[tactic(auto, using(crate::proofs::TextLaws::texts))]
fn push_escaped_byte(text: &mut Vec<u8>, byte: u8) -> Result<(), AllocError>
    ensures { OnOk result (text.new.items ≡ text.old.items ++ escaped byte) }
{
    if byte <= b' ' || byte == 127 || byte == b'\\' {
        text.push(b'\\')?;
        text.push(hex_digit(byte / 16))?;
        text.push(hex_digit(byte % 16))?;
    } else {
        text.push(byte)?;
    }
    Ok(())
}

/// Puts a space and the bytes, escaped.
#[tactic(auto, using(crate::proofs::TextLaws::texts))]
fn push_escaped(text: &mut Vec<u8>, bytes: &[u8]) -> Result<(), AllocError>
    ensures { OnOk result (text.new.items ≡ text.old.items ++ 32 ∷ flat_map escaped bytes.now) }
{
    text.push(b' ')?;
    for byte in bytes {
        push_escaped_byte(text, *byte)?;
    }
    Ok(())
}

#[tactic(auto, using(crate::proofs::TextLaws::texts))]
fn push_header(text: &mut Vec<u8>, header: &HeaderLine) -> Result<(), AllocError>
    ensures { OnOk result (text.new.items ≡ text.old.items ++ header_line (view_header header.now)) }
{
    text.extend_from_slice(b"profile")?;
    push_number(text, u64::from(header.primary))?;
    push_number(text, u64::from(header.additional))?;
    text.push(b'\n')?;
    Ok(())
}

#[tactic(auto, using(crate::proofs::TextLaws::texts))]
fn push_codec(text: &mut Vec<u8>, codec: &CodecLine) -> Result<(), AllocError>
    ensures { OnOk result (text.new.items ≡ text.old.items ++ codec_line (view_codec codec.now)) }
{
    text.extend_from_slice(b"codec")?;
    push_number(text, u64::from(codec.id))?;
    push_word(text, codec_name(codec.codec))?;
    push_number(text, u64::from(codec.frame_length))?;
    push_number(text, u64::from(codec.rate))?;
    push_number(text, u64::from(codec.depth))?;
    text.push(b'\n')?;
    Ok(())
}

#[tactic(auto, using(crate::proofs::TextLaws::texts))]
fn push_element(text: &mut Vec<u8>, element: &ElementLine) -> Result<(), AllocError>
    ensures { OnOk result (text.new.items ≡ text.old.items ++ element_text element.now) }
{
    text.extend_from_slice(b"element")?;
    push_number(text, u64::from(element.id))?;
    push_word(text, kind_name(element.kind))?;
    push_number(text, element.substreams as u64)?;
    push_number(text, u64::from(element.channels))?;
    text.push(b'\n')?;
    Ok(())
}

#[tactic(auto, using(crate::proofs::TextLaws::texts))]
fn push_tag(text: &mut Vec<u8>, tag: &TagLine) -> Result<(), AllocError>
    ensures { OnOk result (text.new.items ≡ text.old.items ++ tag_line (view_tag tag.now)) }
{
    text.extend_from_slice(b"tag")?;
    push_escaped(text, tag.name.as_slice())?;
    push_escaped(text, tag.value.as_slice())?;
    text.push(b'\n')?;
    Ok(())
}

#[tactic(auto, using(crate::proofs::TextLaws::texts))]
fn push_mix_line(text: &mut Vec<u8>, mix: &MixLine) -> Result<(), AllocError>
    ensures { OnOk result (text.new.items ≡ text.old.items ++ mix_text mix.now) }
{
    text.extend_from_slice(b"mix")?;
    push_number(text, u64::from(mix.id))?;
    push_number(text, mix.sub_mixes as u64)?;
    push_number(text, mix.elements)?;
    push_word(text, fits_mark(mix.fits))?;
    text.push(b'\n')?;
    Ok(())
}

fn push_tags(text: &mut Vec<u8>, tags: &[TagLine]) -> Result<(), AllocError>
    ensures { OnOk result (text.new.items ≡ text.old.items ++ flat_map (λ t. tag_line (view_tag t)) tags.now) }
{
    for tag in tags {
        push_tag(text, tag)?;
    }
    Ok(())
}

/// Puts the line of a mix presentation, and right after it those of its tags.
#[tactic(auto, using(crate::proofs::TextLaws::texts))]
fn push_mix(text: &mut Vec<u8>, mix: &MixLines) -> Result<(), AllocError>
    ensures { OnOk result (text.new.items ≡ text.old.items ++ mix_texts (view_mix mix.now)) }
{
    push_mix_line(text, &mix.mix)?;
    push_tags(text, mix.tags.as_slice())?;
    Ok(())
}

fn push_elements(text: &mut Vec<u8>, elements: &[ElementLine]) -> Result<(), AllocError>
    ensures { OnOk result (text.new.items ≡ text.old.items ++ flat_map element_text elements.now) }
{
    for element in elements {
        push_element(text, element)?;
    }
    Ok(())
}

fn push_mixes(text: &mut Vec<u8>, mixes: &[MixLines]) -> Result<(), AllocError>
    ensures { OnOk result (text.new.items ≡ text.old.items ++ flat_map (λ m. mix_texts (view_mix m)) mixes.now) }
{
    for mix in mixes {
        push_mix(text, mix)?;
    }
    Ok(())
}

#[tactic(auto, using(crate::proofs::TextLaws::texts))]
fn push_counts(text: &mut Vec<u8>, units: u64, samples: u64) -> Result<(), AllocError>
    ensures { OnOk result (text.new.items ≡ text.old.items ++ count_text units samples) }
{
    text.extend_from_slice(b"units")?;
    push_number(text, units)?;
    text.push(b'\n')?;
    text.extend_from_slice(b"samples")?;
    push_number(text, samples)?;
    text.push(b'\n')?;
    Ok(())
}

/// Puts the line of the sequence header, where there is one.
#[tactic(auto, using(crate::proofs::TextLaws::texts))]
fn push_headers(text: &mut Vec<u8>, header: &Option<HeaderLine>) -> Result<(), AllocError>
    ensures { OnOk result (text.new.items ≡ text.old.items ++ flat_map header_line (option_to_list (option_map view_header header.now))) }
{
    if let Some(header) = header {
        push_header(text, header)?;
    }
    Ok(())
}

/// Puts the line of the codec config, where there is one.
#[tactic(auto, using(crate::proofs::TextLaws::texts))]
fn push_codecs(text: &mut Vec<u8>, codec: &Option<CodecLine>) -> Result<(), AllocError>
    ensures { OnOk result (text.new.items ≡ text.old.items ++ flat_map codec_line (option_to_list (option_map view_codec codec.now))) }
{
    if let Some(codec) = codec {
        push_codec(text, codec)?;
    }
    Ok(())
}

#[tactic(auto, using(crate::proofs::TextLaws::texts), unfolding(crate::specs::Text::text_of))]
fn print(alloc: Global, lines: &Lines, units: u64, samples: u64) -> Result<Vec<u8>, AllocError>
    ensures { IfOk result (λ v. v.items ≡ text_of (record { descriptors = view_lines lines.now; units = units; samples = samples })) }
{
    let mut text = Vec::new(alloc);
    push_headers(&mut text, &lines.header)?;
    push_codecs(&mut text, &lines.codec)?;
    push_elements(&mut text, lines.elements.as_slice())?;
    push_mixes(&mut text, lines.mixes.as_slice())?;
    push_counts(&mut text, units, samples)?;
    Ok(text)
}

/// The text of the report. An `Err` comes only where memory runs out.
///
/// ```text
/// profile PRIMARY ADDITIONAL
/// codec ID NAME FRAME RATE DEPTH
/// element ID KIND SUBSTREAMS CHANNELS
/// mix ID SUBMIXES ELEMENTS FITS
/// tag NAME VALUE
/// units N
/// samples KEPT
/// ```
///
/// There is an `element` line for each audio element and a `mix` line for each mix presentation, and right after it a `tag`
/// line for each of its tags, whose bytes up to a space, 127 and backslashes are printed as a backslash and two digits.
#[tactic(auto, using(crate::proofs::ReportText::is_report))]
pub fn report(alloc: Global, summary: &Summary) -> Result<Vec<u8>, AllocError>
    ensures text { IfOk result (λ v. v.items ≡ text_of summary.now) }
    ensures report { IfOk result (λ v. (s : List ObuValue) → summary.now ≡ facts_of s → v.items ≡ report s) }
{
    print(alloc, &summary.lines, summary.units, summary.samples)
}
