//! The report on the OBUs of a sequence, as they come.

ghost use Rattle.std.specs.Prelude.{◌≡◌, ◌∷◌, ◌++◌, ◌<◌, ◌^◌, ℕ, List, [], map, length, sum, unwrap_or, OnOk, OnErr, IfOk};
ghost use Rattle.spec_syntax.specs.Payload.{IsValid};
ghost use Rattle.spec_syntax.specs.Fitting.{AllFit};
ghost use Rattle.spec_syntax.specs.Repetition.{joined};
ghost use Rattle.spec_descriptors.specs.CodecConfig.{CodecConfigFields};
ghost use Rattle.spec_descriptors.specs.AudioElement.{audio_element};
ghost use Rattle.spec_descriptors.specs.ElementFields.{audio_element_fields};
ghost use Rattle.spec_descriptors.specs.MixPresentation.{mix_presentation};
ghost use Rattle.spec_descriptors.specs.MixFields.{mix_presentation_fields, sub_mix_fields};
ghost use Rattle.spec_values.specs.Content as content;
ghost use Rattle.spec_values.specs.Value.{ObuValue};
ghost use Rattle.spec_rules.specs.Admitted.{HasNoFault};
ghost use Rattle.spec_rules.specs.Profile as profile;
ghost use Rattle.spec_rules.specs.Units.{unit_count};
ghost use Rattle.spec_sequence.specs.ValueRole.{role, role_of_codec, mix_role};
ghost use Rattle.spec_sequence.specs.Parts.{roles_of};
ghost use Rattle.spec_rules.specs.Samples.{kept};
ghost use Rattle.obu_codec_config.specs.HeaderView as records;
ghost use Rattle.obu_codec_config.specs.CodecView.{StandsForCodec};
ghost use Rattle.obu_element_config.specs.ConfigView.{view_config};
ghost use Rattle.obu_descriptors.specs.ElementView.{view_element};
ghost use Rattle.obu_mix.specs.SubMixView.{view_sub_mix};
ghost use Rattle.obu_mix.specs.MixView as mixes;
ghost use Rattle.obu_mix.specs.MixView.{IsValidMix, tags_in};
ghost use Rattle.obu_mix.specs.TagView as given;
ghost use Rattle.obu_mix.specs.TagView.{IsTagged};
ghost use Rattle.iamf_report.specs.Lines.{config_kind, element_facts, marked_mix, facts_of};
ghost use Rattle.iamf_report.specs.LinesView.{view_header, view_codec, view_tag};
ghost use Rattle.iamf_report.specs.Standing.{Says, IsOther};
ghost use Rattle.iamf_report.specs.TallyView.{Stands};

use crate::line::{
    CodecLine, ElementKind, ElementLine, HeaderLine, Lines, MixLine, MixLines, TagLine,
};
use crate::summary::Summary;
use obu_descriptors::{
    AudioElement, CodecConfig, Coding, ElementConfig, SequenceHeader, coded_channels,
};
use obu_mix::{MixPresentation, SubMix, Tag};
use spec_rules::Codec;
use std::alloc::{AllocError, Global};

fn header_line(header: &SequenceHeader<'_>) -> HeaderLine
    ensures { view_header result ≡ records.view_header header.now }
{
    HeaderLine {
        primary: header.primary,
        additional: header.additional,
    }
}

fn codec_line(config: &CodecConfig<'_>) -> CodecLine
    ensures { (c : CodecConfigFields) → StandsForCodec config.now c → view_codec result ≡ role_of_codec c }
{
    let (codec, depth, rate) = match config.coding {
        Coding::Lpcm { depth, rate, .. } => (Codec::Lpcm, depth, rate),
        Coding::Flac { depth, rate, .. } => (Codec::Flac, depth, rate),
    };
    CodecLine {
        id: config.id,
        codec,
        frame_length: config.frame_length,
        rate,
        depth,
    }
}

fn element_kind(config: &ElementConfig<'_>) -> ElementKind
    ensures { (count : ℕ) → result ≡ config_kind (view_config count config.now) }
{
    match config {
        ElementConfig::Scalable { .. } => ElementKind::Scalable,
        ElementConfig::Mono { .. } => ElementKind::Scene,
        ElementConfig::Projection { .. } => ElementKind::Scene,
        ElementConfig::Other { .. } => ElementKind::Other,
    }
}

/// The line of a valid element.
fn element_line(element: &AudioElement<'_>) -> ElementLine
    requires { (frame_length : ℕ) × IsValid (audio_element frame_length) audio_element_fields (view_element element.now) }
    ensures { result ≡ element_facts (view_element element.now) }
{
    let channels = match coded_channels(element) {
        Some(channels) => channels,
        None => 0,
    };
    ElementLine {
        id: element.id,
        kind: element_kind(&element.config),
        substreams: element.substreams.len(),
        channels,
    }
}

/// How many elements a sub-mix of a valid mix presentation names.
#[tactic(auto, using(spec_syntax::proofs::Fitting::fit_front), unfolding(spec_descriptors::specs::MixFields::sub_mix_fields))]
fn count_of(sub_mix: &SubMix<'_>) -> u64
    requires { AllFit (sub_mix_fields (view_sub_mix sub_mix.now)) }
    ensures is { result ≡ length sub_mix.now.elements.items }
    ensures small { result < 2 ^ 32 }
{
    sub_mix.elements.len() as u64
}

/// How many elements the sub-mixes of a valid mix presentation name together.
fn elements_of(sub_mixes: &[SubMix<'_>]) -> u64
    requires few { length sub_mixes.now < 2 ^ 32 }
    requires fits { AllFit (joined (λ s. sub_mix_fields (view_sub_mix s)) sub_mixes.now) }
    ensures { result ≡ sum (map (λ s. length s.elements.items) sub_mixes.now) }
{
    let mut count = 0;
    for sub_mix in sub_mixes {
        count += count_of(sub_mix);
    }
    count
}

/// The line of a valid mix presentation.
#[tactic(auto, using(spec_syntax::proofs::Writing::views))]
fn mix_line(mix: &MixPresentation<'_>, fits: bool) -> MixLine
    requires { IsValid mix_presentation mix_presentation_fields (mixes.view_mix mix.now) }
    ensures { result ≡ marked_mix fits (mixes.view_mix mix.now) }
{
    let sub_mixes = mix.sub_mixes.as_slice();
    MixLine {
        id: mix.id,
        sub_mixes: sub_mixes.len(),
        elements: elements_of(sub_mixes),
        fits,
    }
}

fn tag_line(alloc: Global, tag: &Tag<'_>) -> Result<TagLine, AllocError>
    ensures { IfOk result (λ line. view_tag line ≡ given.view_tag tag.now) }
{
    let name = Vec::from_slice(alloc, tag.name)?;
    let value = Vec::from_slice(alloc, tag.value)?;
    Ok(TagLine { name, value })
}

fn all_tag_lines(alloc: Global, tags: &[Tag<'_>]) -> Result<Vec<TagLine>, AllocError>
    ensures { IfOk result (λ lines. map view_tag lines.items ≡ map given.view_tag tags.now) }
{
    let mut lines = Vec::new(alloc);
    for tag in tags {
        lines.push(tag_line(alloc, tag)?)?;
    }
    Ok(lines)
}

/// The lines of a mix presentation's tags.
fn tag_lines(alloc: Global, mix: &MixPresentation<'_>) -> Result<Vec<TagLine>, AllocError>
    ensures { IfOk result (λ lines. map view_tag lines.items ≡ unwrap_or (tags_in mix.now) []) }
{
    match &mix.tags {
        Some(tags) => all_tag_lines(alloc, tags.as_slice()),
        None => Ok(Vec::new(alloc)),
    }
}

/// The lines of the report on the descriptors of a sequence, as they come. The rules tell it which mixes fit, and at the end
/// how many temporal units there are and how many samples they keep.
#[derive(Debug, Drop)]
pub struct Tally {
    pub(crate) lines: Lines,
}

impl Tally {
    /// Of no OBU.
    pub fn new(alloc: Global) -> Tally
        ensures { Stands result [] }
    {
        Tally {
            lines: Lines {
                header: None,
                codec: None,
                elements: Vec::new(alloc),
                mixes: Vec::new(alloc),
            },
        }
    }

    /// Adds a plain sequence header.
    pub fn add_header(&mut self, header: &SequenceHeader<'_>)
        ensures { (s : List ObuValue) (o : ObuValue) → Stands self.old s → Says o (content.Header (records.view_header header.now))
            → HasNoFault (roles_of s) (role o) → Stands self.new (s ++ o ∷ []) }
    {
        self.lines.header = Some(header_line(header));
    }

    /// Adds a plain codec config.
    pub fn add_codec(&mut self, config: &CodecConfig<'_>)
        ensures { (s : List ObuValue) (o : ObuValue) (c : CodecConfigFields) → Stands self.old s → StandsForCodec config.now c → Says o (content.Codec c)
            → HasNoFault (roles_of s) (role o) → Stands self.new (s ++ o ∷ []) }
    {
        self.lines.codec = Some(codec_line(config));
    }

    /// Adds a plain audio element, which must be valid for some frame length, as each is that was read. An `Err` comes only
    /// where memory runs out, and then nothing is added.
    pub fn add_element(&mut self, element: &AudioElement<'_>) -> Result<(), AllocError>
        requires { (frame_length : ℕ) × IsValid (audio_element frame_length) audio_element_fields (view_element element.now) }
        ensures adds { OnOk result ((s : List ObuValue) (o : ObuValue) → Stands self.old s → Says o (content.Element (view_element element.now))
            → HasNoFault (roles_of s) (role o) → Stands self.new (s ++ o ∷ [])) }
        ensures unchanged { OnErr result ((s : List ObuValue) → Stands self.old s → Stands self.new s) }
    {
        self.lines.elements.push(element_line(element))?;
        Ok(())
    }

    /// Adds a plain mix presentation, which must be valid, as each is that was read, and with it whether it fits the primary
    /// profile. An `Err` comes only where memory runs out, and then nothing is added.
    pub fn add_mix(
        &mut self,
        alloc: Global,
        mix: &MixPresentation<'_>,
        fits: bool,
    ) -> Result<(), AllocError>
        requires { IsValidMix mix.now }
        ensures adds { OnOk result ((s : List ObuValue) (o : ObuValue) → Stands self.old s → Says o (content.Mix (mixes.view_mix mix.now)) → IsTagged (tags_in mix.now) mix.now.tail.now o.tail
            → fits ≡ profile.fits (roles_of s) (mix_role (mixes.view_mix mix.now)) → HasNoFault (roles_of s) (role o) → Stands self.new (s ++ o ∷ [])) }
        ensures unchanged { OnErr result ((s : List ObuValue) → Stands self.old s → Stands self.new s) }
    {
        let tags = tag_lines(alloc, mix)?;
        self.lines.mixes.push(MixLines {
            mix: mix_line(mix, fits),
            tags,
        })?;
        Ok(())
    }

    /// What the report prints of a sequence of so many temporal units, which keep so many samples of a channel.
    pub fn finish(self, units: u64, samples: u64) -> Summary
        ensures { (s : List ObuValue) → Stands self s → units ≡ unit_count (roles_of s) → samples ≡ kept (roles_of s) → result ≡ facts_of s }
    {
        let Tally { lines } = self;
        Summary {
            lines,
            units,
            samples,
        }
    }
}

/// A law: redundant copies and OBUs that are no descriptors have no line, so they are not added.
pub fn other_obus_law()
    ensures { (t : Tally) (s : List ObuValue) (o : ObuValue) → Stands t s → IsOther o → Stands t (s ++ o ∷ []) }
{}
