//! The mix presentation (IAMF 1.0.0, "Mix Presentation OBU Syntax and Semantics").

ghost use Rattle.std.specs.Prelude.{◌≡◌, IfOk, OnOk, ◌++◌};
ghost use Rattle.spec_bits.specs.Cursor.{IsOnByte};
ghost use Rattle.spec_syntax.specs.Payload.{Payload, canon};
ghost use Rattle.spec_syntax.specs.Reading.{read, start_of};
ghost use Rattle.spec_descriptors.specs.MixPresentation.{mix_presentation};
ghost use Rattle.spec_descriptors.specs.MixFields.{mix_presentation_fields};
ghost use Rattle.obu_mix.specs.MixView.{view_mix, tags_in, tail_of, IsValidMix};
ghost use Rattle.obu_mix.specs.TagView.{tags_bytes, CanBeTagged};
ghost use Rattle.obu_mix.specs.MixReading.{AnswersMix, GivesMix};
ghost use Rattle.spec_bits.specs.Bits.{all_bits};
ghost use Rattle.spec_syntax.specs.Fitting.{AllFit};
ghost use Rattle.obu_timing.specs.Writing.{Puts};

use crate::MixError;
use crate::sub_mix::{SubMix, put_sub_mixes, sub_mixes_of};
use crate::tag::{Tag, put_tags, split_tags};
use iamf_bits::{Out, View};
use obu_mix_elements::{put_texts, texts_of};
use smallvec::SmallVec;
use spec_descriptors::MixFault;
use std::alloc::{AllocError, Global};

/// A mix presentation: what is mixed, with which gains, and what it is called.
#[derive(Debug, Drop)]
pub struct MixPresentation<'a> {
    /// `mix_presentation_id`.
    pub id: u32,
    /// `annotations_language`, the languages of the labels: UTF-8 without zero bytes, of at most 127 bytes.
    pub languages: SmallVec<&'a [u8], 2>,
    /// `localized_presentation_annotations`, one for each language: UTF-8 without zero bytes, of at most 127 bytes.
    pub names: SmallVec<&'a [u8], 2>,
    /// The sub-mixes, in the order of the payload.
    pub sub_mixes: SmallVec<SubMix<'a>, 1>,
    /// The tags, in the order of the payload, or `None` where the bytes after the sub-mixes begin with no list of tags.
    pub tags: Option<SmallVec<Tag<'a>, 2>>,
    /// The bytes after the sub-mixes, and after the tags where there are some.
    pub tail: &'a [u8],
}

/// Puts the fields of a mix presentation.
#[tactic(auto, using(spec_bits::proofs::JoinLaws::joins, spec_syntax::proofs::Writing::canon_append, spec_syntax::proofs::Writing::views, spec_syntax::proofs::Fitting::fit_front, spec_syntax::proofs::Fitting::fit_rest), unfolding(spec_descriptors::specs::MixFields::mix_presentation_fields))]
fn put_fields(out: &mut Out, mix: &MixPresentation<'_>) -> Result<(), AllocError>
    requires used { out.old.used ≡ 0 }
    requires fits { AllFit (mix_presentation_fields (view_mix mix.now)) }
    ensures { Puts result out.old out.new (mix_presentation_fields (view_mix mix.now)) }
{
    out.put_leb(mix.id)?;
    out.put_leb(mix.languages.len() as u32)?;
    put_texts(out, mix.languages.as_slice())?;
    put_texts(out, mix.names.as_slice())?;
    put_sub_mixes(out, mix.sub_mixes.as_slice())?;
    Ok(())
}

/// Puts how many tags there are, and these, where the mix presentation has tags.
fn put_tag_list(out: &mut Out, mix: &MixPresentation<'_>) -> Result<(), AllocError>
    requires used { out.old.used ≡ 0 }
    requires tags { CanBeTagged (tags_in mix.now) mix.now.tail.now }
    ensures bits { OnOk result (out.new.bits ≡ out.old.bits ++ all_bits (tags_bytes (tags_in mix.now))) }
    ensures used { OnOk result (out.new.used ≡ 0) }
{
    if let Some(tags) = &mix.tags {
        out.put_bits(tags.len() as u32, 8)?;
        put_tags(out, tags.as_slice())?;
    }
    Ok(())
}

impl<'a> MixPresentation<'a> {
    /// Reads a payload. Counts of 0 are accepted.
    ///
    /// `Fault` comes exactly where the payload begins with no mix presentation, and is the fault of its first field
    /// that cannot be read or is not allowed. `Memory` comes only where memory runs out, which is asked for only as
    /// texts, elements, layouts, sub-mixes and tags are read, and never for a count that is claimed.
    pub fn read(alloc: Global, payload: &'a [u8]) -> Result<MixPresentation<'a>, MixError>
        ensures exact { AnswersMix result payload.now }
        ensures valid { IfOk result IsValidMix }
        ensures reads { GivesMix result (read (λ f. MixFault.Field f) mix_presentation (start_of payload.now)) }
    {
        MixPresentation::read_from(alloc, &mut View::whole(payload))
    }

    #[tactic(auto, using(spec_syntax::proofs::Reading::read_bind), unfolding(spec_descriptors::specs::MixPresentation::mix_presentation))]
    fn read_from(alloc: Global, view: &mut View<'a>) -> Result<MixPresentation<'a>, MixError>
        requires { IsOnByte view.old }
        ensures { GivesMix result (read (λ f. MixFault.Field f) mix_presentation view.old) }
    {
        let id = view.take_leb()?;
        let label_count = view.take_leb()?;
        let languages = match texts_of(alloc, view, label_count) {
            Ok(languages) => languages,
            Err(error) => return Err(error),
        };
        let names = match texts_of(alloc, view, label_count) {
            Ok(names) => names,
            Err(error) => return Err(error),
        };
        let sub_mix_count = view.take_leb()?;
        let sub_mixes = match sub_mixes_of(alloc, view, sub_mix_count, label_count) {
            Ok(sub_mixes) => sub_mixes,
            Err(error) => return Err(error),
        };
        let (tags, tail) = split_tags(alloc, view.rest())?;
        Ok(MixPresentation {
            id,
            languages,
            names,
            sub_mixes,
            tags,
            tail,
        })
    }

    /// Writes the fields and the tags of a valid mix presentation canonically, without the tail. An error only where
    /// memory runs out.
    pub fn write_fields(&self, alloc: Global) -> Result<Vec<u8>, AllocError>
        requires { IsValidMix self.now }
        ensures { IfOk result (λ v. all_bits v.items ≡ canon (mix_presentation_fields (view_mix self.now)) ++ all_bits (tags_bytes (tags_in self.now))) }
    {
        let mut out = Out::new(alloc);
        put_fields(&mut out, self)?;
        put_tag_list(&mut out, self)?;
        Ok(out.finish())
    }

    /// Writes the canonical payload of a valid mix presentation, as `read` gives one: the shortest leb128s, reserved
    /// bits of 0, the tags, and the tail as it is. An error only where memory runs out.
    pub fn write(&self, alloc: Global) -> Result<Vec<u8>, AllocError>
        requires { IsValidMix self.now }
        ensures canonical { IfOk result (λ v. all_bits v.items ≡ canon (mix_presentation_fields (view_mix self.now)) ++ all_bits (tail_of self.now)) }
        ensures read_again { IfOk result (λ v. Payload mix_presentation (mix_presentation_fields (view_mix self.now)) (view_mix self.now) (all_bits (tail_of self.now)) (all_bits v.items)) }
    {
        let mut out = Out::new(alloc);
        put_fields(&mut out, self)?;
        put_tag_list(&mut out, self)?;
        out.put_bytes(self.tail)?;
        Ok(out.finish())
    }
}
