//! The role of an OBU, by which the rules test it.
ghost use Rattle.std.specs.Prelude.{◌≡◌, ◌<◌, ℕ};
ghost use Rattle.spec_values.specs.Content as said;
ghost use Rattle.iamf_obu.specs.ContentView.{IsValidContent};
ghost use Rattle.obu_data.specs.BlockView.{view_content};
ghost use Rattle.spec_sequence.specs.ValueRole.{own_duration};
ghost use Rattle.std.specs.List.{All};
ghost use Rattle.obu_data.specs.ShapeView.{MayDefine};
ghost use Rattle.iamf_rules.specs.RoleView.{view_role, CanDefine};
ghost use Rattle.iamf_admission.specs.PartsView.{codec_role_in, role_with};

use crate::parts::Parts;
use iamf_obu::Content;
use iamf_rules::Role;
use obu_data::BlockContent;
use obu_descriptors::{CodecConfig, Coding};
use spec_rules::{Codec, CodecRole};

/// What the rules look at in a codec config that was read.
fn codec_role(config: &CodecConfig<'_>) -> CodecRole
    requires { config.now.frame_length < 65536 }
    ensures { result ≡ codec_role_in config.now }
{
    let (codec, depth, rate) = match config.coding {
        Coding::Lpcm { depth, rate, .. } => (Codec::Lpcm, depth, rate),
        Coding::Flac { depth, rate, .. } => (Codec::Flac, depth, rate),
    };
    CodecRole {
        id: config.id,
        frame_length: config.frame_length as u16,
        codec,
        depth,
        rate,
    }
}

/// A block's own duration, where it has one.
fn own_duration(content: &BlockContent<'_>) -> Option<u32>
    ensures { result ≡ own_duration (view_content content.now) }
{
    match content {
        BlockContent::Gain {
            timing: Some(fixed),
            ..
        } => Some(fixed.duration),
        _ => None,
    }
}

/// The role of an OBU that is no redundant copy, with what was made of its content.
pub(crate) fn role_of<'r>(content: &'r Content<'_>, parts: &'r Parts) -> Role<'r>
    requires { (context : said.Context) × (kind : ℕ) × IsValidContent context kind content.now }
    ensures role { view_role result ≡ role_with content.now parts.now }
    ensures defines { All (λ d. MayDefine d.shape) parts.now.definitions.items → CanDefine result }
{
    match content {
        Content::SequenceHeader(header) => Role::SequenceHeader {
            primary_profile: header.primary,
        },
        Content::CodecConfig(config) => Role::CodecConfig(codec_role(config)),
        Content::AudioElement(element) => Role::AudioElement {
            id: element.id,
            codec: element.codec,
            substreams: element.substreams.as_slice(),
            channels: parts.channels(),
            definitions: parts.definitions.as_slice(),
        },
        Content::MixPresentation(mix) => Role::MixPresentation {
            id: mix.id,
            elements: parts.elements.as_slice(),
            sub_mixes: mix.sub_mixes.len(),
            definitions: parts.definitions.as_slice(),
        },
        Content::ParameterBlock(block) => Role::ParameterBlock {
            id: block.id,
            duration: own_duration(&block.content),
        },
        Content::TemporalDelimiter(_) => Role::Delimiter,
        Content::AudioFrame(frame) => Role::AudioFrame {
            substream: frame.substream,
            trim: frame.trim,
            bytes: frame.bytes,
        },
        Content::Reserved(_) => Role::Ignored,
    }
}
