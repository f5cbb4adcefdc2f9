//! The configurations of an audio element (IAMF 1.0.0, "Audio Element OBU Syntax and Semantics").

ghost use Rattle.std.specs.Prelude.{◌≡◌, ◌≤◌, map, length, ℕ, ◌++◌, OnOk};
ghost use Rattle.spec_bits.specs.Cursor.{IsOnByte};
ghost use Rattle.spec_syntax.specs.Reading.{read};
ghost use Rattle.spec_descriptors.specs.Layers.{substreams_of};
ghost use Rattle.spec_descriptors.specs.AudioElement.{scalable_of, ambisonics_of, other_config, config_of};
ghost use Rattle.iamf_bits.specs.Outcome.{ReadsPart, TakesPart};
ghost use Rattle.obu_element_config.specs.LayerView.{view_layer};
ghost use Rattle.obu_element_config.specs.ConfigView.{view_config};
ghost use Rattle.spec_syntax.specs.Payload.{canon};
ghost use Rattle.spec_descriptors.specs.ElementFields.{config_fields};
ghost use Rattle.spec_syntax.specs.Fitting.{AllFit};

use crate::ambisonics::{Ambisonics, put_mono, put_projection, read_ambisonics};
use crate::layer::{Layer, put_layers, read_layers};
use iamf_bits::{Out, Unread, View};
use obu_timing::{DescriptorError, put_sized};
use smallvec::SmallVec;
use spec_descriptors::DescriptorFault;
use std::alloc::{AllocError, Global};

/// What the substreams of an audio element are.
#[derive(Debug, Drop)]
pub enum ElementConfig<'a> {
    /// Channels for loudspeakers in layers, type 0. The substreams are those of the layers in their order, in each
    /// layer the coupled ones first.
    Scalable {
        /// The layers, from 1 to 6.
        layers: SmallVec<Layer, 6>,
    },
    /// Ambisonics, type 1, with a substream for each channel.
    Mono {
        /// `output_channel_count`, a square from 1 to 225.
        outputs: u8,
        /// `channel_mapping`: for each output its substream by its place in the element, or 255 for silence.
        mapping: &'a [u8],
    },
    /// Ambisonics, type 1, with channels that are demixed by a matrix.
    Projection {
        /// `output_channel_count`, a square from 1 to 225.
        outputs: u8,
        /// `substream_count`, at least 1.
        substreams: u8,
        /// `coupled_substream_count`, at most `substreams`: the first of the substreams, which have two channels.
        coupled: u8,
        /// `demixing_matrix`: a column of `outputs` coefficients for each channel, each a number of 16 bits in two's
        /// complement, in 1/32768.
        matrix: &'a [u8],
    },
    /// A configuration of a type from 2 to 7, which is kept unread.
    Other {
        /// `audio_element_type`.
        kind: u8,
        /// `audio_element_config_bytes`.
        bytes: &'a [u8],
    },
}

/// How many substreams the layers have.
fn substreams_of(layers: &[Layer]) -> u32
    requires { length layers.now ≤ 6 }
    ensures { result ≡ substreams_of (map view_layer layers.now) }
{
    let mut sum = 0;
    for layer in layers {
        sum += u32::from(layer.substreams);
    }
    sum
}

/// The configuration of a scalable element.
#[tactic(auto, using(spec_syntax::proofs::Reading::read_bind), unfolding(spec_descriptors::specs::AudioElement::scalable_of))]
fn read_scalable<'a>(
    alloc: Global,
    view: &mut View<'_>,
    substreams: u32,
) -> Result<ElementConfig<'a>, DescriptorError>
    requires { IsOnByte view.old }
    ensures { ReadsPart (λ config. view_config substreams config) result view.new (read (λ f. DescriptorFault.Field f) (scalable_of substreams) view.old) }
{
    let layers = match read_layers(alloc, view) {
        Ok(layers) => layers,
        Err(error) => return Err(error),
    };
    if substreams != substreams_of(layers.as_slice()) {
        return Err(DescriptorError::Fault(DescriptorFault::Substreams));
    }
    Ok(ElementConfig::Scalable { layers })
}

/// The configuration of an ambisonics element.
#[tactic(auto, using(spec_syntax::proofs::Reading::read_bind), unfolding(spec_descriptors::specs::AudioElement::ambisonics_of))]
fn read_scene<'a>(
    view: &mut View<'a>,
    substreams: u32,
) -> Result<ElementConfig<'a>, DescriptorFault>
    requires { IsOnByte view.old }
    ensures { TakesPart (λ config. view_config substreams config) result view.new (read (λ f. DescriptorFault.Field f) (ambisonics_of substreams) view.old) }
{
    match read_ambisonics(view) {
        Ok(
            Ambisonics::Mono {
                outputs,
                substreams: count,
                mapping,
            },
        ) => {
            if substreams != u32::from(count) {
                return Err(DescriptorFault::Substreams);
            }
            Ok(ElementConfig::Mono { outputs, mapping })
        }
        Ok(
            Ambisonics::Projection {
                outputs,
                substreams: count,
                coupled,
                matrix,
            },
        ) => {
            if substreams != u32::from(count) {
                return Err(DescriptorFault::Substreams);
            }
            Ok(ElementConfig::Projection {
                outputs,
                substreams: count,
                coupled,
                matrix,
            })
        }
        Err(fault) => Err(fault),
    }
}

/// Reads the configuration of an element of a type, `kind`, with so many substreams.
///
/// `Fault` comes exactly where the payload does not go on with such a configuration, and is the first fault; `Memory` only
/// where memory runs out.
#[tactic(auto, unfolding(spec_descriptors::specs::AudioElement::other_config))]
pub fn read_config<'a>(
    alloc: Global,
    view: &mut View<'a>,
    kind: u8,
    substreams: u32,
) -> Result<ElementConfig<'a>, DescriptorError>
    requires { IsOnByte view.old }
    ensures { ReadsPart (λ config. view_config substreams config) result view.new (read (λ f. DescriptorFault.Field f) (config_of kind substreams) view.old) }
{
    if kind == 0 {
        return read_scalable(alloc, view, substreams);
    }
    if kind == 1 {
        return read_scene(view, substreams).map_err(Unread::Fault);
    }
    let size = view.take_leb()?;
    let bytes = view.take_bytes(size as usize)?;
    Ok(ElementConfig::Other { kind, bytes })
}

/// Puts the configuration of an element of so many substreams. An error only where memory runs out.
pub fn put_config(
    out: &mut Out,
    config: &ElementConfig<'_>,
    substreams: usize,
) -> Result<(), AllocError>
    requires used { out.old.used ≡ 0 }
    requires fits { AllFit (config_fields (view_config substreams config.now)) }
    ensures bits { OnOk result (out.new.bits ≡ out.old.bits ++ canon (config_fields (view_config substreams config.now))) }
    ensures used { OnOk result (out.new.used ≡ 0) }
{
    match config {
        ElementConfig::Scalable { layers } => put_layers(out, layers.as_slice())?,
        ElementConfig::Mono { outputs, mapping } => {
            put_mono(out, *outputs, substreams as u8, mapping)?;
        }
        ElementConfig::Projection {
            outputs,
            substreams,
            coupled,
            matrix,
        } => put_projection(out, *outputs, *substreams, *coupled, matrix)?,
        ElementConfig::Other { bytes, .. } => put_sized(out, bytes)?,
    }
    Ok(())
}
