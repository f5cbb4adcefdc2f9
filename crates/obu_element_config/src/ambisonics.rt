//! Ambisonics configurations (IAMF 1.0.0, "Ambisonics Config Syntax and Semantics").

ghost use Rattle.std.specs.Prelude.{◌≡◌, [], ◌==◌, ◌||◌, ◌++◌, nat_lt, OnOk};
ghost use Rattle.std.specs.List.{list_all};
ghost use Rattle.spec_bits.specs.Cursor.{IsOnByte};
ghost use Rattle.spec_syntax.specs.Syntax.{each};
ghost use Rattle.spec_syntax.specs.Reading.{read};
ghost use Rattle.spec_syntax.specs.Payload.{canon};
ghost use Rattle.spec_descriptors.specs.Ambisonics.{Mono, Projection};
ghost use Rattle.spec_descriptors.specs.ElementFields.{ambisonics_fields};
ghost use Rattle.spec_descriptors.specs.Ambisonics.{is_output_count, mapping_in, ambisonics_mono, ambisonics_projection, ambisonics_config};
ghost use Rattle.iamf_bits.specs.Outcome.{TakesPart};
ghost use Rattle.obu_element_config.specs.AmbisonicsView.{view_ambisonics};

use iamf_bits::{Out, View};
use spec_bits::FieldFault;
use spec_descriptors::DescriptorFault;
use std::alloc::AllocError;

/// An ambisonics configuration as it stands in a payload.
pub(crate) enum Ambisonics<'a> {
    Mono {
        outputs: u8,
        substreams: u8,
        mapping: &'a [u8],
    },
    Projection {
        outputs: u8,
        substreams: u8,
        coupled: u8,
        matrix: &'a [u8],
    },
}

/// Whether a number of output channels is a square from 1 to 225.
#[tactic(auto, unfolding(spec_descriptors::specs::Ambisonics::is_output_count))]
fn is_output_count(count: u8) -> bool
    ensures { result ≡ is_output_count count }
{
    matches!(
        count,
        1 | 4 | 9 | 16 | 25 | 36 | 49 | 64 | 81 | 100 | 121 | 144 | 169 | 196 | 225
    )
}

/// Whether each output has a substream, or is silent.
fn are_mapped(mapping: &[u8], substreams: u8) -> bool
    ensures { result ≡ list_all (λ n. n == 255 || nat_lt n substreams) mapping.now }
{
    mapping
        .iter()
        .all(|output| *output == 255 || *output < substreams)
}

/// The substream of each output, or 255. Each byte is tested before the next is looked for.
fn read_mapping<'a>(
    view: &mut View<'a>,
    outputs: u8,
    substreams: u8,
) -> Result<&'a [u8], DescriptorFault>
    requires { IsOnByte view.old }
    ensures { TakesPart (λ m. m.now) result view.new (read (λ f. DescriptorFault.Field f) (each outputs (mapping_in substreams) []) view.old) }
{
    let wanted = usize::from(outputs);
    let there = wanted.min(view.left());
    let mapping = view.take_bytes(there)?;
    if !are_mapped(mapping, substreams) {
        return Err(DescriptorFault::Ambisonics);
    }
    if there < wanted {
        return Err(DescriptorFault::Field(FieldFault::Short));
    }
    Ok(mapping)
}

/// A configuration by `channel_mapping`.
#[tactic(auto, using(spec_syntax::proofs::Reading::read_bind), unfolding(spec_descriptors::specs::Ambisonics::ambisonics_mono))]
fn read_mono<'a>(view: &mut View<'a>) -> Result<Ambisonics<'a>, DescriptorFault>
    requires { IsOnByte view.old }
    ensures { TakesPart view_ambisonics result view.new (read (λ f. DescriptorFault.Field f) ambisonics_mono view.old) }
{
    let outputs = view.take_bits(8)? as u8;
    if !is_output_count(outputs) {
        return Err(DescriptorFault::Ambisonics);
    }
    let substreams = view.take_bits(8)? as u8;
    if substreams == 0 {
        return Err(DescriptorFault::Ambisonics);
    }
    if substreams > outputs {
        return Err(DescriptorFault::Ambisonics);
    }
    let mapping = match read_mapping(view, outputs, substreams) {
        Ok(mapping) => mapping,
        Err(fault) => return Err(fault),
    };
    Ok(Ambisonics::Mono {
        outputs,
        substreams,
        mapping,
    })
}

/// A configuration by `demixing_matrix`.
#[tactic(auto, unfolding(spec_descriptors::specs::Ambisonics::ambisonics_projection))]
fn read_projection<'a>(view: &mut View<'a>) -> Result<Ambisonics<'a>, DescriptorFault>
    requires { IsOnByte view.old }
    ensures { TakesPart view_ambisonics result view.new (read (λ f. DescriptorFault.Field f) ambisonics_projection view.old) }
{
    let outputs = view.take_bits(8)? as u8;
    if !is_output_count(outputs) {
        return Err(DescriptorFault::Ambisonics);
    }
    let substreams = view.take_bits(8)? as u8;
    if substreams == 0 {
        return Err(DescriptorFault::Ambisonics);
    }
    let coupled = view.take_bits(8)? as u8;
    if coupled > substreams {
        return Err(DescriptorFault::Ambisonics);
    }
    let columns = usize::from(substreams) + usize::from(coupled);
    let matrix = view.take_bytes(2 * (columns * usize::from(outputs)))?;
    Ok(Ambisonics::Projection {
        outputs,
        substreams,
        coupled,
        matrix,
    })
}

/// An ambisonics configuration.
#[tactic(auto, unfolding(spec_descriptors::specs::Ambisonics::ambisonics_config))]
pub(crate) fn read_ambisonics<'a>(view: &mut View<'a>) -> Result<Ambisonics<'a>, DescriptorFault>
    requires { IsOnByte view.old }
    ensures { TakesPart view_ambisonics result view.new (read (λ f. DescriptorFault.Field f) ambisonics_config view.old) }
{
    let mode = view.take_leb()?;
    if mode > 1 {
        return Err(DescriptorFault::Ambisonics);
    }
    if mode == 0 {
        read_mono(view)
    } else {
        read_projection(view)
    }
}

/// Puts a configuration by `channel_mapping`.
#[tactic(auto, using(spec_bits::proofs::JoinLaws::joins, obu_timing::proofs::Spelling::bytes_spelled, obu_timing::proofs::Spelling::mapping_spelled))]
pub(crate) fn put_mono(
    out: &mut Out,
    outputs: u8,
    substreams: u8,
    mapping: &[u8],
) -> Result<(), AllocError>
    requires { out.old.used ≡ 0 }
    ensures bits { OnOk result (out.new.bits ≡ out.old.bits ++ canon (ambisonics_fields (Mono outputs substreams mapping.now))) }
    ensures used { OnOk result (out.new.used ≡ 0) }
{
    out.put_leb(0)?;
    out.put_bits(u32::from(outputs), 8)?;
    out.put_bits(u32::from(substreams), 8)?;
    out.put_bytes(mapping)?;
    Ok(())
}

/// Puts a configuration by `demixing_matrix`.
#[tactic(auto, using(spec_bits::proofs::JoinLaws::joins, obu_timing::proofs::Spelling::bytes_spelled))]
pub(crate) fn put_projection(
    out: &mut Out,
    outputs: u8,
    substreams: u8,
    coupled: u8,
    matrix: &[u8],
) -> Result<(), AllocError>
    requires { out.old.used ≡ 0 }
    ensures bits { OnOk result (out.new.bits ≡ out.old.bits ++ canon (ambisonics_fields (Projection outputs substreams coupled matrix.now))) }
    ensures used { OnOk result (out.new.used ≡ 0) }
{
    out.put_leb(1)?;
    out.put_bits(u32::from(outputs), 8)?;
    out.put_bits(u32::from(substreams), 8)?;
    out.put_bits(u32::from(coupled), 8)?;
    out.put_bytes(matrix)?;
    Ok(())
}
