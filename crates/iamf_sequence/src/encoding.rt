//! Writing a sequence, each OBU in its canonical spelling.

ghost use Rattle.std.specs.Prelude.{◌≡◌, ◌<◌, ◌++◌, length, slice_get, option_map, Some, IfOk, OnOk};
ghost use Rattle.spec_bits.specs.Bits.{all_bits};
ghost use Rattle.spec_values.specs.Value.{ObuValue};
ghost use Rattle.spec_values.specs.Canonical.{canonical_obu, encoded};
ghost use Rattle.spec_sequence.specs.Reading.{values_of};
ghost use Rattle.iamf_sequence.specs.Encoding.{IsViewOf};

use crate::respelling::respell;
use crate::sequence::Sequence;
use iamf_bits::{Out, Unread, as_bytes_below_256};
use iamf_obu::{read_content, write_obu_of};
use obu_data::Definitions;
use obu_header::ObuView;
use std::alloc::{AllocError, Global};

/// Reads the payload of an OBU that was admitted among descriptors with this frame length and these definitions, and puts
/// the OBU in its canonical spelling. An `Err` comes only where memory runs out.
pub(crate) fn put_obu(
    alloc: Global,
    out: &mut Out,
    view: &ObuView<'_>,
    frame_length: u32,
    definitions: &Definitions,
) -> Result<(), AllocError>
    requires used { out.old.used ≡ 0 }
    requires view { (o : ObuValue) × IsViewOf frame_length definitions.now view.now o }
    ensures bits { OnOk result ((o : ObuValue) → IsViewOf frame_length definitions.now view.now o → out.new.bits ≡ out.old.bits ++ all_bits (canonical_obu o)) }
    ensures used { OnOk result (out.new.used ≡ 0) }
{
    match read_content(alloc, view, frame_length, definitions) {
        Ok(content) => write_obu_of(alloc, out, &view.head, &content, definitions),
        Err(error) => match error {
            Unread::Memory(error) => Err(error),
            Unread::Fault(_) => unreachable!(),
        },
    }
}

/// The canonical spellings of all OBUs of a sequence, one after the other: each number in the shortest leb128, and each
/// reserved bit 0. It reads the bytes of the sequence again. An `Err` comes only where memory runs out.
pub fn encode(alloc: Global, sequence: &Sequence<'_>) -> Result<Vec<u8>, AllocError>
    ensures { IfOk result (λ v. v.items ≡ encoded (values_of sequence.now.entries)) }
{
    match respell(alloc, sequence.bytes()) {
        Ok(spellings) => Ok(spellings),
        Err(error) => Err(error.memory()),
    }
}

/// The canonical spelling of OBU `i` of a sequence alone. It reads no other OBU. An `Err` comes only where memory runs out.
pub fn encode_obu(alloc: Global, sequence: &Sequence<'_>, i: usize) -> Result<Vec<u8>, AllocError>
    requires { i < length sequence.now.entries }
    ensures { IfOk result (λ v. option_map canonical_obu (slice_get (values_of sequence.now.entries) i) ≡ Some v.items) }
{
    let _bytes = as_bytes_below_256(sequence.bytes());
    let frame_length = u32::from(sequence.parts.admission.frame_length());
    let mut out = Out::new(alloc);
    put_obu(
        alloc,
        &mut out,
        sequence.obu(i),
        frame_length,
        sequence.definitions(),
    )?;
    let spelling = out.finish();
    let _spelling = as_bytes_below_256(spelling.as_slice());
    Ok(spelling)
}
