//! The canonical spelling of one OBU that was admitted.

ghost use Rattle.std.specs.Prelude.{◌≡◌, ◌++◌, ℕ, List, IsTrue, IfOk, OnOk};
ghost use Rattle.spec_bits.specs.Bits.{all_bits};
ghost use Rattle.spec_obu.specs.Header.{Header};
ghost use Rattle.spec_obu.specs.Canonical.{canonical_header};
ghost use Rattle.spec_values.specs.Canonical.{canonical_obu};
ghost use Rattle.spec_sequence.specs.Reading.{Entry};
ghost use Rattle.obu_header.specs.View.{head_of};
ghost use Rattle.iamf_sequence.specs.Anew.{HasNoFields, anew_or};
ghost use Rattle.iamf_sequence.specs.Walking.{IsOneMore, piece_of};

use crate::encoding::put_obu;
use iamf_admission::{Admission, Admitted};
use iamf_bits::{Out, ShortestLeb, as_bytes_below_256};
use iamf_obu::write_obu_of;
use obu_header::{ObuHead, ObuType, ObuView};
use std::alloc::{AllocError, Global};

// Whether the payloads of an OBU's type have no fields, so that each is its own canonical spelling: of frames but those
// of type 5, which has the id of the substream, of delimiters and of reserved OBUs.
fn has_no_fields(head: &ObuHead<'_>) -> bool
    ensures { IsTrue result → HasNoFields head.now.kind }
{
    match head.obu_type() {
        ObuType::AudioFrame => head.kind != 5,
        ObuType::TemporalDelimiter => true,
        ObuType::Reserved => true,
        _ => false,
    }
}

// Whether the header of these bytes has no number but its size, and that in the shortest leb128.
fn has_shortest_header(view: &ObuView<'_>, spelling: &[u8]) -> bool
    requires { Header (head_of view.now.head) view.now.payload.now spelling.now }
    ensures { IsTrue result → canonical_header (head_of view.now.head) view.now.payload.now ≡ spelling.now }
{
    if view.head.trim.is_some() {
        return false;
    }
    if view.head.extension.is_some() {
        return false;
    }
    let size = ShortestLeb::new(view.payload.len() as u32);
    size.as_slice() == &spelling[1..spelling.len() - view.payload.len()]
}

// Puts the canonical spelling of the OBU, which the admission admitted.
fn put_admitted(
    alloc: Global,
    out: &mut Out,
    admission: &Admission,
    view: &ObuView<'_>,
    obu: &Admitted<'_>,
) -> Result<(), AllocError>
    requires used { out.old.used ≡ 0 }
    requires admitted { (bytes : List ℕ) × (at : ℕ) × (l : List Entry) × (e : Entry) × IsOneMore bytes at admission.now view.now obu.now l e }
    ensures bits { OnOk result ((bytes : List ℕ) (at : ℕ) (l : List Entry) (e : Entry) → IsOneMore bytes at admission.now view.now obu.now l e
        → out.new.bits ≡ out.old.bits ++ all_bits (canonical_obu e.value)) }
    ensures used { OnOk result (out.new.used ≡ 0) }
{
    let Some(definitions) = admission.definitions() else {
        unreachable!()
    };
    match &obu.content {
        Some(content) => write_obu_of(alloc, out, &view.head, content, definitions),
        // Of a redundant copy nothing is handed out.
        None => {
            let frame_length = u32::from(admission.frame_length());
            put_obu(alloc, out, view, frame_length, definitions)
        }
    }
}

// The canonical spelling of the OBU, which the admission admitted.
fn spelled(
    alloc: Global,
    admission: &Admission,
    view: &ObuView<'_>,
    obu: &Admitted<'_>,
) -> Result<Vec<u8>, AllocError>
    requires { (bytes : List ℕ) × (at : ℕ) × (l : List Entry) × (e : Entry) × IsOneMore bytes at admission.now view.now obu.now l e }
    ensures { IfOk result (λ v. (bytes : List ℕ) (at : ℕ) (l : List Entry) (e : Entry) → IsOneMore bytes at admission.now view.now obu.now l e → v.items ≡ canonical_obu e.value) }
{
    let mut out = Out::new(alloc);
    put_admitted(alloc, &mut out, admission, view, obu)?;
    let spelling = out.finish();
    let _spelling = as_bytes_below_256(spelling.as_slice());
    Ok(spelling)
}

/// The canonical spelling of the OBU, or `None` where these bytes, which spell it, are that. An `Err` comes only where memory
/// runs out.
pub(crate) fn respelled(
    alloc: Global,
    spelling: &[u8],
    admission: &Admission,
    view: &ObuView<'_>,
    obu: &Admitted<'_>,
) -> Result<Option<Vec<u8>>, AllocError>
    requires { (bytes : List ℕ) × (at : ℕ) × (l : List Entry) × (e : Entry) × IsOneMore bytes at admission.now view.now obu.now l e × (spelling.now ≡ piece_of bytes at view.now) }
    ensures { IfOk result (λ anew. (bytes : List ℕ) (at : ℕ) (l : List Entry) (e : Entry) → IsOneMore bytes at admission.now view.now obu.now l e → spelling.now ≡ piece_of bytes at view.now
        → anew_or spelling.now anew ≡ canonical_obu e.value) }
{
    // Most OBUs are such frames, and need not be written to see it.
    if has_no_fields(&view.head) && has_shortest_header(view, spelling) {
        return Ok(None);
    }
    let canonical = spelled(alloc, admission, view, obu)?;
    if canonical.as_slice() == spelling {
        Ok(None)
    } else {
        Ok(Some(canonical))
    }
}
