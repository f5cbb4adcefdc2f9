//! Reading a sequence.

ghost use Rattle.std.specs.Prelude.{◌≡◌, ◌<◌, ◌≤◌, ◌^◌, ℕ, List, length, slice_index_or, IfOk, IfErr, OnOk};
ghost use Rattle.spec_sequence.specs.Reading.{Entry};
ghost use Rattle.iamf_sequence.specs.declared.unit.Unit as temporal;
ghost use Rattle.iamf_sequence.specs.UnitView.{SortsTo};
ghost use Rattle.iamf_sequence.specs.Places.{IsRefused};
ghost use Rattle.iamf_sequence.specs.SequenceValue.{sequence, IsRead};
ghost use Rattle.iamf_sequence.specs.SequenceView.{IsSequence};
ghost use Rattle.iamf_sequence.specs.Walking.{HasWalked};
ghost use Rattle.iamf_sequence.specs.DraftView.{IsPlaced};

use crate::draft::Draft;
use crate::parts::Parts;
use crate::reading::Reading;
use crate::refusal::DecodeError;
use crate::sequence::Sequence;
use crate::unit::Unit;
use crate::walking::walk;
use iamf_admission::Admission;
use std::alloc::{AllocError, Global};

/// Reads the bytes, of which there are at most 2^40, as a sequence. Its views lie in the bytes.
///
/// # Errors
/// `Refused` exactly where the bytes are no sequence, with the first fault and the place of its OBU, or the number of the
/// bytes where it is a fault of their end. `Memory` only where memory runs out.
pub fn decode<'a>(alloc: Global, buffer: &'a [u8]) -> Result<Sequence<'a>, DecodeError>
    requires { length buffer.now ≤ 2 ^ 40 }
    ensures bytes { IfOk result (λ s. s.bytes ≡ buffer.now) }
    // They are spellings of these OBUs one after the other, which are a sequence.
    ensures reads { IfOk result (λ s. IsRead s.bytes s.entries) }
    ensures refused { IfErr result (λ e. IsRefused buffer.now e) }
{
    let mut draft = Draft::new(alloc);
    let admission = match walk(alloc, buffer, &mut draft) {
        Ok(admission) => admission,
        Err(error) => return Err(error),
    };
    match finish(draft, admission) {
        Ok(parts) => Ok(Sequence {
            reading: Reading::new(buffer),
            parts,
        }),
        Err(error) => Err(DecodeError::Memory(error)),
    }
}

/// The parts of the sequence that was drafted, with its admission. An `Err` comes only where memory runs out.
fn finish<'a>(draft: Draft<'a>, admission: Admission) -> Result<Parts<'a>, AllocError>
    requires { (bytes : List ℕ) × (l : List Entry) × HasWalked bytes admission l × IsPlaced draft bytes (length bytes) l }
    ensures { IfOk result (λ p. (bytes : List ℕ) (l : List Entry) → length bytes ≤ 2 ^ 40 → HasWalked bytes admission l → IsPlaced draft.entry bytes (length bytes) l
        → IsSequence p (sequence bytes l)) }
{
    let Draft { contents, obus } = draft;
    let Some(header) = contents.header else {
        unreachable!()
    };
    let Some(codec) = contents.codec else {
        unreachable!()
    };
    let mut units = contents.units;
    sort_units(units.as_mut_slice())?;
    Ok(Parts {
        obus,
        header,
        codec,
        elements: contents.elements,
        mixes: contents.mixes,
        units,
        admission,
    })
}

/// Sorts the frames of each unit by their substreams. An `Err` comes only where memory runs out.
fn sort_units(units: &mut [Unit<'_>]) -> Result<(), AllocError>
    ensures count { length units.new ≡ length units.old }
    ensures sorts { OnOk result ((i : ℕ) (d : temporal.Unit) → i < length units.old → SortsTo (slice_index_or units.old i d) (slice_index_or units.new i d)) }
{
    for unit in units.iter_mut() {
        match unit.sort() {
            Ok(()) => {}
            Err(error) => return Err(error),
        }
    }
    Ok(())
}
