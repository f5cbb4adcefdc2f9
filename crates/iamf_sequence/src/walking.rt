//! The walk over the OBUs of bytes.

ghost use Rattle.std.specs.Prelude.{◌≡◌, ◌≤◌, ◌^◌, ℕ, List, [], ◌∷◌, ◌++◌, length, IfOk, IfErr, OnOk};
ghost use Rattle.spec_sequence.specs.Reading.{Entry};
ghost use Rattle.iamf_sequence.specs.Places.{IsRefused};
ghost use Rattle.iamf_sequence.specs.Walking.{IsOneMore, HasWalked};

use crate::refusal::{DecodeError, not_taken, refused};
use iamf_admission::{Admission, Admitted};
use iamf_bits::as_bytes_below_256;
use obu_header::{ObuView, read_obu};
use spec_values::Fault;
use std::alloc::{AllocError, Global};

/// What is made of the OBUs of a sequence, as `walk` admits them: it keeps of each what it needs, and the walk keeps none.
pub trait Gather<'a> {
    // It is made of these OBUs, of which the bytes up to a place are spellings.
    ghost stands: { Self → List ℕ → ℕ → List Entry → Type 0 };

    /// Takes the next OBU in: where it stands in the bytes, and what was read of it. `admission` admitted it after those before
    /// it, and stands for all of them. An `Err` comes only where memory runs out, and then nothing is known.
    fn take(
        &mut self,
        alloc: Global,
        admission: &Admission,
        view: &ObuView<'a>,
        obu: Admitted<'a>,
    ) -> Result<(), AllocError>
        requires { (bytes : List ℕ) × (at : ℕ) × (l : List Entry) × (e : Entry) × stands self.old bytes at l × IsOneMore bytes at admission.now view.now obu l e }
        ensures { OnOk result ((bytes : List ℕ) (at : ℕ) (l : List Entry) (e : Entry) → stands self.old bytes at l → IsOneMore bytes at admission.now view.now obu.entry l e
            → stands self.new bytes view.now.end (l ++ e ∷ [])) };
}

/// Reads the bytes, of which there are at most 2^40, as a sequence, and lets `gather`, which has taken in no OBU, take its
/// OBUs in, one after the other. Answers the admission that admitted them.
///
/// # Errors
/// `Refused` exactly where the bytes are no sequence, with the first fault and the place of its OBU, or the number of the
/// bytes where it is a fault of their end. `Memory` only where memory runs out.
pub fn walk<'a, G: Gather<'a>>(
    alloc: Global,
    buffer: &'a [u8],
    gather: &mut G,
) -> Result<Admission, DecodeError>
    requires short { length buffer.now ≤ 2 ^ 40 }
    requires stands { G.stands gather.old buffer.now 0 [] }
    ensures walks { IfOk result (λ admission. (l : List Entry) × HasWalked buffer.now admission l × G.stands gather.new buffer.now (length buffer.now) l) }
    ensures refused { IfErr result (λ e. IsRefused buffer.now e) }
{
    let _bytes = as_bytes_below_256(buffer);
    let mut admission = Admission::new(alloc);
    let mut at = 0;
    while at < buffer.len() {
        let view = match read_obu(buffer, at) {
            Ok(view) => view,
            Err(fault) => return Err(refused(at, Fault::Header(fault))),
        };
        let obu = match admission.take(&view) {
            Ok(obu) => obu,
            Err(error) => return Err(not_taken(at, error)),
        };
        match gather.take(alloc, &admission, &view, obu) {
            Ok(()) => {}
            Err(error) => return Err(DecodeError::Memory(error)),
        }
        at = view.end;
    }
    match admission.end_fault() {
        Some(fault) => Err(refused(buffer.len(), fault)),
        None => Ok(admission),
    }
}
