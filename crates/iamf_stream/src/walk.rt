ghost use Rattle.std.specs.Prelude.{ℕ, List, ◌<◌, ◌≤◌, length, IfOk};
ghost use Rattle.iamf_stream.specs.Standing.{Passed, HasRoom};
ghost use Rattle.iamf_stream.specs.Steps.{Steps, Walks};

use crate::front::{Front, front_of};
use crate::refusal::{not_admitted, refused};
use iamf_sequence::{Admission, DecodeError, Fault};

// What was done with the front of some bytes.
enum Step {
    // The OBU of so many bytes was admitted.
    Admitted(usize),
    // They are part of an OBU, of which there have to be so many bytes.
    Partial(usize),
}

/// How far the OBUs of some bytes were admitted.
#[derive(Clone, Copy)]
pub(crate) struct Walked {
    /// How many bytes these OBUs have.
    pub admitted: usize,
    /// How many bytes there have to be after them before the next OBU is looked at.
    pub wanted: usize,
}

// Lets the admission admit the OBU at the front of the bytes, which begin at the place, if it is whole.
fn admit_front(admission: &mut Admission, place: u64, bytes: &[u8]) -> Result<Step, DecodeError>
    requires some { 0 < length bytes.now }
    requires room { HasRoom admission.old place bytes.now }
    ensures { (stream : List ℕ) → Passed admission.old place bytes.now stream → Steps admission.new result place bytes.now stream }
{
    match front_of(bytes) {
        Front::Obu(obu) => match admission.admit(&obu) {
            Ok(()) => Ok(Step::Admitted(obu.end)),
            Err(error) => Err(not_admitted(place, error)),
        },
        Front::Partial(wanted) => Ok(Step::Partial(wanted)),
        Front::Fault(fault) => Err(refused(place, Fault::Header(fault))),
    }
}

/// Lets the admission admit each whole OBU at the front of the bytes, the first of which stands at the place.
pub(crate) fn walk(
    admission: &mut Admission,
    place: u64,
    bytes: &[u8],
) -> Result<Walked, DecodeError>
    requires { HasRoom admission.old place bytes.now }
    ensures walks { (stream : List ℕ) → Passed admission.old place bytes.now stream → Walks admission.new result place bytes.now stream }
    ensures within { IfOk result (λ w. w.admitted ≤ length bytes.now) }
{
    let mut at = 0;
    while at < bytes.len() {
        let done = match admit_front(admission, place + at as u64, &bytes[at..]) {
            Ok(done) => done,
            Err(error) => return Err(error),
        };
        match done {
            Step::Admitted(count) => at += count,
            Step::Partial(wanted) => {
                return Ok(Walked {
                    admitted: at,
                    wanted,
                });
            }
        }
    }
    Ok(Walked {
        admitted: at,
        wanted: 1,
    })
}
