//! Why bytes are no sequence, and where.

ghost use Rattle.std.specs.Prelude.{◌≡◌};
ghost use Rattle.spec_values.specs.Code.{code_of};
ghost use Rattle.iamf_sequence.specs.Places.{refused_at, not_taken_at, IsMemory};

use iamf_admission::AdmitError;
use iamf_bits::Unread;
use spec_values::Fault;
use std::alloc::AllocError;
use thiserror::Error;

/// The first fault of bytes, and where it stands.
#[derive(Clone, Copy, Debug, PartialEq, Eq)]
pub struct Refusal {
    /// The place of the first byte of the OBU that has the fault; the number of bytes where it is a fault of their end.
    pub at: u64,
    /// What is wrong.
    pub fault: Fault,
}

impl Refusal {
    /// The number of the fault.
    pub fn code(&self) -> u32
        ensures { result ≡ code_of self.now.fault }
    {
        self.fault.code()
    }
}

/// Why bytes are not read.
#[derive(Debug, Drop, Error)]
pub enum DecodeError {
    /// They are no sequence: this is their first fault.
    #[error("the bytes are no sequence")]
    Refused(Refusal),
    /// Memory ran out.
    #[error("out of memory")]
    Memory(AllocError),
}

impl DecodeError {
    /// That memory ran out, where nothing is wrong with the bytes.
    pub fn memory(self) -> AllocError
        requires { IsMemory self }
    {
        match self {
            DecodeError::Memory(error) => error,
            DecodeError::Refused(_) => unreachable!(),
        }
    }
}

/// The answer to bytes whose first fault stands at the place.
pub(crate) fn refused(at: usize, fault: Fault) -> DecodeError
    ensures { result ≡ refused_at at fault }
{
    DecodeError::Refused(Refusal {
        at: at as u64,
        fault,
    })
}

/// Why the OBU at the place is not taken in.
pub(crate) fn not_taken(at: usize, error: AdmitError) -> DecodeError
    ensures { result ≡ not_taken_at at error }
{
    match error {
        Unread::Fault(fault) => refused(at, fault),
        Unread::Memory(error) => DecodeError::Memory(error),
    }
}
