ghost use Rattle.std.specs.Prelude.{◌≡◌};
ghost use Rattle.iamf_sequence.specs.Places.{refused_at, not_taken_at};

use iamf_bits::Unread;
use iamf_sequence::{AdmitError, DecodeError, Fault, Refusal};

/// The answer to a stream whose first fault stands at the place.
pub(crate) fn refused(at: u64, fault: Fault) -> DecodeError
    ensures { result ≡ refused_at at fault }
{
    DecodeError::Refused(Refusal { at, fault })
}

/// Why the OBU at the place, or the end there, is not admitted.
pub(crate) fn not_admitted(at: u64, error: AdmitError) -> DecodeError
    ensures { result ≡ not_taken_at at error }
{
    match error {
        Unread::Fault(fault) => refused(at, fault),
        Unread::Memory(error) => DecodeError::Memory(error),
    }
}
