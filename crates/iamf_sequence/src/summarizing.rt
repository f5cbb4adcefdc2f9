//! Checking bytes without keeping what they say.

ghost use Rattle.std.specs.Prelude.{◌≡◌, ◌≤◌, ◌^◌, List, length, IfOk, IfErr};
ghost use Rattle.spec_values.specs.Value.{ObuValue};
ghost use Rattle.spec_sequence.specs.Reading.{Reads, values_of};
ghost use Rattle.iamf_report.specs.Lines.{facts_of};
ghost use Rattle.iamf_sequence.specs.Places.{IsRefused};

use crate::refusal::{DecodeError, not_taken};
use crate::sequence::Sequence;
use crate::walking::{Gather, walk};
use iamf_admission::{Admission, Admitted};
use iamf_report::Summary;
use obu_header::ObuView;
use std::alloc::{AllocError, Global};

/// Nothing is made of the OBUs.
#[derive(Drop)]
pub(crate) struct Nothing;

impl<'a> Gather<'a> for Nothing {
    ghost stands = { λ s bytes at l. Unit {0} };

    fn take(
        &mut self,
        _alloc: Global,
        _admission: &Admission,
        _view: &ObuView<'a>,
        _obu: Admitted<'a>,
    ) -> Result<(), AllocError> {
        Ok(())
    }
}

/// Reads the bytes, of which there are at most 2^40, as a sequence, and answers what the report on it prints: the same as
/// `decode` and `summary`. It keeps no OBU, so it needs less memory.
///
/// # Errors
/// `Refused` exactly where the bytes are no sequence, with the first fault and the place of its OBU, or the number of the
/// bytes where it is a fault of their end. `Memory` only where memory runs out.
pub fn summarize(alloc: Global, buffer: &[u8]) -> Result<Summary, DecodeError>
    requires { length buffer.now ≤ 2 ^ 40 }
    ensures summary { IfOk result (λ y. (s : List ObuValue) × Reads buffer.now s × (y ≡ facts_of s)) }
    ensures refused { IfErr result (λ e. IsRefused buffer.now e) }
{
    let admission = match walk(alloc, buffer, &mut Nothing) {
        Ok(admission) => admission,
        Err(error) => return Err(error),
    };
    match admission.end() {
        Ok(summary) => Ok(summary),
        Err(error) => Err(not_taken(buffer.len(), error)),
    }
}

/// What the report on a sequence prints. It reads the bytes of the sequence again. An `Err` comes only where memory runs out.
pub fn summary(alloc: Global, sequence: &Sequence<'_>) -> Result<Summary, AllocError>
    ensures { IfOk result (λ y. y ≡ facts_of (values_of sequence.now.entries)) }
{
    match summarize(alloc, sequence.bytes()) {
        Ok(summary) => Ok(summary),
        Err(error) => Err(error.memory()),
    }
}
