//! Bytes that are a sequence.

ghost use Rattle.iamf_sequence.specs.SequenceValue.{HasEntries};
ghost use Rattle.iamf_sequence.specs.OneList.{one_choice};

use std::marker::Model;

/// Bytes that are a sequence, which contracts see with the OBUs of which they are spellings.
#[derive(Drop)]
pub(crate) struct Reading<'a> {
    buffer: &'a [u8],
    ghost reads: { HasEntries buffer.now } by { one_choice buffer.now },
}

impl<'a> Model for Reading<'a> {
    ghost use Rattle.iamf_sequence.specs.SequenceValue.{SequenceValue};

    ghost Value = { SequenceValue };

    ghost view = { λ r. record { bytes = r.buffer.now; entries = r.reads.0 } };
}

impl<'a> Reading<'a> {
    ghost use Rattle.std.specs.Prelude.{◌≡◌, List};
    ghost use Rattle.spec_sequence.specs.Reading.{Entry};
    ghost use Rattle.iamf_sequence.specs.SequenceValue.{IsRead};

    /// Of bytes that are a sequence.
    pub(crate) fn new(buffer: &'a [u8]) -> Reading<'a>
        requires { (l : List Entry) × IsRead buffer.now l }
        ensures bytes { result.bytes ≡ buffer.entry.now }
        ensures entries { (l : List Entry) → IsRead buffer.entry.now l → l ≡ result.entries }
    {
        Reading { buffer }
    }

    /// The bytes.
    pub(crate) fn bytes(&self) -> &'a [u8]
        ensures { result.now ≡ self.now.bytes }
    {
        self.buffer
    }
}
