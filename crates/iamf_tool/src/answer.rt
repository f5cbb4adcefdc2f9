ghost use Rattle.std.specs.Prelude.{ℕ, List, IfOk};
ghost use Rattle.iamf_sequence.specs.Places.{IsRefused};
ghost use Rattle.iamf_tool.specs.Answers.{IsRefusalOf};

use iamf_sequence::DecodeError;
use std::alloc::AllocError;

/// What a command gives for its input.
#[derive(Debug, Drop)]
pub enum Answer {
    /// The bytes to be written.
    Output(Vec<u8>),
    /// The place and the number of the first fault.
    Refusal { at: u64, code: u32 },
    /// The number of the first rule for which a mix is not played.
    Unplayable { code: u32 },
}

/// The answer to bytes that are no sequence. An `Err` says that there is no memory.
pub fn answer_to(error: DecodeError) -> Result<Answer, AllocError>
    ensures { IfOk result (λ a. (bytes : List ℕ) → IsRefused bytes error → IsRefusalOf bytes a) }
{
    match error {
        DecodeError::Refused(refusal) => Ok(Answer::Refusal {
            at: refusal.at,
            code: refusal.code(),
        }),
        DecodeError::Memory(error) => Err(error),
    }
}
