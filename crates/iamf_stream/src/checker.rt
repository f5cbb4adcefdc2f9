ghost use Rattle.std.specs.Prelude.{◌≡◌, ℕ, List, [], ◌+◌, ◌++◌, ◌^◌, ◌<◌, ◌≤◌, length, OnOk, OnErr, Err, alloc_error};

use crate::open::Open;
use iamf_sequence::{DecodeError, Refusal, Summary};
use std::alloc::{AllocError, Global};
use std::marker::Model;

/// How far a stream is.
#[derive(Drop)]
pub(crate) enum Stage {
    Open(Open),
    Refused(Refusal),
    /// Memory ran out.
    Spent,
}

/// Checks a stream of bytes that comes in pieces, as one sequence (IAMF 1.0.0, "IA Sequence Structure"). However the stream
/// is cut, the answers are those for the whole.
///
/// It stands for the bytes that were fed to it. What it keeps of the OBUs that were admitted does not grow with their number,
/// but for payloads of descriptors, which redundant copies may repeat; of the bytes it keeps those of an OBU that is not
/// whole, fewer than 2^21.
///
/// Only memory can fail where no bytes are refused. Once it did, or once the stream is refused, each later call answers the
/// same, and all memory is let go of.
#[derive(Drop)]
pub struct StreamChecker {
    fed: u64,
    stage: Stage,
}

impl Model for StreamChecker {
    ghost use Rattle.iamf_stream.specs.CheckerView.{CheckerValue, IsSound};
    ghost use Rattle.std.specs.Coded.{codes};
    ghost use Rattle.iamf_stream.specs.contracts.checker.Stage as stage_type;

    ghost Value = { CheckerValue };

    ghost coded = { Prim.hlevel (codes, stage_type.the_row.coded) };

    ghost view = { λ c. record { fed = c.fed; stage = c.stage } };

    ghost invariant = { λ c. IsSound c.fed c.stage };
}

impl StreamChecker {
    ghost use Rattle.spec_streams.specs.Settled.{Settled};
    ghost use Rattle.iamf_stream.specs.CheckerView.{Stands, IsRefused, IsSpent, waiting_of, Feeds, Finishes};
    ghost use Rattle.iamf_sequence.specs.declared.refusal.DecodeError.TheVariants as errors;

    /// Stands for no bytes.
    pub fn new(alloc: Global) -> StreamChecker
        ensures stands { Stands result [] }
        ensures none { result.fed ≡ 0 }
    {
        StreamChecker {
            fed: 0,
            stage: Stage::Open(Open::new(alloc)),
        }
    }

    /// Takes the next piece of the stream, where no more than 2^40 bytes are fed in all. On `Ok` it stands for these bytes too,
    /// and no fault of them stays however they go on.
    ///
    /// # Errors
    /// `Refused` exactly where the stream so far has a refusal that stays however it goes on, or one was answered before. That
    /// the stream ends is no such refusal. `Memory` only where memory runs out or did before.
    pub fn feed(&mut self, piece: &[u8]) -> Result<(), DecodeError>
        requires { self.old.fed + length piece.now ≤ 2 ^ 40 }
        ensures feeds { (stream : List ℕ) → Stands self.old stream → Feeds self.new result (stream ++ piece.now) }
        ensures more { OnOk result (self.new.fed ≡ self.old.fed + length piece.now) }
        ensures no_more { OnErr result (self.new.fed ≡ self.old.fed) }
        ensures refused { (r : Refusal) → IsRefused self.old r → (result ≡ Err (errors.Refused r)) × (self.new ≡ self.old) }
        ensures spent { IsSpent self.old → (result ≡ Err (errors.Memory alloc_error)) × (self.new ≡ self.old) }
    {
        match &mut self.stage {
            Stage::Open(open) => match open.feed(piece) {
                Ok(()) => {
                    self.fed += piece.len() as u64;
                    Ok(())
                }
                Err(DecodeError::Refused(refusal)) => {
                    self.stage = Stage::Refused(refusal);
                    Err(DecodeError::Refused(refusal))
                }
                Err(DecodeError::Memory(error)) => {
                    self.stage = Stage::Spent;
                    Err(DecodeError::Memory(error))
                }
            },
            Stage::Refused(refusal) => Err(DecodeError::Refused(*refusal)),
            Stage::Spent => Err(DecodeError::Memory(AllocError)),
        }
    }

    /// How many bytes were fed by the calls that answered `Ok`.
    pub fn fed(&self) -> u64
        ensures { result ≡ self.now.fed }
    {
        self.fed
    }

    /// How many bytes wait for the rest of their OBU.
    pub fn waiting(&self) -> usize
        ensures count { result ≡ length (waiting_of self.now) }
        ensures few { result < 2 ^ 21 }
    {
        match &self.stage {
            Stage::Open(open) => open.waiting.len(),
            Stage::Refused(_) | Stage::Spent => 0,
        }
    }

    /// What the report says of the stream, which ends here. It takes no memory.
    ///
    /// # Errors
    /// `Refused` exactly where the whole stream is no sequence, and it is its refusal. `Memory` exactly where memory ran out
    /// before.
    pub fn finish(self) -> Result<Summary, DecodeError>
        ensures finishes { (stream : List ℕ) → Stands self stream → Finishes result stream }
        ensures refused { (r : Refusal) → IsRefused self r → result ≡ Err (errors.Refused r) }
        ensures spent { IsSpent self → result ≡ Err (errors.Memory alloc_error) }
    {
        let StreamChecker { fed: _, stage } = self;
        match stage {
            Stage::Open(open) => open.finish(),
            Stage::Refused(refusal) => Err(DecodeError::Refused(refusal)),
            Stage::Spent => Err(DecodeError::Memory(AllocError)),
        }
    }
}
