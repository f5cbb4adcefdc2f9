//! The admission of OBUs by the rules of sequences.
ghost use Rattle.std.specs.Prelude.{◌≡◌, ◌<◌, ◌^◌, ℕ, List, [], MatchOption, alloc_error};
ghost use Rattle.spec_obu.specs.Header.{Header};
ghost use Rattle.spec_rules.specs.Descriptors as descriptors;
ghost use Rattle.spec_rules.specs.Rules as rules;
ghost use Rattle.spec_sequence.specs.Reading.{Entry, roles};
ghost use Rattle.spec_rules.specs.Samples as samples;
ghost use Rattle.obu_header.specs.View.{head_of};
ghost use Rattle.iamf_bits.specs.declared.unread.Unread.TheVariants as unread;

use crate::AdmitError;
use crate::admitted::Admitted;
use crate::kept::Kept;
use iamf_bits::Unread;
use iamf_report::Summary;
use obu_data::Definitions;
use obu_header::ObuView;
use spec_values::Fault;
use std::alloc::{AllocError, Global};
use std::marker::Model;

/// Tests OBUs one after the other by the rules of sequences (IAMF 1.0.0, "IA Sequence Structure"), and sums up what the
/// report says of them.
///
/// It borrows nothing of the OBUs: it keeps copies of the payloads of descriptors, which redundant copies may repeat. Data
/// OBUs take no memory, but for the parameter blocks that are handed out. A fault leaves it as it was. Where memory runs out
/// it is spent, and lets go of all but the number of OBUs that it admitted.
#[derive(Drop)]
pub struct Admission {
    alloc: Global,
    /// How many OBUs were admitted.
    admitted: u64,
    /// What is kept of them, and `None` once the admission is spent.
    kept: Option<Kept>,
}

impl Model for Admission {
    ghost use Rattle.iamf_admission.specs.AdmissionView.{AdmissionValue, GoesOn};
    ghost use Rattle.std.specs.Coded.{codes};
    ghost use Rattle.iamf_admission.specs.contracts.kept.Kept as kept_type;

    ghost Value = { AdmissionValue };

    ghost coded = { Prim.hlevel (codes, kept_type.the_row.coded) };

    ghost view = { λ a. record { admitted = a.admitted; kept = a.kept } };

    ghost invariant = { λ a. GoesOn a.admitted a.kept };
}

impl Admission {
    ghost use Rattle.iamf_admission.specs.AdmissionView.{Stands, IsSpent, Takes, Admits};
    ghost use Rattle.iamf_admission.specs.Standing.{Ends};

    /// Stands for no OBU.
    pub fn new(alloc: Global) -> Admission
        ensures { Stands result [] }
    {
        Admission {
            alloc,
            admitted: 0,
            kept: Some(Kept::new(alloc)),
        }
    }

    /// How many OBUs were admitted.
    pub fn admitted(&self) -> u64
        ensures { result ≡ self.now.admitted }
    {
        self.admitted
    }

    /// Admits the next OBU, whose head and payload have a spelling as those of `read_obu` have, where fewer than 2^40 OBUs
    /// were admitted before. On `Ok` it stands for one more.
    ///
    /// # Errors
    /// `Fault` exactly where the OBU has a fault after those before it, and it is the first one; the admission is left as it
    /// was. `Memory` only where memory runs out; the admission is spent then, and each later call answers the same.
    pub fn admit(&mut self, obu: &ObuView<'_>) -> Result<(), AdmitError>
        requires spelled { (piece : List ℕ) × Header (head_of obu.now.head) obu.now.payload.now piece }
        requires room { self.old.admitted < 2 ^ 40 }
        ensures admits { (past : List Entry) → Stands self.old past → Admits self.new result past obu.now }
        ensures spent { IsSpent self.old → (result ≡ Err (unread.Memory alloc_error)) × (self.new ≡ self.old) }
    {
        match self.take(obu) {
            Ok(_) => Ok(()),
            Err(error) => Err(error),
        }
    }

    /// Admits the next OBU as `admit` does, and hands out what was read of it.
    pub fn take<'a>(&mut self, obu: &ObuView<'a>) -> Result<Admitted<'a>, AdmitError>
        requires spelled { (piece : List ℕ) × Header (head_of obu.now.head) obu.now.payload.now piece }
        requires room { self.old.admitted < 2 ^ 40 }
        ensures takes { (past : List Entry) → Stands self.old past → Takes self.new result past obu.now }
        ensures spent { IsSpent self.old → (result ≡ Err (unread.Memory alloc_error)) × (self.new ≡ self.old) }
    {
        let Some(kept) = &mut self.kept else {
            return Err(Unread::Memory(AllocError));
        };
        match kept.take(self.alloc, obu) {
            Ok(admitted) => {
                self.admitted += 1;
                Ok(admitted)
            }
            Err(Unread::Fault(fault)) => Err(Unread::Fault(fault)),
            Err(Unread::Memory(error)) => {
                self.kept = None;
                Err(Unread::Memory(error))
            }
        }
    }

    /// The number of samples of a channel in a frame, and 0 before the codec config. It is 0 of a spent admission.
    pub fn frame_length(&self) -> u16
        ensures { (past : List Entry) → Stands self.now past → result ≡ descriptors.frame_length (roles past) }
    {
        match &self.kept {
            Some(kept) => kept.rules.frame_length(),
            None => 0,
        }
    }

    /// The parameter definitions that blocks are read by. `None` exactly of a spent admission.
    pub fn definitions(&self) -> Option<&Definitions>
        ensures stands { (past : List Entry) → Stands self.now past → MatchOption result ⊥ (λ d. d.now ≡ descriptors.definitions (roles past)) }
        ensures spent { IsSpent self.now → result ≡ None }
    {
        match &self.kept {
            Some(kept) => Some(kept.rules.definitions()),
            None => None,
        }
    }

    /// The samples of a channel that no trim removes. It is 0 of a spent admission.
    pub fn samples(&self) -> u64
        ensures { (past : List Entry) → Stands self.now past → result ≡ samples.kept (roles past) }
    {
        match &self.kept {
            Some(kept) => kept.rules.samples(),
            None => 0,
        }
    }

    /// What is wrong with a sequence of the OBUs that were admitted, and no more. `None` of a spent admission.
    pub fn end_fault(&self) -> Option<Fault>
        ensures stands { (past : List Entry) → Stands self.now past → result ≡ rules.end_fault (roles past) }
        ensures spent { IsSpent self.now → result ≡ None }
    {
        match &self.kept {
            Some(kept) => kept.rules.end_fault(),
            None => None,
        }
    }

    /// What the report says of the sequence of the OBUs that were admitted.
    ///
    /// # Errors
    /// `Fault` exactly where these are no sequence, and it is the fault of the end. `Memory` exactly of a spent admission.
    pub fn end(self) -> Result<Summary, AdmitError>
        ensures ends { (past : List Entry) → Stands self past → Ends result past }
        ensures spent { IsSpent self → result ≡ Err (unread.Memory alloc_error) }
    {
        let Admission {
            alloc: _,
            admitted: _,
            kept,
        } = self;
        match kept {
            Some(kept) => kept.end(),
            None => Err(Unread::Memory(AllocError)),
        }
    }
}
