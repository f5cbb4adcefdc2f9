//! Why something that takes memory is not read.

use spec_bits::FieldFault;
use std::alloc::{AllocError, AllocFailed};
use thiserror::Error;

/// Why a thing is not read, where reading it takes memory.
#[derive(Debug, Drop, Error)]
pub enum Unread<F> {
    /// The bytes spell none: this is their first fault.
    #[error("the bytes spell none")]
    Fault(F),
    /// Memory ran out.
    #[error("out of memory")]
    Memory(AllocError),
}

impl<F> From<AllocError> for Unread<F> {
    ghost use Rattle.std.specs.Prelude.{◌≡◌};
    ghost use Rattle.iamf_bits.specs.declared.unread.Unread.TheVariants.{Memory};

    ghost from_gives = { λ a e. e ≡ Memory a };

    fn from(error: AllocError) -> Unread<F> {
        Unread::Memory(error)
    }
}

impl<F, T: Drop> From<AllocFailed<T>> for Unread<F> {
    ghost use Rattle.std.specs.Prelude.{◌≡◌, alloc_error};
    ghost use Rattle.iamf_bits.specs.declared.unread.Unread.TheVariants.{Memory};

    ghost from_gives = { λ _ e. e ≡ Memory alloc_error };

    fn from(_error: AllocFailed<T>) -> Unread<F> {
        Unread::Memory(AllocError)
    }
}

impl<F: From<FieldFault>> From<FieldFault> for Unread<F> {
    ghost use Rattle.iamf_bits.specs.Outcome.{HoldsFault};

    ghost from_gives = { λ a e. HoldsFault (F.from_gives a) e };

    fn from(fault: FieldFault) -> Unread<F> {
        Unread::Fault(F::from(fault))
    }
}

impl<F> Unread<F> {
    ghost use Rattle.std.specs.Prelude.{◌≡◌};
    ghost use Rattle.iamf_bits.specs.declared.unread.Unread.TheVariants.{Fault};
    ghost use Rattle.iamf_bits.specs.Outcome.{Maps};

    /// The same with another fault, which `of` makes of this one.
    pub fn map_fault<G, M: FnOnce(F) -> G>(self, of: M) -> Unread<G>
        requires { (f : F) → self ≡ Fault f → M.pre of f }
        ensures { Maps M.post of self result }
    {
        match self {
            Unread::Fault(fault) => Unread::Fault(of(fault)),
            Unread::Memory(error) => Unread::Memory(error),
        }
    }
}
