//! A sequence of which some OBUs have been read.

ghost use Rattle.std.specs.Prelude.{List, ℕ, []};

use crate::contents::Contents;
use crate::parts::Placed;
use crate::walking::Gather;
use iamf_admission::{Admission, Admitted};
use obu_header::ObuView;
use std::alloc::{AllocError, Global};

/// The OBUs that were read, and what they say.
#[derive(Drop)]
pub(crate) struct Draft<'a> {
    pub(crate) contents: Contents<'a>,
    pub(crate) obus: Vec<Placed<'a>>,
}

impl<'a> Draft<'a> {
    ghost use Rattle.iamf_sequence.specs.DraftView.{IsPlaced};

    /// No OBU yet.
    pub(crate) fn new(alloc: Global) -> Draft<'a>
        ensures { (bytes : List ℕ) → IsPlaced result bytes 0 [] }
    {
        Draft {
            contents: Contents::new(alloc),
            obus: Vec::new(alloc),
        }
    }
}

impl<'a> Gather<'a> for Draft<'a> {
    ghost use Rattle.iamf_sequence.specs.DraftView.{IsPlaced};

    ghost stands = { IsPlaced };

    fn take(
        &mut self,
        alloc: Global,
        _admission: &Admission,
        view: &ObuView<'a>,
        obu: Admitted<'a>,
    ) -> Result<(), AllocError> {
        let Admitted { content, unit } = obu;
        self.contents.keep(alloc, content, unit)?;
        self.obus.push(Placed { view: *view, unit })?;
        Ok(())
    }
}
