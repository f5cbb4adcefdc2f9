//! A file of a sequence of which some OBUs have been read.

ghost use Rattle.std.specs.Prelude.{◌≤◌, ◌^◌, ℕ, List, [], length, IfOk};
ghost use Rattle.spec_sequence.specs.Reading.{Entry};
ghost use Rattle.iamf_sequence.specs.Walking.{HasWalked};

use crate::body::Body;
use crate::gathered::Gathered;
use crate::numbers::Numbers;
use iamf_sequence::{Admission, Admitted, Gather};
use obu_header::ObuView;
use std::alloc::{AllocError, Global};

/// What goes into the file of the OBUs that were read. Of a unit it keeps its length alone.
#[derive(Drop)]
pub struct Draft<'a> {
    pub gathered: Gathered<'a>,
    pub numbers: Numbers,
}

impl<'a> Draft<'a> {
    ghost use Rattle.iamf_mux.specs.DraftView.{IsDraft};
    ghost use Rattle.iamf_mux.specs.BodyView.{IsBodyOf};

    /// No OBU yet of these bytes.
    pub fn new(alloc: Global, bytes: &'a [u8]) -> Draft<'a>
        requires { length bytes.now ≤ 2 ^ 30 }
        ensures { IsDraft result bytes.now 0 [] }
    {
        Draft {
            gathered: Gathered::new(alloc, bytes),
            numbers: Numbers::new(),
        }
    }

    /// What is written of all OBUs, which the admission admitted.
    pub fn finish(mut self, admission: &Admission) -> Result<Body<'a>, AllocError>
        ensures { IfOk result (λ body. (bytes : List ℕ) (l : List Entry) → HasWalked bytes admission.now l → IsDraft self.entry bytes (length bytes) l → IsBodyOf body bytes) }
    {
        self.gathered.close()?;
        Ok(Body {
            descriptors: self.gathered.descriptors,
            units: self.gathered.units,
            unit_lengths: self.gathered.unit_lengths,
            frame_length: u32::from(admission.frame_length()),
            sample_rate: self.numbers.sample_rate.unwrap_or(0),
            trimmed: self.numbers.starts.trimmed,
            kept: admission.samples(),
        })
    }
}

impl<'a> Gather<'a> for Draft<'a> {
    ghost use Rattle.iamf_mux.specs.DraftView.{IsDraft};

    ghost stands = { IsDraft };

    fn take(
        &mut self,
        _alloc: Global,
        _admission: &Admission,
        view: &ObuView<'a>,
        obu: Admitted<'a>,
    ) -> Result<(), AllocError> {
        let Admitted { content, unit } = obu;
        self.gathered.add(&view.head, unit, view.at, view.end)?;
        self.numbers.add(&content, unit);
        Ok(())
    }
}
