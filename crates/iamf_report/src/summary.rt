//! What the report on a sequence prints.

use crate::line::Lines;
use std::marker::Model;

/// The numbers, names and marks of the report on a sequence, and the tags of its mixes, in their order.
#[derive(Debug, Drop)]
pub struct Summary {
    pub(crate) lines: Lines,
    pub(crate) units: u64,
    /// Samples of a channel that no trim removes.
    pub(crate) samples: u64,
}

impl Model for Summary {
    ghost use Rattle.iamf_report.specs.Lines.{Facts};
    ghost use Rattle.iamf_report.specs.LinesView.{view_lines};

    ghost Value = { Facts };

    ghost view = { λ s. record { descriptors = view_lines s.lines; units = s.units; samples = s.samples } };
}
