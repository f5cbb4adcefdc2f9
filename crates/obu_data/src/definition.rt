//! The definition of a parameter (IAMF 1.0.0, "Parameter Definition Syntax and Semantics").

use obu_timing::Cadence;

/// What the definitions of one parameter have to agree on: its kind and its timing. Default values are in no shape.
#[derive(Debug, Drop)]
pub enum Shape {
    /// Mix gains.
    Gain(Cadence),
    /// Demixing.
    Demix(Cadence),
    /// Recon gains: the number of the element's layers, and their recon flags, bit i (0 the least) for layer i.
    Recon(Cadence, u8, u8),
}

/// A parameter and its shape.
#[derive(Debug, Drop)]
pub struct Definition {
    /// `parameter_id`.
    pub id: u32,
    /// The shape.
    pub shape: Shape,
}
