//! The definitions that parameter blocks are read by.
ghost use Rattle.std.specs.Prelude.{◌≡◌, ◌↔◌, true, [], option_map, IfSome};
ghost use Rattle.obu_timing.specs.TimingView.{view_fixed};
ghost use Rattle.spec_blocks.specs.Shape.{shape_of};
ghost use Rattle.obu_data.specs.ShapeView.{view_shape, MayDefine};
ghost use Rattle.obu_data.specs.Adding.{Finds, Adds};

use crate::definition::{Definition, Shape};
use obu_timing::{Cadence, Fixed};
use std::alloc::{AllocError, Global};
use std::collections::BTreeMap;
use std::marker::Model;
use thiserror::Error;

/// Why a definition is not added.
#[derive(Debug, Drop, Error)]
pub enum DefinitionError {
    /// A definition with this id and another shape is there.
    #[error("parameter {0} is defined twice")]
    Clash(u32),
    /// Memory ran out.
    #[error("out of memory")]
    Memory(AllocError),
}

/// The shapes of all parameters that were defined so far.
///
/// Contracts see it as the list of the definitions, each an id and its shape, in the order in which they came.
#[derive(Drop)]
pub struct Definitions {
    list: Vec<Definition>,
    places: BTreeMap<u32, usize>,
}

impl Model for Definitions {
    ghost use Rattle.std.specs.Prelude.{List, map};
    ghost use Rattle.spec_blocks.specs.Shape.{Definition};

    ghost Value = { List Definition };

    ghost use Rattle.obu_data.specs.DefinitionView.{view_definition, IsIndexed};

    ghost view = { λ d. map view_definition d.list.items };

    ghost invariant = { λ d. IsIndexed d.list.items d.places };
}

/// Whether two timings of all blocks are the same.
fn same_fixed(one: &Fixed, other: &Fixed) -> bool
    ensures { (result ≡ true) ↔ (view_fixed one.now ≡ view_fixed other.now) }
{
    one.duration == other.duration
        && one.constant == other.constant
        && one.durations.as_slice() == other.durations.as_slice()
}

/// Whether two cadences are the same.
fn same_cadence(one: &Cadence, other: &Cadence) -> bool
    ensures { (result ≡ true) ↔ ((one.now.rate ≡ other.now.rate) × (option_map view_fixed one.now.fixed ≡ option_map view_fixed other.now.fixed)) }
{
    if one.rate != other.rate {
        return false;
    }
    match (&one.fixed, &other.fixed) {
        (Some(one), Some(other)) => same_fixed(one, other),
        (None, None) => true,
        _ => false,
    }
}

/// Whether two shapes are the same.
fn same_shape(one: &Shape, other: &Shape) -> bool
    requires one { MayDefine one.now }
    requires other { MayDefine other.now }
    ensures { (result ≡ true) ↔ (view_shape one.now ≡ view_shape other.now) }
{
    match (one, other) {
        (Shape::Gain(one), Shape::Gain(other)) => same_cadence(one, other),
        (Shape::Demix(one), Shape::Demix(other)) => same_cadence(one, other),
        (Shape::Recon(one, layers, flags), Shape::Recon(other, other_layers, other_flags)) => {
            same_cadence(one, other) && *layers == *other_layers && *flags == *other_flags
        }
        _ => false,
    }
}

impl Definitions {
    /// No definition yet.
    pub fn new(alloc: Global) -> Definitions
        ensures { result ≡ [] }
    {
        Definitions {
            list: Vec::new(alloc),
            places: BTreeMap::new(alloc),
        }
    }

    /// The shape of a parameter, in a number of steps that grows with the logarithm of how many are defined.
    pub fn find(&self, id: u32) -> Option<&Shape>
        ensures finds { Finds result (shape_of self.now id) }
        ensures allowed { IfSome result (λ shape. MayDefine shape.now) }
    {
        let list = self.list.as_slice();
        match self.places.get(&id) {
            Some(place) => {
                let place = *place;
                prove!(place < list.len());
                Some(&list[place].shape)
            }
            None => None,
        }
    }

    /// Adds the definition of a parameter. On `Ok` a parameter that is there with this shape changes nothing, and a new one
    /// goes last.
    ///
    /// `Clash` comes exactly where the parameter is there with another shape, and carries its id; `Memory` only where memory
    /// runs out. Both leave the definitions unchanged.
    pub fn add(&mut self, id: u32, shape: Shape) -> Result<(), DefinitionError>
        requires { MayDefine shape }
        ensures { Adds self.old id (view_shape shape) result self.new }
    {
        if let Some(known) = self.find(id) {
            if same_shape(known, &shape) {
                return Ok(());
            }
            return Err(DefinitionError::Clash(id));
        }
        let place = self.list.as_slice().len();
        if let Err(_) = self.list.push(Definition { id, shape }) {
            return Err(DefinitionError::Memory(AllocError));
        }
        if let Err(_) = self.places.insert(id, place) {
            self.list.pop();
            return Err(DefinitionError::Memory(AllocError));
        }
        Ok(())
    }
}
