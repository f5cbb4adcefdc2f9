//! Definitions of one parameter, which have to agree.
ghost use Rattle.std.specs.Prelude.{◌≡◌, map, not, OnOk, IfOk};
ghost use Rattle.std.specs.List.{All};
ghost use Rattle.spec_blocks.specs.Shape.{shape_of, with_definition};
ghost use Rattle.spec_rules.specs.Rules.{is_other, clashing};
ghost use Rattle.obu_data.specs.ShapeView.{view_shape, MayDefine};
ghost use Rattle.obu_data.specs.DefinitionView.{view_definition};
ghost use Rattle.iamf_rules.specs.DefinitionSteps.{one_definition, recalled};

use obu_data::{Definition, DefinitionError, Definitions, Shape};
use spec_values::Fault;
use std::alloc::{AllocError, Global};

/// A shape of its own that says the same. An `Err` comes only where memory runs out.
pub(crate) fn copy_of(alloc: Global, shape: &Shape) -> Result<Shape, AllocError>
    requires { MayDefine shape.now }
    ensures copies { IfOk result (λ copy. view_shape copy ≡ view_shape shape.now) }
    ensures allowed { IfOk result (λ copy. MayDefine copy) }
{
    match shape {
        Shape::Gain(cadence) => {
            let copy = cadence.try_clone(alloc)?;
            Ok(Shape::Gain(copy))
        }
        Shape::Demix(cadence) => {
            let copy = cadence.try_clone(alloc)?;
            Ok(Shape::Demix(copy))
        }
        Shape::Recon(cadence, layers, flags) => {
            let copy = cadence.try_clone(alloc)?;
            Ok(Shape::Recon(copy, *layers, *flags))
        }
    }
}

/// Adds a definition, unless the parameter is there, and answers whether the parameter has this shape then. An `Err` comes
/// only where memory runs out.
pub(crate) fn add(definitions: &mut Definitions, id: u32, shape: Shape) -> Result<bool, AllocError>
    requires { MayDefine shape }
    ensures added { OnOk result (definitions.new ≡ with_definition definitions.old (one_definition id shape)) }
    ensures agrees { IfOk result (λ agrees. agrees ≡ not (is_other (shape_of definitions.old id) (view_shape shape))) }
{
    let error = match definitions.add(id, shape) {
        Ok(()) => return Ok(true),
        Err(error) => error,
    };
    match error {
        DefinitionError::Clash(_) => Ok(false),
        DefinitionError::Memory(error) => Err(error),
    }
}

/// Adds what is known of the parameter, unless it is there. An `Err` comes only where memory runs out.
fn recall(
    alloc: Global,
    before: &mut Definitions,
    known: &Definitions,
    id: u32,
) -> Result<(), AllocError>
    ensures { OnOk result (before.new ≡ recalled before.old known.now id) }
{
    if before.find(id).is_some() {
        return Ok(());
    }
    match known.find(id) {
        Some(shape) => {
            let copy = copy_of(alloc, shape)?;
            add(before, id, copy)?;
            Ok(())
        }
        None => Ok(()),
    }
}

/// The first of the definitions whose parameter has another shape, in the known ones or before among these. An `Err` comes
/// only where memory runs out.
pub(crate) fn clashing(
    alloc: Global,
    known: &Definitions,
    more: &[Definition],
) -> Result<Option<Fault>, AllocError>
    requires { All (λ d. MayDefine d.shape) more.now }
    ensures { IfOk result (λ fault. fault ≡ clashing known.now (map view_definition more.now)) }
{
    let mut before = Definitions::new(alloc);
    for definition in more {
        recall(alloc, &mut before, known, definition.id)?;
        let shape = copy_of(alloc, &definition.shape)?;
        let agrees = add(&mut before, definition.id, shape)?;
        if !agrees {
            return Ok(Some(Fault::ParamClash(definition.id)));
        }
    }
    Ok(None)
}
