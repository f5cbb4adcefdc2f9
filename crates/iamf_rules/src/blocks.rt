ghost use Rattle.std.specs.Prelude.{◌≡◌, ℕ, ◌+◌, ◌*◌, ◌^◌, ◌<◌, max, map, List, [], if◌then◌else◌, nat_eq, Some, None, OnOk};
ghost use Rattle.std.specs.Option.{option_map};
ghost use Rattle.std.specs.Ordering.{nat_cmp};
ghost use Rattle.std.specs.List.{All};
ghost use Rattle.std.specs.BTreeMap.{get, Updates};
ghost use Rattle.spec_blocks.specs.Shape.{MixGain, shape_of, with_definition};
ghost use Rattle.spec_rules.specs.Units.{duration_by};
ghost use Rattle.obu_timing.specs.TimingView.{view_fixed};
ghost use Rattle.obu_data.specs.ShapeView.{MayDefine};
ghost use Rattle.obu_data.specs.DefinitionView.{view_definition};
ghost use Rattle.iamf_rules.specs.BlockSteps.{no_block, slot_at, unit_start, unit_end, is_late_of, block_end_of, with_block};

use crate::clashing;
use crate::clashing::copy_of;
use obu_data::{Definition, Definitions, Shape};
use obu_timing::Cadence;
use std::alloc::{AllocError, Global};
use std::collections::BTreeMap;

/// What is kept of a parameter that is defined.
#[derive(Clone, Copy, Drop)]
pub(crate) struct BlockSlot {
    /// One more than the number of the last temporal unit in which a block of it came, and 0 where none came.
    pub(crate) units: u64,
    /// Where its last block ends, in ticks of the samples' rate, if it is a mix gain of that rate.
    pub(crate) end: u128,
}

/// Where the open unit stands in time.
#[derive(Clone, Copy)]
pub(crate) struct UnitTime {
    /// The number of the unit.
    pub(crate) number: u64,
    /// Samples of a channel in a unit, which are its ticks.
    pub(crate) frame_length: u16,
    /// Samples of a channel in a second.
    pub(crate) rate: u32,
}

impl UnitTime {
    fn start(&self) -> u128
        ensures { result ≡ unit_start self.now }
    {
        u128::from(self.number) * u128::from(self.frame_length)
    }

    fn end(&self) -> u128
        ensures { result ≡ unit_end self.now }
    {
        (u128::from(self.number) + 1) * u128::from(self.frame_length)
    }
}

/// How long a block of a mix gain lasts, by its own duration or else by its definition.
fn lasting(cadence: &Cadence, own: Option<u32>) -> u32
    ensures value { result ≡ duration_by (Some (MixGain cadence.now.rate (option_map view_fixed cadence.now.fixed))) own }
    ensures small { result < 2 ^ 32 }
{
    if let Some(duration) = own {
        return duration;
    }
    match &cadence.fixed {
        Some(fixed) => {
            let duration = fixed.duration;
            duration
        }
        None => 0,
    }
}

/// The parameters that are defined, and the blocks of each as far as they came. Finding one takes logarithmic time.
#[derive(Drop)]
pub(crate) struct Blocks {
    pub(crate) definitions: Definitions,
    pub(crate) slots: BTreeMap<u32, BlockSlot>,
}

impl Blocks {
    ghost use Rattle.iamf_rules.specs.Defining.{Defines};

    /// No parameter is defined.
    pub(crate) fn new(alloc: Global) -> Blocks
        ensures definitions { result.definitions ≡ [] }
        ensures slots { (id : ℕ) → get nat_cmp result.slots id ≡ None }
    {
        Blocks {
            definitions: Definitions::new(alloc),
            slots: BTreeMap::new(alloc),
        }
    }

    fn define_one(&mut self, alloc: Global, definition: &Definition) -> Result<(), AllocError>
        requires { MayDefine definition.now.shape }
        ensures definitions { OnOk result (self.new.definitions ≡ with_definition self.old.definitions (view_definition definition.now)) }
        ensures slots { OnOk result (Updates nat_cmp self.old.slots self.new.slots definition.now.id (Some no_block)) }
    {
        let shape = copy_of(alloc, &definition.shape)?;
        clashing::add(&mut self.definitions, definition.id, shape)?;
        let slot = BlockSlot { units: 0, end: 0 };
        match self.slots.insert(definition.id, slot) {
            Ok(_) => Ok(()),
            Err(_) => Err(AllocError),
        }
    }

    /// Adds definitions, each unless its parameter is there. No block has come. An `Err` comes only where memory runs out.
    pub(crate) fn define(
        &mut self,
        alloc: Global,
        definitions: &[Definition],
    ) -> Result<(), AllocError>
        requires { All (λ d. MayDefine d.shape) definitions.now }
        ensures { OnOk result (Defines self.old self.new (map view_definition definitions.now)) }
    {
        for definition in definitions {
            self.define_one(alloc, definition)?;
        }
        Ok(())
    }

    /// What is kept of the parameter; of one that is not defined as if no block had come.
    fn slot(&self, id: u32) -> BlockSlot
        ensures { result ≡ slot_at self.now.slots id }
    {
        match self.slots.get(&id) {
            Some(slot) => *slot,
            None => BlockSlot { units: 0, end: 0 },
        }
    }

    /// Whether a block of the parameter would start after the open unit's end, or be a second one where a unit has one.
    pub(crate) fn is_late(&self, id: u32, time: UnitTime) -> bool
        ensures { result ≡ is_late_of (shape_of self.now.definitions id) (slot_at self.now.slots id) time }
    {
        let shape = match self.definitions.find(id) {
            Some(shape) => shape,
            None => return false,
        };
        let slot = self.slot(id);
        match shape {
            Shape::Gain(cadence) => {
                cadence.rate == time.rate && time.end() <= time.start().max(slot.end)
            }
            Shape::Demix(_) => time.number < slot.units,
            Shape::Recon(..) => time.number < slot.units,
        }
    }

    /// Where a block of the parameter ends that comes now, or the end that is kept where its blocks are not placed in
    /// time.
    fn end_after(&self, id: u32, own: Option<u32>, time: UnitTime) -> u128
        ensures { max (unit_start time) (slot_at self.now.slots id).end < 2 ^ 64
            → result ≡ block_end_of (shape_of self.now.definitions id) (slot_at self.now.slots id) own time }
    {
        let slot = self.slot(id);
        let shape = match self.definitions.find(id) {
            Some(shape) => shape,
            None => return slot.end,
        };
        match shape {
            Shape::Gain(cadence) if cadence.rate == time.rate => {
                let start = time.start().max(slot.end);
                start.saturating_add(u128::from(lasting(cadence, own)))
            }
            _ => slot.end,
        }
    }

    /// Adds a block of the parameter, if it is defined. `own` is the duration that the block itself has.
    pub(crate) fn add(&mut self, id: u32, own: Option<u32>, time: UnitTime)
        ensures definitions { self.new.definitions ≡ self.old.definitions }
        ensures slots { time.number < 2 ^ 62 → max (unit_start time) (slot_at self.old.slots id).end < 2 ^ 64
            → (q : ℕ) → get nat_cmp self.new.slots q ≡ (if nat_eq q id
            then option_map (λ s. with_block s (shape_of self.old.definitions id) own time) (get nat_cmp self.old.slots q)
            else get nat_cmp self.old.slots q) }
    {
        let units = time.number.saturating_add(1);
        let end = self.end_after(id, own, time);
        if let Some(slot) = self.slots.get_mut(&id) {
            *slot = BlockSlot { units, end };
        }
    }
}
