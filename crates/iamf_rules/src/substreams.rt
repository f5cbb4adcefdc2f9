ghost use Rattle.std.specs.Prelude.{◌≡◌, ℕ, ◌+◌, List, if◌then◌else◌, nat_eq, Some, None, OnOk};
ghost use Rattle.std.specs.Option.{option_map};
ghost use Rattle.std.specs.Ordering.{nat_cmp};
ghost use Rattle.std.specs.BTreeMap.{get, btree_map_len, Updates};
ghost use Rattle.iamf_rules.specs.SlotSteps.{filled, Adds, channel_at};

use std::alloc::{AllocError, Global};
use std::collections::BTreeMap;

/// What is kept of a substream.
#[derive(Clone, Copy, Drop)]
pub(crate) struct Slot {
    /// The channels of its frames, where they are known.
    pub(crate) channels: Option<u32>,
    /// How many of its frames have come.
    pub(crate) frames: u64,
}

/// The substreams of all elements. Finding one takes logarithmic time.
#[derive(Drop)]
pub(crate) struct Substreams {
    pub(crate) slots: BTreeMap<u32, Slot>,
}

impl Substreams {
    /// No substream.
    pub(crate) fn new(alloc: Global) -> Substreams
        ensures slots { (s : ℕ) → get nat_cmp result.slots s ≡ None }
        ensures count { btree_map_len result.slots ≡ 0 }
    {
        Substreams {
            slots: BTreeMap::new(alloc),
        }
    }

    /// How many there are.
    pub(crate) fn len(&self) -> usize
        ensures { result ≡ btree_map_len self.now.slots }
    {
        self.slots.len()
    }

    /// What is kept of the substream, if there is one of the id.
    pub(crate) fn find(&self, id: u32) -> Option<Slot>
        ensures { result ≡ get nat_cmp self.now.slots id }
    {
        self.slots.get(&id).copied()
    }

    fn add_one(&mut self, id: u32, channels: Option<u32>) -> Result<(), AllocError>
        ensures slots { OnOk result (Updates nat_cmp self.old.slots self.new.slots id (Some (record { channels = channels; frames = 0 }))) }
        ensures count { OnOk result (get nat_cmp self.old.slots id ≡ None → btree_map_len self.new.slots ≡ btree_map_len self.old.slots + 1) }
    {
        let slot = Slot {
            channels,
            frames: 0,
        };
        match self.slots.insert(id, slot) {
            Ok(_) => Ok(()),
            Err(_) => Err(AllocError),
        }
    }

    /// Adds the substreams of an element. `channels` are those of each, where they are known. An `Err` comes only where
    /// memory runs out.
    pub(crate) fn add(&mut self, ids: &[u32], channels: Option<&[u32]>) -> Result<(), AllocError>
        ensures { OnOk result (Adds self.old.slots self.new.slots ids.now (option_map (λ b. b.now) channels.entry)) }
    {
        for i in 0..ids.len() {
            self.add_one(ids[i], channel_at(channels, i))?;
        }
        Ok(())
    }

    /// Sets how many frames of the substream have come, if there is one of the id.
    pub(crate) fn fill(&mut self, id: u32, frames: u64)
        ensures slots { (s : ℕ) → get nat_cmp self.new.slots s ≡ (if nat_eq s id then filled (get nat_cmp self.old.slots s) frames else get nat_cmp self.old.slots s) }
        ensures count { btree_map_len self.new.slots ≡ btree_map_len self.old.slots }
    {
        if let Some(slot) = self.slots.get_mut(&id) {
            slot.frames = frames;
        }
    }
}

/// The number of channels at a place, where it is known.
fn channel_at(channels: Option<&[u32]>, at: usize) -> Option<u32>
    ensures { result ≡ channel_at (option_map (λ b. b.now) channels.entry) at }
{
    match channels {
        Some(channels) => channels.get(at).copied(),
        None => None,
    }
}
