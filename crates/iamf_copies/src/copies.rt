//! The payloads that redundant copies may repeat.

ghost use Rattle.std.specs.Prelude.{◌≡◌, ◌∷◌, ◌++◌, ◌||◌, ℕ, List, [], true, false, OnOk, OnErr};
ghost use Rattle.std.specs.Str.{bytes_eq};
ghost use Rattle.spec_obu.specs.Header.{Head};
ghost use Rattle.spec_obu.specs.Kinds.{obu_type_of, is_descriptor};
ghost use Rattle.spec_sequence.specs.Reading.{Entry, is_repeated};
ghost use Rattle.iamf_copies.specs.Sets.{has_bytes};
ghost use Rattle.iamf_copies.specs.Standing.{Stands, IsOther};

use std::alloc::{AllocError, Global};
use std::collections::{BTreeMap, BTreeSet};

/// The payloads of plain descriptors by the types of their OBUs, each owned. Finding one takes logarithmic time and no memory.
#[derive(Drop)]
pub struct Copies {
    pub(crate) sets: BTreeMap<u8, BTreeSet<Vec<u8>>>,
}

impl Copies {
    /// Of no OBU.
    pub fn new(alloc: Global) -> Copies
        ensures { Stands result [] }
    {
        Copies {
            sets: BTreeMap::new(alloc),
        }
    }

    /// Whether a plain descriptor of the type had exactly this payload, so that a redundant copy may repeat it.
    pub fn has(&self, obu_type: u8, payload: &[u8]) -> bool
        ensures { (past : List Entry) (h : Head) → Stands self.now past → h.kind ≡ obu_type → is_descriptor (obu_type_of obu_type) ≡ true
            → result ≡ is_repeated past h payload.now }
    {
        match self.sets.get(&obu_type) {
            Some(set) => set.contains(payload),
            None => false,
        }
    }

    /// Adds the payload of a plain OBU of the type. An `Err` comes only where memory runs out, and then no payload is added.
    pub fn add(&mut self, alloc: Global, obu_type: u8, payload: &[u8]) -> Result<(), AllocError>
        ensures adds { OnOk result ((past : List Entry) (e : Entry) → Stands self.old past → e.value.head.kind ≡ obu_type → e.value.head.redundant ≡ false
            → e.payload ≡ payload.now → Stands self.new (past ++ e ∷ [])) }
        ensures unchanged { OnErr result ((past : List Entry) → Stands self.old past → Stands self.new past) }
    {
        if let Some(set) = self.sets.get_mut(&obu_type) {
            add_bytes(alloc, set, payload)?;
            return Ok(());
        }
        let mut set = BTreeSet::new(alloc);
        add_bytes(alloc, &mut set, payload)?;
        if let Err(_) = self.sets.insert(obu_type, set) {
            return Err(AllocError);
        }
        Ok(())
    }
}

/// Adds a copy of the payload to the set. An `Err` comes only where memory runs out, and then the set has what it had.
fn add_bytes(alloc: Global, set: &mut BTreeSet<Vec<u8>>, payload: &[u8]) -> Result<(), AllocError>
    ensures adds { OnOk result ((other : List ℕ) → has_bytes set.new other ≡ (has_bytes set.old other || bytes_eq payload.now other)) }
    ensures unchanged { OnErr result ((other : List ℕ) → has_bytes set.new other ≡ has_bytes set.old other) }
{
    let copy = Vec::from_slice(alloc, payload)?;
    if let Err(_) = set.insert(copy) {
        return Err(AllocError);
    }
    Ok(())
}

/// A law: redundant copies and OBUs that are no descriptors leave all as it was, so they are not added.
pub fn other_obus_law()
    ensures { (copies : Copies) (past : List Entry) (e : Entry) → Stands copies past → IsOther e → Stands copies (past ++ e ∷ []) }
{}

#[cfg(test)]
mod tests {
    use super::*;
    use std::test::Fail;

    #[test]
    fn payloads_are_found_by_type_and_bytes(rt: HostRuntime) -> Result<(), Fail> {
        let mut copies = Copies::new(rt.alloc());
        assert!(rt; !copies.has(0, b"one"), "nothing was added");
        for (obu_type, payload) in [
            (0, b"one".as_slice()),
            (0, b"two".as_slice()),
            (2, b"".as_slice()),
            (0, b"one".as_slice()),
        ] {
            copies.add(rt.alloc(), obu_type, payload)?;
        }
        for (obu_type, payload, want) in [
            (0, b"one".as_slice(), true),
            (0, b"two".as_slice(), true),
            (0, b"on".as_slice(), false),
            (0, b"three".as_slice(), false),
            (0, b"".as_slice(), false),
            (1, b"one".as_slice(), false),
            (2, b"".as_slice(), true),
            (2, b"one".as_slice(), false),
        ] {
            let found = copies.has(obu_type, payload);
            assert_eq!(rt; found, want, "of type {obu_type}");
        }
        Ok(())
    }
}
