//! Tests of ids, in the order of the syntax.
ghost use Rattle.std.specs.Prelude.{◌≡◌, ℕ, List, IfOk};
ghost use Rattle.spec_rules.specs.Rules.{repeated, unknown};
ghost use Rattle.iamf_rules.specs.Finding.{HasAll};

use crate::substreams::Slot;
use spec_values::Fault;
use std::alloc::{AllocError, Global};
use std::collections::{BTreeMap, BTreeSet};

/// The first of the ids that has a slot or stands before among the ids. An `Err` comes only where memory runs out.
pub(crate) fn repeated(
    alloc: Global,
    slots: &BTreeMap<u32, Slot>,
    ids: &[u32],
) -> Result<Option<Fault>, AllocError>
    ensures { (known : List ℕ) → HasAll slots.now known → IfOk result (λ fault. fault ≡ repeated known ids.now) }
{
    let mut before: BTreeSet<u32> = BTreeSet::new(alloc);
    for id in ids {
        if slots.contains_key(id) || before.contains(id) {
            return Ok(Some(Fault::Repeated(*id)));
        }
        match before.insert(*id) {
            Ok(_) => {}
            Err(_) => return Err(AllocError),
        }
    }
    Ok(None)
}

/// The first of the ids that the map does not have.
pub(crate) fn unknown(known: &BTreeMap<u32, Option<u32>>, ids: &[u32]) -> Option<Fault>
    ensures { (all : List ℕ) → HasAll known.now all → result ≡ unknown all ids.now }
{
    for id in ids {
        if !known.contains_key(id) {
            return Some(Fault::Unknown(*id));
        }
    }
    None
}
