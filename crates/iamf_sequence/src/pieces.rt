//! Canonical spellings in parts, most of which lie where they were read.

ghost use Rattle.std.specs.Prelude.{◌≡◌, IfOk};
ghost use Rattle.std.specs.List.{flat_map};
ghost use Rattle.iamf_sequence.specs.PartBytes.{bytes_of};

use std::alloc::{AllocError, Global};
use std::marker::Model;

/// Bytes of the input that are canonical, and then bytes that were written anew.
#[derive(Drop)]
pub struct Part<'a> {
    pub(crate) kept: &'a [u8],
    pub(crate) anew: Vec<u8>,
}

/// The canonical spellings of OBUs, one after the other. What lies end to end in the input and is canonical is in one part,
/// and each OBU that is not ends a part.
///
/// Contracts see it as all of its bytes.
#[derive(Drop)]
pub struct CanonicalParts<'a> {
    pub(crate) parts: Vec<Part<'a>>,
}

impl<'a> Model for CanonicalParts<'a> {
    ghost use Rattle.std.specs.Prelude.{ℕ, List};
    ghost use Rattle.iamf_sequence.specs.PartBytes.{bytes_of};

    ghost Value = { List ℕ };

    ghost view = { λ p. bytes_of p.parts.items };
}

// The bytes of the parts in slices.
fn slices<'p>(alloc: Global, parts: &'p [Part<'_>]) -> Result<Vec<&'p [u8]>, AllocError>
    ensures { IfOk result (λ v. flat_map (λ piece. piece.now) v.items ≡ bytes_of parts.now) }
{
    let mut pieces = Vec::new(alloc);
    for part in parts {
        pieces.push(part.kept)?;
        pieces.push(part.anew.as_slice())?;
    }
    Ok(pieces)
}

// The bytes of the parts in one vector.
fn joined(alloc: Global, parts: &[Part<'_>]) -> Result<Vec<u8>, AllocError>
    ensures { IfOk result (λ v. v.items ≡ bytes_of parts.now) }
{
    let mut bytes = Vec::new(alloc);
    for part in parts {
        bytes.extend_from_slice(part.kept)?;
        bytes.extend_from_slice(part.anew.as_slice())?;
    }
    Ok(bytes)
}

impl<'a> CanonicalParts<'a> {
    /// Its bytes in slices. An `Err` comes only where memory runs out.
    pub fn pieces(&self, alloc: Global) -> Result<Vec<&[u8]>, AllocError>
        ensures { IfOk result (λ v. flat_map (λ piece. piece.now) v.items ≡ self.now) }
    {
        slices(alloc, &self.parts)
    }

    /// Its bytes in one vector. An `Err` comes only where memory runs out.
    pub(crate) fn join(&self, alloc: Global) -> Result<Vec<u8>, AllocError>
        ensures { IfOk result (λ v. v.items ≡ self.now) }
    {
        joined(alloc, &self.parts)
    }
}
