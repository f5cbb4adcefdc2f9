//! That bytes are below 256.

ghost use Rattle.std.specs.Prelude.{◌≡◌};
ghost use Rattle.spec_bits.specs.Bits.{AreBytes};

/// Gives `bytes` back.
///
/// A contract sees that the items of a slice are below 256 where the slice is a parameter, and not where it is behind
/// a field or comes from a call. Of what this call gives back it sees it.
#[inline]
pub fn as_bytes_below_256(bytes: &[u8]) -> &[u8]
    ensures same { result.now ≡ bytes.now }
    ensures below { AreBytes result.now }
{
    bytes
}
