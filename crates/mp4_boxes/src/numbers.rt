//! Numbers in bytes, the most significant byte first.

ghost use Rattle.std.specs.Prelude.{◌≡◌, ◌+◌, ◌≤◌, length};
ghost use Rattle.spec_boxes.specs.Bytes.{word_at, long_at};

use byteorder::{BigEndian, ByteOrder};

/// The number in the four bytes from a place on.
#[inline]
#[tactic(auto, using(crate::proofs::BigEndianWords::word_is))]
pub fn read_word(bytes: &[u8], at: usize) -> u32
    requires { at + 4 ≤ length bytes.now }
    ensures { result ≡ word_at bytes.now at }
{
    BigEndian::read_u32(&bytes[at..])
}

/// The number in the eight bytes from a place on.
#[inline]
#[tactic(auto, using(crate::proofs::BigEndianWords::long_is))]
pub fn read_long(bytes: &[u8], at: usize) -> u64
    requires { at + 8 ≤ length bytes.now }
    ensures { result ≡ long_at bytes.now at }
{
    BigEndian::read_u64(&bytes[at..])
}
