//! The shortest spelling of a number (IAMF 1.0.0, "leb128()").

ghost use Rattle.std.specs.Prelude.{◌≡◌, ◌≤◌, [], take};
ghost use Rattle.spec_bits.specs.Leb.{leb_bytes};

use std::marker::Model;

/// The bytes of a number in the shortest leb128, or no bytes. It takes no memory.
///
/// Contracts see it as the list of the bytes.
#[derive(Drop)]
pub struct ShortestLeb {
    bytes: [u8; 5],
    count: usize,
}

impl Model for ShortestLeb {
    ghost use Rattle.std.specs.Prelude.{ℕ, List, ◌≤◌, take};

    ghost Value = { List ℕ };

    ghost view = { λ l. take l.count l.bytes };

    ghost invariant = { λ l. l.count ≤ 5 };
}

// The shortest leb128 of a number, and how many bytes it takes.
fn shortest(value: u32) -> ([u8; 5], usize)
    ensures count { result.1 ≤ 5 }
    ensures bytes { take result.1 result.0 ≡ leb_bytes value }
{
    let mut bytes = [0; 5];
    let mut count = 0;
    let mut rest = value;
    while rest >= 128 {
        bytes[count] = (rest % 128) as u8 + 128;
        rest /= 128;
        count += 1;
    }
    bytes[count] = rest as u8;
    (bytes, count + 1)
}

impl ShortestLeb {
    /// The bytes of `value`, of which there are at most 5.
    pub fn new(value: u32) -> ShortestLeb
        ensures { result ≡ leb_bytes value }
    {
        let (bytes, count) = shortest(value);
        ShortestLeb { bytes, count }
    }

    /// No bytes, for a number that is not there.
    pub fn none() -> ShortestLeb
        ensures { result ≡ [] }
    {
        ShortestLeb {
            bytes: [0; 5],
            count: 0,
        }
    }

    /// The bytes.
    pub fn as_slice(&self) -> &[u8]
        ensures { result.now ≡ self.now }
    {
        &self.bytes[..self.count]
    }
}
