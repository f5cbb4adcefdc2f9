//! Cyclic redundancy checks: the remainder of bits as a polynomial over two elements, without reflection, initial
//! value or final change.
#![tactic(auto)]

ghost use Rattle.std.specs.Prelude.{◌≡◌, ◌<◌, length};
ghost use Rattle.spec_bits.specs.Bits.{Bits};
ghost use Rattle.spec_checksums.specs.Polynomials.{IsRemainder, remainder};

/// A law of the definitions: long division answers the one remainder.
pub fn one_remainder()
    ensures is { (p bits : Bits) → 0 < length p → IsRemainder p bits (remainder p bits) }
    ensures only { (p bits r s : Bits) → IsRemainder p bits r → IsRemainder p bits s → r ≡ s }
{}
