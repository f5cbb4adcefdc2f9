//! Numbers and bytes after their count.

ghost use Rattle.std.specs.Prelude.{◌≡◌, ◌<◌, ◌^◌, ◌∷◌, ◌++◌, length, OnOk};
ghost use Rattle.spec_bits.specs.Form.{Leb128};
ghost use Rattle.spec_syntax.specs.Payload.{a_field, canon};
ghost use Rattle.spec_syntax.specs.Repetition.{joined};
ghost use Rattle.spec_descriptors.specs.TimingFields.{leb_fields};
ghost use Rattle.spec_descriptors.specs.ElementFields.{sized_fields};

use iamf_bits::Out;
use std::alloc::AllocError;

/// Puts each number.
#[tactic(auto, using(spec_bits::proofs::JoinLaws::joins))]
fn put_each(out: &mut Out, numbers: &[u32]) -> Result<(), AllocError>
    requires { out.old.used ≡ 0 }
    ensures bits { OnOk result (out.new.bits ≡ out.old.bits ++ canon (joined leb_fields numbers.now)) }
    ensures used { OnOk result (out.new.used ≡ 0) }
{
    for number in numbers {
        out.put_leb(*number)?;
    }
    Ok(())
}

/// Puts how many numbers there are, fewer than 2^32, and then each, all as `leb128`. An error only where memory runs out.
#[tactic(auto, using(spec_bits::proofs::JoinLaws::joins))]
pub fn put_numbers(out: &mut Out, numbers: &[u32]) -> Result<(), AllocError>
    requires used { out.old.used ≡ 0 }
    requires few { length numbers.now < 2 ^ 32 }
    ensures bits { OnOk result (out.new.bits ≡ out.old.bits ++ canon (a_field Leb128 (length numbers.now) ∷ joined leb_fields numbers.now)) }
    ensures used { OnOk result (out.new.used ≡ 0) }
{
    out.put_leb(numbers.len() as u32)?;
    put_each(out, numbers)?;
    Ok(())
}

/// Puts how many bytes there are, fewer than 2^32, as `leb128`, and then the bytes. An error only where memory runs out.
#[tactic(auto, using(spec_bits::proofs::JoinLaws::joins))]
pub fn put_sized(out: &mut Out, bytes: &[u8]) -> Result<(), AllocError>
    requires used { out.old.used ≡ 0 }
    requires few { length bytes.now < 2 ^ 32 }
    ensures bits { OnOk result (out.new.bits ≡ out.old.bits ++ canon (sized_fields bytes.now)) }
    ensures used { OnOk result (out.new.used ≡ 0) }
{
    out.put_leb(bytes.len() as u32)?;
    out.put_bytes(bytes)?;
    Ok(())
}
