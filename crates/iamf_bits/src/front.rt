//! Fields at the front of bytes.
ghost use Rattle.std.specs.Prelude.{◌≡◌, ◌<◌, ◌≤◌, ◌^◌, length, take};
ghost use Rattle.spec_bits.specs.Bits.{all_bits, number_of, signed_of};
ghost use Rattle.spec_bits.specs.ByteReading.{leb_at, text_at};
ghost use Rattle.iamf_bits.specs.Front.{Fronts, FrontsText};

use spec_bits::FieldFault;

// The number whose bits the bytes are, the most significant first.
pub(crate) fn number(bytes: &[u8]) -> u64
    requires { length bytes.now ≤ 8 }
    ensures { result ≡ number_of (all_bits bytes.now) }
{
    let mut sum = 0u64;
    for byte in bytes {
        sum = sum * 256 + u64::from(*byte);
    }
    sum
}

// The number in two's complement.
pub(crate) fn signed(number: u16) -> i16
    ensures { result ≡ signed_of 16 number }
{
    if number < 0x8000 {
        number as i16
    } else {
        (i32::from(number) - 0x1_0000) as i16
    }
}

// The leb128 at the front, and how many bytes it takes.
#[inline]
pub(crate) fn leb(bytes: &[u8]) -> Result<(u32, usize), FieldFault>
    ensures { Fronts result bytes.now (leb_at bytes.now) }
{
    let mut value = 0u64;
    let mut scale = 1u64;
    for i in 0..8usize {
        if i >= bytes.len() {
            return Err(FieldFault::Short);
        }
        let byte = bytes[i];
        value += u64::from(byte % 128) * scale;
        if byte < 128 {
            return if value < 1 << 32 {
                Ok((value as u32, i + 1))
            } else {
                Err(FieldFault::Leb)
            };
        }
        scale *= 128;
    }
    Err(FieldFault::Leb)
}

// How many bytes the text at the front has, without the zero byte that ends it.
pub(crate) fn text(bytes: &[u8]) -> Result<usize, FieldFault>
    ensures { FrontsText result bytes.now (text_at bytes.now) }
{
    for i in 0..128usize {
        if i >= bytes.len() {
            return Err(FieldFault::Short);
        }
        if bytes[i] == 0 {
            return match str::from_utf8(&bytes[..i]) {
                Ok(_) => Ok(i),
                Err(_) => Err(FieldFault::Text),
            };
        }
    }
    Err(FieldFault::Text)
}
