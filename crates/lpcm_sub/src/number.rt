//! Numbers in two's complement, spelled by bytes in one of two orders.
ghost use Rattle.std.specs.Prelude.{◌≡◌, length};
ghost use Rattle.spec_samples.specs.Lpcm.{signed_number};

// The number of 16 bits.
pub(crate) fn number_16(bytes: &[u8], little: bool) -> i32
    requires { length bytes.now ≡ 2 }
    ensures { result ≡ signed_number little 16 bytes.now }
{
    let spelled = [bytes[0], bytes[1]];
    if little {
        i32::from(i16::from_le_bytes(spelled))
    } else {
        i32::from(i16::from_be_bytes(spelled))
    }
}

// The number of 24 bits. Its bytes are the upper ones of 32 bits, so that the shift brings in its sign.
pub(crate) fn number_24(bytes: &[u8], little: bool) -> i32
    requires { length bytes.now ≡ 3 }
    ensures { result ≡ signed_number little 24 bytes.now }
{
    if little {
        i32::from_le_bytes([0, bytes[0], bytes[1], bytes[2]]) >> 8
    } else {
        i32::from_be_bytes([bytes[0], bytes[1], bytes[2], 0]) >> 8
    }
}

// The number of 32 bits.
pub(crate) fn number_32(bytes: &[u8], little: bool) -> i32
    requires { length bytes.now ≡ 4 }
    ensures { result ≡ signed_number little 32 bytes.now }
{
    let spelled = [bytes[0], bytes[1], bytes[2], bytes[3]];
    if little {
        i32::from_le_bytes(spelled)
    } else {
        i32::from_be_bytes(spelled)
    }
}
