//! Descriptions of groups of samples (ISO/IEC 14496-12, "Sample Group Description Box").

ghost use Rattle.std.specs.Prelude.{◌≡◌, ◌+◌, ◌≤◌, length};
ghost use Rattle.spec_boxes.specs.Groups.{entries_from, descriptions_fit as descriptions_fit_of};

use crate::numbers::read_word;

// Whether so many entries from a place on are there, each after its own length and with a roll distance.
fn entries_fit(bytes: &[u8], count: u32, start: usize) -> bool
    requires { start ≤ length bytes.now }
    ensures { result ≡ entries_from count bytes.now start }
{
    let mut at = start;
    for i in 0..count {
        if bytes.len() - at < 4 {
            return false;
        }
        let size = read_word(bytes, at) as usize;
        if size < 2 {
            return false;
        }
        if size > bytes.len() - at - 4 {
            return false;
        }
        at += 4 + size;
    }
    true
}

/// Whether the descriptions in the payload of an `sgpd` of version 1 are there, each with a roll distance.
pub fn descriptions_fit(bytes: &[u8]) -> bool
    ensures { result ≡ descriptions_fit_of bytes.now }
{
    if bytes.len() < 16 {
        return false;
    }
    let default = read_word(bytes, 8);
    let count = read_word(bytes, 12);
    if default == 0 {
        return entries_fit(bytes, count, 16);
    }
    if count == 0 {
        return true;
    }
    if default < 2 {
        return false;
    }
    u64::from(default) * u64::from(count) <= (bytes.len() - 16) as u64
}
