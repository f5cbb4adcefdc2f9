//! The first fault of a header, found the plain way: each fault by a test of its own, one after the other.

ghost use Rattle.std.specs.Prelude.{◌≡◌, ℕ, ◌<◌, ◌≤◌, ◌^◌, ◌↔◌, IsTrue, IsNone, Some, MatchOption, IfSome, length, take, drop};
ghost use Rattle.spec_bits.specs.Leb.{IsLeb, AllGoOn, leb_value};
ghost use Rattle.spec_obu.specs.declared.HeaderFault.{HeaderFault};
ghost use Rattle.spec_obu.specs.Faults.{SizeIs, NumberFails, AfterTrims, TrimsFail, ExtensionFails, FieldsFail};
ghost use Rattle.spec_obu.specs.Faults.{SizeFails, IsTooLong, FlagsFail, IsCut, BodyFails, IsFirstFault};
ghost use Rattle.spec_obu.specs.Laws.{HasHeader};

use crate::{HeaderFault, ObuType};

// In bytes, header and all.
const MAX_OBU_LENGTH: u64 = 1 << 21;

/// Why no header stands at the front of the bytes: the first fault that one of the tests finds, in their order.
///
/// `None` exactly where a header and its payload stand there. It takes no memory.
pub fn plain_fault(bytes: &[u8]) -> Option<HeaderFault>
    requires { 0 < length bytes.now }
    ensures fault { (f : HeaderFault) → (result ≡ Some f) ↔ IsFirstFault f bytes.now }
    ensures header { IsNone result ↔ HasHeader bytes.now }
{
    let first = bytes[0];
    let after = &bytes[1..];
    if has_wrong_size(after) {
        return Some(HeaderFault::Leb);
    }
    if is_too_long(after) {
        return Some(HeaderFault::ObuSize);
    }
    if has_wrong_flags(first) {
        return Some(HeaderFault::Flags);
    }
    if is_cut(after) {
        return Some(HeaderFault::Cut);
    }
    if has_wrong_fields(first, after) {
        return Some(HeaderFault::HeaderSize);
    }
    None
}

// The size is no number: 8 bytes that all go on, or 2^32 or more.
fn has_wrong_size(after: &[u8]) -> bool
    ensures { IsTrue result ↔ SizeFails after.now }
{
    match size_field(after) {
        Some((_, value)) => value >= 1 << 32,
        None => after.len() >= 8,
    }
}

// The first byte, the size field and what it counts are more than 2^21 bytes.
fn is_too_long(after: &[u8]) -> bool
    ensures { IsTrue result ↔ IsTooLong after.now }
{
    match size_field(after) {
        Some((length, value)) => 1 + length as u64 + value > MAX_OBU_LENGTH,
        None => false,
    }
}

// A trim on what is no audio frame, or a redundant copy of a frame, a block or a delimiter.
fn has_wrong_flags(first: u8) -> bool
    ensures { IsTrue result ↔ FlagsFail first }
{
    let obu_type = ObuType::of_number(first / 8);
    let trimmed = first / 2 % 2 == 1;
    let redundant = first / 4 % 2 == 1;
    trimmed && obu_type != ObuType::AudioFrame || redundant && obu_type.is_data()
}

// The bytes end before the size does, or before what it counts.
fn is_cut(after: &[u8]) -> bool
    ensures { IsTrue result ↔ IsCut after.now }
{
    match size_field(after) {
        Some((length, value)) => (after.len() as u64) < length as u64 + value,
        None => true,
    }
}

// The trims or the extension have a fault within the bytes that the size counts.
fn has_wrong_fields(first: u8, after: &[u8]) -> bool
    ensures { IsTrue result ↔ BodyFails first after.now }
{
    match size_field(after) {
        Some((length, value)) => fields_fail(first, front(&after[length..], value)),
        None => false,
    }
}

fn fields_fail(first: u8, bytes: &[u8]) -> bool
    ensures { IsTrue result ↔ FieldsFail first bytes.now }
{
    match trims_length(first / 2 % 2 == 1, bytes) {
        Some(length) => first % 2 == 1 && extension_fails(&bytes[length..]),
        None => true,
    }
}

// How many bytes the trims take.
fn trims_length(trimmed: bool, bytes: &[u8]) -> Option<usize>
    ensures within { IfSome result (λ n. n ≤ length bytes.now) }
    ensures trims { MatchOption result (IsTrue trimmed × TrimsFail bytes.now) (λ n. AfterTrims trimmed (λ rest. rest ≡ drop n bytes.now) bytes.now) }
{
    if !trimmed {
        return Some(0);
    }
    let (end_length, _) = number(bytes)?;
    let (start_length, _) = number(&bytes[end_length..])?;
    Some(end_length + start_length)
}

// The extension's size is no number, or fewer bytes follow it.
fn extension_fails(bytes: &[u8]) -> bool
    ensures { IsTrue result ↔ ExtensionFails bytes.now }
{
    match number(bytes) {
        Some((length, value)) => ((bytes.len() - length) as u64) < value,
        None => true,
    }
}

// At most so many bytes.
fn front(bytes: &[u8], count: u64) -> &[u8]
    ensures { result.now ≡ take count bytes.now }
{
    if count < bytes.len() as u64 {
        &bytes[..count as usize]
    } else {
        bytes
    }
}

// The number at the front of the bytes: how many bytes it takes, and its value.
fn number(bytes: &[u8]) -> Option<(usize, u64)>
    ensures within { IfSome result (λ n. n.0 ≤ length bytes.now) }
    ensures number { MatchOption result (NumberFails bytes.now) (λ n. IsLeb n.1 (take n.0 bytes.now)) }
{
    let (length, value) = size_field(bytes)?;
    if value < 1 << 32 {
        Some((length, value))
    } else {
        None
    }
}

// The bytes up to the first below 128, which is among the first 8: how many they are, and the number that they make.
fn size_field(bytes: &[u8]) -> Option<(usize, u64)>
    ensures small { IfSome result (λ n. n.1 < 2 ^ 56) }
    ensures few { IfSome result (λ n. n.0 ≤ length bytes.now) }
    ensures field { MatchOption result (AllGoOn (take 8 bytes.now)) (λ n. SizeIs bytes.now n.0 n.1) }
{
    for i in 0..8usize {
        if i >= bytes.len() {
            return None;
        }
        if bytes[i] < 128 {
            return Some((i + 1, value_of(&bytes[..i + 1])));
        }
    }
    None
}

// The number that seven bits of each byte make, the least significant first.
fn value_of(bytes: &[u8]) -> u64
    requires { length bytes.now ≤ 8 }
    ensures value { result ≡ leb_value bytes.now }
    ensures small { result < 2 ^ 56 }
{
    let mut value = 0;
    for i in 0..bytes.len() {
        value = 128 * value + u64::from(bytes[bytes.len() - 1 - i] % 128);
    }
    value
}

#[cfg(test)]
mod tests;
