//! Residuals in Rice codes (RFC 9639, section 9.2.7.2).
ghost use Rattle.std.specs.Prelude.{◌≡◌, ℕ, ◌+◌, ◌*◌, ◌^◌, ◌<◌, ◌≤◌, length, drop, unsigned_abs, Some, IfOk};
ghost use Rattle.spec_bits.specs.Bits.{all_bits};
ghost use Rattle.spec_syntax.specs.Reading.{read, Answers};
ghost use Rattle.spec_flac.specs.Faults.{short};
ghost use Rattle.spec_flac.specs.Residual.{unfolded, coded_residual};
ghost use Rattle.flac_bits.specs.Ones.{first_one};
ghost use Rattle.flac_bits.specs.Places.{cursor, capped};
ghost use Rattle.flac_bits.specs.Windows.{IsWindow, place_of};
ghost use Rattle.flac_bits.specs.Residuals.{IsUnfolded};

use crate::window::{Window, after, after_one, filled, top, zeros_from, zeros_of};
use spec_flac::FlacFault;

/// A residual, and the window after it.
#[derive(Clone, Copy)]
pub struct Coded {
    pub value: i64,
    pub window: Window,
}

/// The least folded number of a residual that is too large.
const FOLDED_END: u64 = 0xffff_ffff;

// The number that a folded one stands for.
#[inline(always)]
pub fn unfold(folded: u64) -> i64
    requires { folded < 2 ^ 32 }
    ensures { result ≡ unfolded folded }
{
    if folded % 2 == 0 {
        (folded / 2) as i64
    } else {
        -((folded / 2) as i64) - 1
    }
}

// The folded number of zeros and low bits.
#[inline(always)]
pub fn joined(high: u64, low: u64, parameter: u32) -> u64
    requires parameter { parameter < 31 }
    requires high { high ≤ 2 ^ 32 }
    requires low { low < 2 ^ parameter }
    ensures { result ≡ high * 2 ^ parameter + low }
{
    (high << parameter) + low
}

// The residual of zeros and low bits, where it is small enough.
#[inline(always)]
fn residual_of(high: u64, low: u64, parameter: u32) -> Option<i64>
    requires parameter { parameter < 31 }
    requires high { high ≤ 2 ^ 32 }
    requires low { low < 2 ^ parameter }
    ensures { (h : ℕ) → high ≡ capped h → IsUnfolded result (h * 2 ^ parameter + low) }
{
    let folded = joined(high, low, parameter);
    if folded < FOLDED_END {
        Some(unfold(folded))
    } else {
        None
    }
}

// A window, and how many zeros stand on its top.
#[derive(Clone, Copy)]
struct Ahead {
    window: Window,
    zeros: u32,
}

// The window with a whole code, where a word can hold it.
#[inline(always)]
fn looked_ahead(bytes: &[u8], window: Window, parameter: u32) -> Ahead
    requires is { IsWindow bytes.now window }
    requires parameter { parameter < 31 }
    ensures place { place_of result.window ≡ place_of window }
    ensures is { IsWindow bytes.now result.window }
    ensures few { result.zeros ≤ 64 }
    ensures first { result.zeros < result.window.count → first_one (drop (place_of window) (all_bits bytes.now)) ≡ Some result.zeros }
{
    let zeros = zeros_of(window.word);
    if zeros + parameter < window.count {
        return Ahead { window, zeros };
    }
    let full = filled(bytes, window);
    Ahead {
        window: full,
        zeros: zeros_of(full.word),
    }
}

// The residual whose code no word holds.
#[cold]
#[inline(never)]
fn far_residual(bytes: &[u8], window: Window, parameter: u32) -> Result<Coded, FlacFault>
    requires is { IsWindow bytes.now window }
    requires parameter { parameter < 31 }
    ensures gives { Answers (λ c. (c.value, cursor bytes.now (place_of c.window))) result (read short (coded_residual parameter) (cursor bytes.now (place_of window))) }
    ensures is { IfOk result (λ c. IsWindow bytes.now c.window) }
    ensures small { IfOk result (λ c. unsigned_abs c.value < 2 ^ 31) }
{
    let zeros = match zeros_from(bytes, window) {
        Some(zeros) => zeros,
        None => return Err(FlacFault::Short),
    };
    let rest = filled(bytes, zeros.window);
    if rest.count < parameter {
        return Err(FlacFault::Short);
    }
    match residual_of(zeros.count, top(rest.word, parameter), parameter) {
        Some(value) => Ok(Coded {
            value,
            window: after(rest, parameter),
        }),
        None => Err(FlacFault::Residual),
    }
}

/// The residual at a window's place, with so many low bits.
#[inline(always)]
pub fn residual_from(bytes: &[u8], window: Window, parameter: u32) -> Result<Coded, FlacFault>
    requires is { IsWindow bytes.now window }
    requires parameter { parameter < 31 }
    ensures gives { Answers (λ c. (c.value, cursor bytes.now (place_of c.window))) result (read short (coded_residual parameter) (cursor bytes.now (place_of window))) }
    ensures is { IfOk result (λ c. IsWindow bytes.now c.window) }
    ensures small { IfOk result (λ c. unsigned_abs c.value < 2 ^ 31) }
{
    let ahead = looked_ahead(bytes, window, parameter);
    if ahead.zeros + parameter >= ahead.window.count {
        return far_residual(bytes, ahead.window, parameter);
    }
    let rest = after_one(ahead.window, ahead.zeros);
    match residual_of(u64::from(ahead.zeros), top(rest.word, parameter), parameter) {
        Some(value) => Ok(Coded {
            value,
            window: after(rest, parameter),
        }),
        None => Err(FlacFault::Residual),
    }
}
