//! Bits of a buffer on top of a word, so that several fields are taken with one access to memory.
ghost use Rattle.std.specs.Prelude.{◌≡◌, ℕ, ◌+◌, ◌-◌, ◌*◌, ◌^◌, ◌<◌, ◌≤◌, ◌⊎◌, length, take, drop, Some};
ghost use Rattle.spec_bits.specs.Bits.{Bits, all_bits, number_of};
ghost use Rattle.flac_bits.specs.Ones.{first_one};
ghost use Rattle.flac_bits.specs.Places.{capped};
ghost use Rattle.flac_bits.specs.Windows.{IsTop, IsWindow, IsFull, IsAfter, PassesOne, place_of};

/// So many bits on top of a word, zeros after them, and the byte of the buffer that comes next.
#[derive(Clone, Copy)]
pub struct Window {
    pub word: u64,
    pub count: u32,
    pub next: usize,
}

/// How many zeros stood before a one, and the window after it.
#[derive(Clone, Copy)]
pub struct Zeros {
    pub count: u64,
    pub window: Window,
}

/// More zeros are counted as this many.
const MOST_ZEROS: u64 = 1 << 32;

// The eight bytes from a place as one number, the first on top.
#[inline(always)]
fn word(bytes: &[u8], at: usize) -> u64
    requires { at + 8 ≤ length bytes.now }
    ensures { IsTop result 64 (drop (8 * at) (all_bits bytes.now)) }
{
    u64::from_be_bytes([
        bytes[at],
        bytes[at + 1],
        bytes[at + 2],
        bytes[at + 3],
        bytes[at + 4],
        bytes[at + 5],
        bytes[at + 6],
        bytes[at + 7],
    ])
}

// The number that fewer than eight bytes are.
fn number(bytes: &[u8]) -> u64
    requires { length bytes.now < 8 }
    ensures { result ≡ number_of (all_bits bytes.now) }
{
    let mut sum = 0u64;
    for byte in bytes {
        sum = sum * 256 + u64::from(*byte);
    }
    sum
}

// The bits of the last bytes, without so many of the first.
#[cold]
#[inline(never)]
fn last_bits(bytes: &[u8], at: usize, used: u32) -> Window
    requires within { at ≤ length bytes.now }
    requires last { length bytes.now - at < 8 }
    requires used { used < 8 }
    requires inside { 8 * at + used ≤ 8 * length bytes.now }
    ensures place { place_of result ≡ 8 * at + used }
    ensures is { IsWindow bytes.now result }
    ensures all { result.next ≡ length bytes.now }
{
    let left = bytes.len() - at;
    if left == 0 {
        return Window {
            word: 0,
            count: 0,
            next: at,
        };
    }
    let all = number(&bytes[at..]) << (64 - 8 * left);
    Window {
        word: all << used,
        count: 8 * left as u32 - used,
        next: bytes.len(),
    }
}

/// The bits from a byte on, without so many of the first, as many as a word holds.
#[inline(always)]
pub fn window_at(bytes: &[u8], at: usize, used: u32) -> Window
    requires within { at ≤ length bytes.now }
    requires used { used < 8 }
    requires inside { 8 * at + used ≤ 8 * length bytes.now }
    ensures place { place_of result ≡ 8 * at + used }
    ensures is { IsWindow bytes.now result }
    ensures full { IsFull bytes.now result }
{
    if bytes.len() - at < 8 {
        return last_bits(bytes, at, used);
    }
    whole_window(bytes, at, used)
}

/// The same where eight bytes stand there.
#[inline(always)]
pub fn whole_window(bytes: &[u8], at: usize, used: u32) -> Window
    requires within { at + 8 ≤ length bytes.now }
    requires used { used < 8 }
    ensures place { place_of result ≡ 8 * at + used }
    ensures is { IsWindow bytes.now result }
    ensures count { result.count ≡ 64 - used }
{
    Window {
        word: word(bytes, at) << used,
        count: 64 - used,
        next: at + 8,
    }
}

/// The same window with as many bits as it can hold, at least 57 where so many are left.
#[inline(always)]
pub fn filled(bytes: &[u8], window: Window) -> Window
    requires { IsWindow bytes.now window }
    ensures place { place_of result ≡ place_of window }
    ensures is { IsWindow bytes.now result }
    ensures full { IsFull bytes.now result }
{
    let behind = (window.count + 7) / 8;
    window_at(
        bytes,
        window.next - behind as usize,
        8 * behind - window.count,
    )
}

/// The window after so many of its bits.
#[inline(always)]
pub fn after(window: Window, count: u32) -> Window
    requires within { count ≤ window.count }
    requires few { count < 64 }
    ensures is { IsAfter window result count }
    ensures left { result.count ≡ window.count - count }
{
    Window {
        word: window.word << count,
        count: window.count - count,
        next: window.next,
    }
}

/// The window after so many zeros and a one.
#[inline(always)]
pub fn after_one(window: Window, zeros: u32) -> Window
    requires within { zeros < window.count }
    requires few { zeros < 64 }
    ensures is { IsAfter window result (zeros + 1) }
    ensures left { result.count ≡ window.count - (zeros + 1) }
{
    Window {
        word: (window.word << zeros) << 1,
        count: window.count - (zeros + 1),
        next: window.next,
    }
}

/// So many bits on top of a word.
#[inline(always)]
pub fn top(word: u64, count: u32) -> u64
    requires { count < 64 }
    ensures is { (m : ℕ) (bits : Bits) → IsTop word m bits → count ≤ m → result ≡ number_of (take count bits) }
    ensures fits { result < 2 ^ count }
{
    (word >> 1) >> (63 - count)
}

/// Two to the power of the count.
#[inline(always)]
pub fn power(count: u32) -> u64
    requires { count < 57 }
    ensures { result ≡ 2 ^ count }
{
    1u64 << count
}

/// So many bits after the zeros and the one on top of a word, which are taken with that one by a single shift.
#[inline(always)]
pub fn low_bits(word: u64, zeros: u32, count: u32) -> u64
    requires inside { zeros + 1 + count ≤ 57 }
    requires large { 2 ^ (64 - zeros) ≤ 2 * word + 1 }
    requires small { word < 2 ^ (64 - zeros) }
    ensures is { (m : ℕ) (bits : Bits) → IsTop word m bits → first_one bits ≡ Some zeros → zeros + 1 + count ≤ m → result ≡ number_of (take count (drop (zeros + 1) bits)) }
    ensures fits { result < 2 ^ count }
{
    (word >> (63 - (zeros + count))) - power(count)
}

/// How many zeros stand on top of a word.
#[inline(always)]
pub fn zeros_of(word: u64) -> u32
    ensures few { result ≤ 64 }
    ensures large { 2 ^ (64 - result) ≤ 2 * word + 1 }
    ensures small { word < 2 ^ (64 - result) }
    ensures first { (m : ℕ) (bits : Bits) → IsTop word m bits → result < m → first_one bits ≡ Some result }
    ensures none { (m : ℕ) (bits : Bits) → IsTop word m bits → m ≤ result → number_of (take m bits) ≡ 0 }
{
    word.leading_zeros()
}

fn capped(count: u64) -> u64
    requires { count < 2 ^ 33 }
    ensures { result ≡ capped count }
{
    if count < MOST_ZEROS {
        count
    } else {
        MOST_ZEROS
    }
}

/// Passes over zeros and a one, however many zeros there are.
#[cold]
#[inline(never)]
pub fn zeros_from(bytes: &[u8], window: Window) -> Option<Zeros>
    requires { IsWindow bytes.now window }
    ensures { PassesOne result bytes.now (place_of window) }
{
    let mut ahead = filled(bytes, window);
    let mut passed = 0u64;
    while ahead.count > 0 {
        let zeros = zeros_of(ahead.word);
        if zeros < ahead.count {
            return Some(Zeros {
                count: capped(passed + u64::from(zeros)),
                window: after_one(ahead, zeros),
            });
        }
        passed = capped(passed + u64::from(ahead.count));
        ahead = filled(
            bytes,
            Window {
                word: 0,
                count: 0,
                next: ahead.next,
            },
        );
    }
    None
}
