//! Sixteen words in place of all words so far.
//!
//! With y = x^64 the polynomial y^16 + y^15 + y^2 + 1 is the 64th power of x^16 + x^15 + x^2 + 1, and so a multiple of
//! it. So a word above sixteen others may be added to the second, to the fifteenth and to the one after all instead.
ghost use Rattle.std.specs.Prelude.{◌≡◌, ◌+◌, ◌*◌, ◌%◌, ◌≤◌, length, take, drop};
ghost use Rattle.spec_bits.specs.Bits.{bits_of, all_bits};
ghost use Rattle.spec_checksums.specs.Polynomials.{poly_16, steps};
ghost use Rattle.flac_checksums.specs.Registers.{register, words_bits};
ghost use Rattle.flac_checksums.specs.Sixteen.{words_of};

/// Sixteen words, the first on top.
#[derive(Clone, Copy)]
pub struct Words {
    pub a: u64,
    pub b: u64,
    pub c: u64,
    pub d: u64,
    pub e: u64,
    pub f: u64,
    pub g: u64,
    pub h: u64,
    pub i: u64,
    pub j: u64,
    pub k: u64,
    pub l: u64,
    pub m: u64,
    pub n: u64,
    pub o: u64,
    pub p: u64,
}

const NONE: Words = Words {
    a: 0,
    b: 0,
    c: 0,
    d: 0,
    e: 0,
    f: 0,
    g: 0,
    h: 0,
    i: 0,
    j: 0,
    k: 0,
    l: 0,
    m: 0,
    n: 0,
    o: 0,
    p: 0,
};

/// How many bytes are folded at once.
pub const BLOCK: usize = 32;

/// As many bytes as the words are, after which each word has the name again that it began with: no word is moved.
const ROUND: usize = 128;

// The eight bytes from a place as one number, the first on top.
#[inline(always)]
fn word(bytes: &[u8], at: usize) -> u64
    requires { at + 8 ≤ length bytes.now }
    ensures { bits_of 64 result ≡ all_bits (take 8 (drop at bytes.now)) }
{
    u64::from_be_bytes([
        bytes[at],
        bytes[at + 1],
        bytes[at + 2],
        bytes[at + 3],
        bytes[at + 4],
        bytes[at + 5],
        bytes[at + 6],
        bytes[at + 7],
    ])
}

// The words after one more.
#[inline(always)]
fn step(words: Words, word: u64) -> Words
    ensures { register (words_bits (words_of result)) ≡ steps poly_16 (register (words_bits (words_of words))) (bits_of 64 word) }
{
    let top = words.a;
    Words {
        a: words.b ^ top,
        b: words.c,
        c: words.d,
        d: words.e,
        e: words.f,
        f: words.g,
        g: words.h,
        h: words.i,
        i: words.j,
        j: words.k,
        k: words.l,
        l: words.m,
        m: words.n,
        n: words.o ^ top,
        o: words.p,
        p: word ^ top,
    }
}

// The words after the next block.
#[inline(always)]
fn stepped(words: Words, bytes: &[u8], at: usize) -> Words
    requires { at + 32 ≤ length bytes.now }
    ensures { register (words_bits (words_of result)) ≡ steps poly_16 (register (words_bits (words_of words))) (all_bits (take 32 (drop at bytes.now))) }
{
    let first = step(words, word(bytes, at));
    let second = step(first, word(bytes, at + 8));
    let third = step(second, word(bytes, at + 16));
    step(third, word(bytes, at + 24))
}

// The words after the next four blocks.
#[inline(always)]
fn after_round(words: Words, bytes: &[u8], at: usize) -> Words
    requires { at + 128 ≤ length bytes.now }
    ensures { register (words_bits (words_of result)) ≡ steps poly_16 (register (words_bits (words_of words))) (all_bits (take 128 (drop at bytes.now))) }
{
    let first = stepped(words, bytes, at);
    let second = stepped(first, bytes, at + 32);
    let third = stepped(second, bytes, at + 64);
    stepped(third, bytes, at + 96)
}

/// Words with the remainder of the bytes, which are whole blocks.
pub fn folded(bytes: &[u8]) -> Words
    requires { length bytes.now % 32 ≡ 0 }
    ensures { register (words_bits (words_of result)) ≡ register (all_bits bytes.now) }
{
    let mut words = NONE;
    let rounds = bytes.len() / ROUND;
    for round in 0..rounds {
        words = after_round(words, bytes, ROUND * round);
    }
    for block in 4 * rounds..bytes.len() / BLOCK {
        words = stepped(words, bytes, BLOCK * block);
    }
    words
}
