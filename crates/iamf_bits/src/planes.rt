ghost use Rattle.std.specs.Prelude.{◌≡◌, ◌+◌, ◌*◌, ◌<◌, ◌≤◌, pos, length, replicate, IfOk};
ghost use Rattle.std.specs.Borrow.{sem};
ghost use Rattle.iamf_bits.specs.Rows.{sample_of, with_sample};
ghost use Rattle.iamf_bits.specs.Lending.{LendsSamples};

use std::alloc::{AllocError, Global};
use std::marker::Model;

#[cfg(test)]
mod tests;

/// Rows of samples, one for each channel.
///
/// Contracts see it as the number of rows, their length, and all samples, those of a row before those of the next.
#[derive(Drop)]
pub struct Planes {
    samples: Vec<i64>,
    channels: usize,
    length: usize,
}

impl Model for Planes {
    ghost use Rattle.std.specs.Prelude.{◌≡◌, ◌*◌, ◌≤◌, vec_len};
    ghost use Rattle.iamf_bits.specs.Rows.{Rows};

    ghost Value = { Rows };

    ghost view = { λ p. record { channels = p.channels; length = p.length; samples = p.samples.items } };

    ghost invariant = { λ p. (vec_len p.samples ≡ p.channels * p.length) × (p.channels ≤ 255) × (p.length ≤ 65535) };
}

impl Planes {
    /// So many rows, at most 255, of so many samples, at most 65535, all 0. The only error is want of memory.
    pub fn new(alloc: Global, channels: usize, length: usize) -> Result<Planes, AllocError>
        requires channels { channels ≤ 255 }
        requires length { length ≤ 65535 }
        ensures channels { IfOk result (λ p. p.channels ≡ channels) }
        ensures length { IfOk result (λ p. p.length ≡ length) }
        ensures zero { IfOk result (λ p. p.samples ≡ replicate (channels * length) (pos 0)) }
    {
        Ok(Planes {
            samples: vec![in alloc; 0i64; channels * length]?,
            channels,
            length,
        })
    }

    /// How many rows there are.
    #[inline]
    pub fn channels(&self) -> usize
        ensures is { result ≡ self.now.channels }
        ensures few { result ≤ 255 }
    {
        self.channels
    }

    /// How many samples a row has.
    #[inline]
    pub fn length(&self) -> usize
        ensures is { result ≡ self.now.length }
        ensures few { result ≤ 65535 }
        ensures whole { length self.now.samples ≡ self.now.channels * result }
    {
        self.length
    }

    /// Sample `n` of row `c`.
    #[inline]
    pub fn at(&self, c: usize, n: usize) -> i64
        requires channel { c < self.now.channels }
        requires within { n < self.now.length }
        ensures { result ≡ sample_of self.now c n }
    {
        self.samples[c * self.length + n]
    }

    /// Sets sample `n` of row `c`, and no other.
    #[inline]
    pub fn set(&mut self, c: usize, n: usize, value: i64)
        requires channel { c < self.old.channels }
        requires within { n < self.old.length }
        ensures { self.new ≡ with_sample self.old c n value }
    {
        self.samples[c * self.length + n] = value;
    }

    /// All samples, row after row.
    #[inline]
    pub fn samples_mut(&mut self) -> &mut [i64]
        ensures* writes_back { sem 𝓛 (LendsSamples self.entry result) }
        ensures value { result.now ≡ self.old.samples }
    {
        self.samples.as_mut_slice()
    }
}
