//! The player.

ghost use Rattle.std.specs.Prelude.{◌≡◌, ℕ, ◌+◌, ◌-◌, ◌*◌, ◌<◌, ◌≤◌, IfOk, length};
ghost use Rattle.std.specs.Borrow.{sem};
ghost use Rattle.spec_waves.specs.Wave.{IsShape, header_bytes, pad};
ghost use Rattle.wav_io.specs.Views.{shape_of};
ghost use Rattle.spec_play.specs.Mixes.{Rendition};
ghost use Rattle.spec_play.specs.Waves.{wave_shape};
ghost use Rattle.spec_play.specs.FixedMix.{fixed_mix};
ghost use Rattle.spec_play.specs.Playing.{unit_bytes};
ghost use Rattle.iamf_select.specs.PlanView.{IsSelected};
ghost use Rattle.iamf_play.specs.Mixing.{kept_of, first_of};

use crate::reserved::Reserved;
use crate::reserving::reserve;
use iamf_select::Plan;
use std::alloc::{AllocError, Global};
use std::marker::Model;
use wav_io::{WaveShape, header};

/// Plays the units of a plan in their order. Contracts see the plan, and how many units were played.
#[derive(Drop)]
pub struct Player<'s, 'a> {
    plan: Plan<'s, 'a>,
    played: usize,
    reserved: Reserved<'s, 'a>,
}

impl<'s, 'a> Model for Player<'s, 'a> {
    ghost use Rattle.iamf_play.specs.Playback.{PlayerValue, IsPlayback};

    ghost Value = { PlayerValue };

    ghost view = { λ p. record { plan = p.plan; played = p.played } };

    ghost invariant = { λ p. IsPlayback (record { plan = p.plan; played = p.played }) p.reserved };
}

/// The byte that makes the number of bytes of all samples even: 1, or 0 where it is even.
fn pad_of(shape: WaveShape) -> usize
    requires { IsShape (shape_of shape) }
    ensures { result ≡ pad (shape_of shape) }
{
    let align = u64::from(shape.channels) * u64::from(shape.depth / 8);
    (shape.frames * align % 2) as usize
}

impl<'s, 'a> Player<'s, 'a> {
    ghost use Rattle.iamf_play.specs.Ending.{EndsPlayed};

    /// Takes all memory that playing needs: no other call takes any. The only error is want of memory.
    pub fn new(alloc: Global, plan: Plan<'s, 'a>) -> Result<Player<'s, 'a>, AllocError>
        ensures { IfOk result (λ p. p ≡ record { plan = plan.entry; played = 0 }) }
    {
        plan.one_rendition();
        let reserved = reserve(alloc, &plan)?;
        Ok(Player {
            plan,
            played: 0,
            reserved,
        })
    }

    /// How many units the plan has.
    pub fn unit_count(&self) -> usize
        ensures { (r : Rendition) → IsSelected self.now.plan r → result ≡ length r.units }
    {
        self.plan.sequence().unit_count()
    }

    /// The first 68 bytes of the WAV file.
    pub fn wave_head(&self) -> [u8; 68]
        ensures { (r : Rendition) → IsSelected self.now.plan r → result ≡ header_bytes (wave_shape r) }
    {
        header(self.reserved.shape)
    }

    /// How many bytes 0 make the number of bytes of the samples even: 0 or 1.
    pub fn pad(&self) -> usize
        ensures { (r : Rendition) → IsSelected self.now.plan r → result ≡ pad (wave_shape r) }
    {
        pad_of(self.reserved.shape)
    }

    /// Plays unit `u`, which is as many as were played.
    pub fn play(&mut self, u: usize)
        requires next { u ≡ self.old.played }
        requires unit { (r : Rendition) → IsSelected self.old.plan r → u < length r.units }
        ensures { self.new ≡ record { plan = self.old.plan; played = u + 1 } }
    {
        let sequence = self.plan.sequence();
        self.reserved.play(sequence, u);
        self.played = u + 1;
    }

    /// The bytes of the unit that was played last.
    pub fn bytes(&self) -> &[u8]
        requires { 1 ≤ self.now.played }
        ensures { (r : Rendition) → IsSelected self.now.plan r → result.now ≡ unit_bytes r (self.now.played - 1) }
    {
        let shape = self.reserved.shape;
        let values = self.reserved.kept * usize::from(shape.channels);
        &self.reserved.bytes.as_slice()[..values * usize::from(shape.depth / 8)]
    }

    /// Plays unit `u`, which is as many as were played, and gives its bytes: `play` and `bytes` in a row.
    pub fn play_unit(&mut self, u: usize) -> &[u8]
        requires next { u ≡ self.old.played }
        requires unit { (r : Rendition) → IsSelected self.old.plan r → u < length r.units }
        ensures* ends { sem 𝓛 (EndsPlayed self.entry u) }
        ensures bytes { (r : Rendition) → IsSelected self.old.plan r → result.now ≡ unit_bytes r u }
    {
        self.play(u);
        self.bytes()
    }

    /// The value of kept sample `n` in channel `c` of the unit that was played last, in units of 1/2^28.
    pub fn mixed(&self, n: usize, c: usize) -> i128
        requires begun { 1 ≤ self.now.played }
        requires sample { (r : Rendition) → IsSelected self.now.plan r → n < kept_of r (self.now.played - 1) }
        requires channel { (r : Rendition) → IsSelected self.now.plan r → c < (wave_shape r).channels }
        ensures { (r : Rendition) → IsSelected self.now.plan r → result ≡ fixed_mix r (record { unit = self.now.played - 1; sample = first_of r (self.now.played - 1) + n; channel = c }) }
    {
        self.reserved.mixed[n * usize::from(self.reserved.shape.channels) + c]
    }
}
