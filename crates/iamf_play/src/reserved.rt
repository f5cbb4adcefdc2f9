//! What a player reserves before the first unit is played.

ghost use Rattle.std.specs.Prelude.{◌≡◌, ℕ, ◌+◌, ◌*◌, ◌/◌, ◌^◌, ◌<◌, ◌≤◌, All, IsTrue, IfOk, length, take, unsigned_abs};
ghost use Rattle.std.specs.List.{flat_map};
ghost use Rattle.spec_samples.specs.Lpcm.{is_depth};
ghost use Rattle.spec_play.specs.Mixes.{Rendition};
ghost use Rattle.iamf_mixing.specs.Bytes.{mixed_bytes};
ghost use Rattle.iamf_play.specs.Mixing.{kept_by};

use crate::element::PlayedElement;
use crate::gains::UnitGains;
use crate::mix::{begin_elements, mix_unit};
use iamf_mixing::put_samples;
use iamf_sequence::Sequence;
use spec_obu::Trim;
use wav_io::WaveShape;

/// The elements and gains of a mix, and room for the values and the bytes of a unit.
#[derive(Drop)]
pub(crate) struct Reserved<'s, 'a> {
    pub(crate) elements: Vec<PlayedElement<'s, 'a>>,
    pub(crate) output: UnitGains<'s>,
    pub(crate) shape: WaveShape,
    /// How many samples of a channel were kept of the unit that was played last.
    pub(crate) kept: usize,
    /// Their values in units of 1/2^28: at each sample each channel.
    pub(crate) mixed: Vec<i128>,
    /// And their bytes.
    pub(crate) bytes: Vec<u8>,
}

/// Writes the first so many values as samples of a depth into the first of the bytes.
fn put_kept(mixed: &[i128], count: usize, depth: u8, bytes: &mut [u8])
    requires count { count ≤ length mixed.now }
    requires mixed { All (λ z. unsigned_abs z < 2 ^ 126) (take count mixed.now) }
    requires depth { IsTrue (is_depth depth) }
    requires room { count * (depth / 8) ≤ length bytes.old }
    ensures { take (count * (depth / 8)) bytes.new ≡ flat_map (mixed_bytes depth) (take count mixed.now) }
{
    let size = usize::from(depth / 8);
    put_samples(&mixed[..count], depth, &mut bytes[..count * size]);
}

/// How many of the ticks of a unit the trims leave.
fn kept_ticks(ticks: usize, trim: Trim) -> usize
    ensures { result ≡ kept_by ticks trim }
{
    ticks.saturating_sub(trim.start as usize + trim.end as usize)
}

impl<'s, 'a> Reserved<'s, 'a> {
    ghost use Rattle.iamf_play.specs.Reserving.{IsReserved, HasPlayed};

    /// Plays unit `u`. The units before it have been played, in their order.
    pub(crate) fn play(&mut self, sequence: &Sequence<'a>, u: usize)
        requires { (r : Rendition) × IsReserved sequence.now r u self.old × (u < length r.units) }
        ensures reserved { (r : Rendition) → IsReserved sequence.now r u self.old → IsReserved sequence.now r (u + 1) self.new }
        ensures played { (r : Rendition) → IsReserved sequence.now r u self.old → HasPlayed r u self.new }
    {
        let trim = sequence.unit(u).trim();
        let kept = kept_ticks(self.output.row.as_slice().len(), trim);
        begin_elements(self.elements.as_mut_slice(), sequence, u);
        self.output.fill(sequence, u);
        let channels = usize::from(self.shape.channels);
        mix_unit(
            self.elements.as_mut_slice(),
            self.output.row.as_slice(),
            trim.start as usize,
            kept,
            channels,
            self.mixed.as_mut_slice(),
        );
        put_kept(
            self.mixed.as_slice(),
            kept * channels,
            self.shape.depth,
            self.bytes.as_mut_slice(),
        );
        self.kept = kept;
    }
}
