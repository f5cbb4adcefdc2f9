//! The channels that a layer of an audio element transmits.

ghost use Rattle.std.specs.Prelude.{◌≡◌, ℕ, ◌+◌, ◌*◌, ◌<◌, ◌≤◌, ◌++◌, [], ◌∷◌, Bool, length, slice_index_or, Some, None, IsSome, IfSome, IsTrue, ◌↔◌};
ghost use Rattle.arrayvec.specs.ArrayVec.{array_vec_len};
ghost use Rattle.spec_layouts.specs.Steps.{IsAllowed, is_allowed, is_step};
ghost use Rattle.spec_layouts.specs.Transmitted.{Transmission, pairs_of, singles_of, transmitted, in_coded_order, row, first_pairs, first_singles, next_pairs, next_singles, reaches};

use crate::table::{has, height, surround};
use arrayvec::ArrayVec;
use spec_layouts::{Channel, Layout};
use std::marker::Model;

/// The channels that one layer transmits: coupled pairs, each with its left channel first, and then single channels.
#[derive(Debug, Drop)]
pub struct Transmitted {
    pairs: ArrayVec<(Channel, Channel), 6>,
    singles: ArrayVec<Channel, 3>,
}

impl Model for Transmitted {
    ghost Value = { Transmission };

    ghost view = { λ layer. record { pairs = layer.pairs.items; singles = layer.singles.items } };
}

impl Transmitted {
    /// The number of coupled pairs, which is the layer's `coupled_substream_count`.
    pub fn pairs(&self) -> usize
        ensures { result ≡ length self.now.pairs }
    {
        self.pairs.len()
    }

    /// The number of single channels. With the pairs it makes the layer's `substream_count`.
    pub fn singles(&self) -> usize
        ensures { result ≡ length self.now.singles }
    {
        self.singles.len()
    }

    /// Channel `i`, counted from 0, in coded order: the two channels of each pair, and then the single ones.
    pub fn at(&self, i: usize) -> Channel
        requires { i < 2 * length self.now.pairs + length self.now.singles }
        ensures { result ≡ slice_index_or (in_coded_order self.now) i result }
    {
        let pairs = self.pairs.as_slice();
        if i < 2 * pairs.len() {
            let (left, right) = pairs[i / 2];
            if i % 2 == 0 { left } else { right }
        } else {
            self.singles.as_slice()[i - 2 * pairs.len()]
        }
    }
}

/// Adds a pair where its condition holds.
fn add_pair(pairs: &mut ArrayVec<(Channel, Channel), 6>, holds: bool, left: Channel, right: Channel)
    requires { array_vec_len pairs.old < 6 }
    ensures items { pairs.new.items ≡ pairs.old.items ++ row holds (left, right) }
    ensures len { array_vec_len pairs.new ≤ array_vec_len pairs.old + 1 }
{
    if holds {
        pairs.push((left, right));
    }
}

/// Adds a single channel where its condition holds.
fn add_single(singles: &mut ArrayVec<Channel, 3>, holds: bool, channel: Channel)
    requires { array_vec_len singles.old < 3 }
    ensures items { singles.new.items ≡ singles.old.items ++ row holds channel }
    ensures len { array_vec_len singles.new ≤ array_vec_len singles.old + 1 }
{
    if holds {
        singles.push(channel);
    }
}

/// The pairs of a first layer: those that its layout has.
#[tactic(auto, unfolding(spec_layouts::specs::Transmitted::first_pairs))]
fn pairs_of_first(now: Layout) -> ArrayVec<(Channel, Channel), 6>
    ensures { result.items ≡ first_pairs now }
{
    use Channel::{L, Lrs, Ls, Lss, Ltb, Ltf, R, Rrs, Rs, Rss, Rtb, Rtf};
    let mut pairs = ArrayVec::new();
    add_pair(&mut pairs, has(now, L), L, R);
    add_pair(&mut pairs, has(now, Ls), Ls, Rs);
    add_pair(&mut pairs, has(now, Lss), Lss, Rss);
    add_pair(&mut pairs, has(now, Lrs), Lrs, Rrs);
    add_pair(&mut pairs, has(now, Ltf), Ltf, Rtf);
    add_pair(&mut pairs, has(now, Ltb), Ltb, Rtb);
    pairs
}

/// The single channels of a first layer: those that its layout has.
#[tactic(auto, unfolding(spec_layouts::specs::Transmitted::first_singles))]
fn singles_of_first(now: Layout) -> ArrayVec<Channel, 3>
    ensures { result.items ≡ first_singles now }
{
    use Channel::{C, Lfe, M};
    let mut singles = ArrayVec::new();
    add_single(&mut singles, has(now, C), C);
    add_single(&mut singles, has(now, Lfe), Lfe);
    add_single(&mut singles, has(now, M), M);
    singles
}

/// Whether the surround count comes to a kind, or past it.
fn reaches(kind: u8, before: Layout, now: Layout) -> bool
    ensures { result ≡ reaches kind before now }
{
    surround(before) < kind && kind <= surround(now)
}

/// The pairs of a next layer.
#[tactic(auto, unfolding(spec_layouts::specs::Transmitted::next_pairs))]
fn pairs_of_next(before: Layout, now: Layout) -> ArrayVec<(Channel, Channel), 6>
    ensures { result.items ≡ next_pairs before now }
{
    use Channel::{L, Lss, Ltb, Ltf, R, Rss, Rtb, Rtf};
    let low = height(before);
    let high = height(now);
    let mut pairs = ArrayVec::new();
    add_pair(&mut pairs, reaches(5, before, now), L, R);
    add_pair(&mut pairs, reaches(7, before, now), Lss, Rss);
    let rises_in_front = (low == 0 && 0 < high) || (low == 2 && high == 4);
    add_pair(&mut pairs, rises_in_front, Ltf, Rtf);
    add_pair(&mut pairs, low == 0 && high == 4, Ltb, Rtb);
    pairs
}

/// The single channels of a next layer.
#[tactic(auto, unfolding(spec_layouts::specs::Transmitted::next_singles))]
fn singles_of_next(before: Layout, now: Layout) -> ArrayVec<Channel, 3>
    ensures { result.items ≡ next_singles before now }
{
    use Channel::{C, L, Lfe};
    let mut singles = ArrayVec::new();
    let reaches_center = reaches(3, before, now);
    add_single(&mut singles, reaches_center, C);
    add_single(&mut singles, reaches_center, Lfe);
    add_single(&mut singles, reaches(2, before, now), L);
    singles
}

/// Whether a layer of the layout `now` may follow one of the layout `before`.
#[tactic(auto, unfolding(spec_layouts::specs::Steps::is_step))]
fn is_step(before: Layout, now: Layout) -> bool
    ensures { result ≡ is_step before now }
{
    before != Layout::Binaural
        && now != Layout::Binaural
        && surround(before) <= surround(now)
        && height(before) <= height(now)
        && (surround(before) < surround(now) || height(before) < height(now))
}

/// The channels that a layer of the layout `now` transmits after a layer of the layout `before`, or as the first layer.
///
/// `None` exactly where the step is not allowed: one of the two is binaural, or a count of surround or height channels
/// falls, or neither rises. Any layout may be the first.
pub fn new_channels(before: Option<Layout>, now: Layout) -> Option<Transmitted>
    ensures allowed { IsSome result ↔ IsAllowed before now }
    ensures test { IsSome result ↔ IsTrue (is_allowed before now) }
    ensures pairs { IfSome result (λ layer. layer.pairs ≡ pairs_of before now) }
    ensures singles { IfSome result (λ layer. layer.singles ≡ singles_of before now) }
    ensures coded { IfSome result (λ layer. in_coded_order layer ≡ transmitted before now) }
{
    match before {
        None => Some(Transmitted {
            pairs: pairs_of_first(now),
            singles: singles_of_first(now),
        }),
        Some(before) => {
            if !is_step(before, now) {
                return None;
            }
            Some(Transmitted {
                pairs: pairs_of_next(before, now),
                singles: singles_of_next(before, now),
            })
        }
    }
}
