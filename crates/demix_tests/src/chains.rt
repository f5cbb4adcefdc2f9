//! Each allowed chain of layers in each mode, at the ends of 32-bit samples: the kernel's channels against the exact ones,
//! and the downmix of the exact ones against the coded samples.

use crate::layers::{assert_layers, layer};
use demix_channels::{are_samples, is_chain, kind};
use demix_layers::{Fraction, demix_exact, to_units};
use iamf_tables::{
    Channel, Layout, channel_at, channel_count, demix_mode, gain, new_channels, weight,
};
use mix_fixed::{DemixParams, Kernel};
use obu_element_config::{Layer, OutputGain};
use spec_demix::Kind;
use std::process::Abort;
use std::test::Fail;

/// Each before those that may follow it.
const LAYOUTS: [Layout; 9] = [
    Layout::Mono,
    Layout::Stereo,
    Layout::L312,
    Layout::L51,
    Layout::L512,
    Layout::L514,
    Layout::L71,
    Layout::L712,
    Layout::L714,
];

/// A prime number. Downmixes of fractions are compared by their residues, in which two that differ agree once in 2^61 cases.
const PRIME: u64 = 0x1fff_ffff_ffff_ffff;

fn times(a: u64, b: u64) -> u64 {
    (u128::from(a) * u128::from(b) % u128::from(PRIME)) as u64
}

fn plus(a: u64, b: u64) -> u64 {
    ((u128::from(a) + u128::from(b)) % u128::from(PRIME)) as u64
}

/// The power of a with the exponent PRIME - 2, which is its inverse. The exponent has 61 bits, all 1 but the last but one.
fn inverse(a: u64) -> u64 {
    let mut power = 1;
    for i in 0..61 {
        power = times(power, power);
        if i != 59 {
            power = times(power, a);
        }
    }
    power
}

fn over(top: i128, bottom: i128) -> u64 {
    let prime = i128::from(PRIME);
    let top = top.rem_euclid(prime) as u64;
    let bottom = bottom.rem_euclid(prime) as u64;
    times(top, inverse(bottom))
}

/// One side of the target's channels.
#[derive(Drop)]
struct Ear {
    front: u64,
    surround: u64,
    side: u64,
    rear: u64,
    top: u64,
    top_back: u64,
}

/// The target's channels and what they are mixed by.
#[derive(Drop)]
struct Heard {
    kind: Kind,
    mono: u64,
    center: u64,
    low: u64,
    left: Ear,
    right: Ear,
    center_part: u64,
    alpha: u64,
    beta: u64,
    gamma: u64,
    delta: u64,
    weight: u64,
}

/// A channel of the target, 0 where it has none.
fn channel_of(layout: Layout, x: &[Fraction], channel: Channel) -> u64 {
    for i in 0..channel_count(layout) {
        if i < x.len() && channel_at(layout, i) == channel {
            return over(x[i].top, x[i].bottom);
        }
    }
    0
}

fn hear(layout: Layout, x: &[Fraction], params: DemixParams) -> Heard {
    let of = |channel| channel_of(layout, x, channel);
    let part = |top: u32, bottom: i128| over(i128::from(top), bottom);
    Heard {
        kind: kind(layout),
        mono: of(Channel::M),
        center: of(Channel::C),
        low: of(Channel::Lfe),
        left: Ear {
            front: of(Channel::L),
            surround: of(Channel::Ls),
            side: of(Channel::Lss),
            rear: of(Channel::Lrs),
            top: of(Channel::Ltf),
            top_back: of(Channel::Ltb),
        },
        right: Ear {
            front: of(Channel::R),
            surround: of(Channel::Rs),
            side: of(Channel::Rss),
            rear: of(Channel::Rrs),
            top: of(Channel::Rtf),
            top_back: of(Channel::Rtb),
        },
        center_part: part(707, 1000),
        alpha: part(params.mode.alpha, 1000),
        beta: part(params.mode.beta, 1000),
        gamma: part(params.mode.gamma, 1000),
        delta: part(params.mode.delta, 1000),
        weight: part(params.weight, 10_000),
    }
}

impl Heard {
    /// A surround of 5.1.
    fn surround(&self, ear: &Ear) -> u64 {
        if self.kind.surround < 7 {
            ear.surround
        } else {
            plus(times(self.alpha, ear.side), times(self.beta, ear.rear))
        }
    }

    /// Left or right of 3.1.2.
    fn three(&self, ear: &Ear) -> u64 {
        if self.kind.surround < 5 {
            ear.front
        } else {
            plus(ear.front, times(self.delta, self.surround(ear)))
        }
    }

    /// Left or right of stereo.
    fn two(&self, ear: &Ear) -> u64 {
        if self.kind.surround < 3 {
            ear.front
        } else {
            plus(self.three(ear), times(self.center_part, self.center))
        }
    }

    fn mono(&self) -> u64 {
        if self.kind.surround < 2 {
            self.mono
        } else {
            times(
                plus(self.two(&self.left), self.two(&self.right)),
                inverse(2),
            )
        }
    }

    /// A top of two.
    fn top_two(&self, ear: &Ear) -> u64 {
        if self.kind.height < 4 {
            ear.top
        } else {
            plus(ear.top, times(self.gamma, ear.top_back))
        }
    }

    /// A top of 3.1.2.
    fn top_three(&self, ear: &Ear) -> u64 {
        if self.kind.surround < 5 {
            ear.top
        } else {
            let share = times(self.weight, times(self.delta, self.surround(ear)));
            plus(self.top_two(ear), share)
        }
    }

    /// A channel of the downmix to a layout.
    fn downmix(&self, to: Kind, channel: Channel) -> u64 {
        let ear = match channel {
            Channel::R | Channel::Rs | Channel::Rss | Channel::Rrs | Channel::Rtf | Channel::Rtb =>
                &self.right,
            _ => &self.left,
        };
        match channel {
            Channel::M => self.mono(),
            Channel::C => self.center,
            Channel::Lfe => self.low,
            Channel::L | Channel::R => match to.surround {
                2 => self.two(ear),
                3 => self.three(ear),
                _ => ear.front,
            },
            Channel::Ls | Channel::Rs => self.surround(ear),
            Channel::Lss | Channel::Rss => ear.side,
            Channel::Lrs | Channel::Rrs => ear.rear,
            Channel::Ltf | Channel::Rtf => match (to.surround, to.height) {
                (3, _) => self.top_three(ear),
                (_, 2) => self.top_two(ear),
                _ => ear.top,
            },
            Channel::Ltb | Channel::Rtb => ear.top_back,
        }
    }
}

/// Whether an output gain for all channels acts on one that a layer of this layout transmits.
fn is_gained(layout: Layout, channel: Channel) -> bool {
    match channel {
        Channel::M | Channel::Ltf | Channel::Rtf => true,
        Channel::L | Channel::R => layout == Layout::Stereo || layout == Layout::L312,
        Channel::Ls | Channel::Rs => {
            layout == Layout::L51 || layout == Layout::L512 || layout == Layout::L514
        }
        _ => false,
    }
}

/// A coded sample times the output gain of its layer, where that acts on its channel.
fn sent(layer: &Layer, channel: Channel, sample: i64) -> u64 {
    let sample = over(i128::from(sample), 1);
    match layer.gain {
        Some(output) if is_gained(layer.layout, channel) => {
            times(
                sample,
                over(i128::from(gain(output.gain)), 1_000_000_000_000),
            )
        }
        _ => sample,
    }
}

/// Asserts that what each layer transmits is the downmix to it.
fn assert_downmix(rt: &impl Abort, layers: &[Layer], heard: &Heard, coded: &[i64; 12]) {
    let mut place = 0;
    let mut before = None;
    for layer in layers {
        let new = new_channels(before, layer.layout).expect(rt, "an allowed step");
        assert!(rt; new.pairs() <= 6);
        assert!(rt; new.singles() <= 3);
        for i in 0..2 * new.pairs() + new.singles() {
            let channel = new.at(i);
            let value = if 2 * new.pairs() <= i && channel == Channel::L {
                heard.two(&heard.left)
            } else {
                heard.downmix(kind(layer.layout), channel)
            };
            assert!(rt; place < 12);
            assert_eq!(rt; value, sent(layer, channel, coded[place]));
            place += 1;
        }
        before = Some(layer.layout);
    }
}

/// A fraction in units.
fn units(rt: &impl Abort, value: Fraction) -> i128 {
    let bottom = value.bottom.unsigned_abs();
    assert!(rt; bottom < 1 << 80);
    assert!(rt; value.top.unsigned_abs() < (1 << 39) * bottom);
    to_units(value)
}

/// Compares kernel, exact demix and downmix of a chain of layers, of which the last has so many channels.
fn compare<const C: usize>(
    rt: &impl Abort,
    layers: &[Layer],
    code: u8,
    index: u8,
    coded: &[i64; 12],
) {
    assert!(rt; 0 < layers.len());
    let target = layers.len() - 1;
    assert_layers(rt, layers, target, C);
    assert!(rt; C <= 12);
    assert!(rt; are_samples(coded));
    assert!(rt; code < 8);
    let params = DemixParams {
        mode: demix_mode(code).expect(rt, "a mode that is not reserved"),
        weight: weight(index),
    };
    let mut exact = [Fraction { top: 0, bottom: 1 }; C];
    demix_exact(layers, target, params, coded, &mut exact);
    let mut fixed = [0; C];
    Kernel::new(layers, target).demix(params, coded, &mut fixed);
    for (x, channel) in exact.iter().zip(fixed.iter()) {
        assert!(rt; units(rt, *x).abs_diff(*channel) < 64);
    }
    let heard = hear(layers[target].layout, &exact, params);
    assert_downmix(rt, layers, &heard, coded);
}

/// Coded samples at the ends of 32 bits: the least where a bit of `ends` is 1, from the lowest.
fn samples(ends: u16) -> [i64; 12] {
    let mut rest = ends;
    let mut coded = [0; 12];
    for sample in coded.iter_mut() {
        *sample = if rest % 2 == 1 {
            -0x8000_0000
        } else {
            0x7fff_ffff
        };
        rest /= 2;
    }
    coded
}

fn compare_chain(rt: &impl Abort, layers: &[Layer]) {
    assert!(rt; 0 < layers.len());
    let count = channel_count(layers[layers.len() - 1].layout);
    for code in [0, 1, 2, 4, 5, 6] {
        for index in [0, 5, 10] {
            for ends in [0, 0xfff, 0x555, 0x333] {
                let coded = samples(ends);
                match count {
                    1 => compare::<1>(rt, layers, code, index, &coded),
                    2 => compare::<2>(rt, layers, code, index, &coded),
                    6 => compare::<6>(rt, layers, code, index, &coded),
                    8 => compare::<8>(rt, layers, code, index, &coded),
                    10 => compare::<10>(rt, layers, code, index, &coded),
                    _ => compare::<12>(rt, layers, code, index, &coded),
                }
            }
        }
    }
}

#[test]
fn all_chains(rt: HostRuntime) -> Result<(), Fail> {
    for gain in [
        None,
        Some(OutputGain {
            flags: 0x3f,
            gain: 8192,
        }),
    ] {
        for chain in 1..0x200u32 {
            let mut layers = Vec::new(rt.alloc());
            let mut rest = chain;
            for layout in LAYOUTS {
                if rest % 2 == 1 {
                    layers.push(Layer {
                        gain,
                        ..layer(layout)
                    })?;
                }
                rest /= 2;
            }
            assert!(rt; 0 < layers.len());
            let layers = layers.as_slice();
            if is_chain(layers, layers.len() - 1) {
                compare_chain(&rt, layers);
            }
        }
    }
    Ok(())
}
