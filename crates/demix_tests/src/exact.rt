//! The channels of worked chains and the outputs of worked scenes, in units.

ghost use Rattle.std.specs.Prelude.{◌≡◌, ◌<◌, ◌⊎◌, ◌↔◌, IsTrue, All};

use crate::layers::{assert_layers, layer};
use demix_channels::are_samples;
use demix_layers::{DemixParams, Fraction, demix_exact, scene_exact, to_units};
use iamf_tables::{Layout, demix_mode};
use obu_element_config::{ElementConfig, Layer, OutputGain};
use std::process::Abort;

const UNIT: i128 = 0x1000_0000;

/// A fraction in units.
fn units(rt: &impl Abort, value: Fraction) -> i128 {
    let bottom = value.bottom.unsigned_abs();
    assert!(rt; bottom < 1 << 80);
    assert!(rt; value.top.unsigned_abs() < (1 << 39) * bottom);
    to_units(value)
}

/// Compares the channels of a target with some in units.
fn assert_demixed<const C: usize>(
    rt: &impl Abort,
    layers: &[Layer],
    code: u8,
    weight: u32,
    coded: &[i64],
    want: [i128; C],
) {
    assert!(rt; 0 < layers.len());
    let target = layers.len() - 1;
    assert_layers(rt, layers, target, C);
    assert!(rt; C <= coded.len());
    assert!(rt; are_samples(coded));
    assert!(rt; code < 8);
    assert!(rt; weight <= 5000);
    let mode = demix_mode(code).expect(rt, "a mode that is not reserved");
    let params = DemixParams { mode, weight };
    let mut out = [Fraction { top: 0, bottom: 1 }; C];
    demix_exact(layers, target, params, coded, &mut out);
    for (channel, units_wanted) in out.iter().zip(want.iter()) {
        assert_eq!(rt; units(rt, *channel), *units_wanted);
    }
}

#[test]
fn worked_chains(rt: HostRuntime) {
    let mono = layer(Layout::Mono);
    let stereo = layer(Layout::Stereo);
    let surround = layer(Layout::L51);
    assert_demixed(
        &rt,
        &[mono, stereo],
        0,
        0,
        &[100, 150],
        [150 * UNIT, 50 * UNIT],
    );

    // M; left and right of 5.1, C, Lfe and left of stereo. Right of stereo is 500, and so Rs is 500 over 0.707.
    let coded = [750, 293, 0, 0, 0, 1000];
    let want = [293 * UNIT, 0, 0, 0, 1000 * UNIT, 189_841_199_434];
    assert_demixed(&rt, &[mono, surround], 0, 0, &coded, want);

    let coded = [1000, 0, 293, 0, 0, 0];
    let want = [293 * UNIT, 0, 0, 0, 1000 * UNIT, 0];
    assert_demixed(&rt, &[stereo, surround], 0, 0, &coded, want);

    // An output gain of -6 dB for the left alone.
    let quieter = Layer {
        gain: Some(OutputGain {
            flags: 0x20,
            gain: -1536,
        }),
        ..stereo
    };
    assert_demixed(
        &rt,
        &[quieter],
        0,
        0,
        &[10_000, 10_000],
        [1_345_364_236_000, 10_000 * UNIT],
    );
}

#[test]
fn the_top_of_512_from_that_of_312(rt: HostRuntime) {
    let layers = [layer(Layout::L312), layer(Layout::L512)];
    // L, R, Ltf, Rtf, C and Lfe of 3.1.2, and L and R of 5.1.2.
    let coded = [1707, 0, 1000, 0, 0, 0, 1000, 0];
    // Ltf is 987.3447, 1000 and 972.3563.
    for (weight, top) in [
        (179, 265_038_324_773),
        (0, 1000 * UNIT),
        (391, 261_014_906_784),
    ] {
        let want = [1000 * UNIT, 0, 0, 0, 1000 * UNIT, 0, top, 0];
        assert_demixed(&rt, &layers, 4, weight, &coded, want);
    }
}

/// Whether a mapping has a substream below `count`, or silence, for each output.
fn is_mapping(mapping: &[u8], count: usize) -> bool
    ensures { IsTrue result ↔ All (λ n. (n ≡ 255) ⊎ (n < count)) mapping.now }
{
    mapping.iter().all(|n| *n == 255 || usize::from(*n) < count)
}

#[test]
fn worked_scenes(rt: HostRuntime) {
    let mapping = [0, 1, 2, 255];
    let coded = [7, -8, 0x7fff_ffff];
    let config = ElementConfig::Mono {
        outputs: 4,
        mapping: &mapping,
    };
    assert!(rt; is_mapping(&mapping, 3));
    assert!(rt; are_samples(&coded));
    for (c, want) in [(0, 7), (1, -8), (2, 0x7fff_ffff), (3, 0)] {
        assert!(rt; c < 4);
        assert_eq!(rt; units(&rt, scene_exact(&config, &coded, c)), want * UNIT);
    }

    // One channel, at a half.
    let config = ElementConfig::Projection {
        outputs: 1,
        substreams: 1,
        coupled: 0,
        matrix: &[0x40, 0x00],
    };
    let coded = [100];
    assert!(rt; are_samples(&coded));
    assert_eq!(rt; units(&rt, scene_exact(&config, &coded, 0)), 50 * UNIT);
}

#[test]
fn fractions_are_rounded_down(rt: HostRuntime) {
    for (top, bottom, want) in [
        (3, 2, 3 * UNIT / 2),
        (-1, 3, -89_478_486),
        (1, 3, 89_478_485),
    ] {
        assert!(rt; 0 < bottom);
        assert_eq!(rt; units(&rt, Fraction { top, bottom }), want);
    }
}
