//! Gains and roundings at their edges, and the channels of worked chains.

use crate::layers::{assert_layers, layer};
use demix_channels::are_samples;
use iamf_tables::{Layout, demix_mode};
use mix_fixed::{DemixParams, Kernel, apply_gain, round_clip};
use obu_element_config::{Layer, OutputGain};
use std::process::Abort;

const UNIT: i128 = 0x1000_0000;

#[test]
fn gains_are_rounded_down(rt: HostRuntime) {
    for (value, gain, want) in [
        (7, 1_000_000_000_000, 7),
        (-7, 1_000_000_000_000, -7),
        (3, 500_000_000_000, 1),
        (-3, 500_000_000_000, -2),
        (-1, 1, -1),
        (1, 39_810_717_055_340, 39),
        (10_000 * UNIT, 501_187_233_627, 1_345_364_236_000),
    ] {
        assert_eq!(rt; apply_gain(value, gain), want);
    }
}

#[test]
fn halves_are_rounded_upwards_and_samples_clipped_once(rt: HostRuntime) {
    for (value, depth, want) in [
        (UNIT / 2, 16, 1),
        (UNIT / 2 - 1, 16, 0),
        (-UNIT / 2, 16, 0),
        (-UNIT / 2 - 1, 16, -1),
        (32767 * UNIT + UNIT / 2, 16, 32767),
        (-40000 * UNIT, 16, -32768),
        (8388608 * UNIT, 24, 8388607),
        (UNIT, 1, 0),
        (-2 * UNIT, 1, -1),
        (0x7fff_ffff * UNIT, 32, 0x7fff_ffff),
        (-0x8000_0001 * UNIT, 32, -0x8000_0000),
    ] {
        assert!(rt; 1 <= depth);
        assert!(rt; depth <= 32);
        assert_eq!(rt; round_clip(value, depth), want);
    }
}

/// The channels of the last layer in units.
fn demixed<const C: usize>(
    rt: &impl Abort,
    layers: &[Layer],
    code: u8,
    weight: u32,
    coded: &[i64],
) -> [i128; C] {
    assert!(rt; 0 < layers.len());
    let target = layers.len() - 1;
    assert_layers(rt, layers, target, C);
    assert!(rt; C <= coded.len());
    assert!(rt; are_samples(coded));
    assert!(rt; code < 8);
    assert!(rt; weight <= 5000);
    let mode = demix_mode(code).expect(rt, "a mode that is not reserved");
    let params = DemixParams { mode, weight };
    let mut out = [0; C];
    Kernel::new(layers, target).demix(params, coded, &mut out);
    out
}

#[test]
fn stereo_from_mono_and_left(rt: HostRuntime) {
    let layers = [layer(Layout::Mono), layer(Layout::Stereo)];
    let out = demixed(&rt, &layers, 0, 0, &[100, 150]);
    assert_eq!(rt; out, [150 * UNIT, 50 * UNIT]);
}

#[test]
fn the_top_of_512_from_that_of_312(rt: HostRuntime) {
    let layers = [layer(Layout::L312), layer(Layout::L512)];
    // L, R, Ltf, Rtf, C and Lfe of 3.1.2, and L and R of 5.1.2.
    let coded = [1707, 0, 1000, 0, 0, 0, 1000, 0];
    for (weight, top) in [(179, 265_038_324_774), (0, 1000 * UNIT)] {
        let out = demixed(&rt, &layers, 4, weight, &coded);
        assert_eq!(rt; out, [1000 * UNIT, 0, 0, 0, 1000 * UNIT, 0, top, 0]);
    }
}

#[test]
fn samples_at_the_edges_of_their_widths(rt: HostRuntime) {
    // No output gain, one of 20 dB and one of -20 dB for left and right of stereo, each with samples of 24 and of 32 bits.
    for (gain, y, left, right) in [
        (0, 8_388_607, 6_482_560_601_147_669, -4_723_051_331_915_369),
        (0, -8388608, -6_482_561_373_929_205, 4_723_051_894_947_031),
        (0, 8388608, 6_482_561_373_929_204, -4_723_051_894_947_031),
        (
            0,
            0x7fff_ffff,
            1_659_535_710_953_094_796,
            -1_209_101_284_543_408_113,
        ),
        (
            0,
            -0x8000_0000,
            -1_659_535_711_725_876_332,
            1_209_101_285_106_439_773,
        ),
        (
            5120,
            8388607,
            33_505_740_504_032_809,
            -4_723_051_331_915_369,
        ),
        (
            5120,
            -8388608,
            -33_505_744_498_228_807,
            4_723_051_894_947_031,
        ),
        (
            5120,
            8388608,
            33_505_744_498_228_806,
            -4_723_051_894_947_031,
        ),
        (
            5120,
            0x7fff_ffff,
            8_577_470_587_552_378_338,
            -1_209_101_284_543_408_113,
        ),
        (
            5120,
            -0x8000_0000,
            -8_577_470_591_546_574_335,
            1_209_101_285_106_439_773,
        ),
        (
            -5120,
            8388607,
            3_780_242_610_859_154,
            -4_723_051_331_915_369,
        ),
        (
            -5120,
            -8388608,
            -3_780_243_061_499_244,
            4_723_051_894_947_031,
        ),
        (
            -5120,
            8388608,
            3_780_243_061_499_242,
            -4_723_051_894_947_031,
        ),
        (
            -5120,
            0x7fff_ffff,
            967_742_223_293_166_442,
            -1_209_101_284_543_408_113,
        ),
        (
            -5120,
            -0x8000_0000,
            -967_742_223_743_806_532,
            1_209_101_285_106_439_773,
        ),
    ] {
        let stereo = Layer {
            gain: Some(OutputGain { flags: 0x30, gain }),
            ..layer(Layout::Stereo)
        };
        let layers = [stereo, layer(Layout::L51), layer(Layout::L71)];
        // L and R of stereo, L, R, C and Lfe of 5.1, and Lss and Rss of 7.1.
        let y = i64::from(y);
        let coded = [y, 0, -y, 0, y, 0, -y, y];
        let out = demixed(&rt, &layers, 2, 0, &coded);
        let whole = i128::from(y) * UNIT;
        assert_eq!(rt; out, [-whole, 0, whole, 0, left, right, -whole, whole]);
    }
}
