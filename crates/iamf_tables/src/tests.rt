//! The table of layouts, steps that are refused, what three layers transmit, and the tables of gains, modes and weights.

ghost use Rattle.std.specs.Prelude.{◌≡◌, ◌+◌, length, IfSome};
ghost use Rattle.spec_layouts.specs.Transmitted.{pairs_of, singles_of};

use crate::{
    Channel, DemixMode, Layout, Transmitted, channel_at, channel_count, channel_mask, demix_mode,
    gain, layout, new_channels, weight,
};
use Channel::{C, L, Lfe, Lrs, Ls, Lss, Ltb, Ltf, M, R, Rrs, Rs, Rss, Rtb, Rtf};
use std::process::Abort;

/// Compares one row of the table.
fn row(rt: &impl Abort, code: u8, want: Layout, channels: &[Channel]) {
    assert_eq!(rt; layout(code), Some(want));
    assert_eq!(rt; channel_count(want), channels.len());
    for (i, channel) in channels.iter().enumerate() {
        assert_eq!(rt; channel_at(want, i), *channel);
    }
}

#[test]
fn the_ten_layouts_have_their_channels(rt: HostRuntime) {
    row(&rt, 0, Layout::Mono, &[M]);
    row(&rt, 1, Layout::Stereo, &[L, R]);
    row(&rt, 2, Layout::L51, &[L, R, C, Lfe, Ls, Rs]);
    row(&rt, 3, Layout::L512, &[L, R, C, Lfe, Ls, Rs, Ltf, Rtf]);
    row(
        &rt,
        4,
        Layout::L514,
        &[L, R, C, Lfe, Ls, Rs, Ltf, Rtf, Ltb, Rtb],
    );
    row(&rt, 5, Layout::L71, &[L, R, C, Lfe, Lrs, Rrs, Lss, Rss]);
    row(
        &rt,
        6,
        Layout::L712,
        &[L, R, C, Lfe, Lrs, Rrs, Lss, Rss, Ltf, Rtf],
    );
    row(
        &rt,
        7,
        Layout::L714,
        &[L, R, C, Lfe, Lrs, Rrs, Lss, Rss, Ltf, Rtf, Ltb, Rtb],
    );
    row(&rt, 8, Layout::L312, &[L, R, C, Lfe, Ltf, Rtf]);
    row(&rt, 9, Layout::Binaural, &[L, R]);
    assert_eq!(rt; layout(10), None);
    assert_eq!(rt; layout(255), None);
}

#[test]
fn the_masks_are_those_of_wav_files(rt: HostRuntime) {
    assert_eq!(rt; channel_mask(Layout::Mono), 0x4);
    assert_eq!(rt; channel_mask(Layout::Stereo), 0x3);
    assert_eq!(rt; channel_mask(Layout::L51), 0x60f);
    assert_eq!(rt; channel_mask(Layout::L512), 0x560f);
    assert_eq!(rt; channel_mask(Layout::L514), 0x2d60f);
    assert_eq!(rt; channel_mask(Layout::L71), 0x63f);
    assert_eq!(rt; channel_mask(Layout::L712), 0x563f);
    assert_eq!(rt; channel_mask(Layout::L714), 0x2d63f);
    assert_eq!(rt; channel_mask(Layout::L312), 0x500f);
}

/// Compares what a layer transmits.
fn layer(rt: &impl Abort, layer: Option<Transmitted>, pairs: usize, channels: &[Channel]) {
    let layer = layer.expect(rt, "an allowed step");
    assert_eq!(rt; layer.pairs(), pairs);
    assert_eq!(rt; 2 * layer.pairs() + layer.singles(), channels.len());
    for (i, channel) in channels.iter().enumerate() {
        assert_eq!(rt; layer.at(i), *channel);
    }
}

/// A layer's `substream_count` and `coupled_substream_count`, as a reader of layers has them.
fn counts(before: Option<Layout>, now: Layout) -> Option<(usize, usize)>
    ensures substreams { IfSome result (λ n. n.0 ≡ length (pairs_of before now) + length (singles_of before now)) }
    ensures coupled { IfSome result (λ n. n.1 ≡ length (pairs_of before now)) }
{
    let layer = new_channels(before, now)?;
    Some((layer.pairs() + layer.singles(), layer.pairs()))
}

#[test]
fn stereo_then_512_then_714(rt: HostRuntime) {
    assert_eq!(rt; counts(None, Layout::Stereo), Some((1, 1)));
    assert_eq!(rt; counts(Some(Layout::Stereo), Layout::L512), Some((4, 2)));
    assert_eq!(rt; counts(Some(Layout::L512), Layout::L714), Some((2, 2)));
    layer(&rt, new_channels(None, Layout::Stereo), 1, &[L, R]);
    layer(
        &rt,
        new_channels(Some(Layout::Stereo), Layout::L512),
        2,
        &[L, R, Ltf, Rtf, C, Lfe],
    );
    layer(
        &rt,
        new_channels(Some(Layout::L512), Layout::L714),
        2,
        &[Lss, Rss, Ltf, Rtf],
    );
}

#[test]
fn first_layers_are_whole_and_pairs_come_first(rt: HostRuntime) {
    layer(&rt, new_channels(None, Layout::Mono), 0, &[M]);
    layer(&rt, new_channels(None, Layout::Binaural), 1, &[L, R]);
    layer(
        &rt,
        new_channels(None, Layout::L714),
        5,
        &[L, R, Lss, Rss, Lrs, Rrs, Ltf, Rtf, Ltb, Rtb, C, Lfe],
    );
    layer(
        &rt,
        new_channels(Some(Layout::Mono), Layout::L51),
        1,
        &[L, R, C, Lfe, L],
    );
}

#[test]
fn a_step_down_a_step_of_nothing_and_a_step_with_binaural_are_refused(rt: HostRuntime) {
    assert!(rt; new_channels(Some(Layout::L51), Layout::Stereo).is_none());
    assert!(rt; new_channels(Some(Layout::L512), Layout::L71).is_none());
    assert!(rt; new_channels(Some(Layout::Stereo), Layout::Stereo).is_none());
    assert!(rt; new_channels(Some(Layout::Binaural), Layout::Stereo).is_none());
    assert!(rt; new_channels(Some(Layout::Stereo), Layout::Binaural).is_none());
}

#[test]
fn the_gains_of_some_decibels(rt: HostRuntime) {
    for (quarters, want) in [
        (0, 1_000_000_000_000),
        (-1536, 501_187_233_627),
        (1536, 1_995_262_314_968),
        (8192, 39_810_717_055_340),
    ] {
        assert_eq!(rt; gain(quarters), want);
    }
}

#[test]
fn the_gains_of_whole_decibels_rise(rt: HostRuntime) {
    let mut before = 0;
    for decibels in [
        0, 256, 512, 768, 1024, 1280, 1536, 1792, 2048, 2304, 2560, 2816, 3072, 3328, 3584, 3840,
        4096, 4352, 4608, 4864,
    ] {
        let now = gain(decibels);
        assert!(rt; before < now);
        before = now;
    }
}

#[test]
fn the_modes_3_and_7_are_reserved(rt: HostRuntime) {
    let rows = [
        (1000, 1000, 707, 707),
        (707, 707, 707, 707),
        (1000, 866, 866, 866),
    ];
    for (row, (alpha, beta, gamma, delta)) in rows.iter().enumerate() {
        for (code, step) in [(row, -1), (row + 4, 1)] {
            let want = DemixMode {
                alpha: *alpha,
                beta: *beta,
                gamma: *gamma,
                delta: *delta,
                step,
            };
            let code = code as u8;
            assert!(rt; code < 8);
            assert_eq!(rt; demix_mode(code), Some(want));
        }
    }
    assert_eq!(rt; demix_mode(3), None);
    assert_eq!(rt; demix_mode(7), None);
}

#[test]
fn an_index_above_10_counts_as_10(rt: HostRuntime) {
    let weights = [0, 179, 391, 658, 1038, 2500, 3962, 4342, 4609, 4821, 5000];
    for (index, want) in weights.iter().enumerate() {
        assert_eq!(rt; weight(index as u8), *want);
    }
    assert_eq!(rt; weight(11), 5000);
    assert_eq!(rt; weight(255), 5000);
}
