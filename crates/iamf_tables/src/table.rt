//! The rows of the table of layouts.

ghost use Rattle.std.specs.Prelude.{◌≡◌, ◌≢◌, ◌<◌, ◌↔◌, Some, None, IsNone, length, slice_index_or};
ghost use Rattle.spec_layouts.specs.Layouts.{layout_of, channels, has, surround, height};
ghost use Rattle.spec_layouts.specs.Speakers.{mask_of};

use spec_layouts::{Channel, Layout};

/// The layout of a code of `loudspeaker_layout`: `None` exactly for a code above 9.
#[tactic(auto, unfolding(spec_layouts::specs::Layouts::layout_of))]
pub fn layout(code: u8) -> Option<Layout>
    ensures value { result ≡ layout_of code }
    ensures none { IsNone result ↔ (9 < code) }
{
    match code {
        0 => Some(Layout::Mono),
        1 => Some(Layout::Stereo),
        2 => Some(Layout::L51),
        3 => Some(Layout::L512),
        4 => Some(Layout::L514),
        5 => Some(Layout::L71),
        6 => Some(Layout::L712),
        7 => Some(Layout::L714),
        8 => Some(Layout::L312),
        9 => Some(Layout::Binaural),
        _ => None,
    }
}

/// The channels of a layout in the order in which a WAV file has them.
fn channels_in_order(layout: Layout) -> &'static [Channel]
    ensures { result.now ≡ channels layout }
{
    use Channel::{C, L, Lfe, Lrs, Ls, Lss, Ltb, Ltf, M, R, Rrs, Rs, Rss, Rtb, Rtf};
    match layout {
        Layout::Mono => &[M],
        Layout::Stereo => &[L, R],
        Layout::L51 => &[L, R, C, Lfe, Ls, Rs],
        Layout::L512 => &[L, R, C, Lfe, Ls, Rs, Ltf, Rtf],
        Layout::L514 => &[L, R, C, Lfe, Ls, Rs, Ltf, Rtf, Ltb, Rtb],
        Layout::L71 => &[L, R, C, Lfe, Lrs, Rrs, Lss, Rss],
        Layout::L712 => &[L, R, C, Lfe, Lrs, Rrs, Lss, Rss, Ltf, Rtf],
        Layout::L714 => &[L, R, C, Lfe, Lrs, Rrs, Lss, Rss, Ltf, Rtf, Ltb, Rtb],
        Layout::L312 => &[L, R, C, Lfe, Ltf, Rtf],
        Layout::Binaural => &[L, R],
    }
}

/// The number of channels of a layout, from 1 to 12.
pub fn channel_count(layout: Layout) -> usize
    ensures { result ≡ length (channels layout) }
{
    channels_in_order(layout).len()
}

/// Channel `i`, counted from 0, in the order in which a WAV file has them.
pub fn channel_at(layout: Layout, i: usize) -> Channel
    requires { i < length (channels layout) }
    ensures { result ≡ slice_index_or (channels layout) i result }
{
    channels_in_order(layout)[i]
}

/// The channel mask of a layout in a WAV file, the `dwChannelMask` of `WAVEFORMATEXTENSIBLE`.
#[tactic(auto, unfolding(spec_layouts::specs::Speakers::mask_of))]
pub fn channel_mask(layout: Layout) -> u32
    requires { layout ≢ Layout.Binaural }
    ensures { result ≡ mask_of layout }
{
    match layout {
        Layout::Mono => 0x4,
        Layout::Stereo => 0x3,
        Layout::L51 => 0x60f,
        Layout::L512 => 0x560f,
        Layout::L514 => 0x2d60f,
        Layout::L71 => 0x63f,
        Layout::L712 => 0x563f,
        Layout::L714 => 0x2d63f,
        Layout::L312 => 0x500f,
        Layout::Binaural => unreachable!(),
    }
}

/// Whether a layout has a channel.
pub(crate) fn has(layout: Layout, channel: Channel) -> bool
    ensures { result ≡ has layout channel }
{
    channels_in_order(layout).contains(&channel)
}

/// The number of surround channels of a layout, 0 for binaural.
pub(crate) fn surround(layout: Layout) -> u8
    ensures { result ≡ surround layout }
{
    match layout {
        Layout::Mono => 1,
        Layout::Stereo => 2,
        Layout::L312 => 3,
        Layout::L51 | Layout::L512 | Layout::L514 => 5,
        Layout::L71 | Layout::L712 | Layout::L714 => 7,
        Layout::Binaural => 0,
    }
}

/// The number of height channels of a layout.
pub(crate) fn height(layout: Layout) -> u8
    ensures { result ≡ height layout }
{
    match layout {
        Layout::L512 | Layout::L712 | Layout::L312 => 2,
        Layout::L514 | Layout::L714 => 4,
        _ => 0,
    }
}
