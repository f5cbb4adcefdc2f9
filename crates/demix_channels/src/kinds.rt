//! The counts of layouts, and what changes where they rise from one layer to the next.

ghost use Rattle.std.specs.Prelude.{◌≡◌, ◌≤◌};
ghost use Rattle.spec_demix.specs.Kinds.{kind_of, reaches, gives_three, gives_two, leaves_three, gives_four, gives_back, splits_two};

use spec_demix::Kind;
use spec_layouts::Layout;

/// The counts of a layout.
pub fn kind(layout: Layout) -> Kind
    ensures value { result ≡ kind_of layout }
    ensures few { result.height ≤ 4 }
{
    let (surround, height) = match layout {
        Layout::Mono => (1, 0),
        Layout::Stereo => (2, 0),
        Layout::L51 => (5, 0),
        Layout::L512 => (5, 2),
        Layout::L514 => (5, 4),
        Layout::L71 => (7, 0),
        Layout::L712 => (7, 2),
        Layout::L714 => (7, 4),
        Layout::L312 => (3, 2),
        Layout::Binaural => (0, 0),
    };
    Kind { surround, height }
}

/// Whether a count comes to a number, or past it.
pub fn is_reached(count: u8, before: u8, now: u8) -> bool
    ensures { result ≡ reaches count before now }
{
    before < count && count <= now
}

/// Whether 3.1.2 is the first layer with height channels.
pub fn gives_three(before: Kind, now: Kind) -> bool
    ensures { result ≡ gives_three before now }
{
    before.height < 2 && (2 <= now.height && now.surround < 5)
}

/// Whether another layout with two height channels is the first with any.
pub fn gives_two(before: Kind, now: Kind) -> bool
    ensures { result ≡ gives_two before now }
{
    before.height < 2 && (2 <= now.height && (now.height < 4 && 5 <= now.surround))
}

/// Whether 3.1.2 goes over to a layout with more surround channels.
pub fn leaves_three(before: Kind, now: Kind) -> bool
    ensures { result ≡ leaves_three before now }
{
    3 <= before.surround && (before.surround < 5 && 5 <= now.surround)
}

/// Whether there come to be four height channels.
pub fn gives_four(before: Kind, now: Kind) -> bool
    ensures { result ≡ gives_four before now }
{
    before.height < 4 && 4 <= now.height
}

/// Whether four height channels come where there was none.
pub fn gives_back(before: Kind, now: Kind) -> bool
    ensures { result ≡ gives_back before now }
{
    before.height < 2 && 4 <= now.height
}

/// Whether two height channels become four.
pub fn splits_two(before: Kind, now: Kind) -> bool
    ensures { result ≡ splits_two before now }
{
    2 <= before.height && (before.height < 4 && 4 <= now.height)
}
