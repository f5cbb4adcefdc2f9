//! Totals of coded channels, and which of them fit a profile (IAMF 1.0.0, "IA Profiles").
//!
//! A total that a `u32` does not hold is counted as its greatest number, which fits no profile either.
ghost use Rattle.std.specs.Prelude.{◌≡◌, List};
ghost use Rattle.std.specs.Option.{option_map};
ghost use Rattle.spec_rules.specs.Role.{ElementRole};
ghost use Rattle.spec_rules.specs.Profile.{are_within, channels_of_sub_mix};
ghost use Rattle.std.specs.Ordering.{nat_cmp};
ghost use Rattle.std.specs.BTreeMap.{get};
ghost use Rattle.iamf_rules.specs.Totals.{capped, total_of, joined, HasTotals};

use std::collections::BTreeMap;

/// Whether so many elements with so many coded channels in all fit the primary profile: Simple is 0, Base is 1, and 2 is
/// this project's own wide profile.
pub(crate) fn is_within(primary_profile: u8, elements: usize, channels: u32) -> bool
    ensures { result ≡ are_within primary_profile elements channels }
{
    let (most_elements, most_channels) = match primary_profile {
        0 => (1, 16),
        1 => (2, 18),
        _ => (28, 28),
    };
    1 <= elements && elements <= most_elements && channels <= most_channels
}

fn sum(channels: &[u32]) -> u32
    ensures { result ≡ total_of channels.now }
{
    let mut total: u32 = 0;
    for count in channels {
        total = total.saturating_add(*count);
    }
    total
}

/// The channels of an element, where those of its substreams are known.
pub(crate) fn of_element(channels: Option<&[u32]>) -> Option<u32>
    ensures { result ≡ option_map (λ b. total_of b.now) channels.entry }
{
    match channels {
        Some(channels) => Some(sum(channels)),
        None => None,
    }
}

/// The channels of the elements in all, where all are known.
pub(crate) fn of_elements(totals: &BTreeMap<u32, Option<u32>>, elements: &[u32]) -> Option<u32>
    ensures { (es : List ElementRole) → HasTotals totals.now es → result ≡ option_map capped (channels_of_sub_mix es elements.now) }
{
    let mut total: u32 = 0;
    for id in elements {
        match of_known(totals, *id) {
            Some(channels) => total = total.saturating_add(channels),
            None => return None,
        }
    }
    Some(total)
}

/// The channels of the element, where they are known.
fn of_known(totals: &BTreeMap<u32, Option<u32>>, element: u32) -> Option<u32>
    ensures { result ≡ joined (get nat_cmp totals.now element) }
{
    match totals.get(&element) {
        Some(total) => *total,
        None => None,
    }
}
