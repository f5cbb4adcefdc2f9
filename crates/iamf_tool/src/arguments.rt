//! The words after the name of a command.
ghost use Rattle.std.specs.Prelude.{◌≡◌, IfSome};
ghost use Rattle.spec_play.specs.Laws.{IsHearable};
ghost use Rattle.iamf_tool.specs.Words.{number_of, layout_of, target_of};

use itoa::Buffer;
use spec_layouts::Layout;
use spec_play::Target;

/// The number below 2^32 whose decimal digits the word is.
pub fn number_of(word: &str) -> Option<u32>
    ensures { result ≡ number_of word.now }
{
    let number = match word.parse::<u32>() {
        Ok(number) => number,
        Err(_) => return None,
    };
    // Other spellings that are parsed, with a sign or with zeros before other digits, are no words for it.
    let mut digits = Buffer::new();
    if digits.format(number) == word {
        Some(number)
    } else {
        None
    }
}

// The layout of loudspeakers that the word names.
fn layout_of(word: &str) -> Option<Layout>
    ensures same { result ≡ layout_of word.now }
    ensures hearable { IfSome result (λ layout. IsHearable (Target.Layer layout)) }
{
    if word == "mono" {
        return Some(Layout::Mono);
    }
    if word == "stereo" {
        return Some(Layout::Stereo);
    }
    if word == "3.1.2" {
        return Some(Layout::L312);
    }
    if word == "5.1" {
        return Some(Layout::L51);
    }
    if word == "5.1.2" {
        return Some(Layout::L512);
    }
    if word == "5.1.4" {
        return Some(Layout::L514);
    }
    if word == "7.1" {
        return Some(Layout::L71);
    }
    if word == "7.1.2" {
        return Some(Layout::L712);
    }
    if word == "7.1.4" {
        return Some(Layout::L714);
    }
    None
}

/// What the word names of that for which mixes are played.
pub fn target_of(word: &str) -> Option<Target>
    ensures same { result ≡ target_of word.now }
    ensures hearable { IfSome result IsHearable }
{
    if word == "acn" {
        return Some(Target::Scene);
    }
    match layout_of(word) {
        Some(layout) => Some(Target::Layer(layout)),
        None => None,
    }
}
