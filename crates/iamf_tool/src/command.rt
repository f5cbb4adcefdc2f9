ghost use Rattle.std.specs.Prelude.{◌≡◌, IfSome};
ghost use Rattle.spec_play.specs.Laws.{IsHearable};
ghost use Rattle.iamf_tool.specs.Words.{alone, play_command, play_with, command_with, command_of, IsHearableCommand};

use crate::arguments::{number_of, target_of};
use spec_play::Target;

/// What the words of the command line ask for.
#[derive(Clone, Copy, Debug, PartialEq, Eq)]
pub enum Command {
    /// The report of a sequence.
    Check,
    /// One output of the whole input.
    Convert(Conversion),
    /// The WAV file of the mix presentation of an id, for a target.
    Play { mix: u32, target: Target },
}

/// What is made of a whole input.
#[derive(Clone, Copy, Debug, PartialEq, Eq)]
pub enum Conversion {
    /// One line for each OBU.
    List,
    /// The canonical spelling of a sequence.
    Canon,
    /// The MP4 file of a sequence.
    Mux,
    /// The bare sequence in an MP4 file.
    Demux,
}

// The command, which has no words after its name.
fn alone(command: Command, words: &[String]) -> Option<Command>
    requires { IsHearableCommand command }
    ensures same { result ≡ alone command words.now }
    ensures hearable { IfSome result IsHearableCommand }
{
    match words {
        [] => Some(command),
        _ => None,
    }
}

// To play the mix for the target, where there are both.
fn play_command(mix: Option<u32>, target: Option<Target>) -> Option<Command>
    requires { IfSome target IsHearable }
    ensures same { result ≡ play_command mix target }
    ensures hearable { IfSome result IsHearableCommand }
{
    match (mix, target) {
        (Some(mix), Some(target)) => Some(Command::Play { mix, target }),
        _ => None,
    }
}

// To play a mix, where the words are its id and a target.
fn play_with(words: &[String]) -> Option<Command>
    ensures same { result ≡ play_with words.now }
    ensures hearable { IfSome result IsHearableCommand }
{
    match words {
        [mix, target] => play_command(number_of(mix.as_str()), target_of(target.as_str())),
        _ => None,
    }
}

// The command of this name with these words after it.
fn command_with(name: &str, words: &[String]) -> Option<Command>
    ensures same { result ≡ command_with name.now words.now }
    ensures hearable { IfSome result IsHearableCommand }
{
    if name == "list" {
        return alone(Command::Convert(Conversion::List), words);
    }
    if name == "check" {
        return alone(Command::Check, words);
    }
    if name == "canon" {
        return alone(Command::Convert(Conversion::Canon), words);
    }
    if name == "mux" {
        return alone(Command::Convert(Conversion::Mux), words);
    }
    if name == "demux" {
        return alone(Command::Convert(Conversion::Demux), words);
    }
    if name == "play" {
        return play_with(words);
    }
    None
}

/// The command that the words say, where they say one.
pub fn read_words(words: &[String]) -> Option<Command>
    ensures same { result ≡ command_of words.now }
    ensures hearable { IfSome result IsHearableCommand }
{
    match words {
        [name, words @ ..] => command_with(name.as_str(), words),
        [] => None,
    }
}
