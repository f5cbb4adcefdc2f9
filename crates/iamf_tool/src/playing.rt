//! The command that plays a mix.
ghost use Rattle.std.specs.Prelude.{◌≡◌, ◌≤◌, ◌^◌, ℕ, List, length, replicate, IfOk};
ghost use Rattle.std.specs.List.{flat_map, range_with_len};
ghost use Rattle.spec_waves.specs.Wave.{pad};
ghost use Rattle.spec_play.specs.Laws.{IsHearable};
ghost use Rattle.spec_play.specs.Mixes.{Rendition};
ghost use Rattle.spec_play.specs.Waves.{wave_shape};
ghost use Rattle.spec_play.specs.Playing.{unit_bytes, fixed_wave};
ghost use Rattle.iamf_sequence.specs.SequenceValue.{IsRead};
ghost use Rattle.iamf_tool.specs.declared.command.Command.TheVariants as given;
ghost use Rattle.iamf_select.specs.PlanView.{IsSelected};
ghost use Rattle.iamf_tool.specs.Ends.{side, ran, Writes, Concludes, Ends};

use crate::answer::{Answer, answer_to};
use crate::ending::conclude;
use crate::notes::{ended, unread};
use crate::status::Status;
use crate::whole::LIMIT;
use iamf_io::{Failed, Sink, Source, read_all, write_all};
use iamf_play::Player;
use iamf_select::{Plan, select};
use iamf_sequence::{Sequence, decode};
use spec_play::Target;
use std::alloc::Global;

// Writes the bytes of all units, of which none was played before.
fn write_units<W: Sink>(player: &mut Player<'_, '_>, out: &mut W) -> Result<(), Failed>
    requires { player.old.played ≡ 0 }
    ensures plan { player.new.plan ≡ player.old.plan }
    ensures wrote { (r : Rendition) → IsSelected player.old.plan r
        → Writes result (flat_map (unit_bytes r) (range_with_len 0 (length r.units))) (side W.held W.faults out.old out.new) }
{
    for u in 0..player.unit_count() {
        player.play(u);
        match write_all(out, player.bytes()) {
            Ok(()) => {}
            Err(failed) => return Err(failed),
        }
    }
    Ok(())
}

// Writes the byte that makes the number of data bytes even, where it is needed.
fn write_pad<W: Sink>(player: &Player<'_, '_>, out: &mut W) -> Result<(), Failed>
    ensures { (r : Rendition) → IsSelected player.now.plan r → Writes result (replicate (pad (wave_shape r)) 0) (side W.held W.faults out.old out.new) }
{
    if player.pad() == 0 {
        return Ok(());
    }
    write_all(out, &[0])
}

// Writes the WAV file, of which no unit was played before.
fn write_wave<W: Sink>(player: &mut Player<'_, '_>, out: &mut W) -> Result<(), Failed>
    requires { player.old.played ≡ 0 }
    ensures { (r : Rendition) → IsSelected player.old.plan r → Writes result (fixed_wave r) (side W.held W.faults out.old out.new) }
{
    write_all(out, &player.wave_head())?;
    write_units(player, out)?;
    write_pad(player, out)?;
    out.flush()
}

// Plays the plan. All memory is taken before the first byte is written.
fn play_plan<W: Sink, N: Sink>(
    alloc: Global,
    plan: Plan<'_, '_>,
    out: &mut W,
    notes: &mut N,
) -> Status
    ensures { Concludes result (given.Play plan.entry.mix plan.entry.target) plan.entry.sequence.bytes
        (side W.held W.faults out.old out.new) (side N.held N.faults notes.old notes.new) }
{
    // What the plan is of, and that it is played.
    plan.one_rendition();
    let mut player = match Player::new(alloc, plan) {
        Ok(player) => player,
        Err(_) => return ended(Status::Memory, notes),
    };
    match write_wave(&mut player, out) {
        Ok(()) => Status::Done,
        Err(_) => ended(Status::WriteFault, notes),
    }
}

// Plays a mix of the sequence, or notes why it is not played.
fn play_sequence<W: Sink, N: Sink>(
    alloc: Global,
    mix: u32,
    target: Target,
    sequence: &Sequence<'_>,
    out: &mut W,
    notes: &mut N,
) -> Status
    requires hearable { IsHearable target }
    requires read { IsRead sequence.now.bytes sequence.now.entries }
    ensures { Concludes result (given.Play mix target) sequence.now.bytes
        (side W.held W.faults out.old out.new) (side N.held N.faults notes.old notes.new) }
{
    match select(sequence, mix, target) {
        Ok(plan) => play_plan(alloc, plan, out, notes),
        Err(fault) => {
            let code = fault.code();
            conclude(alloc, Ok(Answer::Unplayable { code }), out, notes)
        }
    }
}

// Plays a mix of the sequence that the bytes are, or notes why it is not played, or why they are none.
fn play_bytes<W: Sink, N: Sink>(
    alloc: Global,
    mix: u32,
    target: Target,
    bytes: &[u8],
    out: &mut W,
    notes: &mut N,
) -> Status
    requires hearable { IsHearable target }
    requires few { length bytes.now ≤ 2 ^ 30 }
    ensures { Concludes result (given.Play mix target) bytes.now
        (side W.held W.faults out.old out.new) (side N.held N.faults notes.old notes.new) }
{
    match decode(alloc, bytes) {
        Ok(sequence) => play_sequence(alloc, mix, target, &sequence, out, notes),
        Err(error) => conclude(alloc, answer_to(error), out, notes),
    }
}

/// Reads the whole input, and writes the WAV file of a mix of the sequence that it is, or notes why there is none.
pub fn play<R: Source, W: Sink, N: Sink>(
    alloc: Global,
    mix: u32,
    target: Target,
    source: &mut R,
    out: &mut W,
    notes: &mut N,
) -> Status
    requires { IsHearable target }
    ensures { Ends result (given.Play mix target) (ran (side R.left R.faults source.old source.new)
        (side W.held W.faults out.old out.new) (side N.held N.faults notes.old notes.new)) }
{
    match read_all(alloc, source, LIMIT) {
        Ok(bytes) => play_bytes(alloc, mix, target, &bytes, out, notes),
        Err(error) => unread(error, notes),
    }
}
