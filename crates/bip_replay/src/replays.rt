//! Replaying a trace: whether the grants of a text are a run of a model.
ghost use Rattle.std.specs.Prelude.{◌<◌, ℕ, [], IfOk, IfErr, IfSome};
ghost use Rattle.bip_model.specs.Numbering.{last_number};
ghost use Rattle.bip_replay.specs.Expected.{Expects};
ghost use Rattle.bip_replay.specs.Runs.{StandsAfter, standing_of};
ghost use Rattle.bip_replay.specs.Replays.{IsFirstFault, IsReplayFault, IsRunOf, IsRunTo, Takes};

use crate::expected::read_spelled;
use crate::followers::Follower;
use crate::guesses::Guesses;
use crate::reordered::read_reordered;
use crate::rooms::Room;
use crate::{Position, ReplayFault};
use bip_model::{InterId, Model, Number, NumberedLines};
use std::alloc::Global;

/// Reads and checks a trace line by line: how many grants it has where they are a run of the model
/// with exact numbers above a base, or else the number of the first line at fault with its fault;
/// what follows that line doesn't count (docs/DEFINITIONS.md, "Traces"). Its memory doesn't grow
/// with the trace: it takes some at the start, and want of it is told of line 1, unless that line
/// has a fault of its own.
pub fn replay(
    alloc: Global,
    model: &Model,
    base: Number,
    text: &[u8],
) -> Result<u64, (u64, ReplayFault)>
    requires { base < last_number }
    ensures run { IfOk result (λ count. IsRunOf model.now base text.now count) }
    ensures fault { IfErr result (λ e. IsReplayFault model.now base text.now e.0 e.1) }
{
    let (_, count) = replay_to(alloc, model, base, text)?;
    Ok(count)
}

/// The same, with the position to which the grants lead.
pub fn replay_to<'m>(
    alloc: Global,
    model: &'m Model,
    base: Number,
    text: &[u8],
) -> Result<(Position<'m>, u64), (u64, ReplayFault)>
    requires { base < last_number }
    ensures run { IfOk result (λ end.
        IsRunTo model.now base text.now (standing_of end.0) end.1) }
    ensures fault { IfErr result (λ e. IsReplayFault model.now base text.now e.0 e.1) }
{
    let mut room = Room::new();
    match Position::start(alloc, model, base) {
        Ok(position) => replay_from(position, &mut room, text),
        Err(_) => Err((1, told_without_memory(&mut room, model, text))),
    }
}

// The same from the start of a run, which takes no memory.
fn replay_from<'m>(
    position: Position<'m>,
    room: &mut Room,
    text: &[u8],
) -> Result<(Position<'m>, u64), (u64, ReplayFault)>
    requires { StandsAfter position.model position.base [] (standing_of position) }
    ensures run { IfOk result (λ end. IsRunTo position.entry.model position.entry.base text.now
        (standing_of end.0) end.1) }
    ensures fault { IfErr result (λ e.
        IsFirstFault position.entry.model position.entry.base text.now e.0 e.1) }
{
    let mut follower = Follower::of(position);
    let mut guesses = Guesses::new();
    let mut count = 0;
    for (number, line) in NumberedLines::of(text) {
        match take_line(&mut follower, &mut guesses, room, line) {
            Ok(found) => count += u64::from(found),
            Err(fault) => return Err((number, fault)),
        }
    }
    Ok((follower.into_position(), count))
}

// What is told of line 1 where there is no memory to start with: its own fault, if the line has
// one.
fn told_without_memory(room: &mut Room, model: &Model, text: &[u8]) -> ReplayFault
    ensures { (base : ℕ) → IsReplayFault model.now base text.now 1 result }
{
    let Some((_, line)) = NumberedLines::of(text).next() else {
        return ReplayFault::Memory;
    };
    match room.read(model, line) {
        Err(fault) => ReplayFault::from(fault),
        Ok(_) => ReplayFault::Memory,
    }
}

// Goes on by the grant of a line: whether it has one, or why the trace stops there.
fn take_line(
    position: &mut Follower<'_>,
    guesses: &mut Guesses,
    room: &mut Room,
    line: &[u8],
) -> Result<bool, ReplayFault>
    ensures { Takes (standing_of position.old) line.now result (standing_of position.new) }
{
    if let Some(inter) = read_expected(guesses, position, line) {
        position.step_expected(inter)?;
        return Ok(true);
    }
    let Some(grant) = room.read(position.model(), line)? else {
        return Ok(false);
    };
    position.step(&grant)?;
    Ok(true)
}

// The interaction of a line that is an expected grant, found without reading the line; none of any
// other line, which can be right all the same.
fn read_expected(guesses: &mut Guesses, position: &Follower<'_>, line: &[u8]) -> Option<InterId>
    ensures { IfSome result (λ a. Expects (standing_of position.now) line.now a.0) }
{
    match read_spelled(guesses, position, line) {
        Some(inter) => Some(inter),
        None => read_reordered(guesses, position, line),
    }
}
