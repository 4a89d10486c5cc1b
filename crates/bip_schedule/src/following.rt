//! Schedules that are followed: each line is read once, and its event done before the next one.
ghost use Rattle.std.specs.Prelude.{◌≡◌, ◌++◌, IfErr, IfOk, List, length};
ghost use Rattle.bip_core.specs.Runs.{IsRunOfEvents};
ghost use Rattle.bip_core.specs.Worlds.{world_of};
ghost use Rattle.bip_core.specs.declared.events.Event.{Event};
ghost use Rattle.bip_model.specs.declared.grants.Grant.{Grant};
ghost use Rattle.bip_schedule.specs.Following.{IsFollowedUntil};
ghost use Rattle.bip_schedule.specs.Laws.{IsFault};
ghost use Rattle.bip_schedule.specs.Schedules.{IsEventText};

use crate::known::KnownLines;
use bip_bank::Bank;
use bip_core::{Report, World, run_event};
use bip_model::NumberedLines;
use bip_replay::TraceFault;
use std::alloc::Global;

/// Does the events of a text for the world's plan, one after another, each when its line is read;
/// one for which there is no memory is skipped, and those that follow are done. The report has
/// their sums. No list of them is kept, and each line is read once. Where the text is no schedule,
/// the number of its first line at fault with its fault, which isn't want of memory; the events of
/// the lines before it are done then (docs/ANSWERS.md, "Schedules"; docs/PROTOCOL.md, "The world
/// and its events").
pub fn follow_schedule<'p, B: Bank>(
    alloc: Global,
    world: &mut World<'p, B>,
    text: &[u8],
) -> Result<Report, (u64, TraceFault)>
    ensures run { IfOk result (λ report. (events : List Event)
        × IsEventText world.old.plan text.now events
        × IsRunOfEvents events (world_of world.old) (world_of world.new) report) }
    ensures grown { IfOk result (λ report. (grants : List Grant)
        × (world.new.trace ≡ world.old.trace ++ grants) × (report.grants ≡ length grants)) }
    ensures fault { IfErr result (λ e. IsFault world.old.plan text.now e.0 e.1) }
    ensures before { IfErr result (λ e. IsFollowedUntil world.old.plan text.now e.0
        (world_of world.old) (world_of world.new)) }
{
    let mut known = KnownLines::of(alloc, world.plan());
    let mut report = Report::empty();
    for (number, line) in NumberedLines::of(text) {
        match known.read(line) {
            Ok(Some(event)) => run_event(world, event, &mut report),
            Ok(None) => {}
            Err(fault) => return Err((number, TraceFault::from(fault))),
        }
    }
    Ok(report)
}
