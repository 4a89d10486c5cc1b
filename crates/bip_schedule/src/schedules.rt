//! Reading schedules: their events as a list, or one after another.
ghost use Rattle.std.specs.Prelude.{◌≡◌, ◌<◌, ◌^◌, All, IfErr, IfOk, length};
ghost use Rattle.bip_partition.specs.Plans.{AreStations};
ghost use Rattle.bip_replay.specs.Items.{Reads};
ghost use Rattle.bip_schedule.specs.Laws.{IsFault};
ghost use Rattle.bip_schedule.specs.Lines.{event_on};
ghost use Rattle.bip_schedule.specs.Schedules.{IsEventText, IsScheduleFault};
ghost use Rattle.bip_schedule.specs.Writing.{HasSpelling, HaveSpelling};

use crate::known::KnownLines;
use crate::lines::read_line;
use bip_core::Event;
use bip_model::{InterId, NumberedLines};
use bip_partition::Plan;
use bip_replay::TraceFault;
use std::alloc::Global;
use std::marker::Model;

/// The events of a schedule for a plan, or the number of the first line at fault with its fault;
/// what follows that line doesn't count. Want of memory names the line of an event, and no line
/// before it is at fault. What is read can be written (docs/ANSWERS.md, "Schedules").
pub fn read_schedule(
    alloc: Global,
    plan: &Plan,
    text: &[u8],
) -> Result<Vec<Event>, (u64, TraceFault)>
    ensures events { IfOk result (λ events. IsEventText plan.now text.now events.items) }
    ensures spelled { IfOk result (λ events. HaveSpelling plan.now events.items) }
    ensures fault { IfErr result (λ e. IsScheduleFault plan.now text.now e.0 e.1) }
{
    let stations = plan.stations();
    let mut events = Vec::new(alloc);
    for (number, line) in NumberedLines::of(text) {
        if let Err(fault) = read_one(&mut events, plan, stations, line) {
            return Err((number, fault));
        }
    }
    Ok(events)
}

// The event of a line, put last, or the line's fault.
fn read_one(
    events: &mut Vec<Event>,
    plan: &Plan,
    stations: &[InterId],
    line: &[u8],
) -> Result<(), TraceFault>
    requires { AreStations plan.now stations.now }
    ensures reads { Reads (event_on plan.now stations.now) events.old.items line.now result
        events.new.items }
    ensures spelled { All (HasSpelling plan.now stations.now) events.old.items
        → All (HasSpelling plan.now stations.now) events.new.items }
{
    match read_line(plan, stations, line)? {
        None => Ok(()),
        Some(event) => events.push(event).map_err(|_| TraceFault::Memory),
    }
}

/// A text that is a schedule for a plan, as its events, one after another; they stand in no list.
/// Contracts see the list of those that are left.
#[derive(Drop)]
pub struct Schedule<'t> {
    known: KnownLines<'t>,
    lines: NumberedLines<'t>,
}

impl<'t> Model for Schedule<'t> {
    ghost use Rattle.std.specs.Prelude.{List};
    ghost use Rattle.bip_core.specs.declared.events.Event.{Event};
    ghost use Rattle.bip_schedule.specs.Lines.{event_on};
    ghost use Rattle.bip_schedule.specs.Schedules.{AreWell, items_left};

    ghost Value = { List Event };

    ghost view = { λ s. items_left (event_on s.known.plan s.known.stations) s.lines };

    ghost invariant = { λ s. AreWell (event_on s.known.plan s.known.stations) s.lines };
}

impl<'t> Schedule<'t> {
    /// The schedule that a text is for a plan; else the number of its first line at fault with its
    /// fault, which isn't want of memory. What follows that line doesn't count. What is read can be
    /// written (docs/ANSWERS.md, "Schedules").
    pub fn of(
        alloc: Global,
        plan: &'t Plan,
        text: &'t [u8],
    ) -> Result<Schedule<'t>, (u64, TraceFault)>
        ensures events { IfOk result (λ events. IsEventText plan.now text.now events) }
        ensures spelled { IfOk result (λ events. HaveSpelling plan.now events) }
        ensures few { IfOk result (λ events. length events < 2 ^ 64) }
        ensures fault { IfErr result (λ e. IsFault plan.now text.now e.0 e.1) }
    {
        let mut known = KnownLines::of(alloc, plan);
        for (number, line) in NumberedLines::of(text) {
            if let Err(fault) = known.read(line) {
                return Err((number, TraceFault::from(fault)));
            }
        }
        let lines = NumberedLines::of(text);
        Ok(Schedule { known, lines })
    }
}

impl<'t> Iterator for Schedule<'t> {
    ghost use Rattle.std.specs.Iterator.{YieldsFirst, item_count};

    type Item = Event;

    ghost next_gives = { YieldsFirst (λ left. left) };

    ghost remaining = { item_count (λ left. left) };

    fn next(&mut self) -> Option<Event> {
        while let Some((_, line)) = self.lines.next() {
            match self.known.read(line) {
                Ok(Some(event)) => return Some(event),
                Ok(None) => {}
                // No line of a schedule is at fault.
                Err(_) => unreachable!(),
            }
        }
        None
    }
}
