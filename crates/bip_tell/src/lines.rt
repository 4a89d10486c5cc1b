//! The line of an event, and what is in flight before the first one.
ghost use Rattle.std.specs.Prelude.{◌≡◌, ◌<◌, ◌++◌, ◌+◌, [], ◌∷◌, List, Option, OnOk, IfErr, IfOk};
ghost use Rattle.std.specs.Prelude.{codes, drop, length, map, ℕ};
ghost use Rattle.std.specs.Fmt.{decimal};
ghost use Rattle.bip_model.specs.Numbering.{last_number};
ghost use Rattle.bip_partition.specs.Plans.{AreStations};
ghost use Rattle.bip_core.specs.Runs.{AddsUp, report_with};
ghost use Rattle.bip_core.specs.Worlds.{world_of};
ghost use Rattle.bip_core.specs.declared.events.Did.{Did};
ghost use Rattle.bip_schedule.specs.Writing.{HasSpelling, HaveSpelling, event_line};
ghost use Rattle.bip_tell.specs.Lines.{IsLeftUntold, IsToldEvent, count_left};
ghost use Rattle.bip_tell.specs.Lines.{done_text, first_line, first_lines, handed_on, handed_text};
ghost use Rattle.bip_tell.specs.Lines.{line_head, lost_text, one_put, put_text};

use crate::answers::write_what;
use crate::hints::{Hint, hint_of};
use crate::messages::write_message;
use crate::words::write_count;
use bip_bank::Bank;
use bip_core::{Did, Event, Message, Report, World, watch_event, world_laws};
use bip_model::InterId;
use bip_partition::Plan;
use bip_schedule::write_event;
use itoa::Buffer;
use std::alloc::AllocError;

/// Puts last in a text what is in flight in a world before its first event: a line for each
/// message, with its place (docs/TELL.md). The only error is want of memory for the text, which may
/// have a part of it then.
pub fn tell_first<'p, B: Bank>(text: &mut Vec<u8>, world: &World<'p, B>) -> Result<(), AllocError>
    ensures { OnOk result (text.new.items
        ≡ text.old.items ++ first_lines world.now.plan world.now.mail) }
{
    let plan = world.plan();
    for place in 0..world.mails() {
        let Some(message) = world.message(place) else {
            unreachable!();
        };
        write_first(text, plan, place, &message)?;
    }
    Ok(())
}

/// Writes the line of a message that is in flight at first.
fn write_first(
    text: &mut Vec<u8>,
    plan: &Plan,
    place: usize,
    message: &Message,
) -> Result<(), AllocError>
    ensures { OnOk result
        (text.new.items ≡ text.old.items ++ first_line plan.now place message.now) }
{
    text.extend_from_slice(b"0 first:")?;
    write_count(text, place as u64)?;
    write_message(text, plan, message)?;
    text.push(b'\n')?;
    Ok(())
}

/// Does one event, counts it, and tells it in a line, which is put last in a text: its number in
/// the run, as the report counts it; the event as schedules spell it; the message that it hands on;
/// what the node answered that it addresses, with the interaction above for whose sake a try isn't
/// ready, the reasons of a request, and why a step of the bank does nothing; and each message that
/// this put into flight, at its place from then on (docs/TELL.md). The only error is want of memory
/// for the text, which may have a part of the line then: the event wasn't begun, or it is done or
/// skipped, and counted. It asks an event that has a spelling, and the report of fewer than
/// 2^64 - 1 events.
pub fn tell_event<'p, B: Bank>(
    text: &mut Vec<u8>,
    world: &mut World<'p, B>,
    event: Event,
    report: &mut Report,
) -> Result<(), AllocError>
    requires spelled { HaveSpelling world.old.plan (event ∷ []) }
    requires room { report.old.events < last_number }
    requires adds_up { AddsUp report.old }
    ensures told { OnOk result ((did : Option Did) × (line : List ℕ)
        × IsToldEvent (report.old.events + 1) event did (world_of world.old) (world_of world.new)
        line × (text.new.items ≡ text.old.items ++ line)
        × (report.new ≡ report_with report.old did)) }
    ensures untold { IfErr result (λ e. IsLeftUntold event (world_of world.old)
        (world_of world.new) report.old report.new) }
    ensures adds_up { AddsUp report.new }
    ensures plan { world.new.plan ≡ world.old.plan }
{
    world_laws();
    let plan = world.plan();
    let left = begin_line(text, plan, world, event, report.events + 1)?;
    let hint = hint_of(world, event);
    let did = watch_event(world, event, report);
    write_done(text, plan, world, hint, left, &did)?;
    text.push(b'\n')?;
    Ok(())
}

/// Begins the line of an event that is to be done, up to the message that it hands on. Answers how
/// many messages stay in flight.
fn begin_line<'p, B: Bank>(
    text: &mut Vec<u8>,
    plan: &Plan,
    world: &World<'p, B>,
    event: Event,
    number: u64,
) -> Result<usize, AllocError>
    requires plan { plan.now ≡ world.now.plan }
    requires spelled { HaveSpelling plan.now (event ∷ []) }
    ensures text { OnOk result ((stations : List InterId) × AreStations plan.now stations
        × (text.new.items ≡ text.old.items ++ line_head plan.now stations number event
        (handed_on event world.now.mail))) }
    ensures left { IfOk result (λ left. left
        ≡ count_left (handed_on event world.now.mail) (length world.now.mail)) }
{
    let handed = handed_on(world, event);
    write_head(text, plan, plan.stations(), event, number)?;
    write_handed(text, plan, &handed)?;
    Ok(count_left(&handed, world.mails()))
}

/// Writes the number of an event, and its words.
fn write_head(
    text: &mut Vec<u8>,
    plan: &Plan,
    stations: &[InterId],
    event: Event,
    number: u64,
) -> Result<(), AllocError>
    requires stations { AreStations plan.now stations.now }
    requires spelled { HasSpelling plan.now stations.now event }
    ensures { OnOk result (text.new.items ≡ text.old.items
        ++ (decimal number ++ (codes " " ++ (event_line plan.now stations.now event
        ++ codes ":")))) }
{
    text.extend_from_slice(Buffer::new().format(number).as_bytes())?;
    text.push(b' ')?;
    write_event(text, plan, stations, &event)?;
    text.push(b':')?;
    Ok(())
}

/// Writes the message that an event hands on, if there is one.
fn write_handed(text: &mut Vec<u8>, plan: &Plan, handed: &Option<Message>) -> Result<(), AllocError>
    ensures { OnOk result (text.new.items
        ≡ text.old.items ++ handed_text plan.now handed.now) }
{
    match handed {
        Some(message) => write_message(text, plan, message),
        None => Ok(()),
    }
}

/// The message that an event hands on, where there is one at its place.
pub fn handed_on<'p, B: Bank>(world: &World<'p, B>, event: Event) -> Option<Message>
    ensures { result ≡ handed_on event world.now.mail }
{
    match event {
        Event::Mail(place) => world.message(place),
        _ => None,
    }
}

/// How many messages stay in flight when the one that is handed on is taken out.
pub fn count_left(handed: &Option<Message>, count: usize) -> usize
    ensures { result ≡ count_left handed.now count }
{
    match handed {
        Some(_) => count.saturating_sub(1),
        None => count,
    }
}

/// Writes what an event did, behind which so many messages were left in flight.
fn write_done<'p, B: Bank>(
    text: &mut Vec<u8>,
    plan: &Plan,
    world: &World<'p, B>,
    hint: Hint,
    left: usize,
    did: &Option<Did>,
) -> Result<(), AllocError>
    ensures { OnOk result (text.new.items
        ≡ text.old.items ++ done_text plan.now hint left did.now world.now.mail) }
{
    match did {
        None => text.extend_from_slice(b" skipped"),
        Some(did) => {
            write_what(text, plan.model(), hint, &did.what)?;
            write_put(text, plan, world, left)?;
            write_lost(text, did.lost)
        }
    }
}

/// Writes the messages in flight from a place on, each with its place.
fn write_put<'p, B: Bank>(
    text: &mut Vec<u8>,
    plan: &Plan,
    world: &World<'p, B>,
    left: usize,
) -> Result<(), AllocError>
    ensures { OnOk result (text.new.items
        ≡ text.old.items ++ put_text plan.now left (drop left world.now.mail)) }
{
    for place in left..world.mails() {
        let Some(message) = world.message(place) else {
            unreachable!();
        };
        write_one_put(text, plan, place, &message)?;
    }
    Ok(())
}

/// Writes a message in flight with its place.
fn write_one_put(
    text: &mut Vec<u8>,
    plan: &Plan,
    place: usize,
    message: &Message,
) -> Result<(), AllocError>
    ensures { OnOk result
        (text.new.items ≡ text.old.items ++ one_put plan.now place message.now) }
{
    text.push(b',')?;
    write_count(text, place as u64)?;
    write_message(text, plan, message)
}

/// Writes how many messages were lost, if any.
pub fn write_lost(text: &mut Vec<u8>, lost: usize) -> Result<(), AllocError>
    ensures { OnOk result (text.new.items ≡ text.old.items ++ lost_text lost) }
{
    if lost == 0 {
        return Ok(());
    }
    text.extend_from_slice(b", lost")?;
    write_count(text, lost as u64)
}
