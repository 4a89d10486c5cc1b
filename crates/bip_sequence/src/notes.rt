//! What is noted of a run for its sequence chart, event by event.
ghost use Rattle.std.specs.Prelude.{◌≡◌, ◌<◌, ◌^◌, ◌++◌, ◌+◌, [], ◌∷◌, length, All, IfErr, IfOk};
ghost use Rattle.std.specs.Prelude.{List, OnErr};
ghost use Rattle.std.specs.Prelude.{OnOk, Option};
ghost use Rattle.std.specs.Prelude.{drop, map, remove};
ghost use Rattle.std.specs.Option.{option_map};
ghost use Rattle.bip_model.specs.Numbering.{last_number};
ghost use Rattle.bip_core.specs.Runs.{AddsUp, IsEventCounted, IsRunOfEvents, report_of};
ghost use Rattle.bip_core.specs.Runs.{report_with};
ghost use Rattle.bip_core.specs.Worlds.{world_of};
ghost use Rattle.bip_core.specs.declared.events.Did.{Did};
ghost use Rattle.bip_partition.specs.Plans.{AreStations};
ghost use Rattle.bip_schedule.specs.Writing.{HasSpelling, HaveSpelling};
ghost use Rattle.bip_sequence.specs.Lifelines.{brief_of};
ghost use Rattle.bip_sequence.specs.Notes.{IsNotedEvent, count_event_rows, first_flight, flight_of};
ghost use Rattle.bip_sequence.specs.Notes.{flight_taken, flights_after, flights_left, noted};
ghost use Rattle.bip_sequence.specs.Notes.{row_of, rows_with};
ghost use Rattle.bip_core.specs.Runs.{lost_by};
ghost use Rattle.bip_sequence.specs.Notes.{AreFirstNotes, AreNoted, taken_by};

use crate::deeds::{Deed, deed_of};
use crate::lifelines::{Brief, Lifeline, brief_of, first_sender, happens_at};
use bip_bank::Bank;
use bip_core::{Did, Event, Message, Report, World, watch_event, world_laws};
use bip_model::InterId;
use bip_partition::Plan;
use bip_schedule::Schedule;
use bip_tell::{count_left, handed_on};
use std::alloc::{AllocError, Global};
use std::marker::Model;

/// How many events a sequence chart shows at most.
pub const MOST_EVENTS_SHOWN: u64 = 2_000;

/// What was sent: the message, in few words; the number of the event that sent it, 0 where it was
/// in flight at first; and from which lifeline.
#[derive(Clone, Copy)]
pub struct Flight {
    pub number: u64,
    pub from: Lifeline,
    pub brief: Brief,
}

/// A row of a sequence chart: an event with its number in the run, from 1; on which lifeline it
/// happens; the message that it took, as that was sent; what it did; and how many of its messages
/// were lost for want of memory.
#[derive(Clone, Copy)]
pub struct EventRow {
    pub number: u64,
    pub event: Event,
    pub at: Lifeline,
    pub taken: Option<Flight>,
    pub deed: Deed,
    pub lost: usize,
}

/// What is noted of a run: a row for each event that is shown, those behind the first `before` ones
/// up to number `until`; and, by place, how each message in flight was sent.
#[derive(Drop)]
pub struct Notes<'p> {
    plan: &'p Plan,
    stations: &'p [InterId],
    before: u64,
    until: u64,
    rows: Vec<EventRow>,
    in_flight: Vec<Flight>,
}

impl<'p> Model for Notes<'p> {
    ghost use Rattle.bip_sequence.specs.Notes.{AreKeptNotes, NotesContent};

    ghost Value = { NotesContent };

    ghost view = { λ n. record {
      plan = n.plan.now;
      stations = n.stations.now;
      before = n.before;
      until = n.until;
      rows = n.rows.items;
      in_flight = n.in_flight.items;
    } };

    ghost invariant = { λ n. AreKeptNotes (record {
      plan = n.plan.now;
      stations = n.stations.now;
      before = n.before;
      until = n.until;
      rows = n.rows.items;
      in_flight = n.in_flight.items;
    }) };
}

impl<'p> Notes<'p> {
    /// What is noted of a world before its first event: what is in flight. Events will be shown
    /// that come behind the first `before` ones, up to number `until`, counted from 1. The only
    /// error is want of memory.
    pub fn begin<B: Bank>(
        alloc: Global,
        world: &World<'p, B>,
        before: u64,
        until: u64,
    ) -> Result<Notes<'p>, AllocError>
        ensures { IfOk result (AreFirstNotes (world_of world.now) before until) }
    {
        let plan = world.plan();
        let in_flight = first_flights(alloc, world)?;
        Ok(Notes {
            plan,
            stations: plan.stations(),
            before,
            until,
            rows: Vec::new(alloc),
            in_flight,
        })
    }

    /// Notes an event that was done, which was handed this message, if one, and left so many in
    /// flight.
    fn note<B: Bank>(
        &mut self,
        number: u64,
        event: Event,
        handed: Option<Brief>,
        did: &Option<Did>,
        left: usize,
        world: &World<'p, B>,
    ) -> Result<(), AllocError>
        requires { HaveSpelling self.old.plan (event ∷ []) }
        ensures noted { OnOk result
            (self.new ≡ noted number event handed did.now left world.now.mail self.old) }
        ensures plan { self.new.plan ≡ self.old.plan }
    {
        if self.until < number {
            return Ok(());
        }
        let row = row_of(self, number, event, handed, did);
        put_row(&mut self.rows, self.before, row)?;
        put_flights(&mut self.in_flight, &row, did, left, world)?;
        Ok(())
    }

    /// The plan of the world.
    pub fn plan(&self) -> &'p Plan
        ensures { result.now ≡ self.now.plan }
    {
        self.plan
    }

    /// Its stations, in their order.
    pub fn stations(&self) -> &'p [InterId]
        ensures stations { result.now ≡ self.now.stations }
        ensures of_plan { AreStations self.now.plan result.now }
    {
        self.stations
    }

    /// How many events come before the first one that is shown.
    pub fn before(&self) -> u64
        ensures { result ≡ self.now.before }
    {
        self.before
    }

    /// The rows of the events that are shown, so far, in order.
    pub fn rows(&self) -> &[EventRow]
        ensures rows { result.now ≡ self.now.rows }
        ensures spelled { All (λ (row : EventRow). HasSpelling self.now.plan self.now.stations
            row.event) result.now }
    {
        self.rows.as_slice()
    }

    /// How each message in flight was sent, by place.
    pub fn in_flight(&self) -> &[Flight]
        ensures { result.now ≡ self.now.in_flight }
    {
        self.in_flight.as_slice()
    }
}

/// How many of so many events are shown.
pub fn count_event_rows(before: u64, until: u64, events: u64) -> u64
    ensures { result ≡ count_event_rows before until events }
{
    until.min(events).saturating_sub(before)
}

/// Does one event of a world, counts it, and notes it for a sequence chart: the message that it
/// takes, with the event that sent it; on which lifeline it happens; what it did; and what it sends
/// (docs/DRAW.md, "Sequence charts"). The only error is want of memory for the notes, which may
/// lack a part of it then: the event is done or skipped, and counted. It asks notes of the world's
/// plan, an event that has a spelling, and the report of fewer than 2^64 - 1 events.
pub fn note_event<'p, B: Bank>(
    notes: &mut Notes<'p>,
    world: &mut World<'p, B>,
    event: Event,
    report: &mut Report,
) -> Result<(), AllocError>
    requires plan { notes.old.plan ≡ world.old.plan }
    requires spelled { HaveSpelling notes.old.plan (event ∷ []) }
    requires room { report.old.events < last_number }
    requires adds_up { AddsUp report.old }
    ensures noted { OnOk result ((did : Option Did) × IsNotedEvent (report.old.events + 1) event did
        (world_of world.old) (world_of world.new) notes.old notes.new
        × (report.new ≡ report_with report.old did)) }
    ensures unnoted { IfErr result (λ e. IsEventCounted event (world_of world.old)
        (world_of world.new) report.old report.new) }
    ensures adds_up { AddsUp report.new }
    ensures plan { world.new.plan ≡ world.old.plan }
    ensures kept { notes.new.plan ≡ notes.old.plan }
{
    world_laws();
    let number = report.events + 1;
    let handed = handed_on(world, event);
    let left = count_left(&handed, world.mails());
    let brief = handed_brief(&handed);
    let did = watch_event(world, event, report);
    notes.note(number, event, brief, &did, left, world)?;
    Ok(())
}

/// Does the events of a schedule one after another, and notes each, as `note_event` does: in notes
/// that are begun in the same world. The report has their sums. The only error is want of memory
/// for the notes: then some of the events are done.
pub fn note_events<'p, B: Bank>(
    notes: &mut Notes<'p>,
    world: &mut World<'p, B>,
    events: Schedule<'_>,
) -> Result<Report, AllocError>
    requires plan { notes.old.plan ≡ world.old.plan }
    requires spelled { HaveSpelling notes.old.plan events }
    requires few { length events < 2 ^ 64 }
    ensures noted { IfOk result (λ report. (dids : List (Option Did))
        × AreNoted (world_of world.old) notes.old events.entry dids (world_of world.new) notes.new
        × (report ≡ report_of dids)) }
    ensures run { IfOk result (λ report. IsRunOfEvents events.entry (world_of world.old)
        (world_of world.new) report) }
    ensures plan { world.new.plan ≡ world.old.plan }
{
    let mut report = Report::empty();
    for event in events {
        note_event(notes, world, event, &mut report)?;
    }
    Ok(report)
}

fn handed_brief(handed: &Option<Message>) -> Option<Brief>
    ensures { result ≡ option_map brief_of handed.now }
{
    match handed {
        Some(message) => Some(brief_of(message)),
        None => None,
    }
}

/// How each message in flight at first was sent.
fn first_flights<'p, B: Bank>(
    alloc: Global,
    world: &World<'p, B>,
) -> Result<Vec<Flight>, AllocError>
    ensures { IfOk result (λ flights. flights.items ≡ map first_flight world.now.mail) }
{
    let mut flights = Vec::new(alloc);
    for place in 0..world.mails() {
        let Some(message) = world.message(place) else {
            unreachable!();
        };
        flights.push(first_flight(&message))?;
    }
    Ok(flights)
}

fn first_flight(message: &Message) -> Flight
    ensures { result ≡ first_flight message.now }
{
    let brief = brief_of(message);
    Flight {
        number: 0,
        from: first_sender(brief),
        brief,
    }
}

fn flight_of(number: u64, at: Lifeline, message: &Message) -> Flight
    ensures { result ≡ flight_of number at message.now }
{
    Flight {
        number,
        from: at,
        brief: brief_of(message),
    }
}

/// How the message was sent that an event takes.
fn flight_taken(event: Event, flights: &[Flight]) -> Option<Flight>
    ensures { result ≡ flight_taken event flights.now }
{
    match event {
        Event::Mail(place) => flights.get(place).copied(),
        _ => None,
    }
}

fn row_of<'p>(
    notes: &Notes<'p>,
    number: u64,
    event: Event,
    handed: Option<Brief>,
    did: &Option<Did>,
) -> EventRow
    ensures { result
        ≡ row_of notes.now.stations number event handed did.now notes.now.in_flight }
{
    EventRow {
        number,
        event,
        at: happens_at(notes.stations, event, handed),
        taken: taken_by(event, did, notes.in_flight.as_slice()),
        deed: deed_of(did),
        lost: lost_by(did),
    }
}

fn taken_by(event: Event, did: &Option<Did>, flights: &[Flight]) -> Option<Flight>
    ensures { result ≡ taken_by event did.now flights.now }
{
    match did {
        Some(_) => flight_taken(event, flights),
        None => None,
    }
}

fn lost_by(did: &Option<Did>) -> usize
    ensures { result ≡ lost_by did.now }
{
    match did {
        Some(did) => did.lost,
        None => 0,
    }
}

/// Puts a row last, where its event is shown.
fn put_row(rows: &mut Vec<EventRow>, before: u64, row: EventRow) -> Result<(), AllocError>
    ensures ok { OnOk result (rows.new.items ≡ rows_with before row rows.old.items) }
    ensures err { OnErr result (rows.new.items ≡ rows.old.items) }
{
    if before < row.number {
        rows.push(row)?;
    }
    Ok(())
}

/// Takes out the flight of the message that an event takes, and puts last those of what it sends:
/// of the messages behind those that it left in flight.
fn put_flights<'p, B: Bank>(
    flights: &mut Vec<Flight>,
    row: &EventRow,
    did: &Option<Did>,
    left: usize,
    world: &World<'p, B>,
) -> Result<(), AllocError>
    ensures { OnOk result (flights.new.items ≡ flights_after row.now.number row.now.event row.now.at
        did.now left world.now.mail flights.old.items) }
{
    if did.is_none() {
        return Ok(());
    }
    take_flight(flights, row.event);
    put_sent(flights, row.number, row.at, left, world)?;
    Ok(())
}

/// Takes out the flight of the message that an event takes.
fn take_flight(flights: &mut Vec<Flight>, event: Event)
    ensures { flights.new.items ≡ flights_left event flights.old.items }
{
    match event {
        Event::Mail(place) => remove_flight(flights, place),
        _ => {}
    }
}

/// Takes out the flight at a place, where there is one.
fn remove_flight(flights: &mut Vec<Flight>, place: usize)
    ensures { flights.new.items ≡ remove flights.old.items place }
{
    if place < flights.len() {
        let _flight = flights.remove(place);
    }
}

/// Puts last the flights of the messages in flight from a place on, which an event of a number sent
/// from a lifeline.
fn put_sent<'p, B: Bank>(
    flights: &mut Vec<Flight>,
    number: u64,
    at: Lifeline,
    left: usize,
    world: &World<'p, B>,
) -> Result<(), AllocError>
    ensures { OnOk result (flights.new.items
        ≡ flights.old.items ++ map (flight_of number at) (drop left world.now.mail)) }
{
    for place in left..world.mails() {
        let Some(message) = world.message(place) else {
            unreachable!();
        };
        flights.push(flight_of(number, at, &message))?;
    }
    Ok(())
}
