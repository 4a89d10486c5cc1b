//! Writing schedules.
ghost use Rattle.std.specs.Prelude.{◌≡◌, ◌↔◌, ◌<◌, ◌^◌, ◌∷◌, ◌++◌, [], All, IfOk, IsTrue, OnOk};
ghost use Rattle.std.specs.Prelude.{codes, length};
ghost use Rattle.std.specs.Fmt.{decimal};
ghost use Rattle.std.specs.List.{flat_map};
ghost use Rattle.bip_model.specs.Naming.{IsName, name_in};
ghost use Rattle.bip_model.specs.Texts.{spaced};
ghost use Rattle.bip_partition.specs.Plans.{AreStations};
ghost use Rattle.bip_replay.specs.Items.{ReadsBack};
ghost use Rattle.bip_core.specs.declared.events.Event.TheVariants.{Bank, Try};
ghost use Rattle.bip_schedule.specs.Lines.{event_on};
ghost use Rattle.bip_schedule.specs.Schedules.{IsEventText};
ghost use Rattle.bip_schedule.specs.Writing.{HasSpelling, HaveSpelling, IsNamed, IsWritten};
ghost use Rattle.bip_schedule.specs.Writing.{event_line, ended_event_line, station_name};

use bip_bank::{BankStep, StationId};
use bip_core::Event;
use bip_model::{ClassId, InterId, write_word};
use bip_partition::Plan;
use itoa::Buffer;
use std::alloc::{AllocError, Global};

/// The text of events of a plan: a line for each. It reads back as the same events
/// (docs/ANSWERS.md, "Schedules").
pub fn write_schedule(alloc: Global, plan: &Plan, events: &[Event]) -> Result<Vec<u8>, AllocError>
    requires { HaveSpelling plan.now events.now }
    ensures text { IfOk result (λ text. IsWritten plan.now events.now text.items) }
    ensures reads_back { IfOk result (λ text. IsEventText plan.now text.items events.now) }
{
    let stations = plan.stations();
    let mut text = Vec::new(alloc);
    for event in events {
        write_line(&mut text, plan, stations, event)?;
    }
    Ok(text)
}

/// Whether events of a plan have a spelling: the plan has what they name, and a place among
/// messages is below 2^32 (docs/ANSWERS.md, "Schedules").
pub fn have_spelling(plan: &Plan, events: &[Event]) -> bool
    ensures { IsTrue result ↔ HaveSpelling plan.now events.now }
{
    all_have_spelling(plan, plan.stations(), events)
}

fn all_have_spelling(plan: &Plan, stations: &[InterId], events: &[Event]) -> bool
    ensures { IsTrue result ↔ All (HasSpelling plan.now stations.now) events.now }
{
    events
        .iter()
        .all(|event| has_spelling(plan, stations, event))
}

fn has_spelling(plan: &Plan, stations: &[InterId], event: &Event) -> bool
    ensures { IsTrue result ↔ HasSpelling plan.now stations.now event.now }
{
    match *event {
        Event::Mail(place) => is_value(place),
        Event::Try(class, inter) => {
            (class.0 as usize) < plan.classes().names().len()
                && (inter.0 as usize) < plan.model().interaction_names().len()
        }
        Event::Bank(BankStep::Deliver(place)) => is_value(place),
        Event::Bank(BankStep::Serve(station)) => is_station(stations, station),
        Event::Bank(BankStep::Pass(from, to) | BankStep::Ask(from, to)) => {
            is_station(stations, from) && is_station(stations, to)
        }
    }
}

fn is_value(place: usize) -> bool
    ensures { IsTrue result ↔ (place < 2 ^ 32) }
{
    place <= u32::MAX as usize
}

fn is_station(stations: &[InterId], station: StationId) -> bool
    ensures { IsTrue result ↔ (station.0 < length stations.now) }
{
    (station.0 as usize) < stations.len()
}

fn write_line(
    text: &mut Vec<u8>,
    plan: &Plan,
    stations: &[InterId],
    event: &Event,
) -> Result<(), AllocError>
    requires stations { AreStations plan.now stations.now }
    requires spelled { HasSpelling plan.now stations.now event.now }
    ensures text { OnOk result
        (text.new.items ≡ text.old.items ++ ended_event_line plan.now stations.now event.now) }
    ensures reads_back { OnOk result
        (ReadsBack (event_on plan.now stations.now) (event_line plan.now stations.now) event.now) }
{
    plan.recall();
    write_event(text, plan, stations, event)?;
    text.push(b'\n')?;
    Ok(())
}

/// Puts the words of an event last in a text, with one space between them, and no line feed. The
/// stations are those of the plan (docs/ANSWERS.md, "Schedules").
pub fn write_event(
    text: &mut Vec<u8>,
    plan: &Plan,
    stations: &[InterId],
    event: &Event,
) -> Result<(), AllocError>
    requires stations { AreStations plan.now stations.now }
    requires spelled { HasSpelling plan.now stations.now event.now }
    ensures text { OnOk result
        (text.new.items ≡ text.old.items ++ event_line plan.now stations.now event.now) }
    ensures named { OnOk result (IsNamed plan.now stations.now event.now) }
{
    match *event {
        Event::Mail(place) => write_place(text, b"mail", place),
        Event::Try(class, inter) => write_try(text, plan, class, inter),
        Event::Bank(step) => write_step(text, plan, stations, step),
    }
}

fn write_place(text: &mut Vec<u8>, verb: &[u8], place: usize) -> Result<(), AllocError>
    ensures { OnOk result
        (text.new.items ≡ text.old.items ++ (verb.now ++ flat_map spaced (decimal place ∷ []))) }
{
    text.extend_from_slice(verb)?;
    write_word(text, Buffer::new().format(place as u64).as_bytes())
}

fn write_try(
    text: &mut Vec<u8>,
    plan: &Plan,
    class: ClassId,
    inter: InterId,
) -> Result<(), AllocError>
    requires class { class.0 < length plan.now.classes.names }
    requires inter { inter.0 < length plan.now.model.interaction_names }
    ensures text { OnOk result
        (text.new.items ≡ text.old.items ++ event_line plan.now [] (Try class inter)) }
    ensures named { OnOk result (IsNamed plan.now [] (Try class inter)) }
{
    text.extend_from_slice(b"try")?;
    write_word(text, plan.classes().names()[class.0 as usize].as_bytes())?;
    write_inter(text, plan, inter)
}

fn write_inter(text: &mut Vec<u8>, plan: &Plan, inter: InterId) -> Result<(), AllocError>
    requires { inter.0 < length plan.now.model.interaction_names }
    ensures text { OnOk result
        (text.new.items
        ≡ text.old.items ++ spaced (name_in plan.now.model.interaction_names inter.0)) }
    ensures named { OnOk result (IsName (name_in plan.now.model.interaction_names inter.0)) }
{
    let name = &plan.model().interaction_names()[inter.0 as usize];
    write_word(text, name.as_bytes())
}

fn write_step(
    text: &mut Vec<u8>,
    plan: &Plan,
    stations: &[InterId],
    step: BankStep,
) -> Result<(), AllocError>
    requires stations { AreStations plan.now stations.now }
    requires spelled { HasSpelling plan.now stations.now (Bank step) }
    ensures text { OnOk result
        (text.new.items ≡ text.old.items ++ event_line plan.now stations.now (Bank step)) }
    ensures named { OnOk result (IsNamed plan.now stations.now (Bank step)) }
{
    match step {
        BankStep::Deliver(place) => write_place(text, b"deliver", place),
        BankStep::Serve(station) => {
            text.extend_from_slice(b"serve")?;
            write_station(text, plan, stations, station)
        }
        BankStep::Pass(from, to) => write_two(text, plan, stations, b"pass", from, to),
        BankStep::Ask(from, to) => write_two(text, plan, stations, b"ask", from, to),
    }
}

fn write_two(
    text: &mut Vec<u8>,
    plan: &Plan,
    stations: &[InterId],
    verb: &[u8],
    from: StationId,
    to: StationId,
) -> Result<(), AllocError>
    requires stations { AreStations plan.now stations.now }
    requires from { from.0 < length stations.now }
    requires to { to.0 < length stations.now }
    ensures text { OnOk result
        (text.new.items ≡ text.old.items ++ (verb.now ++ flat_map spaced
        (station_name plan.now stations.now from ∷ station_name plan.now stations.now to ∷ []))) }
    ensures from_named { OnOk result (IsName (station_name plan.now stations.now from)) }
    ensures to_named { OnOk result (IsName (station_name plan.now stations.now to)) }
{
    text.extend_from_slice(verb)?;
    write_station(text, plan, stations, from)?;
    write_station(text, plan, stations, to)
}

fn write_station(
    text: &mut Vec<u8>,
    plan: &Plan,
    stations: &[InterId],
    station: StationId,
) -> Result<(), AllocError>
    requires stations { AreStations plan.now stations.now }
    requires there { station.0 < length stations.now }
    ensures text { OnOk result
        (text.new.items
        ≡ text.old.items ++ spaced (station_name plan.now stations.now station)) }
    ensures named { OnOk result (IsName (station_name plan.now stations.now station)) }
{
    plan.recall();
    write_inter(text, plan, stations[station.0 as usize])
}
