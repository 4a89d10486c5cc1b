//! What a line of a schedule says: an event by names, and the event of a plan.
ghost use Rattle.std.specs.Prelude.{◌≡◌, ◌==◌, ◌<◌, IfOk, IfSome};
ghost use Rattle.std.specs.Prelude.{length, position};
ghost use Rattle.std.specs.Option.{option_map};
ghost use Rattle.bip_bank.specs.declared.banks.StationId.{StationId};
ghost use Rattle.bip_core.specs.declared.events.Event.{Event};
ghost use Rattle.bip_model.specs.Naming.{same_text};
ghost use Rattle.bip_model.specs.Texts.{words};
ghost use Rattle.bip_model.specs.declared.numbering.InterId.{InterId};
ghost use Rattle.bip_partition.specs.Plans.{AreStations};
ghost use Rattle.bip_schedule.specs.Lines.{event_known, event_on, event_said, named_event_on};
ghost use Rattle.bip_schedule.specs.Lines.{one_said, station_known, stations_known, two_said};
ghost use Rattle.bip_schedule.specs.Writing.{HasSpelling};

use bip_bank::{BankStep, StationId};
use bip_core::Event;
use bip_model::{ClassId, InterId, Line, Name, Word, is_text, parse_value, read_words, split_word};
use bip_partition::Plan;
use bip_replay::LineFault;

/// An event as a line names it.
#[derive(Clone, Copy)]
pub(crate) enum NamedEvent {
    Mail(u32),
    Try(Name, Name),
    Serve(Name),
    Deliver(u32),
    Pass(Name, Name),
    Ask(Name, Name),
}

/// The event that a line says, of a plan with these stations; none of a line that says nothing.
pub(crate) fn read_line(
    plan: &Plan,
    stations: &[InterId],
    line: &[u8],
) -> Result<Option<Event>, LineFault>
    requires { AreStations plan.now stations.now }
    ensures says { result ≡ event_on plan.now stations.now line.now }
    ensures spelled { IfOk result (λ said. IfSome said (HasSpelling plan.now stations.now)) }
{
    let Some(named) = read_named(line)? else {
        return Ok(None);
    };
    match look_up(plan, stations, &named) {
        Some(event) => Ok(Some(event)),
        None => Err(LineFault::Unknown),
    }
}

// The event that a line names; none of a line that says nothing.
fn read_named(line: &[u8]) -> Result<Option<NamedEvent>, LineFault>
    ensures { result ≡ named_event_on line.now }
{
    match read_words(line) {
        Line::BadByte => Err(LineFault::Syntax),
        Line::Nothing => Ok(None),
        Line::Words(verb, rest) => match parse_event(verb, rest) {
            Some(event) => Ok(Some(event)),
            None => Err(LineFault::Syntax),
        },
    }
}

// The event of a line that begins with a word.
fn parse_event(verb: &[u8], line: &[u8]) -> Option<NamedEvent>
    ensures { result ≡ event_said verb.now (words line.now) }
{
    let (word, rest) = split_word(line)?;
    match split_word(rest) {
        None => parse_one(verb, word),
        Some((other, rest)) if split_word(rest).is_none() => parse_two(verb, word, other),
        Some(_) => None,
    }
}

// The event of a word with one more.
#[tactic(auto, unfolding(bip_model::specs::Words::name_of))]
fn parse_one(verb: &[u8], word: &[u8]) -> Option<NamedEvent>
    ensures { result ≡ one_said verb.now word.now }
{
    if is_text(verb, b"mail") {
        return Some(NamedEvent::Mail(parse_value(word)?));
    }
    if is_text(verb, b"deliver") {
        return Some(NamedEvent::Deliver(parse_value(word)?));
    }
    if is_text(verb, b"serve") {
        return Some(NamedEvent::Serve(Name::read(word)?));
    }
    None
}

// The event of a word with two more.
#[tactic(auto, unfolding(bip_model::specs::Words::name_of))]
fn parse_two(verb: &[u8], word: &[u8], other: &[u8]) -> Option<NamedEvent>
    ensures { result ≡ two_said verb.now word.now other.now }
{
    let word = Name::read(word)?;
    let other = Name::read(other)?;
    if is_text(verb, b"try") {
        return Some(NamedEvent::Try(word, other));
    }
    if is_text(verb, b"pass") {
        return Some(NamedEvent::Pass(word, other));
    }
    if is_text(verb, b"ask") {
        return Some(NamedEvent::Ask(word, other));
    }
    None
}

// The event of a plan that is named; none where the plan lacks one of its names.
fn look_up(plan: &Plan, stations: &[InterId], named: &NamedEvent) -> Option<Event>
    requires { AreStations plan.now stations.now }
    ensures known { result ≡ event_known plan.now stations.now named.now }
    ensures spelled { IfSome result (HasSpelling plan.now stations.now) }
{
    match *named {
        NamedEvent::Mail(place) => Some(Event::Mail(place as usize)),
        NamedEvent::Try(class, inter) => {
            let class = class_known(plan, &class)?;
            let inter = inter_known(plan, &inter)?;
            Some(Event::Try(class, inter))
        }
        NamedEvent::Serve(station) => {
            let station = station_known(plan, stations, &station)?;
            Some(Event::Bank(BankStep::Serve(station)))
        }
        NamedEvent::Deliver(place) => Some(Event::Bank(BankStep::Deliver(place as usize))),
        NamedEvent::Pass(from, to) => {
            let (from, to) = stations_known(plan, stations, &from, &to)?;
            Some(Event::Bank(BankStep::Pass(from, to)))
        }
        NamedEvent::Ask(from, to) => {
            let (from, to) = stations_known(plan, stations, &from, &to)?;
            Some(Event::Bank(BankStep::Ask(from, to)))
        }
    }
}

fn class_known(plan: &Plan, name: &Name) -> Option<ClassId>
    ensures known { option_map (λ k. k.0) result
        ≡ position (same_text name.now) plan.now.classes.names }
    ensures there { IfSome result (λ k. k.0 < length plan.now.classes.names) }
{
    plan.classes().number(name)
}

fn inter_known(plan: &Plan, name: &Name) -> Option<InterId>
    ensures known { option_map (λ a. a.0) result
        ≡ position (same_text name.now) plan.now.model.interaction_names }
    ensures there { IfSome result (λ a. a.0 < length plan.now.model.interaction_names) }
{
    plan.model().interaction(name)
}

// Two stations by their names, where both are known.
fn stations_known(
    plan: &Plan,
    stations: &[InterId],
    from: &Name,
    to: &Name,
) -> Option<(StationId, StationId)>
    requires { AreStations plan.now stations.now }
    ensures known { (event : StationId → StationId → Event)
        → option_map (λ both. event both.0 both.1) result
        ≡ stations_known plan.now stations.now event from.now to.now }
    ensures there { IfSome result (λ both.
        (both.0.0 < length stations.now) × (both.1.0 < length stations.now)) }
{
    let from = station_known(plan, stations, from)?;
    let to = station_known(plan, stations, to)?;
    Some((from, to))
}

// The station of a reserved interaction; none of any other.
fn station_known(plan: &Plan, stations: &[InterId], name: &Name) -> Option<StationId>
    requires { AreStations plan.now stations.now }
    ensures known { result ≡ station_known plan.now stations.now name.now }
    ensures there { IfSome result (λ s. s.0 < length stations.now) }
{
    let inter = inter_known(plan, name)?;
    let place = place_of(stations, inter)?;
    Some(StationId(place as u16))
}

fn place_of(stations: &[InterId], inter: InterId) -> Option<usize>
    ensures place { result ≡ position (λ (a : InterId). a.0 == inter.0) stations.now }
    ensures there { IfSome result (λ s. s < length stations.now) }
{
    stations.iter().position(|other| *other == inter)
}
