//! The lifelines of a sequence chart, and messages in few words.
ghost use Rattle.std.specs.Prelude.{◌≡◌, ◌++◌, ◌==◌, OnOk, position};
ghost use Rattle.bip_sequence.specs.Lifelines.{brief_of, brief_text, first_sender, happens_at};
ghost use Rattle.bip_sequence.specs.Lifelines.{lifeline_name, reply_brief, station_of};
ghost use Rattle.bip_sequence.specs.Lifelines.{station_text, taker};

use bip_bank::BankStep;
use bip_core::{Event, Message};
use bip_model::{ClassId, CompId, InterId, Model, Number, PortId, Reply};
use bip_partition::Plan;
use bip_tell::{write_asked, write_class, write_comp, write_inter, write_numbered, write_port};
use std::alloc::AllocError;

/// A lifeline: that of a component, of a class, of a station by its place among the stations; or
/// none of these, beside which stands what has no node of its own.
#[derive(Clone, Copy)]
pub enum Lifeline {
    Outside,
    Component(CompId),
    Class(ClassId),
    Station(usize),
}

/// A message in few words: what it is, who sends or takes it, and its number.
#[derive(Clone, Copy)]
pub enum Brief {
    /// An offer of the component's move of this number, to the class.
    Offer(CompId, Number, ClassId),
    /// The class's request of this number, for the interaction.
    Request(ClassId, InterId, u64),
    /// The bank's grant of it.
    Granted(ClassId, InterId, u64),
    /// The bank's refusal of it.
    Refused(ClassId, InterId, u64),
    /// What the component is told: its move of this number is granted, by the port.
    Notify(CompId, Number, PortId),
}

/// A message in few words.
pub(crate) fn brief_of(message: &Message) -> Brief
    ensures { result ≡ brief_of message.now }
{
    match message {
        Message::OfferTo(class, offer) => Brief::Offer(offer.comp, offer.number, *class),
        Message::RequestToBank(request) => {
            Brief::Request(request.class, request.inter, request.request)
        }
        Message::ReplyToClass(reply) => reply_brief(reply),
        Message::NotifyComponent(notify) => {
            Brief::Notify(notify.comp, notify.number, notify.port)
        }
    }
}

fn reply_brief(reply: &Reply) -> Brief
    ensures { result ≡ reply_brief reply.now }
{
    match *reply {
        Reply::Granted {
            class,
            request,
            inter,
            ..
        } => Brief::Granted(class, inter, request),
        Reply::Refused {
            class,
            request,
            inter,
            ..
        } => Brief::Refused(class, inter, request),
    }
}

/// The lifeline of the station that decides for an interaction.
fn station_of(stations: &[InterId], inter: InterId) -> Lifeline
    ensures { result ≡ station_of stations.now inter.0 }
{
    match place_of(stations, inter) {
        Some(place) => Lifeline::Station(place),
        None => Lifeline::Outside,
    }
}

fn place_of(stations: &[InterId], inter: InterId) -> Option<usize>
    ensures { result ≡ position (λ (s : InterId). s.0 == inter.0) stations.now }
{
    stations.iter().position(|station| station.0 == inter.0)
}

/// The lifeline of who takes a message.
pub(crate) fn taker(stations: &[InterId], brief: Brief) -> Lifeline
    ensures { result ≡ taker stations.now brief }
{
    match brief {
        Brief::Offer(_, _, class) | Brief::Granted(class, _, _) | Brief::Refused(class, _, _) =>
            Lifeline::Class(class),
        Brief::Request(_, inter, _) => station_of(stations, inter),
        Brief::Notify(comp, _, _) => Lifeline::Component(comp),
    }
}

/// The lifeline of who sent a message that is in flight at first.
pub(crate) fn first_sender(brief: Brief) -> Lifeline
    ensures { result ≡ first_sender brief }
{
    match brief {
        Brief::Offer(comp, _, _) => Lifeline::Component(comp),
        _ => Lifeline::Outside,
    }
}

/// The lifeline of the node that an event addresses, which is handed this message, if one.
pub(crate) fn happens_at(stations: &[InterId], event: Event, handed: Option<Brief>) -> Lifeline
    ensures { result ≡ happens_at stations.now event handed }
{
    match event {
        Event::Mail(_) => match handed {
            Some(brief) => taker(stations, brief),
            None => Lifeline::Outside,
        },
        Event::Try(class, _) => Lifeline::Class(class),
        Event::Bank(BankStep::Deliver(_)) => Lifeline::Outside,
        Event::Bank(BankStep::Serve(station)) => Lifeline::Station(station.0 as usize),
        Event::Bank(BankStep::Pass(from, _)) => Lifeline::Station(from.0 as usize),
        Event::Bank(BankStep::Ask(from, _)) => Lifeline::Station(from.0 as usize),
    }
}

/// Writes who stands on a lifeline.
pub(crate) fn write_lifeline_name(
    text: &mut Vec<u8>,
    plan: &Plan,
    stations: &[InterId],
    lifeline: Lifeline,
) -> Result<(), AllocError>
    ensures { OnOk result (text.new.items
        ≡ text.old.items ++ lifeline_name plan.now stations.now lifeline) }
{
    match lifeline {
        Lifeline::Outside => Ok(()),
        Lifeline::Component(comp) => write_comp(text, b"", plan.model(), comp),
        Lifeline::Class(class) => write_class(text, plan, class),
        Lifeline::Station(place) => write_station(text, plan.model(), stations, place),
    }
}

fn write_station(
    text: &mut Vec<u8>,
    model: &Model,
    stations: &[InterId],
    place: usize,
) -> Result<(), AllocError>
    ensures { OnOk result (text.new.items
        ≡ text.old.items ++ station_text model.now stations.now place) }
{
    match stations.get(place) {
        Some(inter) => write_inter(text, b"", model, *inter),
        None => Ok(()),
    }
}

/// Writes a message as the line of an event tells it (docs/TELL.md, "Messages").
pub(crate) fn write_brief(text: &mut Vec<u8>, plan: &Plan, brief: Brief) -> Result<(), AllocError>
    ensures { OnOk result (text.new.items ≡ text.old.items ++ brief_text plan.now brief) }
{
    match brief {
        Brief::Offer(comp, number, class) => {
            text.extend_from_slice(b" offer")?;
            write_numbered(text, plan.model(), comp, number)?;
            text.extend_from_slice(b" to")?;
            write_class(text, plan, class)
        }
        Brief::Request(class, inter, request) => {
            text.extend_from_slice(b" request")?;
            write_asked(text, plan, class, inter, request)
        }
        Brief::Granted(class, inter, request) => {
            text.extend_from_slice(b" granted")?;
            write_asked(text, plan, class, inter, request)
        }
        Brief::Refused(class, inter, request) => {
            text.extend_from_slice(b" refused")?;
            write_asked(text, plan, class, inter, request)
        }
        Brief::Notify(comp, number, port) => {
            text.extend_from_slice(b" notify")?;
            write_numbered(text, plan.model(), comp, number)?;
            write_port(text, plan.model(), comp, port)
        }
    }
}
