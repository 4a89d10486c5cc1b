//! Hands that tell a gate what their node does.
ghost use Rattle.std.specs.Prelude.{◌≡◌, None};
ghost use Rattle.bip_host.specs.Addressed.{IsPostedTo};
ghost use Rattle.bip_host.specs.Classes.{ClassFits};
ghost use Rattle.bip_host.specs.Components.{ComponentFits};
ghost use Rattle.bip_host.specs.Hands.{IsClassActDone, IsGot, IsStationActDone};
ghost use Rattle.bip_host.specs.Layers.{drawn_with};
ghost use Rattle.bip_host.specs.Stations.{StationFits};
ghost use Rattle.bip_host.specs.declared.messages.ToClass.TheVariants.{Offer};

use crate::actors::Hands;
use crate::acts::{NodeAct, Parcel};
use crate::classes::{ClassAct, ClassActor, ClassAnswer, Reserved};
use crate::components::{ComponentActor, Offering};
use crate::counts::Posted;
use crate::forks::ForkActor;
use crate::gates::{Gate, Point};
use crate::hands::{ClassHands, ComponentHands, StationHands};
use crate::messages::{ToClass, ToStation};
use crate::rings::RingActor;
use crate::stations::{StationAct, StationAnswer};
use crate::waiting::Outcome;
use bip_bank::StationId;
use bip_forks::{Neighbours, other_of};
use bip_model::{ClassId, InterId, Notify, Reply};
use std::sync::Wait;
use std::sync::ledger::Ledger;

/// A component's hands, whose gate is told what is done with them.
#[derive(Drop)]
pub(crate) struct NotingComponent<'h, 'g, G> {
    pub(crate) hands: ComponentHands<'h>,
    pub(crate) gate: &'g G,
}

impl<'h, 'g, 'p, G: Gate> Hands<ComponentActor<'p>> for NotingComponent<'h, 'g, G> {
    ghost drawn = { λ _. 0 };

    fn has_message(&mut self) -> bool
        ensures { IsGot self.old.hands.intake None self.new.hands.intake }
    {
        !self.hands.intake.is_empty()
    }

    fn receive<R: Wait>(&mut self, rt: &R) -> Option<Notify>
        ensures { IsGot self.old.hands.intake result self.new.hands.intake }
    {
        let heard = self.hands.intake.receive(rt)?;
        let parcel = Parcel::Notice(heard.comp, heard.number);
        self.gate.note(rt, NodeAct::Takes(parcel));
        Some(heard)
    }

    fn act<R: Wait>(&mut self, rt: &R, act: Offering) -> Posted
        ensures fits { ComponentFits act result }
        ensures put { IsPostedTo act.class.0 (Offer act.offer)
            self.old.hands.classes.outlets.items result self.new.hands.classes.outlets.items }
    {
        self.hands.act(rt, act)
    }

    fn count_drawn(&self) -> u64
        ensures { result ≡ 0 }
    {
        0
    }
}

/// A class's hands, whose gate is told what is done with them.
#[derive(Drop)]
pub(crate) struct NotingClass<'h, 'm, 'g, 'p, L: Ledger, G> {
    pub(crate) hands: ClassHands<'h, 'm, 'g, 'p, L, G>,
    /// Which request was granted, where its grant waits for those with lower serials.
    pub(crate) waits: Option<OwnRequest>,
}

/// A request that a class asks for: its class, its interaction and its number.
#[derive(Clone, Copy, Debug)]
pub(crate) struct OwnRequest {
    class: ClassId,
    inter: InterId,
    number: u64,
}

impl OwnRequest {
    fn request(self) -> Parcel {
        Parcel::Request(self.class, self.inter, self.number)
    }

    fn reply(self) -> Parcel {
        Parcel::Reply(self.class, self.inter, self.number)
    }
}

impl<'h, 'm, 'g, 'p, L: Ledger, G: Gate> NotingClass<'h, 'm, 'g, 'p, L, G> {
    /// Does an act that asks the third layer, and tells what came of it.
    fn ask<R: Wait>(&mut self, rt: &R, act: ClassAct, asked: OwnRequest) -> ClassAnswer
        ensures fits { ClassFits act result }
        ensures put { IsClassActDone act self.old.hands result self.new.hands }
    {
        let held = self.hands.gate.hold(rt);
        let answer = self.hands.act(rt, act);
        match &answer {
            ClassAnswer::Decided(Ok(reserved)) => {
                self.note_decided(rt, asked, decided_act(asked.inter, reserved));
            }
            ClassAnswer::Waits(_) => {
                self.hands.gate.note(rt, NodeAct::Takes(asked.request()));
                self.hands.gate.note(rt, NodeAct::Serves(asked.inter));
                self.waits = Some(asked);
            }
            _ => {}
        }
        drop(held);
        answer
    }

    /// Tells that a request was taken and decided on, and that the answer was heard.
    fn note_decided<R: Wait>(&self, rt: &R, asked: OwnRequest, decided: NodeAct) {
        let gate = self.hands.gate;
        gate.note(rt, NodeAct::Takes(asked.request()));
        gate.note(rt, decided);
        gate.note(rt, NodeAct::Takes(asked.reply()));
    }

    /// Tells that a local grant stands in the book, by its interaction, where it does.
    fn note_appended<R: Wait>(&self, rt: &R, inter: InterId, answer: &ClassAnswer) {
        if let ClassAnswer::Appended(Some(_)) = answer {
            let gate = self.hands.gate;
            gate.note(rt, NodeAct::Grants(self.hands.class, inter));
        }
    }

    /// Tells that the grant that waited stands in the book, where it does.
    fn note_looked<R: Wait>(&mut self, rt: &R, answer: &ClassAnswer)
        ensures { self.new.hands ≡ self.old.hands }
    {
        if let ClassAnswer::Looked(Outcome::Entered(_)) = answer {
            if let Some(asked) = self.waits.take() {
                let gate = self.hands.gate;
                gate.note(rt, NodeAct::Takes(asked.reply()));
            }
        }
    }
}

/// What a table's decision on the request for an interaction is.
fn decided_act(inter: InterId, reserved: &Reserved) -> NodeAct {
    match reserved {
        Reserved::Granted(..) => NodeAct::Serves(inter),
        Reserved::Refused { comp, used } => NodeAct::Refuses(inter, *comp, *used),
    }
}

impl<'h, 'm, 'g, 'p, L: Ledger, G: Gate> Hands<ClassActor<'p>>
    for NotingClass<'h, 'm, 'g, 'p, L, G> {
    ghost use Rattle.bip_host.specs.Layers.{drawn_with};

    ghost drawn = { λ noting. drawn_with noting.hands.layer };

    fn has_message(&mut self) -> bool
        ensures { IsGot self.old.hands.intake None self.new.hands.intake }
    {
        !self.hands.intake.is_empty()
    }

    fn receive<R: Wait>(&mut self, rt: &R) -> Option<ToClass>
        ensures { IsGot self.old.hands.intake result self.new.hands.intake }
    {
        let heard = self.hands.intake.receive(rt)?;
        let parcel = parcel_to_class(self.hands.class, &heard);
        self.hands.gate.note(rt, NodeAct::Takes(parcel));
        Some(heard)
    }

    fn act<R: Wait>(&mut self, rt: &R, act: ClassAct) -> ClassAnswer
        ensures fits { ClassFits act result }
        ensures put { IsClassActDone act self.old.hands result self.new.hands }
    {
        match act {
            ClassAct::Ask(request) => {
                let asked = OwnRequest {
                    class: request.class,
                    inter: request.inter,
                    number: request.request,
                };
                self.ask(rt, ClassAct::Ask(request), asked)
            }
            ClassAct::Append(grant) => {
                let inter = grant.inter;
                let answer = self.hands.act(rt, ClassAct::Append(grant));
                self.note_appended(rt, inter, &answer);
                answer
            }
            ClassAct::Look => {
                let answer = self.hands.act(rt, ClassAct::Look);
                self.note_looked(rt, &answer);
                answer
            }
            ClassAct::Pass(at) => {
                if let Point::Asked(class, inter) = at {
                    self.hands.gate.note(rt, NodeAct::Asks(class, inter));
                }
                self.hands.act(rt, ClassAct::Pass(at))
            }
            ClassAct::Tell(notify) => self.hands.act(rt, ClassAct::Tell(notify)),
        }
    }

    fn count_drawn(&self) -> u64
        ensures { result ≡ drawn_with self.now.hands.layer }
    {
        self.hands.layer.count_drawn()
    }
}

/// What a class hears, as a message.
fn parcel_to_class(class: ClassId, heard: &ToClass) -> Parcel {
    match heard {
        ToClass::Offer(offer) => Parcel::Offer(class, offer.comp, offer.number),
        ToClass::Granted { entry, request, .. } => Parcel::Reply(class, entry.inter(), *request),
        ToClass::Refused(reply) => Parcel::of_reply(reply),
    }
}

/// A station's hands, whose gate is told what is done with them.
#[derive(Drop)]
pub(crate) struct NotingStation<'h, 'm, 'g, G> {
    pub(crate) hands: StationHands<'h, 'm>,
    pub(crate) gate: &'g G,
}

impl<'h, 'm, 'g, G: Gate> NotingStation<'h, 'm, 'g, G> {
    /// The next message, if there is one.
    fn receive_for<R: Wait>(&mut self, rt: &R) -> Option<ToStation>
        ensures { IsGot self.old.hands.intake result self.new.hands.intake }
    {
        let heard = self.hands.intake.receive(rt)?;
        if let Some(parcel) = parcel_to_station(self.hands.number, &heard) {
            self.gate.note(rt, NodeAct::Takes(parcel));
        }
        Some(heard)
    }

    /// Does an act.
    fn act_for<R: Wait>(&mut self, rt: &R, act: StationAct) -> StationAnswer
        ensures fits { StationFits act result }
        ensures put { IsStationActDone act self.old.hands result self.new.hands }
    {
        let done = act_of(self.hands.number, &act);
        let answer = self.hands.act_for(rt, act);
        if let Some(done) = done {
            if is_done(&answer) {
                self.gate.note(rt, done);
            }
        }
        answer
    }
}

/// What the station with a number hears, as a message; none is told of a token that goes round.
fn parcel_to_station(number: StationId, heard: &ToStation) -> Option<Parcel> {
    match heard {
        ToStation::Asked(request) => Some(Parcel::of_request(request)),
        ToStation::Token(_) => None,
        ToStation::Fork(fork) => {
            let from = other_of(fork.pair(), number)?;
            Some(Parcel::Fork(from, number))
        }
        ToStation::Ask(token) => {
            let from = other_of(token.pair(), number)?;
            Some(Parcel::Ask(from, number))
        }
    }
}

/// What the station with a number does by an act, if it is one of which is told.
fn act_of(number: StationId, act: &StationAct) -> Option<NodeAct> {
    match act {
        StationAct::Append(grant) => Some(NodeAct::Serves(grant.inter)),
        StationAct::Answer(
            ToClass::Refused(
                Reply::Refused {
                    inter,
                    comp,
                    used,
                    ..
                },
            ),
        ) => Some(NodeAct::Refuses(*inter, *comp, *used)),
        StationAct::Answer(_) => None,
        StationAct::Share(to, ToStation::Fork(_)) => {
            Some(NodeAct::Sends(Parcel::Fork(number, *to)))
        }
        StationAct::Share(to, ToStation::Ask(_)) => Some(NodeAct::Sends(Parcel::Ask(number, *to))),
        StationAct::Share(_, _) => None,
    }
}

/// Whether an act was done: a grant stands in the book, an answer is put or lost, what is shared
/// didn't come back.
fn is_done(answer: &StationAnswer) -> bool {
    match answer {
        StationAnswer::Appended(entry) => entry.is_some(),
        StationAnswer::Answered(_) => true,
        StationAnswer::Shared(back) => back.is_none(),
    }
}

impl<'h, 'm, 'g, G: Gate> Hands<RingActor> for NotingStation<'h, 'm, 'g, G> {
    ghost drawn = { λ _. 0 };

    fn has_message(&mut self) -> bool
        ensures { IsGot self.old.hands.intake None self.new.hands.intake }
    {
        !self.hands.intake.is_empty()
    }

    fn receive<R: Wait>(&mut self, rt: &R) -> Option<ToStation>
        ensures { IsGot self.old.hands.intake result self.new.hands.intake }
    {
        self.receive_for(rt)
    }

    fn act<R: Wait>(&mut self, rt: &R, act: StationAct) -> StationAnswer
        ensures fits { StationFits act result }
        ensures put { IsStationActDone act self.old.hands result self.new.hands }
    {
        self.act_for(rt, act)
    }

    fn count_drawn(&self) -> u64
        ensures { result ≡ 0 }
    {
        0
    }
}

impl<'h, 'm, 'g, G: Gate> Hands<ForkActor> for NotingStation<'h, 'm, 'g, G> {
    ghost drawn = { λ _. 0 };

    fn has_message(&mut self) -> bool
        ensures { IsGot self.old.hands.intake None self.new.hands.intake }
    {
        !self.hands.intake.is_empty()
    }

    fn receive<R: Wait>(&mut self, rt: &R) -> Option<ToStation>
        ensures { IsGot self.old.hands.intake result self.new.hands.intake }
    {
        self.receive_for(rt)
    }

    fn act<R: Wait>(&mut self, rt: &R, act: StationAct) -> StationAnswer
        ensures fits { StationFits act result }
        ensures put { IsStationActDone act self.old.hands result self.new.hands }
    {
        self.act_for(rt, act)
    }

    fn count_drawn(&self) -> u64
        ensures { result ≡ 0 }
    {
        0
    }
}
