//! What actors of a host hear with and act with: inboxes, the third layer, the locked book, a gate.
ghost use Rattle.std.specs.Prelude.{◌≡◌, None};
ghost use Rattle.bip_host.specs.Addressed.{IsPostedTo};
ghost use Rattle.bip_host.specs.Classes.{ClassFits};
ghost use Rattle.bip_host.specs.Components.{ComponentFits};
ghost use Rattle.bip_host.specs.Hands.{IsClassActDone, IsGot, IsStationActDone};
ghost use Rattle.bip_host.specs.Layers.{drawn_with};
ghost use Rattle.bip_host.specs.Stations.{StationFits};
ghost use Rattle.bip_host.specs.declared.messages.ToClass.TheVariants.{Offer};

use crate::actors::Hands;
use crate::addressed::Addressed;
use crate::classes::{ClassAct, ClassActor, ClassAnswer};
use crate::components::{ComponentActor, Offering};
use crate::counts::Posted;
use crate::ends::{Intake, Outlet};
use crate::forks::ForkActor;
use crate::gates::Gate;
use crate::keepers::BookKeeper;
use crate::layers::ThirdLayer;
use crate::messages::{ToClass, ToStation};
use crate::rings::RingActor;
use crate::stations::{StationAct, StationAnswer};
use bip_bank::StationId;
use bip_model::{ClassId, Notify};
use std::sync::Wait;
use std::sync::ledger::Ledger;

/// What a component's actor hears with and acts with: its own inbox, and one of each class that
/// touches it.
#[derive(Drop)]
pub(crate) struct ComponentHands<'h> {
    pub(crate) intake: Intake<'h, Notify>,
    pub(crate) classes: Addressed<'h, ToClass>,
}

impl<'h, 'p> Hands<ComponentActor<'p>> for ComponentHands<'h> {
    ghost drawn = { λ _. 0 };

    fn has_message(&mut self) -> bool
        ensures { IsGot self.old.intake None self.new.intake }
    {
        !self.intake.is_empty()
    }

    fn receive<R: Wait>(&mut self, rt: &R) -> Option<Notify>
        ensures { IsGot self.old.intake result self.new.intake }
    {
        self.intake.receive(rt)
    }

    fn act<R: Wait>(&mut self, rt: &R, act: Offering) -> Posted
        ensures fits { ComponentFits act result }
        // Its offer is put for that class.
        ensures put { IsPostedTo act.class.0 (Offer act.offer) self.old.classes.outlets.items
            result self.new.classes.outlets.items }
    {
        self.classes
            .post(rt, act.class.0 as usize, ToClass::Offer(act.offer))
    }

    fn count_drawn(&self) -> u64
        ensures { result ≡ 0 }
    {
        0
    }
}

/// What a class's actor hears with and acts with: its own inbox, and one of each component that it
/// touches; of whom it asks for reserved interactions; its keeper, the gate, and its number.
#[derive(Drop)]
pub(crate) struct ClassHands<'h, 'm, 'g, 'p, L: Ledger, G> {
    pub(crate) intake: Intake<'h, ToClass>,
    pub(crate) components: Addressed<'h, Notify>,
    pub(crate) layer: ThirdLayer<'h, 'p, L>,
    pub(crate) keeper: BookKeeper<'h, 'm>,
    pub(crate) gate: &'g G,
    pub(crate) class: ClassId,
}

impl<'h, 'm, 'g, 'p, L: Ledger, G: Gate> Hands<ClassActor<'p>>
    for ClassHands<'h, 'm, 'g, 'p, L, G> {
    ghost use Rattle.bip_host.specs.Layers.{drawn_with};

    ghost drawn = { λ hands. drawn_with hands.layer };

    fn has_message(&mut self) -> bool
        ensures { IsGot self.old.intake None self.new.intake }
    {
        !self.intake.is_empty()
    }

    fn receive<R: Wait>(&mut self, rt: &R) -> Option<ToClass>
        ensures { IsGot self.old.intake result self.new.intake }
    {
        self.intake.receive(rt)
    }

    fn act<R: Wait>(&mut self, rt: &R, act: ClassAct) -> ClassAnswer
        ensures fits { ClassFits act result }
        // What is put is put for whom the act names.
        ensures put { IsClassActDone act self.old result self.new }
    {
        match act {
            ClassAct::Append(grant) => ClassAnswer::Appended(self.keeper.append(rt, grant)),
            ClassAct::Ask(request) => self.layer.ask(rt, request, &mut self.keeper),
            ClassAct::Look => ClassAnswer::Looked(self.layer.look(rt, &self.keeper)),
            ClassAct::Pass(at) => {
                self.gate.pass(rt, at);
                ClassAnswer::Passed
            }
            ClassAct::Tell(notify) => {
                let comp = notify.comp.0 as usize;
                ClassAnswer::Told(self.components.post(rt, comp, notify))
            }
        }
    }

    fn count_drawn(&self) -> u64
        ensures { result ≡ drawn_with self.now.layer }
    {
        self.layer.count_drawn()
    }
}

/// What a station's actor hears with and acts with: its own inbox, one of the class of its
/// interaction, and one of each station with which it shares something; its keeper, and its number.
#[derive(Drop)]
pub(crate) struct StationHands<'h, 'm> {
    pub(crate) intake: Intake<'h, ToStation>,
    pub(crate) class: Outlet<'h, ToClass>,
    pub(crate) stations: Addressed<'h, ToStation>,
    pub(crate) keeper: BookKeeper<'h, 'm>,
    pub(crate) number: StationId,
}

impl<'h, 'm> StationHands<'h, 'm> {
    pub(crate) fn act_for<R: Wait>(&mut self, rt: &R, act: StationAct) -> StationAnswer
        ensures fits { StationFits act result }
        ensures put { IsStationActDone act self.old result self.new }
    {
        match act {
            StationAct::Append(grant) => StationAnswer::Appended(self.keeper.append(rt, grant)),
            StationAct::Answer(message) => StationAnswer::Answered(self.class.post(rt, message)),
            StationAct::Share(to, message) => {
                StationAnswer::Shared(self.stations.send(rt, to.0 as usize, message))
            }
        }
    }
}

impl<'h, 'm> Hands<RingActor> for StationHands<'h, 'm> {
    ghost drawn = { λ _. 0 };

    fn has_message(&mut self) -> bool
        ensures { IsGot self.old.intake None self.new.intake }
    {
        !self.intake.is_empty()
    }

    fn receive<R: Wait>(&mut self, rt: &R) -> Option<ToStation>
        ensures { IsGot self.old.intake result self.new.intake }
    {
        self.intake.receive(rt)
    }

    fn act<R: Wait>(&mut self, rt: &R, act: StationAct) -> StationAnswer
        ensures fits { StationFits act result }
        // What is put is put for whom the act names.
        ensures put { IsStationActDone act self.old result self.new }
    {
        self.act_for(rt, act)
    }

    fn count_drawn(&self) -> u64
        ensures { result ≡ 0 }
    {
        0
    }
}

impl<'h, 'm> Hands<ForkActor> for StationHands<'h, 'm> {
    ghost drawn = { λ _. 0 };

    fn has_message(&mut self) -> bool
        ensures { IsGot self.old.intake None self.new.intake }
    {
        !self.intake.is_empty()
    }

    fn receive<R: Wait>(&mut self, rt: &R) -> Option<ToStation>
        ensures { IsGot self.old.intake result self.new.intake }
    {
        self.intake.receive(rt)
    }

    fn act<R: Wait>(&mut self, rt: &R, act: StationAct) -> StationAnswer
        ensures fits { StationFits act result }
        // What is put is put for whom the act names.
        ensures put { IsStationActDone act self.old result self.new }
    {
        self.act_for(rt, act)
    }

    fn count_drawn(&self) -> u64
        ensures { result ≡ 0 }
    {
        0
    }
}
