//! The actor of a component.
ghost use Rattle.std.specs.Prelude.{◌≡◌, ◌<◌, length};
ghost use Rattle.bip_host.specs.Components.{IsFirstComponentActor, offering_next};

use crate::actors::{Actor, Step, Turn};
use crate::counts::{Counts, Posted};
use bip_component::{Notified, SrComponent};
use bip_model::{ClassId, CompId, Notify, Offer};
use bip_partition::Plan;

/// What the actor of a component wants: that its offer is put for a class.
#[derive(Clone, Copy, Debug)]
pub struct Offering {
    pub class: ClassId,
    pub offer: Offer,
}

/// The actor of a component: it offers its next move to each class that touches it, in order of
/// number (docs/HOST.md, "Actors").
#[derive(Drop)]
pub struct ComponentActor<'p> {
    node: SrComponent<'p>,
    classes: &'p [ClassId],
    /// What it offers, and for how many classes that was put.
    offer: Option<Offer>,
    offered: usize,
    counts: Counts,
}

impl<'p> ComponentActor<'p> {
    /// The actor of a component of a plan, which has offered nothing.
    pub fn new(plan: &'p Plan, comp: CompId) -> ComponentActor<'p>
        requires { comp.0 < length plan.now.model.components }
        ensures { IsFirstComponentActor plan.now comp.0 result }
    {
        ComponentActor {
            node: SrComponent::start(plan, comp, 0),
            classes: plan.classes_of(comp),
            offer: None,
            offered: 0,
            counts: Counts::default(),
        }
    }

    /// Offers the next move, from the first class on.
    fn offer_to_all(&mut self, offer: Option<Offer>) -> Step<Offering>
        ensures step { result ≡ offering_next self.new }
        ensures actor { self.new ≡ record self.old { offer = offer; offered = 0 } }
    {
        self.offer = offer;
        self.offered = 0;
        self.next_offering()
    }

    fn next_offering(&self) -> Step<Offering>
        ensures { result ≡ offering_next self.now }
    {
        match (self.offer, self.classes.get(self.offered)) {
            (Some(offer), Some(class)) => Step::Act(Offering {
                class: *class,
                offer,
            }),
            _ => Step::Over(Turn::Done),
        }
    }
}

impl<'p> Actor for ComponentActor<'p> {
    ghost use Rattle.std.specs.Prelude.{◌≡◌, ◌-◌, length};
    ghost use Rattle.bip_host.specs.Actors.{IsAwaited};
    ghost use Rattle.bip_host.specs.Components.{ComponentFits, ComponentGoesOn, ComponentHears};
    ghost use Rattle.bip_host.specs.Components.{ComponentStarts, offering_next};
    ghost use Rattle.bip_host.specs.declared.actors.Step.TheVariants.{Act};

    type Heard = Notify;

    type Act = Offering;

    type Answer = Posted;

    ghost fits = { ComponentFits };

    ghost awaits = { λ a act. offering_next a ≡ Act act };

    ghost left = { λ a. length a.classes.now - a.offered };

    ghost counted = { λ a. a.counts };

    ghost starts = { ComponentStarts };

    ghost hears = { ComponentHears };

    ghost goes_on = { ComponentGoesOn };

    /// Makes its first offer.
    fn start(&mut self) -> Step<Offering> {
        let offer = self.node.offer();
        self.offer_to_all(offer)
    }

    fn idle(&mut self) -> Option<Turn> {
        Some(Turn::Nothing)
    }

    /// Takes a notification; where it moves by that, it makes its next offer.
    fn hear(&mut self, heard: Option<Notify>) -> Step<Offering>
        ensures step { ComponentHears self.old heard result self.new }
        ensures awaits { IsAwaited (λ act. offering_next self.new ≡ Act act) result }
    {
        let Some(notify) = heard else {
            return Step::Over(Turn::Nothing);
        };
        match self.node.on_notify(&notify) {
            Notified::Moved(offer) => self.offer_to_all(Some(offer)),
            Notified::Spent => Step::Over(Turn::Done),
            Notified::Stale => Step::Over(Turn::Done),
        }
    }

    /// Counts an offer that is lost, and goes on to the next class.
    fn go_on(&mut self, answer: Posted) -> Step<Offering> {
        self.counts.post(answer);
        self.offered += 1;
        self.next_offering()
    }

    fn counts(&self) -> Counts {
        self.counts
    }
}
