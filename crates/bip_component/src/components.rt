//! The node of one component.
ghost use Rattle.std.specs.Prelude.{◌≡◌, ◌↔◌, ◌<◌, IfSome, IsTrue, length, slice_get};
ghost use Rattle.bip_model.specs.Numbering.{last_number};
ghost use Rattle.bip_model.specs.States.{IsLocalStateOf, local_of};
ghost use Rattle.bip_component.specs.Components.{IsFirst, IsFirstOffer, IsNode, IsNodeAfter};
ghost use Rattle.bip_component.specs.Components.{IsNotified};
ghost use Rattle.bip_component.specs.Components.{IsOffered, CanMoveBy, led_by};
ghost use Rattle.bip_frame.specs.Views.{notify_shown};

use bip_frame::NotifyFrame;
use bip_model::{CompId, LocId, Notify, Number, Offer, Values, has_port};
use bip_partition::Plan;
use std::marker;

/// What a component does when it is notified.
#[derive(Clone, Copy, Debug)]
pub enum Notified {
    /// It moves, and offers its next move.
    Moved(Offer),
    /// It moves, and offers no more: no number is left.
    Spent,
    /// It doesn't move: the notification isn't for it, or not for its next move.
    Stale,
}

/// The node of a component: where it is, with which values, the number of its next move, and
/// whether it is spent (docs/PROTOCOL.md, "Component nodes"). Its calls take no memory.
#[derive(Drop)]
pub struct SrComponent<'p> {
    plan: &'p Plan,
    offer: Offer,
    location: LocId,
    spent: bool,
}

impl<'p> marker::Model for SrComponent<'p> {
    ghost use Rattle.bip_model.specs.Messages.{Shows};
    ghost use Rattle.bip_component.specs.Components.{IsNode, Node};

    ghost Value = { Node };

    ghost view = { λ n. record {
      plan = n.plan.now;
      comp = n.offer.comp.0;
      number = n.offer.number;
      local = record { location = n.location; values = n.offer.values };
      spent = n.spent;
    } };

    ghost invariant = { λ n. IsNode (record {
      plan = n.plan.now;
      comp = n.offer.comp.0;
      number = n.offer.number;
      local = record { location = n.location; values = n.offer.values };
      spent = n.spent;
    }) × Shows n.plan.now.model n.offer
        (record { location = n.location; values = n.offer.values }) };
}

impl<'p> SrComponent<'p> {
    /// The node of a component at the start: its next move has the number above the base.
    pub fn start(plan: &'p Plan, comp: CompId, base: Number) -> SrComponent<'p>
        requires known { comp.0 < length plan.now.model.components }
        requires base { base < last_number }
        ensures { IsFirst plan.now comp.0 base result }
    {
        SrComponent {
            plan,
            offer: first_offer(plan, comp, base + 1),
            location: LocId(0),
            spent: false,
        }
    }

    /// Does nothing, and costs nothing: it reminds the prover of what holds of each node.
    #[inline(always)]
    pub fn recall(&self)
        ensures { IsNode self.now }
    {
        let _spent = self.spent;
    }

    /// What the component offers: its next move. A spent one offers nothing.
    pub fn offer(&self) -> Option<Offer>
        ensures { IsOffered self.now result }
    {
        if self.spent {
            return None;
        }
        Some(self.offer)
    }

    /// Takes a notification. Where it is for the component's next move, by a port that is offered
    /// and with a value for each variable, the component takes the values, goes by the port, and
    /// offers its next move; with the last number it moves and offers no more. Else all stays as it
    /// was.
    pub fn on_notify(&mut self, notify: &Notify) -> Notified
        ensures answer { IsNotified self.old notify.now result }
        ensures after { IsNodeAfter self.old notify.now result self.new }
    {
        if !self.can_move_by(notify) {
            return Notified::Stale;
        }
        let (location, values) = self.led_by(notify);
        let model = self.plan.model();
        self.location = location;
        if self.offer.number == Number::MAX {
            self.offer = model.offer(self.offer.comp, self.offer.number, location, &values);
            self.spent = true;
            return Notified::Spent;
        }
        self.offer = model.offer(self.offer.comp, self.offer.number + 1, location, &values);
        Notified::Moved(self.offer)
    }

    /// Takes a notification's frame: does as `on_notify` does with the notification that the frame
    /// shows, whose values are read where they lie (docs/FRAMES.md, "What is read, and what is
    /// lent").
    pub fn on_notify_frame(&mut self, frame: &NotifyFrame<'_>) -> Notified
        ensures answer { IsNotified self.old (notify_shown frame.now) result }
        ensures after { IsNodeAfter self.old (notify_shown frame.now) result self.new }
        ensures node { IsNode self.new }
    {
        let did = self.on_notify(&frame.notify());
        self.recall();
        did
    }

    /// Whether the component moves by a notification.
    fn can_move_by(&self, notify: &Notify) -> bool
        ensures { IsTrue result ↔ CanMoveBy self.now notify.now }
    {
        !self.spent
            && notify.comp == self.offer.comp
            && notify.number == self.offer.number
            && notify.values.as_slice().len() == self.offer.values.as_slice().len()
            && has_port(self.offer.ports, notify.port)
    }

    /// Where a notification by which it moves leads the component.
    fn led_by(&self, notify: &Notify) -> (LocId, Values)
        requires { CanMoveBy self.now notify.now }
        ensures local { local_of (result.0, result.1) ≡ led_by self.now notify.now }
        ensures of_component { IfSome (slice_get self.now.plan.model.components self.now.comp)
            (λ component. IsLocalStateOf component (local_of (result.0, result.1))) }
    {
        let model = self.plan.model();
        model
            .move_one(self.offer.comp, self.location, &notify.values, notify.port)
            .unwrap_or((self.location, notify.values))
    }
}

/// What a component offers in its start, as its move of this number.
fn first_offer(plan: &Plan, comp: CompId, number: Number) -> Offer
    requires { comp.0 < length plan.now.model.components }
    ensures offer { IsFirstOffer plan.now result }
    ensures comp { result.comp ≡ comp }
    ensures number { result.number ≡ number }
{
    let model = plan.model();
    let values = model.components()[comp.0 as usize].start;
    model.offer(comp, number, LocId(0), &values)
}
