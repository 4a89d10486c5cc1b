//! Where a world stands that events lead through: what is in flight, open and used, by what tells
//! messages apart.
ghost use Rattle.bip_bank.specs.Banks.{content_of};
ghost use Rattle.bip_core.specs.Starting.{IsUnasked};

use bip_bank::{Bank, BankStep};
use bip_core::{Event, Message, World};
use bip_host::Parcel;
use bip_model::{CompId, InterId, Number, Role, Wants};
use bip_partition::Plan;
use std::alloc::{AllocError, Global};

/// A world with the events that led to it from the new one, and what is known of it beside.
#[derive(Drop)]
pub(crate) struct Standing<'p, B: Bank> {
    world: World<'p, B>,
    events: Vec<Event>,
    /// The messages in flight, by place; and those inside the bank.
    flight: Vec<Parcel>,
    shared: Vec<Parcel>,
    /// By interaction: what its open request wants.
    open: Vec<Option<Wants>>,
    /// By component: the number with which it was moved last.
    used: Vec<Number>,
}

impl<'p, B: Bank + Drop> Standing<'p, B> {
    /// The new world of a plan with a bank, from base 0.
    pub(crate) fn new(alloc: Global, plan: &'p Plan, bank: B) -> Result<Standing<'p, B>, AllocError>
        requires { IsUnasked plan.now 0 (content_of (B.kept bank)) }
    {
        let mut standing = Standing {
            world: World::new(alloc, plan, bank, 0)?,
            events: Vec::new(alloc),
            flight: Vec::new(alloc),
            shared: Vec::new(alloc),
            open: Vec::new(alloc),
            used: Vec::new(alloc),
        };
        for _ in plan.model().interactions() {
            standing.open.push(None)?;
        }
        for _ in plan.model().components() {
            standing.used.push(0)?;
        }
        standing.see_sent()?;
        Ok(standing)
    }

    /// The events that led here.
    pub(crate) fn into_events(self) -> Vec<Event> {
        self.events
    }

    /// How many grants there are so far.
    pub(crate) fn count_grants(&self) -> usize {
        self.world.trace().len()
    }

    /// Whether an event has something to do.
    pub(crate) fn has_work(&self, event: Event) -> bool {
        self.world.has_work(event)
    }

    /// Does an event, and sees what it sent and granted. The only error is want of memory, also for
    /// a message.
    pub(crate) fn go(&mut self, event: Event) -> Result<(), AllocError> {
        let granted = self.world.trace().len();
        let did = self.world.step(event)?;
        if did.lost != 0 {
            return Err(AllocError);
        }
        self.events.push(event)?;
        self.see_granted(granted);
        self.see_sent()
    }

    /// Hands a message on, if it is in flight.
    pub(crate) fn hand_on(&mut self, parcel: Parcel) -> Result<bool, AllocError> {
        let Some(place) = self.flight.iter().position(|one| *one == parcel) else {
            return Ok(false);
        };
        let _parcel = self.flight.remove(place);
        self.see_opened(place);
        self.go(Event::Mail(place))?;
        Ok(true)
    }

    /// Sends something inside the bank, by the step that does that, if it has something to do.
    pub(crate) fn send(&mut self, parcel: Parcel, step: BankStep) -> Result<bool, AllocError> {
        let event = Event::Bank(step);
        if !self.has_work(event) {
            return Ok(false);
        }
        self.go(event)?;
        self.shared.push(parcel)?;
        Ok(true)
    }

    /// Lets something arrive that is in flight inside the bank, if it is.
    pub(crate) fn deliver(&mut self, parcel: Parcel) -> Result<bool, AllocError> {
        let Some(place) = self.shared.iter().position(|one| *one == parcel) else {
            return Ok(false);
        };
        let _parcel = self.shared.remove(place);
        self.go(Event::Bank(BankStep::Deliver(place)))?;
        Ok(true)
    }

    /// Whom the open request of an interaction would be refused for, with the used number.
    pub(crate) fn refused_for(&self, inter: InterId) -> Option<(CompId, Number)> {
        let wants = self.open.get(inter.0 as usize)?.as_ref()?;
        for want in wants.as_slice() {
            let used = self.used_of(want.comp);
            if want.number <= used {
                return Some((want.comp, used));
            }
        }
        None
    }

    /// The number with which a component was moved last.
    fn used_of(&self, comp: CompId) -> Number {
        self.used.get(comp.0 as usize).copied().unwrap_or(0)
    }

    /// Sees which request is handed on from a place.
    fn see_opened(&mut self, place: usize) {
        if let Some(Message::RequestToBank(request)) = self.world.message(place) {
            if let Some(open) = self.open.get_mut(request.inter.0 as usize) {
                *open = Some(request.wants.copy());
            }
        }
    }

    /// Sees what the grants from this place on have moved.
    fn see_granted(&mut self, from: usize) {
        let Standing { world, used, .. } = self;
        let trace = world.trace();
        for place in from..trace.len() {
            see_moved(used, &trace[place].wants);
        }
    }

    /// Sees what was sent behind the messages that are known to be in flight.
    fn see_sent(&mut self) -> Result<(), AllocError> {
        for place in self.flight.len()..self.world.mails() {
            if let Some(message) = self.world.message(place) {
                self.flight.push(parcel_of(&message))?;
            }
        }
        Ok(())
    }
}

/// Notes the numbers with which a grant moves components.
fn see_moved(used: &mut [Number], wants: &Wants) {
    for want in wants.as_slice() {
        if want.role == Role::Moved {
            if let Some(last) = used.get_mut(want.comp.0 as usize) {
                *last = want.number;
            }
        }
    }
}

/// What tells a message in flight from all others.
fn parcel_of(message: &Message) -> Parcel {
    match message {
        Message::OfferTo(class, offer) => Parcel::Offer(*class, offer.comp, offer.number),
        Message::RequestToBank(request) => Parcel::of_request(request),
        Message::ReplyToClass(reply) => Parcel::of_reply(reply),
        Message::NotifyComponent(notify) => Parcel::Notice(notify.comp, notify.number),
    }
}

/// The step that sends something between two stations, if it is such a thing.
pub(crate) fn step_sending(parcel: Parcel) -> Option<BankStep> {
    match parcel {
        Parcel::Fork(from, to) => Some(BankStep::Pass(from, to)),
        Parcel::Ask(from, to) => Some(BankStep::Ask(from, to)),
        _ => None,
    }
}
