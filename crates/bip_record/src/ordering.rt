//! An order in which the acts of nodes are events of the world.
ghost use Rattle.bip_bank.specs.Banks.{content_of};
ghost use Rattle.bip_core.specs.Starting.{IsUnasked};

use crate::merging::{Queues, station_of};
use crate::standings::{Standing, step_sending};
use bip_bank::{Bank, BankStep, StationId};
use bip_core::Event;
use bip_host::{Kind, NodeAct};
use bip_model::{ClassId, Grant, InterId};
use bip_partition::Plan;
use std::alloc::{AllocError, Global};

/// Events for the acts of a plan's nodes, which led to these grants, with a new bank of the kind
/// that they had: each node's acts in its order, what is taken behind what sent it, and grants in
/// theirs. Of a ring's token just so much is passed on as who decides needs. Where no order is
/// found that leads so far, the events end there: what they lead to `record_of` says
/// (docs/HOST.md, "What nodes did").
pub fn order_acts<B: Bank + Drop>(
    alloc: Global,
    plan: &Plan,
    bank: B,
    kind: Kind,
    acts: &[NodeAct],
    grants: &[Grant],
) -> Result<Vec<Event>, AllocError>
    requires { IsUnasked plan.now 0 (content_of (B.kept bank)) }
{
    let mut order = Order {
        plan,
        kind,
        grants,
        standing: Standing::new(alloc, plan, bank)?,
        token: 0,
    };
    let mut queues = Queues::of(alloc, plan, kind, acts)?;
    let mut node = 0;
    for _ in 0..acts.len() {
        match order.do_one(&mut queues, node)? {
            Some(next) => node = next,
            None => break,
        }
    }
    Ok(order.standing.into_events())
}

/// Where the order stands.
#[derive(Drop)]
struct Order<'p, 'g, B: Bank> {
    plan: &'p Plan,
    kind: Kind,
    /// All grants, in the order in which they come.
    grants: &'g [Grant],
    standing: Standing<'p, B>,
    /// In a ring: which station has the token.
    token: usize,
}

impl<'p, 'g, B: Bank + Drop> Order<'p, 'g, B> {
    /// Does one act of a node, beginning with this node: one that grants nothing, and only where
    /// there is no such act the next grant, which could put an end to what others found. None where
    /// no act can be done.
    fn do_one(&mut self, queues: &mut Queues, from: usize) -> Result<Option<usize>, AllocError> {
        match self.do_one_of(queues, from, false)? {
            Some(node) => Ok(Some(node)),
            None => self.do_one_of(queues, from, true),
        }
    }

    /// Does one act of a node that grants something, or one that doesn't.
    fn do_one_of(
        &mut self,
        queues: &mut Queues,
        from: usize,
        grants: bool,
    ) -> Result<Option<usize>, AllocError> {
        for node in (from..queues.len()).chain(0..from) {
            if let Some(act) = queues.next(node) {
                if is_grant(act) == grants && self.try_act(act)? {
                    queues.take(node);
                    return Ok(Some(node));
                }
            }
        }
        Ok(None)
    }

    /// Does an act, if it can be done here.
    fn try_act(&mut self, act: NodeAct) -> Result<bool, AllocError> {
        match act {
            NodeAct::Takes(parcel) => match step_sending(parcel) {
                Some(_) => self.standing.deliver(parcel),
                None => self.standing.hand_on(parcel),
            },
            NodeAct::Sends(parcel) => match step_sending(parcel) {
                Some(step) => self.standing.send(parcel, step),
                None => Ok(false),
            },
            NodeAct::Asks(class, inter) => self.try_inter(class, inter),
            NodeAct::Grants(class, inter) => {
                Ok(self.is_next(inter) && self.try_inter(class, inter)?)
            }
            NodeAct::Serves(inter) => Ok(self.is_next(inter) && self.serve(inter)?),
            NodeAct::Refuses(inter, comp, used) => {
                Ok(self.standing.refused_for(inter) == Some((comp, used)) && self.serve(inter)?)
            }
        }
    }

    /// Whether the next grant is of this interaction.
    fn is_next(&self, inter: InterId) -> bool {
        match self.grants.get(self.standing.count_grants()) {
            Some(grant) => grant.inter == inter,
            None => false,
        }
    }

    /// Lets a class try an interaction, if that does something.
    fn try_inter(&mut self, class: ClassId, inter: InterId) -> Result<bool, AllocError> {
        let event = Event::Try(class, inter);
        if !self.standing.has_work(event) {
            return Ok(false);
        }
        self.standing.go(event)?;
        Ok(true)
    }

    /// Lets the station of an interaction decide, if it can; a ring's token is passed on to it.
    fn serve(&mut self, inter: InterId) -> Result<bool, AllocError> {
        let station = station_of(self.plan, inter);
        if self.kind == Kind::Ring {
            self.bring_token(station)?;
        }
        let event = Event::Bank(BankStep::Serve(station_at(station)));
        if !self.standing.has_work(event) {
            return Ok(false);
        }
        self.standing.go(event)?;
        Ok(true)
    }

    /// Passes a ring's token on to a station.
    fn bring_token(&mut self, station: usize) -> Result<(), AllocError> {
        let count = self.plan.stations().len();
        for _ in 0..count {
            if self.token == station {
                break;
            }
            let next = next_in_ring(self.token, count);
            let (from, to) = (station_at(self.token), station_at(next));
            self.standing.go(Event::Bank(BankStep::Pass(from, to)))?;
            self.standing.go(Event::Bank(BankStep::Deliver(0)))?;
            self.token = next;
        }
        Ok(())
    }
}

/// The number of the station at a place.
fn station_at(place: usize) -> StationId {
    StationId(u16::try_from(place).unwrap_or(u16::MAX))
}

/// The station behind one of so many in a ring.
fn next_in_ring(station: usize, count: usize) -> usize {
    match station.checked_add(1) {
        Some(next) if next < count => next,
        _ => 0,
    }
}

/// Whether an act grants something.
fn is_grant(act: NodeAct) -> bool {
    matches!(act, NodeAct::Grants(..) | NodeAct::Serves(_))
}
