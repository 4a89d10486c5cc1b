//! The ring: a bank whose table travels in a token.
ghost use Rattle.std.specs.Prelude.{◌≡◌, ◌<◌, ◌≤◌, IfErr, IfNone, IfOk, IfSome, List, OnErr, OnOk};
ghost use Rattle.std.specs.Prelude.{length};
ghost use Rattle.bip_model.specs.declared.numbering.InterId.{InterId};
ghost use Rattle.bip_partition.specs.Plans.{AreStations};
ghost use Rattle.bip_bank.specs.Steps.{AreIdle};
ghost use Rattle.bip_model.specs.Numbering.{last_number};
ghost use Rattle.bip_bank.specs.Banks.{CanWantMemory, DoesStep, HasNextSerial, IsActed};
ghost use Rattle.bip_bank.specs.Banks.{WantsMemory, content_of, with_request};
ghost use Rattle.bip_bank.specs.Idleness.{IsIdleBecause};
ghost use Rattle.bip_bank.specs.declared.banks.BankStep.TheVariants.{Serve};
ghost use Rattle.bip_ring.specs.Rings.{IsNewRing, kept_ring};

use crate::places::{idle_until, is_at, moved, why_away, why_kept};
use crate::{Place, Token};
use bip_bank::{
    Acted, Bank, BankStep, Queue, StationId, WhyIdle, decide_first, interaction_at, is_asked_at,
    no_requests, put_last,
};
use bip_model::{Grant, Number, Request};
use bip_partition::Plan;
use std::alloc::{AllocError, Global};
use std::marker;

/// The token ring: the table travels in a token from each station to the next one, and the station
/// that has it decides (docs/PROTOCOL.md, "The token ring"). Contracts see what is kept.
#[derive(Drop)]
pub struct Ring<'p> {
    plan: &'p Plan,
    base: Number,
    token: Token,
    place: Place,
    count: usize,
    waiting: Vec<Queue<Request>>,
}

impl<'p> marker::Model for Ring<'p> {
    ghost use Rattle.bip_ring.specs.Rings.{IsRing, KeptRing};

    ghost Value = { KeptRing };

    ghost view = { λ r. record {
      desk = record {
        plan = r.plan.now;
        base = r.base;
        table = r.token.table;
        waiting = r.waiting.items;
      };
      place = r.place;
      count = r.count;
    } };

    ghost invariant = { λ r. IsRing (record {
      desk = record {
        plan = r.plan.now;
        base = r.base;
        table = r.token.table;
        waiting = r.waiting.items;
      };
      place = r.place;
      count = r.count;
    }) };
}

impl<'p> Ring<'p> {
    /// The ring of a plan, which was asked nothing yet: the token is at the first station, and all
    /// used numbers are the base.
    pub fn new(alloc: Global, plan: &'p Plan, base: Number) -> Result<Ring<'p>, AllocError>
        requires { base < last_number }
        ensures { IfOk result (λ bank. IsNewRing plan.now base (content_of (kept_ring bank))) }
    {
        let token = Token::new(alloc, plan, base)?;
        let waiting = no_requests(alloc, plan.model().interactions().len())?;
        Ok(Ring {
            plan,
            base,
            token,
            place: Place::At(StationId(0)),
            count: plan.stations().len(),
            waiting,
        })
    }

    /// Decides on the oldest open request of a station that has the token, if it has one.
    #[inline(always)]
    fn serve(&mut self, station: StationId) -> Result<Acted, AllocError>
        ensures does { IfOk result (λ acted. DoesStep (content_of (kept_ring self.old))
            (Serve station) acted (content_of (kept_ring self.new))) }
        ensures acted { IfOk result (λ acted. IsActed acted (content_of (kept_ring self.old))
            (content_of (kept_ring self.new))) }
        ensures serial { IfOk result (HasNextSerial (content_of (kept_ring self.old))) }
        ensures wants { IfErr result (λ e. WantsMemory (content_of (kept_ring self.old))
            (Serve station)) }
        ensures err { OnErr result (self.new ≡ self.old) }
    {
        self.plan.recall();
        if !is_at(self.place, station) {
            return Ok(Acted::Nothing);
        }
        match interaction_at(self.plan.stations(), station) {
            Some(inter) => {
                decide_first(&mut self.token.table, &mut self.waiting, inter.0 as usize)
            }
            None => Ok(Acted::Nothing),
        }
    }

    /// Why a station that is served decides on nothing, where it doesn't: it lacks the token, or no
    /// request is open there.
    fn why_unserved(&self, station: StationId) -> Option<WhyIdle>
        ensures some { IfSome result (IsIdleBecause (content_of (kept_ring self.now))
            (Serve station)) }
        ensures none { IfNone result (CanWantMemory (content_of (kept_ring self.now))
            (Serve station)) }
    {
        if let Some(why) = why_away(self.place, station) {
            return Some(why);
        }
        if is_asked_at(self.plan, self.waiting.as_slice(), station) {
            return None;
        }
        Some(WhyIdle::NothingOpen)
    }

    /// Lets the token go where a step takes it, if it takes it anywhere.
    #[inline(always)]
    fn let_go(&mut self, step: BankStep) -> Acted
        requires { (s : StationId) → ¬ (step ≡ Serve s) }
        ensures does { DoesStep (content_of (kept_ring self.old)) step result
            (content_of (kept_ring self.new)) }
        ensures acted { IsActed result (content_of (kept_ring self.old))
            (content_of (kept_ring self.new)) }
        ensures serial { HasNextSerial (content_of (kept_ring self.old)) result }
    {
        match moved(self.place, self.count, step) {
            Some(place) => {
                self.place = place;
                Acted::Moved
            }
            None => Acted::Nothing,
        }
    }
}

impl<'p> Bank for Ring<'p> {
    ghost use Rattle.bip_partition.specs.Plans.{IsFit};
    ghost use Rattle.bip_ring.specs.Rings.{kept_ring};

    ghost kept = { kept_ring };

    fn submit(&mut self, request: Request) -> Result<(), (Request, AllocError)> {
        self.plan.recall();
        if let Err(request) = put_last(&mut self.waiting, request.inter.0 as usize, request) {
            return Err((request, AllocError));
        }
        Ok(())
    }

    /// Does a step, as any bank does. A grant's serial is the number of the grants before it, and
    /// memory is wanted only in place of a grant. It stands in place where it is called, as most
    /// steps do nothing, and what decides has much room to clear.
    #[inline(always)]
    fn act(&mut self, step: BankStep) -> Result<Acted, AllocError>
        ensures does { IfOk result (λ acted. DoesStep (content_of (kept_ring self.old)) step acted
            (content_of (kept_ring self.new))) }
        ensures acted { IfOk result (λ acted. IsActed acted (content_of (kept_ring self.old))
            (content_of (kept_ring self.new))) }
        ensures serial { IfOk result (HasNextSerial (content_of (kept_ring self.old))) }
        ensures wants { IfErr result (λ e. WantsMemory (content_of (kept_ring self.old)) step) }
        ensures memory { IfErr result (λ e. CanWantMemory (content_of (kept_ring self.old)) step) }
        ensures err { OnErr result (content_of (kept_ring self.new)
            ≡ content_of (kept_ring self.old)) }
    {
        match step {
            BankStep::Serve(station) => self.serve(station),
            _ => Ok(self.let_go(step)),
        }
    }

    fn why_idle(&self, step: BankStep) -> Option<WhyIdle>
        ensures some { IfSome result (IsIdleBecause (content_of (kept_ring self.now)) step) }
        ensures none { IfNone result (CanWantMemory (content_of (kept_ring self.now)) step) }
    {
        match step {
            BankStep::Serve(station) => self.why_unserved(station),
            BankStep::Pass(from, to) => why_kept(self.place, self.count, from, to),
            BankStep::Deliver(place) if place < self.in_flight() => None,
            BankStep::Deliver(_) => Some(WhyIdle::NothingThere),
            BankStep::Ask(_, _) => Some(WhyIdle::NoneOfIt),
        }
    }

    /// None but that which serves the station with the token does anything, and that which hands it
    /// on to the next one; none at all while the token is in flight.
    fn idle_until(&self, from: usize) -> usize
        ensures onward { from ≤ result }
        ensures idle { (list : List InterId)
            → AreStations (content_of (kept_ring self.now)).plan list
            → AreIdle (content_of (kept_ring self.now)) (length list) from result }
    {
        self.plan.recall();
        idle_until(self.place, self.count, from)
    }

    fn grants(&self) -> &[Grant] {
        self.token.grants()
    }

    fn in_flight(&self) -> usize {
        match self.place {
            Place::At(_) => 0,
            Place::To(_) => 1,
        }
    }
}
