//! The central bank: one table decides all.
ghost use Rattle.std.specs.Prelude.{◌≡◌, ◌<◌, ◌≤◌, [], IfErr, IfNone, IfOk, IfSome, List, OnErr};
ghost use Rattle.std.specs.Prelude.{OnOk, length};
ghost use Rattle.std.specs.Prelude.{slice_index_or};
ghost use Rattle.bip_model.specs.Numbering.{last_number};
ghost use Rattle.bip_bank.specs.Banks.{CanWantMemory, DoesStep, HasNextSerial, IsActed};
ghost use Rattle.bip_bank.specs.Banks.{WantsMemory, asked_nothing, content_of, with_request};
ghost use Rattle.bip_bank.specs.Central.{CannotKeep, IsFirstDecided, kept_central};
ghost use Rattle.bip_bank.specs.Idleness.{IsIdleBecause};
ghost use Rattle.bip_bank.specs.Sharing.{alone};
ghost use Rattle.bip_bank.specs.Steps.{AreIdle};
ghost use Rattle.bip_model.specs.declared.numbering.InterId.{InterId};
ghost use Rattle.bip_partition.specs.Plans.{AreStations};
ghost use Rattle.bip_bank.specs.declared.banks.BankStep.TheVariants.{Serve};

use crate::{
    Acted, Bank, BankStep, Queue, StationId, WhyIdle, first_asked, first_table, interaction_at,
    is_asked_at, no_requests, put_last, step_count,
};
use bip_model::{Grant, Number, Request};
use bip_partition::Plan;
use bip_table::{Table, TableFault};
use std::alloc::{AllocError, Global};
use std::marker;

/// The bank with one table, which decides on the requests of all stations (docs/PROTOCOL.md,
/// "Banks"). Contracts see what is kept.
#[derive(Drop)]
pub struct Central<'p> {
    plan: &'p Plan,
    base: Number,
    table: Table,
    waiting: Vec<Queue<Request>>,
}

impl<'p> marker::Model for Central<'p> {
    ghost use Rattle.bip_bank.specs.Central.{IsCentral, KeptCentral};

    ghost Value = { KeptCentral };

    ghost view = { λ c. record {
      plan = c.plan.now;
      base = c.base;
      table = c.table;
      waiting = c.waiting.items;
    } };

    ghost invariant = { λ c. IsCentral (record {
      plan = c.plan.now;
      base = c.base;
      table = c.table;
      waiting = c.waiting.items;
    }) };
}

impl<'p> Central<'p> {
    /// The central bank of a plan, which was asked nothing yet: all used numbers are the base.
    pub fn new(alloc: Global, plan: &'p Plan, base: Number) -> Result<Central<'p>, AllocError>
        requires { base < last_number }
        ensures content { IfOk result (λ bank. content_of (kept_central bank)
            ≡ asked_nothing plan.now base alone) }
    {
        let table = first_table(alloc, plan, base)?;
        let waiting = no_requests(alloc, plan.model().interactions().len())?;
        Ok(Central {
            plan,
            base,
            table,
            waiting,
        })
    }

    /// Decides on the oldest open request of a station, if it has one.
    fn serve(&mut self, station: StationId) -> Result<Acted, AllocError>
        ensures acted { IfOk result (λ acted. IsActed acted (content_of (kept_central self.old))
            (content_of (kept_central self.new))) }
        ensures does { IfOk result (λ acted. DoesStep (content_of (kept_central self.old))
            (Serve station) acted (content_of (kept_central self.new))) }
        ensures serial { IfOk result (HasNextSerial (content_of (kept_central self.old))) }
        ensures wants { IfErr result (λ e. WantsMemory (content_of (kept_central self.old))
            (Serve station)) }
        ensures err { OnErr result (self.new ≡ self.old) }
    {
        self.plan.recall();
        match interaction_at(self.plan.stations(), station) {
            Some(inter) => decide_first(&mut self.table, &mut self.waiting, inter.0 as usize),
            None => Ok(Acted::Nothing),
        }
    }
}

impl<'p> Bank for Central<'p> {
    ghost use Rattle.bip_partition.specs.Plans.{IsFit};
    ghost use Rattle.bip_bank.specs.Central.{kept_central};

    ghost kept = { kept_central };

    fn submit(&mut self, request: Request) -> Result<(), (Request, AllocError)>
        requires { IsFit (content_of (kept_central self.old)).plan request }
        ensures ok { OnOk result (content_of (kept_central self.new)
            ≡ with_request request (content_of (kept_central self.old))) }
        ensures err { OnErr result (content_of (kept_central self.new)
            ≡ content_of (kept_central self.old)) }
        ensures back { IfErr result (λ refused. refused.0 ≡ request) }
    {
        self.plan.recall();
        if let Err(request) = put_last(&mut self.waiting, request.inter.0 as usize, request) {
            return Err((request, AllocError));
        }
        Ok(())
    }

    /// Does a step, as any bank does. A grant's serial is the number of the grants before it, and
    /// memory is wanted only in place of a grant.
    fn act(&mut self, step: BankStep) -> Result<Acted, AllocError>
        ensures does { IfOk result (λ acted. DoesStep (content_of (kept_central self.old)) step
            acted (content_of (kept_central self.new))) }
        ensures acted { IfOk result (λ acted. IsActed acted (content_of (kept_central self.old))
            (content_of (kept_central self.new))) }
        ensures serial { IfOk result (HasNextSerial (content_of (kept_central self.old))) }
        ensures wants { IfErr result (λ e. WantsMemory (content_of (kept_central self.old)) step) }
        ensures memory { IfErr result (λ e. CanWantMemory (content_of (kept_central self.old))
            step) }
        ensures err { OnErr result (content_of (kept_central self.new)
            ≡ content_of (kept_central self.old)) }
    {
        match step {
            BankStep::Serve(station) => self.serve(station),
            _ => Ok(Acted::Nothing),
        }
    }

    /// Why a step does nothing: it is none that serves, or nothing is open at the station.
    fn why_idle(&self, step: BankStep) -> Option<WhyIdle>
        ensures some { IfSome result (IsIdleBecause (content_of (kept_central self.now)) step) }
        ensures none { IfNone result (CanWantMemory (content_of (kept_central self.now)) step) }
    {
        let BankStep::Serve(station) = step else {
            return Some(WhyIdle::NoneOfIt);
        };
        if is_asked_at(self.plan, self.waiting.as_slice(), station) {
            return None;
        }
        Some(WhyIdle::NothingOpen)
    }

    /// Of its steps only those that serve do anything, and of these those whose station is asked.
    fn idle_until(&self, from: usize) -> usize
        ensures onward { from ≤ result }
        ensures idle { (list : List InterId)
            → AreStations (content_of (kept_central self.now)).plan list
            → AreIdle (content_of (kept_central self.now)) (length list) from result }
    {
        self.plan.recall();
        let count = self.plan.stations().len();
        let place = first_asked(self.plan, self.waiting.as_slice(), from);
        if place < count {
            return place;
        }
        from.max(step_count(count))
    }

    fn grants(&self) -> &[Grant] {
        self.table.journal()
    }

    fn in_flight(&self) -> usize {
        0
    }
}

/// Decides by a table on the first request in one of the queues, and takes it off then. There is no
/// answer where there is no request, no serial is left for its grant, or a component has no row.
/// Want of memory stands in place of a grant, and changes nothing (docs/PROTOCOL.md, "Banks").
pub fn decide_first(
    table: &mut Table,
    queues: &mut Vec<Queue<Request>>,
    place: usize,
) -> Result<Acted, AllocError>
    requires { place < length queues.old.items }
    ensures decided { IfOk result (IsFirstDecided place table.old queues.old.items table.new
        queues.new.items) }
    ensures memory { IfErr result (λ e. CannotKeep table.old
        (slice_index_or queues.old.items place [])) }
    ensures table { OnErr result (table.new ≡ table.old) }
    ensures queues { OnErr result (queues.new.items ≡ queues.old.items) }
{
    if queues[place].first().is_none() {
        return Ok(Acted::Nothing);
    }
    decide_waiting(table, queues, place)
}

/// Decides by a table on the first request in one of the queues, which has one, as `decide_first`
/// does. It stands apart, since room for a decision is cleared where a function begins.
fn decide_waiting(
    table: &mut Table,
    queues: &mut Vec<Queue<Request>>,
    place: usize,
) -> Result<Acted, AllocError>
    requires known { place < length queues.old.items }
    requires waits { ¬ (slice_index_or queues.old.items place [] ≡ []) }
    ensures decided { IfOk result (IsFirstDecided place table.old queues.old.items table.new
        queues.new.items) }
    ensures memory { IfErr result (λ e. CannotKeep table.old
        (slice_index_or queues.old.items place [])) }
    ensures table { OnErr result (table.new ≡ table.old) }
    ensures queues { OnErr result (queues.new.items ≡ queues.old.items) }
{
    let Some(request) = queues[place].first() else {
        unreachable!();
    };
    let decision = match table.decide(request) {
        Ok(decision) => decision,
        Err(TableFault::Memory) => return Err(AllocError),
        Err(TableFault::Ended) => return Ok(Acted::Nothing),
        Err(TableFault::UnknownRow(_)) => return Ok(Acted::Nothing),
        Err(TableFault::NotKept) => unreachable!(),
    };
    match queues[place].take_first() {
        Some(request) => Ok(Acted::Answered { request, decision }),
        None => unreachable!(),
    }
}
