//! The forks: a bank of all stations.
ghost use Rattle.std.specs.Prelude.{◌≡◌, ◌<◌, ◌≤◌, [], IfErr, IfNone, IfOk, IfSome, List, OnErr};
ghost use Rattle.std.specs.Prelude.{OnOk, length, ℕ};
ghost use Rattle.bip_model.specs.declared.numbering.InterId.{InterId};
ghost use Rattle.bip_partition.specs.Plans.{AreStations};
ghost use Rattle.bip_bank.specs.Steps.{AreIdle};
ghost use Rattle.bip_bank.specs.Banks.{CanWantMemory, DoesStep, IsActed, content_of, with_request};
ghost use Rattle.bip_bank.specs.Idleness.{IsIdleBecause};
ghost use Rattle.bip_model.specs.Numbering.{last_number};
ghost use Rattle.bip_forks.specs.Kept.{CanLack, kept_forks, machine_of, station_at};
ghost use Rattle.bip_forks.specs.Laws.{AreNew};
ghost use Rattle.bip_forks.specs.Machines.{AreForks, IsForkStep, waiting_for};
ghost use Rattle.bip_forks.specs.Opening.{IsNewForks};

use crate::idleness::{idle_until, why_idle};
use crate::opening::first_stations;
use crate::sending::{Sent, do_step};
use crate::stations::Station;
use bip_bank::{Acted, Bank, BankStep, WhyIdle};
use bip_model::{Grant, InterId, Number, Request};
use bip_partition::Plan;
use std::alloc::{AllocError, Global};
use std::marker;

/// Dining philosophers: each station decides by a table of its own, and each two stations in
/// conflict share a fork, which one of them has or is sent. A station decides where it has all its
/// forks, and then as one table would (docs/PROTOCOL.md, "Dining philosophers"). Contracts see what
/// is kept.
#[derive(Drop)]
pub struct Forks<'p> {
    plan: &'p Plan,
    base: Number,
    stations: Vec<Station>,
    flight: Vec<Sent>,
    grants: Vec<Grant>,
}

impl<'p> marker::Model for Forks<'p> {
    ghost use Rattle.bip_forks.specs.Kept.{IsKeptForks, KeptForks};

    ghost Value = { KeptForks };

    ghost view = { λ f. record {
      plan = f.plan.now;
      base = f.base;
      parts = record {
        stations = f.stations.items;
        flight = f.flight.items;
        grants = f.grants.items;
      };
    } };

    ghost invariant = { λ f. IsKeptForks (record {
      plan = f.plan.now;
      base = f.base;
      parts = record {
        stations = f.stations.items;
        flight = f.flight.items;
        grants = f.grants.items;
      };
    }) };
}

impl<'p> Forks<'p> {
    /// The forks of a plan, which were asked nothing yet: each fork is dirty and with the lower of
    /// its stations, its numbers are the base, and its request token is with the higher; nothing is
    /// in flight, and all used numbers are the base.
    pub fn new(alloc: Global, plan: &'p Plan, base: Number) -> Result<Forks<'p>, AllocError>
        requires { base < last_number }
        ensures content { IfOk result (λ bank. IsNewForks plan.now base
            (content_of (kept_forks bank))) }
        ensures machine { IfOk result (λ bank. AreNew (machine_of bank)) }
    {
        plan.recall();
        let stations = first_stations(alloc, plan, plan.stations(), base)?;
        Ok(Forks {
            plan,
            base,
            stations,
            flight: Vec::new(alloc),
            grants: Vec::new(alloc),
        })
    }

    /// Does nothing, and costs nothing: it reminds the prover of what holds of all forks. Each two
    /// stations in conflict have one fork and one request token; and each fork holds, for each
    /// component that both of its stations touch, at least every number with which either moved it,
    /// and never more than its used number.
    #[inline(always)]
    pub fn recall(&self)
        ensures { AreForks (machine_of self.now) }
    {
        let _opened = &self.stations;
    }
}

impl<'p> Bank for Forks<'p> {
    ghost use Rattle.bip_partition.specs.Plans.{IsFit};
    ghost use Rattle.bip_forks.specs.Kept.{kept_forks};

    ghost kept = { kept_forks };

    /// Takes a request, as any bank does. Without memory nothing at all changes.
    fn submit(&mut self, request: Request) -> Result<(), (Request, AllocError)>
        requires { IsFit (content_of (kept_forks self.old)).plan request }
        ensures ok { OnOk result (content_of (kept_forks self.new)
            ≡ with_request request (content_of (kept_forks self.old))) }
        ensures machine { OnOk result (machine_of self.new
            ≡ waiting_for request (machine_of self.old)) }
        ensures err { OnErr result (content_of (kept_forks self.new)
            ≡ content_of (kept_forks self.old)) }
        ensures back { IfErr result (λ refused. refused.0 ≡ request) }
        ensures same { OnErr result (self.new ≡ self.old) }
    {
        let Some(place) = place_of(&self.stations, request.inter) else {
            unreachable!();
        };
        self.stations[place].submit(request)
    }

    /// Does a step, as any bank does, and as the machine of forks with their numbers does it. It
    /// stands in place where it is called, as most steps do nothing.
    #[inline(always)]
    fn act(&mut self, step: BankStep) -> Result<Acted, AllocError>
        ensures machine { IfOk result (λ acted. IsForkStep (machine_of self.old) step acted
            (machine_of self.new)) }
        ensures does { IfOk result (λ acted. DoesStep (content_of (kept_forks self.old)) step acted
            (content_of (kept_forks self.new))) }
        ensures acted { IfOk result (λ acted. IsActed acted (content_of (kept_forks self.old))
            (content_of (kept_forks self.new))) }
        ensures memory { IfErr result (λ e. CanWantMemory (content_of (kept_forks self.old)) step) }
        // It is wanted only where the step applies, and never to deliver.
        ensures lacks { IfErr result (λ e. CanLack self.old.parts step) }
        ensures err { OnErr result (content_of (kept_forks self.new)
            ≡ content_of (kept_forks self.old)) }
        ensures same { OnErr result (self.new ≡ self.old) }
    {
        do_step(&mut self.stations, &mut self.flight, &mut self.grants, step)
    }

    fn why_idle(&self, step: BankStep) -> Option<WhyIdle>
        ensures some { IfSome result (IsIdleBecause (content_of (kept_forks self.now)) step) }
        ensures none { IfNone result (CanWantMemory (content_of (kept_forks self.now)) step) }
    {
        why_idle(&self.stations, self.flight.len(), step)
    }

    /// Of its stations only those with an open request are asked whether all their forks are here,
    /// and of others only those with which they share a fork.
    fn idle_until(&self, from: usize) -> usize
        ensures onward { from ≤ result }
        ensures idle { (list : List InterId)
            → AreStations (content_of (kept_forks self.now)).plan list
            → AreIdle (content_of (kept_forks self.now)) (length list) from result }
    {
        idle_until(&self.stations, from)
    }

    fn grants(&self) -> &[Grant] {
        self.grants.as_slice()
    }

    fn in_flight(&self) -> usize {
        self.flight.len()
    }
}

/// The place of the station that decides for an interaction, if there is one.
fn place_of(stations: &[Station], inter: InterId) -> Option<usize>
    ensures some { IfSome result (λ place. (place < length stations.now)
        × ((station_at stations.now place).inter.0 ≡ inter.0)) }
    ensures none { IfNone result ((s : ℕ) → s < length stations.now
        → ¬ ((station_at stations.now s).inter.0 ≡ inter.0)) }
{
    for (place, station) in stations.iter().enumerate() {
        if station.inter().0 == inter.0 {
            return Some(place);
        }
    }
    None
}
