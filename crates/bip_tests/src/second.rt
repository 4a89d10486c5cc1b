//! A second bank: it serves only requests that were handed on before.
ghost use Rattle.std.specs.Prelude.{◌≡◌, ◌<◌, [], All, IfErr, IfNone, IfOk, IfSome, OnErr, length};
ghost use Rattle.std.specs.Prelude.{slice_index_or, false, true};
ghost use Rattle.bip_model.specs.Numbering.{last_number};
ghost use Rattle.bip_bank.specs.Banks.{CanWantMemory, DoesStep, IsActed, asked_nothing};
ghost use Rattle.bip_bank.specs.Banks.{content_of};
ghost use Rattle.bip_bank.specs.Idleness.{IsIdleBecause};
ghost use Rattle.bip_bank.specs.declared.banks.Acted.TheVariants.{Nothing};
ghost use Rattle.bip_bank.specs.declared.banks.BankStep.TheVariants.{Deliver, Serve};
ghost use Rattle.bip_tests.specs.Second.{kept_second};

use bip_bank::{Acted, Bank, BankStep, Central, StationId, WhyIdle};
use bip_model::{Grant, InterId, Number, Request};
use bip_partition::Plan;
use std::alloc::{AllocError, Global};
use std::marker;

/// A central bank to whose stations requests have to be handed on: a station has one at a time, and
/// those of one interaction come in the order of sending. Which stations lack one is what stations
/// share; requests on their way to them are open already, and don't count as in flight.
#[derive(Drop)]
pub struct Second<'p> {
    plan: &'p Plan,
    central: Central<'p>,
    lacks: Vec<bool>,
    posted: Vec<InterId>,
}

impl<'p> marker::Model for Second<'p> {
    ghost use Rattle.bip_tests.specs.Second.{KeptSecond};

    ghost Value = { KeptSecond };

    ghost view = { λ s. record {
      central = s.central;
      lacks = s.lacks.items;
      posted = s.posted.items;
    } };
}

impl<'p> Second<'p> {
    /// The second bank of a plan, which was asked nothing yet: each station lacks a request, and
    /// none is on its way.
    pub fn new(alloc: Global, plan: &'p Plan, base: Number) -> Result<Second<'p>, AllocError>
        requires { base < last_number }
        ensures content { IfOk result (λ bank. content_of (kept_second bank)
            ≡ asked_nothing plan.now base (kept_second bank).sharing) }
        ensures lack { IfOk result (λ bank. All (λ lacks. lacks ≡ true) bank.lacks) }
        ensures posted { IfOk result (λ bank. bank.posted ≡ []) }
    {
        let central = Central::new(alloc, plan, base)?;
        let lacks = vec![in alloc; true; plan.stations().len()]?;
        Ok(Second {
            plan,
            central,
            lacks,
            posted: Vec::new(alloc),
        })
    }

    /// Hands a request on to a station that lacks one.
    fn deliver(&mut self, place: usize) -> Acted
        ensures does { DoesStep (content_of (kept_second self.old)) (Deliver place) result
            (content_of (kept_second self.new)) }
        ensures acted { IsActed result (content_of (kept_second self.old))
            (content_of (kept_second self.new)) }
    {
        let Some(inter) = self.posted.get(place).copied() else {
            return Acted::Nothing;
        };
        let Some(station) = self.plan.stations().iter().position(|a| *a == inter) else {
            return Acted::Nothing;
        };
        if !lacks(&self.lacks, station) {
            return Acted::Nothing;
        }
        self.posted.remove(place);
        set(&mut self.lacks, station, false);
        Acted::Moved
    }

    /// Serves a station that has a request.
    fn serve(&mut self, station: StationId) -> Result<Acted, AllocError>
        ensures does { IfOk result (λ acted. DoesStep (content_of (kept_second self.old))
            (Serve station) acted (content_of (kept_second self.new))) }
        ensures acted { IfOk result (λ acted. IsActed acted (content_of (kept_second self.old))
            (content_of (kept_second self.new))) }
        ensures memory { IfErr result (λ e. CanWantMemory (content_of (kept_second self.old))
            (Serve station)) }
        ensures err { OnErr result (content_of (kept_second self.new)
            ≡ content_of (kept_second self.old)) }
    {
        if lacks(&self.lacks, station.0 as usize) {
            return Ok(Acted::Nothing);
        }
        let did = self.central.act(BankStep::Serve(station))?;
        lack_again(&mut self.lacks, station.0 as usize, &did);
        Ok(did)
    }

    /// Why a station that is served decides on nothing, where it doesn't.
    fn why_unserved(&self, station: StationId) -> Option<WhyIdle>
        ensures some { IfSome result (IsIdleBecause (content_of (kept_second self.now))
            (Serve station)) }
        ensures none { IfNone result (CanWantMemory (content_of (kept_second self.now))
            (Serve station)) }
    {
        let place = station.0 as usize;
        if lacks(&self.lacks, place) {
            return Some(WhyIdle::Lacking);
        }
        self.central.why_idle(BankStep::Serve(station))
    }
}

/// Whether a station lacks a request.
fn lacks(lacks: &[bool], station: usize) -> bool
    ensures { result ≡ slice_index_or lacks.now station false }
{
    match lacks.get(station) {
        Some(lacks) => *lacks,
        None => false,
    }
}

/// Sets whether a station lacks a request.
fn set(lacks: &mut [bool], station: usize, value: bool) {
    if let Some(lacks) = lacks.get_mut(station) {
        *lacks = value;
    }
}

/// A station that answered lacks its next request.
fn lack_again(lacks: &mut Vec<bool>, station: usize, did: &Acted)
    ensures { did.now ≡ Nothing → lacks.new.items ≡ lacks.old.items }
{
    match did {
        Acted::Nothing => {}
        _ => set(lacks, station, true),
    }
}

impl<'p> Bank for Second<'p> {
    ghost use Rattle.bip_tests.specs.Second.{kept_second};

    ghost kept = { kept_second };

    fn submit(&mut self, request: Request) -> Result<(), (Request, AllocError)> {
        if self.posted.reserve(1).is_err() {
            return Err((request, AllocError));
        }
        let inter = request.inter;
        match self.central.submit(request) {
            Ok(()) => {
                self.posted.push_reserved(inter);
                Ok(())
            }
            Err(refused) => Err(refused),
        }
    }

    fn act(&mut self, step: BankStep) -> Result<Acted, AllocError> {
        match step {
            BankStep::Deliver(place) => Ok(self.deliver(place)),
            BankStep::Serve(station) => self.serve(station),
            _ => Ok(Acted::Nothing),
        }
    }

    fn why_idle(&self, step: BankStep) -> Option<WhyIdle>
        ensures some { IfSome result (IsIdleBecause (content_of (kept_second self.now)) step) }
        ensures none { IfNone result (CanWantMemory (content_of (kept_second self.now)) step) }
    {
        match step {
            BankStep::Serve(station) => self.why_unserved(station),
            _ => None,
        }
    }

    fn grants(&self) -> &[Grant] {
        self.central.grants()
    }

    fn in_flight(&self) -> usize {
        0
    }
}
