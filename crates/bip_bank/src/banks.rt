//! What the third layer is to those who ask it: a bank of requests and grants.
ghost use Rattle.std.specs.Prelude.{◌≡◌, IfErr, IfNone, IfOk, IfSome, OnErr, OnOk, [], slice_get};

use crate::WhyIdle;
use bip_model::{Grant, InterId, Request};
use bip_table::Decision;
use std::alloc::AllocError;

/// The number of a station: that of its place among the reserved interactions of the plan, each of
/// which has one station.
#[derive(Clone, Copy, Debug, Default, PartialEq, Eq, PartialOrd, Ord, Hash)]
pub struct StationId(pub u16);

/// One step of a bank.
#[derive(Clone, Copy, Debug, PartialEq, Eq)]
pub enum BankStep {
    /// What stands at this place among all in flight inside the bank, in order of sending, arrives.
    Deliver(usize),
    /// The station decides on its oldest open request.
    Serve(StationId),
    /// The first station hands what it shares with the second over to it.
    Pass(StationId, StationId),
    /// The first station asks the second for what they share.
    Ask(StationId, StationId),
}

/// What a step of a bank did.
#[derive(Drop)]
pub enum Acted {
    /// The step doesn't apply, and nothing changed.
    Nothing,
    /// Something moved inside the bank, and nothing was decided.
    Moved,
    /// The oldest open request of an interaction is decided, and open no more.
    Answered {
        request: Request,
        decision: Decision,
    },
}

/// The third layer of a plan, whatever its form: it takes requests, and grants or refuses each by
/// used numbers, which the grants explain (docs/PROTOCOL.md, "Banks"). Contracts see what is kept
/// of a bank's content. No call changes its plan or its base.
pub trait Bank {
    ghost use Rattle.std.specs.Prelude.{◌≤◌, List, length};
    ghost use Rattle.bip_model.specs.declared.numbering.InterId.{InterId};
    ghost use Rattle.bip_partition.specs.Plans.{AreStations, IsFit};
    ghost use Rattle.bip_bank.specs.Banks.{CanWantMemory, DoesStep, IsActed, KeptBank, content_of};
    ghost use Rattle.bip_bank.specs.Banks.{with_request};
    ghost use Rattle.bip_bank.specs.Idleness.{IsIdleBecause};
    ghost use Rattle.bip_bank.specs.Sharing.{in_flight};
    ghost use Rattle.bip_bank.specs.Steps.{AreIdle};

    ghost kept: { Self → KeptBank };

    /// Takes a request that fits the plan: it is open from now on, the newest of its interaction.
    /// Without memory it comes back, and the content stays as it was.
    fn submit(&mut self, request: Request) -> Result<(), (Request, AllocError)>
        requires { IsFit (content_of (kept self.old)).plan request }
        ensures ok { OnOk result (content_of (kept self.new)
            ≡ with_request request (content_of (kept self.old))) }
        ensures err { OnErr result (content_of (kept self.new) ≡ content_of (kept self.old)) }
        ensures back { IfErr result (λ refused. refused.0 ≡ request) };

    /// Does a step. A station that is served decides on the oldest open request of its
    /// interaction, where it lacks nothing of what stations share, there is one, and the decision
    /// isn't ended: it grants where the request is fresh, and else refuses with the lowest
    /// component that isn't. No other step decides: it moves what stations share, as their form
    /// says, or does nothing. Where nothing is done nothing changes, and so it is without memory,
    /// which a step can want only in place of a decision or a move.
    fn act(&mut self, step: BankStep) -> Result<Acted, AllocError>
        ensures does { IfOk result (λ acted. DoesStep (content_of (kept self.old)) step acted
            (content_of (kept self.new))) }
        ensures acted { IfOk result (λ acted. IsActed acted (content_of (kept self.old))
            (content_of (kept self.new))) }
        ensures memory { IfErr result (λ e. CanWantMemory (content_of (kept self.old)) step) }
        ensures err { OnErr result (content_of (kept self.new) ≡ content_of (kept self.old)) };

    /// Why a step does nothing: the first reason that applies. None where it does something, unless
    /// memory or serials are out (docs/PROTOCOL.md, "Banks").
    fn why_idle(&self, step: BankStep) -> Option<WhyIdle>
        ensures some { IfSome result (IsIdleBecause (content_of (kept self.now)) step) }
        ensures none { IfNone result (CanWantMemory (content_of (kept self.now)) step) };

    /// A number up to which steps are idle from one on, by `step_at`: each of those between does
    /// nothing, for a reason. So whoever looks for steps that do something can begin there; one
    /// that a bank finds without asking about each step makes that cheap.
    fn idle_until(&self, from: usize) -> usize
        ensures onward { from ≤ result }
        ensures idle { (list : List InterId)
            → AreStations (content_of (kept self.now)).plan list
            → AreIdle (content_of (kept self.now)) (length list) from result }
    {
        from
    }

    /// The grants, in order of decision. While there are none, all used numbers are the base.
    fn grants(&self) -> &[Grant]
        ensures grants { result.now ≡ (content_of (kept self.now)).grants }
        ensures unused { result.now ≡ []
            → (content_of (kept self.now)).used ≡ (λ c. (content_of (kept self.now)).base) };

    /// How many things are in flight inside the bank: so far steps that deliver may count.
    fn in_flight(&self) -> usize
        ensures { result ≡ in_flight (kept self.now).sharing };
}

/// The interaction that a station decides for, if there is such a station.
pub fn interaction_at(stations: &[InterId], station: StationId) -> Option<InterId>
    ensures { result ≡ slice_get stations.now station.0 }
{
    stations.get(station.0 as usize).copied()
}
