//! Why a step of a bank does nothing.
ghost use Rattle.std.specs.Prelude.{◌≡◌, ◌<◌, ◌≤◌, ◌↔◌, ℕ, IsTrue, length};
ghost use Rattle.bip_bank.specs.Idleness.{IsAskedAt};

use crate::{Queue, StationId, interaction_at};
use bip_model::Request;
use bip_partition::Plan;

/// Why a step of a bank does nothing (docs/PROTOCOL.md, "Banks").
#[derive(Clone, Copy, Debug, PartialEq, Eq)]
pub enum WhyIdle {
    /// A bank of this form has no such steps.
    NoneOfIt,
    /// Of those that can be in flight, nothing stands at this place.
    NothingThere,
    /// The station has no open request.
    NothingOpen,
    /// The station that is served lacks some of what stations share.
    Lacking,
    /// The token is in flight.
    TokenInFlight,
    /// The token is at another station.
    TokenElsewhere,
    /// The second station isn't the next one after the first.
    NotNext,
    /// The two stations share no fork.
    NoFork,
    /// The fork isn't with the station that would send it.
    ForkElsewhere,
    /// The fork is clean.
    ForkClean,
    /// The other station didn't ask for the fork.
    NotAskedFor,
    /// The fork is with the station that would ask.
    ForkHere,
    /// The station has asked for the fork, or was never asked for it.
    NoRequestToken,
}

/// Whether the interaction of a station has an open request in its queue. There is one queue for
/// each interaction of the model.
pub fn is_asked_at(plan: &Plan, queues: &[Queue<Request>], station: StationId) -> bool
    requires { length queues.now ≡ length plan.now.model.interactions }
    ensures { IsTrue result ↔ IsAskedAt plan.now queues.now station.0 }
{
    plan.recall();
    match interaction_at(plan.stations(), station) {
        Some(inter) => queues[inter.0 as usize].first().is_some(),
        None => false,
    }
}

/// The first station, from a number on, whose interaction has an open request in its queue; behind
/// all stations where there is none.
pub fn first_asked(plan: &Plan, queues: &[Queue<Request>], from: usize) -> usize
    requires { length queues.now ≡ length plan.now.model.interactions }
    ensures onward { from ≤ result }
    ensures between { (s : ℕ) → from ≤ s → s < result → ¬ IsAskedAt plan.now queues.now s }
{
    plan.recall();
    let count = plan.stations().len();
    for place in from..count {
        if is_asked_at(plan, queues, StationId(place as u16)) {
            return place;
        }
    }
    from.max(count)
}
