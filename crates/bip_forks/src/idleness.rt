//! Why a step of forks does nothing.
ghost use Rattle.std.specs.Prelude.{◌≡◌, ◌<◌, ◌≤◌, ◌*◌, List, IfNone, IfSome, length, ℕ};
ghost use Rattle.bip_model.specs.declared.grants.Grant.{Grant};
ghost use Rattle.bip_forks.specs.Idleness.{AreIdleHere, AreIdlePairs, IsIdleExchange};
ghost use Rattle.bip_forks.specs.Idleness.{IsIdleWith, IsUnservedHere};
ghost use Rattle.bip_forks.specs.Kept.{AppliesTo, IsIdleHere, fork_parts};
ghost use Rattle.bip_forks.specs.declared.sending.Sent.{Sent};

use crate::exchanges::Exchange;
use crate::stations::Station;
use bip_bank::{BankStep, WhyIdle, step_count};

/// Why a step doesn't apply to stations, where so many things are in flight; none where it does.
pub(crate) fn why_idle(stations: &[Station], flight: usize, step: BankStep) -> Option<WhyIdle>
    ensures some { (sent : List Sent) (gs : List Grant) → length sent ≡ flight
        → IfSome result (IsIdleHere (fork_parts stations.now sent gs) step) }
    ensures none { (sent : List Sent) (gs : List Grant) → length sent ≡ flight
        → IfNone result (AppliesTo (fork_parts stations.now sent gs) step) }
{
    match step {
        BankStep::Deliver(place) if place < flight => None,
        BankStep::Deliver(_) => Some(WhyIdle::NothingThere),
        BankStep::Serve(station) => match stations.get(station.0 as usize) {
            Some(station) => station.why_unserved(),
            None => Some(WhyIdle::NothingOpen),
        },
        BankStep::Pass(from, to) => match stations.get(from.0 as usize) {
            Some(station) => station.why_kept(to),
            None => Some(WhyIdle::NoFork),
        },
        BankStep::Ask(from, to) => match stations.get(from.0 as usize) {
            Some(station) => station.why_unasked(to),
            None => Some(WhyIdle::NothingOpen),
        },
    }
}

/// A number up to which, from one on, the steps of stations are idle, by `step_at`.
pub(crate) fn idle_until(stations: &[Station], from: usize) -> usize
    requires few { length stations.now ≤ 65536 }
    ensures onward { from ≤ result }
    ensures idle { (sent : List Sent) (gs : List Grant)
        → AreIdleHere (fork_parts stations.now sent gs) from result }
{
    let count = stations.len();
    let pairs = count * count;
    let served = next_served(stations, from);
    if served < count {
        return served;
    }
    let passing = next_pair(stations, Exchange::Pass, served - count);
    if passing < pairs {
        return count + passing;
    }
    let asking = next_pair(stations, Exchange::Ask, passing - pairs);
    if asking < pairs {
        return count + pairs + asking;
    }
    from.max(step_count(count))
}

/// The next station, from a number on, that can be served; behind all where there is none.
fn next_served(stations: &[Station], from: usize) -> usize
    ensures onward { from ≤ result }
    ensures least { (s : ℕ) → from ≤ s → length stations.now ≤ s → result ≤ s }
    ensures passed { (s : ℕ) → from ≤ s → s < result → s < length stations.now
        → IsUnservedHere stations.now s }
{
    let count = stations.len();
    for place in from..count {
        match stations[place].why_unserved() {
            Some(_why) => {}
            None => return place,
        }
    }
    from.max(count)
}

/// The next pair of stations, from a number on, of which the first can make that exchange with the
/// second; behind all where there is none.
fn next_pair(stations: &[Station], exchange: Exchange, from: usize) -> usize
    requires few { length stations.now ≤ 65536 }
    ensures onward { from ≤ result }
    ensures least { (k : ℕ) → from ≤ k → length stations.now * length stations.now ≤ k
        → result ≤ k }
    ensures passed { AreIdlePairs (IsIdleWith exchange stations.now) (length stations.now) from
        result }
{
    let count = stations.len();
    if count == 0 {
        return from;
    }
    let mut to = from % count;
    for row in from / count..count {
        let next = next_with(&stations[row], exchange, to);
        if next < count {
            return row * count + next;
        }
        to = 0;
    }
    from.max(count * count)
}

/// The next station, from a number on, with which one can make that exchange.
fn next_with(station: &Station, exchange: Exchange, from: usize) -> usize
    ensures onward { from ≤ result }
    ensures passed { (t : ℕ) → from ≤ t → t < result → IsIdleExchange exchange station.now t }
{
    match exchange {
        Exchange::Pass => station.next_pass(from),
        Exchange::Ask => station.next_ask(from),
    }
}
