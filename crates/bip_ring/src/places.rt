//! Where a ring's token is, and where steps take it.
ghost use Rattle.std.specs.Prelude.{◌≡◌, ◌<◌, ◌≤◌, ◌↔◌, ℕ, IfNone, IfSome, IsTrue};
ghost use Rattle.bip_bank.specs.Sharing.{IsNextStation, TakesToken, TokenPlace, ring, token_at};
ghost use Rattle.bip_bank.specs.Sharing.{token_to};
ghost use Rattle.bip_bank.specs.declared.banks.BankStep.TheVariants.{Pass};
ghost use Rattle.bip_bank.specs.Steps.{step_at};
ghost use Rattle.bip_ring.specs.Rings.{IsWithoutToken, KeepsToken, LeavesToken, arrival_of};
ghost use Rattle.bip_ring.specs.Rings.{token_place};

use bip_bank::{BankStep, StationId, WhyIdle, step_count};

/// Where a token is: at a station, or in flight to one.
#[derive(Clone, Copy, Debug, PartialEq, Eq)]
pub enum Place {
    At(StationId),
    To(StationId),
}

/// Whether a station has the token.
pub(crate) fn is_at(place: Place, station: StationId) -> bool
    ensures { IsTrue result ↔ (token_place place ≡ token_at station.0) }
{
    match place {
        Place::At(at) => at.0 == station.0,
        Place::To(_) => false,
    }
}

/// Whether a station is the next one after a station of a ring of so many.
fn is_next(count: usize, station: StationId, next: StationId) -> bool
    ensures { IsTrue result ↔ IsNextStation count station.0 next.0 }
{
    let (station, next) = (station.0 as usize, next.0 as usize);
    if station >= count {
        return false;
    }
    if station + 1 < count {
        next == station + 1
    } else {
        next == 0
    }
}

/// The next one after a station of a ring of so many.
fn next_station(count: usize, station: usize) -> usize
    requires { station < count }
    ensures { IsNextStation count station result }
{
    if station + 1 < count { station + 1 } else { 0 }
}

/// Why a station doesn't have the token, where it doesn't.
pub(crate) fn why_away(place: Place, station: StationId) -> Option<WhyIdle>
    ensures some { (count : ℕ) → IfSome result
        (IsWithoutToken (ring count (token_place place)) station.0) }
    ensures none { IfNone result (token_place place ≡ token_at station.0) }
{
    match place {
        Place::At(at) if at.0 == station.0 => None,
        Place::At(_) => Some(WhyIdle::TokenElsewhere),
        Place::To(_) => Some(WhyIdle::TokenInFlight),
    }
}

/// Why a station of a ring of so many doesn't hand the token on to another one, where it doesn't.
pub(crate) fn why_kept(
    place: Place,
    count: usize,
    from: StationId,
    to: StationId,
) -> Option<WhyIdle>
    ensures some { IfSome result (KeepsToken (ring count (token_place place)) from.0 to.0) }
    ensures none { IfNone result
        (TakesToken count (token_place place) (Pass from to) (token_to to.0)) }
{
    if let Some(why) = why_away(place, from) {
        return Some(why);
    }
    if is_next(count, from, to) {
        return None;
    }
    Some(WhyIdle::NotNext)
}

/// A number up to which, from one on, the steps of a ring of so many stations leave its token alone
/// and serve nobody who has it, by `step_at`. Of those that don't deliver there are two others: the
/// one that serves the station that has it, and the one that hands it on to the next one.
pub(crate) fn idle_until(place: Place, count: usize, from: usize) -> usize
    requires few { count ≤ 65536 }
    ensures onward { from ≤ result }
    ensures idle { (i : ℕ) → from ≤ i → i < result
        → LeavesToken (ring count (token_place place)) (step_at count i) }
{
    let all = step_count(count);
    let holder = match place {
        Place::At(holder) => holder.0 as usize,
        Place::To(_) => return from.max(all),
    };
    if holder >= count {
        return from.max(all);
    }
    if from <= holder {
        return holder;
    }
    let pass = count + holder * count + next_station(count, holder);
    if from <= pass { pass } else { from.max(all) }
}

/// Where a step takes the token of a ring of so many stations, if it takes it anywhere.
pub(crate) fn moved(place: Place, count: usize, step: BankStep) -> Option<Place>
    ensures some { IfSome result (λ to.
        TakesToken count (token_place place) step (token_place to)) }
    ensures none { IfNone result ((to : TokenPlace)
        → ¬ TakesToken count (token_place place) step to) }
{
    match step {
        BankStep::Pass(from, to) => handed_on(place, count, from, to),
        BankStep::Deliver(0) => arrived(place),
        _ => None,
    }
}

/// Where a station hands the token on to.
fn handed_on(place: Place, count: usize, from: StationId, to: StationId) -> Option<Place>
    ensures some { IfSome result (λ later.
        TakesToken count (token_place place) (Pass from to) (token_place later)) }
    ensures none { IfNone result ((later : TokenPlace)
        → ¬ TakesToken count (token_place place) (Pass from to) later) }
{
    if !is_at(place, from) {
        return None;
    }
    if !is_next(count, from, to) {
        return None;
    }
    Some(Place::To(to))
}

/// Where a token that is in flight arrives.
fn arrived(place: Place) -> Option<Place>
    ensures { result ≡ arrival_of place }
{
    match place {
        Place::At(_) => None,
        Place::To(to) => Some(Place::At(to)),
    }
}
