//! What is in flight between stations, and what each step sends, delivers or decides.
ghost use Rattle.std.specs.Prelude.{◌≡◌, ◌<◌, ℕ, IfErr, IfOk, List, OnErr, Some, length, slice_get};
ghost use Rattle.std.specs.Prelude.{if◌then◌else◌};
ghost use Rattle.std.specs.Prelude.{vec_capacity, vec_len};
ghost use Rattle.bip_model.specs.declared.grants.Grant.{Grant};
ghost use Rattle.bip_bank.specs.declared.banks.Acted.TheVariants.{Moved, Nothing};
ghost use Rattle.bip_bank.specs.declared.banks.BankStep.TheVariants.{Ask, Deliver, Pass, Serve};
ghost use Rattle.bip_bank.specs.declared.banks.StationId.{StationId};
ghost use Rattle.bip_forks.specs.Kept.{CanAnswer, CanArrive, CanLack, DoesHere, with_arrived};
ghost use Rattle.bip_forks.specs.Kept.{fork_parts, side_at, station_at};
ghost use Rattle.bip_forks.specs.Machines.{grants_after};
ghost use Rattle.bip_forks.specs.Stations.{HasFirst, IsReadyToServe, MayAsk, MayPass};
ghost use Rattle.bip_forks.specs.declared.sending.Sent.{Sent};

use crate::shares::{AskToken, Fork};
use crate::stations::Station;
use bip_bank::{Acted, BankStep, StationId};
use bip_model::{Grant, Request};
use bip_table::Decision;
use std::alloc::AllocError;

/// What is in flight from one station to another.
#[derive(Drop)]
pub(crate) enum Sent {
    Fork {
        from: StationId,
        to: StationId,
        fork: Fork,
    },
    Ask {
        from: StationId,
        to: StationId,
        token: AskToken,
    },
}

/// Does a step on stations, on what is in flight between them, and on the grants. Without memory
/// all of them stay as they were; it is wanted only where the step applies.
#[inline(always)]
pub(crate) fn do_step(
    stations: &mut Vec<Station>,
    flight: &mut Vec<Sent>,
    grants: &mut Vec<Grant>,
    step: BankStep,
) -> Result<Acted, AllocError>
    requires arrive { (place : ℕ) (x : Sent) → slice_get flight.old.items place ≡ Some x
        → CanArrive stations.old.items x }
    requires answer { CanAnswer stations.old.items grants.old.items }
    ensures does { IfOk result (λ acted. DoesHere
        (fork_parts stations.old.items flight.old.items grants.old.items)
        step acted
        (fork_parts stations.new.items flight.new.items grants.new.items)) }
    ensures memory { IfErr result (λ e. CanLack
        (fork_parts stations.old.items flight.old.items grants.old.items)
        step) }
    ensures stations { OnErr result (stations.new.items ≡ stations.old.items) }
    ensures flight { OnErr result (flight.new.items ≡ flight.old.items) }
    ensures grants { OnErr result (grants.new.items ≡ grants.old.items) }
{
    match step {
        BankStep::Serve(station) => serve(stations, grants, station),
        _ => match move_on(stations, flight, step) {
            Ok(moved) => Ok(acted(moved)),
            Err(lack) => Err(lack),
        },
    }
}

/// What a step did that decides nothing: it moved something, or nothing.
#[inline(always)]
fn acted(moved: bool) -> Acted
    ensures { result ≡ (if moved then Moved else Nothing) }
{
    if moved { Acted::Moved } else { Acted::Nothing }
}

/// Does a step that decides nothing, and tells whether it moved something. What it gives has no
/// room for an answer, which would be cleared and copied for each step, and most do nothing.
#[inline(always)]
fn move_on(
    stations: &mut Vec<Station>,
    flight: &mut Vec<Sent>,
    step: BankStep,
) -> Result<bool, AllocError>
    requires arrive { (place : ℕ) (x : Sent) → slice_get flight.old.items place ≡ Some x
        → CanArrive stations.old.items x }
    requires other { (s : StationId) → ¬ (step ≡ Serve s) }
    ensures does { (gs : List Grant) → IfOk result (λ moved. DoesHere
        (fork_parts stations.old.items flight.old.items gs)
        step (if moved then Moved else Nothing)
        (fork_parts stations.new.items flight.new.items gs)) }
    ensures memory { (gs : List Grant) → IfErr result (λ e. CanLack
        (fork_parts stations.old.items flight.old.items gs)
        step) }
    ensures stations { OnErr result (stations.new.items ≡ stations.old.items) }
    ensures flight { OnErr result (flight.new.items ≡ flight.old.items) }
{
    match step {
        BankStep::Deliver(place) => Ok(deliver(stations, flight, place)),
        BankStep::Serve(_) => unreachable!(),
        BankStep::Pass(from, to) => pass(stations, flight, from, to),
        BankStep::Ask(from, to) => ask(stations, flight, from, to),
    }
}

/// Sends the fork that two stations share, where the first may, and tells whether it did.
#[inline(always)]
fn pass(
    stations: &mut Vec<Station>,
    flight: &mut Vec<Sent>,
    from: StationId,
    to: StationId,
) -> Result<bool, AllocError>
    ensures does { (gs : List Grant) → IfOk result (λ moved. DoesHere
        (fork_parts stations.old.items flight.old.items gs)
        (Pass from to) (if moved then Moved else Nothing)
        (fork_parts stations.new.items flight.new.items gs)) }
    ensures memory { IfErr result (λ e. MayPass (side_at stations.old.items from.0 to.0)) }
    ensures stations { OnErr result (stations.new.items ≡ stations.old.items) }
    ensures flight { OnErr result (flight.new.items ≡ flight.old.items) }
{
    let place = from.0 as usize;
    if place >= stations.len() || !stations[place].may_pass(to) {
        return Ok(false);
    }
    flight.reserve(1)?;
    match stations[place].pass(to) {
        Some(fork) => {
            flight.push_reserved(Sent::Fork { from, to, fork });
            Ok(true)
        }
        None => unreachable!(),
    }
}

/// Sends the request token of the fork that two stations share, where the first may ask, and tells
/// whether it did.
#[inline(always)]
fn ask(
    stations: &mut Vec<Station>,
    flight: &mut Vec<Sent>,
    from: StationId,
    to: StationId,
) -> Result<bool, AllocError>
    ensures does { (gs : List Grant) → IfOk result (λ moved. DoesHere
        (fork_parts stations.old.items flight.old.items gs)
        (Ask from to) (if moved then Moved else Nothing)
        (fork_parts stations.new.items flight.new.items gs)) }
    ensures memory { IfErr result (λ e. HasFirst (station_at stations.old.items from.0).waiting
        × MayAsk (side_at stations.old.items from.0 to.0)) }
    ensures stations { OnErr result (stations.new.items ≡ stations.old.items) }
    ensures flight { OnErr result (flight.new.items ≡ flight.old.items) }
{
    let place = from.0 as usize;
    if place >= stations.len() || !stations[place].may_ask(to) {
        return Ok(false);
    }
    flight.reserve(1)?;
    match stations[place].ask(to) {
        Some(token) => {
            flight.push_reserved(Sent::Ask { from, to, token });
            Ok(true)
        }
        None => unreachable!(),
    }
}

/// Lets what stands at a place in flight arrive, if something does, and tells whether it does.
#[inline(always)]
fn deliver(stations: &mut Vec<Station>, flight: &mut Vec<Sent>, place: usize) -> bool
    requires arrive { (x : Sent) → slice_get flight.old.items place ≡ Some x
        → CanArrive stations.old.items x }
    ensures does { (gs : List Grant) → DoesHere
        (fork_parts stations.old.items flight.old.items gs)
        (Deliver place) (if result then Moved else Nothing)
        (fork_parts stations.new.items flight.new.items gs) }
{
    if place >= flight.len() {
        return false;
    }
    arrive(stations, flight.remove(place));
    true
}

/// Hands on what was in flight to its station.
fn arrive(stations: &mut Vec<Station>, sent: Sent)
    requires { CanArrive stations.old.items sent }
    ensures { stations.new.items ≡ with_arrived sent stations.old.items }
{
    match sent {
        Sent::Fork { from: _, to, fork } => match stations[to.0 as usize].take_fork(fork) {
            Ok(()) => {}
            Err(_) => unreachable!(),
        },
        Sent::Ask { from: _, to, token } => match stations[to.0 as usize].take_ask(token) {
            Ok(()) => {}
            Err(_) => unreachable!(),
        },
    }
}

/// Decides on the oldest open request of a station that has all its forks.
#[inline(always)]
fn serve(
    stations: &mut Vec<Station>,
    grants: &mut Vec<Grant>,
    station: StationId,
) -> Result<Acted, AllocError>
    requires answer { CanAnswer stations.old.items grants.old.items }
    ensures does { (sent : List Sent) → IfOk result (λ acted. DoesHere
        (fork_parts stations.old.items sent grants.old.items)
        (Serve station) acted
        (fork_parts stations.new.items sent grants.new.items)) }
    ensures memory { IfErr result (λ e. (station.0 < length stations.old.items)
        × IsReadyToServe (station_at stations.old.items station.0)) }
    ensures stations { OnErr result (stations.new.items ≡ stations.old.items) }
    ensures grants { OnErr result (grants.new.items ≡ grants.old.items) }
{
    let place = station.0 as usize;
    if place >= stations.len() || !stations[place].is_ready() {
        return Ok(Acted::Nothing);
    }
    serve_ready(stations, grants, station)
}

/// The same of a station that is ready. Room for a decision is cleared where a function begins: by
/// this one, and so only where there is one.
#[inline(always)]
fn serve_ready(
    stations: &mut Vec<Station>,
    grants: &mut Vec<Grant>,
    station: StationId,
) -> Result<Acted, AllocError>
    requires answer { CanAnswer stations.old.items grants.old.items }
    requires known { station.0 < length stations.old.items }
    requires ready { IsReadyToServe (station_at stations.old.items station.0) }
    ensures does { (sent : List Sent) → IfOk result (λ acted. DoesHere
        (fork_parts stations.old.items sent grants.old.items)
        (Serve station) acted
        (fork_parts stations.new.items sent grants.new.items)) }
    ensures stations { OnErr result (stations.new.items ≡ stations.old.items) }
    ensures grants { OnErr result (grants.new.items ≡ grants.old.items) }
{
    decide(stations, grants, station)
}

/// Decides on the oldest open request of a station that is ready.
#[inline(never)]
fn decide(
    stations: &mut Vec<Station>,
    grants: &mut Vec<Grant>,
    station: StationId,
) -> Result<Acted, AllocError>
    requires answer { CanAnswer stations.old.items grants.old.items }
    requires known { station.0 < length stations.old.items }
    requires ready { IsReadyToServe (station_at stations.old.items station.0) }
    ensures does { (sent : List Sent) → IfOk result (λ acted. DoesHere
        (fork_parts stations.old.items sent grants.old.items)
        (Serve station) acted
        (fork_parts stations.new.items sent grants.new.items)) }
    ensures stations { OnErr result (stations.new.items ≡ stations.old.items) }
    ensures grants { OnErr result (grants.new.items ≡ grants.old.items) }
{
    let place = station.0 as usize;
    grants.reserve(1)?;
    match stations[place].serve()? {
        Some((request, decision)) => {
            write_down(grants, &request, &decision);
            Ok(Acted::Answered { request, decision })
        }
        None => unreachable!(),
    }
}

/// Writes a grant down, for which there is room; of a refusal there is nothing to write.
fn write_down(grants: &mut Vec<Grant>, request: &Request, decision: &Decision)
    requires { vec_len grants.old < vec_capacity grants.old }
    ensures { grants.new.items ≡ grants_after grants.old.items request.now decision.now }
{
    match decision {
        Decision::Granted(_) => grants.push_reserved(Grant {
            inter: request.inter,
            wants: request.wants.copy(),
        }),
        Decision::Refused { .. } => {}
    }
}
