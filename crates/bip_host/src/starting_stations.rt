//! How the stations of a host begin: their inboxes, and each station with its ends.
ghost use Rattle.std.specs.Prelude.{◌≡◌, ◌⊎◌, ◌↔◌, ◌≤◌, ◌^◌, IfNone, IfOk, IfSome};
ghost use Rattle.std.specs.Prelude.{IsTrue, List, Some, length, slice_get};
ghost use Rattle.bip_bank.specs.Sharing.{IsNextStation};
ghost use Rattle.bip_host.specs.Nodes.{kind_of};
ghost use Rattle.bip_host.specs.Starting.{AreForkNodes, AreNeighbours, AreNeighboursOf};
ghost use Rattle.bip_host.specs.Starting.{AreRingNodes, IsForkActor};
ghost use Rattle.bip_host.specs.Starting.{IsStationAt, IsStationCount};
ghost use Rattle.bip_model.specs.Partitions.{class_in};
ghost use Rattle.bip_model.specs.declared.numbering.InterId.{InterId};
ghost use Rattle.bip_partition.specs.Plans.{AreStations};

use crate::addressed::Addressed;
use crate::ends::{Intake, Outlet, Outlets};
use crate::forks::ForkActor;
use crate::hands::StationHands;
use crate::hosts::Kind;
use crate::keepers::{BookKeeper, BookLock};
use crate::mailboxes::Mailbox;
use crate::messages::{ToClass, ToStation};
use crate::nodes::Stations;
use crate::rings::RingActor;
use crate::settled::Settled;
use crate::starting::decided_at;
use bip_bank::StationId;
use bip_forks::Station;
use bip_model::InterId;
use bip_partition::Plan;
use bip_ring::Token;
use std::alloc::{AllocError, Global};

/// The writers of the inbox of a ring's station: the class of its interaction, and the station
/// before it.
const RING_WRITERS: usize = 2;

/// The inboxes of all stations of a host of a kind, by station.
pub(crate) fn station_mailboxes(
    alloc: Global,
    plan: &Plan,
    kind: Kind,
) -> Result<Vec<Mailbox<ToStation>>, AllocError>
    ensures { IfOk result (λ boxes. IsStationCount plan.now kind (length boxes.items)) }
{
    let mut mailboxes = Vec::new(alloc);
    if kind == Kind::Central {
        return Ok(mailboxes);
    }
    for place in 0..plan.stations().len() {
        let count = match kind {
            Kind::Forks => count_neighbours(plan, place).saturating_add(1),
            _ => RING_WRITERS,
        };
        mailboxes.push(Mailbox::new(alloc, count)?)?;
    }
    Ok(mailboxes)
}

/// The stations of a host of a kind, by number.
pub(crate) fn start_stations<'h, 'm>(
    alloc: Global,
    plan: &Plan,
    kind: Kind,
    book: &'h BookLock<'m>,
    intakes: Vec<Intake<'h, ToStation>>,
    stations: &mut Outlets<'h, ToStation>,
    classes: &mut Outlets<'h, ToClass>,
) -> Result<Stations<'h, 'm>, AllocError>
    ensures { IfOk result (λ stations. kind_of stations ≡ kind) }
{
    match kind {
        Kind::Central => Ok(Stations::Central),
        Kind::Ring => {
            let ring = start_ring(alloc, plan, book, intakes, stations, classes)?;
            Ok(Stations::Ring(ring))
        }
        Kind::Forks => {
            let forks = start_forks(alloc, plan, book, intakes, stations, classes)?;
            Ok(Stations::Forks(forks))
        }
    }
}

/// The number of the station at a place.
fn station_at(place: usize) -> StationId {
    StationId(u16::try_from(place).unwrap_or(u16::MAX))
}

/// The stations of a ring, each with its own inbox; the first one has the token. They stand by
/// station.
#[tactic(auto, using(crate::proofs::StartingLemmas::no_ring))]
fn start_ring<'h, 'm>(
    alloc: Global,
    plan: &Plan,
    book: &'h BookLock<'m>,
    intakes: Vec<Intake<'h, ToStation>>,
    stations: &mut Outlets<'h, ToStation>,
    classes: &mut Outlets<'h, ToClass>,
) -> Result<Vec<(RingActor, StationHands<'h, 'm>)>, AllocError>
    ensures { IfOk result (λ nodes. AreRingNodes (length intakes.entry.items) nodes.items) }
{
    let count = intakes.len();
    let mut nodes = Vec::with_capacity(alloc, count)?;
    let mut token = match Settled::<Token>::first(alloc, plan) {
        Ok(token) => Some(token),
        Err(refused) => {
            drop(intakes);
            drop(nodes);
            return Err(refused);
        }
    };
    for intake in intakes {
        let Some(next) = next_in_ring(count, nodes.len()) else {
            drop(intake);
            break;
        };
        let Some(class) = class_outlet(plan, nodes.len(), classes) else {
            drop(intake);
            break;
        };
        match one_outlet(alloc, next.0 as usize, stations) {
            Ok(own) => {
                let hands = StationHands {
                    intake,
                    class,
                    stations: own,
                    keeper: BookKeeper::of(book),
                    number: station_at(nodes.len()),
                };
                nodes.push((RingActor::new(alloc, next, token.take()), hands))?;
            }
            Err(refused) => {
                drop(class);
                drop(intake);
                drop(token);
                drop(nodes);
                return Err(refused);
            }
        }
    }
    drop(token);
    Ok(nodes)
}

/// An outlet to the class of the interaction that the station at a place decides for.
fn class_outlet<'h>(
    plan: &Plan,
    place: usize,
    classes: &mut Outlets<'h, ToClass>,
) -> Option<Outlet<'h, ToClass>>
    ensures of { IfSome result (λ outlet. (inter : InterId) × IsStationAt plan.now place inter
        × (slice_get classes.old.inboxes.now (class_in plan.now.classes inter.0)
        ≡ Some outlet.inbox.now)) }
    ensures inboxes { classes.new.inboxes.now ≡ classes.old.inboxes.now }
{
    let (_inter, class) = decided_at(plan, place)?;
    classes.take(class.0 as usize)
}

/// The station behind the one at a place of a ring of so many: the first one behind the last.
fn next_in_ring(count: usize, place: usize) -> Option<StationId>
    ensures some { IfSome result (λ next. IsNextStation count place next.0) }
    ensures none { IfNone result ((count ≤ place) ⊎ (2 ^ 16 ≤ count)) }
{
    if place >= count {
        return None;
    }
    let next = if place + 1 < count { place + 1 } else { 0 };
    match u16::try_from(next) {
        Ok(number) => Some(StationId(number)),
        Err(_) => None,
    }
}

/// An outlet to the station at a place.
fn one_outlet<'h>(
    alloc: Global,
    place: usize,
    stations: &mut Outlets<'h, ToStation>,
) -> Result<Addressed<'h, ToStation>, AllocError>
    ensures { IfOk result (λ own. own.inboxes.now ≡ stations.old.inboxes.now) }
{
    let mut own = Addressed::new(alloc, stations.inboxes());
    if let Some(outlet) = stations.take(place) {
        own.add(place, outlet)?;
    }
    Ok(own)
}

/// How many neighbours the station at a place has.
fn count_neighbours(plan: &Plan, place: usize) -> usize
    ensures { (list : List InterId) × AreStations plan.now list × (result ≤ length list) }
{
    let mut count: usize = 0;
    for other in 0..plan.stations().len() {
        if are_neighbours(plan, plan.stations(), place, other) {
            count += 1;
        }
    }
    count
}

/// Whether two stations share a fork: they are two, and their interactions are in conflict.
fn are_neighbours(plan: &Plan, stations: &[InterId], place: usize, other: usize) -> bool
    ensures { IsTrue result ↔ AreNeighbours plan.now.model stations.now place other }
{
    let (Some(inter), Some(another)) = (stations.get(place), stations.get(other)) else {
        return false;
    };
    place != other && plan.conflict(*inter, *another)
}

/// The stations that share forks, each with its own inbox. They stand by station.
#[tactic(auto, using(crate::proofs::StartingLemmas::no_fork))]
fn start_forks<'h, 'm>(
    alloc: Global,
    plan: &Plan,
    book: &'h BookLock<'m>,
    intakes: Vec<Intake<'h, ToStation>>,
    stations: &mut Outlets<'h, ToStation>,
    classes: &mut Outlets<'h, ToClass>,
) -> Result<Vec<(ForkActor, StationHands<'h, 'm>)>, AllocError>
    ensures { IfOk result (λ nodes. AreForkNodes plan.now nodes.items) }
{
    let mut nodes = Vec::with_capacity(alloc, intakes.len())?;
    for intake in intakes {
        let place = nodes.len();
        let Some(class) = class_outlet(plan, place, classes) else {
            // By calls: what is let go without takes the prover long (CONTRIBUTING, "Proving").
            drop(intake);
            return Ok(nodes);
        };
        let own = match fork_outlets(alloc, plan, place, stations) {
            Ok(own) => own,
            Err(refused) => {
                drop(class);
                drop(intake);
                drop(nodes);
                return Err(refused);
            }
        };
        match fork_actor(alloc, plan, place) {
            Ok(actor) => {
                let hands = StationHands {
                    intake,
                    class,
                    stations: own,
                    keeper: BookKeeper::of(book),
                    number: station_at(place),
                };
                nodes.push((actor, hands))?;
            }
            Err(refused) => {
                drop(own);
                drop(class);
                drop(intake);
                drop(nodes);
                return Err(refused);
            }
        }
    }
    Ok(nodes)
}

/// The actor of the station at a place at first.
fn fork_actor(alloc: Global, plan: &Plan, place: usize) -> Result<ForkActor, AllocError>
    ensures { IfOk result (IsForkActor plan.now place) }
{
    let neighbours = neighbours(alloc, plan, place)?;
    let station = match u16::try_from(place) {
        Ok(number) => Settled::<Station>::first(alloc, plan, StationId(number))?,
        Err(_) => None,
    };
    Ok(ForkActor::new(neighbours, station))
}

/// The neighbours of the station at a place, all of them, in order of number.
fn neighbours(alloc: Global, plan: &Plan, place: usize) -> Result<Vec<StationId>, AllocError>
    ensures { IfOk result (λ list. AreNeighboursOf plan.now place list.items) }
{
    plan.recall();
    let stations = plan.stations();
    let mut list = Vec::new(alloc);
    for other in 0..stations.len() {
        if are_neighbours(plan, stations, place, other) {
            if let Ok(number) = u16::try_from(other) {
                list.push(StationId(number))?;
            }
        }
    }
    Ok(list)
}

/// An outlet to each neighbour of the station at a place.
fn fork_outlets<'h>(
    alloc: Global,
    plan: &Plan,
    place: usize,
    stations: &mut Outlets<'h, ToStation>,
) -> Result<Addressed<'h, ToStation>, AllocError>
    ensures { IfOk result (λ own. own.inboxes.now ≡ stations.old.inboxes.now) }
{
    let mut own = Addressed::new(alloc, stations.inboxes());
    for other in 0..plan.stations().len() {
        if are_neighbours(plan, plan.stations(), place, other) {
            if let Some(outlet) = stations.take(other) {
                own.add(other, outlet)?;
            }
        }
    }
    Ok(own)
}
