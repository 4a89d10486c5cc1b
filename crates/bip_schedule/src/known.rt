//! Lines of schedules that are known again: what a line said when it stood there before.
ghost use Rattle.std.specs.Prelude.{◌≡◌, ◌<◌, All, IfOk, IfSome, None};
ghost use Rattle.bip_partition.specs.Plans.{AreStations};
ghost use Rattle.bip_schedule.specs.Known.{IsKeptAt};
ghost use Rattle.bip_schedule.specs.Lines.{event_on};
ghost use Rattle.bip_schedule.specs.Writing.{HasSpelling};

use crate::lines::read_line;
use bip_core::Event;
use bip_model::InterId;
use bip_partition::Plan;
use bip_replay::LineFault;
use std::alloc::{AllocError, Global};
use std::marker::Model;

/// How many lines are kept at most.
const PLACES: usize = 1024;

/// An odd number, whose bits are mixed.
const SPREAD: u64 = 0x9e37_79b9_7f4a_7c15;

/// A line, and the event that it says.
#[derive(Clone, Copy)]
struct KnownLine<'t> {
    line: &'t [u8],
    event: Event,
}

/// Reads lines of schedules for a plan, and keeps for each hash of a line the last one that said an
/// event: where it comes again it isn't read again. Without memory for them each line is read.
/// Contracts see the plan with its stations.
#[derive(Drop)]
pub(crate) struct KnownLines<'t> {
    plan: &'t Plan,
    stations: &'t [InterId],
    places: Vec<Option<KnownLine<'t>>>,
}

impl<'t> Model for KnownLines<'t> {
    ghost use Rattle.bip_schedule.specs.Known.{ArePlacesKnown, StationedPlan};

    ghost Value = { StationedPlan };

    ghost view = { λ k. record { plan = k.plan.now; stations = k.stations.now } };

    ghost invariant = { λ k. ArePlacesKnown
        (record { plan = k.plan.now; stations = k.stations.now }) k.places.items };
}

impl<'t> KnownLines<'t> {
    /// No line of a plan is known yet.
    pub(crate) fn of(alloc: Global, plan: &'t Plan) -> KnownLines<'t>
        ensures plan { result.plan ≡ plan.now }
        ensures stations { AreStations result.plan result.stations }
    {
        KnownLines {
            plan,
            stations: plan.stations(),
            places: empty_places(alloc).unwrap_or(Vec::new(alloc)),
        }
    }

    /// The event that a line says; none of a line that says nothing.
    pub(crate) fn read(&mut self, line: &'t [u8]) -> Result<Option<Event>, LineFault>
        ensures says { result ≡ event_on self.old.plan self.old.stations line.now }
        ensures spelled { IfOk result (λ said.
            IfSome said (HasSpelling self.old.plan self.old.stations)) }
        ensures same { self.new ≡ self.old }
    {
        let place = hash_of(line);
        if let Some(event) = event_at(self.places.as_slice(), place, line) {
            return Ok(Some(event));
        }
        let said = read_line(self.plan, self.stations, line)?;
        if let Some(event) = said
            && place < self.places.len()
        {
            self.places[place] = Some(KnownLine { line, event });
        }
        Ok(said)
    }
}

fn empty_places<'t>(alloc: Global) -> Result<Vec<Option<KnownLine<'t>>>, AllocError>
    ensures { IfOk result (λ places. All (λ kept. kept ≡ None) places.items) }
{
    let mut places = Vec::with_capacity(alloc, PLACES)?;
    for _ in 0..PLACES {
        places.push(None)?;
    }
    Ok(places)
}

// The event that is kept of a line at a place, if the line stands there.
fn event_at(places: &[Option<KnownLine<'_>>], place: usize, line: &[u8]) -> Option<Event>
    ensures { IfSome result (IsKeptAt places.now place line.now) }
{
    match places.get(place) {
        Some(Some(known)) if known.line == line => Some(known.event),
        _ => None,
    }
}

// A number below that of the places, of all bytes of a line.
fn hash_of(line: &[u8]) -> usize
    ensures { result < PLACES }
{
    let hash = match line.last_chunk::<8>() {
        Some(last) => mixed(hash_of_words(line), u64::from_le_bytes(*last)),
        None => hash_of_bytes(line),
    };
    (hash >> 54) as usize % PLACES
}

// Of each eight bytes together, without those behind the last eight.
fn hash_of_words(line: &[u8]) -> u64 {
    let mut hash = 0;
    for word in line.as_chunks::<8>().0 {
        hash = mixed(hash, u64::from_le_bytes(*word));
    }
    hash
}

fn hash_of_bytes(line: &[u8]) -> u64 {
    let mut hash = 0;
    for byte in line {
        hash = mixed(hash, u64::from(*byte));
    }
    hash
}

fn mixed(hash: u64, word: u64) -> u64 {
    (hash ^ word).wrapping_mul(SPREAD)
}
