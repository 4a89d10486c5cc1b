//! What a station shares with each one, kept only of those with which it shares something.
ghost use Rattle.std.specs.Prelude.{◌≡◌, ◌↔◌, ◌<◌, ◌≤◌, ℕ, [], ◌∷◌, ◌++◌, All, IfErr, IfNone};
ghost use Rattle.std.specs.Prelude.{IfSome, IsTrue, None, OnErr, OnOk, Some, false, length, map};
ghost use Rattle.std.specs.Prelude.{slice_set, true};
ghost use Rattle.bip_forks.specs.Sides.{AreByNumber, ArePassed, IsFirstListed, IsListedWith};
ghost use Rattle.bip_forks.specs.Sides.{IsNextNeighbour, listed_at};
ghost use Rattle.bip_forks.specs.Exchanges.{Goes, StaysSomehow};
ghost use Rattle.bip_forks.specs.Sides.{LacksFork, LacksToken};
ghost use Rattle.bip_forks.specs.Sides.{listed_sides, side_among, with_other_side};
ghost use Rattle.bip_forks.specs.Stations.{AllLie, LiesHere, MayAsk, MayPass, nothing_shared};
ghost use Rattle.bip_forks.specs.Stations.{rewritten, rows_here};
ghost use Rattle.bip_forks.specs.declared.sides.Shared.{Shared};

use crate::exchanges::Exchange;
use crate::shares::{Fork, Side};
use bip_bank::StationId;
use bip_table::Row;
use std::alloc::{AllocError, Global};
use std::marker;

/// What a station shares with another one.
#[derive(Drop)]
pub(crate) struct Shared {
    pub(crate) with: StationId,
    pub(crate) side: Side,
}

impl Shared {
    /// Whether its fork, or its request token, can go.
    fn goes(&self, exchange: Exchange) -> bool
        ensures goes { IsTrue result → Goes exchange self.now.side }
        ensures stays { result ≡ false → StaysSomehow exchange self.now.side }
    {
        match exchange {
            Exchange::Pass => self.side.may_pass(),
            Exchange::Ask => self.side.may_ask(),
        }
    }
}

/// What a station shares with each station, by number. It keeps how many there are, and what is
/// shared, in order of their numbers. Contracts see a side of each station.
#[derive(Drop)]
pub(crate) struct Sides {
    count: usize,
    shared: Vec<Shared>,
}

impl marker::Model for Sides {
    ghost use Rattle.std.specs.Prelude.{List};
    ghost use Rattle.bip_forks.specs.declared.shares.Side.{Side};

    ghost Value = { List Side };

    ghost use Rattle.bip_forks.specs.Sides.{AreByNumber, sides_from};

    ghost view = { λ s. sides_from s.count 0 s.shared.items };

    ghost invariant = { λ s. AreByNumber 0 s.count s.shared.items };
}

impl Sides {
    /// Of no station.
    pub(crate) fn new(alloc: Global) -> Sides
        ensures { result ≡ [] }
    {
        Sides {
            count: 0,
            shared: Vec::new(alloc),
        }
    }

    /// Adds what is shared with the next station. Without memory all stays as it was.
    pub(crate) fn push(&mut self, side: Side) -> Result<(), AllocError>
        requires { length self.old < 128 }
        ensures ok { OnOk result (self.new ≡ self.old ++ side ∷ []) }
        ensures err { OnErr result (self.new ≡ self.old) }
    {
        let with = StationId(self.count as u16);
        self.shared.push(Shared { with, side })?;
        self.count += 1;
        Ok(())
    }

    /// Adds that nothing is shared with the next station.
    pub(crate) fn push_nothing(&mut self)
        requires { length self.old < 128 }
        ensures { self.new ≡ self.old ++ nothing_shared ∷ [] }
    {
        self.count += 1;
    }

    /// What is shared with a station, where it is kept; else it is nothing.
    pub(crate) fn get(&self, other: StationId) -> Option<&Side>
        ensures some { IfSome result (λ side. side.now ≡ side_among self.now other.0) }
        ensures none { IfNone result (side_among self.now other.0 ≡ nothing_shared) }
    {
        match place_with(&self.shared, other) {
            Some(place) => Some(&self.shared[place].side),
            None => None,
        }
    }

    /// How many stations there are.
    pub(crate) fn len(&self) -> usize
        ensures { result ≡ length self.now }
    {
        self.count
    }

    /// The next station from a number on to which the fork, or the request token, shared with it
    /// can go; where there is none, how many stations there are, or that number where it is no
    /// lower.
    pub(crate) fn next_neighbour(&self, exchange: Exchange, from: usize) -> usize
        ensures { IsNextNeighbour (λ (t : ℕ). StaysSomehow exchange (side_among self.now t))
            (λ (t : ℕ). Goes exchange (side_among self.now t)) (length self.now) from result }
    {
        match first_that_goes(&self.shared, exchange, from) {
            Some(place) => self.shared[place].with.0 as usize,
            None => from.max(self.count),
        }
    }

    /// What is shared, in order of the stations' numbers.
    pub(crate) fn listed(&self) -> &[Shared]
        ensures { rows_here (listed_sides result.now) ≡ rows_here self.now }
    {
        self.shared.as_slice()
    }

    /// Whether all forks lie here.
    pub(crate) fn has_all(&self) -> bool
        ensures { IsTrue result ↔ AllLie self.now }
    {
        has_all(&self.shared)
    }

    /// Lets the request token of the fork shared with a station go, where it can.
    pub(crate) fn ask(&mut self, other: StationId) -> bool
        ensures went { IsTrue result → MayAsk (side_among self.old other.0)
            × (self.new ≡ slice_set self.old other.0
            (record (side_among self.old other.0) { asked = false })) }
        ensures stays { result ≡ false → (self.new ≡ self.old)
            × ¬ MayAsk (side_among self.old other.0) }
    {
        match place_with(&self.shared, other) {
            Some(place) => self.shared[place].side.ask(),
            None => false,
        }
    }

    /// Lets the fork shared with a station go, where it can.
    pub(crate) fn pass(&mut self, other: StationId) -> Option<Fork>
        ensures some { IfSome result (λ fork. MayPass (side_among self.old other.0)
            × ((side_among self.old other.0).fork ≡ Some fork)
            × (self.new ≡ slice_set self.old other.0
            (record (side_among self.old other.0) { fork = None }))) }
        ensures none { IfNone result ((self.new ≡ self.old)
            × ¬ MayPass (side_among self.old other.0)) }
    {
        match place_with(&self.shared, other) {
            Some(place) => self.shared[place].side.pass(),
            None => None,
        }
    }

    /// Takes the request token of the fork shared with a station, where one is lacking.
    pub(crate) fn take_ask(&mut self, other: StationId) -> bool
        ensures taken { IsTrue result → LacksToken (side_among self.old other.0)
            × (self.new ≡ slice_set self.old other.0
            (record (side_among self.old other.0) { asked = true })) }
        ensures stays { result ≡ false → (self.new ≡ self.old)
            × ¬ LacksToken (side_among self.old other.0) }
    {
        match place_with(&self.shared, other) {
            Some(place) => self.shared[place].side.take_ask(),
            None => false,
        }
    }

    /// Lays the fork shared with a station, clean or dirty, where one is lacking. Else it comes
    /// back, and all stays as it was.
    pub(crate) fn lay(&mut self, other: StationId, fork: Fork, clean: bool) -> Result<(), Fork>
        ensures ok { OnOk result (LacksFork (side_among self.old other.0)
            × (self.new ≡ slice_set self.old other.0
            (record (side_among self.old other.0) { fork = Some fork; clean = clean }))) }
        ensures err { IfErr result (λ refused. (refused ≡ fork) × (self.new ≡ self.old)
            × ¬ LacksFork (side_among self.old other.0)) }
    {
        match place_with(&self.shared, other) {
            Some(place) => self.shared[place].side.lay(fork, clean),
            None => Err(fork),
        }
    }

    /// Writes the used numbers of a table into all forks, which are dirty then.
    pub(crate) fn write_all(&mut self, rows: &[Row])
        ensures { self.new ≡ map (rewritten rows.now) self.old }
    {
        write_all(&mut self.shared, rows);
    }
}

/// The first place with a number from one on, or how many places there are.
fn first_from(shared: &[Shared], from: usize) -> usize
    requires { (below : ℕ) × AreByNumber 0 below shared.now }
    ensures within { result ≤ length shared.now }
    ensures before { (k : ℕ) → k < result → (listed_at shared.now k).with.0 < from }
    ensures onward { (k : ℕ) → result ≤ k → k < length shared.now
        → from ≤ (listed_at shared.now k).with.0 }
{
    let mut low = 0;
    let mut high = shared.len();
    while low < high {
        let middle = low + (high - low) / 2;
        if (shared[middle].with.0 as usize) < from {
            low = middle + 1;
        } else {
            high = middle;
        }
    }
    low
}

/// The place of what is shared with a station, if there is any.
fn place_with(shared: &[Shared], other: StationId) -> Option<usize>
    requires { (below : ℕ) × AreByNumber 0 below shared.now }
    ensures some { IfSome result (IsListedWith shared.now other.0) }
    ensures none { IfNone result ((k : ℕ) → ¬ IsListedWith shared.now other.0 k) }
{
    let place = first_from(shared, other.0 as usize);
    if place >= shared.len() {
        return None;
    }
    if shared[place].with.0 != other.0 {
        return None;
    }
    Some(place)
}

/// The first place with a number from one on whose fork, or request token, can go.
fn first_that_goes(shared: &[Shared], exchange: Exchange, from: usize) -> Option<usize>
    requires { (below : ℕ) × AreByNumber 0 below shared.now }
    ensures some { IfSome result (IsFirstListed (StaysSomehow exchange) (Goes exchange) shared.now
        from) }
    ensures none { IfNone result (ArePassed (StaysSomehow exchange) shared.now from
        (length shared.now)) }
{
    for place in first_from(shared, from)..shared.len() {
        if shared[place].goes(exchange) {
            return Some(place);
        }
    }
    None
}

/// Whether all forks that are shared lie here.
fn has_all(shared: &[Shared]) -> bool
    ensures { IsTrue result ↔ All (λ (x : Shared). LiesHere x.side) shared.now }
{
    shared.iter().all(|one| one.side.lies())
}

/// Writes the used numbers of a table into all forks that are shared.
fn write_all(shared: &mut Vec<Shared>, rows: &[Row])
    ensures { shared.new.items
        ≡ map (λ (x : Shared). with_other_side (rewritten rows.now x.side) x) shared.old.items }
{
    for place in 0..shared.len() {
        shared[place].side.write(rows);
    }
}
