//! One station: its table, its open requests, and what it shares.
ghost use Rattle.std.specs.Prelude.{◌≡◌, ◌↔◌, ◌<◌, [], ◌∷◌, ◌++◌, IfErr, IfNone, IfOk, IfSome};
ghost use Rattle.std.specs.Prelude.{IsTrue, ℕ};
ghost use Rattle.std.specs.Prelude.{None, OnErr, OnOk, Some, false, length, true};
ghost use Rattle.bip_table.specs.Rows.{has_row, used_at};
ghost use Rattle.bip_bank.specs.declared.banks.StationId.{StationId};
ghost use Rattle.bip_bank.specs.declared.idleness.WhyIdle.{WhyIdle};
ghost use Rattle.bip_forks.specs.Sides.{IsNextNeighbour};
ghost use Rattle.bip_forks.specs.Stations.{AsksNothing, CanTakeFork, CanTakeToken, HasFirst};
ghost use Rattle.bip_forks.specs.Stations.{IsNotServed, IsUnserved, KeepsFork};
ghost use Rattle.bip_forks.specs.Stations.{IsReadyToServe, IsServedHere, MayAsk};
ghost use Rattle.bip_forks.specs.Stations.{MayPass, other_of, pair_of_stations, raised_by};
ghost use Rattle.bip_forks.specs.Stations.{rows_here, rows_in, side_with, with_fork, with_side_to};

use crate::exchanges::Exchange;
use crate::shares::{AskToken, Fork, other_of, pair_of_stations};
use crate::sides::Sides;
use bip_bank::{Queue, StationId, WhyIdle};
use bip_model::{InterId, Request};
use bip_table::{Decision, Row, Table, TableFault};
use std::alloc::{AllocError, Global};
use std::marker;

/// A station of the fork machine: it decides for its interaction by a table of its own. Between its
/// decisions its table keeps no grants. Contracts see what is kept (docs/PROTOCOL.md, "Dining
/// philosophers").
#[derive(Drop)]
pub struct Station {
    alloc: Global,
    number: StationId,
    inter: InterId,
    table: Table,
    waiting: Queue<Request>,
    sides: Sides,
}

impl marker::Model for Station {
    ghost use Rattle.std.specs.Prelude.{◌≡◌, []};
    ghost use Rattle.bip_forks.specs.Stations.{KeptStation};

    ghost Value = { KeptStation };

    ghost view = { λ s. record {
      number = s.number;
      inter = s.inter;
      table = s.table;
      waiting = s.waiting;
      sides = s.sides;
    } };

    ghost invariant = { λ s. s.table.journal ≡ [] };
}

impl Station {
    /// The station of this number and interaction, with a table without grants, no open request,
    /// and this of what it shares.
    pub(crate) fn of_parts(
        alloc: Global,
        number: StationId,
        inter: InterId,
        table: Table,
        sides: Sides,
    ) -> Station
        requires { table.journal ≡ [] }
        ensures { result ≡ record {
          number = number;
          inter = inter;
          table = table;
          waiting = [];
          sides = sides;
        } }
    {
        Station {
            alloc,
            number,
            inter,
            table,
            waiting: Queue::new(alloc),
            sides,
        }
    }

    /// The interaction that it decides for.
    pub fn inter(&self) -> InterId
        ensures { result ≡ self.now.inter }
    {
        self.inter
    }

    /// Makes a request the newest open one of the station. Without memory it comes back, and all
    /// stays as it was.
    pub fn submit(&mut self, request: Request) -> Result<(), (Request, AllocError)>
        ensures ok { OnOk result (self.new
            ≡ record self.old { waiting = self.old.waiting ++ request ∷ [] }) }
        ensures err { OnErr result (self.new ≡ self.old) }
        ensures back { IfErr result (λ refused. refused.0 ≡ request) }
    {
        match self.waiting.put_last(request) {
            Ok(()) => Ok(()),
            Err(refused) => Err((refused.value, AllocError)),
        }
    }

    /// Whether the station may ask another one for the fork that they share: it has an open
    /// request, the request token, and not the fork.
    pub fn may_ask(&self, other: StationId) -> bool
        ensures { IsTrue result ↔ (HasFirst self.now.waiting
            × MayAsk (side_with self.now other.0)) }
    {
        match self.sides.get(other) {
            Some(side) => is_waiting(&self.waiting) && side.may_ask(),
            None => false,
        }
    }

    /// Whether the station may send the fork that it shares with another one: it has the request
    /// token, and the fork, dirty.
    pub fn may_pass(&self, other: StationId) -> bool
        ensures { IsTrue result ↔ MayPass (side_with self.now other.0) }
    {
        match self.sides.get(other) {
            Some(side) => side.may_pass(),
            None => false,
        }
    }

    /// Why the station doesn't ask another one for the fork that they share, where it may not.
    pub fn why_unasked(&self, other: StationId) -> Option<WhyIdle>
        ensures some { IfSome result (AsksNothing self.now other.0) }
        ensures none { IfNone result (HasFirst self.now.waiting
            × MayAsk (side_with self.now other.0)) }
    {
        if !is_waiting(&self.waiting) {
            return Some(WhyIdle::NothingOpen);
        }
        match self.sides.get(other) {
            Some(side) => side.why_unasked(),
            None => Some(WhyIdle::NoFork),
        }
    }

    /// Why the station doesn't send the fork that it shares with another one, where it may not.
    pub fn why_kept(&self, other: StationId) -> Option<WhyIdle>
        ensures some { IfSome result (KeepsFork (side_with self.now other.0)) }
        ensures none { IfNone result (MayPass (side_with self.now other.0)) }
    {
        match self.sides.get(other) {
            Some(side) => side.why_kept(),
            None => Some(WhyIdle::NoFork),
        }
    }

    /// The next station from a number on to which this one may send the fork that they share; where
    /// there is none, how many stations there are, or that number where it is no lower. It sends
    /// none to those between. It looks only at stations with which it shares a fork.
    pub fn next_pass(&self, from: usize) -> usize
        ensures { IsNextNeighbour
            (λ (t : ℕ). (why : WhyIdle) × KeepsFork (side_with self.now t) why)
            (λ (t : ℕ). MayPass (side_with self.now t)) (length self.now.sides) from result }
    {
        self.sides.next_neighbour(Exchange::Pass, from)
    }

    /// The next station from a number on that this one may ask for the fork that they share; where
    /// there is none, how many stations there are, or that number where it is no lower. It asks
    /// none of those between. It looks only at stations with which it shares a fork.
    pub fn next_ask(&self, from: usize) -> usize
        ensures { IsNextNeighbour (λ (t : ℕ). (why : WhyIdle) × AsksNothing self.now t why)
            (λ (t : ℕ). HasFirst self.now.waiting × MayAsk (side_with self.now t))
            (length self.now.sides) from result }
    {
        if is_waiting(&self.waiting) {
            self.sides.next_neighbour(Exchange::Ask, from)
        } else {
            from.max(self.sides.len())
        }
    }

    /// Why the station can't serve, where it can't.
    pub fn why_unserved(&self) -> Option<WhyIdle>
        ensures some { IfSome result (IsUnserved self.now) }
        ensures none { IfNone result (IsReadyToServe self.now) }
    {
        if !is_waiting(&self.waiting) {
            return Some(WhyIdle::NothingOpen);
        }
        if !self.sides.has_all() {
            return Some(WhyIdle::Lacking);
        }
        None
    }

    /// The request token of the fork shared with another station, where this one may ask for it.
    pub fn ask(&mut self, other: StationId) -> Option<AskToken>
        ensures some { IfSome result (λ token. (HasFirst self.old.waiting
            × MayAsk (side_with self.old other.0))
            × (token.pair ≡ pair_of_stations self.old.number other)
            × (self.new ≡ with_side_to self.old other.0
            (record (side_with self.old other.0) { asked = false }))) }
        ensures none { IfNone result ((self.new ≡ self.old)
            × ¬ (HasFirst self.old.waiting × MayAsk (side_with self.old other.0))) }
    {
        if !is_waiting(&self.waiting) || !self.sides.ask(other) {
            return None;
        }
        Some(AskToken {
            pair: pair_of_stations(self.number, other),
        })
    }

    /// The fork shared with another station, where this one may send it.
    pub fn pass(&mut self, other: StationId) -> Option<Fork>
        ensures some { IfSome result (λ fork. MayPass (side_with self.old other.0)
            × ((side_with self.old other.0).fork ≡ Some fork)
            × (self.new ≡ with_side_to self.old other.0
            (record (side_with self.old other.0) { fork = None }))) }
        ensures none { IfNone result ((self.new ≡ self.old)
            × ¬ MayPass (side_with self.old other.0)) }
    {
        self.sides.pass(other)
    }

    /// Takes a request token. One that isn't of a fork that this station shares, or is there
    /// already, comes back, and all stays as it was.
    pub fn take_ask(&mut self, token: AskToken) -> Result<(), AskToken>
        ensures ok { OnOk result ((other : StationId)
            × (other_of token.pair self.old.number ≡ Some other) × CanTakeToken self.old other
            × (self.new ≡ with_side_to self.old other.0
            (record (side_with self.old other.0) { asked = true }))) }
        ensures err { OnErr result (self.new ≡ self.old) }
        ensures back { IfErr result (λ refused. (refused ≡ token) × ((other : StationId)
            → other_of token.pair self.old.number ≡ Some other → ¬ CanTakeToken self.old other)) }
    {
        let Some(other) = other_of(token.pair, self.number) else {
            return Err(token);
        };
        if !self.sides.take_ask(other) {
            return Err(token);
        }
        Ok(())
    }

    /// Takes a fork, which is clean then. One of another pair, or that is there already, comes
    /// back, and all stays as it was.
    pub fn take_fork(&mut self, fork: Fork) -> Result<(), Fork>
        ensures ok { OnOk result ((other : StationId)
            × (other_of fork.pair self.old.number ≡ Some other) × CanTakeFork self.old other
            × (self.new ≡ with_fork self.old other.0 fork true)) }
        ensures err { OnErr result (self.new ≡ self.old) }
        ensures back { IfErr result (λ refused. (refused ≡ fork) × ((other : StationId)
            → other_of fork.pair self.old.number ≡ Some other → ¬ CanTakeFork self.old other)) }
    {
        self.lay(fork, true)
    }

    /// Lays a fork that wasn't sent back: it is dirty again. One of another pair, or that is there
    /// already, comes back, and all stays as it was.
    pub fn back(&mut self, fork: Fork) -> Result<(), Fork>
        ensures ok { OnOk result ((other : StationId)
            × (other_of fork.pair self.old.number ≡ Some other) × CanTakeFork self.old other
            × (self.new ≡ with_fork self.old other.0 fork false)) }
        ensures err { OnErr result (self.new ≡ self.old) }
        ensures back { IfErr result (λ refused. (refused ≡ fork) × ((other : StationId)
            → other_of fork.pair self.old.number ≡ Some other → ¬ CanTakeFork self.old other)) }
    {
        self.lay(fork, false)
    }

    /// Lays a fork, clean or dirty, where it can be taken.
    fn lay(&mut self, fork: Fork, clean: bool) -> Result<(), Fork>
        ensures ok { OnOk result ((other : StationId)
            × (other_of fork.pair self.old.number ≡ Some other) × CanTakeFork self.old other
            × (self.new ≡ with_fork self.old other.0 fork clean)) }
        ensures err { OnErr result (self.new ≡ self.old) }
        ensures back { IfErr result (λ refused. (refused ≡ fork) × ((other : StationId)
            → other_of fork.pair self.old.number ≡ Some other → ¬ CanTakeFork self.old other)) }
    {
        let Some(other) = other_of(fork.pair, self.number) else {
            return Err(fork);
        };
        self.sides.lay(other, fork, clean)
    }

    /// Whether the station can serve: it has all its forks, and an open request.
    pub fn is_ready(&self) -> bool
        ensures { IsTrue result ↔ IsReadyToServe self.now }
    {
        is_waiting(&self.waiting) && self.sides.has_all()
    }

    /// Decides on the oldest open request, where the station has all its forks: by its rows raised
    /// to its forks' numbers. Then its used numbers are written into its forks, and all of them are
    /// dirty. Without memory all stays as it was.
    pub fn serve(&mut self) -> Result<Option<(Request, Decision)>, AllocError>
        ensures served { IfOk result (λ answer. IfSome answer (λ a.
            IsServedHere self.old a.0 a.1 self.new)) }
        ensures none { IfOk result (λ answer. IfNone answer (IsNotServed self.old self.new)) }
        ensures ready { IfErr result (λ e. IsReadyToServe self.old) }
        ensures err { OnErr result (self.new ≡ self.old) }
    {
        if !self.is_ready() {
            return Ok(None);
        }
        let Some(request) = self.waiting.first() else {
            return Ok(None);
        };
        self.table.reserve_room(1)?;
        raise_all(&mut self.table, &self.sides);
        let decision = match self.table.decide(request) {
            Ok(decision) => decision,
            Err(TableFault::Memory) => unreachable!(),
            Err(TableFault::Ended) => return Ok(None),
            Err(TableFault::UnknownRow(_)) => return Ok(None),
            Err(TableFault::NotKept) => unreachable!(),
        };
        let mut granted = self.table.cut(Vec::new(self.alloc));
        granted.clear();
        let _none = self.table.cut(granted);
        self.sides.write_all(self.table.rows());
        match self.waiting.take_first() {
            Some(request) => Ok(Some((request, decision))),
            None => unreachable!(),
        }
    }
}

/// Whether there is an open request.
fn is_waiting(waiting: &Queue<Request>) -> bool
    ensures { IsTrue result ↔ HasFirst waiting.now }
{
    match waiting.first() {
        Some(_) => true,
        None => false,
    }
}

/// Raises the rows of a table to the numbers of all forks that lie here.
fn raise_all(table: &mut Table, sides: &Sides)
    requires { table.old.journal ≡ [] }
    ensures used { used_at table.new.rows
        ≡ raised_by (rows_here sides.now) (has_row table.old.rows) (used_at table.old.rows) }
    ensures tabled { has_row table.new.rows ≡ has_row table.old.rows }
    ensures journal { table.new.journal ≡ [] }
    ensures serial { table.new.serial ≡ table.old.serial }
    ensures room { table.new.room ≡ table.old.room }
{
    let listed = sides.listed();
    for shared in listed {
        raise_by(table, &shared.side.fork);
    }
}

/// Raises the rows of a table to the numbers of a fork, if it lies here.
fn raise_by(table: &mut Table, fork: &Option<Fork>)
    requires { table.old.journal ≡ [] }
    ensures used { used_at table.new.rows
        ≡ raised_by (rows_in fork.now) (has_row table.old.rows) (used_at table.old.rows) }
    ensures tabled { has_row table.new.rows ≡ has_row table.old.rows }
    ensures journal { table.new.journal ≡ [] }
    ensures serial { table.new.serial ≡ table.old.serial }
    ensures room { table.new.room ≡ table.old.room }
{
    match fork {
        Some(fork) => raise_to(table, fork.rows.as_slice()),
        None => {}
    }
}

/// Raises the rows of a table to those of the same components.
fn raise_to(table: &mut Table, rows: &[Row])
    requires { table.old.journal ≡ [] }
    ensures used { used_at table.new.rows
        ≡ raised_by rows.now (has_row table.old.rows) (used_at table.old.rows) }
    ensures tabled { has_row table.new.rows ≡ has_row table.old.rows }
    ensures journal { table.new.journal ≡ [] }
    ensures serial { table.new.serial ≡ table.old.serial }
    ensures room { table.new.room ≡ table.old.room }
{
    for row in rows {
        table.raise(row.comp, row.used);
    }
}
