//! What two stations share: a fork, and its request token.
ghost use Rattle.std.specs.Prelude.{◌≡◌, ◌↔◌, IfErr, IfSome, IfNone, IsTrue, None, OnOk, Some, map};
ghost use Rattle.std.specs.Prelude.{false, true};
ghost use Rattle.bip_table.specs.Rows.{used_at};
ghost use Rattle.bip_forks.specs.Sides.{LacksFork, LacksToken};
ghost use Rattle.bip_forks.specs.Stations.{KeepsFork, KeepsRequestToken, LiesHere};
ghost use Rattle.bip_forks.specs.Stations.{MayAsk, MayPass};
ghost use Rattle.bip_forks.specs.Stations.{other_of};
ghost use Rattle.bip_forks.specs.Stations.{pair_of_stations, renumbered};
ghost use Rattle.bip_forks.specs.Stations.{rewritten};

use bip_bank::{StationId, WhyIdle};
use bip_model::{Number, Seq};
use bip_table::Row;

/// Two stations that share a fork, the lower and the higher.
#[derive(Clone, Copy, Debug, PartialEq, Eq)]
pub struct Neighbours {
    pub(crate) low: StationId,
    pub(crate) high: StationId,
}

/// The request token of a fork. Only a station makes one.
#[derive(Drop)]
pub struct AskToken {
    pub(crate) pair: Neighbours,
}

impl AskToken {
    /// The stations that share its fork.
    pub fn pair(&self) -> Neighbours
        ensures { result ≡ self.now.pair }
    {
        self.pair
    }
}

/// A fork: its two stations, and the number of each component that both touch. Only a station makes
/// one.
#[derive(Drop)]
pub struct Fork {
    pub(crate) pair: Neighbours,
    pub(crate) rows: Seq<Row>,
}

impl Fork {
    /// The stations that share it.
    pub fn pair(&self) -> Neighbours
        ensures { result ≡ self.now.pair }
    {
        self.pair
    }
}

/// What a station has of what it shares with another one: whether they share anything; the fork,
/// if it lies here, and whether it is clean; and whether its request token is here.
#[derive(Drop)]
pub struct Side {
    pub(crate) shared: bool,
    pub(crate) fork: Option<Fork>,
    pub(crate) clean: bool,
    pub(crate) asked: bool,
}

/// The pair of two stations.
pub(crate) fn pair_of_stations(one: StationId, other: StationId) -> Neighbours
    ensures { result ≡ pair_of_stations one other }
{
    if one.0 < other.0 {
        Neighbours {
            low: one,
            high: other,
        }
    } else {
        Neighbours {
            low: other,
            high: one,
        }
    }
}

/// The other station of a pair that has this one.
pub fn other_of(pair: Neighbours, station: StationId) -> Option<StationId>
    ensures { result ≡ other_of pair station }
{
    if pair.low.0 == station.0 {
        return Some(pair.high);
    }
    if pair.high.0 == station.0 {
        return Some(pair.low);
    }
    None
}

impl Side {
    /// Whether the fork lies here, where one is shared.
    pub(crate) fn lies(&self) -> bool
        ensures { IsTrue result ↔ LiesHere self.now }
    {
        !self.shared || self.fork.is_some()
    }

    /// Whether the request token can go: it is here, and not the fork.
    pub fn may_ask(&self) -> bool
        ensures { IsTrue result ↔ MayAsk self.now }
    {
        self.asked && self.fork.is_none()
    }

    /// Whether the fork can go: the request token is here, and the fork, dirty.
    pub fn may_pass(&self) -> bool
        ensures { IsTrue result ↔ MayPass self.now }
    {
        self.asked && !self.clean && self.fork.is_some()
    }

    /// Why the fork can't go, where it can't.
    pub fn why_kept(&self) -> Option<WhyIdle>
        ensures some { IfSome result (KeepsFork self.now) }
        ensures none { IfNone result (MayPass self.now) }
    {
        if !self.shared {
            return Some(WhyIdle::NoFork);
        }
        if self.fork.is_none() {
            return Some(WhyIdle::ForkElsewhere);
        }
        if self.clean {
            return Some(WhyIdle::ForkClean);
        }
        if !self.asked {
            return Some(WhyIdle::NotAskedFor);
        }
        None
    }

    /// Why the request token can't go, where it can't.
    pub fn why_unasked(&self) -> Option<WhyIdle>
        ensures some { IfSome result (KeepsRequestToken self.now) }
        ensures none { IfNone result (MayAsk self.now) }
    {
        if !self.shared {
            return Some(WhyIdle::NoFork);
        }
        if self.fork.is_some() {
            return Some(WhyIdle::ForkHere);
        }
        if !self.asked {
            return Some(WhyIdle::NoRequestToken);
        }
        None
    }

    /// Lets the request token go, where it can.
    pub(crate) fn ask(&mut self) -> bool
        ensures went { IsTrue result → MayAsk self.old
            × (self.new ≡ record self.old { asked = false }) }
        ensures stays { result ≡ false → (self.new ≡ self.old) × ¬ MayAsk self.old }
    {
        if !self.may_ask() {
            return false;
        }
        self.asked = false;
        true
    }

    /// Takes the request token, where the fork is shared and its token isn't here.
    pub(crate) fn take_ask(&mut self) -> bool
        ensures taken { IsTrue result → LacksToken self.old
            × (self.new ≡ record self.old { asked = true }) }
        ensures stays { result ≡ false → (self.new ≡ self.old) × ¬ LacksToken self.old }
    {
        if !self.shared || self.asked {
            return false;
        }
        self.asked = true;
        true
    }

    /// Lays the fork, clean or dirty, where it is shared and isn't here. Else it comes back, and
    /// all stays as it was.
    pub(crate) fn lay(&mut self, fork: Fork, clean: bool) -> Result<(), Fork>
        ensures ok { OnOk result (LacksFork self.old
            × (self.new ≡ record self.old { fork = Some fork; clean = clean })) }
        ensures err { IfErr result (λ refused. (refused ≡ fork) × (self.new ≡ self.old)
            × ¬ LacksFork self.old) }
    {
        if !self.shared || self.fork.is_some() {
            return Err(fork);
        }
        self.fork = Some(fork);
        self.clean = clean;
        Ok(())
    }

    /// Lets the fork go, where it can.
    pub fn pass(&mut self) -> Option<Fork>
        ensures some { IfSome result (λ fork. MayPass self.old × (self.old.fork ≡ Some fork)
            × (self.new ≡ record self.old { fork = None })) }
        ensures none { IfNone result ((self.new ≡ self.old) × ¬ MayPass self.old) }
    {
        if !self.may_pass() {
            return None;
        }
        self.fork.take()
    }

    /// Writes the numbers of a table's rows into the fork, if it lies here, which is dirty then.
    pub fn write(&mut self, rows: &[Row])
        ensures { self.new ≡ rewritten rows.now self.old }
    {
        self.clean = false;
        if let Some(fork) = &mut self.fork {
            write_rows(&mut fork.rows, rows);
        }
    }
}

/// The number of a component among rows; 0 without such a row.
fn number_in(rows: &[Row], comp: u16) -> Number
    ensures { result ≡ used_at rows.now comp }
{
    for row in rows {
        if row.comp.0 == comp {
            return row.used;
        }
    }
    0
}

/// Writes the numbers of a table's rows into those of a fork.
fn write_rows(fork: &mut Seq<Row>, rows: &[Row])
    ensures { fork.new ≡ map (renumbered rows.now) fork.old }
{
    for place in 0..fork.len() {
        let comp = fork.as_slice()[place].comp;
        let used = number_in(rows, comp.0);
        fork.set(place, Row { used, comp });
    }
}
