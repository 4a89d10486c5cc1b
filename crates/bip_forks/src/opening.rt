//! How forks begin: each station at first, and what it shares.
ghost use Rattle.std.specs.Prelude.{◌≡◌, ◌↔◌, ◌<◌, ◌≤◌, ℕ, All, IfNone, IfOk, IfSome, IsTrue};
ghost use Rattle.std.specs.Prelude.{length};
ghost use Rattle.std.specs.Prelude.{slice_index_or, true};
ghost use Rattle.bip_model.specs.Numbering.{last_number};
ghost use Rattle.bip_model.specs.declared.numbering.CompId.{CompId};
ghost use Rattle.bip_model.specs.declared.numbering.InterId.{InterId};
ghost use Rattle.bip_forks.specs.Opening.{AreFirstSides, AreFirstStations, BothTouch, IsCommon};
ghost use Rattle.bip_forks.specs.Opening.{IsFirstSide, IsFirstStation, IsNewStation, LacksStation};
ghost use Rattle.bip_forks.specs.Opening.{SharedByPlan};

use crate::shares::{Fork, Side, pair_of_stations};
use crate::sides::Sides;
use crate::stations::Station;
use bip_bank::{StationId, interaction_at, numbered};
use bip_model::{CompId, InterId, Number, Seq};
use bip_partition::Plan;
use bip_table::{Row, Table};
use std::alloc::{AllocError, Global};

impl Station {
    /// The station of a plan with this number at first, if the plan has it: no request is open, its
    /// table has the base for each component that its interaction touches, and it shares what a
    /// station of new forks does (docs/PROTOCOL.md, "Dining philosophers").
    pub fn new(
        alloc: Global,
        plan: &Plan,
        number: StationId,
        base: Number,
    ) -> Result<Option<Station>, AllocError>
        requires { base < last_number }
        ensures some { IfOk result (λ made. IfSome made (IsNewStation plan.now base number.0)) }
        ensures none { IfOk result (λ made. IfNone made (LacksStation plan.now number.0)) }
    {
        plan.recall();
        let inters = plan.stations();
        match interaction_at(inters, number) {
            Some(inter) => {
                let station = first_station(alloc, plan, inters, number, inter, base)?;
                Ok(Some(station))
            }
            None => Ok(None),
        }
    }
}

/// The stations of a plan at first, in order.
pub(crate) fn first_stations(
    alloc: Global,
    plan: &Plan,
    inters: &[InterId],
    base: Number,
) -> Result<Vec<Station>, AllocError>
    requires known { All (λ (a : InterId). a.0 < length plan.now.model.interactions) inters.now }
    requires few { length inters.now ≤ 128 }
    ensures { IfOk result (λ stations.
        AreFirstStations plan.now base inters.now (length inters.now) stations.items) }
{
    let mut stations = Vec::new(alloc);
    for place in 0..inters.len() {
        let number = StationId(place as u16);
        stations.push(first_station(alloc, plan, inters, number, inters[place], base)?)?;
    }
    Ok(stations)
}

/// A station at first: a row of each component that its interaction touches, with the base for its
/// number, and what it shares with each station.
fn first_station(
    alloc: Global,
    plan: &Plan,
    inters: &[InterId],
    number: StationId,
    inter: InterId,
    base: Number,
) -> Result<Station, AllocError>
    requires known { All (λ (a : InterId). a.0 < length plan.now.model.interactions) inters.now }
    requires few { length inters.now ≤ 128 }
    requires here { inter.0 < length plan.now.model.interactions }
    ensures { IfOk result (IsFirstStation plan.now base inters.now number.0 inter) }
{
    let entries = numbered(alloc, plan.touches(inter), base)?;
    let table = Table::new(alloc, &entries, 0)?;
    let sides = first_sides(alloc, plan, inters, number, inter, base)?;
    Ok(Station::of_parts(alloc, number, inter, table, sides))
}

/// What a station has at first of what it shares with each station, in order.
fn first_sides(
    alloc: Global,
    plan: &Plan,
    inters: &[InterId],
    number: StationId,
    inter: InterId,
    base: Number,
) -> Result<Sides, AllocError>
    requires known { All (λ (a : InterId). a.0 < length plan.now.model.interactions) inters.now }
    requires few { length inters.now ≤ 128 }
    requires here { inter.0 < length plan.now.model.interactions }
    ensures { IfOk result (λ sides. AreFirstSides plan.now base inters.now number.0 inter
        (length inters.now) sides) }
{
    let mut sides = Sides::new(alloc);
    for place in 0..inters.len() {
        let other = StationId(place as u16);
        if share(plan, number, inter, other, inters[place]) {
            sides.push(first_side(alloc, plan, number, inter, other, inters[place], base)?)?;
        } else {
            sides.push_nothing();
        }
    }
    Ok(sides)
}

/// Whether two stations share a fork, by their interactions.
fn share(
    plan: &Plan,
    number: StationId,
    inter: InterId,
    other: StationId,
    other_inter: InterId,
) -> bool
    ensures { IsTrue result ↔ SharedByPlan plan.now number.0 inter.0 other.0 other_inter.0 }
{
    number.0 != other.0 && plan.conflict(inter, other_inter)
}

/// What a station has at first of what it shares with another one, where their interactions are in
/// conflict: the fork, dirty, with the base for numbers, if the other one is higher; else its
/// request token.
fn first_side(
    alloc: Global,
    plan: &Plan,
    number: StationId,
    inter: InterId,
    other: StationId,
    other_inter: InterId,
    base: Number,
) -> Result<Side, AllocError>
    requires one { inter.0 < length plan.now.model.interactions }
    requires other { other_inter.0 < length plan.now.model.interactions }
    requires shared { SharedByPlan plan.now number.0 inter.0 other.0 other_inter.0 }
    ensures side { IfOk result (IsFirstSide plan.now base number.0 inter.0 other.0 other_inter.0) }
    ensures shared { IfOk result (λ side. side.shared ≡ true) }
{
    let fork = if number.0 < other.0 {
        Some(Fork {
            pair: pair_of_stations(number, other),
            rows: common_rows(alloc, plan, inter, other_inter, base)?,
        })
    } else {
        None
    };
    Ok(Side {
        shared: true,
        fork,
        clean: false,
        asked: other.0 < number.0,
    })
}

/// A row of each component that two interactions both touch, with a number.
fn common_rows(
    alloc: Global,
    plan: &Plan,
    inter: InterId,
    other: InterId,
    base: Number,
) -> Result<Seq<Row>, AllocError>
    requires one { inter.0 < length plan.now.model.interactions }
    requires other { other.0 < length plan.now.model.interactions }
    ensures { IfOk result (IsCommon (BothTouch plan.now inter.0 other.0) base) }
{
    let (own, others) = (plan.touches(inter), plan.touches(other));
    let mut rows = Seq::of(Vec::new(alloc));
    // what of the others is lower than all that is left of its own
    let mut passed = 0;
    for comp in own {
        passed = first_not_lower(others, passed, *comp);
        if stands_at(others, passed, *comp) {
            rows.push(Row {
                used: base,
                comp: *comp,
            })?;
        }
    }
    Ok(rows)
}

/// The first place, from one on, at which no lower component than this one stands; behind all where
/// there is none.
fn first_not_lower(comps: &[CompId], from: usize, comp: CompId) -> usize
    ensures onward { from ≤ result }
    ensures lower { (k : ℕ) → from ≤ k → k < result → k < length comps.now
        → (slice_index_or comps.now k (record { 0 = 0 })).0 < comp.0 }
    ensures reached { result < length comps.now
        → comp.0 ≤ (slice_index_or comps.now result (record { 0 = 0 })).0 }
{
    for place in from..comps.len() {
        if comps[place].0 >= comp.0 {
            return place;
        }
    }
    from.max(comps.len())
}

/// Whether a component stands at a place.
fn stands_at(comps: &[CompId], place: usize, comp: CompId) -> bool
    ensures { IsTrue result ↔ ((place < length comps.now)
        × ((slice_index_or comps.now place (record { 0 = 0 })).0 ≡ comp.0)) }
{
    place < comps.len() && comps[place].0 == comp.0
}
