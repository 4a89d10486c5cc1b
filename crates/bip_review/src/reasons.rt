//! Why a component has a row in the table, through which one an interaction is reserved, and for
//! whose sake it looks at another one.
ghost use Rattle.std.specs.Prelude.{◌≡◌, ◌<◌, ◌↔◌, ℕ, IfNone, IfSome, IsTrue, find, length};
ghost use Rattle.bip_model.specs.Numbering.{IsLowest};
ghost use Rattle.bip_model.specs.Steps.{IsLookedAt, moves};
ghost use Rattle.bip_model.specs.declared.numbering.InterId.{InterId};
ghost use Rattle.bip_partition.specs.Plans.{IsReserved, IsTabled, Touches};
ghost use Rattle.bip_review.specs.Reasons.{IsRowReason, IsSeen, IsShared, Joins, MovesFromAbove};
ghost use Rattle.bip_review.specs.Reasons.{ReservesThrough, StandsBeside};

use bip_model::{CompId, InterId, Model};
use bip_partition::Plan;

/// Why a component has a row in the table (docs/REVIEW.md, "Components").
#[derive(Clone, Copy, Debug, PartialEq, Eq)]
pub enum RowReason {
    /// This interaction looks at it.
    LookedAt(InterId),
    /// Two classes touch it.
    Shared,
    /// This interaction touches it beside this other component, which has a row.
    Beside(InterId, CompId),
}

/// The first reason for which a component has a row, with the lowest numbers; none where it has no
/// row (docs/REVIEW.md, "Components").
pub fn row_reason(plan: &Plan, comp: CompId) -> Option<RowReason>
    ensures some { IfSome result (IsRowReason plan.now comp.0) }
    ensures none { IfNone result (¬ IsTabled plan.now comp.0) }
{
    plan.recall();
    if !plan.tabled(comp) {
        return None;
    }
    if let Some(inter) = first_looking(plan, comp) {
        return Some(RowReason::LookedAt(inter));
    }
    if is_shared(plan, comp) {
        return Some(RowReason::Shared);
    }
    let (inter, other) = first_joining(plan, comp)?;
    Some(RowReason::Beside(inter, other))
}

/// The component through which an interaction is reserved: the lowest with a row that it touches;
/// none where it is local (docs/REVIEW.md, "Interactions").
pub fn reserving(plan: &Plan, inter: InterId) -> Option<CompId>
    ensures some { IfSome result (λ c. IsLowest (ReservesThrough plan.now inter.0) c.0) }
    ensures none { IfNone result (¬ IsReserved plan.now inter.0) }
{
    for number in 0..plan.model().components().len() {
        let comp = CompId(number as u16);
        if reserves_through(plan, inter, comp) {
            return Some(comp);
        }
    }
    None
}

/// The interaction for whose sake another one looks at a component: the lowest of those above it
/// that move it; none where none of them does (docs/REVIEW.md, "Interactions").
pub fn cause_of_look(plan: &Plan, inter: InterId, comp: CompId) -> Option<InterId>
    requires { inter.0 < length plan.now.model.interactions }
    ensures some { IfSome result
        (λ b. IsLowest (MovesFromAbove plan.now.model inter.0 comp.0) b.0) }
    ensures none { IfNone result ((b : ℕ) → ¬ MovesFromAbove plan.now.model inter.0 comp.0 b) }
{
    let model = plan.model();
    first_moving(model, model.above(inter), comp)
}

/// The first of some interactions that moves a component.
fn first_moving(model: &Model, inters: &[InterId], comp: CompId) -> Option<InterId>
    ensures { result ≡ find (λ (b : InterId). moves model.now b.0 comp.0) inters.now }
{
    inters
        .iter()
        .copied()
        .find(|inter| model.moves(*inter, comp))
}

fn touches(plan: &Plan, inter: InterId, comp: CompId) -> bool
    ensures { IsTrue result ↔ Touches plan.now.model inter.0 comp.0 }
{
    plan.model().moves(inter, comp) || plan.model().is_looked_at(inter, comp)
}

fn reserves_through(plan: &Plan, inter: InterId, comp: CompId) -> bool
    ensures { IsTrue result ↔ ReservesThrough plan.now inter.0 comp.0 }
{
    touches(plan, inter, comp) && plan.tabled(comp)
}

/// The lowest interaction that looks at a component.
fn first_looking(plan: &Plan, comp: CompId) -> Option<InterId>
    ensures some { IfSome result (λ a. IsLowest (λ b. IsLookedAt plan.now.model b comp.0) a.0) }
    ensures none { IfNone result (¬ IsSeen plan.now.model comp.0) }
{
    for number in 0..plan.model().interactions().len() {
        let inter = InterId(number as u16);
        if plan.model().is_looked_at(inter, comp) {
            return Some(inter);
        }
    }
    None
}

fn is_shared(plan: &Plan, comp: CompId) -> bool
    requires { comp.0 < length plan.now.model.components }
    ensures { IsTrue result ↔ IsShared plan.now comp.0 }
{
    1 < plan.classes_of(comp).len()
}

/// The lowest interaction that touches a component beside one with a row, and the lowest such one.
fn first_joining(plan: &Plan, comp: CompId) -> Option<(InterId, CompId)>
    ensures inter { IfSome result (λ found. IsLowest (Joins plan.now comp.0) found.0.0) }
    ensures beside { IfSome result
        (λ found. IsLowest (StandsBeside plan.now comp.0 found.0.0) found.1.0) }
    ensures none { IfNone result ((a : ℕ) → ¬ Joins plan.now comp.0 a) }
{
    for number in 0..plan.model().interactions().len() {
        let inter = InterId(number as u16);
        if let Some(other) = first_beside(plan, comp, inter) {
            return Some((inter, other));
        }
    }
    None
}

/// The lowest component with a row beside which an interaction touches another one.
fn first_beside(plan: &Plan, comp: CompId, inter: InterId) -> Option<CompId>
    ensures some { IfSome result (λ d. IsLowest (StandsBeside plan.now comp.0 inter.0) d.0) }
    ensures none { IfNone result (¬ Joins plan.now comp.0 inter.0) }
{
    for number in 0..plan.model().components().len() {
        let other = CompId(number as u16);
        if stands_beside(plan, comp, inter, other) {
            return Some(other);
        }
    }
    None
}

fn stands_beside(plan: &Plan, comp: CompId, inter: InterId, other: CompId) -> bool
    ensures { IsTrue result ↔ StandsBeside plan.now comp.0 inter.0 other.0 }
{
    if other == comp || !plan.tabled(other) {
        return false;
    }
    touches(plan, inter, comp) && touches(plan, inter, other)
}
