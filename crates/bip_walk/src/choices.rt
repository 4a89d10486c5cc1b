//! Which interactions can be drawn where a run stands, and the grants of them that look at all that
//! they may.
ghost use Rattle.std.specs.Prelude.{◌≡◌, ◌↔◌, ◌<◌, IsTrue, length};
ghost use Rattle.std.specs.List.{list_all};
ghost use Rattle.bip_model.specs.Numbering.{last_number};
ghost use Rattle.bip_replay.specs.Runs.{standing_of};
ghost use Rattle.bip_walk.specs.Choices.{AreRenewed, CanBeDrawn, IsChanged, IsFullGrant};
ghost use Rattle.bip_walk.specs.Choices.{IsListChosen, is_unspent, want_next};

use arrayvec::ArrayVec;
use bip_model::{
    CompId, Grant, InterId, MOST_INTERACTIONS, MOST_WANTS, Model, Number, Role, Want, Wants,
};
use bip_partition::Plan;
use bip_replay::Position;

/// Whether each interaction can be drawn, by its number: false for numbers that the model lacks.
pub(crate) type Choices = [bool; MOST_INTERACTIONS];

/// Asks anew whether interactions can be drawn, each of which it may have changed that this one was
/// granted: those that are in conflict with it; all where none was.
pub(crate) fn renew(
    choices: &mut Choices,
    position: &Position<'_>,
    plan: &Plan,
    granted: Option<InterId>,
)
    requires { position.now.model ≡ plan.now.model }
    ensures { AreRenewed plan.now.model (standing_of position.now) granted
        (length plan.now.model.interactions) choices.old choices.new }
{
    for number in 0..plan.model().interactions().len() {
        let inter = InterId(number as u16);
        if is_changed(plan, granted, inter) {
            choices[number] = can_be_drawn(position, plan, inter);
        }
    }
}

/// Whether it may have changed that an interaction can be drawn.
fn is_changed(plan: &Plan, granted: Option<InterId>, inter: InterId) -> bool
    ensures { IsTrue result ↔ IsChanged plan.now.model granted inter.0 }
{
    match granted {
        Some(granted) => plan.conflict(granted, inter),
        None => true,
    }
}

/// The interactions that can be drawn, in order of their numbers: those that may run, each of whose
/// components has a next move (docs/DEFINITIONS.md, "Walks").
pub(crate) fn drawable(plan: &Plan, choices: &Choices) -> ArrayVec<InterId, MOST_INTERACTIONS>
    ensures { IsListChosen choices.now (length plan.now.model.interactions) result.items }
{
    let mut list = ArrayVec::new();
    for number in 0..plan.model().interactions().len() {
        if choices[number] {
            list.push(InterId(number as u16));
        }
    }
    list
}

/// Whether an interaction can be drawn (docs/DEFINITIONS.md, "Walks").
pub fn can_be_drawn(position: &Position<'_>, plan: &Plan, inter: InterId) -> bool
    requires model { position.now.model ≡ plan.now.model }
    requires declared { inter.0 < length plan.now.model.interactions }
    ensures { IsTrue result ↔ CanBeDrawn (standing_of position.now) inter.0 }
{
    position.allows(inter) && are_unspent(position, plan.touches(inter))
}

/// Whether each of these components has a next move.
fn are_unspent(position: &Position<'_>, comps: &[CompId]) -> bool
    ensures { result ≡ list_all (is_unspent (standing_of position.now).used) comps.now }
{
    comps.iter().all(|comp| position.used(*comp) < Number::MAX)
}

/// The grant of an interaction that can be drawn: it wants each of its parties, by the number of
/// its next move.
pub fn grant_of(position: &Position<'_>, plan: &Plan, inter: InterId) -> Grant
    requires model { position.now.model ≡ plan.now.model }
    requires can { CanBeDrawn (standing_of position.now) inter.0 }
    ensures { IsFullGrant (standing_of position.now) inter.0 result }
{
    plan.recall();
    let mut wants = ArrayVec::<Want, MOST_WANTS>::new();
    for comp in plan.touches(inter) {
        wants.push(want_next(position, plan.model(), inter, *comp));
    }
    match Wants::of(wants.as_slice()) {
        Some(wants) => Grant { inter, wants },
        None => unreachable!(),
    }
}

/// What an interaction wants of a component that has a next move.
fn want_next(position: &Position<'_>, model: &Model, inter: InterId, comp: CompId) -> Want
    requires model { position.now.model ≡ model.now }
    requires unspent { (standing_of position.now).used comp.0 < last_number }
    ensures { result ≡ want_next (standing_of position.now) inter.0 comp }
{
    let role = if model.moves(inter, comp) {
        Role::Moved
    } else {
        Role::Seen
    };
    Want {
        number: position.used(comp) + 1,
        comp,
        role,
    }
}
