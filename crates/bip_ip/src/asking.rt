//! What a class asks for, and what it tells the components, by the offers that it holds.
ghost use Rattle.std.specs.Prelude.{◌≡◌, ◌<◌, ◌≤◌, All, length, map, zip};
ghost use Rattle.std.specs.List.{list_any};
ghost use Rattle.bip_model.specs.declared.reasons.Why.{Why};
ghost use Rattle.bip_observe.specs.Laws.{IsSound};
ghost use Rattle.bip_model.specs.Parties.{AreWantsBy};
ghost use Rattle.bip_observe.specs.Offers.{observed};
ghost use Rattle.bip_observe.specs.Verdicts.{AllCount, offers_of};
ghost use Rattle.bip_ip.specs.Asking.{is_wanted, names, notify_of, told_by, want_by};

use bip_model::{
    Cause, CompId, InterId, MOST_PARTICIPANTS, MOST_WANTS, Model, Notifies, Notify, Number, PortId,
    Reasons, Role, Values, Want, Wants,
};
use bip_observe::Offers;

/// What an interaction wants, by the offers that are held, with these reasons: of each component
/// that it moves, or that a reason names, the number of its offer.
pub(crate) fn wants_by(offers: &Offers<'_>, inter: InterId, reasons: &Reasons) -> Wants
    requires declared { inter.0 < length offers.now.plan.model.interactions }
    requires counted { AllCount (observed offers.now) inter.0 }
    requires sound { All (IsSound (observed offers.now) inter.0) reasons.now }
    ensures { AreWantsBy offers.now.plan.model (offers_of (observed offers.now)) inter.0
        reasons.now result }
{
    let plan = offers.plan();
    plan.recall();
    let touched = plan.touches(inter);
    let mut wants = [Want::default(); MOST_WANTS];
    let mut count = 0;
    for comp in touched {
        if is_wanted(plan.model(), inter, reasons, *comp) {
            wants[count] = want_by(offers, inter, *comp);
            count += 1;
        }
    }
    match Wants::of(&wants[..count]) {
        Some(wants) => wants,
        None => unreachable!(),
    }
}

/// Whether an interaction moves a component, or reasons name it.
fn is_wanted(model: &Model, inter: InterId, reasons: &Reasons, comp: CompId) -> bool
    ensures { result ≡ is_wanted model.now inter.0 reasons.now comp.0 }
{
    model.moves(inter, comp) || is_named(model, reasons, comp)
}

fn is_named(model: &Model, reasons: &Reasons, comp: CompId) -> bool
    ensures { result
        ≡ list_any (λ (y : Why). names model.now y.inter.0 y.cause comp.0) reasons.now }
{
    for place in 0..reasons.len() {
        if let Some(why) = reasons.get(place) {
            if names(model, why.inter, why.cause, comp) {
                return true;
            }
        }
    }
    false
}

/// Whether the cause of an interaction's reason names a component.
fn names(model: &Model, inter: InterId, cause: Cause, comp: CompId) -> bool
    ensures { result ≡ names model.now inter.0 cause comp.0 }
{
    match cause {
        Cause::Port(one) => one == comp,
        Cause::Guard => model.moves(inter, comp),
    }
}

fn want_by(offers: &Offers<'_>, inter: InterId, comp: CompId) -> Want
    ensures { result
        ≡ want_by offers.now.plan.model (offers_of (observed offers.now)) inter.0 comp }
{
    let role = if offers.plan().model().moves(inter, comp) {
        Role::Moved
    } else {
        Role::Seen
    };
    Want {
        number: number_of(offers, comp),
        comp,
        role,
    }
}

fn number_of(offers: &Offers<'_>, comp: CompId) -> Number
    ensures { result ≡ (offers_of (observed offers.now) comp.0).number }
{
    match offers.held(comp) {
        Some(offer) => offer.number,
        None => 0,
    }
}

/// What the participants of an interaction are told, by the offers that are held.
pub(crate) fn told_by(offers: &Offers<'_>, inter: InterId) -> Notifies
    requires declared { inter.0 < length offers.now.plan.model.interactions }
    requires counted { AllCount (observed offers.now) inter.0 }
    ensures { result ≡ told_by offers.now.plan.model (offers_of (observed offers.now)) inter.0 }
{
    let model = offers.plan().model();
    let participants = model.participants(inter);
    let mut values = offers.values_of(participants);
    model.transfer(inter, &mut values[..participants.len()]);
    tell(offers, participants, &values[..participants.len()])
}

/// Tells participants to move, each from its values.
fn tell(offers: &Offers<'_>, participants: &[(CompId, PortId)], values: &[Values]) -> Notifies
    requires some { 1 ≤ length participants.now }
    requires few { length participants.now ≤ MOST_PARTICIPANTS }
    requires each { length values.now ≡ length participants.now }
    ensures { result
        ≡ map (notify_of (offers_of (observed offers.now))) (zip participants.now values.now) }
{
    let mut told = [Notify::default(); MOST_PARTICIPANTS];
    for (place, participant) in participants.iter().enumerate() {
        told[place] = Notify {
            number: number_of(offers, participant.0),
            values: values[place],
            comp: participant.0,
            port: participant.1,
        };
    }
    match Notifies::of(&told[..participants.len()]) {
        Some(notifies) => notifies,
        None => unreachable!(),
    }
}
