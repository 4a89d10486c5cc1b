//! What keeps a grant from being next: a port that isn't offered, a guard, or what stands above.
ghost use Rattle.std.specs.Prelude.{◌≡◌, ◌≤◌, ◌<◌, ℕ, All, IfNone, IfOk, IfSome, Some};
ghost use Rattle.std.specs.Prelude.{false, length, map};
ghost use Rattle.std.specs.Prelude.{slice_get, true};
ghost use Rattle.std.specs.List.{list_all};
ghost use Rattle.std.specs.Option.{option_map};
ghost use Rattle.bip_explain.specs.Explanations.{with_parts};
ghost use Rattle.bip_explain.specs.Hindrances.{IsFirstFailed, IsHindered, IsHindrance, IsOfState};
ghost use Rattle.bip_explain.specs.Hindrances.{IsLedOn, IsPortReason, IsStateBefore, IsUnhindered};
ghost use Rattle.bip_explain.specs.Hindrances.{IsUnoffered, MayKeepStep, hindered_parts};
ghost use Rattle.bip_explain.specs.Hindrances.{IsUnofferedIn, failed_parts, hindrance_parts};
ghost use Rattle.bip_explain.specs.Hindrances.{above_parts, guard_parts, guarded_parts};
ghost use Rattle.bip_explain.specs.Hindrances.{local_parts, place_parts, places_parts};
ghost use Rattle.bip_explain.specs.Hindrances.{port_parts, relation_text, unoffered_parts};
ghost use Rattle.bip_explain.specs.Hindrances.{value_parts, values_parts};
ghost use Rattle.bip_model.specs.Components.{offers_at, transition_for};
ghost use Rattle.bip_model.specs.Expressions.{AreComparisonsIn, counts, holds, relates};
ghost use Rattle.bip_model.specs.Parts.{IsComponent, IsPortIn};
ghost use Rattle.bip_model.specs.States.{IsLocalStateOf, IsStateOf, state_of};
ghost use Rattle.bip_model.specs.Steps.{IsEnabled, offered, participants_of, values_at};
ghost use Rattle.bip_replay.specs.declared.faults.BookFault.TheVariants.{NotEnabled};

use crate::Explanation;
use crate::grants::{interaction_on, say_component, say_name};
use arrayvec::ArrayVec;
use bip_model::{
    CompId, Comparison, Component, InterId, LocId, LocalState, MOST_PARTICIPANTS, Model, Name,
    NumberedLines, PortId, Relation, State, Transition, Values, Variable, line_at,
};
use bip_replay::BookFault;
use std::alloc::{AllocError, Global};

/// A comparison that doesn't hold, by its number in a guard, from 1, with the values of its sums.
#[derive(Clone, Copy)]
pub(crate) struct FailedComparison {
    pub number: usize,
    pub left: u32,
    pub relation: Relation,
    pub right: u32,
}

/// Why a component doesn't offer a port where it is.
#[derive(Clone, Copy)]
pub(crate) enum Unoffered {
    NoTransition,
    Guarded(FailedComparison),
}

/// What keeps an interaction from running in a state.
#[derive(Clone, Copy)]
pub(crate) enum Hindrance {
    /// A participant doesn't offer its port.
    Port(CompId, PortId, Unoffered),
    /// Each port is offered, and the guard doesn't hold.
    Guard(FailedComparison),
    /// This interaction stands above it, and is enabled.
    Above(InterId),
}

/// What keeps the grant of a line from being next: what holds of its interaction in the state
/// before the line.
#[derive(Drop)]
pub(crate) struct Hindered {
    state: State,
    inter: InterId,
    reason: Hindrance,
}

impl Hindered {
    /// Says what keeps the grant from being next.
    pub(crate) fn say(&self, explanation: &mut Explanation, model: &Model)
        ensures { explanation.new
            ≡ with_parts (hindered_parts model.now (Some self.now)) explanation.old }
    {
        self.reason.say(explanation, model, &self.state, self.inter);
    }
}

impl Hindrance {
    fn say(self, explanation: &mut Explanation, model: &Model, state: &State, inter: InterId)
        ensures { explanation.new ≡ with_parts
            (hindrance_parts model.now (state_of state.now) inter.0 self) explanation.old }
    {
        match self {
            Hindrance::Port(comp, port, why) => {
                say_place(explanation, model, state, comp);
                why.say(explanation, model, comp, port);
            }
            Hindrance::Guard(failed) => say_guard(explanation, model, state, inter, failed),
            Hindrance::Above(above) => say_above(explanation, model, state, above),
        }
    }
}

fn say_guard(
    explanation: &mut Explanation,
    model: &Model,
    state: &State,
    inter: InterId,
    failed: FailedComparison,
)
    ensures { explanation.new ≡ with_parts
        (guard_parts model.now (state_of state.now) inter.0 failed) explanation.old }
{
    explanation.say(b"each port is offered, and the guard doesn't hold");
    failed.say(explanation);
    say_places(
        explanation,
        model,
        state,
        b"; ",
        participants_of(model, inter),
    );
}

fn say_above(explanation: &mut Explanation, model: &Model, state: &State, above: InterId)
    ensures { explanation.new ≡ with_parts
        (above_parts model.now (state_of state.now) above.0) explanation.old }
{
    say_name(explanation, model.interaction_names(), above.0 as usize);
    explanation.say(b" stands above it, and is enabled");
    say_places(
        explanation,
        model,
        state,
        b": ",
        participants_of(model, above),
    );
}

impl Unoffered {
    fn say(self, explanation: &mut Explanation, model: &Model, comp: CompId, port: PortId)
        ensures { explanation.new
            ≡ with_parts (unoffered_parts model.now comp.0 port.0 self) explanation.old }
    {
        match self {
            Unoffered::NoTransition => {
                explanation.say(b", where it has no transition by ");
                say_port(explanation, model, comp, port);
            }
            Unoffered::Guarded(failed) => say_guarded(explanation, model, comp, port, failed),
        }
    }
}

fn say_guarded(
    explanation: &mut Explanation,
    model: &Model,
    comp: CompId,
    port: PortId,
    failed: FailedComparison,
)
    ensures { explanation.new ≡ with_parts
        (guarded_parts model.now comp.0 port.0 failed) explanation.old }
{
    explanation.say(b", where the guard of its transition by ");
    say_port(explanation, model, comp, port);
    explanation.say(b" doesn't hold");
    failed.say(explanation);
}

impl FailedComparison {
    fn say(self, explanation: &mut Explanation)
        ensures { explanation.new ≡ with_parts (failed_parts self) explanation.old }
    {
        explanation.say(b": comparison ");
        explanation.say_number(self.number as u64);
        explanation.say(b" says ");
        explanation.say_number(u64::from(self.left));
        explanation.say(relation_text(self.relation));
        explanation.say_number(u64::from(self.right));
    }
}

fn relation_text(relation: Relation) -> &'static [u8]
    ensures { result.now ≡ relation_text relation }
{
    match relation {
        Relation::Less => b" < ",
        Relation::LessOrEqual => b" <= ",
        Relation::Greater => b" > ",
        Relation::GreaterOrEqual => b" >= ",
        Relation::Equal => b" = ",
        Relation::NotEqual => b" != ",
    }
}

fn say_port(explanation: &mut Explanation, model: &Model, comp: CompId, port: PortId)
    ensures { explanation.new ≡ with_parts
        (port_parts (slice_get model.now.components comp.0) port.0) explanation.old }
{
    if let Some(component) = model.components().get(comp.0 as usize) {
        say_name(explanation, component.ports.as_slice(), port.0 as usize);
    }
}

// Says where participants are, behind a text.
fn say_places(
    explanation: &mut Explanation,
    model: &Model,
    state: &State,
    front: &[u8],
    participants: &[(CompId, PortId)],
)
    ensures { explanation.new ≡ with_parts
        (places_parts model.now (state_of state.now) front.now participants.now) explanation.old }
{
    if let [(comp, _port), rest @ ..] = participants {
        explanation.say(front);
        say_place(explanation, model, state, *comp);
        say_places(explanation, model, state, b"; ", rest);
    }
}

// Says where a component is, and its values.
fn say_place(explanation: &mut Explanation, model: &Model, state: &State, comp: CompId)
    ensures { explanation.new ≡ with_parts
        (place_parts model.now (state_of state.now) comp.0) explanation.old }
{
    say_component(explanation, model, comp);
    if let Some(component) = model.components().get(comp.0 as usize) {
        if let Some(local) = state.local(comp) {
            say_local(explanation, component, &local);
        }
    }
}

fn say_local(explanation: &mut Explanation, component: &Component, local: &LocalState)
    ensures { explanation.new
        ≡ with_parts (local_parts component.now local.now) explanation.old }
{
    explanation.say(b" is in ");
    say_name(
        explanation,
        component.locations.as_slice(),
        local.location.0 as usize,
    );
    say_values(
        explanation,
        component.variables.as_slice(),
        local.values.as_slice(),
    );
}

fn say_values(explanation: &mut Explanation, names: &[Name], values: &[u32])
    ensures { explanation.new ≡ with_parts (values_parts names.now values.now) explanation.old }
{
    if let [name, more_names @ ..] = names {
        if let [value, more @ ..] = values {
            say_value(explanation, name, *value);
            say_values(explanation, more_names, more);
        }
    }
}

fn say_value(explanation: &mut Explanation, name: &Name, value: u32)
    ensures { explanation.new ≡ with_parts (value_parts name.now value) explanation.old }
{
    explanation.say(b", ");
    explanation.say(name.as_bytes());
    explanation.say(b" = ");
    explanation.say_number(u64::from(value));
}

fn participants_of(model: &Model, inter: InterId) -> &[(CompId, PortId)]
    ensures { result.now ≡ participants_of model.now inter.0 }
{
    match model.interactions().get(inter.0 as usize) {
        None => &[],
        Some(interaction) => interaction.participants.as_slice(),
    }
}

/// What keeps the grant of a line from being next, if its interaction isn't enabled, or is below
/// one that is, in the state before the line.
pub(crate) fn find_hindered(
    alloc: Global,
    model: &Model,
    text: &[u8],
    number: u64,
    fault: &BookFault,
) -> Result<Option<Hindered>, AllocError>
    requires { IsOfState fault.now }
    ensures some { IfOk result (λ found. IfSome found (λ h. (base : ℕ)
        → IsHindered model.now base text.now number fault.now (Some h))) }
    ensures none { IfOk result (λ found. IfNone found ((base : ℕ)
        → MayKeepStep model.now base text.now number fault.now)) }
{
    let state = state_before(alloc, model, text, number)?;
    let Some(inter) = interaction_on(model, line_at(text, number)) else {
        return Ok(None);
    };
    match find_hindrance(model, &state, inter, fault) {
        None => Ok(None),
        Some(reason) => Ok(Some(Hindered {
            state,
            inter,
            reason,
        })),
    }
}

/// The state to which the grants of the lines before one lead, if they are a run.
pub(crate) fn state_before(
    alloc: Global,
    model: &Model,
    text: &[u8],
    line: u64,
) -> Result<State, AllocError>
    ensures of_model { IfOk result (λ state. IsStateOf model.now (state_of state)) }
    ensures before { IfOk result (λ state. (base : ℕ)
        → IsStateBefore model.now base text.now line (state_of state)) }
{
    let mut state = model.start(alloc)?;
    for (number, bytes) in NumberedLines::of(text) {
        if line <= number {
            return Ok(state);
        }
        go_on(model, &mut state, bytes);
    }
    Ok(state)
}

// Goes on by the grant of a line, if it may run.
fn go_on(model: &Model, state: &mut State, line: &[u8])
    ensures of_model { IsStateOf model.now (state_of state.old)
        → IsStateOf model.now (state_of state.new) }
    ensures led { IsLedOn model.now line.now (state_of state.old) (state_of state.new) }
{
    if let Some(inter) = interaction_on(model, line) {
        let _fired = model.fire(state, inter);
    }
}

// What keeps an interaction from running in a state.
fn find_hindrance(
    model: &Model,
    state: &State,
    inter: InterId,
    fault: &BookFault,
) -> Option<Hindrance>
    requires declared { inter.0 < length model.now.interactions }
    requires state { IsStateOf model.now (state_of state.now) }
    requires fault { IsOfState fault.now }
    ensures some { IfSome result
        (IsHindrance model.now (state_of state.now) inter.0 fault.now) }
    ensures none { IfNone result (IsUnhindered model.now (state_of state.now) inter.0 fault.now) }
{
    match fault {
        BookFault::NotEnabled => find_disabled(model, state, inter),
        BookFault::Below(_above) => Some(Hindrance::Above(model.blocked_by(state, inter)?)),
        _ => unreachable!(),
    }
}

// What keeps an interaction from being enabled in a state: the first participant that doesn't
// offer its port, or else the guard.
fn find_disabled(model: &Model, state: &State, inter: InterId) -> Option<Hindrance>
    requires declared { inter.0 < length model.now.interactions }
    requires state { IsStateOf model.now (state_of state.now) }
    ensures some { IfSome result (IsHindrance model.now (state_of state.now) inter.0 NotEnabled) }
    ensures none { IfNone result (IsEnabled model.now (state_of state.now) inter.0) }
{
    let participants = model.participants(inter);
    if let Some((comp, port, why)) = find_port(model, state, participants) {
        return Some(Hindrance::Port(comp, port, why));
    }
    let values = values_of(state, participants);
    let guard = model.interactions()[inter.0 as usize].guard.as_slice();
    Some(Hindrance::Guard(find_failed(guard, values.as_slice())?))
}

// The first participant that doesn't offer its port, and why.
fn find_port(
    model: &Model,
    state: &State,
    participants: &[(CompId, PortId)],
) -> Option<(CompId, PortId, Unoffered)>
    requires state { IsStateOf model.now (state_of state.now) }
    requires ports { All (IsPortIn model.now.components) participants.now }
    ensures some { IfSome result (λ found. IsPortReason model.now (state_of state.now)
        participants.now (found.0, found.1) found.2) }
    ensures none { IfNone result
        (list_all (offered model.now (state_of state.now)) participants.now ≡ true) }
{
    for (comp, port) in participants {
        if let Some(why) = find_unoffered(model, state, *comp, *port) {
            return Some((*comp, *port, why));
        }
    }
    None
}

/// Why a component doesn't offer a port in a state.
pub(crate) fn find_unoffered(
    model: &Model,
    state: &State,
    comp: CompId,
    port: PortId,
) -> Option<Unoffered>
    requires component { comp.0 < length model.now.components }
    requires state { IsStateOf model.now (state_of state.now) }
    ensures some { IfSome result (λ why.
        (offered model.now (state_of state.now) (comp, port) ≡ false)
        × IsUnofferedIn model.now (state_of state.now) (comp, port) why) }
    ensures none { IfNone result (offered model.now (state_of state.now) (comp, port) ≡ true) }
{
    match state.local(comp) {
        None => unreachable!(),
        Some(local) => find_in(&model.components()[comp.0 as usize], &local, port),
    }
}

// Why a component doesn't offer a port in a local state.
fn find_in(component: &Component, local: &LocalState, port: PortId) -> Option<Unoffered>
    requires component { IsComponent component.now }
    requires local { IsLocalStateOf component.now local.now }
    ensures some { IfSome result (λ why. (offers_at component.now local.now port ≡ false)
        × IsUnoffered component.now local.now port why) }
    ensures none { IfNone result (offers_at component.now local.now port ≡ true) }
{
    match transition_for(component, local.location, port) {
        None => Some(Unoffered::NoTransition),
        Some(transition) => {
            let values = [local.values];
            let failed = find_failed(transition.guard.as_slice(), &values)?;
            Some(Unoffered::Guarded(failed))
        }
    }
}

fn transition_for(component: &Component, location: LocId, port: PortId) -> Option<&Transition>
    ensures { option_map (λ t. t.now) result ≡ transition_for component.now location port }
{
    component.transitions.as_slice().iter().find(|transition| transition.source == location
        && transition.port == port)
}

// The first comparison of a guard that doesn't hold.
fn find_failed(guard: &[Comparison<Variable>], values: &[Values]) -> Option<FailedComparison>
    requires { AreComparisonsIn (counts values.now) guard.now }
    ensures some { IfSome result (IsFirstFailed guard.now values.now) }
    ensures none { IfNone result (holds guard.now values.now ≡ true) }
{
    for (place, comparison) in guard.iter().enumerate() {
        let left = comparison.left.eval(values);
        let right = comparison.right.eval(values);
        if !relates(comparison.relation, left, right) {
            return Some(FailedComparison {
                number: place + 1,
                left,
                relation: comparison.relation,
                right,
            });
        }
    }
    None
}

fn relates(relation: Relation, left: u32, right: u32) -> bool
    ensures { result ≡ relates relation left right }
{
    match relation {
        Relation::Less => left < right,
        Relation::LessOrEqual => left <= right,
        Relation::Greater => left > right,
        Relation::GreaterOrEqual => left >= right,
        Relation::Equal => left == right,
        Relation::NotEqual => left != right,
    }
}

// The values of participants, in their order.
fn values_of(
    state: &State,
    participants: &[(CompId, PortId)],
) -> ArrayVec<Values, MOST_PARTICIPANTS>
    requires { length participants.now ≤ MOST_PARTICIPANTS }
    ensures { result.items ≡ map (values_at (state_of state.now)) participants.now }
{
    let mut values = ArrayVec::new();
    for (comp, _port) in participants {
        values.push(values_at(state, *comp));
    }
    values
}

fn values_at(state: &State, comp: CompId) -> Values
    ensures { (port : PortId) → result ≡ values_at (state_of state.now) (comp, port) }
{
    match state.local(comp) {
        Some(local) => local.values,
        None => Values::none(),
    }
}
