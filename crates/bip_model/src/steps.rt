//! The steps of a model: what is enabled in a state, and where an interaction leads.
ghost use Rattle.std.specs.Prelude.{◌≡◌, ◌<◌, ◌≤◌, ◌↔◌, ℕ, IsTrue, length, map, take, slice_get};
ghost use Rattle.std.specs.Prelude.{◌==◌, if◌then◌else◌, true, IfErr, IfNone, IfOk, IfSome};
ghost use Rattle.std.specs.Prelude.{OnErr, OnOk};
ghost use Rattle.std.specs.List.Sorted.{IsStrictlyIncreasing};
ghost use Rattle.std.specs.List.{list_all};
ghost use Rattle.std.specs.Option.{option_map};
ghost use Rattle.bip_model.specs.Components.{AreOffered, moved};
ghost use Rattle.bip_model.specs.Expressions.{AreAssignmentsIn, counts, holds, transferred};
ghost use Rattle.bip_model.specs.Messages.{IsOfferIn};
ghost use Rattle.bip_model.specs.Parts.{IsInteraction, IsSystem, components_in, count_of};
ghost use Rattle.bip_model.specs.Parts.{counts_of};
ghost use Rattle.bip_model.specs.Priorities.{HasAbove, IsListAbove};
ghost use Rattle.bip_model.specs.States.{IsLocalStateOf, IsStateOf, local_of, state_of};
ghost use Rattle.bip_model.specs.Steps.{IsEnabled, IsHeldBack, IsLowestAbove, MayRun, after};
ghost use Rattle.bip_model.specs.Steps.{guard_of, led, led_all, offered, participants_of};
ghost use Rattle.bip_model.specs.Steps.{start_of, told_all, transfer_of, transition_of, values_at};

use crate::expressions::{holds, transfer};
use crate::parts::MOST_PARTICIPANTS;
use crate::{
    CompId, InterId, Interaction, LocId, LocalState, Model, NotNow, Number, Offer, PortId, State,
    Transition, Values,
};
use std::alloc::{AllocError, Global};

/// The values of participants in a state, in front of as many empty ones as make eight.
fn values_of(state: &State, participants: &[(CompId, PortId)]) -> [Values; MOST_PARTICIPANTS]
    requires { length participants.now ≤ MOST_PARTICIPANTS }
    ensures { take (length participants.now) result
        ≡ map (values_at (state_of state.now)) participants.now }
{
    let mut values = [Values::none(); MOST_PARTICIPANTS];
    for (place, participant) in participants.iter().enumerate() {
        values[place] = values_at(state, participant);
    }
    values
}

fn values_at(state: &State, participant: &(CompId, PortId)) -> Values
    ensures { result ≡ values_at (state_of state.now) (participant.now.0, participant.now.1) }
{
    match state.at(participant.0) {
        Some(local) => local.values,
        None => Values::none(),
    }
}

impl Model {
    /// The state in which each component is in its first location, with the values of its start. It
    /// is a state of the model (docs/DEFINITIONS.md, "States").
    pub fn start(&self, alloc: Global) -> Result<State, AllocError>
        ensures start { IfOk result (λ state. state_of state ≡ start_of self.now) }
        ensures of_model { IfOk result (λ state. IsStateOf self.now (state_of state)) }
    {
        self.recall();
        self.first_state(alloc)
    }

    fn first_state(&self, alloc: Global) -> Result<State, AllocError>
        ensures { IfOk result (λ state. state_of state ≡ start_of self.now) }
    {
        let locals = self
            .components()
            .iter()
            .map(|component| LocalState {
                location: LocId(0),
                values: component.start,
            })
            .collect(alloc)?;
        Ok(State::of(locals))
    }

    /// Whether an interaction is enabled in a state: each participant's port is offered there, and
    /// its guard holds. It is not where the model has no such interaction, or the state has no such
    /// component, or another count of values of it.
    pub fn enabled(&self, state: &State, inter: InterId) -> bool
        ensures { IsTrue result ↔ IsEnabled self.now (state_of state.now) inter.0 }
    {
        match self.interactions().get(inter.0 as usize) {
            None => false,
            Some(interaction) => {
                self.all_offered(state, interaction.participants.as_slice())
                    && self.guard_holds(state, interaction)
            }
        }
    }

    /// The lowest-numbered of the interactions above one that are enabled in a state; none where
    /// none is, or the model has no such interaction. It doesn't ask whether that one is enabled.
    pub fn blocked_by(&self, state: &State, inter: InterId) -> Option<InterId>
        ensures some { IfSome result (λ b.
            IsLowestAbove self.now (state_of state.now) inter.0 b.0) }
        ensures none { IfNone result ((b : ℕ) → HasAbove self.now.priorities inter.0 b
            → ¬ IsEnabled self.now (state_of state.now) b) }
    {
        if inter.0 as usize >= self.interactions().len() {
            return None;
        }
        self.first_enabled(state, inter, self.above(inter))
    }

    fn first_enabled(&self, state: &State, inter: InterId, above: &[InterId]) -> Option<InterId>
        requires { IsListAbove self.now.priorities inter.0 above.now }
        ensures some { IfSome result (λ b.
            IsLowestAbove self.now (state_of state.now) inter.0 b.0) }
        ensures none { IfNone result ((b : ℕ) → HasAbove self.now.priorities inter.0 b
            → ¬ IsEnabled self.now (state_of state.now) b) }
    {
        for higher in above {
            if self.enabled(state, *higher) {
                return Some(*higher);
            }
        }
        None
    }

    /// Runs an interaction that may run: its transfer is done, each participant goes where its
    /// transition leads and does its update, and all others stay; a state of the model stays one.
    /// Else the first cause is told, in the order not enabled, below, and the state stays as it was
    /// (docs/DEFINITIONS.md, "The joint step").
    pub fn fire(&self, state: &mut State, inter: InterId) -> Result<(), NotNow>
        ensures may { OnOk result (MayRun self.now (state_of state.old) inter.0) }
        ensures fired { OnOk result
            (state_of state.new ≡ after self.now (state_of state.old) inter.0) }
        ensures refused { IfErr result (IsHeldBack self.now (state_of state.old) inter.0) }
        ensures err { OnErr result (state.new ≡ state.old) }
        ensures of_model { IsStateOf self.now (state_of state.old)
            → IsStateOf self.now (state_of state.new) }
    {
        if !self.enabled(state, inter) {
            return Err(NotNow::NotEnabled);
        }
        if let Some(higher) = self.blocked_by(state, inter) {
            return Err(NotNow::Below(higher));
        }
        self.run(state, inter);
        Ok(())
    }

    /// The same for who knows already that the interaction may run.
    pub fn run(&self, state: &mut State, inter: InterId)
        requires { MayRun self.now (state_of state.old) inter.0 }
        ensures fired { state_of state.new ≡ after self.now (state_of state.old) inter.0 }
        ensures of_model { IsStateOf self.now (state_of state.old)
            → IsStateOf self.now (state_of state.new) }
    {
        let interaction = &self.interactions()[inter.0 as usize];
        exchange(state, interaction);
        self.lead_all(state, interaction.participants.as_slice());
    }

    /// Whether the guard of an interaction holds of the values of its participants, in their order.
    pub fn guard(&self, inter: InterId, values: &[Values]) -> bool
        requires declared { inter.0 < length self.now.interactions }
        requires values { counts values.now
            ≡ counts_of self.now.components (participants_of self.now inter.0) }
        ensures { result ≡ holds (guard_of self.now inter.0) values.now }
    {
        holds(
            self.interactions()[inter.0 as usize].guard.as_slice(),
            values,
        )
    }

    /// Does the transfer of an interaction on the values of its participants, in their order.
    pub fn transfer(&self, inter: InterId, values: &mut [Values])
        requires declared { inter.0 < length self.now.interactions }
        requires values { counts values.old
            ≡ counts_of self.now.components (participants_of self.now inter.0) }
        ensures { values.new ≡ transferred (transfer_of self.now inter.0) values.old }
    {
        transfer(
            self.interactions()[inter.0 as usize].transfer.as_slice(),
            values,
        );
    }

    /// The ports that a component offers in a local state: bit p is port p.
    pub fn ports(&self, comp: CompId, location: LocId, values: &Values) -> u16
        requires component { comp.0 < length self.now.components }
        requires local { IfSome (slice_get self.now.components comp.0)
            (λ component. IsLocalStateOf component (local_of (location, values.now))) }
        ensures { IfSome (slice_get self.now.components comp.0)
            (λ component. AreOffered component (local_of (location, values.now)) result) }
    {
        let local = LocalState {
            location,
            values: *values,
        };
        self.components()[comp.0 as usize].ports(self.places(comp), &local)
    }

    /// What a component offers in a local state, as its move of this number (docs/PROTOCOL.md,
    /// "Offers").
    pub fn offer(&self, comp: CompId, number: Number, location: LocId, values: &Values) -> Offer
        requires component { comp.0 < length self.now.components }
        requires local { IfSome (slice_get self.now.components comp.0)
            (λ component. IsLocalStateOf component (local_of (location, values.now))) }
        ensures { IsOfferIn self.now comp.0 number (local_of (location, values.now)) result }
    {
        Offer {
            comp,
            number,
            ports: self.ports(comp, location, values),
            values: *values,
        }
    }

    /// Where a component's transition with a port leads from a local state, after its update; none
    /// where there is no such transition. Its guard isn't asked. A local state of the component
    /// leads to one.
    pub fn move_one(
        &self,
        comp: CompId,
        location: LocId,
        values: &Values,
        port: PortId,
    ) -> Option<(LocId, Values)>
        requires component { comp.0 < length self.now.components }
        requires local { IfSome (slice_get self.now.components comp.0)
            (λ component. IsLocalStateOf component (local_of (location, values.now))) }
        ensures moved { IfSome (slice_get self.now.components comp.0) (λ component.
            option_map local_of result ≡ moved component (local_of (location, values.now)) port) }
        ensures of_component { IfSome (slice_get self.now.components comp.0) (λ component.
            IfSome result (λ target. IsLocalStateOf component (local_of target))) }
    {
        let local = LocalState {
            location,
            values: *values,
        };
        let target = self.components()[comp.0 as usize].moved(self.places(comp), &local, port)?;
        Some((target.location, target.values))
    }

    fn guard_holds(&self, state: &State, interaction: &Interaction) -> bool
        requires interaction { IsInteraction self.now.components interaction.now }
        requires offered { list_all (offered self.now (state_of state.now))
            interaction.now.participants ≡ true }
        ensures { result ≡ holds interaction.now.guard
            (map (values_at (state_of state.now)) interaction.now.participants) }
    {
        if interaction.guard.is_empty() {
            return true;
        }
        let participants = interaction.participants.as_slice();
        let values = values_of(state, participants);
        holds(interaction.guard.as_slice(), &values[..participants.len()])
    }

    fn all_offered(&self, state: &State, participants: &[(CompId, PortId)]) -> bool
        ensures { result ≡ list_all (offered self.now (state_of state.now)) participants.now }
    {
        participants
            .iter()
            .all(|&(comp, port)| self.offered(state, comp, port))
    }

    pub(crate) fn offered(&self, state: &State, comp: CompId, port: PortId) -> bool
        ensures { result ≡ offered self.now (state_of state.now) (comp, port) }
    {
        match (self.components().get(comp.0 as usize), state.at(comp)) {
            (Some(component), Some(local)) => component.offers(self.places(comp), local, port),
            _ => false,
        }
    }

    /// Brings participants to where their ports lead, with the values that they have.
    fn lead_all(&self, state: &mut State, participants: &[(CompId, PortId)])
        requires model { IsSystem self.now }
        requires rising { IsStrictlyIncreasing (components_in participants.now) }
        requires values { counts (map (values_at (state_of state.old)) participants.now)
            ≡ counts_of self.now.components participants.now }
        ensures { (c : ℕ) → state_of state.new c
            ≡ led_all self.now (state_of state.old) participants.now c }
    {
        for participant in participants {
            self.lead(state, participant.0, participant.1);
        }
    }

    /// Brings a component to where its port leads; it stays where it has no such transition.
    fn lead(&self, state: &mut State, comp: CompId, port: PortId)
        requires model { IsSystem self.now }
        requires values { length (values_at (state_of state.old) (comp, port))
            ≡ count_of self.now.components (comp, port) }
        ensures { (c : ℕ) → state_of state.new c
            ≡ (if c == comp.0 then option_map (led self.now comp.0 port) (state_of state.old c)
            else state_of state.old c) }
    {
        if let Some(transition) = self.transition(state, comp, port) {
            state.follow(comp, transition);
        }
    }

    fn transition(&self, state: &State, comp: CompId, port: PortId) -> Option<&Transition>
        ensures { option_map (λ t. t.now) result
            ≡ transition_of self.now (state_of state.now) (comp, port) }
    {
        let component = self.components().get(comp.0 as usize)?;
        let local = state.at(comp)?;
        component.transition_for(self.places(comp), local.location, port)
    }
}

fn tell_all(state: &mut State, participants: &[(CompId, PortId)], told: &[Values])
    ensures { (c : ℕ) → state_of state.new c
        ≡ told_all (state_of state.old) participants.now told.now c }
{
    if let [participant, rest @ ..] = participants {
        if let [values, more @ ..] = told {
            tell_all(state, rest, more);
            state.tell(participant.0, values);
        }
    }
}

/// Tells the participants of an interaction what its transfer gives them.
fn exchange(state: &mut State, interaction: &Interaction)
    requires few { length interaction.now.participants ≤ MOST_PARTICIPANTS }
    requires there { AreAssignmentsIn
        (counts (map (values_at (state_of state.old)) interaction.now.participants))
        interaction.now.transfer }
    ensures { (c : ℕ) → state_of state.new c
        ≡ told_all (state_of state.old) interaction.now.participants
        (transferred interaction.now.transfer
        (map (values_at (state_of state.old)) interaction.now.participants)) c }
{
    if interaction.transfer.is_empty() {
        return;
    }
    let participants = interaction.participants.as_slice();
    let mut values = values_of(state, participants);
    let told = &mut values[..participants.len()];
    transfer(interaction.transfer.as_slice(), told);
    tell_all(state, participants, told);
}
