//! One component: what the lines inside it declare, and what it can do by itself in a local state.
ghost use Rattle.std.specs.Prelude.{◌≡◌, ◌<◌, ◌==◌, ℕ, length, if◌then◌else◌, OnErr};
ghost use Rattle.std.specs.Int.{bit_at};
ghost use Rattle.std.specs.List.{list_any};
ghost use Rattle.bip_model.specs.Components.{AreOffered, is_taken, leaves, loc_line, moved};
ghost use Rattle.bip_model.specs.Components.{no_component, offers_at, port_line, trans_line};
ghost use Rattle.bip_model.specs.Components.{var_line, with_transition};
ghost use Rattle.bip_model.specs.Faults.{Answers, new_or_fault};
ghost use Rattle.bip_model.specs.Parts.{IsComponent, IsComponentSoFar};
ghost use Rattle.bip_model.specs.Places.{ArePlaces};
ghost use Rattle.bip_model.specs.declared.faults.BuildFault.TheVariants.{Memory};

use crate::expressions::holds;
use crate::parts::{MOST_LOCATIONS, MOST_PORTS, MOST_TRANSITIONS};
use crate::scopes::Scope;
use crate::states::MOST_VALUES;
use crate::{
    Assignments, BuildFault, Component, Guard, LocId, LocalState, Name, Names, PortId, Seq,
    Transition, Values,
};
use std::alloc::Global;

impl Component {
    /// A component that has declared nothing.
    pub(crate) fn new(alloc: Global) -> Component
        ensures { result ≡ no_component }
    {
        Component {
            variables: Names::new(alloc),
            start: Values::none(),
            locations: Names::new(alloc),
            ports: Names::new(alloc),
            transitions: Seq::of(Vec::new(alloc)),
        }
    }

    /// Whether one of its variables, locations or ports has this name.
    fn is_taken(&self, name: &Name) -> bool
        ensures { result ≡ is_taken name.now self.now }
    {
        self.variables.contains(name) || self.locations.contains(name) || self.ports.contains(name)
    }

    /// `var NAME VALUE`
    pub(crate) fn add_variable(&mut self, name: Name, value: u32) -> Result<(), BuildFault>
        requires { IsComponentSoFar self.old }
        ensures said { Answers Memory (var_line name value self.old)
            (new_or_fault result self.new) }
        ensures err { OnErr result (self.new ≡ self.old) }
    {
        if self.is_taken(&name) {
            return Err(BuildFault::Twice);
        }
        if MOST_VALUES <= self.variables.len() {
            return Err(BuildFault::TooMany);
        }
        self.variables.push(name)?;
        self.start.push(value);
        Ok(())
    }

    /// `loc NAME`
    pub(crate) fn add_location(&mut self, name: Name) -> Result<(), BuildFault>
        ensures said { Answers Memory (loc_line name self.old) (new_or_fault result self.new) }
        ensures err { OnErr result (self.new ≡ self.old) }
    {
        if self.is_taken(&name) {
            return Err(BuildFault::Twice);
        }
        if MOST_LOCATIONS <= self.locations.len() {
            return Err(BuildFault::TooMany);
        }
        Ok(self.locations.push(name)?)
    }

    /// `port NAME`
    pub(crate) fn add_port(&mut self, name: Name) -> Result<(), BuildFault>
        ensures said { Answers Memory (port_line name self.old) (new_or_fault result self.new) }
        ensures err { OnErr result (self.new ≡ self.old) }
    {
        if self.is_taken(&name) {
            return Err(BuildFault::Twice);
        }
        if MOST_PORTS <= self.ports.len() {
            return Err(BuildFault::TooMany);
        }
        Ok(self.ports.push(name)?)
    }

    fn add_transition(
        &mut self,
        alloc: Global,
        port: PortId,
        source: LocId,
        target: LocId,
        guard: &Guard<'_>,
        update: &Assignments<'_>,
    ) -> Result<(), BuildFault>
        requires { IsComponentSoFar self.old }
        ensures said { Answers Memory
            (with_transition port source target guard.now update.now self.old)
            (new_or_fault result self.new) }
        ensures err { OnErr result (self.new ≡ self.old) }
    {
        if MOST_TRANSITIONS <= self.transitions.len() || guard.are_long() || update.are_long() {
            return Err(BuildFault::TooMany);
        }
        if self.has_start(source, port) {
            return Err(BuildFault::TwoTransitions);
        }
        let scope = Scope::Own(&self.variables);
        let Ok(guard) = scope.guard(alloc, guard.each()) else {
            return Err(BuildFault::Memory);
        };
        let Ok(update) = scope.assignments(alloc, update.each()) else {
            return Err(BuildFault::Memory);
        };
        let transition = Transition {
            port,
            source,
            target,
            guard,
            update,
        };
        self.transitions
            .push(transition)
            .map_err(|_| BuildFault::Memory)
    }

    fn has_start(&self, source: LocId, port: PortId) -> bool
        ensures { result ≡ list_any (leaves source port) self.now.transitions }
    {
        self.transitions
            .as_slice()
            .iter()
            .any(|t| t.source == source && t.port == port)
    }

    /// `trans PORT FROM TO [when GUARD] [do ASSIGNS]`
    pub(crate) fn add_named_transition(
        &mut self,
        alloc: Global,
        port: &Name,
        source: &Name,
        target: &Name,
        guard: &Guard<'_>,
        update: &Assignments<'_>,
    ) -> Result<(), BuildFault>
        requires { IsComponentSoFar self.old }
        ensures said { Answers Memory
            (trans_line port.now source.now target.now guard.now update.now self.old)
            (new_or_fault result self.new) }
        ensures err { OnErr result (self.new ≡ self.old) }
    {
        let Some(port) = self.ports.number_of(port) else {
            return Err(BuildFault::Unknown);
        };
        let Some(source) = self.locations.number_of(source) else {
            return Err(BuildFault::Unknown);
        };
        let Some(target) = self.locations.number_of(target) else {
            return Err(BuildFault::Unknown);
        };
        let scope = Scope::Own(&self.variables);
        if !scope.knows_guard(guard.each()) {
            return Err(BuildFault::Unknown);
        }
        if !scope.knows_assignments(update.each()) {
            return Err(BuildFault::Unknown);
        }
        self.add_transition(
            alloc,
            PortId(port as u8),
            LocId(source as u8),
            LocId(target as u8),
            guard,
            update,
        )
    }

    /// Whether a transition with this port leaves the local state, and its guard holds there. A
    /// local state with another count of values offers nothing.
    pub(crate) fn offers(&self, places: &[u16], local: &LocalState, port: PortId) -> bool
        requires component { IsComponent self.now }
        requires places { ArePlaces self.now places.now }
        ensures { result ≡ offers_at self.now local.now port }
    {
        if local.values.len() != self.variables.len() {
            return false;
        }
        match self.transition_for(places, local.location, port) {
            None => false,
            Some(transition) => holds(transition.guard.as_slice(), &[local.values]),
        }
    }

    /// Bit p says whether port p is offered in the local state.
    pub(crate) fn ports(&self, places: &[u16], local: &LocalState) -> u16
        requires component { IsComponent self.now }
        requires places { ArePlaces self.now places.now }
        ensures { AreOffered self.now local.now result }
    {
        let mut ports = 0;
        for number in 0..self.ports.len() {
            let port = PortId(number as u8);
            if self.offers(places, local, port) {
                ports = with_port(ports, port);
            }
        }
        ports
    }

    /// Where the transition with this port leads from the local state; none where there is none.
    /// Its guard isn't asked.
    pub(crate) fn moved(
        &self,
        places: &[u16],
        local: &LocalState,
        port: PortId,
    ) -> Option<LocalState>
        requires component { IsComponent self.now }
        requires places { ArePlaces self.now places.now }
        requires local { length local.now.values ≡ length self.now.variables }
        ensures { result ≡ moved self.now local.now port }
    {
        let transition = self.transition_for(places, local.location, port)?;
        let mut target = *local;
        target.follow(transition);
        Some(target)
    }
}

fn with_port(ports: u16, port: PortId) -> u16
    requires { port.0 < MOST_PORTS }
    ensures { (k : ℕ) → bit_at result k ≡ (if k == port.0 then 1 else bit_at ports k) }
{
    ports | (1 << port.0)
}
