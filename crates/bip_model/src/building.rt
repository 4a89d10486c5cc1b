//! Models built line by line.
ghost use Rattle.std.specs.Prelude.{◌≡◌, ◌↔◌, position, IsTrue, IsSome, IsNone};
ghost use Rattle.std.specs.Prelude.{IfErr, IfOk, OnErr, OnOk};
ghost use Rattle.std.specs.Option.{option_map};
ghost use Rattle.bip_model.specs.Drafts.{component_line, empty_draft, end_line};
ghost use Rattle.bip_model.specs.Drafts.{inside, interaction_line};
ghost use Rattle.bip_model.specs.Drafts.{priority_line, IsEndFault, IsWhole};
ghost use Rattle.bip_model.specs.Components.{loc_line, port_line, trans_line, var_line};
ghost use Rattle.bip_model.specs.Naming.{same_text};
ghost use Rattle.bip_model.specs.Faults.{Answers, new_or_fault};
ghost use Rattle.bip_model.specs.Priorities.{IsCyclic};
ghost use Rattle.bip_model.specs.declared.faults.BuildFault.TheVariants.{Memory};

use crate::drafts::{Draft, has_pair, place_for};
use crate::parts::MOST_COMPONENTS;
use crate::{Assignments, BuildFault, Component, Guard, InterId, Model, Name, OneOrMore, Pair};
use std::alloc::{AllocError, Global};
use std::marker;

/// A model that is being built, one line of its text after another (docs/ANSWERS.md, "Model
/// lines"). Contracts see it as what the lines so far have said. A call that refuses leaves it as
/// it was.
#[derive(Drop)]
pub struct Builder {
    draft: Draft,
    alloc: Global,
}

impl marker::Model for Builder {
    ghost use Rattle.bip_model.specs.declared.drafts.Draft.{Draft};
    ghost use Rattle.bip_model.specs.Drafts.{IsDraft};

    ghost Value = { Draft };

    ghost view = { λ b. b.draft };

    ghost invariant = { λ b. IsDraft b.draft };
}

impl Builder {
    /// A builder that no line has been given.
    pub fn new(alloc: Global) -> Result<Builder, AllocError>
        ensures { IfOk result (λ builder. builder ≡ empty_draft) }
    {
        Ok(Builder {
            draft: Draft::new(alloc),
            alloc,
        })
    }

    /// Whether a component is begun and not ended.
    pub fn is_inside(&self) -> bool
        ensures { IsTrue result ↔ IsSome self.now.begun }
    {
        self.draft.begun.is_some()
    }

    /// The number of the interaction with this name, if there is one.
    pub fn interaction_number(&self, name: &Name) -> Option<InterId>
        ensures { option_map (λ a. a.0) result
            ≡ position (same_text name.now) self.now.system.interaction_names }
    {
        let number = self.draft.system.interaction_names.number_of(name)?;
        Some(InterId(number as u16))
    }

    /// `component NAME` begins a component. Twice: a component has this name; then TooMany: there
    /// are 64.
    pub fn component(&mut self, name: Name) -> Result<(), BuildFault>
        requires { IsNone self.old.begun }
        ensures said { Answers Memory (component_line self.old name)
            (new_or_fault result self.new) }
        ensures err { OnErr result (self.new ≡ self.old) }
    {
        let names = &self.draft.system.component_names;
        if names.contains(&name) {
            return Err(BuildFault::Twice);
        }
        if MOST_COMPONENTS <= names.len() {
            return Err(BuildFault::TooMany);
        }
        self.draft.system.component_names.push(name)?;
        self.draft.begun = Some(Component::new(self.alloc));
        Ok(())
    }

    /// `var NAME VALUE` adds a variable to the component that is begun, with its value at the
    /// start. Twice: one of its variables, locations or ports has this name; then TooMany: it has
    /// 8 variables.
    pub fn var(&mut self, name: Name, value: u32) -> Result<(), BuildFault>
        requires { IsSome self.old.begun }
        ensures said { Answers Memory (inside (var_line name value) self.old)
            (new_or_fault result self.new) }
        ensures err { OnErr result (self.new ≡ self.old) }
    {
        match &mut self.draft.begun {
            None => unreachable!(),
            Some(component) => component.add_variable(name, value),
        }
    }

    /// `loc NAME` adds a location to the component that is begun; the first is its start. Twice:
    /// one of its variables, locations or ports has this name; then TooMany: it has 64 locations.
    pub fn loc(&mut self, name: Name) -> Result<(), BuildFault>
        requires { IsSome self.old.begun }
        ensures said { Answers Memory (inside (loc_line name) self.old)
            (new_or_fault result self.new) }
        ensures err { OnErr result (self.new ≡ self.old) }
    {
        match &mut self.draft.begun {
            None => unreachable!(),
            Some(component) => component.add_location(name),
        }
    }

    /// `port NAME` adds a port to the component that is begun. Twice: one of its variables,
    /// locations or ports has this name; then TooMany: it has 16 ports.
    pub fn port(&mut self, name: Name) -> Result<(), BuildFault>
        requires { IsSome self.old.begun }
        ensures said { Answers Memory (inside (port_line name) self.old)
            (new_or_fault result self.new) }
        ensures err { OnErr result (self.new ≡ self.old) }
    {
        match &mut self.draft.begun {
            None => unreachable!(),
            Some(component) => component.add_port(name),
        }
    }

    /// `trans PORT FROM TO [when GUARD] [do ASSIGNS]` adds a transition to the component that is
    /// begun. Unknown: it lacks the port, a location, or a variable that is named by its own name
    /// alone; then TooMany: it has 256 transitions, or there are more than 16 comparisons, 16
    /// assignments or 16 terms of a sum; then TwoTransitions: one with this port leaves the
    /// location already.
    pub fn trans(
        &mut self,
        port: Name,
        source: Name,
        target: Name,
        guard: &Guard<'_>,
        update: &Assignments<'_>,
    ) -> Result<(), BuildFault>
        requires { IsSome self.old.begun }
        ensures said { Answers Memory
            (inside (trans_line port source target guard.now update.now) self.old)
            (new_or_fault result self.new) }
        ensures err { OnErr result (self.new ≡ self.old) }
    {
        match &mut self.draft.begun {
            None => unreachable!(),
            Some(component) => {
                component.add_named_transition(self.alloc, &port, &source, &target, guard, update)
            }
        }
    }

    /// `end` ends the component that is begun. Missing: it has no location.
    pub fn end(&mut self) -> Result<(), BuildFault>
        requires { IsSome self.old.begun }
        ensures said { Answers Memory (end_line self.old) (new_or_fault result self.new) }
        ensures err { OnErr result (self.new ≡ self.old) }
    {
        let Some(component) = self.draft.begun.take() else {
            unreachable!()
        };
        if component.locations.len() == 0 {
            self.draft.begun = Some(component);
            return Err(BuildFault::Missing);
        }
        if let Err(refused) = self.draft.system.components.push(component) {
            self.draft.begun = Some(refused.value);
            return Err(BuildFault::Memory);
        }
        Ok(())
    }

    /// `interaction NAME C.p C.p .. [when GUARD] [do ASSIGNS]` adds an interaction of these ports,
    /// each of a component. By the first word from the left that is at fault, Twice: an interaction
    /// has the name, the component takes part already, or the variable is assigned to already;
    /// Unknown: there is no such component, it lacks the port, or no participant has the variable.
    /// Then TooMany: there are 128 interactions, or more than 8 participants, 16 comparisons, 16
    /// assignments or 16 terms of a sum.
    pub fn interaction(
        &mut self,
        name: Name,
        participants: &OneOrMore<'_, (Name, Name)>,
        guard: &Guard<'_>,
        transfer: &Assignments<'_>,
    ) -> Result<(), BuildFault>
        requires { IsNone self.old.begun }
        ensures said { Answers Memory
            (interaction_line self.old name participants.now guard.now transfer.now)
            (new_or_fault result self.new) }
        ensures err { OnErr result (self.new ≡ self.old) }
    {
        if self.draft.system.interaction_names.contains(&name) {
            return Err(BuildFault::Twice);
        }
        match self
            .draft
            .system
            .participants(self.alloc, participants.each())
        {
            Err(fault) => Err(fault),
            Ok(named) => self
                .draft
                .system
                .add_named_interaction(self.alloc, name, named.as_slice(), guard, transfer),
        }
    }

    /// `priority LOW < HIGH` puts the second interaction above the first. By the first word from
    /// the left that is at fault, Unknown: there is no such interaction; then Twice: the pair is
    /// declared already.
    pub fn priority(&mut self, low: Name, high: Name) -> Result<(), BuildFault>
        requires { IsNone self.old.begun }
        ensures said { Answers Memory (priority_line self.old low high)
            (new_or_fault result self.new) }
        ensures err { OnErr result (self.new ≡ self.old) }
    {
        let names = &self.draft.system.interaction_names;
        let low = names.number_of(&low).ok_or(BuildFault::Unknown)?;
        let high = names.number_of(&high).ok_or(BuildFault::Unknown)?;
        let pair = Pair {
            low: InterId(low as u16),
            high: InterId(high as u16),
        };
        let pairs = self.draft.system.priorities.as_slice();
        if has_pair(pairs, pair) {
            return Err(BuildFault::Twice);
        }
        let place = place_for(pairs, pair);
        Ok(self.draft.system.priorities.insert(place, pair)?)
    }

    /// The model that the lines have declared. Missing: a component is begun and not ended, or
    /// there is no component; then PriorityCycle: an interaction stands above itself; else the
    /// model, or Memory.
    pub fn finish(self) -> Result<Model, BuildFault>
        ensures model { IfOk result (λ model. model ≡ self.system) }
        ensures whole { OnOk result (IsWhole self) }
        ensures acyclic { OnOk result (¬ IsCyclic self.system.priorities) }
        ensures fault { IfErr result (IsEndFault self) }
    {
        let Builder { draft, alloc } = self;
        if draft.begun.is_some() || draft.system.components.is_empty() {
            drop(draft);
            return Err(BuildFault::Missing);
        }
        let Draft { system, begun } = draft;
        drop(begun);
        Model::of(alloc, system)
    }
}
