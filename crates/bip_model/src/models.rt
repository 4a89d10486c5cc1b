//! Models, and what can be read of them without memory.
ghost use Rattle.std.specs.Prelude.{◌≡◌, ◌<◌, length, position, slice_get, IfErr, IfOk};
ghost use Rattle.std.specs.Prelude.{IfSome, OnOk};
ghost use Rattle.std.specs.List.Sorted.{IsStrictlyIncreasing};
ghost use Rattle.std.specs.Option.{option_map};
ghost use Rattle.bip_model.specs.Naming.{same_text};

use crate::parts::System;
use crate::places::places_of_each;
use crate::priorities::Above;
use crate::{BuildFault, CompId, Component, InterId, Interaction, LocId, Name, Pair, PortId, Seq};
use std::alloc::Global;
use std::marker;

/// A model: components that move together by interactions. It is always valid
/// (docs/DEFINITIONS.md, "Models"), and contracts see it as what it declares.
#[derive(Drop)]
pub struct Model {
    system: System,
    above: Seq<Seq<InterId>>,
    looks: Seq<Seq<CompId>>,
    places: Seq<Seq<u16>>,
}

impl marker::Model for Model {
    ghost use Rattle.bip_model.specs.declared.parts.System.{System};
    ghost use Rattle.bip_model.specs.Steps.{AreTables};

    ghost Value = { System };

    ghost view = { λ m. m.system };

    ghost invariant = { λ m. AreTables m.system m.above m.looks m.places };
}

impl Model {
    ghost use Rattle.bip_model.specs.Drafts.{IsCycleFault};
    ghost use Rattle.bip_model.specs.Parts.{IsSystem, IsSystemSoFar, components_in};
    ghost use Rattle.bip_model.specs.Places.{ArePlaces};
    ghost use Rattle.bip_model.specs.Priorities.{IsCyclic, IsListAbove};
    ghost use Rattle.bip_model.specs.Steps.{IsListLookedAt, moves, participants_of};

    /// The model that declares all this. PriorityCycle: an interaction stands above itself; else
    /// the model, or Memory.
    pub(crate) fn of(alloc: Global, system: System) -> Result<Model, BuildFault>
        requires so_far { IsSystemSoFar system }
        requires some { 0 < length system.components }
        requires named { length system.component_names ≡ length system.components }
        ensures model { IfOk result (λ model. model ≡ system) }
        ensures acyclic { OnOk result (¬ IsCyclic system.priorities) }
        ensures fault { IfErr result (IsCycleFault system) }
    {
        let pairs = system.priorities.as_slice();
        let count = system.interactions.len() as u16;
        let closed = Above::of(count, pairs);
        if closed.is_cyclic() {
            return Err(BuildFault::PriorityCycle);
        }
        let Ok(above) = closed.lists(alloc) else {
            return Err(BuildFault::Memory);
        };
        let Ok(looks) = system.lists_looked_at(alloc, above.as_slice()) else {
            return Err(BuildFault::Memory);
        };
        let Ok(places) = places_of_each(alloc, system.components.as_slice()) else {
            return Err(BuildFault::Memory);
        };
        Ok(Model {
            system,
            above,
            looks,
            places,
        })
    }

    /// The interactions above one, in order of their numbers.
    pub fn above(&self, inter: InterId) -> &[InterId]
        requires { inter.0 < length self.now.interactions }
        ensures above { IsListAbove self.now.priorities inter.0 result.now }
        ensures valid { IsSystem self.now }
    {
        self.above.as_slice()[inter.0 as usize].as_slice()
    }

    /// The components that an interaction looks at, in order of their numbers: those that one above
    /// it moves, and it doesn't.
    pub fn looks(&self, inter: InterId) -> &[CompId]
        requires { inter.0 < length self.now.interactions }
        ensures looks { IsListLookedAt self.now inter.0 result.now }
        ensures valid { IsSystem self.now }
    {
        self.looks.as_slice()[inter.0 as usize].as_slice()
    }

    /// Where a component's transitions stand.
    pub(crate) fn places(&self, comp: CompId) -> &[u16]
        requires { comp.0 < length self.now.components }
        ensures { IfSome (slice_get self.now.components comp.0)
            (λ component. ArePlaces component result.now) }
    {
        self.places.as_slice()[comp.0 as usize].as_slice()
    }

    /// Whether an interaction moves a component; false for numbers that the model lacks.
    pub fn moves(&self, inter: InterId, comp: CompId) -> bool
        ensures { result ≡ moves self.now inter.0 comp.0 }
    {
        self.system.moves(inter, comp)
    }

    /// The declared priorities, by low, then high number.
    pub fn priorities(&self) -> &[Pair]
        ensures priorities { result.now ≡ self.now.priorities }
        ensures valid { IsSystem self.now }
    {
        self.system.priorities.as_slice()
    }

    /// Does nothing, and costs nothing: it reminds the prover of what holds of each model.
    #[inline(always)]
    pub fn recall(&self)
        ensures valid { IsSystem self.now }
    {
        let _opened = &self.system;
    }

    /// What the components declare, in order of their numbers.
    pub fn components(&self) -> &[Component]
        ensures components { result.now ≡ self.now.components }
        ensures valid { IsSystem self.now }
    {
        self.system.components.as_slice()
    }

    /// What the interactions declare, in order of their numbers.
    pub fn interactions(&self) -> &[Interaction]
        ensures interactions { result.now ≡ self.now.interactions }
        ensures valid { IsSystem self.now }
    {
        self.system.interactions.as_slice()
    }

    /// The names of the components, in order of their numbers.
    pub fn component_names(&self) -> &[Name]
        ensures names { result.now ≡ self.now.component_names }
        ensures valid { IsSystem self.now }
    {
        self.system.component_names.as_slice()
    }

    /// The names of the interactions, in order of their numbers.
    pub fn interaction_names(&self) -> &[Name]
        ensures names { result.now ≡ self.now.interaction_names }
        ensures valid { IsSystem self.now }
    {
        self.system.interaction_names.as_slice()
    }

    /// The number of the component with this name, if the model has one.
    pub fn component(&self, name: &Name) -> Option<CompId>
        ensures { option_map (λ c. c.0) result
            ≡ position (same_text name.now) self.now.component_names }
    {
        let number = self.system.component_names.number_of(name)?;
        Some(CompId(number as u16))
    }

    /// The number of the interaction with this name, if the model has one.
    pub fn interaction(&self, name: &Name) -> Option<InterId>
        ensures { option_map (λ a. a.0) result
            ≡ position (same_text name.now) self.now.interaction_names }
    {
        let number = self.system.interaction_names.number_of(name)?;
        Some(InterId(number as u16))
    }

    /// The participants of an interaction, each a component with its port, by component.
    pub fn participants(&self, inter: InterId) -> &[(CompId, PortId)]
        requires { inter.0 < length self.now.interactions }
        ensures participants { result.now ≡ participants_of self.now inter.0 }
        ensures rising { IsStrictlyIncreasing (components_in result.now) }
        ensures valid { IsSystem self.now }
    {
        self.interactions()[inter.0 as usize]
            .participants
            .as_slice()
    }
}
