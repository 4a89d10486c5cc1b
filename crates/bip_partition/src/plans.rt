//! Plans, and the questions that they answer without memory.
ghost use Rattle.std.specs.Prelude.{◌≡◌, ◌<◌, ◌≤◌, ◌↔◌, ℕ, IfErr, IfNone, IfOk, IfSome, IsTrue};
ghost use Rattle.std.specs.Prelude.{OnOk, length};
ghost use Rattle.bip_model.specs.Partitions.{AreClassesOf, IsClasses, class_in};
ghost use Rattle.bip_model.specs.Parts.{IsSystem};
ghost use Rattle.bip_model.specs.Steps.{IsListLookedAt, moves, participants_of};
ghost use Rattle.bip_partition.specs.Faults.{IsLowestTooMany, IsPlanFault};
ghost use Rattle.bip_partition.specs.Laws.{IsPlanned};
ghost use Rattle.bip_partition.specs.Plans.{AreStations, ClassTouches, InConflict, IsCountTabled};
ghost use Rattle.bip_partition.specs.Plans.{IsFit, IsListTouched, IsListTouching, IsReserved};
ghost use Rattle.bip_partition.specs.Plans.{IsTabled, Planned, StandsAt, TouchesTooMany};
ghost use Rattle.bip_partition.specs.Tables.{IsCountTouched, IsFootprint};

use crate::PlanFault;
use crate::footprints::Footprint;
use crate::reasons::are_explained;
use crate::sets::{has_comp, overlap};
use crate::tables::{Tables, touches};
use bip_model::{ClassId, Classes, CompId, InterId, MOST_WANTS, Model, PortId, Request};
use std::alloc::Global;
use std::marker;

/// The plan of a model whose interactions are parted into classes: what each interaction and each
/// class touches, which components have a row in the table, which interactions are reserved, and
/// which are in conflict (docs/PROTOCOL.md, "Plans"). Contracts see it as the model with its
/// classes.
#[derive(Drop)]
pub struct Plan {
    model: Model,
    classes: Classes,
    tables: Tables,
}

impl marker::Model for Plan {
    ghost use Rattle.bip_partition.specs.Plans.{Planned};
    ghost use Rattle.bip_partition.specs.Tables.{IsPlan};

    ghost Value = { Planned };

    ghost view = { λ p. record { model = p.model; classes = p.classes } };

    ghost invariant = { λ p. IsPlan (record { model = p.model; classes = p.classes }) p.tables };
}

impl Plan {
    /// The plan of a model with its classes. TooManyTouched: this interaction, the lowest such,
    /// touches more components than a grant can want; Memory only where none does.
    pub fn of(alloc: Global, model: Model, classes: Classes) -> Result<Plan, PlanFault>
        requires { AreClassesOf model classes }
        ensures plan { IfOk result (λ plan. plan ≡ record { model = model; classes = classes }) }
        ensures few { OnOk result ((a : ℕ) → ¬ TouchesTooMany model a) }
        ensures fault { IfErr result (IsPlanFault model) }
    {
        if let Some(inter) = first_touching_too_many(&model) {
            drop(classes);
            drop(model);
            return Err(PlanFault::TooManyTouched(inter));
        }
        let _parted = classes.len();
        match Tables::of(alloc, &model, &classes) {
            Ok(tables) => Ok(Plan {
                model,
                classes,
                tables,
            }),
            Err(_) => {
                drop(classes);
                drop(model);
                Err(PlanFault::Memory)
            }
        }
    }

    /// The model.
    pub fn model(&self) -> &Model
        ensures { result.now ≡ self.now.model }
    {
        &self.model
    }

    /// Does nothing, and costs nothing: it reminds the prover of what holds of each plan.
    #[inline(always)]
    pub fn recall(&self)
        ensures planned { IsPlanned self.now }
        ensures valid { IsSystem self.now.model }
    {
        let _opened = &self.classes;
    }

    /// The classes of its interactions.
    pub fn classes(&self) -> &Classes
        ensures classes { result.now ≡ self.now.classes }
        ensures of_model { AreClassesOf self.now.model self.now.classes }
        ensures planned { IsPlanned self.now }
    {
        &self.classes
    }

    /// What an interaction moves: its participants, each a component with its port, by component.
    pub fn moves(&self, inter: InterId) -> &[(CompId, PortId)]
        requires { inter.0 < length self.now.model.interactions }
        ensures { result.now ≡ participants_of self.now.model inter.0 }
    {
        self.model.participants(inter)
    }

    /// The components that an interaction looks at, in order of their numbers.
    pub fn looks(&self, inter: InterId) -> &[CompId]
        requires { inter.0 < length self.now.model.interactions }
        ensures { IsListLookedAt self.now.model inter.0 result.now }
    {
        self.model.looks(inter)
    }

    /// The components that an interaction touches, in order of their numbers.
    pub fn touches(&self, inter: InterId) -> &[CompId]
        requires { inter.0 < length self.now.model.interactions }
        ensures touches { IsListTouched self.now.model inter.0 result.now }
        ensures few { length result.now ≤ 32 }
    {
        self.tables.touches.as_slice()[inter.0 as usize].as_slice()
    }

    /// The class in which an interaction stands.
    pub fn class_of(&self, inter: InterId) -> ClassId
        requires { inter.0 < length self.now.model.interactions }
        ensures { result.0 ≡ class_in self.now.classes inter.0 }
    {
        self.tables.footprints.as_slice()[inter.0 as usize].class
    }

    /// The place of an interaction among the members of its class, which are in order of number.
    pub fn place_of(&self, inter: InterId) -> usize
        requires { inter.0 < length self.now.model.interactions }
        ensures { StandsAt self.now inter.0 result }
    {
        self.tables.footprints.as_slice()[inter.0 as usize].place
    }

    /// The classes that touch a component, in order of their numbers.
    pub fn classes_of(&self, comp: CompId) -> &[ClassId]
        requires { comp.0 < length self.now.model.components }
        ensures { IsListTouching self.now comp.0 result.now }
    {
        self.tables.touching.as_slice()[comp.0 as usize].as_slice()
    }

    /// Whether a class touches a component; false for numbers that the plan lacks.
    pub fn class_touches(&self, class: ClassId, comp: CompId) -> bool
        ensures touches { IsTrue result ↔ ClassTouches self.now class.0 comp.0 }
        ensures known { IsTrue result → comp.0 < length self.now.model.components }
    {
        if self.model.components().len() <= comp.0 as usize {
            return false;
        }
        match self.tables.class_sets.as_slice().get(class.0 as usize) {
            Some(set) => has_comp(*set, comp),
            None => false,
        }
    }

    /// Whether a component has a row in the table; false for a number that the model lacks.
    pub fn tabled(&self, comp: CompId) -> bool
        ensures { IsTrue result ↔ IsTabled self.now comp.0 }
    {
        if self.model.components().len() <= comp.0 as usize {
            return false;
        }
        has_comp(self.tables.tabled, comp)
    }

    /// How many components have a row in the table.
    pub fn count_tabled(&self) -> usize
        ensures { IsCountTabled self.now result }
    {
        let mut count = 0;
        for number in 0..self.model.components().len() {
            if self.tabled(CompId(number as u16)) {
                count += 1;
            }
        }
        count
    }

    /// Whether an interaction is reserved; false for a number that the model lacks.
    pub fn reserved(&self, inter: InterId) -> bool
        ensures reserved { IsTrue result ↔ IsReserved self.now inter.0 }
        ensures valid { IsSystem self.now.model }
    {
        match self.footprint(inter) {
            Some(one) => overlap(one.touched, self.tables.tabled),
            None => false,
        }
    }

    /// The reserved interactions, in order of their numbers: station s decides for the one at place
    /// s.
    pub fn stations(&self) -> &[InterId]
        ensures { AreStations self.now result.now }
    {
        self.tables.stations.as_slice()
    }

    /// Whether two interactions are in conflict; false for numbers that the model lacks.
    pub fn conflict(&self, inter: InterId, other: InterId) -> bool
        ensures { IsTrue result ↔ InConflict self.now.model inter.0 other.0 }
    {
        let Some(one) = self.footprint(inter) else {
            return false;
        };
        let Some(two) = self.footprint(other) else {
            return false;
        };
        overlap(one.touched, two.moved) || overlap(one.moved, two.touched)
    }

    /// Whether a request fits: its interaction is reserved, and of its class; it wants what that
    /// one moves, and sees none but what it looks at; and it sees all of that, or has for each
    /// interaction above its own a reason, and for no other, whose components are participants of
    /// that one, and wanted.
    pub fn fits(&self, request: &Request) -> bool
        ensures { IsTrue result ↔ IsFit self.now request.now }
    {
        let inter = request.inter;
        if !self.reserved(inter) || self.class_of(inter) != request.class {
            return false;
        }
        let wants = request.wants.as_slice();
        self.model.are_parties(inter, wants)
            && are_explained(&self.model, inter, wants, &request.reasons)
    }
}

impl Plan {
    /// What is kept of an interaction; none for a number that the model lacks.
    fn footprint(&self, inter: InterId) -> Option<&Footprint>
        ensures some { IfSome result (λ f. IsFootprint self.now inter.0 f.now) }
        ensures none { IfNone result (length self.now.model.interactions ≤ inter.0) }
        ensures valid { IsSystem self.now.model }
    {
        self.tables.footprints.as_slice().get(inter.0 as usize)
    }
}

/// The lowest interaction that touches more components than a grant can want: why a model has no
/// plan, which can be asked before one is made.
pub fn first_touching_too_many(model: &Model) -> Option<InterId>
    ensures some { IfSome result (λ a. IsLowestTooMany model.now a.0) }
    ensures none { IfNone result ((a : ℕ) → ¬ TouchesTooMany model.now a) }
    ensures valid { IsSystem model.now }
{
    for number in 0..model.interactions().len() {
        let inter = InterId(number as u16);
        if touches_too_many(model, inter) {
            return Some(inter);
        }
    }
    None
}

fn touches_too_many(model: &Model, inter: InterId) -> bool
    ensures { IsTrue result ↔ TouchesTooMany model.now inter.0 }
{
    MOST_WANTS < count_touched(model, inter)
}

/// How many components an interaction touches.
fn count_touched(model: &Model, inter: InterId) -> usize
    ensures { IsCountTouched model.now inter.0 result }
{
    let mut count = 0;
    for number in 0..model.components().len() {
        if touches(model, inter, CompId(number as u16)) {
            count += 1;
        }
    }
    count
}
