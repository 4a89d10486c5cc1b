//! What interactions look at: the components of those above them that they don't move.
ghost use Rattle.std.specs.Prelude.{◌≡◌, ◌==◌, ◌<◌, ◌&&◌, not, length, IfOk};
ghost use Rattle.std.specs.List.{list_any};
ghost use Rattle.bip_model.specs.Parts.{IsSystemSoFar, Participant};
ghost use Rattle.bip_model.specs.Priorities.{AreListsAbove, IsListAbove};
ghost use Rattle.bip_model.specs.Steps.{AreListsLookedAt, IsListLookedAt, comps_looked_at};
ghost use Rattle.bip_model.specs.Steps.{looks_at, moves};
ghost use Rattle.bip_model.specs.declared.numbering.InterId.{InterId};

use crate::parts::System;
use crate::{CompId, InterId, PortId, Seq};
use std::alloc::{AllocError, Global};

impl System {
    /// For each interaction in turn the components that it looks at, in order of their numbers,
    /// where those above it are listed.
    pub(crate) fn lists_looked_at(
        &self,
        alloc: Global,
        above: &[Seq<InterId>],
    ) -> Result<Seq<Seq<CompId>>, AllocError>
        requires system { IsSystemSoFar self.now }
        requires above { AreListsAbove self.now.priorities (length self.now.interactions)
            above.now }
        ensures { IfOk result (λ lists.
            AreListsLookedAt self.now (length self.now.interactions) lists) }
    {
        let mut lists = Seq::of(Vec::new(alloc));
        for number in 0..self.interactions.len() {
            let inter = InterId(number as u16);
            let list = self.list_looked_at(alloc, inter, above[number].as_slice())?;
            lists.push(Seq::of(list))?;
        }
        Ok(lists)
    }

    fn list_looked_at(
        &self,
        alloc: Global,
        inter: InterId,
        above: &[InterId],
    ) -> Result<Vec<CompId>, AllocError>
        requires system { IsSystemSoFar self.now }
        requires above { IsListAbove self.now.priorities inter.0 above.now }
        ensures { IfOk result (λ list. IsListLookedAt self.now inter.0 list.items) }
    {
        self.comps_looked_at(alloc, self.components.len() as u16, inter, above)
    }

    /// Of so many components those that an interaction looks at, in order of their numbers.
    fn comps_looked_at(
        &self,
        alloc: Global,
        count: u16,
        inter: InterId,
        above: &[InterId],
    ) -> Result<Vec<CompId>, AllocError>
        ensures { IfOk result (λ v. v.items
            ≡ comps_looked_at self.now inter.0 above.now count) }
    {
        (0..count)
            .map(|number| CompId(number))
            .filter(|comp| self.looks_at(inter, above, *comp))
            .collect(alloc)
    }

    /// Whether an interaction doesn't move a component, and one of those above it does.
    fn looks_at(&self, inter: InterId, above: &[InterId], comp: CompId) -> bool
        ensures { result ≡ looks_at self.now inter.0 above.now comp.0 }
    {
        !self.moves(inter, comp) && self.move_any(above, comp)
    }

    fn move_any(&self, inters: &[InterId], comp: CompId) -> bool
        ensures { result ≡ list_any (λ (a : InterId). moves self.now a.0 comp.0) inters.now }
    {
        inters.iter().any(|inter| self.moves(*inter, comp))
    }

    /// Whether an interaction moves a component; false for numbers that the system lacks.
    pub(crate) fn moves(&self, inter: InterId, comp: CompId) -> bool
        ensures { result ≡ moves self.now inter.0 comp.0 }
    {
        match self.interactions.as_slice().get(inter.0 as usize) {
            None => false,
            Some(interaction) => takes_part(interaction.participants.as_slice(), comp),
        }
    }
}

/// Whether a component is a participant's.
pub(crate) fn takes_part(participants: &[(CompId, PortId)], comp: CompId) -> bool
    ensures { result ≡ list_any (λ (q : Participant). q.0.0 == comp.0) participants.now }
{
    participants.iter().any(|q| q.0 == comp)
}
