//! What the lines of a model's text have said so far, and what one more line says.
ghost use Rattle.std.specs.Prelude.{◌≡◌, ◌≤◌, ◌==◌, [], false, length, position};
ghost use Rattle.std.specs.Prelude.{IfOk, OnErr};
ghost use Rattle.std.specs.List.{list_any, position_or_len};
ghost use Rattle.bip_model.specs.Drafts.{empty_draft, interaction_of, interaction_over};
ghost use Rattle.bip_model.specs.Drafts.{participant_named, participants_named};
ghost use Rattle.bip_model.specs.Drafts.{with_interaction};
ghost use Rattle.bip_model.specs.Faults.{Answers, new_or_fault};
ghost use Rattle.bip_model.specs.Naming.{is_known};
ghost use Rattle.bip_model.specs.Parts.{IsSystemSoFar, Participant};
ghost use Rattle.bip_model.specs.Priorities.{is_before, is_same_pair};
ghost use Rattle.bip_model.specs.declared.faults.BuildFault.TheVariants.{Memory};
ghost use Rattle.bip_model.specs.declared.parts.TheConstants.{MOST_COMPONENTS};

use crate::looks::takes_part;
use crate::parts::{MOST_COMPONENTS, MOST_INTERACTIONS, MOST_PARTICIPANTS, System};
use crate::scopes::Scope;
use crate::{
    Assignments, BuildFault, CompId, Component, Each, Guard, Interaction, Name, Names, Pair,
    PortId, Seq,
};
use smallvec::SmallVec;
use std::alloc::{AllocError, Global};
use std::marker::Model;

/// What the lines so far have said: all that is declared whole, and the component that is begun and
/// not ended. The name of a begun component is the last of the components' names.
#[derive(Drop)]
pub struct Draft {
    pub system: System,
    pub begun: Option<Component>,
}

/// The participants that a text names, by component, kept in place. Contracts see them as the list.
#[derive(Drop)]
pub(crate) struct Participants {
    participants: SmallVec<(CompId, PortId), 64>,
}

impl Model for Participants {
    ghost use Rattle.std.specs.Prelude.{List};
    ghost use Rattle.bip_model.specs.Parts.{Participant};

    ghost Value = { List Participant };

    ghost view = { λ p. p.participants.items };
}

impl Participants {
    /// The participants, by component.
    pub(crate) fn as_slice(&self) -> &[(CompId, PortId)]
        ensures { result.now ≡ self.now }
    {
        self.participants.as_slice()
    }
}

impl System {
    /// The participant that a text names by its component and one of its ports.
    fn participant(&self, word: &(Name, Name)) -> Result<(CompId, PortId), BuildFault>
        requires { IsSystemSoFar self.now }
        ensures { result ≡ participant_named self.now (word.now.0, word.now.1) }
    {
        let Some(comp) = self.component_names.number_of(&word.0) else {
            return Err(BuildFault::Unknown);
        };
        let Some(component) = self.components.as_slice().get(comp) else {
            return Err(BuildFault::Unknown);
        };
        let Some(port) = component.ports.number_of(&word.1) else {
            return Err(BuildFault::Unknown);
        };
        Ok((CompId(comp as u16), PortId(port as u8)))
    }

    /// The participants that a text names, by component. Takes no memory.
    pub(crate) fn participants(
        &self,
        alloc: Global,
        words: Each<'_, (Name, Name)>,
    ) -> Result<Participants, BuildFault>
        requires { IsSystemSoFar self.now }
        ensures named { result ≡ participants_named self.now [] words.entry }
        ensures few { IfOk result (λ found. length found ≤ MOST_COMPONENTS) }
    {
        let mut found = SmallVec::new(alloc);
        for word in words {
            let participant = self.participant(&word)?;
            if takes_part(found.as_slice(), participant.0) {
                return Err(BuildFault::Twice);
            }
            found.push_reserved(participant);
        }
        found.sort_unstable_by_key(|participant| participant.0.0);
        Ok(Participants {
            participants: found,
        })
    }

    /// The interaction of participants, with the guard and the transfer of which a text names the
    /// variables.
    fn interaction_of(
        &self,
        alloc: Global,
        participants: &[(CompId, PortId)],
        guard: &Guard<'_>,
        transfer: &Assignments<'_>,
    ) -> Result<Interaction, AllocError>
        requires system { IsSystemSoFar self.now }
        requires few { length participants.now ≤ MOST_COMPONENTS }
        ensures { IfOk result (λ interaction. interaction
            ≡ interaction_of self.now participants.now guard.now transfer.now) }
    {
        let scope = Scope::Shared(self, participants);
        Ok(Interaction {
            participants: Seq::of(Vec::from_slice(alloc, participants)?),
            guard: scope.guard(alloc, guard.each())?,
            transfer: scope.assignments(alloc, transfer.each())?,
        })
    }

    fn add_interaction(
        &mut self,
        alloc: Global,
        name: Name,
        participants: &[(CompId, PortId)],
        guard: &Guard<'_>,
        transfer: &Assignments<'_>,
    ) -> Result<(), BuildFault>
        requires known { is_known name self.old.interaction_names ≡ false }
        requires system { IsSystemSoFar self.old }
        requires few { length participants.now ≤ MOST_COMPONENTS }
        ensures said { Answers Memory
            (with_interaction name participants.now guard.now transfer.now self.old)
            (new_or_fault result self.new) }
        ensures err { OnErr result (self.new ≡ self.old) }
    {
        if MOST_INTERACTIONS <= self.interactions.len()
            || MOST_PARTICIPANTS < participants.len()
            || guard.are_long()
            || transfer.are_long()
        {
            return Err(BuildFault::TooMany);
        }
        let Ok(interaction) = self.interaction_of(alloc, participants, guard, transfer) else {
            return Err(BuildFault::Memory);
        };
        if self.interactions.push(interaction).is_err() {
            return Err(BuildFault::Memory);
        }
        if self.interaction_names.push(name).is_err() {
            let _ = self.interactions.pop();
            return Err(BuildFault::Memory);
        }
        Ok(())
    }

    /// Puts an interaction of participants last, of which the names of variables are looked up
    /// among theirs.
    pub(crate) fn add_named_interaction(
        &mut self,
        alloc: Global,
        name: Name,
        participants: &[(CompId, PortId)],
        guard: &Guard<'_>,
        transfer: &Assignments<'_>,
    ) -> Result<(), BuildFault>
        requires known { is_known name self.old.interaction_names ≡ false }
        requires system { IsSystemSoFar self.old }
        requires few { length participants.now ≤ MOST_COMPONENTS }
        ensures said { Answers Memory
            (interaction_over name participants.now guard.now transfer.now self.old)
            (new_or_fault result self.new) }
        ensures err { OnErr result (self.new ≡ self.old) }
    {
        let scope = Scope::Shared(self, participants);
        if !scope.knows_guard(guard.each()) {
            return Err(BuildFault::Unknown);
        }
        match scope.check_transfer(transfer.each()) {
            Err(fault) => Err(fault),
            Ok(()) => self.add_interaction(alloc, name, participants, guard, transfer),
        }
    }
}

pub(crate) fn has_pair(pairs: &[Pair], pair: Pair) -> bool
    ensures { result ≡ list_any (is_same_pair pair) pairs.now }
{
    pairs
        .iter()
        .any(|p| pair.low == p.low && pair.high == p.high)
}

/// The place of the first pair that stands behind one; behind all where there is none.
pub(crate) fn place_for(pairs: &[Pair], pair: Pair) -> usize
    ensures { result ≡ position_or_len (is_before pair) pairs.now }
{
    first_behind(pairs, pair).unwrap_or(pairs.len())
}

fn first_behind(pairs: &[Pair], pair: Pair) -> Option<usize>
    ensures { result ≡ position (is_before pair) pairs.now }
{
    pairs.iter().position(|p| is_before(pair, *p))
}

fn is_before(pair: Pair, other: Pair) -> bool
    ensures { result ≡ is_before pair other }
{
    pair.low.0 < other.low.0 || (pair.low == other.low && pair.high.0 < other.high.0)
}

impl Draft {
    /// Nothing has been said yet.
    pub(crate) fn new(alloc: Global) -> Draft
        ensures { result ≡ empty_draft }
    {
        Draft {
            system: System {
                component_names: Names::new(alloc),
                components: Seq::of(Vec::new(alloc)),
                interaction_names: Names::new(alloc),
                interactions: Seq::of(Vec::new(alloc)),
                priorities: Seq::of(Vec::new(alloc)),
            },
            begun: None,
        }
    }
}
