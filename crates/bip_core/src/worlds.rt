//! The world: a machine of nodes, messages and a bank.
ghost use Rattle.std.specs.Prelude.{◌≡◌, ◌<◌, ◌≤◌, All, IfErr, IfNone, IfOk, IfSome, None};
ghost use Rattle.std.specs.Prelude.{IsFalse, IsTrue, OnErr, Some, length, slice_get};
ghost use Rattle.bip_model.specs.Numbering.{last_number};
ghost use Rattle.bip_model.specs.Grants.{MovesOnceEach};
ghost use Rattle.bip_replay.specs.Runs.{IsModelRun};
ghost use Rattle.bip_bank.specs.Banks.{content_of};
ghost use Rattle.bip_core.specs.Agreement.{Agrees};
ghost use Rattle.bip_core.specs.Events.{CanBeSkipped, HasNoWork, HasWork, IsCounted, IsFullFor};
ghost use Rattle.bip_core.specs.Events.{IsStep};
ghost use Rattle.bip_core.specs.Letters.{CanBeHandedOn, IsLetterOf};
ghost use Rattle.bip_core.specs.Starting.{IsNewWorld, IsUnasked};
ghost use Rattle.bip_core.specs.Worlds.{IsKeptWorld, IsKnownGrant, IsLackingIn, IsNoneOf};
ghost use Rattle.bip_core.specs.Worlds.{world_of};
ghost use Rattle.bip_core.specs.declared.events.Event.TheVariants.{Try};

use crate::machines::Machine;
use crate::outcomes::{Outcome, Witness};
use crate::traces::trace_by;
use crate::{Address, Did, Event, Message, What};
use bip_model::{ClassId, Grant, InterId, Number};
use bip_partition::Plan;
use std::alloc::{AllocError, Global};
use std::marker;

/// The nodes of a plan, the messages in flight between them, and a bank: what events move
/// (docs/PROTOCOL.md, "The world and its events"). Contracts see what is kept.
#[derive(Drop)]
pub struct World<'p, B: bip_bank::Bank> {
    machine: Machine<'p, B>,
}

impl<'p, B: bip_bank::Bank> marker::Model for World<'p, B> {
    ghost use Rattle.bip_core.specs.Agreement.{Agrees};
    ghost use Rattle.bip_core.specs.Worlds.{KeptWorld, world_of};

    ghost Value = { KeptWorld };

    ghost view = { λ w. w.machine };

    ghost invariant = { λ w. Agrees (world_of w.machine) };
}

impl<'p, B: bip_bank::Bank> World<'p, B> {
    /// The world of a plan at the start: each component offers its first move, with the number
    /// above the base, to each class that touches it, and no other message is in flight. The base
    /// is below 2^64 - 1. The bank is one of that plan and base, without grants or open requests;
    /// its stations lack what they lacked.
    pub fn new(
        alloc: Global,
        plan: &'p Plan,
        bank: B,
        base: Number,
    ) -> Result<World<'p, B>, AllocError>
    where
        B: Drop,
        requires base { base < last_number }
        requires unasked { IsUnasked plan.now base (content_of (B.kept bank)) }
        ensures new { IfOk result (λ world. IsNewWorld plan.now base (world_of world)) }
        ensures sharing { IfOk result (λ world. (world_of world).bank.sharing
            ≡ (B.kept bank).sharing) }
        ensures agrees { IfOk result (λ world. Agrees (world_of world)) }
    {
        plan.recall();
        let machine = Machine::new(alloc, plan, bank, base)?;
        Ok(World { machine })
    }

    /// Does one event: the node that it addresses acts, and its grant joins the trace; what it
    /// sends is put last. Want of memory skips a submission, a try that asks for a local
    /// interaction or a step of the bank, and then the world stays as it was; where the world
    /// itself has room for one grant more it skips no try, and a step that serves a station only
    /// where the bank can want it. Of what any event sends, messages can be lost.
    pub fn step(&mut self, event: Event) -> Result<Did, AllocError>
        ensures step { IfOk result (λ did. IsStep (world_of self.old) event did
            (world_of self.new)) }
        ensures skipped { IfErr result (λ e. CanBeSkipped (world_of self.old) event) }
        ensures full { IfErr result (λ e. IsFullFor self.old event) }
        ensures err { OnErr result (world_of self.new ≡ world_of self.old) }
        ensures agrees { Agrees (world_of self.new) }
    {
        let mut what = What::Nothing;
        let outcome = self.step_before(event, &mut what)?;
        Ok(Did {
            what,
            lost: outcome.lost,
        })
    }

    /// Does one event as `step` does, before a witness, and says what it comes to.
    pub(crate) fn step_before<W: Witness>(
        &mut self,
        event: Event,
        witness: &mut W,
    ) -> Result<Outcome, AllocError>
        ensures counted { IfOk result (λ outcome. IsCounted (λ what. W.saw what witness.new)
            (world_of self.old) event outcome (world_of self.new)) }
        ensures skipped { IfErr result (λ e. CanBeSkipped (world_of self.old) event) }
        ensures full { IfErr result (λ e. IsFullFor self.old event) }
        ensures err { OnErr result (world_of self.new ≡ world_of self.old) }
        ensures agrees { Agrees (world_of self.new) }
    {
        self.machine.step(event, witness)
    }

    /// Does nothing, and costs nothing: it reminds the prover of what holds of each world. There is
    /// a node of each component and class of its plan; what is in flight is accepted by those for
    /// whom it is; open requests fit the plan, and grants are of its model; and the world agrees
    /// with its trace, which is a run.
    #[inline(always)]
    pub fn recall(&self)
        ensures kept { IsKeptWorld self.now }
        ensures run { IsModelRun self.now.plan.model (world_of self.now).bank.base self.now.trace }
        ensures once { MovesOnceEach self.now.trace }
        ensures agrees { Agrees (world_of self.now) }
    {
        self.machine.recall();
        let _trace = self.trace();
    }

    /// The plan that the world is of.
    pub fn plan(&self) -> &'p Plan
        ensures { result.now ≡ self.now.plan }
    {
        self.machine.plan
    }

    /// The grants, in order. Each is of an interaction and of components of the plan's model.
    pub fn trace(&self) -> &[Grant]
        ensures trace { result.now ≡ self.now.trace }
        ensures known { All (IsKnownGrant self.now.plan.model) result.now }
        ensures run { IsModelRun self.now.plan.model (world_of self.now).bank.base result.now }
        ensures once { MovesOnceEach result.now }
        ensures agrees { Agrees (world_of self.now) }
    {
        self.machine.recall();
        trace_by(&self.machine.own, self.machine.bank.grants())
    }

    /// How many messages are in flight.
    pub fn mails(&self) -> usize
        ensures { result ≡ length self.now.mail }
    {
        self.machine.mail.len()
    }

    /// For whom the message at a place among those in flight is, in order of sending from 0, and
    /// its frame, lent; none where there are no more than so many. Each message in flight is
    /// accepted by its addressee.
    pub fn mail(&self, place: usize) -> Option<(Address, &[u8])>
        ensures some { IfSome result (λ letter. (m : Message)
            × (slice_get self.now.mail place ≡ Some m) × IsLetterOf m letter.0 letter.1.now) }
        ensures none { IfNone result (length self.now.mail ≤ place) }
        ensures accepted { All (CanBeHandedOn self.now.plan) self.now.mail }
    {
        self.machine.recall();
        if place >= self.machine.mail.len() {
            return None;
        }
        let letter = self.machine.mail.get(place);
        Some((letter.to(), letter.frame()))
    }

    /// That message, read off its frame.
    pub fn message(&self, place: usize) -> Option<Message>
        ensures { result ≡ slice_get self.now.mail place }
    {
        if place >= self.machine.mail.len() {
            return None;
        }
        Some(self.machine.mail.get(place).message())
    }

    /// Whether an event has something to do here: its message is in flight, its try would be
    /// granted at once or ask for the interaction, or its step of the bank would decide or move
    /// something. Only want of memory, or of a serial, can leave such an event with nothing done
    /// (docs/PROTOCOL.md, "The world and its events").
    pub fn has_work(&self, event: Event) -> bool
        ensures work { IsTrue result → HasWork (world_of self.now) event }
        ensures none { IsFalse result → HasNoWork (world_of self.now) event }
    {
        match event {
            Event::Mail(place) => place < self.mails(),
            Event::Try(class, inter) => self.can_try(class, inter),
            Event::Bank(step) => self.machine.bank.why_idle(step).is_none(),
        }
    }

    /// Whether a class that there is could do something with a try of an interaction.
    fn can_try(&self, class: ClassId, inter: InterId) -> bool
        ensures work { IsTrue result → HasWork (world_of self.now) (Try class inter) }
        ensures none { IsFalse result → HasNoWork (world_of self.now) (Try class inter) }
    {
        match self.machine.classes.get(class.0 as usize) {
            Some(node) => node.can_try(inter),
            None => false,
        }
    }

    /// The interaction above another for whose sake that one isn't ready in its class, by the
    /// offers that the class holds: a component of it has none that counts (docs/PROTOCOL.md,
    /// "Verdicts"). None where it is ready, or isn't for another reason; where the interaction
    /// isn't of the class; and where there is no such class.
    pub fn lacking_above(&self, class: ClassId, inter: InterId) -> Option<InterId>
        ensures above { IsLackingIn (world_of self.now) class.0 inter.0 result }
        ensures none { IsNoneOf (world_of self.now) class.0 inter.0 → result ≡ None }
    {
        if class.0 as usize >= self.machine.classes.len() {
            return None;
        }
        self.machine.classes[class.0 as usize].lacking_above(inter)
    }

    /// The bank, which no event hands out.
    pub fn bank(&self) -> &B
        ensures { B.kept result.now ≡ self.now.bank }
    {
        &self.machine.bank
    }
}
