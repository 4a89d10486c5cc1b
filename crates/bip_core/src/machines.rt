//! The machine below the world: all its parts, and its events.
ghost use Rattle.std.specs.Prelude.{◌≡◌, ◌<◌, ◌≤◌, ◌⊎◌, All, IfErr, IfNone, IfOk, IfSome, OnErr};
ghost use Rattle.std.specs.Prelude.{OnOk, None, Some, false, length, slice_get, true, vec_capacity};
ghost use Rattle.std.specs.Prelude.{[], vec_len};
ghost use Rattle.bip_model.specs.declared.messages.Request.{Request};
ghost use Rattle.bip_model.specs.Numbering.{last_number};
ghost use Rattle.bip_model.specs.Parts.{IsSystem};
ghost use Rattle.bip_partition.specs.Plans.{IsFit, IsReserved};
ghost use Rattle.bip_bank.specs.Banks.{content_of, with_request};
ghost use Rattle.bip_ip.specs.Nodes.{CanBeAsked, KeptNode, node_of};
ghost use Rattle.bip_core.specs.Events.{CanBeSkipped, IsCounted, IsFullFor, IsTakenIn, TakesOut};
ghost use Rattle.bip_core.specs.Letters.{CanBeHandedOn, IsLetterOf, IsNumberedRequest};
ghost use Rattle.bip_core.specs.Letters.{address_of};
ghost use Rattle.bip_core.specs.declared.accepting.Address.TheVariants.{Layer};
ghost use Rattle.bip_frame.specs.Views.{notify_shown, offer_shown, reply_class, reply_shown};
ghost use Rattle.bip_core.specs.Starting.{IsNewWorld, IsUnasked};
ghost use Rattle.bip_core.specs.Worlds.{IsKeptWorld, IsKnownGrant, IsLackingIn, IsNoneOf};
ghost use Rattle.bip_core.specs.Worlds.{world_of};
ghost use Rattle.bip_core.specs.declared.events.Event.TheVariants.{Bank, Mail, Try};
ghost use Rattle.bip_core.specs.declared.events.What.TheVariants.{Submits};
ghost use Rattle.bip_core.specs.declared.messages.Message.{Message};
ghost use Rattle.bip_core.specs.declared.messages.Message.TheVariants.{NotifyComponent, OfferTo};
ghost use Rattle.bip_core.specs.declared.messages.Message.TheVariants.{ReplyToClass};
ghost use Rattle.bip_core.specs.declared.messages.Message.TheVariants.{RequestToBank};
ghost use Rattle.bip_core.specs.declared.outcomes.Effect.TheVariants.{Done};

use crate::letters::Letter;
use crate::mailbags::Mailbag;
use crate::messages::Message;
use crate::outcomes::{Effect, Outcome, Witness};
use crate::sending::{send_acted, send_moved, send_told, send_tried};
use crate::starting::{first_classes, first_components, first_offers};
use crate::traces::{join_acted, join_tried, make_room, make_room_to_serve, trace_by};
use crate::{Address, Event, What, accept};
use bip_bank::BankStep;
use bip_component::SrComponent;
use bip_frame::{Frame, NotifyFrame, OfferFrame, ReplyFrame};
use bip_ip::IpNode;
use bip_model::{ClassId, Grant, InterId, Number, Request};
use bip_partition::Plan;
use std::alloc::{AllocError, Global};
use std::marker;

/// All nodes of a plan, the messages in flight between them, and a bank.
#[derive(Drop)]
pub(crate) struct Machine<'p, B: bip_bank::Bank> {
    pub plan: &'p Plan,
    components: Vec<SrComponent<'p>>,
    pub classes: Vec<IpNode<'p>>,
    pub mail: Mailbag,
    /// All grants, from the first local one on. Before, it has none, and the bank's list has all.
    pub own: Vec<Grant>,
    pub bank: B,
}

impl<'p, B: bip_bank::Bank> marker::Model for Machine<'p, B> {
    ghost use Rattle.std.specs.Prelude.{vec_capacity};
    ghost use Rattle.bip_bank.specs.Banks.{content_of};
    ghost use Rattle.bip_core.specs.Traces.{trace_by};
    ghost use Rattle.bip_core.specs.Worlds.{IsKeptWorld, KeptWorld};

    ghost Value = { KeptWorld };

    ghost view = { λ m. record {
      plan = m.plan.now;
      components = m.components.items;
      classes = m.classes.items;
      mail = m.mail;
      trace = trace_by m.own.items (content_of (B.kept m.bank)).grants;
      bank = B.kept m.bank;
      room = vec_capacity m.own;
    } };

    ghost invariant = { λ m. IsKeptWorld (record {
      plan = m.plan.now;
      components = m.components.items;
      classes = m.classes.items;
      mail = m.mail;
      trace = trace_by m.own.items (content_of (B.kept m.bank)).grants;
      bank = B.kept m.bank;
      room = vec_capacity m.own;
    }) };
}

impl<'p, B: bip_bank::Bank> Machine<'p, B> {
    /// The machine of a plan at the start, with a bank that was asked nothing.
    pub fn new(
        alloc: Global,
        plan: &'p Plan,
        bank: B,
        base: Number,
    ) -> Result<Machine<'p, B>, AllocError>
    where
        B: Drop,
        requires base { base < last_number }
        requires unasked { IsUnasked plan.now base (content_of (B.kept bank)) }
        ensures new { IfOk result (λ machine. IsNewWorld plan.now base (world_of machine)) }
        ensures sharing { IfOk result (λ machine. (world_of machine).bank.sharing
            ≡ (B.kept bank).sharing) }
    {
        recall_unused(&bank);
        let components = first_components(alloc, plan, base)?;
        let classes = first_classes(alloc, plan, base)?;
        let mail = first_offers(alloc, plan, base, &components)?;
        Ok(Machine {
            plan,
            components,
            classes,
            mail,
            own: Vec::new(alloc),
            bank,
        })
    }

    /// Does nothing, and costs nothing: it reminds the prover of what is kept.
    #[inline(always)]
    pub fn recall(&self)
        ensures { IsKeptWorld self.now }
    {
        let _opened = &self.plan;
    }

    /// Hands an offer on to a class.
    fn hear<W: Witness>(
        &mut self,
        class: ClassId,
        offer: &OfferFrame<'_>,
        witness: &mut W,
    ) -> Outcome
        requires within { class.0 < length self.old.classes }
        ensures { IsTakenIn (λ what. W.saw what witness.new) (world_of self.old)
            (OfferTo class (offer_shown offer.now)) result (world_of self.new) }
    {
        let receipt = self.classes[class.0 as usize].on_offer_frame(offer);
        witness.see(What::Hears(receipt));
        Outcome::of(Effect::Done)
    }

    /// Hands a reply on to the class that it names.
    fn learn<W: Witness>(&mut self, reply: &ReplyFrame<'_>, witness: &mut W) -> Outcome
        requires within { (reply_class (reply_shown reply.now)).0 < length self.old.classes }
        ensures { IsTakenIn (λ what. W.saw what witness.new) (world_of self.old)
            (ReplyToClass (reply_shown reply.now)) result (world_of self.new) }
    {
        self.plan.recall();
        let class = reply.class();
        let did = self.classes[class.0 as usize].on_reply_frame(reply);
        let outcome = send_told(self.plan, &mut self.mail, &did);
        witness.see(What::Learns(did));
        outcome
    }

    /// Hands a notification on to its component.
    fn move_by<W: Witness>(&mut self, notify: &NotifyFrame<'_>, witness: &mut W) -> Outcome
        requires within { (notify_shown notify.now).comp.0 < length self.old.components }
        ensures { IsTakenIn (λ what. W.saw what witness.new) (world_of self.old)
            (NotifyComponent (notify_shown notify.now)) result (world_of self.new) }
    {
        self.plan.recall();
        let comp = notify.comp();
        let did = self.components[comp.0 as usize].on_notify_frame(notify);
        let outcome = send_moved(self.plan, &mut self.mail, &did);
        witness.see(What::Moves(did));
        outcome
    }

    /// Lets a class try an interaction. Most tries ask for nothing, and cost no more than to see
    /// why.
    fn try_one<W: Witness>(
        &mut self,
        class: ClassId,
        inter: InterId,
        witness: &mut W,
    ) -> Result<Outcome, AllocError>
        ensures counted { IfOk result (λ outcome. IsCounted (λ what. W.saw what witness.new)
            (world_of self.old) (Try class inter) outcome (world_of self.new)) }
        ensures skipped { IfErr result (λ e. CanBeSkipped (world_of self.old) (Try class inter)) }
        ensures full { IfErr result (λ e. IsFullFor self.old (Try class inter)) }
        ensures err { OnErr result (self.new ≡ self.old) }
    {
        if class.0 as usize >= self.classes.len() {
            witness.see(What::Nothing);
            return Ok(Outcome::of(Effect::Idle));
        }
        if let Some(why) = self.classes[class.0 as usize].why_not(inter) {
            witness.see_why_not(why);
            return Ok(Outcome::of(Effect::Idle));
        }
        self.ask_one(class, inter, witness)
    }

    /// Lets a class ask for an interaction that can be asked for. A local grant joins the trace,
    /// which is a list of the world's own from then on; room for it is made first. This call is
    /// never inlined: what it keeps in place is some 2,000 bytes, which are cleared where it
    /// begins.
    #[inline(never)]
    fn ask_one<W: Witness>(
        &mut self,
        class: ClassId,
        inter: InterId,
        witness: &mut W,
    ) -> Result<Outcome, AllocError>
        requires within { class.0 < length self.old.classes }
        requires asked { (node : KeptNode) → slice_get self.old.classes class.0 ≡ Some node
            → CanBeAsked (node_of node) inter.0 }
        ensures counted { IfOk result (λ outcome. IsCounted (λ what. W.saw what witness.new)
            (world_of self.old) (Try class inter) outcome (world_of self.new)) }
        ensures skipped { IfErr result (λ e. CanBeSkipped (world_of self.old) (Try class inter)) }
        ensures full { IfErr result (λ e. IsFullFor self.old (Try class inter)) }
        ensures err { OnErr result (self.new ≡ self.old) }
    {
        self.plan.recall();
        make_room(self.plan, &mut self.own, self.bank.grants(), inter)?;
        let did = self.classes[class.0 as usize].ask(inter);
        join_tried(&mut self.own, self.bank.grants(), &did);
        let outcome = send_tried(self.plan, &mut self.mail, &did);
        witness.see(What::Tries(did));
        Ok(outcome)
    }

    /// Lets the bank do a step. A grant joins the bank's list, and the trace thereby, or else the
    /// list of the world's own, for which room is made first, where the step serves a station: no
    /// other one grants.
    fn act<W: Witness>(&mut self, step: BankStep, witness: &mut W) -> Result<Outcome, AllocError>
        ensures counted { IfOk result (λ outcome. IsCounted (λ what. W.saw what witness.new)
            (world_of self.old) (Bank step) outcome (world_of self.new)) }
        ensures skipped { IfErr result (λ e. CanBeSkipped (world_of self.old) (Bank step)) }
        ensures full { IfErr result (λ e. IsFullFor self.old (Bank step)) }
        ensures err { OnErr result (world_of self.new ≡ world_of self.old) }
    {
        self.plan.recall();
        let granted = self.bank.grants().len();
        make_room_to_serve(&mut self.own, granted, step)?;
        let did = self.bank.act(step)?;
        join_acted(&mut self.own, granted, &did);
        let outcome = send_acted(self.plan, &mut self.mail, &did);
        witness.see(What::Acts(did));
        Ok(outcome)
    }

    /// Hands the message at a place on to the node for which it is, and takes it out.
    fn deliver<W: Witness>(&mut self, place: usize, witness: &mut W) -> Result<Outcome, AllocError>
        ensures counted { IfOk result (λ outcome. IsCounted (λ what. W.saw what witness.new)
            (world_of self.old) (Mail place) outcome (world_of self.new)) }
        ensures skipped { IfErr result (λ e. CanBeSkipped (world_of self.old) (Mail place)) }
        ensures err { OnErr result (world_of self.new ≡ world_of self.old) }
    {
        if place >= self.mail.len() {
            witness.see(What::Nothing);
            return Ok(Outcome::of(Effect::Idle));
        }
        match self.address_at(place) {
            Address::Layer => self.submit_at(place, witness),
            _ => Ok(self.hand_on(place, witness)),
        }
    }

    /// For whom the message at a place is.
    fn address_at(&self, place: usize) -> Address
        requires { place < length self.now.mail }
        ensures { (m : Message) → slice_get self.now.mail place ≡ Some m → result ≡ address_of m }
    {
        self.mail.get(place).to()
    }

    /// Hands the message at a place, which isn't for the bank, on to its node, and takes it out.
    fn hand_on<W: Witness>(&mut self, place: usize, witness: &mut W) -> Outcome
        requires within { place < length self.old.mail }
        requires other { (m : Message) → slice_get self.old.mail place ≡ Some m
            → ¬ (Layer ≡ address_of m) }
        ensures { IsCounted (λ what. W.saw what witness.new) (world_of self.old) (Mail place) result
            (world_of self.new) }
    {
        let letter = self.take_out(place);
        self.take_in(&letter, witness)
    }

    /// Hands a message that isn't for the bank on to its node, which reads it where it lies.
    fn take_in<W: Witness>(&mut self, letter: &Letter, witness: &mut W) -> Outcome
        requires accepted { CanBeHandedOn self.old.plan letter.now }
        requires other { ¬ (Layer ≡ address_of letter.now) }
        ensures { IsTakenIn (λ what. W.saw what witness.new) (world_of self.old) letter.now result
            (world_of self.new) }
    {
        match accept(self.plan, letter.to(), letter.frame()) {
            Ok(Frame::Offer(offer)) => self.hear(letter.class(), &offer, witness),
            Ok(Frame::Reply(reply)) => self.learn(&reply, witness),
            Ok(Frame::Notify(notify)) => self.move_by(&notify, witness),
            Ok(Frame::Reserve(_)) => unreachable!(),
            Err(_) => unreachable!(),
        }
    }

    /// Hands the request at a place on to the bank, and takes it out then.
    fn submit_at<W: Witness>(
        &mut self,
        place: usize,
        witness: &mut W,
    ) -> Result<Outcome, AllocError>
        requires within { place < length self.old.mail }
        requires request { (m : Message) → slice_get self.old.mail place ≡ Some m
            → Layer ≡ address_of m }
        ensures counted { IfOk result (λ outcome. IsCounted (λ what. W.saw what witness.new)
            (world_of self.old) (Mail place) outcome (world_of self.new)) }
        ensures skipped { IfErr result (λ e. CanBeSkipped (world_of self.old) (Mail place)) }
        ensures err { OnErr result (world_of self.new ≡ world_of self.old) }
    {
        let request = self.request_at(place);
        self.submit(request)?;
        let _request = self.take_out(place);
        Ok(let_go(witness))
    }

    /// The request that is the message at a place.
    fn request_at(&self, place: usize) -> Request
        requires within { place < length self.now.mail }
        requires request { (m : Message) → slice_get self.now.mail place ≡ Some m
            → Layer ≡ address_of m }
        ensures here { slice_get self.now.mail place ≡ Some (RequestToBank result) }
        ensures fits { IsNumberedRequest self.now.plan result }
    {
        let letter = self.mail.get(place);
        match accept(self.plan, letter.to(), letter.frame()) {
            Ok(Frame::Reserve(request)) => request.value(),
            Ok(Frame::Offer(_)) => unreachable!(),
            Ok(Frame::Reply(_)) => unreachable!(),
            Ok(Frame::Notify(_)) => unreachable!(),
            Err(_) => unreachable!(),
        }
    }

    /// Takes the message at a place out.
    fn take_out(&mut self, place: usize) -> Letter
        requires { place < length self.old.mail }
        ensures message { slice_get self.old.mail place ≡ Some result }
        ensures accepted { CanBeHandedOn self.old.plan result }
        ensures taken { TakesOut place result self.old.mail self.new.mail }
        ensures others { self.new ≡ record self.old { mail = self.new.mail } }
    {
        self.mail.remove(place)
    }

    /// Hands a request on to the bank.
    fn submit(&mut self, request: Request) -> Result<(), AllocError>
        requires { IsNumberedRequest self.old.plan request }
        ensures ok { OnOk result (world_of self.new
            ≡ record (world_of self.old) { bank = with_request request (world_of self.old).bank }) }
        ensures err { OnErr result (world_of self.new ≡ world_of self.old) }
        ensures same { self.new.mail ≡ self.old.mail }
        ensures plan { self.new.plan ≡ self.old.plan }
    {
        match self.bank.submit(request) {
            Ok(()) => Ok(()),
            Err(refused) => Err(refused.1),
        }
    }

    /// Does one event: the node that it addresses acts, and its grant joins the trace; what it
    /// sends is put last. The witness sees what the event did.
    pub fn step<W: Witness>(&mut self, event: Event, witness: &mut W) -> Result<Outcome, AllocError>
        ensures counted { IfOk result (λ outcome. IsCounted (λ what. W.saw what witness.new)
            (world_of self.old) event outcome (world_of self.new)) }
        ensures skipped { IfErr result (λ e. CanBeSkipped (world_of self.old) event) }
        ensures full { IfErr result (λ e. IsFullFor self.old event) }
        ensures err { OnErr result (world_of self.new ≡ world_of self.old) }
    {
        match event {
            Event::Mail(place) => self.deliver(place, witness),
            Event::Try(class, inter) => self.try_one(class, inter, witness),
            Event::Bank(step) => self.act(step, witness),
        }
    }
}

/// A request has been handed on to the bank.
fn let_go<W: Witness>(witness: &mut W) -> Outcome
    ensures outcome { result ≡ record { effect = Done; lost = 0 } }
    ensures seen { W.saw Submits witness.new }
{
    witness.see(What::Submits);
    Outcome::of(Effect::Done)
}

/// Does nothing: it reminds the prover that a bank without grants has used up nothing.
#[inline(always)]
fn recall_unused<B: bip_bank::Bank>(bank: &B)
    ensures { (content_of (B.kept bank.now)).grants ≡ []
        → (content_of (B.kept bank.now)).used ≡ (λ c. (content_of (B.kept bank.now)).base) }
{
    let _granted = bank.grants();
}
