//! The node of a class.
ghost use Rattle.std.specs.Prelude.{◌≡◌, ◌↔◌, ◌⊎◌, ◌<◌, ℕ, All, IfNone, IfOk, IfSome, IsTrue, None};
ghost use Rattle.std.specs.Prelude.{OnSome};
ghost use Rattle.std.specs.Option.{option_map};
ghost use Rattle.std.specs.List.Sorted.{IsStrictlyIncreasing};
ghost use Rattle.bip_model.specs.Numbering.{IsLowest, last_number};
ghost use Rattle.bip_model.specs.Wants.{components_of};
ghost use Rattle.bip_model.specs.declared.wants.Want.{Want};
ghost use Rattle.bip_partition.specs.Plans.{ClassTouches, InConflict};
ghost use Rattle.bip_observe.specs.Offers.{IsReceipt, observed};
ghost use Rattle.bip_observe.specs.Verdicts.{IsLackingAbove};
ghost use Rattle.bip_frame.specs.Views.{offer_shown, reply_shown};
ghost use Rattle.bip_ip.specs.Nodes.{Awaits, CanBeAsked, CanBeTried, IsAnswered, IsItsRecord};
ghost use Rattle.bip_ip.specs.Nodes.{IsLeftByReply};
ghost use Rattle.bip_ip.specs.Nodes.{IsOwn, IsReplyTo, IsTried, StandsInTheWay, after_offer};
ghost use Rattle.bip_ip.specs.Nodes.{after_try, first_node, inter_in, node_of, tried_of};
ghost use Rattle.bip_ip.specs.Nodes.{with_learned, without};
ghost use Rattle.bip_ip.specs.declared.nodes.OpenRecord.{OpenRecord};

use crate::asking::{told_by, wants_by};
use crate::records::Records;
use bip_frame::{OfferFrame, ReplyFrame};
use bip_model::{
    ClassId, Grant, InterId, Notifies, Number, Offer, Reasons, Reply, Request, Role, Want,
    lowest_inter, with_inter, without_inter,
};
use bip_observe::{Offers, Receipt, Verdict, decide, lacking_above, reasons};
use bip_partition::Plan;
use std::alloc::{AllocError, Global};
use std::marker;

/// What is kept of a request while it is open, and what its grant will tell.
#[derive(Drop)]
pub struct OpenRecord {
    pub request: Request,
    pub notifies: Notifies,
}

/// What a node answers to a try of an interaction.
#[derive(Drop)]
pub enum Tried {
    /// The interaction isn't of the node's class.
    Foreign,
    /// The request for this interaction is open: it is the tried one, or in conflict with it.
    Pending(InterId),
    /// By the offers that the node holds the interaction isn't ready.
    Not(Verdict),
    /// The interaction is local, and granted at once; its components are told this.
    Local(Grant, Notifies),
    /// No request number is left.
    Ended,
    /// The interaction is asked for.
    Sent(Request),
}

/// Why a try of an interaction asks for nothing, and changes nothing.
#[derive(Clone, Copy, Debug, PartialEq, Eq)]
pub enum WhyNot {
    /// The interaction isn't of the node's class.
    Foreign,
    /// The request for this interaction is open: it is the tried one, or in conflict with it.
    Pending(InterId),
    /// By the offers that the node holds the interaction isn't ready.
    Not(Verdict),
}

impl From<WhyNot> for Tried {
    ghost use Rattle.bip_ip.specs.Nodes.{tried_of};

    ghost from_gives = { λ why did. did ≡ tried_of why };

    fn from(why: WhyNot) -> Tried {
        match why {
            WhyNot::Foreign => Tried::Foreign,
            WhyNot::Pending(other) => Tried::Pending(other),
            WhyNot::Not(verdict) => Tried::Not(verdict),
        }
    }
}

/// What a node answers to a reply.
#[derive(Drop)]
pub enum Answered {
    /// The request is granted; the components are told this.
    Told(Notifies),
    /// The request is refused, and dropped.
    Dropped,
    /// No request that is open is meant.
    Stale,
}

/// The node of a class: what it has of the components that it touches, which of its requests are
/// open, and the number of its next one (docs/PROTOCOL.md, "Protocol nodes"). Contracts see what is
/// kept.
#[derive(Drop)]
pub struct IpNode<'p> {
    offers: Offers<'p>,
    records: Records<'p>,
    /// The interactions whose requests are open, a bit each.
    asked: u128,
    next: u128,
}

impl<'p> marker::Model for IpNode<'p> {
    ghost use Rattle.bip_ip.specs.Nodes.{IsStored, KeptNode};

    ghost Value = { KeptNode };

    ghost view = { λ n. record { offers = n.offers; pending = n.records.pending; next = n.next } };

    ghost invariant = { λ n. IsStored
        (record { offers = n.offers; pending = n.records.pending; next = n.next })
        n.asked n.records };
}

impl<'p> IpNode<'p> {
    /// The node of a class at first: all used numbers that it knows are the base, it holds no
    /// offer, and no request is open; the first one will have this number. It makes all its room,
    /// so no later call takes memory.
    pub fn new(
        alloc: Global,
        plan: &'p Plan,
        class: ClassId,
        base: Number,
        first_request: u64,
    ) -> Result<IpNode<'p>, AllocError>
        requires { base < last_number }
        ensures { IfOk result (λ node.
            node_of node ≡ first_node plan.now class.0 base first_request) }
    {
        let offers = Offers::new(alloc, plan, class, base)?;
        let records = Records::new(alloc, plan, class)?;
        Ok(IpNode {
            offers,
            records,
            asked: 0,
            next: first_request as u128,
        })
    }

    /// Takes an offer, and holds it in place of the one before, where it is one that the class can
    /// get and newer than what it has. Else all stays as it was.
    pub fn on_offer(&mut self, offer: Offer) -> Receipt
        ensures receipt { IsReceipt (observed self.old.offers) offer result }
        ensures left { node_of self.new ≡ after_offer offer result (node_of self.old) }
    {
        self.offers.hold(offer)
    }

    /// Takes an offer's frame: does as `on_offer` does with the offer that the frame shows, whose
    /// values are read where they lie (docs/FRAMES.md, "What is read, and what is lent").
    pub fn on_offer_frame(&mut self, frame: &OfferFrame<'_>) -> Receipt
        ensures receipt { IsReceipt (observed self.old.offers) (offer_shown frame.now) result }
        ensures left { node_of self.new
            ≡ after_offer (offer_shown frame.now) result (node_of self.old) }
    {
        self.on_offer(frame.offer())
    }

    /// Tries an interaction, by the offers that the node holds. A local one that is ready is
    /// granted at once, and its moved numbers are known then; a reserved one is asked for, and
    /// recorded with what its grant will tell. Else all stays as it was: the interaction isn't of
    /// the class; the lowest that is open, and this one or in conflict with it, stands in its way;
    /// it isn't ready; or no request number is left. The first that applies is told
    /// (docs/PROTOCOL.md, "Protocol nodes").
    pub fn try_interaction(&mut self, inter: InterId) -> Tried
        ensures tried { IsTried (node_of self.old) inter.0 result }
        ensures left { node_of self.new ≡ after_try inter.0 result (node_of self.old) }
    {
        match self.why_not(inter) {
            Some(why) => Tried::from(why),
            None => self.ask(inter),
        }
    }

    /// Why a try of an interaction asks for nothing, where it does: what `try_interaction` answers
    /// then. Else the interaction can be asked for (docs/PROTOCOL.md, "Protocol nodes").
    pub fn why_not(&self, inter: InterId) -> Option<WhyNot>
        ensures some { IfSome result (λ why. IsTried (node_of self.now) inter.0 (tried_of why)) }
        ensures none { IfNone result (CanBeAsked (node_of self.now) inter.0) }
    {
        if !self.is_own(inter) {
            return Some(WhyNot::Foreign);
        }
        if let Some(other) = self.in_the_way(inter) {
            return Some(WhyNot::Pending(other));
        }
        match decide(self.offers.plan(), &self.offers, inter) {
            Verdict::Ready => None,
            verdict => Some(WhyNot::Not(verdict)),
        }
    }

    /// Whether a try of an interaction would do something: grant it at once, or ask for it
    /// (docs/PROTOCOL.md, "Protocol nodes").
    pub fn can_try(&self, inter: InterId) -> bool
        ensures { IsTrue result ↔ CanBeTried (node_of self.now) inter.0 }
    {
        if self.why_not(inter).is_some() {
            return false;
        }
        !self.offers.plan().reserved(inter) || self.next <= u128::from(u64::MAX)
    }

    /// The interaction above one of the class for whose sake that one isn't ready, by the offers
    /// that the node holds: a component of it has none that counts (docs/PROTOCOL.md, "Verdicts").
    /// None where it is ready, or isn't for another reason, and where it isn't of the class.
    pub fn lacking_above(&self, inter: InterId) -> Option<InterId>
        ensures own { IsOwn (node_of self.now) inter.0
            → IsLackingAbove (observed self.now.offers) inter.0 result }
        ensures other { (¬ IsOwn (node_of self.now) inter.0) → result ≡ None }
    {
        if self.is_own(inter) {
            return lacking_above(self.offers.plan(), &self.offers, inter);
        }
        None
    }

    /// Grants an interaction that can be asked for and is local, and asks for one that is reserved,
    /// as `try_interaction` does.
    pub fn ask(&mut self, inter: InterId) -> Tried
        requires { CanBeAsked (node_of self.old) inter.0 }
        ensures tried { IsTried (node_of self.old) inter.0 result }
        ensures left { node_of self.new ≡ after_try inter.0 result (node_of self.old) }
    {
        let notifies = told_by(&self.offers, inter);
        let plan = self.offers.plan();
        plan.recall();
        if !plan.reserved(inter) {
            let moved = wants_by(&self.offers, inter, &Reasons::none());
            let grant = Grant {
                inter,
                wants: moved,
            };
            learn(&mut self.offers, grant.wants.as_slice());
            return Tried::Local(grant, notifies);
        }
        let Ok(number) = u64::try_from(self.next) else {
            return Tried::Ended;
        };
        let because = reasons(plan, &self.offers, inter);
        let wants = wants_by(&self.offers, inter, &because);
        let request = Request {
            wants,
            reasons: because,
            request: number,
            class: self.offers.class(),
            inter,
        };
        self.next += 1;
        self.asked = with_inter(self.asked, inter);
        let entry = OpenRecord {
            request: request.copy(),
            notifies,
        };
        self.records.put(inter, entry);
        Tried::Sent(request)
    }

    /// Takes a reply. Where a record waits for it, that one goes: a grant is told, and its moved
    /// numbers are known then; of a refusal the used number that it names is. Else all stays as it
    /// was (docs/PROTOCOL.md, "Protocol nodes").
    pub fn on_reply(&mut self, reply: &Reply) -> Answered
        ensures answered { IsAnswered (node_of self.old) reply.now result }
        ensures left { IsLeftByReply reply.now result (node_of self.old) (node_of self.new) }
    {
        self.offers.plan().recall();
        let Some(record) = self.take_record(reply) else {
            return Answered::Stale;
        };
        if let Reply::Refused { comp, used, .. } = *reply {
            self.offers.spend(comp, used);
            return Answered::Dropped;
        }
        learn(&mut self.offers, record.request.wants.as_slice());
        Answered::Told(record.notifies)
    }

    /// Takes a reply's frame: does as `on_reply` does with the reply that the frame shows.
    pub fn on_reply_frame(&mut self, frame: &ReplyFrame<'_>) -> Answered
        ensures answered { IsAnswered (node_of self.old) (reply_shown frame.now) result }
        ensures left { IsLeftByReply (reply_shown frame.now) result (node_of self.old)
            (node_of self.new) }
    {
        self.on_reply(&frame.reply())
    }
}

impl<'p> IpNode<'p> {
    /// Whether an interaction is of the node's class.
    fn is_own(&self, inter: InterId) -> bool
        ensures { IsTrue result ↔ IsOwn (node_of self.now) inter.0 }
    {
        let plan = self.offers.plan();
        let declared = (inter.0 as usize) < plan.model().interactions().len();
        declared && plan.class_of(inter) == self.offers.class()
    }

    /// The lowest interaction that stands in the way of another.
    fn in_the_way(&self, inter: InterId) -> Option<InterId>
        ensures some { IfSome result (λ b.
            IsLowest (StandsInTheWay (node_of self.now) inter.0) b.0) }
        ensures none { IfNone result
            ((b : ℕ) → ¬ StandsInTheWay (node_of self.now) inter.0 b) }
    {
        let mut left = self.asked;
        while let Some(other) = lowest_inter(left) {
            if self.keeps_out(inter, other) {
                return Some(other);
            }
            left = without_inter(left, other);
        }
        None
    }

    /// Whether an interaction stands in the way of another while its request is open.
    fn keeps_out(&self, inter: InterId, other: InterId) -> bool
        ensures { IsTrue result
            ↔ ((other.0 ≡ inter.0) ⊎ InConflict self.now.offers.plan.model inter.0 other.0) }
    {
        other == inter || self.offers.plan().conflict(inter, other)
    }

    /// The record of an interaction, if its request is open.
    fn record(&self, inter: InterId) -> Option<&OpenRecord>
        ensures { option_map (λ e. e.now) result ≡ (node_of self.now).pending inter.0 }
    {
        self.records.get(inter)
    }

    /// Takes out the record that waits for a reply.
    fn take_record(&mut self, reply: &Reply) -> Option<OpenRecord>
        ensures awaits { IfSome result (Awaits (node_of self.old) reply.now) }
        ensures its { IfSome result (IsItsRecord self.old (inter_in reply.now)) }
        ensures taken { OnSome result
            (node_of self.new ≡ without (inter_in reply.now) (node_of self.old)) }
        ensures offers { self.new.offers ≡ self.old.offers }
        ensures stale { IfNone result
            ((e : OpenRecord) → ¬ Awaits (node_of self.old) reply.now e) }
        ensures none { IfNone result (self.new ≡ self.old) }
    {
        let inter = inter_in(reply);
        self.offers.plan().recall();
        match self.record(inter) {
            Some(record) if is_reply_to(reply, &record.request) => {}
            _ => return None,
        }
        self.asked = without_inter(self.asked, inter);
        self.records.take(inter)
    }
}

/// Learns the numbers that wants move their components with.
fn learn(offers: &mut Offers<'_>, wants: &[Want])
    requires rising { IsStrictlyIncreasing (components_of wants.now) }
    requires touched { All (λ (w : Want).
        ClassTouches offers.old.plan offers.old.class w.comp.0) wants.now }
    ensures learned { observed offers.new ≡ with_learned wants.now (observed offers.old) }
{
    for want in wants {
        match want.role {
            Role::Moved => offers.spend(want.comp, want.number),
            Role::Seen => {}
        }
    }
}

fn inter_in(reply: &Reply) -> InterId
    ensures { result.0 ≡ inter_in reply.now }
{
    match *reply {
        Reply::Granted { inter, .. } => inter,
        Reply::Refused { inter, .. } => inter,
    }
}

/// Whether a reply is to a request.
fn is_reply_to(reply: &Reply, request: &Request) -> bool
    ensures { IsTrue result ↔ IsReplyTo reply.now request.now }
{
    match *reply {
        Reply::Granted {
            class,
            request: number,
            ..
        } => request.class == class && request.request == number,
        Reply::Refused {
            class,
            request: number,
            ..
        } => request.class == class && request.request == number,
    }
}
