//! Messages that are put last, one by one: one for which there is no memory is lost.
ghost use Rattle.std.specs.Prelude.{◌≡◌, ◌<◌, ◌≤◌, [], ◌∷◌, All, map};
ghost use Rattle.bip_model.specs.declared.messages.Notify.{Notify};
ghost use Rattle.bip_model.specs.declared.messages.Offer.{Offer};
ghost use Rattle.bip_frame.specs.Frames.{IsFrame, IsNumbered, of_offer};
ghost use Rattle.bip_frame.specs.Views.{reply_class};
ghost use Rattle.bip_core.specs.Events.{ArePut, IsSending, SendsWhatFits, are_notified};
ghost use Rattle.bip_core.specs.Events.{effect_decided};
ghost use Rattle.bip_core.specs.declared.events.What.TheVariants.{Acts, Learns, Moves, Tries};
ghost use Rattle.bip_core.specs.declared.messages.Message.TheVariants.{NotifyComponent, OfferTo};
ghost use Rattle.bip_core.specs.declared.messages.Message.TheVariants.{ReplyToClass};
ghost use Rattle.bip_core.specs.declared.messages.Message.TheVariants.{RequestToBank};

use crate::Address;
use crate::letters::Letter;
use crate::mailbags::Mailbag;
use crate::outcomes::{Effect, Outcome};
use bip_bank::{Acted, Decision, reply_to};
use bip_component::Notified;
use bip_frame::{write_notify, write_offer, write_reply, write_reserve};
use bip_ip::{Answered, Tried};
use bip_model::{ClassId, Notify, Offer, Reply, Request};
use bip_partition::Plan;
use bytes::Bytes;

/// Puts what an answer to a reply sends last, and says what that comes to.
pub(crate) fn send_told(plan: &Plan, mail: &mut Mailbag, did: &Answered) -> Outcome
    requires { SendsWhatFits plan.now (Learns did.now) }
    ensures { IsSending plan.now (Learns did.now) result mail.old mail.new }
{
    match did {
        Answered::Told(notifies) => Outcome {
            effect: Effect::Done,
            lost: notify_all(mail, notifies.as_slice()),
        },
        Answered::Dropped => Outcome::of(Effect::Done),
        Answered::Stale => Outcome::of(Effect::Done),
    }
}

/// Puts what an answer to a notification sends last.
pub(crate) fn send_moved(plan: &Plan, mail: &mut Mailbag, did: &Notified) -> Outcome
    requires { SendsWhatFits plan.now (Moves did.now) }
    ensures { IsSending plan.now (Moves did.now) result mail.old mail.new }
{
    match did {
        Notified::Moved(offer) => Outcome {
            effect: Effect::Done,
            lost: offer_to_all(mail, plan.classes_of(offer.comp), offer),
        },
        Notified::Spent => Outcome::of(Effect::Done),
        Notified::Stale => Outcome::of(Effect::Done),
    }
}

/// Puts what an answer to a try sends last.
pub(crate) fn send_tried(plan: &Plan, mail: &mut Mailbag, did: &Tried) -> Outcome
    requires { SendsWhatFits plan.now (Tries did.now) }
    ensures { IsSending plan.now (Tries did.now) result mail.old mail.new }
{
    match did {
        Tried::Foreign => Outcome::of(Effect::Idle),
        Tried::Pending(_) => Outcome::of(Effect::Idle),
        Tried::Not(_) => Outcome::of(Effect::Idle),
        Tried::Local(_, notifies) => Outcome {
            effect: Effect::Granted,
            lost: notify_all(mail, notifies.as_slice()),
        },
        Tried::Ended => Outcome::of(Effect::Idle),
        Tried::Sent(request) => Outcome {
            effect: Effect::Done,
            lost: put_request(mail, request),
        },
    }
}

/// Puts what an answer of the bank sends last. It stands in place where it is called: most steps of
/// a bank answer nothing, and an answer has much room to be copied.
#[inline(always)]
pub(crate) fn send_acted(plan: &Plan, mail: &mut Mailbag, did: &Acted) -> Outcome
    requires { SendsWhatFits plan.now (Acts did.now) }
    ensures { IsSending plan.now (Acts did.now) result mail.old mail.new }
{
    match did {
        Acted::Nothing => Outcome::of(Effect::Idle),
        Acted::Moved => Outcome::of(Effect::Done),
        Acted::Answered { request, decision } => Outcome {
            effect: effect_decided(decision),
            lost: put_reply(mail, &reply_to(request, decision)),
        },
    }
}

/// What an event did that brought a decision.
fn effect_decided(decision: &Decision) -> Effect
    ensures { result ≡ effect_decided decision.now }
{
    match decision {
        Decision::Granted(_) => Effect::Granted,
        Decision::Refused { .. } => Effect::Refused,
    }
}

/// Puts a letter last, and says how many were lost: it is, where there is no memory for it.
fn put_last(mail: &mut Mailbag, letter: Letter) -> usize
    ensures { ArePut (letter ∷ []) result mail.old mail.new }
{
    match mail.push(letter) {
        Ok(()) => 0,
        Err(_) => 1,
    }
}

/// Puts a request to the bank last, and says how many were lost.
fn put_request(mail: &mut Mailbag, request: &Request) -> usize
    requires { 1 ≤ request.now.request }
    ensures { ArePut (RequestToBank request.now ∷ []) result mail.old mail.new }
{
    match write_reserve(mail.allocator(), request) {
        Ok(frame) => put_last(mail, Letter::of(Address::Layer, frame)),
        Err(_) => 1,
    }
}

/// Puts a reply last, and says how many were lost.
#[inline(never)]
fn put_reply(mail: &mut Mailbag, reply: &Reply) -> usize
    requires { IsNumbered reply.now }
    ensures { ArePut (ReplyToClass reply.now ∷ []) result mail.old mail.new }
{
    match write_reply(mail.allocator(), reply) {
        Ok(frame) => put_last(mail, Letter::of(Address::Class(class_of(reply)), frame)),
        Err(_) => 1,
    }
}

/// The class that a reply is to.
fn class_of(reply: &Reply) -> ClassId
    ensures { result ≡ reply_class reply.now }
{
    match *reply {
        Reply::Granted { class, .. } => class,
        Reply::Refused { class, .. } => class,
    }
}

/// Puts a notification last, and says how many were lost.
fn put_notify(mail: &mut Mailbag, notify: &Notify) -> usize
    requires number { 1 ≤ notify.now.number }
    requires port { notify.now.port.0 < 16 }
    ensures { ArePut (NotifyComponent notify.now ∷ []) result mail.old mail.new }
{
    match write_notify(mail.allocator(), notify) {
        Ok(frame) => put_last(mail, Letter::of(Address::Comp(notify.comp), frame)),
        Err(_) => 1,
    }
}

/// Puts notifications last, and says how many were lost.
fn notify_all(mail: &mut Mailbag, notifies: &[Notify]) -> usize
    requires { All (λ (n : Notify). (1 ≤ n.number) × (n.port.0 < 16)) notifies.now }
    ensures { ArePut (are_notified notifies.now) result mail.old mail.new }
{
    let mut lost = 0;
    for notify in notifies {
        lost += put_notify(mail, notify);
    }
    lost
}

/// Puts an offer to each of these classes last, and says how many were lost. Its frame is written
/// once, and shared by all; where it can't be written, all are lost.
pub(crate) fn offer_to_all(mail: &mut Mailbag, classes: &[ClassId], offer: &Offer) -> usize
    requires { 1 ≤ offer.now.number }
    ensures { ArePut (map (λ k. OfferTo k offer.now) classes.now) result mail.old
        mail.new }
{
    match write_offer(mail.allocator(), offer) {
        Ok(frame) => share_all(mail, classes, &frame),
        Err(_) => classes.len(),
    }
}

/// Puts shares of the frame of an offer to each of these classes last, and says how many were lost.
fn share_all(mail: &mut Mailbag, classes: &[ClassId], frame: &Bytes) -> usize
    requires { (offer : Offer) × IsFrame (of_offer offer) frame.now }
    ensures { (offer : Offer) → IsFrame (of_offer offer) frame.now
        → ArePut (map (λ k. OfferTo k offer) classes.now) result mail.old mail.new }
{
    let mut lost = 0;
    for class in classes {
        lost += put_share(mail, *class, frame);
    }
    lost
}

/// Puts a share of the frame of an offer to a class last, and says how many were lost.
fn put_share(mail: &mut Mailbag, class: ClassId, frame: &Bytes) -> usize
    requires { (offer : Offer) × IsFrame (of_offer offer) frame.now }
    ensures { (offer : Offer) → IsFrame (of_offer offer) frame.now
        → ArePut (OfferTo class offer ∷ []) result mail.old mail.new }
{
    match frame.clone() {
        Ok(share) => put_last(mail, Letter::of(Address::Class(class), share)),
        Err(_) => 1,
    }
}
