//! What addressees accept: frames that name only what the plan has, and fit whom they are for.
ghost use Rattle.std.specs.Prelude.{◌≡◌, ◌↔◌, ◌<◌, IfErr, IfOk, IsOkAnd, IsErrOf, IsTrue};
ghost use Rattle.std.specs.Prelude.{All, IfSome, Some, length, slice_get, true};
ghost use Rattle.std.specs.Option.{option_map};
ghost use Rattle.bip_model.specs.Messages.{IsOfferOf};
ghost use Rattle.bip_frame.specs.Frames.{IsFrame, Message};
ghost use Rattle.bip_frame.specs.Views.{IsLent, message_shown, notify_shown, offer_shown};
ghost use Rattle.bip_frame.specs.Views.{reply_shown, request_shown};
ghost use Rattle.bip_frame.specs.Frames.{of_notify, of_offer, of_reply, of_request};
ghost use Rattle.bip_core.specs.Accepting.{HasAddress, HasClass, HasComp, HasInter, HasWanted};
ghost use Rattle.bip_core.specs.Accepting.{HasCause, HasReason};
ghost use Rattle.bip_core.specs.Accepting.{IsAccepted, IsDropped, IsJudged, IsNotifyOf};
ghost use Rattle.bip_core.specs.Accepting.{number_of_drop, text_of_drop};
ghost use Rattle.bip_core.specs.declared.accepting.DropFault.{DropFault};

use bip_frame::{Frame, FrameFault, NotifyFrame, OfferFrame, ReserveFrame, read};
use bip_model::{Cause, ClassId, CompId, Component, InterId, Reasons, Reply, Request, Want, Why};
use bip_observe::are_ports;
use bip_partition::Plan;
use std::fmt;
use thiserror::Error;

/// For whom a frame is: a component, a class, or the third layer (docs/FRAMES.md, "Addressees").
#[derive(Clone, Copy, Debug, PartialEq, Eq)]
pub enum Address {
    Comp(CompId),
    Class(ClassId),
    Layer,
}

/// Why a frame is dropped: the first of these that applies (docs/FRAMES.md, "Addressees").
#[derive(Clone, Copy, Debug, Error, PartialEq, Eq)]
pub enum DropFault {
    /// The bytes are no frame, with their first fault.
    Frame(FrameFault),
    /// It is for, or names, a component, a class or an interaction that the plan lacks.
    Unknown,
    /// Its addressee takes no such frame: it is of another kind, or a reply to another class; it
    /// has not a value for each variable of its component, or a port that this one lacks; or its
    /// request doesn't fit the plan.
    Misfit,
}

impl fmt::Display for DropFault {
    ghost output = { λ fault. Some (text_of_drop fault) };

    fn fmt<W: fmt::Write>(&self, f: &mut fmt::Formatter<W>) -> fmt::Result {
        match self {
            DropFault::Frame(fault) => fault.fmt(f),
            DropFault::Unknown => write!(f, "unknown number"),
            DropFault::Misfit => write!(f, "doesn't fit"),
        }
    }
}

impl DropFault {
    /// The fault's number.
    pub fn number(&self) -> u8
        ensures { result ≡ number_of_drop self.now }
    {
        match self {
            DropFault::Frame(_) => 1,
            DropFault::Unknown => 2,
            DropFault::Misfit => 3,
        }
    }
}

/// Reads the frame that the bytes are, for an addressee of a plan: it is answered where it names
/// only what the plan has, and fits its addressee. Else the first fault is told: of the bytes; that
/// the plan lacks something; that the frame doesn't fit. Whether a component or a class has to do
/// with what it is sent, its node says. Takes no memory: what the frame lends are parts of the
/// bytes (docs/FRAMES.md, "Addressees").
pub fn accept<'a>(plan: &Plan, to: Address, bytes: &'a [u8]) -> Result<Frame<'a>, DropFault>
    // What is accepted is the frame of what it shows, for this addressee.
    ensures found { IfOk result (λ frame. IsFrame (message_shown frame) bytes.now) }
    ensures accepted { IfOk result (λ frame. IsAccepted plan.now to (message_shown frame)) }
    // Each frame that can be is accepted, and shows its message.
    ensures only { (m : Message) → IsFrame m bytes.now → IsAccepted plan.now to m
        → IsOkAnd result (λ frame. message_shown frame ≡ m) }
    // A fault is the first one, and the first one is told.
    ensures first { IfErr result (IsDropped plan.now to bytes.now) }
    ensures each { (fault : DropFault) → IsDropped plan.now to bytes.now fault
        → IsErrOf result fault }
    // What is lent are the bytes at their places.
    ensures lent { IfOk result (λ frame. IsLent frame bytes.now) }
{
    let frame = match read(bytes) {
        Ok(frame) => frame,
        Err(fault) => return Err(DropFault::Frame(fault)),
    };
    match judge(plan, to, &frame) {
        Ok(()) => Ok(frame),
        Err(fault) => Err(fault),
    }
}

/// Whether a frame is accepted, or why it is dropped.
fn judge(plan: &Plan, to: Address, frame: &Frame<'_>) -> Result<(), DropFault>
    ensures { IsJudged plan.now to (message_shown frame.now) result }
{
    if !has_address(plan, to) {
        return Err(DropFault::Unknown);
    }
    match frame {
        Frame::Offer(offer) => judge_offer(plan, to, offer),
        Frame::Reserve(request) => judge_reserve(plan, to, request),
        Frame::Reply(reply) => judge_reply(plan, to, &reply.reply()),
        Frame::Notify(notify) => judge_notify(plan, to, notify),
    }
}

fn judge_offer(plan: &Plan, to: Address, offer: &OfferFrame<'_>) -> Result<(), DropFault>
    requires { HasAddress plan.now to }
    ensures { IsJudged plan.now to (of_offer (offer_shown offer.now)) result }
{
    let Some(component) = component_of(plan, offer.comp()) else {
        return Err(DropFault::Unknown);
    };
    match to {
        Address::Class(_) if can_offer(component, offer) => Ok(()),
        _ => Err(DropFault::Misfit),
    }
}

/// It stands alone, so that room for a request isn't made for what comes more often.
#[inline(never)]
fn judge_reserve(plan: &Plan, to: Address, request: &ReserveFrame<'_>) -> Result<(), DropFault>
    requires { HasAddress plan.now to }
    ensures { IsJudged plan.now to (of_request (request_shown request.now)) result }
{
    judge_request(plan, to, &request.value())
}

fn judge_request(plan: &Plan, to: Address, request: &Request) -> Result<(), DropFault>
    requires { HasAddress plan.now to }
    ensures { IsJudged plan.now to (of_request request.now) result }
{
    if !has_class(plan, request.class)
        || !has_inter(plan, request.inter)
        || !has_wanted(plan, request.wants.as_slice())
        || !has_reasons(plan, &request.reasons)
    {
        return Err(DropFault::Unknown);
    }
    match to {
        Address::Layer if plan.fits(request) => Ok(()),
        _ => Err(DropFault::Misfit),
    }
}

fn judge_reply(plan: &Plan, to: Address, reply: &Reply) -> Result<(), DropFault>
    requires { HasAddress plan.now to }
    ensures { IsJudged plan.now to (of_reply reply.now) result }
{
    let (known, class) = match *reply {
        Reply::Granted { class, inter, .. } => {
            (has_class(plan, class) && has_inter(plan, inter), class)
        }
        Reply::Refused {
            class,
            inter,
            comp,
            ..
        } => (
            has_class(plan, class) && has_inter(plan, inter) && has_comp(plan, comp),
            class,
        ),
    };
    if !known {
        return Err(DropFault::Unknown);
    }
    match to {
        Address::Class(addressee) if addressee == class => Ok(()),
        _ => Err(DropFault::Misfit),
    }
}

fn judge_notify(plan: &Plan, to: Address, notify: &NotifyFrame<'_>) -> Result<(), DropFault>
    requires { HasAddress plan.now to }
    ensures { IsJudged plan.now to (of_notify (notify_shown notify.now)) result }
{
    let Some(component) = component_of(plan, notify.comp()) else {
        return Err(DropFault::Unknown);
    };
    match to {
        Address::Comp(_) if can_take(component, notify) => Ok(()),
        _ => Err(DropFault::Misfit),
    }
}

/// Whether the plan has an addressee.
fn has_address(plan: &Plan, to: Address) -> bool
    ensures { IsTrue result ↔ HasAddress plan.now to }
{
    match to {
        Address::Comp(comp) => has_comp(plan, comp),
        Address::Class(class) => has_class(plan, class),
        Address::Layer => true,
    }
}

fn component_of(plan: &Plan, comp: CompId) -> Option<&Component>
    ensures { option_map (λ component. component.now) result
        ≡ slice_get plan.now.model.components comp.0 }
{
    plan.model().components().get(comp.0 as usize)
}

fn has_comp(plan: &Plan, comp: CompId) -> bool
    ensures { IsTrue result ↔ HasComp plan.now comp.0 }
{
    (comp.0 as usize) < plan.model().components().len()
}

fn has_class(plan: &Plan, class: ClassId) -> bool
    ensures { IsTrue result ↔ HasClass plan.now class.0 }
{
    (class.0 as usize) < plan.classes().len()
}

fn has_inter(plan: &Plan, inter: InterId) -> bool
    ensures { IsTrue result ↔ HasInter plan.now inter.0 }
{
    (inter.0 as usize) < plan.model().interactions().len()
}

/// Whether the plan has all components that wants name.
fn has_wanted(plan: &Plan, wants: &[Want]) -> bool
    ensures { IsTrue result ↔ HasWanted plan.now wants.now }
{
    let count = plan.model().components().len();
    wants.iter().all(|want| (want.comp.0 as usize) < count)
}

/// Whether the plan has all interactions and components that reasons name.
fn has_reasons(plan: &Plan, reasons: &Reasons) -> bool
    ensures { IsTrue result ↔ All (HasReason plan.now) reasons.now }
{
    for place in 0..reasons.len() {
        if !has_reason(plan, reasons.get(place)) {
            return false;
        }
    }
    true
}

fn has_reason(plan: &Plan, reason: Option<Why>) -> bool
    ensures { IsTrue result ↔ IfSome reason (HasReason plan.now) }
{
    match reason {
        Some(why) => has_inter(plan, why.inter) && has_cause(plan, why.cause),
        None => true,
    }
}

fn has_cause(plan: &Plan, cause: Cause) -> bool
    ensures { IsTrue result ↔ HasCause plan.now cause }
{
    match cause {
        Cause::Port(comp) => has_comp(plan, comp),
        Cause::Guard => true,
    }
}

/// Whether an offer has a value for each variable of a component, and is on for none but its ports.
fn can_offer(component: &Component, offer: &OfferFrame<'_>) -> bool
    ensures { IsTrue result ↔ IsOfferOf component.now (offer_shown offer.now) }
{
    count_offered(offer) == component.variables.len()
        && are_ports(offer.ports(), component.ports.len())
}

/// How many values an offer has.
fn count_offered(offer: &OfferFrame<'_>) -> usize
    ensures { result ≡ length (offer_shown offer.now).values }
{
    let vars = offer.vars();
    vars.len() / 4
}

/// Whether a notification has a value for each variable of a component, and a port of its own.
fn can_take(component: &Component, notify: &NotifyFrame<'_>) -> bool
    ensures { IsTrue result ↔ IsNotifyOf component.now (notify_shown notify.now) }
{
    count_told(notify) == component.variables.len()
        && (notify.port().0 as usize) < component.ports.len()
}

/// How many values a notification has.
fn count_told(notify: &NotifyFrame<'_>) -> usize
    ensures { result ≡ length (notify_shown notify.now).values }
{
    let vars = notify.vars();
    vars.len() / 4
}
