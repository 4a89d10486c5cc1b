//! Reading: the frame that bytes are, or their first fault.
ghost use Rattle.std.specs.Prelude.{◌≡◌, ◌<◌, Err, IfErr, IfOk, IsErrOf, Ok, length};
ghost use Rattle.bip_frame.specs.Faults.{IsFirstFault};
ghost use Rattle.bip_frame.specs.Fields.{Gives};
ghost use Rattle.bip_frame.specs.Frames.{IsFrame, Message};
ghost use Rattle.bip_frame.specs.Reading.{read_explained, read_frame, read_granted, read_notify};
ghost use Rattle.bip_frame.specs.Reading.{read_offer, read_refused, read_request, read_whole};
ghost use Rattle.bip_frame.specs.Views.{IsLent, message_shown, notify_shown, offer_shown};
ghost use Rattle.bip_frame.specs.Views.{reply_shown, request_shown};
ghost use Rattle.bip_frame.specs.declared.faults.FrameFault.{FrameFault};

use crate::entries::take_entries;
use crate::fields::{
    take_byte, take_head, take_port, take_positive, take_u16, take_u64, take_values,
};
use crate::frames::{ENTRY, REASON, SHORTEST};
use crate::reasons::take_reasons;
use crate::{Frame, FrameFault, NotifyFrame, OfferFrame, ReplyFrame, ReserveFrame};
use bip_model::{ClassId, CompId, InterId, PortId};

#[tactic(auto, unfolding(crate::specs::Reading::read_offer))]
fn take_offer(bytes: &[u8]) -> Result<(OfferFrame, &[u8]), FrameFault>
    ensures { Gives (λ x. (offer_shown x.0, x.1.now)) result (read_offer bytes.now) }
{
    let (comp, rest) = take_u16(bytes)?;
    let (number, rest) = take_positive(rest)?;
    let (ports, rest) = take_u16(rest)?;
    let (values, rest) = take_values(rest)?;
    Ok((
        OfferFrame {
            comp: CompId(comp),
            number,
            ports,
            count: values.count,
            vars: values.vars,
        },
        rest,
    ))
}

#[tactic(auto, unfolding(crate::specs::Reading::read_request))]
fn take_request(bytes: &[u8]) -> Result<(ReserveFrame, &[u8]), FrameFault>
    ensures { Gives (λ x. (request_shown x.0, x.1.now)) result (read_request bytes.now) }
{
    let (head, rest) = take_head(bytes)?;
    let wants = take_entries(rest)?;
    if !wants.moved {
        return Err(FrameFault::NoMover);
    }
    let (parts, _) = wants.list.split_at(ENTRY * wants.count as usize);
    Ok((
        ReserveFrame {
            class: ClassId(head.class),
            request: head.request,
            inter: InterId(head.inter),
            count: wants.count,
            parts,
        },
        wants.rest,
    ))
}

/// A request with reasons. It is read in place, so that no other kind pays for a call's answer.
#[inline(always)]
#[tactic(auto, unfolding(crate::specs::Reading::read_explained))]
fn take_explained(bytes: &[u8]) -> Result<(ReserveFrame, &[u8]), FrameFault>
    ensures { Gives (λ x. (request_shown x.0, x.1.now)) result (read_explained bytes.now) }
{
    let (head, rest) = take_head(bytes)?;
    let entries = take_entries(rest)?;
    let reasons = take_reasons(entries.rest)?;
    if !entries.moved {
        return Err(FrameFault::NoMover);
    }
    let len = ENTRY * entries.count as usize + 1 + REASON * reasons.count as usize;
    let (parts, _) = entries.list.split_at(len);
    Ok((
        ReserveFrame {
            class: ClassId(head.class),
            request: head.request,
            inter: InterId(head.inter),
            count: entries.count,
            parts,
        },
        reasons.rest,
    ))
}

#[tactic(auto, unfolding(crate::specs::Reading::read_granted))]
fn take_granted(bytes: &[u8]) -> Result<(ReplyFrame, &[u8]), FrameFault>
    ensures { Gives (λ x. (reply_shown x.0, x.1.now)) result (read_granted bytes.now) }
{
    let (head, behind) = take_head(bytes)?;
    let (_, rest) = take_u64(behind)?;
    let (answer, _) = behind.split_at(8);
    Ok((
        ReplyFrame {
            class: ClassId(head.class),
            request: head.request,
            inter: InterId(head.inter),
            granted: true,
            answer,
        },
        rest,
    ))
}

#[tactic(auto, unfolding(crate::specs::Reading::read_refused))]
fn take_refused(bytes: &[u8]) -> Result<(ReplyFrame, &[u8]), FrameFault>
    ensures { Gives (λ x. (reply_shown x.0, x.1.now)) result (read_refused bytes.now) }
{
    let (head, behind) = take_head(bytes)?;
    let (_, used) = take_u16(behind)?;
    let (_, rest) = take_positive(used)?;
    let (answer, _) = behind.split_at(10);
    Ok((
        ReplyFrame {
            class: ClassId(head.class),
            request: head.request,
            inter: InterId(head.inter),
            granted: false,
            answer,
        },
        rest,
    ))
}

#[tactic(auto, unfolding(crate::specs::Reading::read_notify))]
fn take_notify(bytes: &[u8]) -> Result<(NotifyFrame, &[u8]), FrameFault>
    ensures { Gives (λ x. (notify_shown x.0, x.1.now)) result (read_notify bytes.now) }
{
    let (comp, rest) = take_u16(bytes)?;
    let (number, rest) = take_positive(rest)?;
    let (port, rest) = take_port(rest)?;
    let (values, rest) = take_values(rest)?;
    Ok((
        NotifyFrame {
            comp: CompId(comp),
            number,
            port: PortId(port),
            count: values.count,
            vars: values.vars,
        },
        rest,
    ))
}

/// The frame at the front.
#[inline(always)]
#[tactic(auto, unfolding(crate::specs::Reading::read_frame))]
fn take_frame(bytes: &[u8]) -> Result<(Frame, &[u8]), FrameFault>
    ensures { Gives (λ x. (message_shown x.0, x.1.now)) result (read_frame bytes.now) }
{
    let (kind, fields) = take_byte(bytes)?;
    match kind {
        1 => {
            let (frame, rest) = take_offer(fields)?;
            Ok((Frame::Offer(frame), rest))
        }
        2 => {
            let (frame, rest) = take_request(fields)?;
            Ok((Frame::Reserve(frame), rest))
        }
        3 => {
            let (frame, rest) = take_granted(fields)?;
            Ok((Frame::Reply(frame), rest))
        }
        4 => {
            let (frame, rest) = take_refused(fields)?;
            Ok((Frame::Reply(frame), rest))
        }
        5 => {
            let (frame, rest) = take_notify(fields)?;
            Ok((Frame::Notify(frame), rest))
        }
        6 => {
            let (frame, rest) = take_explained(fields)?;
            Ok((Frame::Reserve(frame), rest))
        }
        _ => Err(FrameFault::Kind),
    }
}

#[inline(always)]
#[tactic(auto, unfolding(crate::specs::Reading::read_whole))]
fn take_whole(bytes: &[u8]) -> Result<Frame, FrameFault>
    ensures { Gives message_shown result (read_whole bytes.now) }
{
    let (frame, rest) = take_frame(bytes)?;
    if !rest.is_empty() {
        return Err(FrameFault::Long);
    }
    Ok(frame)
}

/// The fault of bytes that are too few for any frame.
#[cold]
#[inline(never)]
#[tactic(auto, using(crate::proofs::LawLemmas::too_few))]
fn fault_of_few(bytes: &[u8]) -> FrameFault
    requires { length bytes.now < 13 }
    ensures { read_whole bytes.now ≡ Err result }
{
    match take_whole(bytes) {
        Ok(_) => unreachable!(),
        Err(fault) => fault,
    }
}

/// Reads all of the bytes. Where it is tested first that they suffice for a frame, most fields are
/// known to be there, and are read faster.
fn take_all(bytes: &[u8]) -> Result<Frame, FrameFault>
    ensures { Gives message_shown result (read_whole bytes.now) }
{
    if bytes.len() < SHORTEST {
        return Err(fault_of_few(bytes));
    }
    take_whole(bytes)
}

/// The frame that the bytes are, all of them, or their first fault from the left (docs/FRAMES.md).
/// Takes no memory: what the frame lends are parts of the bytes.
pub fn read(bytes: &[u8]) -> Result<Frame, FrameFault>
    // What is read is the frame of what it shows.
    ensures found { IfOk result (λ frame. IsFrame (message_shown frame) bytes.now) }
    // Each frame is read, and shows its message.
    ensures only { (m : Message) → IsFrame m bytes.now → Gives message_shown result (Ok m) }
    // A fault is the first one from the left.
    ensures first { IfErr result (λ fault. IsFirstFault bytes.now fault) }
    // The first fault from the left is the one that is told.
    ensures each { (fault : FrameFault) → IsFirstFault bytes.now fault → IsErrOf result fault }
    // What is lent are the bytes at their places.
    ensures lent { IfOk result (λ frame. IsLent frame bytes.now) }
{
    take_all(bytes)
}
