//! Messages in flight, told.
ghost use Rattle.std.specs.Prelude.{◌≡◌, ◌++◌, OnOk};
ghost use Rattle.bip_tell.specs.Messages.{message_text, notify_text, offer_text, reply_text};
ghost use Rattle.bip_tell.specs.Messages.{request_text};

use crate::words::{write_asked, write_class, write_numbered, write_port};
use bip_core::Message;
use bip_model::{ClassId, Notify, Offer, Reply, Request};
use bip_partition::Plan;
use std::alloc::AllocError;

/// Writes a message: what it is, with its numbers, and whom it is for where that doesn't follow.
pub(crate) fn write_message(
    text: &mut Vec<u8>,
    plan: &Plan,
    message: &Message,
) -> Result<(), AllocError>
    ensures { OnOk result
        (text.new.items ≡ text.old.items ++ message_text plan.now message.now) }
{
    match message {
        Message::OfferTo(class, offer) => write_offer(text, plan, *class, offer),
        Message::RequestToBank(request) => write_request(text, plan, request),
        Message::ReplyToClass(reply) => write_reply(text, plan, reply),
        Message::NotifyComponent(notify) => write_notify(text, plan, notify),
    }
}

fn write_offer(
    text: &mut Vec<u8>,
    plan: &Plan,
    class: ClassId,
    offer: &Offer,
) -> Result<(), AllocError>
    ensures { OnOk result
        (text.new.items ≡ text.old.items ++ offer_text plan.now class.0 offer.now) }
{
    text.extend_from_slice(b" offer")?;
    write_numbered(text, plan.model(), offer.comp, offer.number)?;
    text.extend_from_slice(b" to")?;
    write_class(text, plan, class)
}

fn write_request(text: &mut Vec<u8>, plan: &Plan, request: &Request) -> Result<(), AllocError>
    ensures { OnOk result (text.new.items ≡ text.old.items ++ request_text plan.now request.now) }
{
    text.extend_from_slice(b" request")?;
    write_asked(text, plan, request.class, request.inter, request.request)
}

fn write_reply(text: &mut Vec<u8>, plan: &Plan, reply: &Reply) -> Result<(), AllocError>
    ensures { OnOk result (text.new.items ≡ text.old.items ++ reply_text plan.now reply.now) }
{
    match *reply {
        Reply::Granted {
            class,
            request,
            inter,
            ..
        } => {
            text.extend_from_slice(b" granted")?;
            write_asked(text, plan, class, inter, request)
        }
        Reply::Refused {
            class,
            request,
            inter,
            ..
        } => {
            text.extend_from_slice(b" refused")?;
            write_asked(text, plan, class, inter, request)
        }
    }
}

fn write_notify(text: &mut Vec<u8>, plan: &Plan, notify: &Notify) -> Result<(), AllocError>
    ensures { OnOk result (text.new.items ≡ text.old.items ++ notify_text plan.now notify.now) }
{
    text.extend_from_slice(b" notify")?;
    write_numbered(text, plan.model(), notify.comp, notify.number)?;
    write_port(text, plan.model(), notify.comp, notify.port)
}
