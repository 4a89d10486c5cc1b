//! Letters: messages in flight, each as its frame and the address that it has.
ghost use Rattle.std.specs.Prelude.{◌≡◌};
ghost use Rattle.bip_frame.specs.Frames.{IsFrame};
ghost use Rattle.bip_core.specs.Letters.{IsLetter, IsLetterOf, address_of, as_spelled};
ghost use Rattle.bip_core.specs.declared.messages.Message.{Message};
ghost use Rattle.bip_core.specs.declared.messages.Message.TheVariants.{OfferTo};
ghost use Rattle.bip_model.specs.declared.messages.Offer.{Offer};
ghost use Rattle.bip_model.specs.declared.numbering.ClassId.{ClassId};

use crate::Address;
use crate::messages::Message;
use bip_frame::{Frame, read};
use bip_model::ClassId;
use bytes::Bytes;
use std::marker::Model;

/// A message in flight: for whom it is, and its frame, which others may share. Contracts see the
/// message.
#[derive(Drop)]
pub(crate) struct Letter {
    to: Address,
    frame: Bytes,
}

impl Model for Letter {
    ghost use Rattle.bip_core.specs.Letters.{IsLetterOf, message_in};
    ghost use Rattle.bip_core.specs.declared.messages.Message.{Message};

    ghost Value = { Message };

    ghost view = { λ l. message_in l.to l.frame };

    ghost invariant = { λ l. IsLetterOf (message_in l.to l.frame) l.to l.frame };
}

impl Letter {
    /// The letter of a frame for an addressee.
    pub fn of(to: Address, frame: Bytes) -> Letter
        requires { IsLetter to frame }
        ensures { (m : Message) → IsLetterOf m to frame → result ≡ m }
    {
        Letter { to, frame }
    }

    /// For whom it is.
    pub fn to(&self) -> Address
        ensures { result ≡ address_of self.now }
    {
        self.to
    }

    /// Its frame.
    pub fn frame(&self) -> &[u8]
        ensures { IsFrame (as_spelled self.now) result.now }
    {
        self.frame.as_slice()
    }

    /// The class that an offer is for.
    pub fn class(&self) -> ClassId
        ensures { (k : ClassId) (o : Offer) → self.now ≡ OfferTo k o → result ≡ k }
    {
        match self.to {
            Address::Class(class) => class,
            _ => ClassId(0),
        }
    }

    /// The message.
    pub fn message(&self) -> Message
        ensures { result ≡ self.now }
    {
        match read(self.frame.as_slice()) {
            Ok(Frame::Offer(offer)) => Message::OfferTo(self.class(), offer.offer()),
            Ok(Frame::Reserve(request)) => Message::RequestToBank(request.value()),
            Ok(Frame::Reply(reply)) => Message::ReplyToClass(reply.reply()),
            Ok(Frame::Notify(notify)) => Message::NotifyComponent(notify.notify()),
            Err(_) => unreachable!(),
        }
    }
}
