//! What frames show: each field, and the message as a value.
ghost use Rattle.std.specs.Prelude.{◌≡◌, ◌*◌, ◌≤◌, IfSome, length, slice_get};
ghost use Rattle.std.specs.Option.{option_map};
ghost use Rattle.bip_frame.specs.Lent.{entry_in, whys_lent};
ghost use Rattle.bip_frame.specs.Views.{entries_lent, entry_lent, notify_lent, notify_shown};
ghost use Rattle.bip_frame.specs.Views.{reply_comp, reply_serial, reply_used};
ghost use Rattle.bip_frame.specs.Views.{offer_lent, offer_shown, reply_class, reply_inter};
ghost use Rattle.bip_frame.specs.Views.{reasons_lent, reply_request, reply_shown, request_shown};
ghost use Rattle.bip_frame.specs.Views.{want_shown};

use crate::frames::ENTRY;
use crate::lent::{
    comp_at, entry_at, number_at, reason_at, reasons_of, role_of, value_at, values_of, wants_of,
};
use crate::{EntryPart, NotifyFrame, OfferFrame, ReplyFrame, ReserveFrame};
use bip_model::{
    ClassId, CompId, InterId, Notify, Number, Offer, PortId, Reasons, Reply, Request, Role, Why,
};

impl<'a> OfferFrame<'a> {
    /// The component that offers.
    pub fn comp(&self) -> CompId
        ensures { result ≡ (offer_shown self.now).comp }
    {
        self.comp
    }

    /// The number of its next move.
    pub fn number(&self) -> Number
        ensures { result ≡ (offer_shown self.now).number }
    {
        self.number
    }

    /// The ports that are on: bit p is port p.
    pub fn ports(&self) -> u16
        ensures { result ≡ (offer_shown self.now).ports }
    {
        self.ports
    }

    /// The values as they lie in the source, four bytes each.
    pub fn vars(&self) -> &'a [u8]
        ensures { result.now ≡ offer_lent self.now }
    {
        self.vars
    }

    /// The value of a variable; none where there is no such variable.
    pub fn var(&self, i: usize) -> Option<u32>
        ensures { result ≡ slice_get (offer_shown self.now).values i }
    {
        value_at(self.count, self.vars, i)
    }

    /// The offer, as a value. Takes no memory.
    pub fn offer(&self) -> Offer
        ensures { result ≡ offer_shown self.now }
    {
        Offer {
            comp: self.comp,
            number: self.number,
            ports: self.ports,
            values: values_of(self.count, self.vars),
        }
    }
}

impl<'a> ReserveFrame<'a> {
    /// The class that asks.
    pub fn class(&self) -> ClassId
        ensures { result ≡ (request_shown self.now).class }
    {
        self.class
    }

    /// The number of the request in its class.
    pub fn request(&self) -> u64
        ensures { result ≡ (request_shown self.now).request }
    {
        self.request
    }

    /// The interaction.
    pub fn inter(&self) -> InterId
        ensures { result ≡ (request_shown self.now).inter }
    {
        self.inter
    }

    /// How many entries there are: 1 to 32.
    #[tactic(auto, using(crate::proofs::LentLemmas::wants_counted))]
    pub fn len(&self) -> usize
        ensures { result ≡ length (request_shown self.now).wants }
    {
        self.count as usize
    }

    /// An entry, as it lies in the source; none where there are no more.
    pub fn entry(&self, i: usize) -> Option<EntryPart<'a>>
        ensures shown { option_map want_shown result ≡ slice_get (request_shown self.now).wants i }
        ensures lent { IfSome result
            (λ part. entry_lent part ≡ entry_in i (entries_lent self.now)) }
    {
        entry_at(self.count, self.parts, i)
    }

    /// How many reasons there are, and these as they lie in the source, four bytes each.
    fn listed(&self) -> (u8, &'a [u8])
        ensures shown { whys_lent result.0 result.1.now ≡ (request_shown self.now).reasons }
        ensures whole { length result.1.now ≡ 4 * result.0 }
        ensures lent { result.1.now ≡ reasons_lent self.now }
        ensures few { result.0 ≤ 127 }
    {
        let (_, behind) = self.parts.split_at(ENTRY * self.count as usize);
        match behind {
            [] => (0, behind),
            [count, reasons @ ..] => (*count, reasons),
        }
    }

    /// How many reasons there are: at most 127, and none in a frame of kind 02.
    #[tactic(auto, using(crate::proofs::LentLemmas::whys_counted))]
    pub fn reason_count(&self) -> usize
        ensures { result ≡ length (request_shown self.now).reasons }
    {
        self.listed().0 as usize
    }

    /// A reason, by interaction; none where there are no more.
    pub fn reason(&self, i: usize) -> Option<Why>
        ensures { result ≡ slice_get (request_shown self.now).reasons i }
    {
        let (count, reasons) = self.listed();
        reason_at(count, reasons, i)
    }

    /// All reasons, as a value. Takes no memory.
    pub fn reasons(&self) -> Reasons
        ensures { result ≡ (request_shown self.now).reasons }
    {
        let (count, reasons) = self.listed();
        reasons_of(count, reasons)
    }

    /// The request with its reasons, as a value. Takes no memory.
    pub fn value(&self) -> Request
        ensures { result ≡ request_shown self.now }
    {
        Request {
            class: self.class,
            request: self.request,
            inter: self.inter,
            wants: wants_of(self.count, self.parts),
            reasons: self.reasons(),
        }
    }
}

impl<'a> EntryPart<'a> {
    /// The component.
    pub fn comp(&self) -> CompId
        ensures { result ≡ (want_shown self.now).comp }
    {
        comp_at(self.bytes)
    }

    /// Whether the component is moved or only looked at.
    pub fn role(&self) -> Role
        ensures { result ≡ (want_shown self.now).role }
    {
        role_of(self.bytes[2])
    }

    /// The number that the component is wanted with.
    pub fn number(&self) -> Number
        ensures { result ≡ (want_shown self.now).number }
    {
        number_at(&self.bytes[3..])
    }
}

impl<'a> ReplyFrame<'a> {
    /// The class that asked.
    pub fn class(&self) -> ClassId
        ensures { result ≡ reply_class (reply_shown self.now) }
    {
        self.class
    }

    /// The number of the request in its class.
    pub fn request(&self) -> u64
        ensures { result ≡ reply_request (reply_shown self.now) }
    {
        self.request
    }

    /// The interaction.
    pub fn inter(&self) -> InterId
        ensures { result ≡ reply_inter (reply_shown self.now) }
    {
        self.inter
    }

    /// The serial of the grant; none where it is a refusal.
    pub fn serial(&self) -> Option<u64>
        ensures { result ≡ reply_serial (reply_shown self.now) }
    {
        if self.granted {
            Some(number_at(self.answer))
        } else {
            None
        }
    }

    /// The component that a refusal names; none where it is a grant.
    pub fn comp(&self) -> Option<CompId>
        ensures { result ≡ reply_comp (reply_shown self.now) }
    {
        if self.granted {
            None
        } else {
            Some(comp_at(self.answer))
        }
    }

    /// The used number that a refusal names; none where it is a grant.
    pub fn used(&self) -> Option<Number>
        ensures { result ≡ reply_used (reply_shown self.now) }
    {
        if self.granted {
            None
        } else {
            Some(number_at(&self.answer[2..]))
        }
    }

    /// The reply, with the serial of the grant; or the component and its used number.
    pub fn reply(&self) -> Reply
        ensures { result ≡ reply_shown self.now }
    {
        if self.granted {
            Reply::Granted {
                class: self.class,
                request: self.request,
                inter: self.inter,
                serial: number_at(self.answer),
            }
        } else {
            Reply::Refused {
                class: self.class,
                request: self.request,
                inter: self.inter,
                comp: comp_at(self.answer),
                used: number_at(&self.answer[2..]),
            }
        }
    }
}

impl<'a> NotifyFrame<'a> {
    /// The component that is told to move.
    pub fn comp(&self) -> CompId
        ensures { result ≡ (notify_shown self.now).comp }
    {
        self.comp
    }

    /// The number of the offer that was granted.
    pub fn number(&self) -> Number
        ensures { result ≡ (notify_shown self.now).number }
    {
        self.number
    }

    /// The port to move by.
    pub fn port(&self) -> PortId
        ensures { result ≡ (notify_shown self.now).port }
    {
        self.port
    }

    /// The values as they lie in the source, four bytes each.
    pub fn vars(&self) -> &'a [u8]
        ensures { result.now ≡ notify_lent self.now }
    {
        self.vars
    }

    /// The value of a variable; none where there is no such variable.
    pub fn var(&self, i: usize) -> Option<u32>
        ensures { result ≡ slice_get (notify_shown self.now).values i }
    {
        value_at(self.count, self.vars, i)
    }

    /// The notification, as a value. Takes no memory.
    pub fn notify(&self) -> Notify
        ensures { result ≡ notify_shown self.now }
    {
        Notify {
            comp: self.comp,
            number: self.number,
            port: self.port,
            values: values_of(self.count, self.vars),
        }
    }
}
