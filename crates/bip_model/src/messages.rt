//! Messages: what components and the nodes of a distributed execution tell one another.
ghost use Rattle.std.specs.Prelude.{◌≡◌, ◌↔◌, IfSome, IsSome};
ghost use Rattle.bip_model.specs.Messages.{IsNotifies};

use crate::{ClassId, CompId, InterId, Number, PortId, Reasons, Values, Wants};
use arrayvec::ArrayVec;
use std::marker::Model;

/// How many components a grant notifies at most.
pub const MOST_NOTIFIES: usize = 8;

/// What a component offers: the ports that it can move by in its local state (bit p is port p), its
/// values there, and the number of its next move.
#[derive(Clone, Copy, Debug)]
pub struct Offer {
    pub number: Number,
    pub values: Values,
    pub comp: CompId,
    pub ports: u16,
}

/// What a component is told: to move by a port from these values. The number is that of the offer
/// that was granted.
#[derive(Clone, Copy, Debug, Default)]
pub struct Notify {
    pub number: Number,
    pub values: Values,
    pub comp: CompId,
    pub port: PortId,
}

/// One to eight notifications, kept in place. Contracts see them as the list.
#[derive(Drop)]
pub struct Notifies {
    notifies: ArrayVec<Notify, MOST_NOTIFIES>,
}

impl Model for Notifies {
    ghost use Rattle.std.specs.Prelude.{List};
    ghost use Rattle.bip_model.specs.Messages.{IsNotifies};
    ghost use Rattle.bip_model.specs.declared.messages.Notify.{Notify};

    ghost Value = { List Notify };

    ghost view = { λ n. n.notifies.items };

    ghost invariant = { λ n. IsNotifies n.notifies.items };
}

impl Notifies {
    /// The notifications of a list; none where it has none, or more than eight.
    pub fn of(list: &[Notify]) -> Option<Notifies>
        ensures notifies { IfSome result (λ notifies. notifies ≡ list.now) }
        ensures exact { IsSome result ↔ IsNotifies list.now }
    {
        if list.is_empty() {
            return None;
        }
        match ArrayVec::try_from(list) {
            Ok(notifies) => Some(Notifies { notifies }),
            Err(_) => None,
        }
    }

    /// The notifications, in their order.
    pub fn as_slice(&self) -> &[Notify]
        ensures notifies { result.now ≡ self.now }
        ensures valid { IsNotifies self.now }
    {
        self.notifies.as_slice()
    }

    /// The same notifications once more. Takes no memory.
    pub fn copy(&self) -> Notifies
        ensures { result ≡ self.now }
    {
        match ArrayVec::try_from(self.notifies.as_slice()) {
            Ok(notifies) => Notifies { notifies },
            Err(_) => unreachable!(),
        }
    }
}

/// A request of a class's node to the third layer: to grant an interaction with these wants. Its
/// reasons say why nothing above the interaction is enabled; without any the wants are of all that
/// the interaction looks at. The class numbers its requests.
#[derive(Drop)]
pub struct Request {
    pub wants: Wants,
    pub reasons: Reasons,
    pub request: u64,
    pub class: ClassId,
    pub inter: InterId,
}

impl Request {
    /// The same request once more. Takes no memory.
    pub fn copy(&self) -> Request
        ensures { result ≡ self.now }
    {
        Request {
            class: self.class,
            request: self.request,
            inter: self.inter,
            wants: self.wants.copy(),
            reasons: self.reasons.copy(),
        }
    }
}

/// The third layer's answer to a request of a class.
#[derive(Clone, Copy, Debug, PartialEq, Eq)]
pub enum Reply {
    /// The interaction is granted; the serial is the place of the grant among all.
    Granted {
        class: ClassId,
        request: u64,
        inter: InterId,
        serial: u64,
    },
    /// A number of the request is used up already: the lowest such component, and its used number.
    Refused {
        class: ClassId,
        request: u64,
        inter: InterId,
        comp: CompId,
        used: Number,
    },
}
