//! What nodes do, as it is told to a gate: each act by what tells it from all others.
ghost use Rattle.std.specs.Prelude.{◌≡◌};
ghost use Rattle.bip_host.specs.Acts.{parcel_of_reply, parcel_of_request};

use bip_bank::StationId;
use bip_model::{ClassId, CompId, InterId, Number, Reply, Request};

/// A message between nodes, by what tells it from all others.
#[derive(Clone, Copy, Debug, PartialEq, Eq)]
pub enum Parcel {
    /// A component's offer with this number, for the class.
    Offer(ClassId, CompId, Number),
    /// The class's request with this number, for the interaction.
    Request(ClassId, InterId, u64),
    /// The answer to this request of the class.
    Reply(ClassId, InterId, u64),
    /// What a component is told of the grant of its offer with this number.
    Notice(CompId, Number),
    /// The fork of two stations, which the first one sent.
    Fork(StationId, StationId),
    /// The request token of their fork, which the first one sent.
    Ask(StationId, StationId),
}

impl Parcel {
    /// A request as a message.
    pub fn of_request(request: &Request) -> Parcel
        ensures { result ≡ parcel_of_request request.now }
    {
        Parcel::Request(request.class, request.inter, request.request)
    }

    /// An answer as a message.
    pub fn of_reply(reply: &Reply) -> Parcel
        ensures { result ≡ parcel_of_reply reply.now }
    {
        match *reply {
            Reply::Granted {
                class,
                request,
                inter,
                ..
            } => Parcel::Reply(class, inter, request),
            Reply::Refused {
                class,
                request,
                inter,
                ..
            } => Parcel::Reply(class, inter, request),
        }
    }
}

/// What a node did. A token that goes round a ring isn't told of: where it went is known by who
/// decided (docs/HOST.md, "What nodes did").
#[derive(Clone, Copy, Debug, PartialEq, Eq)]
pub enum NodeAct {
    /// It took this message; with one table a class takes its request for that.
    Takes(Parcel),
    /// It sent this to another station.
    Sends(Parcel),
    /// The class tried an interaction, and asks for it.
    Asks(ClassId, InterId),
    /// The class tried a local interaction, whose grant stands in the book.
    Grants(ClassId, InterId),
    /// Who decides for the interaction granted its request, and the grant stands in the book.
    Serves(InterId),
    /// Who decides for the interaction refused its request: the component's used number is this.
    Refuses(InterId, CompId, Number),
}
