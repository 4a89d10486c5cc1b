//! What is put into the inboxes of classes and of stations.
use crate::books::Entry;
use crate::settled::Settled;
use bip_forks::{AskToken, Fork};
use bip_model::{Offer, Reply, Request};
use bip_ring::Token;

/// What the actor of a class hears.
#[derive(Drop)]
pub enum ToClass {
    /// A component's offer.
    Offer(Offer),
    /// The request with this number is granted with this serial, and the grant stands in the book.
    Granted {
        entry: Entry,
        request: u64,
        serial: u64,
    },
    /// A request is refused.
    Refused(Reply),
}

/// What the actor of a station hears.
#[derive(Drop)]
pub enum ToStation {
    /// Its class asks for its interaction.
    Asked(Request),
    /// The station before it in the ring hands the token on.
    Token(Settled<Token>),
    /// A neighbour asks for the fork that they share.
    Ask(AskToken),
    /// A neighbour sends it.
    Fork(Fork),
}
