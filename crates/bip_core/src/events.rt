//! Events, and what they do.
use bip_bank::{Acted, BankStep};
use bip_component::Notified;
use bip_ip::{Answered, Tried};
use bip_model::{ClassId, InterId};
use bip_observe::Receipt;

/// One event of the world.
#[derive(Clone, Copy, Debug, PartialEq, Eq)]
pub enum Event {
    /// The message at this place among those in flight, in order of sending, is handed on.
    Mail(usize),
    /// The node of the class tries the interaction.
    Try(ClassId, InterId),
    /// The bank does a step.
    Bank(BankStep),
}

/// What an event did: the answer of the node that it addressed.
#[derive(Drop)]
pub enum What {
    /// There is no such message, or no such class.
    Nothing,
    /// A class got an offer.
    Hears(Receipt),
    /// The bank got a request.
    Submits,
    /// A class got a reply.
    Learns(Answered),
    /// A component was notified.
    Moves(Notified),
    /// A class tried an interaction.
    Tries(Tried),
    /// The bank did a step.
    Acts(Acted),
}

/// What an event did, and how many of its messages couldn't be made for want of memory: they count
/// as never delivered.
#[derive(Drop)]
pub struct Did {
    pub what: What,
    pub lost: usize,
}
