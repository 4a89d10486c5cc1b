//! Messages in flight.
use bip_model::{ClassId, Notify, Offer, Reply, Request};

/// A message in flight, by whom it is for.
#[derive(Drop)]
pub enum Message {
    /// An offer of a component to a class.
    OfferTo(ClassId, Offer),
    /// A request of the class's node, to the bank.
    RequestToBank(Request),
    /// The bank's reply, to the class whose request it answers.
    ReplyToClass(Reply),
    /// What a granted component is told.
    NotifyComponent(Notify),
}
