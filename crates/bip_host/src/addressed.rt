//! Outlets by the number of whom their inboxes belong to.
ghost use Rattle.std.specs.Prelude.{◌≡◌, ℕ, ◌++◌, ◌∷◌, [], All, IfNone, IfSome, IsSomeAnd, OnOk};
ghost use Rattle.std.specs.Prelude.{Some, length, slice_get};
ghost use Rattle.bip_host.specs.Addressed.{IsKeptPut, IsPostedTo, IsPutFor, LacksNumber};

use crate::counts::Posted;
use crate::ends::Outlet;
use crate::inboxes::Inbox;
use std::alloc::{AllocError, Global};
use std::sync::Wait;

/// An outlet, with the number of whom its inbox belongs to.
#[derive(Drop)]
pub(crate) struct Numbered<'h, M> {
    number: usize,
    outlet: Outlet<'h, M>,
}

/// Outlets by the number of whom their inboxes belong to: that of the inbox among all of its kind.
#[derive(Drop)]
pub(crate) struct Addressed<'h, M> {
    inboxes: &'h [Inbox<M>],
    outlets: Vec<Numbered<'h, M>>,
    ghost own: { All (λ o. slice_get inboxes.now o.number ≡ Some o.outlet.inbox.now)
        outlets.items },
}

impl<'h, M: Drop> Addressed<'h, M> {
    /// No outlets so far, of these inboxes.
    pub(crate) fn new(alloc: Global, inboxes: &'h [Inbox<M>]) -> Addressed<'h, M>
        ensures none { result.outlets.items ≡ [] }
        ensures of { result.inboxes.now ≡ inboxes.now }
    {
        Addressed {
            inboxes,
            outlets: Vec::new(alloc),
        }
    }

    /// One more outlet, of the inbox of whom has this number.
    pub(crate) fn add(&mut self, number: usize, outlet: Outlet<'h, M>) -> Result<(), AllocError>
        requires { slice_get self.old.inboxes.now number ≡ Some outlet.inbox.now }
        ensures of { self.new.inboxes.now ≡ self.old.inboxes.now }
        ensures added { OnOk result (self.new.outlets.items ≡ self.old.outlets.items
            ++ record { number = number; outlet = outlet.entry } ∷ []) }
    {
        Ok(self.outlets.push(Numbered { number, outlet })?)
    }

    /// Sends a message to whom has this number. It comes back where there is no memory for it, or
    /// no such outlet.
    pub(crate) fn send<R: Wait>(&mut self, rt: &R, number: usize, message: M) -> Option<M>
        ensures sent { IfNone result ((k : ℕ)
            × IsPutFor k number message self.old.outlets.items self.new.outlets.items) }
        ensures back { IfSome result (λ back. (back ≡ message)
            × IsKeptPut self.old.outlets.items self.new.outlets.items) }
    {
        match self.place_of(number) {
            Some(place) => self.outlets[place].outlet.send(rt, message),
            None => Some(message),
        }
    }

    /// Sends a message to whom has this number, and says whether it is lost.
    pub(crate) fn post<R: Wait>(&mut self, rt: &R, number: usize, message: M) -> Posted
        ensures { IsPostedTo number message self.old.outlets.items result
            self.new.outlets.items }
    {
        match self.send(rt, number, message) {
            None => Posted::Sent,
            Some(_) => Posted::Lost,
        }
    }

    /// The place of the first outlet with this number, if there is one.
    fn place_of(&self, number: usize) -> Option<usize>
        ensures some { IfSome result (λ k. IsSomeAnd (slice_get self.now.outlets.items k)
            (λ o. o.number ≡ number)) }
        ensures none { IfNone result (LacksNumber number self.now.outlets.items
            (length self.now.outlets.items)) }
    {
        for place in 0..self.outlets.len() {
            if self.outlets[place].number == number {
                return Some(place);
            }
        }
        None
    }
}
