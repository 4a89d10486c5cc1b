//! The ends of inboxes, each with its inbox.
ghost use Rattle.std.specs.Prelude.{◌≡◌, ◌++◌, ◌∷◌, [], IfSome, MatchOption, slice_get};
ghost use Rattle.bip_host.specs.Mailboxes.{AreWritersAt};
ghost use Rattle.bip_host.specs.Posting.{IsPostedBy, IsReaderOf, IsWriterOf, got_by, put_by};

use crate::counts::Posted;
use crate::inboxes::{Inbox, Reader, Writer};
use std::sync::Wait;

/// A writer with its inbox.
#[derive(Drop)]
pub(crate) struct Outlet<'h, M> {
    pub(crate) inbox: &'h Inbox<M>,
    writer: Writer<M>,
    ghost fits: { IsWriterOf inbox.now writer },
}

impl<'h, M: Drop> Outlet<'h, M> {
    pub(crate) fn of(inbox: &'h Inbox<M>, writer: Writer<M>) -> Outlet<'h, M>
        requires { IsWriterOf inbox.now writer }
        ensures { (result.inbox.now ≡ inbox.now) × (result.writer ≡ writer) }
    {
        Outlet { inbox, writer }
    }

    /// Sends a message: its writer has put it last. Without memory it comes back, and the writer
    /// has put nothing more.
    pub(crate) fn send<R: Wait>(&mut self, rt: &R, message: M) -> Option<M>
        ensures inbox { self.new.inbox.now ≡ self.old.inbox.now }
        ensures put { MatchOption result
            (put_by self.new.writer ≡ put_by self.old.writer ++ message ∷ [])
            (λ back. (back ≡ message) × (put_by self.new.writer ≡ put_by self.old.writer)) }
    {
        let Outlet { inbox, writer } = self;
        inbox.put(rt, writer, message).err()
    }

    /// Sends a message, and says whether it is lost.
    pub(crate) fn post<R: Wait>(&mut self, rt: &R, message: M) -> Posted
        ensures { IsPostedBy message self.old.writer result self.new.writer }
    {
        match self.send(rt, message) {
            None => Posted::Sent,
            Some(_) => Posted::Lost,
        }
    }
}

/// A reader with its inbox.
#[derive(Drop)]
pub(crate) struct Intake<'h, M> {
    pub(crate) inbox: &'h Inbox<M>,
    reader: Reader<M>,
    ghost fits: { IsReaderOf inbox.now reader },
}

impl<'h, M: Drop> Intake<'h, M> {
    pub(crate) fn of(inbox: &'h Inbox<M>, reader: Reader<M>) -> Intake<'h, M>
        requires { IsReaderOf inbox.now reader }
        ensures { (result.inbox.now ≡ inbox.now) × (result.reader ≡ reader) }
    {
        Intake { inbox, reader }
    }

    /// Whether there was none at one moment of the call: its reader has got nothing by that.
    pub(crate) fn is_empty(&mut self) -> bool
        ensures { got_by self.new.reader ≡ got_by self.old.reader }
    {
        let Intake { inbox, reader } = self;
        inbox.is_empty(reader)
    }

    /// The next message, if there is one: its reader has got it.
    pub(crate) fn receive<R: Wait>(&mut self, rt: &R) -> Option<M>
        ensures { MatchOption result (got_by self.new.reader ≡ got_by self.old.reader)
            (λ message. got_by self.new.reader ≡ got_by self.old.reader ++ message ∷ []) }
    {
        let Intake { inbox, reader } = self;
        inbox.take(rt, reader)
    }
}

/// Several inboxes, with those of their writers that aren't handed out yet, by inbox.
#[derive(Drop)]
pub(crate) struct Outlets<'h, M> {
    inboxes: &'h [Inbox<M>],
    writers: Vec<Vec<Writer<M>>>,
    ghost fits: { AreWritersAt (λ ws. ws.items) inboxes.now writers.items },
}

impl<'h, M: Drop> Outlets<'h, M> {
    /// These writers of inboxes, those at a place of the inbox there.
    pub(crate) fn of(inboxes: &'h [Inbox<M>], writers: Vec<Vec<Writer<M>>>) -> Outlets<'h, M>
        requires { AreWritersAt (λ ws. ws.items) inboxes.now writers.items }
        ensures { result.inboxes.now ≡ inboxes.now }
    {
        Outlets { inboxes, writers }
    }

    /// The inboxes.
    pub(crate) fn inboxes(&self) -> &'h [Inbox<M>]
        ensures { result.now ≡ self.now.inboxes.now }
    {
        self.inboxes
    }

    /// One more outlet of the inbox at a place, if there is one.
    pub(crate) fn take(&mut self, place: usize) -> Option<Outlet<'h, M>>
        ensures of { IfSome result (λ outlet.
            slice_get self.old.inboxes.now place ≡ Some outlet.inbox.now) }
        ensures inboxes { self.new.inboxes.now ≡ self.old.inboxes.now }
    {
        if place >= self.inboxes.len() || place >= self.writers.len() {
            return None;
        }
        let writer = self.writers[place].pop()?;
        Some(Outlet::of(&self.inboxes[place], writer))
    }
}
