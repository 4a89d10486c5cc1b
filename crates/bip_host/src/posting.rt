//! What is done with inboxes: opened, put into, taken from.
ghost use Rattle.std.specs.Prelude.{◌≡◌, [], ◌∷◌, ◌++◌, All, IfOk, MatchOption, MatchResult};
ghost use Rattle.std.specs.Prelude.{length};
ghost use Rattle.crossbeam_queue.specs.SegTies.{IsSegPassOf};
ghost use Rattle.bip_host.specs.Posting.{IsReaderOf, IsWriterOf, got_by, put_by};

use crate::inboxes::{Inbox, Reader, Writer};
use crate::merging::{Putting, Taking};
use crossbeam_queue::RuledSegQueue;
use std::alloc::{AllocError, Global};
use std::sync::Wait;

impl<M: Drop> Inbox<M> {
    /// An inbox with so many writers, none of which has put anything, and its reader, which has got
    /// nothing (docs/HOST.md, "Inboxes").
    pub fn new(
        alloc: Global,
        count: usize,
    ) -> Result<(Inbox<M>, Vec<Writer<M>>, Reader<M>), AllocError>
        ensures count { IfOk result (λ opened. length opened.1.items ≡ count) }
        ensures writers { IfOk result (λ opened.
            All (λ w. IsWriterOf opened.0 w × (put_by w ≡ [])) opened.1.items) }
        ensures reader { IfOk result (λ opened.
            IsReaderOf opened.0 opened.2 × (got_by opened.2 ≡ [])) }
    {
        let mut writers = Vec::with_capacity(alloc, count)?;
        let (queue, pass) = RuledSegQueue::with_rule(alloc)?;
        let inbox = Inbox { queue };
        for _ in 0..count {
            writers.push(inbox.writer())?;
        }
        Ok((inbox, writers, Reader { pass }))
    }

    /// One more writer, which has put nothing.
    fn writer(&self) -> Writer<M>
        ensures of { IsWriterOf self.now result }
        ensures none { put_by result ≡ [] }
    {
        Writer {
            pass: self.queue.pass(),
        }
    }

    /// Puts a message last, by one of the inbox's writers: that one has put it then, after all that
    /// it put before. Without memory the message comes back, and the writer has put nothing more.
    /// What is taken of it `inbox_laws` says.
    pub fn put<R: Wait>(&self, rt: &R, writer: &mut Writer<M>, message: M) -> Result<(), M>
        requires { IsWriterOf self.now writer.old }
        ensures of { IsWriterOf self.now writer.new }
        ensures put { MatchResult result
            (λ _. put_by writer.new ≡ put_by writer.old ++ message ∷ [])
            (λ back. (back ≡ message) × (put_by writer.new ≡ put_by writer.old)) }
    {
        self.queue
            .push_as::<Putting, R>(rt, &mut writer.pass, message)
    }

    /// Whether nothing stood in it at one moment of the call. Looking takes nothing and makes no
    /// room for a message; its reader has got as much as before, and put as little.
    pub fn is_empty(&self, reader: &mut Reader<M>) -> bool
        requires { IsReaderOf self.now reader.old }
        ensures of { IsReaderOf self.now reader.new }
        ensures same { reader.new.pass.me.view.client ≡ reader.old.pass.me.view.client }
    {
        self.queue.is_empty_as::<Taking>(&mut reader.pass)
    }

    /// Takes the first message, by the inbox's reader: that one has got it then, after all that it
    /// got before. Where there is none, it has got nothing more. What it gets was put, by
    /// `inbox_laws`.
    pub fn take<R: Wait>(&self, rt: &R, reader: &mut Reader<M>) -> Option<M>
        requires { IsReaderOf self.now reader.old }
        ensures of { IsReaderOf self.now reader.new }
        ensures got { MatchOption result (got_by reader.new ≡ got_by reader.old)
            (λ message. got_by reader.new ≡ got_by reader.old ++ message ∷ []) }
    {
        self.queue.pop_as::<Taking, R>(rt, &mut reader.pass)
    }
}
