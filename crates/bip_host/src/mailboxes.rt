//! Inboxes with their ends, before threads have them.
ghost use Rattle.std.specs.Prelude.{◌≡◌, All, IfOk};
ghost use Rattle.bip_host.specs.Posting.{IsReaderOf, IsWriterOf};

use crate::inboxes::{Inbox, Reader, Writer};
use std::alloc::{AllocError, Global};

/// The ends of one inbox, which aren't joined to it.
#[derive(Drop)]
pub(crate) struct LooseEnds<M> {
    pub(crate) writers: Vec<Writer<M>>,
    pub(crate) reader: Reader<M>,
}

/// An inbox with its ends.
#[derive(Drop)]
pub(crate) struct Mailbox<M: Drop> {
    pub(crate) inbox: Inbox<M>,
    pub(crate) writers: Vec<Writer<M>>,
    pub(crate) reader: Reader<M>,
    ghost written: { All (IsWriterOf inbox) writers.items },
    ghost read: { IsReaderOf inbox reader },
}

impl<M: Drop> Mailbox<M> {
    /// An inbox with so many writers.
    pub(crate) fn new(alloc: Global, count: usize) -> Result<Mailbox<M>, AllocError> {
        let (inbox, writers, reader) = Inbox::new(alloc, count)?;
        Ok(Mailbox {
            inbox,
            writers,
            reader,
        })
    }
}
