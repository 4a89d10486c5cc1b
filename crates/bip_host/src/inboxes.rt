//! Inboxes and their ends. Definitions name these types, so what is done with them stands apart.
ghost use Rattle.std.specs.Prelude.{◌≡◌};

use crate::merging::{End, Merging};
use crossbeam_queue::{RuledSegQueue, SegPass};

/// Messages from several writers to one reader. Whatever threads do, what the reader has got,
/// followed by what stands in the inbox, is a merge of what the writers have put, each in its order
/// (docs/HOST.md, "Inboxes").
pub struct Inbox<M> {
    pub(crate) queue: RuledSegQueue<M, End<M>, Merging>,
}

/// The right to put into an inbox, which contracts see with what was put by it. It has no bytes.
#[derive(Drop)]
pub struct Writer<M> {
    pub(crate) pass: SegPass<M, End<M>>,
}

/// The right to take from an inbox, which contracts see with what was got by it. It has no bytes.
#[derive(Drop)]
pub struct Reader<M> {
    pub(crate) pass: SegPass<M, End<M>>,
    ghost first: { pass.id ≡ 0 },
}

impl<M: Drop> Drop for Inbox<M> {
    fn drop(self) {
        let Self { queue } = self;
        queue.destroy();
    }
}
