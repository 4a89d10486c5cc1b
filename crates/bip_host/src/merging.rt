//! The rule of an inbox: what its ends have put and got, and what each step may make of that.

use crossbeam_queue::protocol::{Lesson, Outcome, Protocol};
use std::collections::LinkedList;

/// What an end of an inbox has put and got so far. Contracts alone speak of it: no value of it is
/// ever made.
pub struct End<M> {
    pub put: LinkedList<M>,
    pub got: LinkedList<M>,
}

/// The rule of an inbox, which each step keeps: what the reader has got, followed by what stands in
/// the queue, is a merge of what the writers have put, each in its order (docs/HOST.md, "Inboxes").
pub struct Merging;

impl<M> Protocol<M, End<M>> for Merging {
    ghost use Rattle.std.specs.Prelude.{[]};
    ghost use Rattle.bip_host.specs.Merging.{IsMerged, end};

    ghost holds = { IsMerged };

    ghost first = { end [] [] };
}

/// A message is put last: the end has put one more.
pub(crate) struct Putting;

impl<M> Outcome<M, End<M>> for Putting {
    ghost use Rattle.std.specs.Prelude.{◌≡◌, [], ◌∷◌, ◌++◌};
    ghost use Rattle.bip_host.specs.Merging.{end};

    ghost then = { λ old message new. new ≡ end (old.put ++ message ∷ []) old.got };
}

/// The first message is taken: the end has got one more. Where there is none nothing changes.
pub(crate) struct Taking;

impl<M> Outcome<M, End<M>> for Taking {
    ghost use Rattle.std.specs.Prelude.{◌≡◌, [], ◌∷◌, ◌++◌};
    ghost use Rattle.bip_host.specs.Merging.{end};

    ghost then = { λ old message new. new ≡ end old.put (old.got ++ message ∷ []) };
}

impl<M> Lesson<M, End<M>> for Taking {
    ghost use Rattle.std.specs.Prelude.{⊤};

    ghost fact = { λ old items. ⊤ };
}
