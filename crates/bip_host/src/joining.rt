//! Inboxes apart from their ends, and joined to them.
ghost use Rattle.std.specs.Prelude.{◌≡◌, ◌<◌, IfOk};
ghost use Rattle.bip_host.specs.Ends.{AreIntakesOf};
ghost use Rattle.bip_host.specs.Mailboxes.{AreEndsOfEach};

use crate::ends::{Intake, Outlets};
use crate::inboxes::Inbox;
use crate::mailboxes::{LooseEnds, Mailbox};
use std::alloc::{AllocError, Global};

/// Parts inboxes from their ends, each of which stands at its inbox's place.
pub(crate) fn part_all<M: Drop>(
    alloc: Global,
    mailboxes: Vec<Mailbox<M>>,
) -> Result<(Vec<Inbox<M>>, Vec<LooseEnds<M>>), AllocError>
    ensures { IfOk result (λ parts. AreEndsOfEach parts.0.items parts.1.items) }
{
    let mut inboxes = Vec::with_capacity(alloc, mailboxes.len())?;
    let mut ends = Vec::with_capacity(alloc, mailboxes.len())?;
    for mailbox in mailboxes {
        let Mailbox {
            inbox,
            writers,
            reader,
        } = mailbox;
        inboxes.push(inbox)?;
        ends.push(LooseEnds { writers, reader })?;
    }
    Ok((inboxes, ends))
}

/// Joins ends to their inboxes, each to the one at its place: the reader of each inbox at its
/// place, and the writers of all.
pub(crate) fn join_all<'h, M: Drop>(
    alloc: Global,
    inboxes: &'h [Inbox<M>],
    ends: Vec<LooseEnds<M>>,
) -> Result<(Vec<Intake<'h, M>>, Outlets<'h, M>), AllocError>
    requires { AreEndsOfEach inboxes.now ends.items }
    ensures intakes { IfOk result (λ joined. AreIntakesOf inboxes.now joined.0.items) }
    ensures outlets { IfOk result (λ joined. joined.1.inboxes.now ≡ inboxes.now) }
{
    let mut intakes = Vec::with_capacity(alloc, inboxes.len())?;
    let mut all = Vec::with_capacity(alloc, inboxes.len())?;
    let mut place: usize = 0;
    for loose in ends {
        let LooseEnds { writers, reader } = loose;
        intakes.push(Intake::of(&inboxes[place], reader))?;
        all.push(writers)?;
        place += 1;
    }
    Ok((intakes, Outlets::of(inboxes, all)))
}
