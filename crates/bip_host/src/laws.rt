//! What definitions mean, as laws for reviewers: each is the contract of a function without effect.
ghost use Rattle.bip_host.specs.Laws.{DrainsInOrder, EntryIsOwn, MergesAddNothing};
ghost use Rattle.bip_host.specs.Laws.{MergesKeepOrder};

/// What stands in an inbox, behind what its reader has got, is a merge of what its writers have
/// put: of each of them all, in its order; and each message just as often as they have put it
/// together, so that nothing is taken that wasn't put, or twice (docs/HOST.md, "Inboxes").
pub fn inbox_laws<M>()
    ensures order { MergesKeepOrder M }
    ensures once { MergesAddNothing M }
{}

/// What is drained into the book waited with the serials from the next one on, none skipped; and it
/// ends where the next one isn't there, or the book doesn't take it. An entry that is found where a
/// grant waited is of that grant (docs/HOST.md, "Row words").
pub fn drain_laws()
    ensures order { DrainsInOrder }
    ensures own { EntryIsOwn }
{}
