//! The laws above the definitions: what a reviewer reads to know what events do. The call does
//! nothing, and has the laws for its contract.
ghost use Rattle.bip_core.specs.Doubled.{AgreementAllowsCopies, CopiesAreRefused, DoublingKeeps};
ghost use Rattle.bip_core.specs.Doubled.{EachMayBeDoubled, EventsKeepWithCopies, NoneNeedBeDoubled};
ghost use Rattle.bip_core.specs.Doubled.{RunsWithCopiesAreRuns};
ghost use Rattle.bip_core.specs.Repeats.{OneNewWorld, OneRun};
ghost use Rattle.bip_core.specs.Sentences.{AgreementInSix, NoneToldIsStale, OneOfferOut};
ghost use Rattle.bip_core.specs.Laws.{FirstOffersAreSent, GrantsJoinTheTrace, MessagesAreCounted};
ghost use Rattle.bip_core.specs.Laws.{MessagesAreSent, MessagesGoOnce, NoWorkIsIdle};
ghost use Rattle.bip_core.specs.Laws.{ToldCanBeTaken};
ghost use Rattle.bip_core.specs.Laws.{TracesGoOn, WorkIsDone, WorldsKeepTheirPlan};

/// An event's grant joins the trace, and nothing else does; so traces go on, by as many grants as
/// were given. Messages are neither made up nor doubled, and one that is handed on is in flight no
/// more; none vanishes but by that, or is counted as lost. At first each component's first offer is
/// in flight, once to each class that touches it, and nothing else. The plan stays, the bank's
/// base, and whose nodes stand where. What is told by offers that show a state, each component can
/// do there (docs/PROTOCOL.md, "The world and its events").
pub fn world_laws()
    ensures join { GrantsJoinTheTrace }
    ensures go_on { TracesGoOn }
    ensures plan { WorldsKeepTheirPlan }
    ensures sent { MessagesAreSent }
    ensures once { MessagesGoOnce }
    ensures counted { MessagesAreCounted }
    ensures first { FirstOffersAreSent }
    ensures taken { ToldCanBeTaken }
    ensures work { WorkIsDone }
    ensures idle { NoWorkIsIdle }
{}

/// Messages may be doubled. Whatever events a world that agrees with its trace does, and whatever
/// messages in flight are put once more between them, behind all others, as often as one likes:
/// the trace is a run of the model with its priorities, and no component is moved twice with one
/// number. It is so for any bank, any plan, and for messages of any kind. A world agrees with its
/// trace all the same, in a weaker form, which each doubling keeps and each event; in it a copy of
/// a request that was granted is refused (docs/PROTOCOL.md, "Copies").
pub fn doubled_laws()
    ensures each { EachMayBeDoubled }
    ensures none { NoneNeedBeDoubled }
    ensures allows { AgreementAllowsCopies }
    ensures doubles { DoublingKeeps }
    ensures events { EventsKeepWithCopies }
    ensures refused { CopiesAreRefused }
    ensures run { RunsWithCopiesAreRuns }
{}

/// What it means that a world agrees with its trace, in six parts: of the trace, of each component,
/// of each offer, of used and known numbers, of each request, and of records with what is about
/// them. So an offer that is out is the only one of its component with that number, unless that is
/// used; and by each notification in flight its component can move (docs/PROTOCOL.md,
/// "Agreement").
pub fn agreement_laws()
    ensures six { AgreementInSix }
    ensures one { OneOfferOut }
    ensures taken { NoneToldIsStale }
{}

/// What runs have in common. A plan has one new world above a base, by what its bank's stations
/// share. Two runs of the same events from one world leave one trace and have one report, where
/// stations share nothing, a token or forks, no event was skipped and no message lost
/// (docs/PROTOCOL.md, "The world and its events").
pub fn repeat_laws()
    ensures new { OneNewWorld }
    ensures run { OneRun }
{}
