//! The laws above the definitions: what a reviewer reads to know what schedules and seeds are. The
//! call does nothing, and has the laws for its contract.
ghost use Rattle.bip_schedule.specs.Laws.{BusySeedsAreNeverIdle, EventsHaveNoFault, EventsOrFault};
ghost use Rattle.bip_schedule.specs.Laws.{LinesAreEvents};
ghost use Rattle.bip_schedule.specs.Laws.{LinesAreUnknown, LinesSayNothing, OneSchedule};
ghost use Rattle.bip_schedule.specs.Laws.{OneScheduleFault, OneSeedTrace, OneStations};

/// A plan has one list of stations. A line says an event exactly where its words are those of that
/// event, and nothing where it has none; it has an unknown name where they have the form of an
/// event's and are none, else no form. A text is one list of events of a plan, or has one first
/// fault, never both. A seed draws the same each time: two runs of it did the same events and have
/// one trace, where stations share nothing, a token or forks, no event was skipped and no message
/// lost; and of busy events none is idle then (docs/ANSWERS.md, "Exploring", "Busy events by
/// chance").
pub fn schedule_laws()
    ensures stations { OneStations }
    ensures lines { LinesAreEvents }
    ensures nothing { LinesSayNothing }
    ensures unknown { LinesAreUnknown }
    ensures events { OneSchedule }
    ensures fault { OneScheduleFault }
    ensures apart { EventsHaveNoFault }
    ensures either { EventsOrFault }
    ensures seed { OneSeedTrace }
    ensures busy { BusySeedsAreNeverIdle }
{}
