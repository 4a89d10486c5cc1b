//! Events by chance. The words of seed 1 and their events were worked out by hand from the rules of
//! the generator and the table; the reports of the other seeds by another program.
use super::over_plan;
use super::running::{report, world};
use super::worked::COMPETE;
use bip_bank::{BankStep, Central, StationId};
use bip_core::{Event, Report};
use bip_forks::Forks;
use bip_model::{ClassId, InterId};
use bip_partition::Plan;
use bip_schedule::{Draw, Draws, explore, seeded};
use std::alloc::Global;
use std::process::Abort;

const X: StationId = StationId(0);

const Y: StationId = StationId(1);

const TRY_Y: Event = Event::Try(ClassId(1), InterId(1));

/// What is drawn of a seed: so many events by the table, perhaps these, with this report.
#[derive(Drop)]
struct Drawn {
    seed: u64,
    draws: Draws,
    events: Option<&'static [Event]>,
    report: Report,
}

fn draws(rt: &impl Abort, alloc: Global, plan: &Plan, drawn: &Drawn) {
    let mut world = world(rt, alloc, plan, 0);
    let (events, report) = seeded(alloc, &mut world, drawn.seed, drawn.draws).expect(rt, "memory");
    assert!(rt; report == drawn.report);
    assert!(rt; events.len() == drawn.draws.count as usize);
    assert!(rt; world.trace().len() as u64 == report.grants);
    if let Some(expected) = drawn.events {
        assert!(rt; events.as_slice() == expected);
    }
    drop(events);
    drop(world);
}

#[test]
fn the_words_of_a_seed_are_its_events(rt: HostRuntime) {
    const DRAWN: Drawn = Drawn {
        seed: 1,
        draws: Draws {
            count: 10,
            by: Draw::Table,
        },
        events: Some(&[
            Event::Mail(0),
            Event::Mail(2),
            Event::Bank(BankStep::Serve(Y)),
            Event::Bank(BankStep::Deliver(0)),
            TRY_Y,
            Event::Mail(0),
            TRY_Y,
            Event::Bank(BankStep::Deliver(0)),
            Event::Try(ClassId(0), InterId(0)),
            Event::Bank(BankStep::Pass(X, Y)),
        ]),
        report: Report {
            lost: 0,
            events: 10,
            grants: 0,
            refusals: 0,
            idle: 6,
            skipped: 0,
        },
    };
    over_plan(&rt, rt.alloc(), COMPETE, &DRAWN, draws);
}

/// So many events by the table.
const MANY: Draws = Draws {
    count: 200,
    by: Draw::Table,
};

/// Explores as many seeds, from 1 on, with 200 events each: they have these reports, and as many
/// grants in all.
fn explores(rt: &impl Abort, alloc: Global, plan: &Plan, (seeds, reports): (u32, &[Report])) {
    for (place, report) in reports.iter().enumerate() {
        let drawn = Drawn {
            seed: place as u64 + 1,
            draws: MANY,
            events: None,
            report: *report,
        };
        draws(rt, alloc, plan, &drawn);
    }
    let make = || Central::new(alloc, plan, 0);
    let explored = explore(alloc, plan, make, 0, seeds, MANY).expect(rt, "runs");
    let grants = reports
        .iter()
        .fold(0u64, |sum, report| sum.saturating_add(report.grants));
    assert!(rt; explored.seeds() == seeds && explored.report().events == u64::from(seeds) * 200);
    assert!(rt; explored.report().grants == grants && explored.tally().grants() == grants);
}

#[test]
fn explored_are_the_traces_of_all_seeds(rt: HostRuntime) {
    let reports = [
        report(200, 1, 1, 183),
        report(200, 1, 0, 187),
        report(200, 1, 0, 187),
    ];
    over_plan(&rt, rt.alloc(), COMPETE, (3, &reports[..]), explores);
}

/// Two lamps, each with a switch of its own, as in examples/two_lamps.
const LAMPS: &str =
    "bip 1\ncomponent A\nloc off\nloc on\nport switch\ntrans switch off on\nend\ncomponent B\n\
    loc off\nloc on\nport switch\ntrans switch off on\nend\ninteraction light_a A.switch\n\
    interaction light_b B.switch\nclass left light_a\nclass right light_b\n";

/// A reactor and its two rods, as in examples/temperature_control.
const REACTOR: &str =
    "bip 1\ncomponent Reactor\nvar heat 2\nloc heating\nloc cooled1\nloc cooled2\nloc shut\n\
    port tick\nport cool1\nport cool2\nport end1\nport end2\nport shut_down\n\
    trans tick heating heating when heat < 5 do heat := heat + 1\n\
    trans cool1 heating cooled1 when heat >= 4\ntrans cool2 heating cooled2 when heat >= 4\n\
    trans tick cooled1 cooled1 when heat > 2 do heat := heat - 1\n\
    trans tick cooled2 cooled2 when heat > 2 do heat := heat - 1\n\
    trans end1 cooled1 heating when heat = 2\ntrans end2 cooled2 heating when heat = 2\n\
    trans shut_down heating shut when heat = 5\nend\ncomponent Rod1\nvar rested 3\nloc out\n\
    loc in\nport tick\nport cool\nport end_\ntrans tick out out do rested := rested + 1\n\
    trans tick in in\ntrans cool out in when rested >= 3 do rested := 0\ntrans end_ in out\nend\n\
    component Rod2\nvar rested 0\nloc out\nloc in\nport tick\nport cool\nport end_\n\
    trans tick out out do rested := rested + 1\ntrans tick in in\n\
    trans cool out in when rested >= 3 do rested := 0\ntrans end_ in out\nend\n\
    interaction tick Reactor.tick Rod1.tick Rod2.tick\n\
    interaction cool1 Reactor.cool1 Rod1.cool\ninteraction cool2 Reactor.cool2 Rod2.cool\n\
    interaction end1 Reactor.end1 Rod1.end_\ninteraction end2 Reactor.end2 Rod2.end_\n\
    interaction shut_down Reactor.shut_down\npriority shut_down < cool1\n\
    priority shut_down < cool2\nclass control tick cool1 cool2 end1 end2 shut_down\n";

/// So many seeds, and what is drawn of each.
const SEEDS: u32 = 20;

const MANY_MORE: Draws = Draws {
    count: 2000,
    by: Draw::Table,
};

/// The mean number of grants of a seed stands in docs/ANSWERS.md, "Exploring": with the table of
/// one bank the least of all examples, 2, and with forks the greatest, 4.
fn grants_with_central(rt: &impl Abort, alloc: Global, plan: &Plan, grants: u64) {
    let make = || Central::new(alloc, plan, 0);
    let explored = explore(alloc, plan, make, 0, SEEDS, MANY_MORE).expect(rt, "runs");
    assert!(rt; explored.report().grants == grants);
}

fn grants_with_forks(rt: &impl Abort, alloc: Global, plan: &Plan, grants: u64) {
    let make = || Forks::new(alloc, plan, 0);
    let explored = explore(alloc, plan, make, 0, SEEDS, MANY_MORE).expect(rt, "runs");
    assert!(rt; explored.report().grants == grants);
}

#[test]
fn seeds_of_two_lamps_have_two_grants_each(rt: HostRuntime) {
    over_plan(&rt, rt.alloc(), LAMPS, 40, grants_with_central);
}

#[test]
fn seeds_of_a_reactor_with_forks_have_four_grants_in_the_mean(rt: HostRuntime) {
    over_plan(&rt, rt.alloc(), REACTOR, 73, grants_with_forks);
}
