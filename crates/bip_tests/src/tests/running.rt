ghost use Rattle.bip_bank.specs.Banks.{content_of};
ghost use Rattle.bip_core.specs.Starting.{IsUnasked};

use super::framing::{FIRST_OFFER, bytes_of};
use super::worked::{COMPETE, COMPETE_TWICE};
use super::{grants, over_plan};
use crate::Second;
use bip_bank::{Bank, BankStep, Central, StationId};
use bip_core::{Address, Event, Report, What, World, run_steps};
use bip_forks::Forks;
use bip_model::{ClassId, Grant, InterId, Number};
use bip_observe::Receipt;
use bip_partition::Plan;
use bip_ring::Ring;
use std::alloc::Global;
use std::process::Abort;

const OLDEST: Event = Event::Mail(0);

const SECOND: Event = Event::Mail(1);

const THIRD: Event = Event::Mail(2);

const TRY_X: Event = Event::Try(ClassId(0), InterId(0));

const TRY_Y: Event = Event::Try(ClassId(1), InterId(1));

const SERVE_X: Event = Event::Bank(BankStep::Serve(StationId(0)));

const SERVE_Y: Event = Event::Bank(BankStep::Serve(StationId(1)));

const PASS_X_Y: Event = Event::Bank(BankStep::Pass(StationId(0), StationId(1)));

const ASK_Y_X: Event = Event::Bank(BankStep::Ask(StationId(1), StationId(0)));

const DELIVER: Event = Event::Bank(BankStep::Deliver(0));

const DELIVER_1: Event = Event::Bank(BankStep::Deliver(1));

/// Events of a new world above 0, and what they come to.
type Events = (&'static [Event], Report);

/// The grants of a new world above 0, over the central bank, over a token ring and over forks: for
/// each the events, and what they come to.
#[derive(Drop)]
struct Alike {
    central: Events,
    ring: Events,
    forks: Events,
    trace: &'static str,
}

/// The same over a bank that serves only what was delivered before.
#[derive(Drop)]
struct Delivered {
    second: Events,
    trace: &'static str,
}

pub(super) fn report(events: u64, grants: u64, refusals: u64, idle: u64) -> Report {
    Report {
        lost: 0,
        events,
        grants,
        refusals,
        idle,
        skipped: 0,
    }
}

fn is_grant(grant: &Grant, other: &Grant) -> bool {
    grant.inter == other.inter && grant.wants.as_slice() == other.wants.as_slice()
}

fn are_grants(grants: &[Grant], others: &[Grant]) -> bool {
    grants.len() == others.len()
        && grants
            .iter()
            .zip(others.iter())
            .all(|(grant, other)| is_grant(grant, other))
}

pub(super) fn world<'p>(
    rt: &impl Abort,
    alloc: Global,
    plan: &'p Plan,
    base: Number,
) -> World<'p, Central<'p>> {
    assert!(rt; base < Number::MAX);
    let bank = Central::new(alloc, plan, base).expect(rt, "memory");
    World::new(alloc, plan, bank, base).expect(rt, "memory")
}

/// Events of a new world over any bank, what they come to, and the grants.
fn lead<B: Bank + Drop>(
    rt: &impl Abort,
    alloc: Global,
    plan: &Plan,
    bank: B,
    run: Events,
    trace: &str,
)
    requires { IsUnasked plan.now 0 (content_of (B.kept bank)) }
{
    let mut world = World::new(alloc, plan, bank, 0).expect(rt, "memory");
    assert!(rt; run_steps(&mut world, run.0) == run.1);
    let expected = grants(rt, alloc, plan.model(), trace);
    assert!(rt; are_grants(world.trace(), expected.as_slice()));
    drop(expected);
    drop(world);
}

fn run_alike(rt: &impl Abort, alloc: Global, plan: &Plan, runs: &Alike) {
    let central = Central::new(alloc, plan, 0).expect(rt, "memory");
    lead(rt, alloc, plan, central, runs.central, runs.trace);
    let ring = Ring::new(alloc, plan, 0).expect(rt, "memory");
    lead(rt, alloc, plan, ring, runs.ring, runs.trace);
    let forks = Forks::new(alloc, plan, 0).expect(rt, "memory");
    lead(rt, alloc, plan, forks, runs.forks, runs.trace);
}

fn run_delivered(rt: &impl Abort, alloc: Global, plan: &Plan, run: &Delivered) {
    let second = Second::new(alloc, plan, 0).expect(rt, "memory");
    lead(rt, alloc, plan, second, run.second, run.trace);
}

/// Whether the offer with this frame is in flight at a place, for a class.
fn is_offered<'p>(world: &World<'p, Central<'p>>, place: usize, class: u16, frame: &[u8]) -> bool {
    match world.mail(place) {
        Some((Address::Class(to), bytes)) => to.0 == class && bytes == frame,
        Some((_, _)) => false,
        None => false,
    }
}

/// What an event of a new world did, and what is in flight before and after it: the third component
/// is offered to both classes, by the same frame.
fn a_step(rt: &impl Abort, alloc: Global, plan: &Plan, _: ()) {
    let mut world = world(rt, alloc, plan, 0);
    let frame = bytes_of(rt, alloc, FIRST_OFFER);
    assert!(rt; world.mails() == 4 && world.mail(4).is_none() && world.message(4).is_none());
    assert!(rt; is_offered(&world, 2, 0, &frame) && is_offered(&world, 3, 1, &frame));
    let did = world.step(OLDEST).expect(rt, "memory");
    assert!(rt; matches!(&did.what, What::Hears(Receipt::Held)) && did.lost == 0);
    let did = world
        .step(Event::Try(ClassId(7), InterId(0)))
        .expect(rt, "memory");
    assert!(rt; matches!(&did.what, What::Nothing) && did.lost == 0);
    assert!(rt; is_offered(&world, 1, 0, &frame) && is_offered(&world, 2, 1, &frame));
    assert!(rt; world.mails() == 3 && world.message(3).is_none());
    drop(world);
}

#[test]
fn a_step_says_what_it_did(rt: HostRuntime) {
    over_plan(&rt, rt.alloc(), COMPETE, (), a_step);
}

#[test]
fn the_first_that_is_served_is_granted(rt: HostRuntime) {
    let runs = Alike {
        central: (
            &[
                OLDEST, OLDEST, OLDEST, OLDEST, TRY_X, TRY_Y, OLDEST, OLDEST, SERVE_X, SERVE_Y,
            ],
            report(10, 1, 1, 0),
        ),
        ring: (
            &[
                OLDEST, OLDEST, OLDEST, OLDEST, TRY_X, TRY_Y, OLDEST, OLDEST, SERVE_X, PASS_X_Y,
                DELIVER, SERVE_Y,
            ],
            report(12, 1, 1, 0),
        ),
        forks: (
            &[
                OLDEST, OLDEST, OLDEST, OLDEST, TRY_X, TRY_Y, OLDEST, OLDEST, SERVE_X, ASK_Y_X,
                DELIVER, PASS_X_Y, DELIVER, SERVE_Y,
            ],
            report(14, 1, 1, 0),
        ),
        trace: "grant x A:1 R:1",
    };
    over_plan(&rt, rt.alloc(), COMPETE, &runs, run_alike);
}

#[test]
fn who_is_served_first_is_granted_over_a_second_bank(rt: HostRuntime) {
    let first = Delivered {
        second: (
            &[
                OLDEST, OLDEST, OLDEST, OLDEST, TRY_X, TRY_Y, OLDEST, OLDEST, SERVE_X, DELIVER,
                SERVE_X, DELIVER, SERVE_Y,
            ],
            report(13, 1, 1, 1),
        ),
        trace: "grant x A:1 R:1",
    };
    over_plan(&rt, rt.alloc(), COMPETE, &first, run_delivered);
    let other = Delivered {
        second: (
            &[
                OLDEST, OLDEST, OLDEST, OLDEST, TRY_X, TRY_Y, OLDEST, OLDEST, DELIVER_1, SERVE_Y,
                DELIVER, SERVE_X,
            ],
            report(12, 1, 1, 0),
        ),
        trace: "grant y B:1 R:1",
    };
    over_plan(&rt, rt.alloc(), COMPETE, &other, run_delivered);
}

#[test]
fn one_below_waits_over_a_second_bank(rt: HostRuntime) {
    let run = Delivered {
        second: (
            &[
                OLDEST, OLDEST, OLDEST, OLDEST, OLDEST, TRY_X, TRY_Y, OLDEST, DELIVER, SERVE_Y,
                TRY_X, OLDEST, SECOND, SECOND, TRY_X, OLDEST, SECOND, TRY_X, THIRD, DELIVER,
                SERVE_X,
            ],
            report(21, 2, 0, 3),
        ),
        trace: "grant y B:1 R:1\ngrant x A:1 R:2 see B:2",
    };
    over_plan(&rt, rt.alloc(), COMPETE_TWICE, &run, run_delivered);
}
