ghost use Rattle.std.specs.Prelude.{◌≡◌};
ghost use Rattle.bip_bank.specs.Banks.{content_of};

use self::Step::{Delivers, Goes, Serves, Shows, Submits, Tries};
use super::over_plan;
use super::refusing::{call, called};
use super::tabling::{Wanted, request};
use crate::Second;
use bip_bank::{Acted, Bank, BankStep, Central, StationId};
use bip_forks::Forks;
use bip_model::{CompId, Request};
use bip_partition::Plan;
use bip_ring::Ring;
use bip_table::Decision;
use std::alloc::{AllocError, Global};
use std::process::Abort;

/// Two components that each move with a third, in two classes, so both interactions have a station.
const COMPETE: &str = "bip 1\n\
    component A\nloc off\nloc on\nport s\ntrans s off on\nend\n\
    component B\nloc off\nloc on\nport s\ntrans s off on\nend\n\
    component R\nloc free\nloc taken\nport g\ntrans g free taken\nend\n\
    interaction x A.s R.g\ninteraction y B.s R.g\nclass P x\nclass Q y\n";

/// Two components that each move only where a third can't, so that both interactions look at it.
const LOOK: &str = "bip 1\n\
    component A\nloc off\nloc on\nport s\ntrans s off on\nend\n\
    component B\nloc off\nloc on\nport s\ntrans s off on\nend\n\
    component C\nloc free\nport t\ntrans t free free\nend\n\
    interaction x A.s\ninteraction y B.s\ninteraction z C.t\n\
    priority x < z\npriority y < z\nclass P x\nclass Q y\nclass T z\n";

/// What x wants, and y, each first move; and what x wants behind that.
const X: ((u16, u16), &[Wanted]) = ((0, 0), &[(0, 1, true), (2, 1, true)]);

const Y: ((u16, u16), &[Wanted]) = ((1, 1), &[(1, 1, true), (2, 1, true)]);

const NEXT_X: ((u16, u16), &[Wanted]) = ((0, 0), &[(0, 2, true), (2, 2, true)]);

/// The same where both look at a component, and what moves it wants.
const LOOK_X: ((u16, u16), &[Wanted]) = ((0, 0), &[(0, 1, true), (2, 1, false)]);

const LOOK_Y: ((u16, u16), &[Wanted]) = ((1, 1), &[(1, 1, true), (2, 1, false)]);

const MOVE_Z: ((u16, u16), &[Wanted]) = ((2, 2), &[(2, 1, true)]);

/// What is asked of a bank, and what it says.
#[derive(Drop)]
enum Step {
    /// A request is submitted.
    Submits(((u16, u16), &'static [Wanted])),
    /// The station is served: of which interaction a request is answered, and how.
    Serves(u16, Option<(u16, Decision)>),
    /// The request at this place, of those on their way, is handed on.
    Delivers(usize),
    /// A step that moves something.
    Goes(BankStep),
    /// A step that doesn't apply.
    Tries(BankStep),
    /// So many grants were given.
    Shows(usize),
}

/// Whether two requests are the same but for their reasons.
fn is_same(one: &Request, other: &Request) -> bool {
    (one.class, one.inter, one.request) == (other.class, other.inter, other.request)
        && one.wants.as_slice() == other.wants.as_slice()
}

/// How many grants a bank has given, and how many of its messages are in flight.
fn shown<B: Bank>(bank: &B) -> (usize, usize) {
    (bank.grants().len(), bank.in_flight())
}

/// Submits a request that fits the plan; where memory was refused, what comes back once more.
fn submits<B: Bank>(rt: &(impl Abort + Print), plan: &Plan, bank: &mut B, request: Request)
    requires plan { (content_of (B.kept bank.old)).plan ≡ plan.now }
    ensures plan { (content_of (B.kept bank.new)).plan ≡ plan.now }
{
    assert!(rt; plan.fits(&request));
    let (asked, before) = (request.copy(), shown(bank));
    call(rt);
    let submitted = bank.submit(request);
    called(rt);
    if let Err((back, AllocError)) = submitted {
        assert!(rt; is_same(&back, &asked) && shown(bank) == before);
        let again = bank.submit(back).is_ok();
        assert!(rt; again);
    }
}

/// Does a step of a bank, once more where memory was refused, and says what it did.
fn acts<B: Bank>(rt: &(impl Abort + Print), plan: &Plan, bank: &mut B, step: BankStep) -> Acted
    requires plan { (content_of (B.kept bank.old)).plan ≡ plan.now }
    ensures plan { (content_of (B.kept bank.new)).plan ≡ plan.now }
{
    let before = shown(bank);
    call(rt);
    let did = bank.act(step);
    called(rt);
    match did {
        Ok(did) => did,
        Err(AllocError) => {
            assert!(rt; shown(bank) == before);
            bank.act(step).expect(rt, "memory")
        }
    }
}

/// Whether an answer is to a request for this interaction, with this decision.
fn is_answer(did: &Acted, answer: &Option<(u16, Decision)>) -> bool {
    match (did, answer) {
        (Acted::Answered { request, decision }, Some((inter, expected))) => {
            request.inter.0 == *inter && decision == expected
        }
        (Acted::Nothing, None) => true,
        _ => false,
    }
}

fn take_step<B: Bank>(
    rt: &(impl Abort + Print),
    alloc: Global,
    plan: &Plan,
    bank: &mut B,
    step: &Step,
)
    requires plan { (content_of (B.kept bank.old)).plan ≡ plan.now }
    ensures plan { (content_of (B.kept bank.new)).plan ≡ plan.now }
{
    match step {
        Step::Submits((numbers, wanted)) => {
            submits(rt, plan, bank, request(rt, alloc, *numbers, wanted));
        }
        Step::Serves(station, answer) => {
            let did = acts(rt, plan, bank, BankStep::Serve(StationId(*station)));
            assert!(rt; is_answer(&did, answer));
        }
        Step::Delivers(place) => {
            let did = acts(rt, plan, bank, BankStep::Deliver(*place));
            assert!(rt; matches!(did, Acted::Moved));
        }
        Step::Goes(step) => {
            let did = acts(rt, plan, bank, *step);
            assert!(rt; matches!(did, Acted::Moved));
        }
        Step::Tries(step) => {
            let did = acts(rt, plan, bank, *step);
            assert!(rt; is_answer(&did, &None));
        }
        Step::Shows(grants) => assert!(rt; bank.grants().len() == *grants),
    }
}

fn take_steps<B: Bank>(
    rt: &(impl Abort + Print),
    alloc: Global,
    plan: &Plan,
    bank: &mut B,
    steps: &[Step],
)
    requires plan { (content_of (B.kept bank.old)).plan ≡ plan.now }
{
    for step in steps {
        take_step(rt, alloc, plan, bank, step);
    }
}

fn central_takes(rt: &(impl Abort + Print), alloc: Global, plan: &Plan, steps: &[Step]) {
    let mut bank = Central::new(alloc, plan, 0).expect(rt, "memory");
    take_steps(rt, alloc, plan, &mut bank, steps);
    assert!(rt; bank.in_flight() == 0);
    drop(bank);
}

fn second_takes(rt: &(impl Abort + Print), alloc: Global, plan: &Plan, steps: &[Step]) {
    let mut bank = Second::new(alloc, plan, 0).expect(rt, "memory");
    take_steps(rt, alloc, plan, &mut bank, steps);
    assert!(rt; bank.in_flight() == 0);
    drop(bank);
}

fn ring_takes(rt: &(impl Abort + Print), alloc: Global, plan: &Plan, steps: &[Step]) {
    let mut bank = Ring::new(alloc, plan, 0).expect(rt, "memory");
    take_steps(rt, alloc, plan, &mut bank, steps);
    assert!(rt; bank.in_flight() == 0);
    drop(bank);
}

fn forks_take(rt: &(impl Abort + Print), alloc: Global, plan: &Plan, steps: &[Step]) {
    let mut bank = Forks::new(alloc, plan, 0).expect(rt, "memory");
    take_steps(rt, alloc, plan, &mut bank, steps);
    assert!(rt; bank.in_flight() == 0);
    drop(bank);
}

#[test]
fn the_first_that_is_served_is_granted(rt: HostRuntime) {
    const STEPS: &[Step] = &[
        Serves(0, None),
        Submits(X),
        Submits(Y),
        Shows(0),
        Serves(1, Some((1, Decision::Granted(0)))),
        Serves(
            0,
            Some((
                0,
                Decision::Refused {
                    comp: CompId(2),
                    used: 1,
                },
            )),
        ),
        Serves(0, None),
        Serves(2, None),
        Shows(1),
    ];
    over_plan(&rt, rt.alloc(), COMPETE, STEPS, central_takes);
}

#[test]
fn the_oldest_is_served_first_and_other_steps_never_apply(rt: HostRuntime) {
    const STEPS: &[Step] = &[
        Submits(X),
        Submits(NEXT_X),
        Tries(BankStep::Deliver(0)),
        Tries(BankStep::Pass(StationId(0), StationId(1))),
        Tries(BankStep::Ask(StationId(0), StationId(1))),
        Serves(0, Some((0, Decision::Granted(0)))),
        Serves(0, Some((0, Decision::Granted(1)))),
        Shows(2),
    ];
    over_plan(&rt, rt.alloc(), COMPETE, STEPS, central_takes);
}

#[test]
fn a_second_bank_serves_what_was_handed_on(rt: HostRuntime) {
    const STEPS: &[Step] = &[
        Submits(X),
        Submits(NEXT_X),
        Serves(0, None),
        Tries(BankStep::Deliver(2)),
        Delivers(1),
        Tries(BankStep::Deliver(0)),
        Serves(1, None),
        Serves(0, Some((0, Decision::Granted(0)))),
        Serves(0, None),
        Delivers(0),
        Serves(0, Some((0, Decision::Granted(1)))),
        Shows(2),
    ];
    over_plan(&rt, rt.alloc(), COMPETE, STEPS, second_takes);
}

#[test]
fn the_station_with_the_token_is_served(rt: HostRuntime) {
    const STEPS: &[Step] = &[
        Submits(X),
        Submits(Y),
        Serves(1, None),
        Serves(0, Some((0, Decision::Granted(0)))),
        Tries(BankStep::Pass(StationId(1), StationId(0))),
        Goes(BankStep::Pass(StationId(0), StationId(1))),
        Serves(1, None),
        Delivers(0),
        Serves(
            1,
            Some((
                1,
                Decision::Refused {
                    comp: CompId(2),
                    used: 1,
                },
            )),
        ),
        Shows(1),
    ];
    over_plan(&rt, rt.alloc(), COMPETE, STEPS, ring_takes);
}

#[test]
fn two_that_look_at_the_same_share_no_fork(rt: HostRuntime) {
    const STEPS: &[Step] = &[
        Submits(LOOK_X),
        Submits(LOOK_Y),
        Submits(MOVE_Z),
        Tries(BankStep::Ask(StationId(1), StationId(0))),
        Tries(BankStep::Pass(StationId(0), StationId(1))),
        Tries(BankStep::Ask(StationId(2), StationId(2))),
        Tries(BankStep::Pass(StationId(3), StationId(0))),
        Serves(2, None),
        Serves(1, Some((1, Decision::Granted(0)))),
        Serves(0, Some((0, Decision::Granted(0)))),
        Goes(BankStep::Ask(StationId(2), StationId(1))),
        Goes(BankStep::Ask(StationId(2), StationId(0))),
        Tries(BankStep::Ask(StationId(2), StationId(0))),
        Delivers(1),
        Goes(BankStep::Pass(StationId(0), StationId(2))),
        Tries(BankStep::Pass(StationId(1), StationId(2))),
        Delivers(1),
        Serves(2, None),
        Delivers(0),
        Goes(BankStep::Pass(StationId(1), StationId(2))),
        Tries(BankStep::Deliver(1)),
        Delivers(0),
        Serves(2, Some((2, Decision::Granted(0)))),
        Shows(3),
    ];
    over_plan(&rt, rt.alloc(), LOOK, STEPS, forks_take);
}
