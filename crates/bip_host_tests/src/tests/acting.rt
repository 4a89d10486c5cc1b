//! Actors in turns, over hands in memory: what is done for whom, in which order, what is counted,
//! and what stands in the book then.
use super::desks::Did::{Appends, Asks, Grants, Looks, Offers, Passes, Refuses, Sends, Tells};
use super::desks::{Desk, Fake, Later, NOTHING, Outcome, Shared, Third, comes_to};
use super::{COMPETE, Offered, Told, Wanted, moved, notify, offer, over_plan, request};
use bip_bank::{Queue, StationId};
use bip_forks::Station;
use bip_host::{
    ClassActor, ComponentActor, Counts, ForkActor, NodeEnd, Point, RingActor, Settled, ToClass,
    ToStation, Watch, run_actor,
};
use bip_model::{ClassId, CompId, Grant, InterId, Want, Wants};
use bip_partition::Plan;
use bip_ring::Token;
use bip_table::Table;
use std::alloc::Global;
use std::process::Abort;
use std::sync::Wait;

/// What is heard next.
fn then<M: Drop>(rt: &impl Abort, heard: &mut Queue<Option<M>>, message: Option<M>) {
    assert!(rt; heard.put_last(message).is_ok());
}

/// Offers that are heard, or nothing, turn by turn.
fn offers(rt: &impl Abort, alloc: Global, turns: &[Option<Offered>]) -> Queue<Option<ToClass>> {
    let mut heard = Queue::new(alloc);
    for turn in turns {
        let message = match turn {
            Some(offered) => Some(ToClass::Offer(offer(rt, offered))),
            None => None,
        };
        then(rt, &mut heard, message);
    }
    heard
}

/// A grant of an interaction that moves these components.
fn grant(rt: &impl Abort, inter: InterId, wants: &[Want]) -> Grant {
    Grant {
        inter,
        wants: Wants::of(wants).expect(rt, "wants"),
    }
}

const A: CompId = CompId(0);

const B: CompId = CompId(1);

const R: CompId = CompId(2);

const P: ClassId = ClassId(0);

const Q: ClassId = ClassId(1);

const X: InterId = InterId(0);

const Y: InterId = InterId(1);

const Z: InterId = InterId(2);

/// R is told to move, and told the same once more.
fn a_component<W: Abort + Wait>(rt: &W, alloc: Global, plan: &Plan, outcome: &Outcome) {
    const MOVE: Told = (2, 1, 0, &[0]);
    let mut heard = Queue::new(alloc);
    then(rt, &mut heard, Some(notify(rt, &MOVE)));
    then(rt, &mut heard, Some(notify(rt, &MOVE)));
    assert!(rt; plan.model().components().len() > 2);
    let actor = ComponentActor::new(plan, R);
    let mut desk = Desk::new(rt, alloc, plan, Third::Stations, 3);
    let hands = Fake::at(&mut desk, heard);
    let end = run_actor(rt, actor, hands, 3, Watch::nothing());
    comes_to(rt, &end, desk, outcome);
}

#[test]
fn a_component_offers_each_move_to_both_classes(rt: HostRuntime) {
    const OUTCOME: Outcome = Outcome {
        turns: 3,
        counts: Counts { lost: 1, ..NOTHING },
        did: &[
            &[Offers(P, R, 1), Offers(Q, R, 1)],
            &[Offers(P, R, 2), Offers(Q, R, 2)],
            &[],
            &[],
        ],
        grants: &[],
    };
    over_plan(&rt, rt.alloc(), COMPETE, &OUTCOME, a_component);
}

/// In the first class a local interaction, and a reserved one that shares R with the second class.
const LOCAL_AND_RESERVED: &str = "bip 1\n\
    component A\nloc l\nport s\ntrans s l l\nend\n\
    component B\nloc l\nport s\ntrans s l l\nend\n\
    component R\nloc l\nport s\ntrans s l l\nend\n\
    interaction x A.s\ninteraction y B.s R.s\ninteraction z R.s\nclass P x y\nclass Q z\n";

/// In the first class two interactions that share nothing, each with one of the second class.
const TWO_RESERVED: &str = "bip 1\n\
    component A\nloc l\nport s\ntrans s l l\nend\n\
    component B\nloc l\nport s\ntrans s l l\nend\n\
    interaction x A.s\ninteraction y B.s\ninteraction z A.s B.s\nclass P x y\nclass Q z\n";

/// The greatest number of an offer that isn't dropped.
const MOST: u64 = 100;

/// Makes turns with the first class.
fn run_class<W: Abort + Wait>(
    rt: &W,
    alloc: Global,
    plan: &Plan,
    hands: Fake<'_, '_, ToClass>,
    turns: u32,
) -> NodeEnd {
    assert!(rt; plan.classes().len() > 0);
    let actor = ClassActor::new(alloc, plan, P, MOST).expect(rt, "memory");
    run_actor(rt, actor, hands, turns, Watch::nothing())
}

/// R has moved once by z, which the class doesn't know at first.
fn over_a_table<W: Abort + Wait>(rt: &W, alloc: Global, plan: &Plan, outcome: &Outcome) {
    const TURNS: &[Option<Offered>] = &[
        Some((A, 1, 1, &[])),
        Some((R, 1, 1, &[])),
        Some((B, 1, 1, &[])),
        None,
        Some((R, 2, 1, &[])),
    ];
    let table = Table::new(alloc, &[(B, 0), (R, 1)], 0).expect(rt, "memory");
    let mut desk = Desk::new(rt, alloc, plan, Third::Table(table), 2);
    assert!(rt; desk.append(grant(rt, Z, &[moved(2, 1)])).is_some());
    let hands = Fake::at(&mut desk, offers(rt, alloc, TURNS));
    let end = run_class(rt, alloc, plan, hands, 6);
    comes_to(rt, &end, desk, outcome);
}

#[test]
fn a_class_tries_its_interactions_in_turn(rt: HostRuntime) {
    const OUTCOME: Outcome = Outcome {
        turns: 6,
        counts: Counts {
            told: 2,
            lost: 1,
            refusals: 1,
            ..NOTHING
        },
        did: &[
            &[Appends(Z)],
            &[Appends(X), Passes(Point::Told(P, X)), Tells(A, 1)],
            &[],
            &[],
            &[Passes(Point::Asked(P, Y)), Asks(Y, 1)],
            &[],
            &[
                Passes(Point::Asked(P, Y)),
                Asks(Y, 2),
                Appends(Y),
                Passes(Point::Told(P, Y)),
                Tells(B, 1),
                Tells(R, 2),
            ],
        ],
        grants: &[Z, X, Y],
    };
    over_plan(&rt, rt.alloc(), LOCAL_AND_RESERVED, &OUTCOME, over_a_table);
}

/// The first request is granted, and the second one is lost.
fn behind_stations<W: Abort + Wait>(rt: &W, alloc: Global, plan: &Plan, outcome: &Outcome) {
    let mut desk = Desk::new(rt, alloc, plan, Third::Stations, 3);
    let entry = desk.append(grant(rt, Y, &[moved(1, 1)]));
    let mut heard = offers(rt, alloc, &[Some((B, 1, 1, &[])), Some((A, 1, 1, &[]))]);
    let granted = ToClass::Granted {
        entry: entry.expect(rt, "an entry"),
        request: 1,
        serial: 0,
    };
    then(rt, &mut heard, Some(granted));
    let hands = Fake::at(&mut desk, heard);
    let end = run_class(rt, alloc, plan, hands, 5);
    comes_to(rt, &end, desk, outcome);
}

#[test]
fn a_class_tells_what_its_station_granted(rt: HostRuntime) {
    const OUTCOME: Outcome = Outcome {
        turns: 5,
        counts: Counts {
            told: 1,
            lost: 1,
            ..NOTHING
        },
        did: &[
            &[Appends(Y)],
            &[],
            &[Passes(Point::Asked(P, Y)), Asks(Y, 1)],
            &[
                Passes(Point::Told(P, Y)),
                Tells(B, 1),
                Passes(Point::Asked(P, X)),
                Asks(X, 2),
            ],
            &[],
            &[],
        ],
        grants: &[Y],
    };
    over_plan(&rt, rt.alloc(), TWO_RESERVED, &OUTCOME, behind_stations);
}

/// An offer with too great a number is dropped; a row is busy at first, and then the grant waits.
fn over_words<W: Abort + Wait>(rt: &W, alloc: Global, plan: &Plan, outcome: &Outcome) {
    const TURNS: &[Option<Offered>] = &[
        Some((B, MOST + 1, 1, &[])),
        Some((A, 1, 1, &[])),
        Some((B, 1, 1, &[])),
        None,
    ];
    let later = Later {
        was_busy: false,
        was_looked_for: false,
        waiting: None,
    };
    let mut desk = Desk::new(rt, alloc, plan, Third::Words(later), 0);
    let hands = Fake::at(&mut desk, offers(rt, alloc, TURNS));
    let end = run_class(rt, alloc, plan, hands, 7);
    comes_to(rt, &end, desk, outcome);
}

#[test]
fn a_class_ends_its_errand_first(rt: HostRuntime) {
    const OUTCOME: Outcome = Outcome {
        turns: 7,
        counts: Counts {
            told: 1,
            busy: 1,
            ..NOTHING
        },
        did: &[
            &[],
            &[],
            &[],
            &[Passes(Point::Asked(P, X)), Asks(X, 1)],
            &[Asks(X, 1)],
            &[Looks],
            &[Looks, Appends(X), Passes(Point::Told(P, X)), Tells(A, 1)],
            &[Passes(Point::Asked(P, Y)), Asks(Y, 2)],
        ],
        grants: &[X],
    };
    over_plan(&rt, rt.alloc(), TWO_RESERVED, &OUTCOME, over_words);
}

fn without_memory<W: Abort + Wait>(rt: &W, alloc: Global, plan: &Plan, outcome: &Outcome) {
    let mut desk = Desk::new(rt, alloc, plan, Third::Full, 0);
    let heard = offers(rt, alloc, &[Some((A, 1, 1, &[])), Some((B, 1, 1, &[]))]);
    let hands = Fake::at(&mut desk, heard);
    let end = run_class(rt, alloc, plan, hands, 5);
    comes_to(rt, &end, desk, outcome);
}

#[test]
fn a_class_ends_where_its_table_wants_memory(rt: HostRuntime) {
    const OUTCOME: Outcome = Outcome {
        turns: 1,
        counts: Counts {
            wanted_memory: true,
            ..NOTHING
        },
        did: &[&[], &[Passes(Point::Asked(P, X)), Asks(X, 1)]],
        grants: &[],
    };
    over_plan(&rt, rt.alloc(), TWO_RESERVED, &OUTCOME, without_memory);
}

/// A class's first move, by x and by y of the two that compete.
const MOVE_X: ((u16, u16), &[Wanted]) = ((0, 0), &[(0, 1, true), (2, 1, true)]);

const MOVE_Y: ((u16, u16), &[Wanted]) = ((1, 1), &[(1, 1, true), (2, 1, true)]);

/// A station's class asks for its interaction, by the request with this number.
fn asked(
    rt: &impl Abort,
    alloc: Global,
    (names, wants): ((u16, u16), &[Wanted]),
    number: u64,
) -> Option<ToStation> {
    let mut request = request(rt, alloc, names, wants);
    request.request = number;
    Some(ToStation::Asked(request))
}

/// Two requests for one move, and then the token, which comes back once from the next station.
fn in_a_ring<W: Abort + Wait>(rt: &W, alloc: Global, plan: &Plan, outcome: &Outcome) {
    let token = Settled::<Token>::first(alloc, plan).expect(rt, "memory");
    let mut heard = Queue::new(alloc);
    then(rt, &mut heard, asked(rt, alloc, MOVE_X, 1));
    then(rt, &mut heard, asked(rt, alloc, MOVE_X, 2));
    then(rt, &mut heard, Some(ToStation::Token(token)));
    let mut desk = Desk::new(rt, alloc, plan, Third::Stations, 2);
    let hands = Fake::at(&mut desk, heard);
    let actor = RingActor::new(alloc, StationId(1), None);
    let end = run_actor(rt, actor, hands, 5, Watch::nothing());
    comes_to(rt, &end, desk, outcome);
}

#[test]
fn a_station_decides_while_it_has_the_token(rt: HostRuntime) {
    const OUTCOME: Outcome = Outcome {
        turns: 5,
        counts: Counts {
            passes: 1,
            ..NOTHING
        },
        did: &[
            &[],
            &[],
            &[],
            &[
                Appends(X),
                Grants(X, 1, 0),
                Sends(StationId(1), Shared::Token),
            ],
            &[Refuses(2, A, 1), Sends(StationId(1), Shared::Token)],
            &[],
        ],
        grants: &[X],
    };
    over_plan(&rt, rt.alloc(), COMPETE, &OUTCOME, in_a_ring);
}

/// Makes turns with one of two stations that share a fork: it hears its class's request, and then
/// what the other one has sent.
fn run_station<W: Abort + Wait>(
    rt: &W,
    alloc: Global,
    plan: &Plan,
    desk: &mut Desk<'_>,
    (number, other): (u16, u16),
    asked: Option<ToStation>,
) -> NodeEnd {
    let mut heard = Queue::new(alloc);
    then(rt, &mut heard, asked);
    then(rt, &mut heard, desk.sent.take_first().flatten());
    let station = Settled::<Station>::first(alloc, plan, StationId(number)).expect(rt, "memory");
    let neighbours = Vec::from_slice(alloc, &[StationId(other)]).expect(rt, "memory");
    let hands = Fake::at(desk, heard);
    let actor = ForkActor::new(neighbours, station);
    run_actor(rt, actor, hands, 3, Watch::nothing())
}

/// The second station asks for the fork, which comes back once; the first one grants, and sends the
/// fork; by that the second one, which begins once more, refuses.
fn with_forks<W: Abort + Wait>(rt: &W, alloc: Global, plan: &Plan, outcome: &Outcome) {
    let mut desk = Desk::new(rt, alloc, plan, Third::Stations, 1);
    let asks = run_station(
        rt,
        alloc,
        plan,
        &mut desk,
        (1, 0),
        asked(rt, alloc, MOVE_Y, 1),
    );
    assert_eq!(rt; asks.counts, Counts { asks: 1, ..NOTHING });
    let sends = run_station(
        rt,
        alloc,
        plan,
        &mut desk,
        (0, 1),
        asked(rt, alloc, MOVE_X, 1),
    );
    assert_eq!(rt;
        sends.counts,
        Counts {
            passes: 1,
            ..NOTHING
        }
    );
    let end = run_station(
        rt,
        alloc,
        plan,
        &mut desk,
        (1, 0),
        asked(rt, alloc, MOVE_Y, 1),
    );
    comes_to(rt, &end, desk, outcome);
}

#[test]
fn a_station_decides_while_it_has_its_fork(rt: HostRuntime) {
    const OUTCOME: Outcome = Outcome {
        turns: 3,
        counts: Counts { asks: 1, ..NOTHING },
        did: &[
            &[],
            &[Sends(StationId(0), Shared::Ask)],
            &[Sends(StationId(0), Shared::Ask)],
            &[],
            &[Appends(X), Grants(X, 1, 0)],
            &[Sends(StationId(1), Shared::Fork)],
            &[],
            &[Sends(StationId(0), Shared::Ask)],
            &[Refuses(1, R, 1)],
            &[],
        ],
        grants: &[X],
    };
    over_plan(&rt, rt.alloc(), COMPETE, &OUTCOME, with_forks);
}
