use self::Answer::{Ended, Foreign, Local, Not, Pending, Sent};
use self::Replied::{Drops, Ignores, Tells};
use self::Step::{Grants, Hears, Refuses, Tries};
use super::notifying::Told;
use super::observing::{Offered, offer};
use super::over_plan;
use super::tabling::{Wanted, want};
use super::worked::COMPETE;
use bip_ip::{Answered, IpNode, Tried};
use bip_model::{Cause, ClassId, CompId, InterId, Notify, Number, Reasons, Reply, Want, Why};
use bip_observe::{Receipt, Verdict};
use bip_partition::Plan;
use std::alloc::Global;
use std::process::Abort;

/// Two components that each move once, in two classes, so both interactions are local.
const APART: &str = "bip 1\n\
    component A\nloc a0\nloc a1\nport s\ntrans s a0 a1\nend\n\
    component B\nloc b0\nloc b1\nport s\ntrans s b0 b1\nend\n\
    interaction x A.s\ninteraction y B.s\nclass P x\nclass Q y\n";

/// Two that exchange a number with a third. The first interaction looks at B, which the one above
/// it moves; one more moves B alone, in another class.
const EXCHANGE: &str = "bip 1\n\
    component A\nvar v 0\nloc on\nport s\ntrans s on on\nend\n\
    component B\nloc on\nport s\ntrans s on on\nend\n\
    component R\nvar n 0\nloc on\nport g\ntrans g on on when n < 9 do n := n + 1\nend\n\
    interaction x A.s R.g do A.v := R.n + 4 ; R.n := A.v\n\
    interaction y B.s R.g when R.n >= 2\n\
    interaction z B.s\n\
    priority x < y\nclass P x y\nclass Q z\n";

/// One that is reserved: A moves by x; above it B and D move by y, for which B has no transition;
/// D moves alone in another class.
const IDLE: &str = "bip 1\n\
    component A\nloc a0\nloc a1\nport s\ntrans s a0 a1\nend\n\
    component B\nloc b0\nport s\nend\n\
    component D\nloc d0\nport s\ntrans s d0 d0\nend\n\
    interaction x A.s\ninteraction y B.s D.s\ninteraction z D.s\n\
    priority x < y\nclass P x y\nclass Q z\n";

/// Two above the first, each with a port of D.
const BOTH_ABOVE: &str = "bip 1\n\
    component A\nloc on\nport s\ntrans s on on\nend\n\
    component B\nvar n 4\nloc on\nport s\ntrans s on on\nend\n\
    component D\nvar n 4\nloc on\nport s\ntrans s on on\nend\n\
    interaction x A.s\ninteraction y B.s D.s when B.n < D.n\ninteraction z A.s D.s\n\
    priority x < y\npriority x < z\nclass P x y z\n";

/// A reason: an interaction above, with the component whose port is off, or none for its guard.
type Reasoned = (u16, Option<u16>);

/// What a node answers to a try.
#[derive(Drop)]
enum Answer {
    Foreign,
    Pending(u16),
    Not(Verdict),
    Local(&'static [Wanted], &'static [Told]),
    Ended,
    Sent(u64, &'static [Wanted], &'static [Reasoned]),
}

/// What it answers to a reply.
#[derive(Drop)]
enum Replied {
    Tells(&'static [Told]),
    Drops,
    Ignores,
}

/// What happens to a node, and what it says.
#[derive(Drop)]
enum Step {
    /// It gets an offer, and holds it.
    Hears(Offered),
    /// It tries an interaction.
    Tries(u16, Answer),
    /// The request of a class with this number is granted, for an interaction.
    Grants(u16, u64, u16, Replied),
    /// It is refused, since a number of this component is used.
    Refuses((u16, u64, u16), (u16, Number), Replied),
}

fn are_wants(wants: &[Want], expected: &[Wanted]) -> bool {
    wants.len() == expected.len()
        && wants
            .iter()
            .zip(expected.iter())
            .all(|(one, other)| *one == want(other))
}

fn is_reason(why: Why, (inter, comp): &Reasoned) -> bool {
    let cause = match comp {
        Some(number) => Cause::Port(CompId(*number)),
        None => Cause::Guard,
    };
    why.inter.0 == *inter && why.cause == cause
}

fn are_reasons(reasons: &Reasons, expected: &[Reasoned]) -> bool {
    reasons.len() == expected.len()
        && expected.iter().enumerate().all(|(place, one)| reasons
            .get(place)
            .is_some_and(|why| is_reason(why, one)))
}

fn is_told(notify: &Notify, (comp, number, port, values): &Told) -> bool {
    notify.comp.0 == *comp
        && notify.number == *number
        && notify.port.0 == *port
        && notify.values.as_slice() == *values
}

fn are_told(notifies: &[Notify], expected: &[Told]) -> bool {
    notifies.len() == expected.len()
        && notifies
            .iter()
            .zip(expected.iter())
            .all(|(notify, told)| is_told(notify, told))
}

/// Whether a node of a class that tried an interaction answered so.
fn is_answer(class: ClassId, inter: InterId, tried: &Tried, answer: &Answer) -> bool {
    match (tried, answer) {
        (Tried::Foreign, Answer::Foreign) => true,
        (Tried::Pending(other), Answer::Pending(number)) => other.0 == *number,
        (Tried::Not(verdict), Answer::Not(expected)) => verdict == expected,
        (Tried::Local(grant, notifies), Answer::Local(wants, told)) => {
            grant.inter == inter
                && are_wants(grant.wants.as_slice(), wants)
                && are_told(notifies.as_slice(), told)
        }
        (Tried::Ended, Answer::Ended) => true,
        (Tried::Sent(request), Answer::Sent(number, wants, reasons)) => {
            request.class == class
                && request.inter == inter
                && request.request == *number
                && are_wants(request.wants.as_slice(), wants)
                && are_reasons(&request.reasons, reasons)
        }
        _ => false,
    }
}

fn is_replied(answered: &Answered, expected: &Replied) -> bool {
    match (answered, expected) {
        (Answered::Told(notifies), Replied::Tells(told)) => are_told(notifies.as_slice(), told),
        (Answered::Dropped, Replied::Drops) => true,
        (Answered::Stale, Replied::Ignores) => true,
        _ => false,
    }
}

fn take_step(rt: &impl Abort, class: ClassId, node: &mut IpNode<'_>, step: &Step) {
    match step {
        Step::Hears(offered) => {
            assert!(rt; node.on_offer(offer(rt, offered)) == Receipt::Held);
        }
        Step::Tries(number, answer) => {
            let inter = InterId(*number);
            assert!(rt; is_answer(class, inter, &node.try_interaction(inter), answer));
        }
        Step::Grants(class, request, inter, expected) => {
            let reply = Reply::Granted {
                class: ClassId(*class),
                request: *request,
                inter: InterId(*inter),
                serial: 7,
            };
            assert!(rt; is_replied(&node.on_reply(&reply), expected));
        }
        Step::Refuses((class, request, inter), (comp, used), expected) => {
            let reply = Reply::Refused {
                class: ClassId(*class),
                request: *request,
                inter: InterId(*inter),
                comp: CompId(*comp),
                used: *used,
            };
            assert!(rt; is_replied(&node.on_reply(&reply), expected));
        }
    }
}

fn take_steps(rt: &impl Abort, class: ClassId, node: &mut IpNode<'_>, steps: &[Step]) {
    for step in steps {
        take_step(rt, class, node, step);
    }
}

/// The node of the first class takes steps.
fn takes(rt: &impl Abort, alloc: Global, plan: &Plan, (first, steps): (u64, &[Step])) {
    let class = ClassId(0);
    let mut node = IpNode::new(alloc, plan, class, 0, first).expect(rt, "memory");
    take_steps(rt, class, &mut node, steps);
    drop(node);
}

#[test]
fn a_refused_request_is_dropped_once(rt: HostRuntime) {
    const STEPS: &[Step] = &[
        Hears((CompId(2), 1, 1, &[0])),
        Tries(0, Not(Verdict::NotReady(CompId(0)))),
        Hears((CompId(0), 1, 1, &[])),
        Tries(0, Sent(1, &[(0, 1, true), (2, 1, true)], &[])),
        Tries(0, Pending(0)),
        Refuses((0, 1, 0), (2, 1), Drops),
        Refuses((0, 1, 0), (2, 1), Ignores),
        Tries(0, Not(Verdict::NotReady(CompId(2)))),
        Tries(1, Foreign),
        Tries(2, Foreign),
    ];
    over_plan(&rt, rt.alloc(), COMPETE, (1, STEPS), takes);
}

#[test]
fn a_local_interaction_is_granted_at_once(rt: HostRuntime) {
    const STEPS: &[Step] = &[
        Hears((CompId(0), 1, 1, &[])),
        Tries(0, Local(&[(0, 1, true)], &[(0, 1, 0, &[])])),
        Tries(0, Not(Verdict::NotReady(CompId(0)))),
    ];
    over_plan(&rt, rt.alloc(), APART, (1, STEPS), takes);
}

#[test]
fn a_granted_request_tells_once_and_is_known(rt: HostRuntime) {
    const STEPS: &[Step] = &[
        Hears((CompId(0), 1, 1, &[3])),
        Hears((CompId(1), 2, 1, &[])),
        Hears((CompId(2), 1, 1, &[1])),
        Tries(1, Not(Verdict::GuardFalse)),
        Tries(
            0,
            Sent(
                5,
                &[(0, 1, true), (1, 2, false), (2, 1, true)],
                &[(1, None)],
            ),
        ),
        Hears((CompId(0), 2, 0, &[9])),
        Tries(1, Pending(0)),
        Grants(1, 5, 0, Ignores),
        Grants(0, 4, 0, Ignores),
        Grants(0, 5, 1, Ignores),
        Grants(0, 5, 0, Tells(&[(0, 1, 0, &[5]), (2, 1, 0, &[3])])),
        Grants(0, 5, 0, Ignores),
        Tries(0, Not(Verdict::NotReady(CompId(2)))),
        Hears((CompId(2), 2, 1, &[4])),
        Tries(0, Not(Verdict::PortOff(CompId(0)))),
        Tries(1, Sent(6, &[(1, 2, true), (2, 2, true)], &[])),
        Tries(0, Pending(1)),
        Refuses((0, 6, 1), (9, 8), Drops),
        Tries(1, Sent(7, &[(1, 2, true), (2, 2, true)], &[])),
    ];
    over_plan(&rt, rt.alloc(), EXCHANGE, (5, STEPS), takes);
}

#[test]
fn one_port_that_is_off_is_reason_enough(rt: HostRuntime) {
    const STEPS: &[Step] = &[
        Hears((CompId(0), 1, 1, &[])),
        Tries(0, Not(Verdict::NotReady(CompId(1)))),
        Hears((CompId(2), 1, 1, &[])),
        Tries(0, Not(Verdict::NotReady(CompId(1)))),
        Hears((CompId(1), 1, 0, &[])),
        Tries(0, Sent(1, &[(0, 1, true), (1, 1, false)], &[(1, Some(1))])),
    ];
    over_plan(&rt, rt.alloc(), IDLE, (1, STEPS), takes);
}

#[test]
fn two_above_may_have_one_reason_or_each_its_own(rt: HostRuntime) {
    const STEPS: &[Step] = &[
        Hears((CompId(0), 1, 1, &[])),
        Hears((CompId(1), 3, 1, &[4])),
        Tries(0, Not(Verdict::NotReady(CompId(2)))),
        Hears((CompId(2), 2, 1, &[4])),
        Tries(0, Not(Verdict::Below(InterId(2)))),
        Hears((CompId(2), 3, 1, &[5])),
        Tries(0, Not(Verdict::Below(InterId(1)))),
        Hears((CompId(2), 4, 0, &[5])),
        Tries(
            0,
            Sent(
                1,
                &[(0, 1, true), (2, 4, false)],
                &[(1, Some(2)), (2, Some(2))],
            ),
        ),
    ];
    over_plan(&rt, rt.alloc(), BOTH_ABOVE, (1, STEPS), takes);
}

#[test]
fn the_last_request_number_is_used_once(rt: HostRuntime) {
    const STEPS: &[Step] = &[
        Hears((CompId(0), 1, 1, &[])),
        Hears((CompId(2), 1, 1, &[0])),
        Tries(
            0,
            Sent(18446744073709551615, &[(0, 1, true), (2, 1, true)], &[]),
        ),
        Refuses((0, 18446744073709551615, 0), (2, 1), Drops),
        Tries(0, Not(Verdict::NotReady(CompId(2)))),
        Hears((CompId(2), 2, 1, &[1])),
        Tries(0, Ended),
        Tries(0, Ended),
    ];
    over_plan(
        &rt,
        rt.alloc(),
        COMPETE,
        (18446744073709551615, STEPS),
        takes,
    );
}
