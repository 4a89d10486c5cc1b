use super::worked::{CHAIN, CLIMB};
use super::{over_plan, read};
use bip_model::{Cause, ClassId, CompId, InterId, Reasons, Request, Role, Want, Wants, Why};
use bip_partition::{Plan, PlanFault, first_touching_too_many};
use std::alloc::Global;
use std::process::Abort;

/// Two components that each move with a third, each in a class.
const MEETING: &str = "bip 1\n\
    component A\nloc on\nport s\ntrans s on on\nend\n\
    component B\nloc on\nport s\ntrans s on on\nend\n\
    component R\nloc on\nport s\ntrans s on on\nend\n\
    interaction x A.s R.s\ninteraction y B.s R.s\nclass P x\nclass Q y\n";

/// The same, where the second interaction stands above the first, which so looks at B.
const LOOKING: &str = "bip 1\n\
    component A\nloc on\nport s\ntrans s on on\nend\n\
    component B\nloc on\nport s\ntrans s on on\nend\n\
    component R\nloc on\nport s\ntrans s on on\nend\n\
    interaction x A.s R.s\ninteraction y B.s R.s\npriority x < y\nclass P x\nclass Q y\n";

/// Two components that go their own ways, each in a class.
const APART: &str = "bip 1\n\
    component A\nloc on\nport s\ntrans s on on\nend\n\
    component B\nloc on\nport s\ntrans s on on\nend\n\
    interaction x A.s\ninteraction y B.s\nclass P x\nclass Q y\n";

const A: CompId = CompId(0);

const B: CompId = CompId(1);

const R: CompId = CompId(2);

const X: InterId = InterId(0);

const Y: InterId = InterId(1);

const P: ClassId = ClassId(0);

const Q: ClassId = ClassId(1);

/// Numbers that the model lacks have no row, aren't reserved, and are in no conflict.
fn says_nothing_of_others(rt: &impl Abort, _: Global, plan: &Plan, _: ()) {
    const OTHER: InterId = InterId(2);
    assert!(rt; !plan.tabled(CompId(3)) && !plan.tabled(CompId(64)));
    assert!(rt; !plan.reserved(OTHER) && !plan.reserved(InterId(65535)));
    assert!(rt; !plan.conflict(OTHER, X) && !plan.conflict(X, OTHER));
    assert!(rt; !plan.conflict(OTHER, OTHER));
}

/// Two interactions, and whether they are in conflict.
type Pair = (InterId, InterId, bool);

fn conflict(rt: &impl Abort, _: Global, plan: &Plan, pairs: &[Pair]) {
    for (inter, other, wanted) in pairs {
        assert!(rt; plan.conflict(*inter, *other) == *wanted);
        assert!(rt; plan.conflict(*other, *inter) == *wanted);
    }
}

const THIRD: InterId = InterId(2);

#[test]
fn who_moves_what_the_other_touches_is_in_conflict(rt: HostRuntime) {
    const BOTH_MOVE: &[Pair] = &[(X, Y, true), (Y, Y, true)];
    const EACH_ALONE: &[Pair] = &[(X, Y, false), (X, X, true)];
    const IN_A_ROW: &[Pair] = &[(X, Y, true), (Y, THIRD, true), (X, THIRD, false)];
    const ONE_LOOKS: &[Pair] = &[(X, Y, true), (X, THIRD, true), (Y, THIRD, true)];
    over_plan(&rt, rt.alloc(), LOOKING, BOTH_MOVE, conflict);
    over_plan(&rt, rt.alloc(), APART, EACH_ALONE, conflict);
    over_plan(&rt, rt.alloc(), CHAIN, IN_A_ROW, conflict);
    over_plan(&rt, rt.alloc(), CLIMB, ONE_LOOKS, conflict);
}

#[test]
fn a_plan_says_nothing_of_what_the_model_lacks(rt: HostRuntime) {
    over_plan(&rt, rt.alloc(), MEETING, (), says_nothing_of_others);
}

const MOVED_A: Want = Want {
    comp: A,
    number: 1,
    role: Role::Moved,
};

const MOVED_B: Want = Want {
    comp: B,
    number: 4,
    role: Role::Moved,
};

const SEEN_B: Want = Want {
    comp: B,
    number: 4,
    role: Role::Seen,
};

const MOVED_R: Want = Want {
    comp: R,
    number: 7,
    role: Role::Moved,
};

/// Reasons: that a port is off for y, or for x, and that the guard of y is false.
const OF_A: Why = Why {
    inter: Y,
    cause: Cause::Port(A),
};

const OF_B: Why = Why {
    inter: Y,
    cause: Cause::Port(B),
};

const OF_R: Why = Why {
    inter: Y,
    cause: Cause::Port(R),
};

const OF_GUARD: Why = Why {
    inter: Y,
    cause: Cause::Guard,
};

const OF_X: Why = Why {
    inter: X,
    cause: Cause::Port(R),
};

/// A request, and whether it fits.
type Asked = (ClassId, InterId, &'static [Want], &'static [Why], bool);

fn fits(rt: &impl Abort, plan: &Plan, (class, inter, wants, whys, wanted): &Asked) {
    let wants = Wants::of(wants).expect(rt, "wants");
    let reasons = Reasons::of(whys).expect(rt, "reasons");
    let request = Request {
        class: *class,
        request: 1,
        inter: *inter,
        wants,
        reasons,
    };
    assert!(rt; plan.fits(&request) == *wanted);
}

fn fit(rt: &impl Abort, _alloc: Global, plan: &Plan, asked: &[Asked]) {
    for one in asked {
        fits(rt, plan, one);
    }
}

#[test]
fn a_request_wants_what_its_interaction_moves_and_looks_at(rt: HostRuntime) {
    const ASKED: &[Asked] = &[
        (P, X, &[MOVED_A, SEEN_B, MOVED_R], &[], true),
        (Q, X, &[MOVED_A, SEEN_B, MOVED_R], &[], false),
        (P, X, &[MOVED_A, MOVED_B, MOVED_R], &[], false),
        (P, X, &[MOVED_A, MOVED_R], &[], false),
        (Q, Y, &[MOVED_B, MOVED_R], &[], true),
        (Q, Y, &[SEEN_B, MOVED_R], &[], false),
        (Q, Y, &[MOVED_A, MOVED_B, MOVED_R], &[], false),
        (Q, InterId(2), &[MOVED_B, MOVED_R], &[], false),
        (ClassId(2), Y, &[MOVED_B, MOVED_R], &[], false),
    ];
    over_plan(&rt, rt.alloc(), LOOKING, ASKED, fit);
}

#[test]
fn a_request_gives_a_reason_for_what_is_above(rt: HostRuntime) {
    const ASKED: &[Asked] = &[
        (P, X, &[MOVED_A, MOVED_R], &[OF_R], true),
        (P, X, &[MOVED_A, SEEN_B, MOVED_R], &[OF_R], true),
        (P, X, &[MOVED_A, SEEN_B, MOVED_R], &[OF_B], true),
        (P, X, &[MOVED_A, SEEN_B, MOVED_R], &[OF_GUARD], true),
        (P, X, &[MOVED_A, MOVED_R], &[OF_B], false),
        (P, X, &[MOVED_A, MOVED_R], &[OF_GUARD], false),
        (P, X, &[MOVED_A, SEEN_B, MOVED_R], &[OF_A], false),
        (P, X, &[MOVED_A, SEEN_B, MOVED_R], &[OF_X], false),
        (P, X, &[MOVED_A, SEEN_B, MOVED_R], &[OF_X, OF_B], false),
        (Q, Y, &[MOVED_B, MOVED_R], &[OF_R], false),
    ];
    over_plan(&rt, rt.alloc(), LOOKING, ASKED, fit);
}

#[test]
fn no_request_for_a_local_interaction_fits(rt: HostRuntime) {
    const ASKED: &[Asked] = &[
        (P, X, &[MOVED_A], &[], false),
        (Q, Y, &[MOVED_B], &[], false),
    ];
    over_plan(&rt, rt.alloc(), APART, ASKED, fit);
}

/// An interaction that moves one component and looks at the 31 or 32 that four above it move.
const THIRTY_TWO: &str = "interaction a C1.s C2.s C3.s C4.s C5.s C6.s C7.s C8.s\n\
    interaction x C0.s\n\
    interaction b C9.s C10.s C11.s C12.s C13.s C14.s C15.s C16.s\n\
    interaction c C17.s C18.s C19.s C20.s C21.s C22.s C23.s C24.s\n\
    interaction d C25.s C26.s C27.s C28.s C29.s C30.s C31.s\n\
    priority x < a\npriority x < b\npriority x < c\npriority x < d\nclass P a x b c d\n";

const THIRTY_THREE: &str = "interaction a C1.s C2.s C3.s C4.s C5.s C6.s C7.s C8.s\n\
    interaction x C0.s\n\
    interaction b C9.s C10.s C11.s C12.s C13.s C14.s C15.s C16.s\n\
    interaction c C17.s C18.s C19.s C20.s C21.s C22.s C23.s C24.s\n\
    interaction d C25.s C26.s C27.s C28.s C29.s C30.s C31.s C32.s\n\
    priority x < a\npriority x < b\npriority x < c\npriority x < d\nclass P a x b c d\n";

/// The text of a model with 33 components, of which these lines say more.
fn with_components(rt: &impl Abort, alloc: Global, lines: &str) -> String {
    let mut text = String::new(alloc);
    text.push_str("bip 1\n").expect(rt, "memory");
    for number in 0..33 {
        let block = format!(in alloc; "component C{number}\nloc l\nport s\ntrans s l l\nend\n");
        text.push_str(block.expect(rt, "memory").as_str())
            .expect(rt, "memory");
    }
    text.push_str(lines).expect(rt, "memory");
    text
}

/// Whether this is the first interaction that touches too many, for which there is no plan.
fn touches_too_many(rt: &impl Abort, alloc: Global, text: &str, wanted: Option<InterId>) {
    let (model, classes) = read(rt, alloc, text);
    assert!(rt; first_touching_too_many(&model) == wanted);
    let fault = Plan::of(alloc, model, classes).err();
    assert!(rt; fault == wanted.map(|inter| PlanFault::TooManyTouched(inter)));
}

#[test]
fn an_interaction_touches_32_components_at_most(rt: HostRuntime) {
    let few = with_components(&rt, rt.alloc(), THIRTY_TWO);
    touches_too_many(&rt, rt.alloc(), few.as_str(), None);
    let many = with_components(&rt, rt.alloc(), THIRTY_THREE);
    touches_too_many(&rt, rt.alloc(), many.as_str(), Some(InterId(1)));
}
