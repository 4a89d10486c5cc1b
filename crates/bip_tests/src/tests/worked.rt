//! The models of docs/EXAMPLES.md, and the verdicts that were worked there by hand.
use super::observing::{Offered, Step, take_step};
use super::over_plan;
use bip_model::{ClassId, CompId, InterId, Number};
use bip_observe::{Offers, Receipt, Verdict};
use bip_partition::Plan;
use std::alloc::Global;
use std::process::Abort;

pub(super) const COMPETE: &str = "bip 1\n\
    component A\nloc a0\nloc a1\nport s\ntrans s a0 a1\nend\n\
    component B\nloc b0\nloc b1\nport s\ntrans s b0 b1\nend\n\
    component R\nvar n 0\nloc r0\nport g\ntrans g r0 r0 when n < 1 do n := n + 1\nend\n\
    interaction x A.s R.g\ninteraction y B.s R.g\nclass P x\nclass Q y\n";

pub(super) const COMPETE_WITH_PRIORITY: &str = "bip 1\n\
    component A\nloc a0\nloc a1\nport s\ntrans s a0 a1\nend\n\
    component B\nloc b0\nloc b1\nport s\ntrans s b0 b1\nend\n\
    component R\nvar n 0\nloc r0\nport g\ntrans g r0 r0 when n < 1 do n := n + 1\nend\n\
    interaction x A.s R.g\ninteraction y B.s R.g\npriority x < y\nclass P x\nclass Q y\n";

pub(super) const COMPETE_TWICE: &str = "bip 1\n\
    component A\nloc a0\nloc a1\nport s\ntrans s a0 a1\nend\n\
    component B\nloc b0\nloc b1\nport s\ntrans s b0 b1\nend\n\
    component R\nvar n 0\nloc r0\nport g\ntrans g r0 r0 when n < 2 do n := n + 1\nend\n\
    interaction x A.s R.g\ninteraction y B.s R.g\npriority x < y\nclass P x\nclass Q y\n";

pub(super) const CHAIN: &str = "bip 1\n\
    component C\nloc l\nport k\ntrans k l l\nend\n\
    component D\nloc l\nport k\ntrans k l l\nend\n\
    interaction u C.k\ninteraction v C.k D.k\ninteraction w D.k\nclass P u v\nclass Q w\n";

pub(super) const CLIMB: &str = "bip 1\n\
    component X\nloc l\nport p\ntrans p l l\nend\n\
    component Y\nvar v 0\nloc l\nport p\ntrans p l l when v > 0\nend\n\
    component Z\nloc l\nport p\ntrans p l l\nend\n\
    interaction a X.p\ninteraction b Y.p\ninteraction c Z.p\n\
    priority a < b\npriority b < c\nclass P a b c\n";

/// Offers of the first class above base 0, used numbers that it learns of then, and its verdicts.
struct Situation {
    held: &'static [Offered],
    used: &'static [(CompId, Number)],
    says: &'static [(InterId, Verdict)],
}

const FIRST: CompId = CompId(0);

const SECOND: CompId = CompId(1);

const THIRD: CompId = CompId(2);

const ONE: InterId = InterId(0);

const TWO: InterId = InterId(1);

const THREE: InterId = InterId(2);

fn come_about(rt: &impl Abort, offers: &mut Offers<'_>, situation: &Situation) {
    for offered in situation.held {
        take_step(rt, offers, &Step::Gets(*offered, Receipt::Held));
    }
    for (comp, number) in situation.used {
        take_step(rt, offers, &Step::Learns(*comp, *number));
    }
    for (inter, verdict) in situation.says {
        take_step(rt, offers, &Step::Decides(*inter, *verdict));
    }
}

fn is_judged(rt: &impl Abort, alloc: Global, plan: &Plan, situation: &Situation) {
    let mut offers = Offers::new(alloc, plan, ClassId(0), 0).expect(rt, "memory");
    come_about(rt, &mut offers, situation);
}

fn are_judged(rt: &impl Abort, alloc: Global, plan: &Plan, situations: &[Situation]) {
    for situation in situations {
        is_judged(rt, alloc, plan, situation);
    }
}

#[test]
fn two_compete_for_a_third(rt: HostRuntime) {
    const SITUATIONS: &[Situation] = &[
        Situation {
            held: &[(FIRST, 1, 1, &[]), (THIRD, 1, 1, &[0])],
            used: &[],
            says: &[(ONE, Verdict::Ready)],
        },
        Situation {
            held: &[(FIRST, 1, 1, &[]), (THIRD, 1, 1, &[0])],
            used: &[(THIRD, 1)],
            says: &[(ONE, Verdict::NotReady(THIRD))],
        },
        Situation {
            held: &[(FIRST, 1, 1, &[]), (THIRD, 2, 0, &[1])],
            used: &[(THIRD, 1)],
            says: &[(ONE, Verdict::PortOff(THIRD))],
        },
        Situation {
            held: &[(FIRST, 2, 0, &[]), (THIRD, 2, 0, &[1])],
            used: &[(FIRST, 1), (THIRD, 1)],
            says: &[(ONE, Verdict::PortOff(FIRST))],
        },
    ];
    over_plan(&rt, rt.alloc(), COMPETE, SITUATIONS, are_judged);
}

#[test]
fn two_compete_with_priority(rt: HostRuntime) {
    const SITUATIONS: &[Situation] = &[
        Situation {
            held: &[(FIRST, 1, 1, &[]), (THIRD, 1, 1, &[0])],
            used: &[],
            says: &[(ONE, Verdict::NotReady(SECOND))],
        },
        Situation {
            held: &[(FIRST, 1, 1, &[]), (SECOND, 1, 1, &[]), (THIRD, 1, 1, &[0])],
            used: &[],
            says: &[(ONE, Verdict::Below(TWO))],
        },
        Situation {
            held: &[(FIRST, 1, 1, &[]), (SECOND, 2, 0, &[]), (THIRD, 1, 1, &[0])],
            used: &[],
            says: &[(ONE, Verdict::Ready)],
        },
        Situation {
            held: &[(FIRST, 1, 1, &[]), (SECOND, 2, 0, &[]), (THIRD, 2, 0, &[1])],
            used: &[(THIRD, 1)],
            says: &[(ONE, Verdict::PortOff(THIRD))],
        },
    ];
    over_plan(
        &rt,
        rt.alloc(),
        COMPETE_WITH_PRIORITY,
        SITUATIONS,
        are_judged,
    );
}

#[test]
fn two_compete_twice_with_priority(rt: HostRuntime) {
    const SITUATIONS: &[Situation] = &[
        Situation {
            held: &[(FIRST, 1, 1, &[]), (SECOND, 1, 1, &[]), (THIRD, 2, 1, &[1])],
            used: &[],
            says: &[(ONE, Verdict::Below(TWO))],
        },
        Situation {
            held: &[(FIRST, 1, 1, &[]), (SECOND, 2, 0, &[]), (THIRD, 2, 1, &[1])],
            used: &[],
            says: &[(ONE, Verdict::Ready)],
        },
        Situation {
            held: &[(FIRST, 2, 0, &[]), (SECOND, 2, 0, &[]), (THIRD, 2, 1, &[1])],
            used: &[(FIRST, 1), (THIRD, 2)],
            says: &[(ONE, Verdict::NotReady(THIRD))],
        },
        Situation {
            held: &[(FIRST, 2, 0, &[]), (SECOND, 2, 0, &[]), (THIRD, 3, 0, &[2])],
            used: &[(FIRST, 1), (THIRD, 2)],
            says: &[(ONE, Verdict::PortOff(FIRST))],
        },
    ];
    over_plan(&rt, rt.alloc(), COMPETE_TWICE, SITUATIONS, are_judged);
}

#[test]
fn three_in_a_chain(rt: HostRuntime) {
    const SITUATIONS: &[Situation] = &[
        Situation {
            held: &[(FIRST, 1, 1, &[])],
            used: &[],
            says: &[(ONE, Verdict::Ready), (TWO, Verdict::NotReady(SECOND))],
        },
        Situation {
            held: &[(FIRST, 1, 1, &[]), (SECOND, 1, 1, &[])],
            used: &[],
            says: &[(ONE, Verdict::Ready), (TWO, Verdict::Ready)],
        },
        Situation {
            held: &[(FIRST, 1, 1, &[]), (SECOND, 1, 1, &[])],
            used: &[(SECOND, 1)],
            says: &[(ONE, Verdict::Ready), (TWO, Verdict::NotReady(SECOND))],
        },
        Situation {
            held: &[(FIRST, 1, 1, &[]), (SECOND, 1, 1, &[])],
            used: &[(FIRST, 1), (SECOND, 1)],
            says: &[
                (ONE, Verdict::NotReady(FIRST)),
                (TWO, Verdict::NotReady(FIRST)),
            ],
        },
    ];
    over_plan(&rt, rt.alloc(), CHAIN, SITUATIONS, are_judged);
}

#[test]
fn priorities_climb(rt: HostRuntime) {
    const SITUATIONS: &[Situation] = &[
        Situation {
            held: &[(FIRST, 1, 1, &[]), (SECOND, 1, 0, &[0]), (THIRD, 1, 1, &[])],
            used: &[],
            says: &[
                (ONE, Verdict::Below(THREE)),
                (TWO, Verdict::PortOff(SECOND)),
                (THREE, Verdict::Ready),
            ],
        },
        Situation {
            held: &[(FIRST, 1, 1, &[]), (THIRD, 1, 1, &[])],
            used: &[],
            says: &[
                (ONE, Verdict::NotReady(SECOND)),
                (TWO, Verdict::NotReady(SECOND)),
                (THREE, Verdict::Ready),
            ],
        },
        Situation {
            held: &[(FIRST, 1, 1, &[]), (SECOND, 1, 0, &[0]), (THIRD, 1, 1, &[])],
            used: &[(THIRD, 1)],
            says: &[
                (ONE, Verdict::NotReady(THIRD)),
                (TWO, Verdict::PortOff(SECOND)),
                (THREE, Verdict::NotReady(THIRD)),
            ],
        },
        Situation {
            held: &[(FIRST, 1, 1, &[]), (SECOND, 1, 1, &[1]), (THIRD, 1, 1, &[])],
            used: &[],
            says: &[
                (ONE, Verdict::Below(TWO)),
                (TWO, Verdict::Below(THREE)),
                (THREE, Verdict::Ready),
            ],
        },
    ];
    over_plan(&rt, rt.alloc(), CLIMB, SITUATIONS, are_judged);
}
