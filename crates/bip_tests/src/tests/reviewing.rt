use super::over_plan;
use bip_model::{CompId, InterId};
use bip_partition::Plan;
use bip_review::{RowReason, cause_of_look, reserving, row_reason, write_plan};
use std::alloc::Global;
use std::process::Abort;

/// Two components that each move with a third, and one that goes its own way.
const REVIEWED: &str = "bip 1\n\
    component A\nloc on\nport s\ntrans s on on\nend\n\
    component B\nloc on\nport s\ntrans s on on\nend\n\
    component R\nloc on\nport s\ntrans s on on\nend\n\
    component C\nloc on\nport s\ntrans s on on\nend\n\
    interaction x A.s R.s\ninteraction y B.s R.s\ninteraction w C.s\n\
    priority x < y\nclass P x\nclass Q y w\n";

const TEXT: &str = "interaction x class P moves A R looks B for y reserved through A\n\
    interaction y class Q moves B R reserved through B\n\
    interaction w class Q moves C local\n\
    component A tabled beside B in x\n\
    component B tabled looked at by x\n\
    component R tabled touched from P Q\n\
    component C untabled\n\
    station x conflicts y\n\
    station y conflicts x\n";

const A: CompId = CompId(0);

const B: CompId = CompId(1);

const R: CompId = CompId(2);

const C: CompId = CompId(3);

const X: InterId = InterId(0);

const Y: InterId = InterId(1);

const W: InterId = InterId(2);

fn shows(rt: &impl Abort, alloc: Global, plan: &Plan, wanted: &str) {
    let text = write_plan(alloc, plan).expect(rt, "a text");
    assert!(rt; text.as_slice() == wanted.as_bytes());
}

#[test]
fn a_plan_shows_itself(rt: HostRuntime) {
    over_plan(&rt, rt.alloc(), REVIEWED, TEXT, shows);
}

fn reasons(rt: &impl Abort, _: Global, plan: &Plan, told: &[(CompId, Option<RowReason>)]) {
    for (comp, wanted) in told {
        assert!(rt; row_reason(plan, *comp) == *wanted);
    }
}

#[test]
fn each_row_has_a_reason(rt: HostRuntime) {
    const TOLD: &[(CompId, Option<RowReason>)] = &[
        (A, Some(RowReason::Beside(X, B))),
        (B, Some(RowReason::LookedAt(X))),
        (R, Some(RowReason::Shared)),
        (C, None),
        (CompId(4), None),
    ];
    over_plan(&rt, rt.alloc(), REVIEWED, TOLD, reasons);
}

fn looks(rt: &impl Abort, plan: &Plan, inter: InterId, comp: CompId, cause: Option<InterId>) {
    assert!(rt; (inter.0 as usize) < plan.model().interactions().len());
    assert!(rt; cause_of_look(plan, inter, comp) == cause);
}

fn interactions(rt: &impl Abort, _: Global, plan: &Plan, _: ()) {
    assert!(rt; reserving(plan, X) == Some(A));
    assert!(rt; reserving(plan, Y) == Some(B));
    assert!(rt; reserving(plan, W) == None);
    assert!(rt; reserving(plan, InterId(3)) == None);
    looks(rt, plan, X, B, Some(Y));
    looks(rt, plan, Y, A, None);
}

#[test]
fn each_interaction_is_reserved_through_its_lowest_row(rt: HostRuntime) {
    over_plan(&rt, rt.alloc(), REVIEWED, (), interactions);
}
