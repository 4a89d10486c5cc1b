use super::{OWN_WAYS, moved, over, over_plan};
use bip_draw::{write_end, write_tally};
use bip_model::{Grant, InterId, Model, Want};
use bip_partition::Plan;
use bip_replay::replay_to;
use bip_walk::{survey, walk};
use std::alloc::Global;
use std::process::Abort;

fn is_grant(rt: &impl Abort, grant: &Grant, inter: u16, want: Want) {
    assert!(rt; grant.inter == InterId(inter) && grant.wants.as_slice() == [want].as_slice());
}

/// Two of five grants: the first word of seed 1 is odd, and takes the second of two.
fn walks(rt: &impl Abort, alloc: Global, plan: &Plan, _given: ()) {
    let book = walk(alloc, plan, 4, 1, 5).expect(rt, "memory");
    let grants = book.grants();
    assert!(rt; grants.len() == 2);
    is_grant(rt, &grants[0], 1, moved(1, 5));
    is_grant(rt, &grants[1], 0, moved(0, 5));
}

/// Both of two, in both orders: the first word of seed 2 is even.
fn surveys(rt: &impl Abort, alloc: Global, plan: &Plan, figures: &str) {
    let tally = survey(alloc, plan, 4, 2, 5).expect(rt, "memory");
    assert!(rt; tally.traces() == 2 && tally.grants() == 4);
    let text = write_tally(alloc, plan.model(), &tally).expect(rt, "memory");
    assert!(rt; text.as_slice() == figures.as_bytes());
}

const FIGURES: &str = "granted x 2 seeds 2\ngranted y 2 seeds 2\nended 2 first 1 after 2\n";

/// Compares where a trace leads with a text.
fn leads(rt: &impl Abort, alloc: Global, model: &Model, (trace, end): (&str, &str)) {
    let (position, count) = replay_to(alloc, model, 4, trace.as_bytes()).expect(rt, "a run");
    let text = write_end(alloc, &position).expect(rt, "memory");
    assert!(rt; count == 1 && text.as_slice() == end.as_bytes());
}

const ON_ITS_WAY: (&str, &str) = ("grant y B:5\n", "at A 5 off\nat B 6 on\nmay x\n");

#[test]
fn a_walk_ends_where_nothing_may_run(rt: HostRuntime) {
    over_plan(&rt, rt.alloc(), OWN_WAYS, (), walks);
    over_plan(&rt, rt.alloc(), OWN_WAYS, FIGURES, surveys);
    over(&rt, rt.alloc(), OWN_WAYS, ON_ITS_WAY, leads);
}
