use self::Step::{Decides, Gets, Learns};
use super::{over, over_plan};
use bip_model::{ClassId, CompId, InterId, LocId, Model, Number, Offer, Values};
use bip_observe::{Offers, Receipt, Verdict, decide};
use bip_partition::Plan;
use std::alloc::Global;
use std::process::Abort;

/// Two components that each move with a third, which has a number. Two interactions stand above the
/// first, one of which asks that number too.
const CLIMBING: &str = "bip 1\n\
    component A\nloc on\nport s\ntrans s on on\nend\n\
    component B\nloc on\nport s\nport t\ntrans s on on\ntrans t on on\nend\n\
    component R\nvar n 0\nloc on\nport g\ntrans g on on when n < 9 do n := n + 1\nend\n\
    interaction x A.s R.g when R.n < 5\n\
    interaction y B.s R.g when R.n >= 2\n\
    interaction z B.t\n\
    priority x < y\npriority x < z\nclass P x\nclass Q y z\n";

const A: CompId = CompId(0);

const B: CompId = CompId(1);

const R: CompId = CompId(2);

const X: InterId = InterId(0);

const Y: InterId = InterId(1);

const Z: InterId = InterId(2);

const P: ClassId = ClassId(0);

const Q: ClassId = ClassId(1);

/// An offer, with its values.
pub(super) type Offered = (CompId, Number, u16, &'static [u32]);

pub(super) fn offer(rt: &impl Abort, (comp, number, ports, values): &Offered) -> Offer {
    Offer {
        comp: *comp,
        number: *number,
        ports: *ports,
        values: Values::of(values).expect(rt, "values"),
    }
}

/// What happens to a class, and what it says.
#[derive(Drop)]
pub(super) enum Step {
    /// It gets an offer.
    Gets(Offered, Receipt),
    /// It learns of a used number.
    Learns(CompId, Number),
    /// It decides on an interaction.
    Decides(InterId, Verdict),
}

fn decides(rt: &impl Abort, offers: &Offers<'_>, inter: InterId, verdict: Verdict) {
    let plan = offers.plan();
    assert!(rt; (inter.0 as usize) < plan.model().interactions().len());
    assert!(rt; decide(plan, offers, inter) == verdict);
}

pub(super) fn take_step(rt: &impl Abort, offers: &mut Offers<'_>, step: &Step) {
    match step {
        Step::Gets(offered, receipt) => {
            assert!(rt; offers.hold(offer(rt, offered)) == *receipt);
        }
        Step::Learns(comp, number) => offers.spend(*comp, *number),
        Step::Decides(inter, verdict) => decides(rt, offers, *inter, *verdict),
    }
}

fn take_steps(rt: &impl Abort, offers: &mut Offers<'_>, steps: &[Step]) {
    for step in steps {
        take_step(rt, offers, step);
    }
}

fn takes(rt: &impl Abort, alloc: Global, plan: &Plan, (class, steps): (ClassId, &[Step])) {
    let mut offers = Offers::new(alloc, plan, class, 0).expect(rt, "memory");
    take_steps(rt, &mut offers, steps);
}

#[test]
fn a_verdict_tells_the_first_cause_and_the_lowest(rt: HostRuntime) {
    const STEPS: &[Step] = &[
        Decides(X, Verdict::NotReady(A)),
        Gets((R, 1, 1, &[7]), Receipt::Held),
        Decides(X, Verdict::NotReady(A)),
        Gets((A, 1, 0, &[]), Receipt::Held),
        Decides(X, Verdict::PortOff(A)),
        Gets((B, 1, 3, &[]), Receipt::Held),
        Decides(X, Verdict::PortOff(A)),
        Gets((R, 2, 0, &[7]), Receipt::Held),
        Decides(X, Verdict::PortOff(A)),
        Gets((A, 2, 1, &[]), Receipt::Held),
        Decides(X, Verdict::PortOff(R)),
        Gets((R, 3, 1, &[7]), Receipt::Held),
        Decides(X, Verdict::GuardFalse),
        Gets((R, 4, 1, &[2]), Receipt::Held),
        Decides(X, Verdict::Below(Y)),
        Gets((R, 5, 1, &[1]), Receipt::Held),
        Decides(X, Verdict::Below(Z)),
        Gets((B, 2, 1, &[]), Receipt::Held),
        Decides(X, Verdict::Ready),
        Gets((R, 6, 1, &[2]), Receipt::Held),
        Decides(X, Verdict::Below(Y)),
        Gets((B, 3, 0, &[]), Receipt::Held),
        Decides(X, Verdict::Ready),
        Learns(B, 2),
        Decides(X, Verdict::Ready),
        Learns(B, 3),
        Decides(X, Verdict::NotReady(B)),
        Learns(A, 2),
        Decides(X, Verdict::NotReady(A)),
    ];
    over_plan(&rt, rt.alloc(), CLIMBING, (P, STEPS), takes);
}

#[test]
fn an_offer_is_a_strangers_or_old_or_held(rt: HostRuntime) {
    const STEPS: &[Step] = &[
        Gets((A, 1, 1, &[]), Receipt::Stranger),
        Gets((CompId(3), 1, 0, &[]), Receipt::Stranger),
        Gets((B, 1, 1, &[7]), Receipt::Stranger),
        Gets((R, 1, 1, &[]), Receipt::Stranger),
        Gets((B, 1, 4, &[]), Receipt::Stranger),
        Gets((B, 1, 3, &[]), Receipt::Held),
        Gets((B, 1, 3, &[]), Receipt::Old),
        Gets((B, 1, 4, &[]), Receipt::Stranger),
        Gets((B, 3, 3, &[]), Receipt::Held),
        Gets((B, 2, 3, &[]), Receipt::Old),
        Decides(Z, Verdict::Ready),
        Learns(R, 4),
        Gets((R, 4, 1, &[5]), Receipt::Old),
        Decides(Y, Verdict::NotReady(R)),
        Gets((R, 5, 1, &[5]), Receipt::Held),
        Decides(Y, Verdict::Ready),
        Learns(R, 3),
        Decides(Y, Verdict::Ready),
        Learns(B, 9),
        Learns(B, 8),
        Gets((B, 9, 3, &[]), Receipt::Old),
        Decides(Y, Verdict::NotReady(B)),
        Gets((B, 10, 2, &[]), Receipt::Held),
        Decides(Y, Verdict::PortOff(B)),
        Decides(Z, Verdict::Ready),
    ];
    over_plan(&rt, rt.alloc(), CLIMBING, (Q, STEPS), takes);
}

const BASE: Number = u64::MAX - 1;

/// Nothing is held at first, and no number is known to be used above the base.
fn has_nothing(rt: &impl Abort, offers: &Offers<'_>) {
    assert!(rt; offers.class() == Q);
    assert!(rt; offers.known(B) == BASE && offers.known(CompId(3)) == BASE);
    assert!(rt; offers.held(B).is_none() && !offers.is_counted(B));
}

/// The last number is held, and the class learns nothing of a component that it doesn't touch.
fn has_the_last(rt: &impl Abort, offers: &Offers<'_>) {
    assert!(rt; offers.is_counted(B));
    assert!(rt; offers.known(A) == BASE);
}

fn begins_above(rt: &impl Abort, offers: &mut Offers<'_>) {
    const STEPS: &[Step] = &[
        Gets((B, BASE, 3, &[]), Receipt::Old),
        Gets((B, u64::MAX, 3, &[]), Receipt::Held),
        Learns(A, u64::MAX),
    ];
    has_nothing(rt, offers);
    take_steps(rt, offers, STEPS);
    has_the_last(rt, offers);
}

fn begins(rt: &impl Abort, alloc: Global, plan: &Plan, _: ()) {
    let mut offers = Offers::new(alloc, plan, Q, BASE).expect(rt, "memory");
    begins_above(rt, &mut offers);
}

#[test]
fn a_class_begins_at_the_base(rt: HostRuntime) {
    over_plan(&rt, rt.alloc(), CLIMBING, (), begins);
}

/// Compares what a component offers in its first location, with one value or none.
fn is_own(rt: &impl Abort, model: &Model, wanted: &Offered) {
    let (comp, number, ports, values) = wanted;
    let given = Values::of(values).expect(rt, "values");
    assert!(rt; (comp.0 as usize) < model.components().len());
    let component = &model.components()[comp.0 as usize];
    assert!(rt; component.locations.len() > 0);
    assert!(rt; component.variables.len() == values.len());
    let own = model.offer(*comp, *number, LocId(0), &given);
    assert!(rt; own.comp == *comp && own.number == *number && own.ports == *ports);
    assert!(rt; own.values.as_slice() == *values);
}

fn are_own(rt: &impl Abort, _: Global, model: &Model, wanted: &[Offered]) {
    for one in wanted {
        is_own(rt, model, one);
    }
}

#[test]
fn a_component_offers_the_ports_of_its_local_state(rt: HostRuntime) {
    const OWN: &[Offered] = &[
        (A, 1, 1, &[]),
        (B, 2, 3, &[]),
        (R, 3, 1, &[8]),
        (R, 4, 0, &[9]),
    ];
    over(&rt, rt.alloc(), CLIMBING, OWN, are_own);
}
