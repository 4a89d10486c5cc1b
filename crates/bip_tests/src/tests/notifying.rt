use self::Did::{Moves, Spends, Stays};
use super::over_plan;
use bip_component::{Notified, SrComponent};
use bip_model::{CompId, Notify, Number, Offer, PortId, Values};
use bip_partition::Plan;
use std::alloc::Global;
use std::process::Abort;

/// A counter that is told a number, and counts on from there below 9; it stops at 7.
const COUNTER: &str = "bip 1\n\
    component C\nvar n 2\nloc on\nloc off\nport tick\nport stop\n\
    trans tick on on when n < 9 do n := n + 1\n\
    trans stop on off when n = 7\nend\n\
    interaction t C.tick\ninteraction s C.stop\nclass P t s\n";

/// One that may move for ever.
const LOOP: &str = "bip 1\n\
    component L\nloc l\nport t\ntrans t l l\nend\n\
    interaction z L.t\nclass P z\n";

/// What a component is told: of which component, with which number, port and values.
pub(super) type Told = (u16, Number, u8, &'static [u32]);

/// What it does: it offers a move with this number, these ports and values; it makes its last move;
/// or it doesn't move.
#[derive(Drop)]
enum Did {
    Moves(Number, u16, &'static [u32]),
    Spends,
    Stays,
}

pub(super) fn notify(rt: &impl Abort, (comp, number, port, values): &Told) -> Notify {
    Notify {
        number: *number,
        values: Values::of(values).expect(rt, "values"),
        comp: CompId(*comp),
        port: PortId(*port),
    }
}

fn is_offer(offer: &Offer, number: Number, ports: u16, values: &[u32]) -> bool {
    offer.comp == CompId(0)
        && offer.number == number
        && offer.ports == ports
        && offer.values.as_slice() == values
}

fn is_told(rt: &impl Abort, node: &mut SrComponent<'_>, (told, did): &(Told, Did)) {
    match (node.on_notify(&notify(rt, told)), did) {
        (Notified::Moved(offer), Did::Moves(number, ports, values)) => {
            assert!(rt; is_offer(&offer, *number, *ports, values));
        }
        (Notified::Spent, Did::Spends) => assert!(rt; node.offer().is_none()),
        (Notified::Stale, Did::Stays) => {}
        _ => assert!(rt; false),
    }
}

fn are_told(rt: &impl Abort, node: &mut SrComponent<'_>, steps: &[(Told, Did)]) {
    for step in steps {
        is_told(rt, node, step);
    }
}

/// What the first component of a plan does above a base, with these values at its start.
fn takes(
    rt: &impl Abort,
    _alloc: Global,
    plan: &Plan,
    (base, values, steps): (Number, &[u32], &[(Told, Did)]),
) {
    assert!(rt; !plan.model().components().is_empty() && base < Number::MAX);
    let mut node = SrComponent::start(plan, CompId(0), base);
    let first = node.offer().expect(rt, "an offer");
    assert!(rt; is_offer(&first, base + 1, 1, values));
    are_told(rt, &mut node, steps);
}

fn are_taken(
    rt: &impl Abort,
    alloc: Global,
    text: &str,
    base: Number,
    values: &[u32],
    steps: &[(Told, Did)],
) {
    over_plan(rt, alloc, text, (base, values, steps), takes);
}

#[test]
fn a_component_moves_by_what_is_for_its_next_move(rt: HostRuntime) {
    const STEPS: &[(Told, Did)] = &[
        ((1, 1, 0, &[5]), Stays),
        ((0, 2, 0, &[5]), Stays),
        ((0, 1, 1, &[7]), Stays),
        ((0, 1, 2, &[5]), Stays),
        ((0, 1, 0, &[]), Stays),
        ((0, 1, 0, &[6]), Moves(2, 3, &[7])),
        ((0, 1, 0, &[6]), Stays),
        ((0, 2, 0, &[8]), Moves(3, 0, &[9])),
        ((0, 3, 0, &[1]), Stays),
    ];
    are_taken(&rt, rt.alloc(), COUNTER, 0, &[2], STEPS);
}

#[test]
fn a_component_stops_where_its_transition_leads(rt: HostRuntime) {
    const STEPS: &[(Told, Did)] = &[
        ((0, 5, 0, &[6]), Moves(6, 3, &[7])),
        ((0, 6, 1, &[3]), Moves(7, 0, &[3])),
        ((0, 7, 0, &[3]), Stays),
    ];
    are_taken(&rt, rt.alloc(), COUNTER, 4, &[2], STEPS);
}

#[test]
fn a_component_with_the_last_number_moves_once(rt: HostRuntime) {
    const STEPS: &[(Told, Did)] = &[
        ((0, 18446744073709551615, 0, &[2]), Spends),
        ((0, 18446744073709551615, 0, &[3]), Stays),
    ];
    are_taken(&rt, rt.alloc(), COUNTER, 18446744073709551614, &[2], STEPS);
}

#[test]
fn one_that_could_go_on_is_spent_at_the_last_number(rt: HostRuntime) {
    const STEPS: &[(Told, Did)] = &[
        ((0, 18446744073709551615, 0, &[]), Spends),
        ((0, 18446744073709551615, 0, &[]), Stays),
    ];
    are_taken(&rt, rt.alloc(), LOOP, 18446744073709551614, &[], STEPS);
}
