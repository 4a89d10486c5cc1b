use super::{OWN_WAYS, THREE_WAYS, over};
use bip_model::{CompId, InterId, LocId, Model, PortId, State, Values};
use std::alloc::Global;
use std::process::Abort;

/// The state has two components, and the third interaction is the third component's.
fn offers_no_third(rt: &impl Abort, three: &Model, state: &mut State) {
    assert!(rt; !three.enabled(state, InterId(2)));
    assert!(rt; three.fire(state, InterId(2)).is_err());
    assert!(rt; state.local(CompId(2)).is_none());
}

fn start_without_third(rt: &impl Abort, alloc: Global, two: &Model, three: &Model) {
    let mut state = two.start(alloc).expect(rt, "memory");
    offers_no_third(rt, three, &mut state);
}

fn start_another(rt: &impl Abort, alloc: Global, three: &Model, text: &str) {
    over(rt, alloc, text, three, start_without_third);
}

#[test]
fn a_state_of_another_model_offers_nothing_it_lacks(rt: HostRuntime) {
    over(&rt, rt.alloc(), THREE_WAYS, OWN_WAYS, start_another);
}

/// Compares the ports of the second component in a location, and where the first port leads.
fn is_step(rt: &impl Abort, model: &Model, location: LocId, ports: u16, target: Option<LocId>) {
    let none = Values::none();
    assert!(rt; model.components().len() == 2);
    assert!(rt; model.components()[1].variables.len() == 0);
    assert!(rt; (location.0 as usize) < model.components()[1].locations.len());
    assert!(rt; model.ports(CompId(1), location, &none) == ports);
    let moved = model.move_one(CompId(1), location, &none, PortId(0));
    assert!(rt; moved.map(|target| target.0) == target);
}

fn are_steps(rt: &impl Abort, _: Global, model: &Model, steps: &[(u8, u16, Option<LocId>)]) {
    for (location, ports, target) in steps {
        is_step(rt, model, LocId(*location), *ports, *target);
    }
}

#[test]
fn parts_of_a_step(rt: HostRuntime) {
    const STEPS: &[(u8, u16, Option<LocId>)] = &[(0, 1, Some(LocId(1))), (1, 0, None)];
    over(&rt, rt.alloc(), OWN_WAYS, STEPS, are_steps);
}
