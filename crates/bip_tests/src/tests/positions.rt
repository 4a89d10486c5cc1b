use super::{OWN_WAYS, grants, over};
use bip_model::{CompId, Grant, Model, Number};
use bip_replay::{GrantRef, Position};
use std::alloc::Global;
use std::process::Abort;

/// The used numbers of two components and of a third that the model lacks.
fn used(position: &Position<'_>) -> [Number; 3] {
    let (first, second) = (position.used(CompId(0)), position.used(CompId(1)));
    [first, second, position.used(CompId(2))]
}

/// Steps by a grant: the fault's number, 0 where there is none.
fn step(position: &mut Position<'_>, grant: &Grant) -> u8 {
    match position.step(&GrantRef::of(grant)) {
        Ok(()) => 0,
        Err(fault) => fault.number(),
    }
}

/// The first component's next move, and the same again, which isn't enabled any more.
fn step_twice(rt: &impl Abort, position: &mut Position<'_>, grants: &[Grant]) {
    assert!(rt; grants.len() == 1 && position.base() == 4 && used(position) == [4, 4, 4]);
    assert!(rt; step(position, &grants[0]) == 0 && used(position) == [5, 4, 4]);
    assert!(rt; step(position, &grants[0]) == 1 && used(position) == [5, 4, 4]);
}

fn go_on(rt: &impl Abort, alloc: Global, model: &Model, text: &str) {
    let mut position = Position::start(alloc, model, 4).expect(rt, "memory");
    step_twice(rt, &mut position, grants(rt, alloc, model, text).as_slice());
}

#[test]
fn a_position_goes_on_by_a_grant(rt: HostRuntime) {
    over(&rt, rt.alloc(), OWN_WAYS, "grant x A:5", go_on);
}
