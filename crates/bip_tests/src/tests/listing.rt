use super::{moved, name, seen};
use bip_model::{Grant, InterId, Names, Seq, Values, Wants};
use std::process::Abort;

/// Puts a name into a list, which lacks it, and compares its number.
fn number(rt: &impl Abort, names: &mut Names, text: &str, wanted: usize) {
    let name = name(rt, text);
    assert!(rt; !names.contains(&name));
    names.push(name).expect(rt, "memory");
    assert!(rt; names.number_of(&name) == Some(wanted));
}

fn number_all(rt: &impl Abort, names: &mut Names) {
    number(rt, names, "b", 0);
    number(rt, names, "a", 1);
    number(rt, names, "c", 2);
    assert!(rt; names.number_of(&name(rt, "d")).is_none());
    assert!(rt; names.len() == 3 && names.as_slice()[1] == name(rt, "a"));
}

#[test]
fn names_are_numbered_in_order(rt: HostRuntime) {
    number_all(&rt, &mut Names::new(rt.alloc()));
}

fn put_and_take(rt: &impl Abort, list: &mut Seq<u8>) {
    assert!(rt; list.push(3).is_ok());
    assert!(rt; list.push(5).is_ok());
    assert!(rt; list.insert(1, 4).is_ok());
    assert!(rt; list.as_slice() == [3, 4, 5].as_slice());
    assert!(rt; list.pop() == Some(5));
    assert!(rt; list.as_slice() == [3, 4].as_slice());
}

#[test]
fn items_are_put_in_and_taken_off(rt: HostRuntime) {
    put_and_take(&rt, &mut Seq::of(Vec::new(rt.alloc())));
}

#[test]
fn values_are_eight_at_most(rt: HostRuntime) {
    const EIGHT: &[u32] = &[1, 2, 3, 4, 5, 6, 7, 4294967295];
    let values = Values::of(EIGHT).expect(&rt, "eight");
    assert!(rt; values.as_slice() == EIGHT && Values::of(&[0; 9]).is_none());
}

/// Compares a grant of two wants and its copy with their parts.
fn are_two(rt: &impl Abort, grant: &Grant, copy: &Grant) {
    let wanted = [moved(0, 1), seen(2, 7)];
    assert!(rt; copy.inter == InterId(3) && copy.wants.as_slice() == wanted.as_slice());
    assert!(rt; grant.wants.as_slice() == wanted.as_slice());
}

#[test]
fn wants_rise_and_move_one(rt: HostRuntime) {
    let wants = Wants::of(&[moved(0, 1), seen(2, 7)]).expect(&rt, "wants");
    let inter = InterId(3);
    let grant = Grant { inter, wants };
    are_two(&rt, &grant, &grant.copy());
}
