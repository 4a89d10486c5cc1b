use super::{OWN_WAYS, name, over};
use bip_model::{ClassFault, ClassId, Classes, InterId, Model, Name};
use std::alloc::Global;
use std::process::Abort;

const X: InterId = InterId(0);

const Y: InterId = InterId(1);

fn class(rt: &impl Abort, alloc: Global, text: &str, members: &[InterId]) -> (Name, Vec<InterId>) {
    let members = Vec::from_slice(alloc, members).expect(rt, "memory");
    (name(rt, text), members)
}

/// Parts the interactions of a model into classes, each a name with its members.
fn part(
    rt: &impl Abort,
    alloc: Global,
    model: &Model,
    classes: &[(&str, &[InterId])],
) -> Result<Classes, ClassFault> {
    let mut list = Vec::new(alloc);
    for (text, members) in classes {
        let pushed = list.push(class(rt, alloc, text, members));
        assert!(rt; pushed.is_ok());
    }
    Classes::of(alloc, model, list)
}

fn are_no_classes(rt: &impl Abort, alloc: Global, model: &Model, lists: &[&[(&str, &[InterId])]]) {
    for classes in lists {
        let fault = part(rt, alloc, model, classes).err();
        assert!(rt; matches!(fault, Some(ClassFault::NotAPartition)));
    }
}

#[test]
fn each_interaction_stands_in_one_class(rt: HostRuntime) {
    const LISTS: &[&[(&str, &[InterId])]] = &[
        &[("P", &[X]), ("Q", &[Y, InterId(2)])],
        &[("P", &[X, Y]), ("Q", &[])],
        &[("P", &[X]), ("P", &[Y])],
    ];
    over(&rt, rt.alloc(), OWN_WAYS, LISTS, are_no_classes);
}

/// Compares the one class of two interactions with its parts.
fn is_one_class(rt: &impl Abort, classes: &Classes) {
    assert!(rt; classes.len() == 1);
    assert!(rt; classes.members(ClassId(0)) == [X, Y].as_slice());
    assert!(rt; classes.names()[0] == name(rt, "P"));
    assert!(rt; classes.number(&name(rt, "P")) == Some(ClassId(0)));
}

fn part_into_one(rt: &impl Abort, alloc: Global, model: &Model, classes: &[(&str, &[InterId])]) {
    let classes = part(rt, alloc, model, classes).expect(rt, "classes");
    is_one_class(rt, &classes);
    drop(classes);
}

#[test]
fn members_stand_in_order(rt: HostRuntime) {
    const CLASSES: &[(&str, &[InterId])] = &[("P", &[Y, X])];
    over(&rt, rt.alloc(), OWN_WAYS, CLASSES, part_into_one);
}
