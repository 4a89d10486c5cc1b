use super::{SHARED, grants, moved, over, read, seen};
use crate::are_grants_of;
use bip_model::{Grant, InterId, Model, Want};
use bip_reader::write_model;
use bip_replay::write_trace;
use std::alloc::Global;
use std::process::Abort;

/// All that a text can declare, as it is written.
const WRITTEN: &str = "bip 1\ncomponent A\nvar v 7\nloc a\nport p\n\
    trans p a a when v + 1 < 3 and v != 0 do v := v - 1 ; v := 2\nend\n\
    component B\nvar w 0\nloc b\nport q\ntrans q b b\nend\n\
    interaction x A.p B.q when A.v >= B.w do B.w := A.v + 1\ninteraction y A.p\n\
    priority y < x\nclass K x y\n";

/// Participants and members that stand in another order than they are written in.
const TURNED: &str = "bip 1\ncomponent A\nloc a\nport p\nend\ncomponent B\nloc b\nport q\nend\n\
    interaction y B.q A.p\ninteraction x A.p\nclass K x y\n";

const STRAIGHT: &str = "bip 1\ncomponent A\nloc a\nport p\nend\ncomponent B\nloc b\nport q\nend\n\
    interaction y A.p B.q\ninteraction x A.p\nclass K y x\n";

fn rewritten(rt: &impl Abort, alloc: Global, text: &str) -> Vec<u8> {
    let read = read(rt, alloc, text);
    write_model(alloc, &read.0, &read.1).expect(rt, "memory")
}

#[test]
fn a_model_is_written_in_one_way(rt: HostRuntime) {
    let written = rewritten(&rt, rt.alloc(), WRITTEN);
    assert!(rt; written.as_slice() == WRITTEN.as_bytes());
    let straight = rewritten(&rt, rt.alloc(), TURNED);
    assert!(rt; straight.as_slice() == STRAIGHT.as_bytes());
}

const LOOSE: &str =
    "# two grants\n\n\tgrant  y R:18446744073709551615 see B:2 A:007\n#\ngrant x R:1 A:02";

const SPELLED: &str = "grant y R:18446744073709551615 see A:7 B:2\ngrant x A:2 R:1\n";

fn is_grant(rt: &impl Abort, grant: &Grant, inter: u16, wants: &[Want]) {
    assert!(rt; grant.inter == InterId(inter) && grant.wants.as_slice() == wants);
}

/// Compares grants with the two of both texts.
fn are_the_two(rt: &impl Abort, grants: &[Grant]) {
    assert!(rt; grants.len() == 2);
    let seeing = [seen(0, 7), seen(1, 2), moved(2, 18446744073709551615)];
    is_grant(rt, &grants[0], 1, &seeing);
    is_grant(rt, &grants[1], 0, &[moved(0, 2), moved(2, 1)]);
}

fn all_are_the_two(rt: &impl Abort, alloc: Global, model: &Model, texts: &[&str]) {
    for text in texts {
        are_the_two(rt, grants(rt, alloc, model, text).as_slice());
    }
}

#[test]
fn both_spellings_read_as_the_same_grants(rt: HostRuntime) {
    const TEXTS: &[&str] = &[LOOSE, SPELLED];
    over(&rt, rt.alloc(), SHARED, TEXTS, all_are_the_two);
}

/// Writes grants, and compares their text.
pub(crate) fn are_written(
    rt: &impl Abort,
    alloc: Global,
    model: &Model,
    grants: &[Grant],
    text: &str,
) {
    assert!(rt; are_grants_of(model, grants));
    let written = write_trace(alloc, model, grants).expect(rt, "memory");
    assert!(rt; written.as_slice() == text.as_bytes(), "{text}");
}

fn are_spelled(rt: &impl Abort, alloc: Global, model: &Model, texts: &[(&str, &str)]) {
    for (text, spelled) in texts {
        let grants = grants(rt, alloc, model, text);
        are_written(rt, alloc, model, grants.as_slice(), spelled);
    }
}

#[test]
fn grants_are_written_in_one_spelling(rt: HostRuntime) {
    const TEXTS: &[(&str, &str)] = &[(LOOSE, SPELLED), (SPELLED, SPELLED), ("# no grants", "")];
    over(&rt, rt.alloc(), SHARED, TEXTS, are_spelled);
}
