//! Which addressees accept a frame, and why others drop it, in the model of docs/EXAMPLES.md where
//! two classes compete.
use super::framing::{FIRST_OFFER, GRANTED, NOTIFY, OFFER, REFUSED, REQUEST, WORKED, bytes_of};
use super::over_plan;
use super::worked::COMPETE;
use bip_core::{Address, accept};
use bip_model::{ClassId, CompId};
use bip_partition::Plan;
use std::alloc::Global;
use std::process::Abort;

/// The addressees of the table below: of components and classes the first and the last.
const ADDRESSEES: [Address; 5] = [
    Address::Comp(CompId(0)),
    Address::Comp(CompId(2)),
    Address::Class(ClassId(0)),
    Address::Class(ClassId(1)),
    Address::Layer,
];

/// What the plan lacks.
const STRANGERS: [Address; 2] = [Address::Comp(CompId(3)), Address::Class(ClassId(2))];

/// Frames, and what each addressee does with them: 0 where it accepts it, else the number of the
/// fault.
const ANSWERS: [(&str, [u8; 5]); 24] = [
    (OFFER, [3, 3, 0, 0, 3]),
    (FIRST_OFFER, [3, 3, 0, 0, 3]),
    (REQUEST, [3, 3, 3, 3, 0]),
    (GRANTED, [3, 3, 0, 3, 3]),
    (REFUSED, [3, 3, 3, 0, 3]),
    (NOTIFY, [0, 0, 3, 3, 3]),
    // Offers: of component 0, which class 1 doesn't touch; of a component 3; without its value;
    // with a port 1 on.
    ("0100000000000000000001000100", [3, 3, 0, 0, 3]),
    ("010003000000000000000100010100000000", [2; 5]),
    ("0100020000000000000001000100", [3; 5]),
    ("010002000000000000000100020100000000", [3; 5]),
    // Requests: of a class 2; for an interaction 2; of a component 3; of class 1 for interaction 0;
    // of component 0 alone; that only looks at component 2.
    (
        "020002000000000000000100000200000100000000000000010002010000000000000001",
        [2; 5],
    ),
    (
        "020000000000000000000100020200000100000000000000010002010000000000000001",
        [2; 5],
    ),
    (
        "020000000000000000000100000200000100000000000000010003010000000000000001",
        [2; 5],
    ),
    (
        "020001000000000000000100000200000100000000000000010002010000000000000001",
        [3; 5],
    ),
    ("02000000000000000000010000010000010000000000000001", [3; 5]),
    (
        "020000000000000000000100000200000100000000000000010002000000000000000001",
        [3; 5],
    ),
    // Replies: to a class 2; for an interaction 2; for an interaction of the other class; with a
    // component 3.
    ("030002000000000000000100000000000000000000", [2; 5]),
    ("030000000000000000000100020000000000000000", [2; 5]),
    (
        "030000000000000000000100010000000000000000",
        [3, 3, 0, 3, 3],
    ),
    ("0400010000000000000001000100030000000000000001", [2; 5]),
    // Notifications: of component 0; of a component 3; by a port 1; without its value.
    ("05000000000000000000010000", [0, 0, 3, 3, 3]),
    ("0500030000000000000001000100000000", [2; 5]),
    ("0500020000000000000001010100000000", [3; 5]),
    ("05000200000000000000010000", [3; 5]),
];

/// 0 where the addressee accepts the bytes, else the number of the fault.
fn answer(plan: &Plan, to: Address, bytes: &[u8]) -> u8 {
    match accept(plan, to, bytes) {
        Ok(_) => 0,
        Err(fault) => fault.number(),
    }
}

fn are_answered(rt: &impl Abort, alloc: Global, plan: &Plan, answers: &[(&str, [u8; 5])]) {
    for (text, numbers) in answers {
        let bytes = bytes_of(rt, alloc, text);
        for (to, number) in ADDRESSEES.iter().zip(numbers) {
            assert_eq!(rt; answer(plan, *to, &bytes), *number, "{text}");
        }
        for to in &STRANGERS {
            assert_eq!(rt; answer(plan, *to, &bytes), 2, "{text}");
        }
    }
}

#[test]
fn frames_are_accepted_or_dropped(rt: HostRuntime) {
    over_plan(&rt, rt.alloc(), COMPETE, &ANSWERS[..], are_answered);
}

fn is_dropped(rt: &impl Abort, plan: &Plan, text: &str, bytes: &[u8]) {
    for to in ADDRESSEES.iter().chain(&STRANGERS) {
        assert_eq!(rt; answer(plan, *to, bytes), 1, "{text}");
    }
}

fn are_dropped(rt: &impl Abort, alloc: Global, plan: &Plan, worked: &[(&str, u8)]) {
    for (text, fault) in worked {
        if *fault != 0 {
            is_dropped(rt, plan, text, &bytes_of(rt, alloc, text));
        }
    }
}

#[test]
fn what_is_no_frame_is_dropped(rt: HostRuntime) {
    over_plan(&rt, rt.alloc(), COMPETE, &WORKED[..], are_dropped);
}
