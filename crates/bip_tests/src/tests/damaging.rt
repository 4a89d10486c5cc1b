//! Frames that are damaged, for each addressee of four plans: cut at each length, with a byte
//! behind, and with each byte set to each value. What `accept` answers of each is compared with a
//! slow judgement, and what is accepted is written back.
use super::framing::{WORKED, bytes_of, written_again};
use super::over_plan;
use super::slow_addressees::{Asked, Judged, Known, judged_by_hand, judged_for_all};
use super::worked::{CLIMB, COMPETE, COMPETE_TWICE};
use bip_core::{Address, DropFault, accept};
use bip_model::{ClassId, CompId};
use bip_partition::Plan;
use std::alloc::Global;
use std::process::Abort;

/// A moves by x; above it B and D move by y, for which B has no transition.
const IDLE_ABOVE: &str = "bip 1\n\
    component A\nloc a0\nloc a1\nport s\ntrans s a0 a1\nend\n\
    component B\nloc b0\nport s\nend\n\
    component D\nloc d0\nport s\ntrans s d0 d0\nend\n\
    interaction x A.s\ninteraction y B.s D.s\npriority x < y\nclass P x y\n";

/// Each component and the first one that isn't there, the same of classes, and the third layer.
const ADDRESSEES: [Address; 8] = [
    Address::Comp(CompId(0)),
    Address::Comp(CompId(1)),
    Address::Comp(CompId(2)),
    Address::Comp(CompId(3)),
    Address::Class(ClassId(0)),
    Address::Class(ClassId(1)),
    Address::Class(ClassId(2)),
    Address::Layer,
];

/// Two that compete for a third, which has a variable.
const COMPETING: Known = Known {
    components: &[(0, 1), (0, 1), (1, 1)],
    classes: 2,
    inters: &[
        Asked {
            class: 0,
            moves: &[0, 2],
            looks: &[],
            above: &[],
        },
        Asked {
            class: 1,
            moves: &[1, 2],
            looks: &[],
            above: &[],
        },
    ],
};

/// The same, the second above the first.
const COMPETING_TWICE: Known = Known {
    components: &[(0, 1), (0, 1), (1, 1)],
    classes: 2,
    inters: &[
        Asked {
            class: 0,
            moves: &[0, 2],
            looks: &[1],
            above: &[(1, &[1, 2])],
        },
        Asked {
            class: 1,
            moves: &[1, 2],
            looks: &[],
            above: &[],
        },
    ],
};

const BELOW_IDLE: Known = Known {
    components: &[(0, 1), (0, 1), (0, 1)],
    classes: 1,
    inters: &[
        Asked {
            class: 0,
            moves: &[0],
            looks: &[1, 2],
            above: &[(1, &[1, 2])],
        },
        Asked {
            class: 0,
            moves: &[1, 2],
            looks: &[],
            above: &[],
        },
    ],
};

/// Each of three moves one component, and stands above those before it.
const CLIMBING: Known = Known {
    components: &[(0, 1), (1, 1), (0, 1)],
    classes: 1,
    inters: &[
        Asked {
            class: 0,
            moves: &[0],
            looks: &[1, 2],
            above: &[(1, &[1]), (2, &[2])],
        },
        Asked {
            class: 0,
            moves: &[1],
            looks: &[2],
            above: &[(2, &[2])],
        },
        Asked {
            class: 0,
            moves: &[2],
            looks: &[],
            above: &[],
        },
    ],
};

/// How an addressee judges bytes. What is accepted is written back, where that is asked for.
fn judged(
    rt: &impl Abort,
    alloc: Global,
    plan: &Plan,
    to: Address,
    bytes: &[u8],
    is_written: bool,
) -> Judged {
    match accept(plan, to, bytes) {
        Ok(frame) => {
            assert!(rt; !is_written || written_again(rt, alloc, &frame).as_slice() == bytes);
            (0, 0)
        }
        Err(DropFault::Frame(fault)) => (1, fault.number()),
        Err(fault) => (fault.number(), 0),
    }
}

/// Judges bytes for each addressee, and writes back what the first one accepts.
fn are_judged(rt: &impl Abort, alloc: Global, plan: &Plan, known: &Known, bytes: &[u8]) {
    let for_all = judged_for_all(known, bytes);
    let mut is_first = true;
    for to in &ADDRESSEES {
        let by_hand = judged_by_hand(known, *to, bytes, for_all);
        assert!(rt; judged(rt, alloc, plan, *to, bytes, is_first) == by_hand);
        is_first = is_first && by_hand.0 != 0;
    }
}

/// Judges bytes that are cut at each length, and with a byte more; says how many there were.
fn are_cut(rt: &impl Abort, alloc: Global, plan: &Plan, known: &Known, bytes: &mut Vec<u8>) -> u32 {
    let mut tried: u32 = 1;
    for len in 0..bytes.len() {
        are_judged(rt, alloc, plan, known, &bytes[..len]);
        tried = tried.wrapping_add(1);
    }
    bytes.push(0).expect(rt, "memory");
    are_judged(rt, alloc, plan, known, bytes);
    tried
}

/// Sets each byte to each value; says how many bytes there were.
fn are_set(rt: &impl Abort, alloc: Global, plan: &Plan, known: &Known, bytes: &mut Vec<u8>) -> u32 {
    let mut tried: u32 = 0;
    for place in 0..bytes.len() {
        let kept = bytes[place];
        for value in 0..=255 {
            bytes[place] = value;
            are_judged(rt, alloc, plan, known, bytes);
            tried = tried.wrapping_add(1);
        }
        bytes[place] = kept;
    }
    tried
}

/// How many bytes are tried of all frames: of one of n bytes n that are cut, one that is longer,
/// and 256 n that are changed.
const TRIED: u32 = 146257;

/// Damages each frame.
fn are_damaged(rt: &impl Abort, alloc: Global, plan: &Plan, known: &Known) {
    let mut tried: u32 = 0;
    for (text, _) in &WORKED {
        let mut bytes = bytes_of(rt, alloc, text);
        tried = tried.wrapping_add(are_set(rt, alloc, plan, known, &mut bytes));
        tried = tried.wrapping_add(are_cut(rt, alloc, plan, known, &mut bytes));
    }
    assert_eq!(rt; tried, TRIED);
}

#[test]
fn damaged_frames_are_judged_where_two_compete(rt: HostRuntime) {
    over_plan(&rt, rt.alloc(), COMPETE, &COMPETING, are_damaged);
}

#[test]
fn damaged_frames_are_judged_where_two_compete_with_priority(rt: HostRuntime) {
    over_plan(
        &rt,
        rt.alloc(),
        COMPETE_TWICE,
        &COMPETING_TWICE,
        are_damaged,
    );
}

#[test]
fn damaged_frames_are_judged_below_one_that_is_idle(rt: HostRuntime) {
    over_plan(&rt, rt.alloc(), IDLE_ABOVE, &BELOW_IDLE, are_damaged);
}

#[test]
fn damaged_frames_are_judged_where_one_stands_above_another(rt: HostRuntime) {
    over_plan(&rt, rt.alloc(), CLIMB, &CLIMBING, are_damaged);
}
