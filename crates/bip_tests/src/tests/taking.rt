//! What is accepted and then refused: receivers of a class and of a component hand on what they
//! accept, and their nodes stay as they were.
use self::Taken::{Dropped, Moves, Refused, Stale, Stranger, Takes};
use super::framing::{FIRST_OFFER, GRANTED, NOTIFY, OFFER, REFUSED, REQUEST, bytes_of};
use super::over_plan;
use super::worked::COMPETE;
use bip_component::{Notified, SrComponent};
use bip_core::{Address, accept};
use bip_frame::{Frame, OfferFrame, ReplyFrame};
use bip_ip::{Answered, IpNode, Tried, WhyNot};
use bip_model::{ClassId, CompId, InterId, Number};
use bip_observe::Receipt;
use bip_partition::Plan;
use std::alloc::Global;
use std::process::Abort;

/// What becomes of bytes: they are dropped, with the number of the fault; the node refuses what is
/// accepted, as older than what it has, a stranger's or stale; or it takes it, or moves by it.
#[derive(Clone, Copy, Debug, PartialEq, Eq)]
enum Taken {
    Dropped(u8),
    Refused,
    Stranger,
    Stale,
    Takes,
    Moves,
}

/// Offers of components 0 and 1, their first ones.
const OF_A: &str = "0100000000000000000001000100";

const OF_B: &str = "0100010000000000000001000100";

/// Replies to class 0: of its request 2, and of its request 1, but for interaction 1.
const TO_THE_NEXT: &str = "030000000000000000000200000000000000000000";

const TO_ANOTHER: &str = "030000000000000000000100010000000000000000";

const REFUSES_THE_NEXT: &str = "0400000000000000000002000000020000000000000001";

/// What class 0 of two that compete is sent before it asks: it touches components 0 and 2.
const BEFORE: &[(&str, Taken)] = &[
    (OF_B, Stranger),
    (FIRST_OFFER, Takes),
    (FIRST_OFFER, Refused),
    (OFFER, Refused),
    (OF_B, Stranger),
    (GRANTED, Stale),
    (REFUSED, Dropped(3)),
    (REQUEST, Dropped(3)),
    (NOTIFY, Dropped(3)),
    ("010003000000000000000100010100000000", Dropped(2)),
    ("0100020000000000000001000101000000", Dropped(1)),
    (OF_A, Takes),
];

/// And once its request 1, for interaction 0, is open.
const OPEN: &[(&str, Taken)] = &[
    (OF_B, Stranger),
    (OFFER, Refused),
    (TO_THE_NEXT, Stale),
    (TO_ANOTHER, Stale),
    (REFUSES_THE_NEXT, Stale),
    (REFUSED, Dropped(3)),
    (NOTIFY, Dropped(3)),
    ("07", Dropped(1)),
    (GRANTED, Takes),
    (GRANTED, Stale),
];

fn offer_taken(node: &mut IpNode<'_>, frame: &OfferFrame<'_>) -> Taken {
    match node.on_offer_frame(frame) {
        Receipt::Held => Takes,
        Receipt::Old => Refused,
        Receipt::Stranger => Stranger,
    }
}

fn reply_taken(node: &mut IpNode<'_>, frame: &ReplyFrame<'_>) -> Taken {
    match node.on_reply_frame(frame) {
        Answered::Told(_) => Takes,
        Answered::Dropped => Takes,
        Answered::Stale => Stale,
    }
}

/// What a class does with bytes: its node gets what it accepts.
fn class_takes(plan: &Plan, node: &mut IpNode<'_>, bytes: &[u8]) -> Taken {
    match accept(plan, Address::Class(ClassId(0)), bytes) {
        Ok(Frame::Offer(frame)) => offer_taken(node, &frame),
        Ok(Frame::Reply(frame)) => reply_taken(node, &frame),
        Ok(_) => Dropped(0),
        Err(fault) => Dropped(fault.number()),
    }
}

fn why_not(node: &IpNode<'_>) -> [Option<WhyNot>; 2] {
    [node.why_not(InterId(0)), node.why_not(InterId(1))]
}

fn class_is_sent(
    rt: &impl Abort,
    alloc: Global,
    plan: &Plan,
    node: &mut IpNode<'_>,
    sent: &[(&str, Taken)],
) {
    for (text, taken) in sent {
        let before = why_not(node);
        let bytes = bytes_of(rt, alloc, text);
        assert_eq!(rt; class_takes(plan, node, &bytes), *taken, "{text}");
        assert!(rt; *taken == Takes || why_not(node) == before, "{text}");
    }
}

fn class_asks(rt: &impl Abort, alloc: Global, plan: &Plan, (): ()) {
    let mut node = IpNode::new(alloc, plan, ClassId(0), 0, 1).expect(rt, "memory");
    class_is_sent(rt, alloc, plan, &mut node, BEFORE);
    assert!(rt; is_sent(&node.try_interaction(InterId(0))));
    class_is_sent(rt, alloc, plan, &mut node, OPEN);
}

fn is_sent(tried: &Tried) -> bool {
    match tried {
        Tried::Sent(_) => true,
        _ => false,
    }
}

#[test]
fn a_class_stays_as_it_was_by_what_is_not_for_it(rt: HostRuntime) {
    over_plan(&rt, rt.alloc(), COMPETE, (), class_asks);
}

/// What component 2 is sent: it moves by port 0 with its number 1, and then offers no port.
const TOLD: &[(&str, Taken)] = &[
    ("05000000000000000000010000", Stale),
    ("0500020000000000000002000100000000", Stale),
    ("0500020000000000000001010100000000", Dropped(3)),
    ("05000200000000000000010000", Dropped(3)),
    (FIRST_OFFER, Dropped(3)),
    (GRANTED, Dropped(3)),
    ("05000300000000000000010000", Dropped(2)),
    ("05000200000000000000010001000000", Dropped(1)),
    (NOTIFY, Moves),
    (NOTIFY, Stale),
    ("0500020000000000000002000100000001", Stale),
];

/// What a component does with bytes.
fn component_takes(plan: &Plan, node: &mut SrComponent<'_>, bytes: &[u8]) -> Taken {
    match accept(plan, Address::Comp(CompId(2)), bytes) {
        Ok(Frame::Notify(frame)) => match node.on_notify_frame(&frame) {
            Notified::Moved(_) => Moves,
            Notified::Spent => Takes,
            Notified::Stale => Stale,
        },
        Ok(_) => Dropped(0),
        Err(fault) => Dropped(fault.number()),
    }
}

/// What it offers: the number, the ports, and the value of its variable.
fn offered(node: &SrComponent<'_>) -> Option<(Number, u16, Option<u32>)> {
    let offer = node.offer()?;
    let value = match offer.values.as_slice() {
        [value] => Some(*value),
        _ => None,
    };
    Some((offer.number, offer.ports, value))
}

fn component_is_sent(
    rt: &impl Abort,
    alloc: Global,
    plan: &Plan,
    node: &mut SrComponent<'_>,
    sent: &[(&str, Taken)],
) {
    for (text, taken) in sent {
        let before = offered(node);
        let bytes = bytes_of(rt, alloc, text);
        assert_eq!(rt; component_takes(plan, node, &bytes), *taken, "{text}");
        assert!(rt; *taken == Moves || offered(node) == before, "{text}");
    }
}

fn component_moves(rt: &impl Abort, alloc: Global, plan: &Plan, (): ()) {
    assert!(rt; plan.model().components().len() == 3);
    let mut node = SrComponent::start(plan, CompId(2), 0);
    assert!(rt; offered(&node) == Some((1, 1, Some(0))));
    component_is_sent(rt, alloc, plan, &mut node, TOLD);
    assert!(rt; offered(&node) == Some((2, 0, Some(1))));
}

#[test]
fn a_component_stays_as_it_was_by_what_is_not_for_it(rt: HostRuntime) {
    over_plan(&rt, rt.alloc(), COMPETE, (), component_moves);
}
