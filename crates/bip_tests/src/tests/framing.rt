//! Worked frames; each of them cut, with more behind, and with each byte set to each value, against
//! a slow reading.
ghost use Rattle.std.specs.Prelude.{◌≡◌, ◌↔◌, IsTrue};
ghost use Rattle.bip_frame.specs.Frames.{IsNumbered};

use super::moved;
use super::slow_frames::fault_by_table;
use bip_frame::{Frame, read, write_notify, write_offer, write_reply, write_reserve};
use bip_model::{Cause, ClassId, CompId, InterId, Reasons, Reply, Request, Role, Want, Wants, Why};
use bytes::Bytes;
use std::alloc::{AllocError, Global};
use std::process::Abort;

/// Component 2 offers port 0 as its move 1: with the value 5, and with the value 0.
pub(super) const OFFER: &str = "010002000000000000000100010100000005";

pub(super) const FIRST_OFFER: &str = "010002000000000000000100010100000000";
/// Class 0 asks to move components 0 and 2, and is granted it; class 1 is refused, since the number
/// 1 of component 2 is used; and component 2 is told to move.
pub(super) const REQUEST: &str = "0200000000000000000001000002\
    00000100000000000000010002010000000000000001";

/// Class 0 asks to move component 0 beside component 1, since the port of component 1 for
/// interaction 1 is off.
pub(super) const EXPLAINED: &str = "0600000000000000000001000002\
    000001000000000000000100010000000000000000010100010001";

/// Class 0 asks to move components 0 and 2 beside component 1, since the guard of interaction 1 is
/// false.
const GUARDED: &str = "0600000000000000000001000003\
    00000100000000000000010001000000000000000001\
    0002010000000000000001010001ffff";

/// It asks to move component 0 beside components 1 and 2, since the port of component 1 for
/// interaction 1 is off, and the guard of interaction 2 is false.
const EXPLAINED_TWICE: &str = "0600000000000000000001000003\
    00000100000000000000010001000000000000000001\
    000200000000000000000102000100010002ffff";

pub(super) const GRANTED: &str = "030000000000000000000100000000000000000000";

pub(super) const REFUSED: &str = "0400010000000000000001000100020000000000000001";

pub(super) const NOTIFY: &str = "0500020000000000000001000100000000";

/// Bytes, and the number of their first fault: 0 where they are a frame.
pub(super) const WORKED: [(&str, u8); 24] = [
    (OFFER, 0),
    (FIRST_OFFER, 0),
    (REQUEST, 0),
    (EXPLAINED, 0),
    (GUARDED, 0),
    (EXPLAINED_TWICE, 0),
    (GRANTED, 0),
    (REFUSED, 0),
    (NOTIFY, 0),
    ("07", 1),
    ("", 2),
    ("06", 2),
    ("06000000000000000000010000010000000000000000000001", 2),
    ("0600000000000000000001000001000000000000000000000100", 3),
    ("0200000000000000000001000000", 3),
    ("0100020000000000000001000109", 3),
    ("02000000000000000000010000010000020000000000000001", 4),
    (
        "020000000000000000000100000200020100000000000000010001010000000000000001",
        5,
    ),
    (
        "0600000000000000000001000001000001000000000000000102000100010001ffff",
        5,
    ),
    ("02000000000000000000010000010000000000000000000001", 6),
    (
        "0600000000000000000001000001000000000000000000000101000100010000",
        6,
    ),
    ("010002000000000000000000010100000005", 7),
    ("0500020000000000000001100100000000", 8),
    ("01000200000000000000010001010000000500", 9),
];

pub(super) fn bytes_of(rt: &impl Abort, alloc: Global, text: &str) -> Vec<u8> {
    hex::decode(alloc, text).expect(rt, "bytes")
}

fn is_numbered(reply: &Reply) -> bool
    ensures { IsTrue result ↔ IsNumbered reply.now }
{
    match *reply {
        Reply::Granted { request, .. } => request != 0,
        Reply::Refused { request, used, .. } => request != 0 && used != 0,
    }
}

/// Writes what a frame shows.
pub(super) fn write(
    rt: &impl Abort,
    alloc: Global,
    frame: &Frame<'_>,
) -> Result<Bytes, AllocError> {
    match frame {
        Frame::Offer(frame) => {
            let offer = frame.offer();
            assert!(rt; offer.number != 0);
            write_offer(alloc, &offer)
        }
        Frame::Reserve(frame) => {
            let request = frame.value();
            assert!(rt; request.request != 0);
            write_reserve(alloc, &request)
        }
        Frame::Reply(frame) => {
            let reply = frame.reply();
            assert!(rt; is_numbered(&reply));
            write_reply(alloc, &reply)
        }
        Frame::Notify(frame) => {
            let notify = frame.notify();
            assert!(rt; notify.number != 0 && notify.port.0 < 16);
            write_notify(alloc, &notify)
        }
    }
}

/// The frame of what a frame shows.
pub(super) fn written_again(rt: &impl Abort, alloc: Global, frame: &Frame<'_>) -> Bytes {
    write(rt, alloc, frame).expect(rt, "memory")
}

/// The number of the fault that is told of bytes. Where they are a frame it is 0, and what is read
/// is written back byte for byte.
fn told(rt: &impl Abort, alloc: Global, bytes: &[u8]) -> u8 {
    match read(bytes) {
        Ok(frame) => {
            assert_eq!(rt; written_again(rt, alloc, &frame).as_slice(), bytes);
            0
        }
        Err(fault) => fault.number(),
    }
}

fn is_told(rt: &impl Abort, alloc: Global, bytes: &[u8]) {
    assert_eq!(rt; told(rt, alloc, bytes), fault_by_table(bytes));
}

#[test]
fn worked_frames_are_told(rt: HostRuntime) {
    for (text, fault) in &WORKED {
        let bytes = bytes_of(&rt, rt.alloc(), text);
        assert_eq!(rt; told(&rt, rt.alloc(), &bytes), *fault, "{text}");
        assert_eq!(rt; fault_by_table(&bytes), *fault, "{text}");
    }
}

fn cut_everywhere(rt: &impl Abort, alloc: Global, bytes: &[u8]) {
    for len in 0..bytes.len() {
        is_told(rt, alloc, &bytes[..len]);
    }
}

#[test]
fn cut_frames_are_told(rt: HostRuntime) {
    for (text, _) in &WORKED {
        cut_everywhere(&rt, rt.alloc(), &bytes_of(&rt, rt.alloc(), text));
    }
}

/// Sets each byte to each value.
fn set_each(rt: &impl Abort, alloc: Global, bytes: &mut Vec<u8>) {
    for place in 0..bytes.len() {
        let kept = bytes[place];
        for value in 0..=255 {
            bytes[place] = value;
            is_told(rt, alloc, bytes);
        }
        bytes[place] = kept;
    }
}

#[test]
fn changed_frames_are_told(rt: HostRuntime) {
    for (text, _) in &WORKED {
        let mut bytes = bytes_of(&rt, rt.alloc(), text);
        set_each(&rt, rt.alloc(), &mut bytes);
        bytes.push(0).expect(&rt, "memory");
        set_each(&rt, rt.alloc(), &mut bytes);
    }
}

#[test]
fn an_offer_shows_its_parts(rt: HostRuntime) {
    let bytes = bytes_of(&rt, rt.alloc(), OFFER);
    let Ok(Frame::Offer(frame)) = read(&bytes) else {
        return assert!(rt; false);
    };
    assert_eq!(rt; (frame.comp().0, frame.number(), frame.ports()), (2, 1, 1));
    assert_eq!(rt; frame.vars(), [0, 0, 0, 5].as_slice());
    assert_eq!(rt; (frame.var(0), frame.var(1)), (Some(5), None));
}

#[test]
fn a_request_shows_its_parts(rt: HostRuntime) {
    let bytes = bytes_of(&rt, rt.alloc(), REQUEST);
    let Ok(Frame::Reserve(frame)) = read(&bytes) else {
        return assert!(rt; false);
    };
    assert_eq!(rt;
        (frame.class().0, frame.request(), frame.inter().0),
        (0, 1, 0)
    );
    assert_eq!(rt; frame.len(), 2);
    assert!(rt; frame.entry(2).is_none());
    let Some(second) = frame.entry(1) else {
        return assert!(rt; false);
    };
    assert_eq!(rt; (second.comp().0, second.number()), (2, 1));
    assert!(rt; second.role() == Role::Moved);
}

fn is_reply(rt: &impl Abort, alloc: Global, text: &str, reply: Reply) {
    let bytes = bytes_of(rt, alloc, text);
    let Ok(Frame::Reply(frame)) = read(&bytes) else {
        return assert!(rt; false);
    };
    assert!(rt; frame.reply() == reply);
    assert_eq!(rt; frame.request(), 1);
    assert!(rt; frame.class().0 == frame.inter().0);
}

#[test]
fn replies_show_their_parts(rt: HostRuntime) {
    let granted = Reply::Granted {
        class: ClassId(0),
        request: 1,
        inter: InterId(0),
        serial: 0,
    };
    is_reply(&rt, rt.alloc(), GRANTED, granted);
    let refused = Reply::Refused {
        class: ClassId(1),
        request: 1,
        inter: InterId(1),
        comp: CompId(2),
        used: 1,
    };
    is_reply(&rt, rt.alloc(), REFUSED, refused);
}

#[test]
fn a_notification_shows_its_parts(rt: HostRuntime) {
    let bytes = bytes_of(&rt, rt.alloc(), NOTIFY);
    let Ok(Frame::Notify(frame)) = read(&bytes) else {
        return assert!(rt; false);
    };
    assert_eq!(rt; (frame.comp().0, frame.number(), frame.port().0), (2, 1, 0));
    assert_eq!(rt; frame.vars(), [0; 4].as_slice());
    assert_eq!(rt; (frame.var(0), frame.var(1)), (Some(0), None));
}

#[test]
fn a_request_shows_its_reasons(rt: HostRuntime) {
    let bytes = bytes_of(&rt, rt.alloc(), EXPLAINED);
    assert_eq!(rt; bytes.len(), 41);
    let Ok(Frame::Reserve(frame)) = read(&bytes) else {
        return assert!(rt; false);
    };
    assert_eq!(rt; (frame.len(), frame.reason_count()), (2, 1));
    let why = Why {
        inter: InterId(1),
        cause: Cause::Port(CompId(1)),
    };
    assert_eq!(rt; (frame.reason(0), frame.reason(1)), (Some(why), None));
    assert_eq!(rt; frame.value().reasons.get(0), Some(why));
    let bare = bytes_of(&rt, rt.alloc(), REQUEST);
    let Ok(Frame::Reserve(frame)) = read(&bare) else {
        return assert!(rt; false);
    };
    assert_eq!(rt; (frame.reason_count(), frame.reason(0)), (0, None));
    assert!(rt; frame.reasons().is_empty());
}

/// Class 0 asks as its request 1 for interaction 0, which moves 32 components.
fn long_request(rt: &impl Abort, alloc: Global, reasons: Reasons) -> Request
    ensures { result.request ≡ 1 }
{
    let list = (0..32).map(|comp| moved(comp, 7)).collect(alloc);
    let list: Vec<Want> = list.expect(rt, "memory");
    Request {
        wants: Wants::of(&list).expect(rt, "wants"),
        reasons,
        request: 1,
        class: ClassId(0),
        inter: InterId(0),
    }
}

#[test]
fn the_longest_frame_without_reasons_is_read_back(rt: HostRuntime) {
    let request = long_request(&rt, rt.alloc(), Reasons::none());
    let bytes = write_reserve(rt.alloc(), &request).expect(&rt, "memory");
    assert_eq!(rt; bytes.len(), 366);
    is_told(&rt, rt.alloc(), bytes.as_slice());
    let Ok(Frame::Reserve(frame)) = read(bytes.as_slice()) else {
        return assert!(rt; false);
    };
    let last = frame
        .entry(31)
        .map(|entry| (entry.comp().0, entry.number()));
    assert_eq!(rt; last, Some((31, 7)));
}

#[test]
fn the_longest_frame_is_read_back(rt: HostRuntime) {
    let list = (1..128).map(|inter| guarded(inter)).collect(rt.alloc());
    let list: Vec<Why> = list.expect(&rt, "memory");
    let reasons = Reasons::of(&list).expect(&rt, "reasons");
    let request = long_request(&rt, rt.alloc(), reasons);
    let bytes = write_reserve(rt.alloc(), &request).expect(&rt, "memory");
    assert_eq!(rt; bytes.len(), 875);
    is_told(&rt, rt.alloc(), bytes.as_slice());
    let Ok(Frame::Reserve(frame)) = read(bytes.as_slice()) else {
        return assert!(rt; false);
    };
    assert_eq!(rt; (frame.len(), frame.reason_count()), (32, 127));
    assert_eq!(rt; frame.reason(126), Some(guarded(127)));
    assert_eq!(rt; frame.value().reasons.get(126), Some(guarded(127)));
}

/// The guard of an interaction is false.
fn guarded(inter: u16) -> Why {
    Why {
        inter: InterId(inter),
        cause: Cause::Guard,
    }
}
