use super::over_plan;
use super::worked::COMPETE;
use bip_bank::{BankStep, StationId};
use bip_core::Event;
use bip_model::{ClassId, InterId};
use bip_partition::Plan;
use bip_schedule::{event_of, have_spelling, read_schedule, write_schedule};
use std::alloc::Global;
use std::process::Abort;

const X: StationId = StationId(0);

const Y: StationId = StationId(1);

/// Events of two that compete for a third, as a schedule says them.
const EVENTS: &[Event] = &[
    Event::Mail(4294967295),
    Event::Try(ClassId(1), InterId(0)),
    Event::Bank(BankStep::Serve(X)),
    Event::Bank(BankStep::Deliver(0)),
    Event::Bank(BankStep::Pass(Y, X)),
    Event::Bank(BankStep::Ask(X, Y)),
];

const SAID: &str = "mail 4294967295\ntry Q x\nserve x\ndeliver 0\npass y x\nask x y\n";

fn are_events(rt: &impl Abort, _alloc: Global, plan: &Plan, words: &[(u32, Event)]) {
    for (word, event) in words {
        assert!(rt; event_of(*word, 4, plan, 0) == *event);
    }
}

#[test]
fn each_word_is_an_event(rt: HostRuntime) {
    const WORDS: &[(u32, Event)] = &[
        (9, Event::Mail(2)),
        (4, Event::Mail(1)),
        (6, Event::Try(ClassId(1), InterId(1))),
        (7, Event::Bank(BankStep::Serve(X))),
        (23, Event::Bank(BankStep::Serve(Y))),
        (27, Event::Bank(BankStep::Pass(Y, X))),
        (63, Event::Bank(BankStep::Ask(Y, Y))),
        (3, Event::Bank(BankStep::Deliver(0))),
    ];
    over_plan(&rt, rt.alloc(), COMPETE, WORDS, are_events);
}

fn reads_back(rt: &impl Abort, alloc: Global, plan: &Plan, text: &str) {
    let read = read_schedule(alloc, plan, text.as_bytes()).expect(rt, "a schedule");
    let events = read.as_slice();
    assert!(rt; events == EVENTS);
    assert!(rt; have_spelling(plan, events));
    let written = write_schedule(alloc, plan, events).expect(rt, "memory");
    assert!(rt; written.as_slice() == text.as_bytes());
}

#[test]
fn a_schedule_is_its_events(rt: HostRuntime) {
    over_plan(&rt, rt.alloc(), COMPETE, SAID, reads_back);
}

/// Reads a schedule that is refused: the number of the line at fault, and the fault.
fn refuses(rt: &impl Abort, alloc: Global, plan: &Plan, texts: &[(&str, &str)]) {
    for (text, told) in texts {
        let (line, fault) = read_schedule(alloc, plan, text.as_bytes())
            .err()
            .expect(rt, "a fault");
        let said = format!(in alloc; "line {line}: {fault}").expect(rt, "memory");
        assert_eq!(rt; said.as_str(), *told);
    }
    assert!(rt; !have_spelling(plan, &[Event::Mail(4294967296)]));
    assert!(rt; !have_spelling(plan, &[Event::Bank(BankStep::Serve(StationId(2)))]));
}

#[test]
fn a_schedule_is_refused_by_its_first_line_at_fault(rt: HostRuntime) {
    const TEXTS: &[(&str, &str)] = &[
        ("mail 0\nserve z\nmail\n", "line 2: unknown name"),
        ("mail 4294967296\nserve z\n", "line 1: syntax"),
    ];
    over_plan(&rt, rt.alloc(), COMPETE, TEXTS, refuses);
}
