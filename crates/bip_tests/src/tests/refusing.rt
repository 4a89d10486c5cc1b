//! Calls whose requests for memory are counted and refused in turn, by `cases/refusals`, which puts
//! a library before these tests that looks for two lines of theirs. By themselves they have ample
//! memory, and compare each answer. Where a call was refused, all that its objects lend is as it
//! was before, and the same call is answered as ever.
ghost use Rattle.std.specs.Prelude.{◌≡◌, []};
ghost use Rattle.bip_bank.specs.Banks.{content_of};
ghost use Rattle.bip_core.specs.Starting.{IsUnasked};
ghost use Rattle.bip_model.specs.Partitions.{AreClassesOf};

use super::framing::{WORKED, bytes_of, write, written_again};
use super::tabling::{THREE, have};
use super::worked::{COMPETE, COMPETE_TWICE};
use super::{grants, moved, over_plan, plan, read, tabling};
use crate::are_grants_of;
use bip_bank::{Bank, Central};
use bip_core::{Event, World, run_steps};
use bip_forks::Forks;
use bip_frame::read as read_frame;
use bip_model::{Classes, Grant, Model, Request};
use bip_partition::{Plan, PlanFault};
use bip_reader::{Why, read_model, write_model};
use bip_replay::{Book, BookFault, replay, write_trace};
use bip_ring::Ring;
use bip_schedule::{Draw, Draws, ExploreFault, explore, read_schedule};
use bip_table::{Decision, Table, TableFault, TableLock};
use std::alloc::{AllocError, Global};
use std::marker::Brand;
use std::process::Abort;
use std::sync::ledger::{Blank, Ledger};

/// From here on requests for memory count, and may be refused.
pub(super) fn call(rt: &(impl Abort + Print)) {
    println!(rt; "call").expect(rt, "a line");
}

/// Up to here.
pub(super) fn called(rt: &(impl Abort + Print)) {
    println!(rt; "called").expect(rt, "a line");
}

/// The model of a text, and its text.
fn read_counted(rt: &(impl Abort + Print), alloc: Global, text: &str) -> (Model, Classes)
    ensures { AreClassesOf result.0 result.1 }
{
    call(rt);
    let first = read_model(alloc, text.as_bytes());
    called(rt);
    match first {
        Ok(found) => found,
        Err(fault) => {
            assert!(rt; fault.why == Why::Memory);
            read(rt, alloc, text)
        }
    }
}

#[test]
fn a_model_is_read_and_written_where_memory_is_refused(rt: HostRuntime) {
    let (model, classes) = read_counted(&rt, rt.alloc(), COMPETE_TWICE);
    call(&rt);
    let first = write_model(rt.alloc(), &model, &classes);
    called(&rt);
    let written = match first {
        Ok(written) => written,
        Err(AllocError) => write_model(rt.alloc(), &model, &classes).expect(&rt, "memory"),
    };
    assert!(&rt; written.as_slice() == COMPETE_TWICE.as_bytes());
    drop(model);
    drop(classes);
}

#[test]
fn a_plan_is_made_where_memory_is_refused(rt: HostRuntime) {
    let (model, classes) = read(&rt, rt.alloc(), COMPETE);
    call(&rt);
    let first = Plan::of(rt.alloc(), model, classes);
    called(&rt);
    let plan = match first {
        Ok(plan) => plan,
        Err(fault) => {
            assert!(&rt; matches!(fault, PlanFault::Memory));
            plan(&rt, rt.alloc(), COMPETE)
        }
    };
    assert!(&rt; (plan.stations().len(), plan.classes().len()) == (2, 2));
    drop(plan);
}

/// Appends a grant to a book that holds so many.
fn append_counted(rt: &(impl Abort + Print), book: &mut Book<'_>, grant: &Grant, held: usize) {
    let copy = grant.copy();
    call(rt);
    let first = book.append(copy);
    called(rt);
    if let Err(fault) = &first {
        assert!(rt; matches!(fault, BookFault::Memory) && book.grants().len() == held);
        let again = book.append(grant.copy()).is_ok();
        assert!(rt; again);
    }
    assert!(rt; book.grants().len() == held.saturating_add(1));
}

/// One component that moves for ever, by itself.
const TICKS: &str =
    "bip 1\ncomponent L\nloc l\nport t\ntrans t l l\nend\ninteraction z L.t\nclass P z\n";

const TICKED: &str = "grant z L:1\ngrant z L:2\ngrant z L:3\ngrant z L:4\ngrant z L:5\n\
    grant z L:6\ngrant z L:7\ngrant z L:8\ngrant z L:9\n";

fn keeps_counted(rt: &(impl Abort + Print), alloc: Global, plan: &Plan, text: &str) {
    let mut book = Book::start(alloc, plan.model(), 0).expect(rt, "memory");
    let grants = grants(rt, alloc, plan.model(), text);
    for (held, grant) in grants.iter().enumerate() {
        append_counted(rt, &mut book, grant, held);
    }
    assert!(rt; written(rt, alloc, plan, book.grants()).as_slice() == text.as_bytes());
    drop(grants);
    drop(book);
}

#[test]
fn a_book_is_kept_where_memory_is_refused(rt: HostRuntime) {
    over_plan(&rt, rt.alloc(), TICKS, TICKED, keeps_counted);
}

/// The text of grants of a plan's model.
fn written(rt: &(impl Abort + Print), alloc: Global, plan: &Plan, grants: &[Grant]) -> Vec<u8> {
    assert!(rt; are_grants_of(plan.model(), grants));
    call(rt);
    let first = write_trace(alloc, plan.model(), grants);
    called(rt);
    match first {
        Ok(written) => written,
        Err(AllocError) => write_trace(alloc, plan.model(), grants).expect(rt, "memory"),
    }
}

/// Asks a table for this number of components 0 and 2, all below which are granted.
fn decide_counted(rt: &(impl Abort + Print), alloc: Global, table: &mut Table, number: u64) {
    let asked = asked(rt, alloc, number);
    call(rt);
    let first = table.decide(&asked);
    called(rt);
    if let Err(fault) = &first {
        let before = number.saturating_sub(1);
        assert!(rt; matches!(fault, TableFault::Memory) && is_table(table, before));
        assert!(rt; table.decide(&asked).ok() == Some(Decision::Granted(before)));
    }
    assert!(rt; is_table(table, number));
}

fn asked(rt: &impl Abort, alloc: Global, number: u64) -> Request {
    tabling::request(rt, alloc, (0, 0), &[(0, number, true), (2, number, true)])
}

/// Whether all is granted up to this number.
fn is_table(table: &Table, number: u64) -> bool {
    have(table.rows(), &[number, 0, number])
        && have(table.floor(), &[0, 0, 0])
        && table.journal().len() as u64 == number
        && (1..=number).zip(table.journal()).all(|(number, grant)| {
            grant.wants.as_slice() == [moved(0, number), moved(2, number)].as_slice()
        })
}

#[test]
fn a_table_decides_where_memory_is_refused(rt: HostRuntime) {
    let mut table = Table::new(rt.alloc(), THREE, 0).expect(&rt, "memory");
    for number in 1..10 {
        decide_counted(&rt, rt.alloc(), &mut table, number);
    }
}

/// All memory may be refused behind the room that was made.
#[test]
fn three_are_decided_in_the_room_for_three(rt: HostRuntime) {
    let mut table = Table::new(rt.alloc(), THREE, 0).expect(&rt, "memory");
    table.reserve_room(3).expect(&rt, "memory");
    let requests = [1, 2, 3].map(|number| asked(&rt, rt.alloc(), number));
    call(&rt);
    let decided = requests.map(|request| table.decide(&request).ok());
    called(&rt);
    assert!(&rt; decided == [0, 1, 2].map(|serial| Some(Decision::Granted(serial))));
}

/// Puts a table behind a lock for three, and takes it back: none where memory was refused.
fn locks_counted<L: Ledger>(
    rt: &(impl Abort + Print),
    alloc: Global,
    blank: Blank,
    table: Table,
) -> Option<Table>
    requires name { blank.name ≡ L.name }
    requires parts { (blank.parts ≡ L.parts) × (blank.parts ≡ 3) }
    requires empty { table.journal ≡ [] }
{
    call(rt);
    let made = TableLock::<L>::new(alloc, blank, table, 3);
    called(rt);
    let (lock, passes) = made.ok()?;
    lock.close(passes).ok()
}

/// Puts a new table behind a lock, and takes it back.
fn locks(rt: &(impl Abort + Print), alloc: Global) -> Option<Table> {
    let table = Table::new(alloc, THREE, 0).expect(rt, "memory");
    locks_counted::<Brand>(rt, alloc, Blank::new(3), table)
}

#[test]
fn a_lock_is_made_where_memory_is_refused(rt: HostRuntime) {
    let closed = match locks(&rt, rt.alloc()) {
        Some(closed) => closed,
        None => locks(&rt, rt.alloc()).expect(&rt, "memory"),
    };
    assert!(&rt; is_table(&closed, 0));
}

#[test]
fn frames_are_written_where_memory_is_refused(rt: HostRuntime) {
    for (text, fault) in &WORKED {
        let bytes = bytes_of(&rt, rt.alloc(), text);
        if let Ok(frame) = read_frame(&bytes) {
            call(&rt);
            let first = write(&rt, rt.alloc(), &frame);
            called(&rt);
            let written = match first {
                Ok(written) => written,
                Err(AllocError) => written_again(&rt, rt.alloc(), &frame),
            };
            assert!(&rt; written.as_slice() == bytes.as_slice() && *fault == 0);
        }
    }
}

/// A world over a bank that was asked nothing.
fn start_counted<'p, B: Bank + Drop>(
    rt: &(impl Abort + Print),
    alloc: Global,
    plan: &'p Plan,
    bank: B,
) -> Option<World<'p, B>>
    requires { IsUnasked plan.now 0 (content_of (B.kept bank)) }
{
    call(rt);
    let made = World::new(alloc, plan, bank, 0);
    called(rt);
    made.ok()
}

/// How many messages are in flight, how many of the bank's, how many grants it gave, and how many
/// there are.
fn shown<B: Bank + Drop>(world: &World<'_, B>) -> (usize, usize, usize, usize) {
    let bank = world.bank();
    (
        world.mails(),
        bank.in_flight(),
        bank.grants().len(),
        world.trace().len(),
    )
}

/// Does an event, once more where memory was refused, and says how many messages were lost.
fn step_counted<B: Bank + Drop>(
    rt: &(impl Abort + Print),
    world: &mut World<'_, B>,
    event: Event,
) -> usize {
    let before = shown(world);
    call(rt);
    let first = world.step(event);
    called(rt);
    match first {
        Ok(did) => did.lost,
        Err(AllocError) => {
            assert!(rt; shown(world) == before);
            world.step(event).expect(rt, "memory").lost
        }
    }
}

/// The two grants of these events; or, where messages were lost or events skipped, a run.
fn is_run(rt: &(impl Abort + Print), alloc: Global, plan: &Plan, grants: &[Grant], whole: bool) {
    let text = written(rt, alloc, plan, grants);
    let count = replay(alloc, plan.model(), 0, text.as_slice()).expect(rt, "a run");
    assert!(rt; count == grants.len() as u64);
    assert!(rt; !whole || text.as_slice() == GRANTED.as_bytes());
}

/// What is granted by each of these schedules, where no memory is refused.
const GRANTED: &str = "grant y B:1 R:1\ngrant x A:1 R:2 see B:2\n";

const BY_CENTRAL: &str = "mail 0\nmail 0\nmail 0\nmail 0\nmail 0\ntry P x\ntry Q y\nmail 0\n\
    serve y\ntry P x\nmail 0\nmail 1\nmail 1\ntry P x\nmail 0\nmail 1\ntry P x\nmail 2\nserve x\n";

const BY_RING: &str = "mail 0\nmail 0\nmail 0\nmail 0\nmail 0\ntry P x\ntry Q y\nmail 0\n\
    pass x y\ndeliver 0\nserve y\ntry P x\nmail 0\nmail 1\nmail 1\ntry P x\nmail 0\nmail 1\n\
    try P x\nmail 2\npass y x\ndeliver 0\nserve x\n";

const BY_FORKS: &str = "mail 0\nmail 0\nmail 0\nmail 0\nmail 0\ntry P x\ntry Q y\nmail 0\n\
    ask y x\ndeliver 0\npass x y\ndeliver 0\nserve y\ntry P x\nmail 0\nmail 1\nmail 1\ntry P x\n\
    mail 0\nmail 1\ntry P x\nmail 2\nask x y\ndeliver 0\npass y x\ndeliver 0\nserve x\n";

/// Does events one by one in a new world over a bank, and says whether there was memory for it.
fn goes_counted<B: Bank + Drop>(
    rt: &(impl Abort + Print),
    alloc: Global,
    plan: &Plan,
    bank: B,
    events: &[Event],
) -> bool
    requires { IsUnasked plan.now 0 (content_of (B.kept bank)) }
{
    let Some(mut world) = start_counted(rt, alloc, plan, bank) else {
        return false;
    };
    let mut lost: usize = 0;
    for event in events {
        lost = lost.saturating_add(step_counted(rt, &mut world, *event));
    }
    is_run(rt, alloc, plan, world.trace(), lost == 0);
    drop(world);
    true
}

/// Does them at once.
fn runs_counted<B: Bank + Drop>(
    rt: &(impl Abort + Print),
    alloc: Global,
    plan: &Plan,
    bank: B,
    events: &[Event],
) -> bool
    requires { IsUnasked plan.now 0 (content_of (B.kept bank)) }
{
    let Some(mut world) = start_counted(rt, alloc, plan, bank) else {
        return false;
    };
    call(rt);
    let report = run_steps(&mut world, events);
    called(rt);
    assert!(rt; report.events == events.len() as u64);
    let whole = (report.lost, report.skipped) == (0, 0);
    is_run(rt, alloc, plan, world.trace(), whole);
    drop(world);
    true
}

/// Does the events of a schedule over banks of a kind, in both ways. Where memory was refused for a
/// world, it is made again.
fn goes_over<B: Bank + Drop, F: Fn() -> Result<B, AllocError>>(
    rt: &(impl Abort + Print),
    alloc: Global,
    plan: &Plan,
    make: &F,
    text: &str,
)
    requires callable { F.IsAlwaysCallable make.now }
    requires unasked { (bank : B) → F.post make.now (Ok bank)
        → IsUnasked plan.now 0 (content_of (B.kept bank)) }
{
    let read = read_schedule(alloc, plan, text.as_bytes()).expect(rt, "a schedule");
    let events = read.as_slice();
    if !goes_counted(rt, alloc, plan, make().expect(rt, "memory"), events) {
        let is_made = goes_counted(rt, alloc, plan, make().expect(rt, "memory"), events);
        assert!(rt; is_made);
    }
    if !runs_counted(rt, alloc, plan, make().expect(rt, "memory"), events) {
        let is_made = runs_counted(rt, alloc, plan, make().expect(rt, "memory"), events);
        assert!(rt; is_made);
    }
}

fn central_goes(rt: &(impl Abort + Print), alloc: Global, plan: &Plan, text: &str) {
    goes_over(rt, alloc, plan, &|| Central::new(alloc, plan, 0), text);
}

fn ring_goes(rt: &(impl Abort + Print), alloc: Global, plan: &Plan, text: &str) {
    goes_over(rt, alloc, plan, &|| Ring::new(alloc, plan, 0), text);
}

fn forks_go(rt: &(impl Abort + Print), alloc: Global, plan: &Plan, text: &str) {
    goes_over(rt, alloc, plan, &|| Forks::new(alloc, plan, 0), text);
}

#[test]
fn worlds_go_on_where_memory_is_refused(rt: HostRuntime) {
    over_plan(&rt, rt.alloc(), COMPETE_TWICE, BY_CENTRAL, central_goes);
    over_plan(&rt, rt.alloc(), COMPETE_TWICE, BY_RING, ring_goes);
    over_plan(&rt, rt.alloc(), COMPETE_TWICE, BY_FORKS, forks_go);
}

/// Explores three seeds, each of which has one grant where no memory is refused.
fn explores_counted(rt: &(impl Abort + Print), alloc: Global, plan: &Plan, seeds: u32) {
    let draws = Draws {
        count: 200,
        by: Draw::Table,
    };
    let make = || Central::new(alloc, plan, 0);
    call(rt);
    let first = explore(alloc, plan, make, 0, seeds, draws);
    called(rt);
    match first {
        Ok(done) => assert!(rt; done.seeds() == seeds && done.report().grants <= u64::from(seeds)),
        Err(fault) => assert!(rt; matches!(fault, ExploreFault::Memory)),
    }
    let make = || Central::new(alloc, plan, 0);
    let again = explore(alloc, plan, make, 0, seeds, draws).expect(rt, "memory");
    assert!(rt; again.seeds() == seeds && again.report().grants == u64::from(seeds));
}

#[test]
fn seeds_are_explored_where_memory_is_refused(rt: HostRuntime) {
    over_plan(&rt, rt.alloc(), COMPETE, 3, explores_counted);
}
