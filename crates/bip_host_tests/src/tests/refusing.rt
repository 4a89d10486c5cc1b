//! Calls whose requests for memory are counted and refused in turn, by `cases/refusals`, which puts
//! a library before these tests that looks for two lines of theirs. By themselves they have ample
//! memory. Where a call was refused, the same call is answered as ever.
use super::hosting::FORMS;
use super::{COMPETE_TWICE, plan};
use bip_host::{HostFault, HostReport, Kind, Limits, Open, Tables, can_have, run_host};
use bip_model::{CompId, Number};
use bip_partition::Plan;
use bip_replay::Book;
use bip_words::WordTable;
use std::alloc::{AllocError, Global};
use std::process::Abort;
use std::sync::Wait;
use std::thread::Threads;

/// From here on requests for memory count, and may be refused.
fn call(rt: &(impl Abort + Print)) {
    println!(rt; "call").expect(rt, "a line");
}

/// Up to here.
fn called(rt: &(impl Abort + Print)) {
    println!(rt; "called").expect(rt, "a line");
}

/// Rows of three components.
const ROWS: &[(CompId, Number)] = &[(CompId(0), 0), (CompId(1), 4), (CompId(2), 0)];

#[test]
fn a_table_in_words_is_made_where_memory_is_refused(rt: HostRuntime) {
    call(&rt);
    let first = WordTable::new(rt.alloc(), ROWS);
    called(&rt);
    let (table, _seat) = match first {
        Ok(made) => made,
        Err(AllocError) => WordTable::new(rt.alloc(), ROWS).expect(&rt, "memory"),
    };
    let closed = table.close(Vec::new(rt.alloc())).ok();
    assert!(&rt; closed.expect(&rt, "no grants").rows.as_slice() == ROWS);
}

const TURNS: Limits = Limits {
    turns: 300,
    grants: None,
};

/// Whether the grants of a report are a run: a new book takes each.
fn is_run(rt: &impl Abort, alloc: Global, plan: &Plan, report: &HostReport) -> bool {
    let mut book = Book::start(alloc, plan.model(), 0).expect(rt, "memory");
    let mut is_run = true;
    for grant in report.grants.iter() {
        is_run = is_run && book.append(grant.copy()).is_ok();
    }
    drop(book);
    is_run
}

/// Runs a model's nodes as threads, and once more where memory was refused; each time the grants
/// are a run.
fn hosts<R: Threads + Wait + Abort + Print + Sync>(
    rt: &R,
    alloc: Global,
    (kind, tables): (Kind, Tables),
) {
    let plan = plan(rt, alloc, COMPETE_TWICE);
    assert!(rt; can_have(&plan, kind, tables));
    call(rt);
    let first = run_host(rt, alloc, &plan, kind, tables, TURNS, &Open);
    called(rt);
    let report = match first {
        Ok(report) => report,
        Err(fault) => {
            assert!(rt; matches!(fault, HostFault::Memory | HostFault::Thread));
            run_host(rt, alloc, &plan, kind, tables, TURNS, &Open).expect(rt, "memory")
        }
    };
    assert!(rt; is_run(rt, alloc, &plan, &report));
    drop(report);
    drop(plan);
}

#[test]
fn hosts_run_where_memory_is_refused(rt: HostRuntime) {
    for form in FORMS {
        hosts(&rt, rt.alloc(), form);
    }
}
