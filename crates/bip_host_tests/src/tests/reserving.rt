//! Attempts to reserve from word tables: by one seat, by two, and by two threads.
ghost use Rattle.std.specs.Prelude.{◌≡◌, ◌<◌, ◌^◌, All};
ghost use Rattle.bip_model.specs.declared.wants.Want.{Want};
ghost use Rattle.bip_words.specs.Tables.{IsSeatOf};

use bip_model::{ClassId, CompId, InterId, Number, Reasons, Request, Role, Want, Wants};
use bip_words::{Attempt, Closed, Seat, WordTable};
use std::alloc::Global;
use std::process::Abort;
use std::test::*;
use std::thread;
use std::thread::Threads;

/// Rows of A, B and R, all numbers of which are free.
const ROWS: &[(CompId, Number)] = &[(A, 0), (B, 0), (R, 0)];

const A: CompId = CompId(0);

const B: CompId = CompId(1);

const R: CompId = CompId(2);

/// How often each of two threads tries.
const CALLS: usize = 1000;

fn want(comp: CompId, number: Number, role: Role) -> Want
    ensures { result.number ≡ number }
{
    Want { comp, number, role }
}

fn moved(comp: CompId, number: Number) -> Want
    ensures { result.number ≡ number }
{
    want(comp, number, Role::Moved)
}

/// What an attempt for these wants comes to; none where they can't be the wants of a request.
fn attempt(table: &WordTable, seat: &mut Seat, wants: &[Want]) -> Option<Attempt>
    requires seat { IsSeatOf table.now seat.old }
    requires small { All (λ (w : Want). w.number < 2 ^ 58) wants.now }
    ensures { IsSeatOf table.now seat.new }
{
    let wants = Wants::of(wants)?;
    let request = Request {
        wants,
        reasons: Reasons::none(),
        request: 1,
        class: ClassId(0),
        inter: InterId(0),
    };
    Some(table.try_reserve(seat, &request))
}

#[test]
fn one_seat_reads_its_own_grants_back(rt: HostRuntime) -> Result<(), Fail> {
    let (table, mut seat) = WordTable::new(rt.alloc(), ROWS)?;
    let used = Attempt::Used { comp: A, used: 1 };
    assert_eq!(rt;
        attempt(&table, &mut seat, &[moved(A, 1), want(B, 1, Role::Seen)]),
        Some(Attempt::Granted(0))
    );
    assert_eq!(rt;
        attempt(&table, &mut seat, &[moved(B, 1)]),
        Some(Attempt::Granted(1))
    );
    assert_eq!(rt; attempt(&table, &mut seat, &[moved(A, 1)]), Some(used));
    assert_eq!(rt;
        attempt(&table, &mut seat, &[moved(CompId(7), 1)]),
        Some(Attempt::Unknown(CompId(7)))
    );
    assert_eq!(rt;
        attempt(&table, &mut seat, &[moved(R, 288230376151711743)]),
        Some(Attempt::Granted(2))
    );
    assert_eq!(rt; seat.grants(), 3);
    let Ok(closed) = table.close(vec![in rt.alloc(); seat]?) else {
        panic!(rt; "grants are missing")
    };
    let Closed { rows, serial, .. } = closed;
    assert_eq!(rt; serial, 3);
    assert_eq!(rt;
        rows.as_slice(),
        [(A, 1), (B, 1), (R, 288230376151711743)].as_slice()
    );
    Ok(())
}

#[test]
fn a_refusal_gives_its_claims_back(rt: HostRuntime) -> Result<(), Fail> {
    let (table, mut one) = WordTable::new(rt.alloc(), ROWS)?;
    let mut two = table.split(&mut one);
    let used = Attempt::Used { comp: R, used: 1 };
    assert_eq!(rt;
        attempt(&table, &mut one, &[moved(A, 1), moved(R, 1)]),
        Some(Attempt::Granted(0))
    );
    assert_eq!(rt;
        attempt(&table, &mut two, &[moved(B, 1), moved(R, 1)]),
        Some(used)
    );
    assert_eq!(rt;
        attempt(&table, &mut one, &[moved(B, 1)]),
        Some(Attempt::Granted(1))
    );
    match table.close(vec![in rt.alloc(); two]?) {
        Ok(_) => panic!(rt; "two grants are missing"),
        Err(missing) => assert_eq!(rt; missing.0, 2),
    }
    Ok(())
}

#[test]
fn no_seats_close_a_table_without_grants_alone(rt: HostRuntime) -> Result<(), Fail> {
    let (unused, _seat) = WordTable::new(rt.alloc(), ROWS)?;
    let Ok(closed) = unused.close(Vec::new(rt.alloc())) else {
        panic!(rt; "no grant was made")
    };
    let Closed { rows, serial, .. } = closed;
    assert_eq!(rt; serial, 0);
    assert_eq!(rt; rows.as_slice(), ROWS);
    let (table, mut seat) = WordTable::new(rt.alloc(), ROWS)?;
    assert_eq!(rt;
        attempt(&table, &mut seat, &[moved(A, 1)]),
        Some(Attempt::Granted(0))
    );
    match table.close(Vec::new(rt.alloc())) {
        Ok(_) => panic!(rt; "a grant is missing"),
        Err(missing) => assert_eq!(rt; missing.0, 1),
    }
    Ok(())
}

/// The serials of a thread's grants, and the greatest number that one of them moved R to.
#[derive(Drop)]
struct Run {
    serials: Vec<u64>,
    greatest: Number,
}

/// Tries many times to move R, with the number above the greatest used one that was answered.
fn run_on(table: &WordTable, mut seat: Seat, mut run: Run) -> (Seat, Run)
    requires { IsSeatOf table.now seat }
    ensures { IsSeatOf table.now result.0 }
{
    let mut shown = 0;
    for _ in 0..CALLS {
        if shown >= 288230376151711743 {
            break;
        }
        let number = shown + 1;
        match attempt(table, &mut seat, &[moved(R, number)]) {
            Some(Attempt::Granted(serial)) => {
                shown = number;
                run.greatest = number;
                if run.serials.push(serial).is_err() {
                    break;
                }
            }
            Some(Attempt::Used { used, .. }) => shown = used,
            _ => {}
        }
    }
    (seat, run)
}

fn new_run(alloc: Global) -> Result<Run, Fail> {
    Ok(Run {
        serials: Vec::with_capacity(alloc, CALLS)?,
        greatest: 0,
    })
}

/// What two threads did, and the table behind them; none where grants are missing.
fn run_both<T: Threads + Sync>(rt: &T, alloc: Global) -> Result<Option<(Run, Run, Closed)>, Fail> {
    let (table, mut one) = WordTable::new(alloc, ROWS)?;
    let two = table.split(&mut one);
    let (first, second) = (new_run(alloc)?, new_run(alloc)?);
    let shared = &table;
    let ((one, first), (two, second)) = thread::join(
        rt,
        move || -> (Seat, Run)
            requires { IsSeatOf shared.now one }
            ensures { result.0.table ≡ one.table }
        { run_on(shared, one, first) },
        move || -> (Seat, Run)
            requires { IsSeatOf shared.now two }
            ensures { result.0.table ≡ two.table }
        { run_on(shared, two, second) },
    );
    match table.close(vec![in alloc; one, two]?) {
        Ok(closed) => Ok(Some((first, second, closed))),
        Err(_) => Ok(None),
    }
}

/// Whether these are the numbers from 0 on, each once.
fn count_up(numbers: &mut Vec<u64>) -> bool {
    numbers.sort_unstable();
    numbers
        .iter()
        .enumerate()
        .all(|(place, number)| *number == place as u64)
}

#[test]
fn two_threads_share_one_history(rt: HostRuntime) -> Result<(), Fail> {
    let Some((first, second, closed)) = run_both(&rt, rt.alloc())? else {
        panic!(rt; "grants are missing")
    };
    let Closed { rows, serial, .. } = closed;
    let mut serials = first.serials;
    serials.extend_from_slice(second.serials.as_slice())?;
    assert_eq!(rt; serial, serials.len() as u64);
    assert!(rt; count_up(&mut serials));
    let greatest = first.greatest.max(second.greatest);
    assert!(rt; 1 <= greatest);
    assert_eq!(rt; rows.as_slice(), [(A, 0), (B, 0), (R, greatest)].as_slice());
    Ok(())
}
