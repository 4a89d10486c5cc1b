//! Keepers: while one keeps a grant, nobody else is answered, since the lock isn't let go.
ghost use Rattle.std.specs.Prelude.{◌≡◌, [], ⊤};

use super::locking::{FOUR, request};
use super::moved;
use bip_model::{Grant, Request};
use bip_table::{Keep, Pass, Table, TableLock};
use std::alloc::Global;
use std::marker::Brand;
use std::sync::Wait;
use std::sync::atomic::{AtomicU64, Ordering};
use std::sync::ledger::{Blank, Ledger};
use std::test::*;
use std::thread;
use std::thread::Threads;

/// How often the caller whose grant is being kept looks whether the other one is answered.
const LOOKS: u32 = 2_000;

/// How often the other one looks whether that grant is being kept: its own thread may begin long
/// before.
const PATIENCE: u32 = 10_000_000;

/// How far two callers are: whether the first one's grant is being kept, and whether the second one
/// has its answer.
#[derive(Drop)]
struct Progress {
    keeps: AtomicU64,
    answered: AtomicU64,
}

/// Waits for so many looks at most until something is so, and says whether it was.
fn sees(flag: &AtomicU64, looks: u32) -> bool {
    for _ in 0..looks {
        if flag.load(Ordering::SeqCst) == 1 {
            return true;
        }
        thread::yield_now();
    }
    false
}

/// Keeps a grant for as long as it takes to look whether the other caller is answered.
#[derive(Drop)]
struct Slow<'p> {
    progress: &'p Progress,
    overtaken: bool,
}

impl<'p> Keep for Slow<'p> {
    ghost keeps = { λ keeper grant kept later. ⊤ };

    fn keep<W: Wait>(&mut self, _rt: &W, _grant: &Grant) -> bool {
        self.progress.keeps.store(1, Ordering::SeqCst);
        self.overtaken = sees(&self.progress.answered, LOOKS);
        true
    }
}

/// Asks with such a keeper, and says whether the other caller was answered meanwhile.
fn keep_slowly<L: Ledger, W: Wait>(
    rt: &W,
    lock: &TableLock<L>,
    mut pass: Pass<L>,
    request: Request,
    progress: &Progress,
) -> (Pass<L>, bool) {
    let mut keeper = Slow {
        progress,
        overtaken: false,
    };
    let granted = lock
        .reserve_kept(rt, &mut pass, request, &mut keeper)
        .is_ok();
    (pass, granted && keeper.overtaken)
}

/// Asks once the other caller's grant is being kept, and says whether it ever was.
fn ask_meanwhile<L: Ledger, W: Wait>(
    rt: &W,
    lock: &TableLock<L>,
    mut pass: Pass<L>,
    request: Request,
    progress: &Progress,
) -> (Pass<L>, bool) {
    let kept = sees(&progress.keeps, PATIENCE);
    let _decided = lock.reserve(rt, &mut pass, request);
    progress.answered.store(1, Ordering::SeqCst);
    (pass, kept)
}

/// Whether the first caller's grant was kept while the second one asked, and whether that one was
/// answered meanwhile.
fn ask_both<L: Ledger + Send + Sync, T: Threads + Wait + Sync>(
    rt: &T,
    alloc: Global,
    blank: Blank,
    table: Table,
    asked: (Request, Request),
) -> Option<(bool, bool)>
    requires name { blank.name ≡ L.name }
    requires parts { (blank.parts ≡ L.parts) × (blank.parts ≡ 2) }
    requires empty { table.journal ≡ [] }
{
    let (lock, mut passes) = TableLock::<L>::new(alloc, blank, table, 2).ok()?;
    let (one, two) = (passes.pop()?, passes.pop()?);
    let progress = Progress {
        keeps: AtomicU64::new(0),
        answered: AtomicU64::new(0),
    };
    let ((x, y), shared, told) = (asked, &lock, &progress);
    let ((one, overtaken), (two, kept)) = thread::join(
        rt,
        move || keep_slowly(rt, shared, one, x, told),
        move || ask_meanwhile(rt, shared, two, y, told),
    );
    passes.push(one).ok()?;
    passes.push(two).ok()?;
    lock.close(passes).ok()?;
    Some((kept, overtaken))
}

#[test]
fn nobody_is_answered_while_a_grant_is_kept(rt: HostRuntime) -> Result<(), Fail> {
    let table = Table::new(rt.alloc(), FOUR, 0)?;
    let (Some(x), Some(y)) = (request(5, &[moved(0, 1)]), request(6, &[moved(1, 1)])) else {
        panic!(rt; "they can be asked for")
    };
    let seen = ask_both::<Brand, _>(&rt, rt.alloc(), Blank::new(2), table, (x, y));
    assert_eq!(rt; seen, Some((true, false)));
    Ok(())
}
