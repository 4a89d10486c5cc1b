//! Tables behind a lock: two callers that want one row, four that share none, and a keeper that
//! keeps some grants and not others.
ghost use Rattle.std.specs.Prelude.{◌≡◌, []};

use super::tabling::have;
use super::{moved, seen};
use bip_model::{ClassId, CompId, Grant, InterId, Number, Reasons, Request, Want, Wants};
use bip_table::{CloseFault, Decision, Keep, Pass, Table, TableFault, TableLock};
use std::alloc::Global;
use std::marker::Brand;
use std::sync::Wait;
use std::sync::ledger::{Blank, Ledger};
use std::test::*;
use std::thread;
use std::thread::Threads;

/// Rows of four components, all numbers of which are free.
pub(crate) const FOUR: &[(CompId, Number)] = &[
    (CompId(0), 0),
    (CompId(1), 0),
    (CompId(2), 0),
    (CompId(3), 0),
];

/// A request for an interaction with these wants; none where they can't be the wants of one.
pub(crate) fn request(inter: u16, wants: &[Want]) -> Option<Request> {
    numbered(1, inter, wants)
}

/// The same with a number.
fn numbered(request: u64, inter: u16, wants: &[Want]) -> Option<Request> {
    Some(Request {
        wants: Wants::of(wants)?,
        reasons: Reasons::none(),
        request,
        class: ClassId(inter),
        inter: InterId(inter),
    })
}

/// What a pass counts of each component, and was shown of it.
pub(super) type Told = [(u64, Number); 4];

pub(super) fn told<L: Ledger>(pass: &Pass<L>) -> Told {
    let of = |comp: u16| (pass.count(CompId(comp)), pass.shown(CompId(comp)));
    [of(0), of(1), of(2), of(3)]
}

/// Asks once.
fn ask<L: Ledger, W: Wait>(
    rt: &W,
    lock: &TableLock<L>,
    mut pass: Pass<L>,
    request: Request,
) -> (Pass<L>, Option<Decision>) {
    let decided = lock.reserve(rt, &mut pass, request).ok();
    (pass, decided)
}

/// What came of two callers, and the table behind them.
#[derive(Drop)]
struct Two {
    decided: (Option<Decision>, Option<Decision>),
    again: Option<Decision>,
    told: (Told, Told),
    table: Table,
}

/// Lets a thread ask for the first of two, and then another one for the second; asks once more with
/// that one's pass; closes with the first one's pass alone, which is refused, and then with both.
fn ask_in_turn<L: Ledger + Send + Sync, T: Threads + Wait + Sync>(
    rt: &T,
    alloc: Global,
    blank: Blank,
    table: Table,
    asked: (Request, Request),
    last: Request,
) -> Option<Two>
    requires name { blank.name ≡ L.name }
    requires parts { (blank.parts ≡ L.parts) × (blank.parts ≡ 2) }
    requires empty { table.journal ≡ [] }
{
    let (lock, mut passes) = TableLock::<L>::new(alloc, blank, table, 2).ok()?;
    let (one, two) = (passes.pop()?, passes.pop()?);
    let ((x, y), shared) = (asked, &lock);
    let ((one, first), ()) = thread::join(rt, move || ask(rt, shared, one, x), || ());
    let ((two, second), ()) = thread::join(rt, move || ask(rt, shared, two, y), || ());
    let (two, again) = ask(rt, shared, two, last);
    let told = (told(&one), told(&two));
    passes.push(one).ok()?;
    let Err(CloseFault::PassesMissing(lock, mut passes)) = lock.close(passes) else {
        return None;
    };
    passes.push(two).ok()?;
    let Ok(table) = lock.close(passes) else {
        return None;
    };
    Some(Two {
        decided: (first, second),
        again,
        told,
        table,
    })
}

#[test]
fn two_callers_want_one_row(rt: HostRuntime) -> Result<(), Fail> {
    let table = Table::new(rt.alloc(), FOUR, 0)?;
    let Some(x) = request(5, &[moved(0, 1), moved(2, 1), seen(3, 1)]) else {
        panic!(rt; "x can be asked for")
    };
    let (Some(y), Some(z)) = (
        request(6, &[moved(1, 1), moved(2, 1)]),
        request(6, &[moved(1, 1), seen(2, 1)]),
    ) else {
        panic!(rt; "they can be asked for")
    };
    let blank = Blank::new(2);
    let Some(two) = ask_in_turn::<Brand, _>(&rt, rt.alloc(), blank, table, (x, y), z) else {
        panic!(rt; "it closes with both passes")
    };
    let refused = Decision::Refused {
        comp: CompId(2),
        used: 1,
    };
    assert_eq!(rt; two.decided, (Some(Decision::Granted(0)), Some(refused)));
    assert_eq!(rt; two.again, Some(refused));
    assert_eq!(rt; two.told.0, [(1, 1), (0, 0), (1, 1), (0, 0)]);
    assert_eq!(rt; two.told.1, [(0, 0), (0, 0), (0, 1), (0, 0)]);
    assert!(rt; have(two.table.rows(), &[1, 0, 1, 0]));
    assert!(rt; have(two.table.floor(), &[0, 0, 0, 0]));
    let [grant] = two.table.journal() else {
        panic!(rt; "there is one grant")
    };
    assert_eq!(rt; grant.inter, InterId(5));
    assert_eq!(rt;
        grant.wants.as_slice(),
        [moved(0, 1), moved(2, 1), seen(3, 1)].as_slice()
    );
    Ok(())
}

/// A caller that moves one component, with its pass, and the serials of its grants.
#[derive(Drop)]
struct Mover<L: Ledger> {
    pass: Pass<L>,
    comp: u16,
    serials: Vec<u64>,
}

fn movers<L: Ledger>(alloc: Global, passes: Vec<Pass<L>>) -> Option<Vec<Mover<L>>> {
    let mut movers = Vec::new(alloc);
    for (comp, pass) in (0..4).zip(passes) {
        let serials = Vec::new(alloc);
        movers
            .push(Mover {
                pass,
                comp,
                serials,
            })
            .ok()?;
    }
    Some(movers)
}

/// Asks a hundred times to move the component, with the numbers from 1 on.
fn move_own<L: Ledger, W: Wait>(rt: &W, lock: &TableLock<L>, mut mover: Mover<L>) -> Mover<L> {
    for number in 1..101 {
        let Some(request) = numbered(number, mover.comp, &[moved(mover.comp, number)]) else {
            break;
        };
        if let Ok(Decision::Granted(serial)) = lock.reserve(rt, &mut mover.pass, request) {
            if mover.serials.push(serial).is_err() {
                break;
            }
        }
    }
    mover
}

/// What each mover's pass counts, and the serials of all.
fn tell_all<L: Ledger>(alloc: Global, movers: &[Mover<L>]) -> Option<(Vec<Told>, Vec<u64>)> {
    let (mut all, mut serials) = (Vec::new(alloc), Vec::new(alloc));
    for mover in movers {
        all.push(told(&mover.pass)).ok()?;
        serials.extend_from_slice(mover.serials.as_slice()).ok()?;
    }
    Some((all, serials))
}

fn passes_of<L: Ledger>(alloc: Global, movers: Vec<Mover<L>>) -> Option<Vec<Pass<L>>> {
    let mut passes = Vec::new(alloc);
    for mover in movers {
        passes.push(mover.pass).ok()?;
    }
    Some(passes)
}

/// What came of four callers: of each what its pass counts, the serials of all, and the table.
#[derive(Drop)]
struct Four {
    told: Vec<Told>,
    serials: Vec<u64>,
    table: Table,
}

/// Lets four threads each move a row of its own.
fn move_apart<L: Ledger + Send + Sync, T: Threads + Wait + Sync>(
    rt: &T,
    alloc: Global,
    blank: Blank,
    table: Table,
) -> Option<Four>
    requires name { blank.name ≡ L.name }
    requires parts { (blank.parts ≡ L.parts) × (blank.parts ≡ 4) }
    requires empty { table.journal ≡ [] }
{
    let (lock, passes) = TableLock::<L>::new(alloc, blank, table, 4).ok()?;
    let shared = &lock;
    let four = movers(alloc, passes)?;
    let four = thread::map_vec(rt, four, &|mover| move_own(rt, shared, mover)).ok()?;
    let (told, serials) = tell_all(alloc, four.as_slice())?;
    let table = lock.close(passes_of(alloc, four)?).ok()?;
    Some(Four {
        told,
        serials,
        table,
    })
}

#[test]
fn four_callers_share_no_row(rt: HostRuntime) -> Result<(), Fail> {
    let table = Table::new(rt.alloc(), FOUR, 0)?;
    let Some(four) = move_apart::<Brand, _>(&rt, rt.alloc(), Blank::new(4), table) else {
        panic!(rt; "it closes")
    };
    let Four {
        told,
        mut serials,
        table,
    } = four;
    let none = (0, 0);
    let all = (100, 100);
    assert_eq!(rt;
        told.as_slice(),
        [
            [all, none, none, none],
            [none, all, none, none],
            [none, none, all, none],
            [none, none, none, all]
        ]
        .as_slice()
    );
    serials.sort_unstable();
    assert_eq!(rt; serials.len(), 400);
    assert!(rt;
        serials
            .iter()
            .enumerate()
            .all(|(place, serial)| *serial == place as u64)
    );
    assert_eq!(rt; table.journal().len(), 400);
    assert!(rt; have(table.rows(), &[100, 100, 100, 100]));
    assert!(rt; have(table.floor(), &[0, 0, 0, 0]));
    Ok(())
}

/// Keeps the grants of one interaction alone, and remembers how many it was handed, and the last.
#[derive(Drop)]
struct Choosy {
    keeps: InterId,
    handed: u64,
    last: InterId,
}

impl Keep for Choosy {
    ghost keeps = { λ keeper grant kept later. later.last ≡ grant.inter };

    fn keep<W: Wait>(&mut self, _rt: &W, grant: &Grant) -> bool {
        self.handed = self.handed.saturating_add(1);
        self.last = grant.inter;
        grant.inter == self.keeps
    }
}

/// What came of three requests with a keeper: what was answered, the keeper, what the pass counts.
#[derive(Drop)]
struct Kept {
    answers: [Result<Decision, u8>; 3],
    keeper: Choosy,
    told: Told,
    table: Table,
}

fn ask_keeping<L: Ledger, W: Wait>(
    rt: &W,
    alloc: Global,
    blank: Blank,
    table: Table,
    asked: (Request, Request, Request),
) -> Option<Kept>
    requires name { blank.name ≡ L.name }
    requires parts { (blank.parts ≡ L.parts) × (blank.parts ≡ 1) }
    requires empty { table.journal ≡ [] }
{
    let (lock, mut passes) = TableLock::<L>::new(alloc, blank, table, 1).ok()?;
    let mut pass = passes.pop()?;
    let mut keeper = Choosy {
        keeps: InterId(5),
        handed: 0,
        last: InterId(0),
    };
    let (x, y, z) = asked;
    let first = lock.reserve_kept(rt, &mut pass, x, &mut keeper);
    let second = lock.reserve_kept(rt, &mut pass, y, &mut keeper);
    let third = lock.reserve_kept(rt, &mut pass, z, &mut keeper);
    let told = told(&pass);
    passes.push(pass).ok()?;
    let Ok(table) = lock.close(passes) else {
        return None;
    };
    let number = |fault: TableFault| fault.number();
    Some(Kept {
        answers: [
            first.map_err(number),
            second.map_err(number),
            third.map_err(number),
        ],
        keeper,
        told,
        table,
    })
}

#[test]
fn a_grant_that_is_not_kept_stays(rt: HostRuntime) -> Result<(), Fail> {
    let table = Table::new(rt.alloc(), FOUR, 7)?;
    let (Some(x), Some(y), Some(z)) = (
        request(5, &[moved(0, 1), moved(2, 1)]),
        request(6, &[moved(1, 1), moved(2, 2)]),
        request(5, &[moved(1, 1), moved(3, 1)]),
    ) else {
        panic!(rt; "they can be asked for")
    };
    let Some(kept) = ask_keeping::<Brand, _>(&rt, rt.alloc(), Blank::new(1), table, (x, y, z))
    else {
        panic!(rt; "it closes")
    };
    let refused = Decision::Refused {
        comp: CompId(1),
        used: 1,
    };
    assert_eq!(rt;
        kept.answers,
        [Ok(Decision::Granted(7)), Err(4), Ok(refused)]
    );
    assert_eq!(rt; kept.keeper.handed, 2);
    assert_eq!(rt; kept.keeper.last, InterId(6));
    assert_eq!(rt; kept.told, [(1, 1), (1, 1), (2, 2), (0, 0)]);
    let [first, second] = kept.table.journal() else {
        panic!(rt; "there are two grants")
    };
    assert!(rt; first.inter == InterId(5) && second.inter == InterId(6));
    assert_eq!(rt;
        first.wants.as_slice(),
        [moved(0, 1), moved(2, 1)].as_slice()
    );
    assert_eq!(rt;
        second.wants.as_slice(),
        [moved(1, 1), moved(2, 2)].as_slice()
    );
    assert!(rt; have(kept.table.rows(), &[1, 1, 2, 0]));
    assert!(rt; have(kept.table.floor(), &[0, 0, 0, 0]));
    Ok(())
}
