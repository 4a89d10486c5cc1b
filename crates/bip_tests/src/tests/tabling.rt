ghost use Rattle.std.specs.Prelude.{◌≡◌};

use self::Step::{Asks, Shows};
use super::{moved, seen};
use bip_model::{ClassId, CompId, Grant, InterId, Number, Reasons, Request, Want, Wants};
use bip_table::{Decision, Row, RowLender, Table};
use std::alloc::Global;
use std::process::Abort;

/// Rows of three components, all numbers of which are free.
pub(super) const THREE: &[(CompId, Number)] = &[(CompId(0), 0), (CompId(1), 0), (CompId(2), 0)];

/// A want: of which component, with which number, and whether it moves it.
pub(super) type Wanted = (u16, Number, bool);

/// What is asked of a table, and what it says: a decision, or a fault's number and a component.
#[derive(Drop)]
enum Step {
    Asks(&'static [Wanted], Result<Decision, u8>),
    /// Its used numbers, its floors, and how many grants it has.
    Shows([Number; 3], [Number; 3], usize),
}

pub(super) fn want((comp, number, moves): &Wanted) -> Want {
    if *moves {
        moved(*comp, *number)
    } else {
        seen(*comp, *number)
    }
}

/// A request of a class for an interaction with these wants.
pub(super) fn request(
    rt: &impl Abort,
    alloc: Global,
    (class, inter): (u16, u16),
    wanted: &[Wanted],
) -> Request {
    let wants: Vec<Want> = wanted.iter().map(want).collect(alloc).expect(rt, "memory");
    Request {
        wants: Wants::of(&wants).expect(rt, "wants"),
        reasons: Reasons::none(),
        request: 1,
        class: ClassId(class),
        inter: InterId(inter),
    }
}

fn asks(
    rt: &impl Abort,
    alloc: Global,
    table: &mut Table,
    wanted: &[Wanted],
    said: &Result<Decision, u8>,
) {
    let decided = table.decide(&request(rt, alloc, (0, 0), wanted));
    match (decided, said) {
        (Ok(decision), Ok(expected)) => assert!(rt; decision == *expected),
        (Err(fault), Err(expected)) => assert!(rt; fault.number() == *expected),
        _ => assert!(rt; false),
    }
}

/// Whether rows have these numbers, and are of the components 0, 1 and so on.
pub(super) fn have(rows: &[Row], numbers: &[Number]) -> bool {
    rows.len() == numbers.len()
        && rows.iter().zip(numbers).enumerate().all(|(comp, (row, number))| row.used == *number
            && row.comp.0 as usize == comp)
}

/// Whether grants are for these wants.
fn have_wants(grants: &[Grant], wants: &[&[Want]]) -> bool {
    grants.len() == wants.len()
        && grants
            .iter()
            .zip(wants)
            .all(|(grant, wants)| grant.wants.as_slice() == *wants)
}

fn take_step(rt: &impl Abort, alloc: Global, table: &mut Table, step: &Step) {
    match step {
        Step::Asks(wanted, said) => asks(rt, alloc, table, wanted, said),
        Step::Shows(used, floor, grants) => {
            assert!(rt; have(table.rows(), used) && have(table.floor(), floor));
            assert!(rt; table.journal().len() == *grants);
        }
    }
}

fn take_steps(rt: &impl Abort, alloc: Global, table: &mut Table, steps: &[Step]) {
    for step in steps {
        take_step(rt, alloc, table, step);
    }
}

fn takes(rt: &impl Abort, alloc: Global, serial: u64, steps: &[Step]) {
    let mut table = Table::new(alloc, THREE, serial).expect(rt, "memory");
    take_steps(rt, alloc, &mut table, steps);
}

#[test]
fn what_is_seen_stays_free(rt: HostRuntime) {
    const STEPS: &[Step] = &[
        Asks(&[(0, 1, true), (1, 1, false)], Ok(Decision::Granted(0))),
        Shows([1, 0, 0], [0, 0, 0], 1),
        Asks(&[(1, 1, true)], Ok(Decision::Granted(1))),
        Asks(
            &[(0, 1, true)],
            Ok(Decision::Refused {
                comp: CompId(0),
                used: 1,
            }),
        ),
        Asks(&[(7, 1, true)], Err(1)),
        Shows([1, 1, 0], [0, 0, 0], 2),
    ];
    takes(&rt, rt.alloc(), 0, STEPS);
}

#[test]
fn the_first_cause_is_told_with_the_lowest_component(rt: HostRuntime) {
    const STEPS: &[Step] = &[
        Asks(&[(0, 3, true), (2, 5, true)], Ok(Decision::Granted(9))),
        Asks(
            &[(0, 4, true), (1, 1, false), (2, 5, false)],
            Ok(Decision::Refused {
                comp: CompId(2),
                used: 5,
            }),
        ),
        Asks(
            &[(0, 3, false), (1, 1, true), (2, 5, true)],
            Ok(Decision::Refused {
                comp: CompId(0),
                used: 3,
            }),
        ),
        Asks(&[(0, 3, true), (3, 1, true), (4, 1, true)], Err(1)),
        Shows([3, 0, 5], [0, 0, 0], 1),
        Asks(
            &[(0, 9, true), (1, 1, false), (2, 7, true)],
            Ok(Decision::Granted(10)),
        ),
        Shows([9, 0, 7], [0, 0, 0], 2),
    ];
    takes(&rt, rt.alloc(), 9, STEPS);
}

#[test]
fn the_last_serial_is_granted_once(rt: HostRuntime) {
    const STEPS: &[Step] = &[
        Asks(&[(0, 1, true)], Ok(Decision::Granted(18446744073709551614))),
        Asks(&[(0, 2, true)], Err(3)),
        Asks(
            &[(0, 1, true)],
            Ok(Decision::Refused {
                comp: CompId(0),
                used: 1,
            }),
        ),
        Asks(&[(5, 1, true)], Err(1)),
        Shows([1, 0, 0], [0, 0, 0], 1),
    ];
    takes(&rt, rt.alloc(), 18446744073709551614, STEPS);
}

/// The first component's moves, one after another, as far as grants are told to come.
fn decides_all(rt: &impl Abort, alloc: Global, table: &mut Table, grants: u64) {
    for serial in 0..grants {
        let decided = table.decide(&request(rt, alloc, (0, 0), &[(0, serial + 1, true)]));
        assert!(rt; decided.is_ok_and(|decision| decision == Decision::Granted(serial)));
    }
}

#[test]
fn room_is_made_for_grants(rt: HostRuntime) {
    let mut table = Table::new(rt.alloc(), THREE, 0).expect(&rt, "memory");
    assert!(&rt; table.reserve_room(3).is_ok());
    decides_all(&rt, rt.alloc(), &mut table, 4);
    assert!(&rt; have(table.rows(), &[4, 0, 0]));
}

#[test]
fn a_table_that_is_cut_goes_on_above_its_floor(rt: HostRuntime) {
    const BEFORE: &[Step] = &[
        Asks(&[(0, 1, true), (1, 1, false)], Ok(Decision::Granted(0))),
        Asks(&[(1, 1, true)], Ok(Decision::Granted(1))),
        Shows([1, 1, 0], [0, 0, 0], 2),
    ];
    const BEHIND: &[Step] = &[
        Shows([1, 1, 4], [1, 1, 4], 0),
        Asks(
            &[(2, 4, true)],
            Ok(Decision::Refused {
                comp: CompId(2),
                used: 4,
            }),
        ),
        Asks(&[(2, 5, true)], Ok(Decision::Granted(2))),
        Shows([1, 1, 5], [1, 1, 4], 1),
    ];
    let mut table = Table::new(rt.alloc(), THREE, 0).expect(&rt, "memory");
    take_steps(&rt, rt.alloc(), &mut table, BEFORE);
    let grants = table.cut(Vec::new(rt.alloc()));
    table.raise(CompId(2), 4);
    table.raise(CompId(1), 0);
    table.raise(CompId(7), 9);
    take_steps(&rt, rt.alloc(), &mut table, BEHIND);
    assert!(&rt;
        have_wants(
            grants.as_slice(),
            &[[moved(0, 1), seen(1, 1)].as_slice(), &[moved(1, 1)]]
        )
    );
    assert!(&rt; have_wants(table.journal(), &[[moved(2, 5)].as_slice()]));
}

/// A row of a component with this used number.
fn row(used: Number, comp: u16) -> Row
    ensures { result ≡ record { used = used; comp = record { 0 = comp } } }
{
    Row {
        used,
        comp: CompId(comp),
    }
}

/// The first and the last of three rows are lent together and then written, and the one between
/// isn't lent any more. A lender over the same rows has none of a fourth component.
#[test]
fn rows_are_lent_together(rt: HostRuntime) {
    let mut rows = [row(0, 0), row(0, 1), row(0, 2)];
    let mut lender = RowLender::over(&mut rows);
    let first = lender.next(CompId(0)).expect(&rt, "the first");
    let third = lender.next(CompId(2)).expect(&rt, "the last");
    assert!(&rt; lender.next(CompId(1)).is_none());
    first.used = 5;
    third.used = 7;
    let written = [row(5, 0), row(0, 1), row(7, 2)];
    assert!(&rt; rows == written);
    // That rows still rise once they are given back follows by a proof by hand alone: these are
    // the same.
    rows = written;
    assert!(&rt; RowLender::over(&mut rows).next(CompId(3)).is_none());
}
