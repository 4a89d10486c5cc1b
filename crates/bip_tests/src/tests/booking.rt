//! A book that refuses a grant under the lock: the table has the grant, and the book hasn't.
ghost use Rattle.std.specs.Prelude.{◌≡◌, [], ⊤};

use super::locking::{Told, request, told};
use super::tabling::{THREE, have};
use super::worked::COMPETE_WITH_PRIORITY;
use super::{model, moved, seen};
use bip_model::{Grant, InterId, Model, Request};
use bip_replay::{Book, BookFault};
use bip_table::{Decision, Keep, Table, TableFault, TableLock};
use std::alloc::Global;
use std::marker::Brand;
use std::process::Abort;
use std::sync::Wait;
use std::sync::ledger::{Blank, Ledger};

/// Appends what it is handed to a book, and remembers why the book took one not.
#[derive(Drop)]
struct Booker<'m> {
    book: Book<'m>,
    fault: Option<BookFault>,
}

impl<'m> Keep for Booker<'m> {
    ghost keeps = { λ keeper grant kept later. ⊤ };

    fn keep<W: Wait>(&mut self, _rt: &W, grant: &Grant) -> bool {
        match self.book.append(grant.copy()) {
            Ok(_) => true,
            Err(fault) => {
                self.fault = Some(fault);
                false
            }
        }
    }
}

/// What came of one request: its answer, why the book refused its grant, how many grants the book
/// has, what the pass counts, and the table.
#[derive(Drop)]
struct Unkept {
    answer: Result<Decision, TableFault>,
    fault: Option<BookFault>,
    booked: usize,
    told: Told,
    table: Table,
}

/// Asks once, with such a keeper, and closes the lock.
fn ask_booking<L: Ledger, W: Wait>(
    rt: &W,
    alloc: Global,
    blank: Blank,
    table: Table,
    asked: Request,
    book: Book<'_>,
) -> Option<Unkept>
    requires name { blank.name ≡ L.name }
    requires parts { (blank.parts ≡ L.parts) × (blank.parts ≡ 1) }
    requires empty { table.journal ≡ [] }
{
    let (lock, mut passes) = TableLock::<L>::new(alloc, blank, table, 1).ok()?;
    let mut pass = passes.pop()?;
    let mut keeper = Booker { book, fault: None };
    let answer = lock.reserve_kept(rt, &mut pass, asked, &mut keeper);
    let told = told(&pass);
    passes.push(pass).ok()?;
    let table = lock.close(passes).ok()?;
    Some(Unkept {
        answer,
        booked: keeper.book.grants().len(),
        fault: keeper.fault,
        told,
        table,
    })
}

/// Asks for A and R to move by x, where y stands above it and nothing was moved yet.
fn ask_for_low<W: Wait>(rt: &W, alloc: Global, model: &Model) -> Option<Unkept> {
    let asked = request(0, &[moved(0, 1), seen(1, 1), moved(2, 1)])?;
    let table = Table::new(alloc, THREE, 0).ok()?;
    let book = Book::start(alloc, model, 0).ok()?;
    ask_booking::<Brand, _>(rt, alloc, Blank::new(1), table, asked, book)
}

fn is_told(rt: &impl Abort, unkept: &Unkept) {
    assert!(rt; matches!(&unkept.answer, Err(TableFault::NotKept)));
    assert!(rt; matches!(&unkept.fault, Some(BookFault::Below(InterId(1)))));
    assert!(rt; unkept.booked == 0);
    assert!(rt; unkept.told == [(1, 1), (0, 0), (1, 1), (0, 0)]);
}

fn is_closed(rt: &impl Abort, table: &Table) {
    let [grant] = table.journal() else {
        panic!(rt; "there is one grant")
    };
    assert!(rt; grant.inter == InterId(0));
    assert!(rt; grant.wants.as_slice() == [moved(0, 1), seen(1, 1), moved(2, 1)].as_slice());
    assert!(rt; have(table.rows(), &[1, 0, 1]) && have(table.floor(), &[0, 0, 0]));
}

#[test]
fn a_book_refuses_under_the_lock(rt: HostRuntime) {
    let model = model(&rt, rt.alloc(), COMPETE_WITH_PRIORITY);
    let unkept = ask_for_low(&rt, rt.alloc(), &model).expect(&rt, "it closes");
    is_told(&rt, &unkept);
    is_closed(&rt, &unkept.table);
    drop(unkept);
    drop(model);
}
