//! The seats of a word table, one of each class, and what is drawn with them.
ghost use Rattle.std.specs.Prelude.{◌≡◌, ◌↔◌, All, IfOk, IsTrue, length};
ghost use Rattle.bip_host.specs.Seats.{AreOpeningRows, AreWordRows, CanHave, HasFewRows};
ghost use Rattle.bip_host.specs.Seats.{IsDrawnFrom, IsSmallWant, zeroed};
ghost use Rattle.bip_words.specs.Knowledge.{nobody};
ghost use Rattle.bip_words.specs.Tables.{IsSeatOf};

use crate::drawn::{Drawn, try_draw};
use crate::hosts::{Kind, Tables};
use bip_bank::first_table;
use bip_model::{CompId, Number, Request, Want};
use bip_partition::Plan;
use bip_table::Row;
use bip_words::{Attempt, MOST_ROWS, Seat, WordTable};
use std::alloc::{AllocError, Global};

/// The greatest number that a word table can have.
pub(crate) const MOST_IN_WORDS: Number = (1 << 58) - 1;

/// Whether the tables of a host of a plan and a kind can be shared so: row words want one table of
/// at most 32 rows (docs/HOST.md, "Row words").
pub fn can_have(plan: &Plan, kind: Kind, tables: Tables) -> bool
    ensures { IsTrue result ↔ CanHave plan.now kind tables }
{
    match (tables, kind) {
        (Tables::Locked, _) => true,
        (Tables::Words, Kind::Central) => has_few_rows(plan),
        (Tables::Words, _) => false,
    }
}

/// Whether at most 32 components have a row.
fn has_few_rows(plan: &Plan) -> bool
    ensures { IsTrue result ↔ HasFewRows plan.now }
{
    plan.count_tabled() <= MOST_ROWS
}

/// What comes of an attempt to draw a request's grant.
#[derive(Drop)]
pub enum Draw {
    Granted(Drawn),
    /// This component's number isn't above the used one.
    Used { comp: CompId, used: Number },
    /// A row was busy, or changed meanwhile: the request comes back.
    Busy(Request),
    /// This component has no row.
    Unknown(CompId),
    /// A number is 2^58 or more, which words can't have.
    TooGreat,
}

/// A class's seat of a word table.
#[derive(Drop)]
pub struct WordSeat<'h> {
    table: &'h WordTable,
    seat: Seat,
    ghost of_table: { IsSeatOf table.now seat },
}

impl<'h> WordSeat<'h> {
    /// This seat of the table.
    pub fn of(table: &'h WordTable, seat: Seat) -> WordSeat<'h>
        requires { IsSeatOf table.now seat }
        ensures { (result.table.now ≡ table.now) × (result.seat ≡ seat) }
    {
        WordSeat { table, seat }
    }

    /// One more seat of the table, which knows nothing yet.
    pub fn split(&mut self) -> WordSeat<'h>
        ensures table { (result.table.now ≡ self.old.table.now)
            × (self.new.table.now ≡ self.old.table.now) }
        ensures seats { (result.seat.knows ≡ nobody) × (self.new.seat ≡ self.old.seat) }
    {
        let seat = self.table.split(&mut self.seat);
        WordSeat::of(self.table, seat)
    }

    /// Tries once to draw a request's grant (docs/WORDS.md, "Attempts"). Where a number is 2^58 or
    /// more it isn't tried.
    pub fn draw(&mut self, request: Request) -> Draw
        ensures table { self.new.table.now ≡ self.old.table.now }
        ensures draw { IsDrawnFrom self.old.table.now request result self.old.seat self.new.seat }
    {
        if !are_small(request.wants.as_slice()) {
            return Draw::TooGreat;
        }
        match try_draw(self.table, &mut self.seat, &request) {
            Ok(drawn) => Draw::Granted(drawn),
            Err(Attempt::Used { comp, used }) => Draw::Used { comp, used },
            Err(Attempt::Busy(_)) => Draw::Busy(request),
            Err(Attempt::Unknown(comp)) => Draw::Unknown(comp),
            Err(Attempt::Granted(_)) => unreachable!(),
        }
    }

    /// How many grants were drawn with the seat: those that stand in its own list.
    pub fn count_drawn(&self) -> u64
        ensures { result ≡ length self.now.seat.knows.grants }
    {
        self.seat.grants()
    }
}

/// Whether a word table can have all wanted numbers.
fn are_small(wants: &[Want]) -> bool
    ensures { IsTrue result ↔ All IsSmallWant wants.now }
{
    wants.iter().all(|want| want.number <= MOST_IN_WORDS)
}

/// The word table of a plan before any grant, and its first seat: a row of each component that has
/// one, whose number is 0 (docs/HOST.md, "Row words").
pub fn open_words(alloc: Global, plan: &Plan) -> Result<(WordTable, Seat), AllocError>
    requires few { HasFewRows plan.now }
    ensures rows { IfOk result (λ r. AreOpeningRows plan.now r.0.rows) }
    ensures seat { IfOk result (λ r. IsSeatOf r.0 r.1 × (r.1.knows ≡ nobody)) }
{
    let rows = word_rows(alloc, plan)?;
    WordTable::new(alloc, rows.as_slice())
}

/// The rows of a plan's word table.
#[tactic(auto, using(crate::proofs::SeatLemmas::are_word_rows))]
fn word_rows(alloc: Global, plan: &Plan) -> Result<Vec<(CompId, Number)>, AllocError>
    requires few { HasFewRows plan.now }
    ensures rows { IfOk result (λ rows. AreWordRows plan.now rows.items) }
{
    let table = first_table(alloc, plan, 0)?;
    zeroed(alloc, table.rows())
}

/// The components of rows, each with the number 0.
fn zeroed(alloc: Global, rows: &[Row]) -> Result<Vec<(CompId, Number)>, AllocError>
    ensures { IfOk result (λ entries. entries.items ≡ zeroed rows.now) }
{
    rows.iter().map(|row| (row.comp, 0)).collect(alloc)
}
