//! How a table is closed.
ghost use Rattle.std.specs.Prelude.{◌≡◌, ◌+◌, ◌%◌, ◌^◌, ◌<◌, [], ◌++◌, suc, length, All};
ghost use Rattle.std.specs.Prelude.{IfErr, IfOk};
ghost use Rattle.std.specs.List.{AllByRecursion};
ghost use Rattle.std.specs.Mem.Slots.{IsFull, slots_items, slots_len};
ghost use Rattle.bip_words.specs.Closing.{IsClosedBy, IsWitness, LacksGrants};
ghost use Rattle.bip_words.specs.Closing.{notes_of, parts_of, rows_by};
ghost use Rattle.bip_words.specs.Tables.{IsOfTable, IsSeatOf, Seated};

use crate::rows::Rows;
use crate::rule::{Token, Words};
use crate::steps::{Both, Count, Open, Witness};
use crate::tables::{Seat, WordTable};
use atomic_table::Closed as ClosedWords;
use bip_model::Request;
use std::alloc::Global;

/// A table that was closed: its rows with their used numbers, in place; how many grants it made;
/// and a seat that counted them, of which clauses say that it found no more.
#[derive(Drop)]
pub struct Closed {
    pub rows: Rows,
    pub serial: u64,
    pub witness: Seat,
}

/// So many grants are with seats that weren't given.
#[derive(Clone, Copy, Debug, PartialEq, Eq)]
pub struct Missing(pub u64);

impl WordTable {
    /// Closes the table, once no thread shares it, with seats of it. Where these have all its
    /// grants: its rows, each with the number that the grants in the order of their serials
    /// explain; how many grants that are, which are a history above the opening numbers; and a seat
    /// that found the ticket at just this number. Else so many are missing. What a given seat saw
    /// is explained in both cases. Takes no memory (docs/WORDS.md, "Closing").
    pub fn close(self, seats: Vec<Seat>) -> Result<Closed, Missing>
        requires { All (IsSeatOf self) seats.items }
        ensures closed { IfOk result (λ c. IsClosedBy self.rows seats.items c.rows c.serial) }
        ensures counted { IfOk result (λ c. IsWitness self c.serial c.witness) }
        ensures missing { IfErr result (λ m. LacksGrants self.rows seats.items m.0) }
    {
        let WordTable { words, mut rows } = self;
        let (_, mut own) = words.shared.load_new_seat::<Open>(0);
        let count = join_all(&words, &mut own, seats);
        words.shared.load::<Count>(&mut own, 0);
        let token = words.shared.split_seat::<Witness>(&mut own);
        let closed = words.close_with(own);
        let serial = closed.word(0);
        read_rows(&mut rows, &closed);
        closed.free();
        if count < serial {
            return Err(Missing(serial - count));
        }
        Ok(Closed {
            rows,
            serial,
            witness: Seat { token, grants: 0 },
        })
    }
}

/// All seats are taken in. Answers how many grants they have, but for whole turns of the counter.
fn join_all(words: &Words, token: &mut Token, mut seats: Vec<Seat>) -> u64
    requires token { (token.old.table_id ≡ words.now.shared.table_id)
        × (0 < words.now.shared.table_id.words) × (token.old.me.0.claims ≡ []) }
    requires seats { AllByRecursion (IsOfTable words.now.shared.table_id) seats.items }
    ensures same { (token.new.table_id ≡ token.old.table_id) × (token.new.id ≡ token.old.id)
        × (token.new.me.0.claims ≡ []) × (token.new.me.0.counts ≡ token.old.me.0.counts) }
    ensures notes { token.new.me.0.notes ≡ notes_of seats.items ++ token.old.me.0.notes }
    ensures grants { token.new.me.0.grants ≡ parts_of seats.items ++ token.old.me.0.grants }
    ensures count { result ≡ length (parts_of seats.items) % 2 ^ 64 }
{
    let mut count: u64 = 0;
    while let Some(seat) = seats.pop() {
        count = count.wrapping_add(take_in(words, token, seat));
    }
    count
}

/// The seat's grants and notes go to another one. Answers how many grants it has.
fn take_in(words: &Words, token: &mut Token, other: Seat) -> u64
    requires { (token.old.table_id ≡ words.now.shared.table_id)
        × (other.table ≡ words.now.shared.table_id) × (0 < words.now.shared.table_id.words)
        × (token.old.me.0.claims ≡ []) }
    ensures same { (token.new.table_id ≡ token.old.table_id) × (token.new.id ≡ token.old.id)
        × (token.new.me.1 ≡ token.old.me.1) × (token.new.me.0.claims ≡ [])
        × (token.new.me.0.counts ≡ token.old.me.0.counts) }
    ensures notes { token.new.me.0.notes ≡ other.knows.notes ++ token.old.me.0.notes }
    ensures grants { token.new.me.0.grants ≡ other.knows.grants ++ token.old.me.0.grants }
    ensures count { result ≡ length other.knows.grants }
{
    let Seat {
        token: theirs,
        grants,
    } = other;
    words.shared.join_seat::<Both>(token, theirs);
    grants
}

/// Each row gets the number of its word.
fn read_rows(rows: &mut Rows, closed: &ClosedWords<Request, Global>)
    requires { IsFull closed.now.words
        × (slots_len closed.now.words ≡ suc (length rows.old + length rows.old)) }
    ensures { rows.new ≡ rows_by 0 (slots_items closed.now.words) rows.old }
{
    for row in 0..rows.as_slice().len() {
        rows.set(row, closed.word(row + 1) / 2);
    }
}
