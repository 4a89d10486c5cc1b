//! The table of words, and its seats.
ghost use Rattle.std.specs.Prelude.{◌≡◌, ◌<◌, ◌≤◌, ◌*◌, ◌^◌, ℕ, [], ◌∷◌, ◌++◌, length, map, All};
ghost use Rattle.std.specs.Prelude.{IfOk, OnOk};
ghost use Rattle.bip_model.specs.declared.numbering.CompId.{CompId};
ghost use Rattle.bip_words.specs.Knowledge.{nobody};
ghost use Rattle.bip_words.specs.Rows.{IsRows};
ghost use Rattle.bip_words.specs.Tables.{IsSeatOf, Seated, Tabled};

use crate::rows::Rows;
use crate::rule::{Token, Words};
use crate::steps::Halves;
use bip_model::{CompId, Number};
use std::alloc::{AllocError, Global};
use std::marker::Model;

/// What one attempt to reserve comes to.
#[derive(Clone, Copy, Debug, PartialEq, Eq)]
pub enum Attempt {
    /// All wants were fresh; the grant has this serial.
    Granted(u64),
    /// This component's number isn't above the used one, which is told.
    Used { comp: CompId, used: Number },
    /// Another seat had a claim on this component's row, or changed its word.
    Busy(CompId),
    /// This component has no row: the lowest wanted one that has none.
    Unknown(CompId),
}

/// A table of used numbers in single words, which threads share and reserve from without a lock
/// (docs/WORDS.md, "A word table"). Contracts see which table it is, and its rows with their
/// opening numbers.
#[derive(Drop)]
pub struct WordTable {
    pub(crate) words: Words,
    pub(crate) rows: Rows,
}

impl Model for WordTable {
    ghost use Rattle.std.specs.Prelude.{◌≡◌, ◌+◌, suc, length};
    ghost use Rattle.bip_words.specs.Rows.{IsRows};
    ghost use Rattle.bip_words.specs.Tables.{Tabled};

    ghost Value = { Tabled };

    ghost view = { λ t. record { id = t.words.shared.table_id; rows = t.rows } };

    ghost invariant = { λ t. (t.words.shared.key ≡ t.rows)
        × (t.words.shared.table_id.words ≡ suc (length t.rows + length t.rows))
        × (t.words.shared.table_id.slots ≡ 0) × IsRows t.rows };
}

/// With what one thread at a time reserves: it knows its grants with their serials, and what was
/// seen with it (docs/WORDS.md, "Seats"). Contracts see of which table it is, and what it knows.
/// Between calls it has no claim.
#[derive(Drop)]
pub struct Seat {
    pub(crate) token: Token,
    pub(crate) grants: u64,
}

impl Model for Seat {
    ghost use Rattle.std.specs.Prelude.{◌≡◌, [], length};
    ghost use Rattle.bip_words.specs.Tables.{Seated};

    ghost Value = { Seated };

    ghost view = { λ s. record { table = s.token.table_id; knows = s.token.me.0 } };

    ghost invariant = { λ s. (s.token.me.1 ≡ []) × (s.token.me.0.claims ≡ [])
        × (s.grants ≡ length s.token.me.0.grants) };
}

impl Seat {
    /// How many grants were made with the seat.
    pub fn grants(&self) -> u64
        ensures grants { result ≡ length self.now.knows.grants }
        ensures unclaimed { self.now.knows.claims ≡ [] }
    {
        self.grants
    }
}

impl WordTable {
    /// A table over at most 32 components in rising order with their opening numbers, each below
    /// 2^58, and its first seat, which knows nothing yet. Err where there is no memory for the
    /// words.
    pub fn new(alloc: Global, entries: &[(CompId, Number)]) -> Result<(WordTable, Seat), AllocError>
        requires rows { IsRows entries.now }
        requires small { All (λ (e : CompId × ℕ). e.1 < 2 ^ 58) entries.now }
        ensures rows { IfOk result (λ r. r.0.rows ≡ entries.now) }
        ensures seat { IfOk result (λ r. IsSeatOf r.0 r.1 × (r.1.knows ≡ nobody)) }
    {
        let words = first_words(alloc, entries)?;
        let rows = Rows::of(entries);
        let (words, token) = Words::of_words(alloc, words.as_slice(), &rows)?;
        Ok((WordTable { words, rows }, Seat { token, grants: 0 }))
    }

    /// One more seat, which knows nothing yet. The seat that is handed over keeps what it knows.
    pub fn split(&self, seat: &mut Seat) -> Seat
        requires { IsSeatOf self.now seat.old }
        ensures seat { seat.new ≡ seat.old }
        ensures new { IsSeatOf self.now result × (result.knows ≡ nobody) }
    {
        let token = self.words.shared.split_seat::<Halves>(&mut seat.token);
        Seat { token, grants: 0 }
    }
}

/// The ticket, the words of the rows, and their opening numbers.
fn first_words(alloc: Global, entries: &[(CompId, Number)]) -> Result<Vec<u64>, AllocError>
    requires { All (λ (e : CompId × ℕ). e.1 < 2 ^ 58) entries.now }
    ensures { IfOk result (λ words. words.items ≡ 0 ∷ (map (λ (e : CompId × ℕ). 2 * e.1) entries.now
        ++ map (λ (e : CompId × ℕ). 1 * e.1) entries.now)) }
{
    let mut words = Vec::new(alloc);
    words.push(0)?;
    push_numbers(&mut words, entries, 2)?;
    push_numbers(&mut words, entries, 1)?;
    Ok(words)
}

fn push_numbers(
    words: &mut Vec<u64>,
    entries: &[(CompId, Number)],
    times: u64,
) -> Result<(), AllocError>
    requires small { All (λ (e : CompId × ℕ). e.1 < 2 ^ 58) entries.now }
    requires times { times ≤ 2 }
    ensures { OnOk result (words.new.items
        ≡ words.old.items ++ map (λ (e : CompId × ℕ). times * e.1) entries.now) }
{
    for entry in entries {
        words.push(times * entry.1)?;
    }
    Ok(())
}
