//! The rows of a table: which components have one, each with a number.
ghost use Rattle.std.specs.Prelude.{◌≡◌, ◌≢◌, ◌<◌, IfNone, IfSome, All, length};
ghost use Rattle.bip_model.specs.declared.numbering.CompId.{CompId};
ghost use Rattle.bip_words.specs.Rows.{IsRowOf, IsRows, row_comps, with_number};

use bip_model::{CompId, Number};
use std::marker::Model;

/// How many rows a table has at most.
pub const MOST_ROWS: usize = 32;

/// At most 32 components in rising order, each with a number, kept in place. Contracts see them as
/// the list.
#[derive(Drop)]
pub struct Rows {
    rows: [(CompId, Number); MOST_ROWS],
    len: u8,
}

impl Model for Rows {
    ghost use Rattle.std.specs.Prelude.{◌≡◌, ◌≤◌, ℕ, List, length, take};
    ghost use Rattle.bip_model.specs.declared.numbering.CompId.{CompId};
    ghost use Rattle.bip_words.specs.Rows.{IsRows};

    ghost Value = { List (CompId × ℕ) };

    ghost view = { λ r. take r.len r.rows };

    ghost invariant = { λ r.
        (r.len ≤ 32) × (length r.rows ≡ 32) × IsRows (take r.len r.rows) };
}

impl Rows {
    pub(crate) fn of(entries: &[(CompId, Number)]) -> Rows
        requires { IsRows entries.now }
        ensures { result ≡ entries.now }
    {
        let mut rows = [(CompId(0), 0); MOST_ROWS];
        rows[..entries.len()].copy_from_slice(entries);
        Rows {
            rows,
            len: entries.len() as u8,
        }
    }

    /// The rows, by component.
    pub fn as_slice(&self) -> &[(CompId, Number)]
        ensures rows { result.now ≡ self.now }
        ensures valid { IsRows self.now }
    {
        &self.rows[..self.len as usize]
    }

    /// The same rows, of which this one has another number.
    pub(crate) fn set(&mut self, row: usize, number: Number)
        requires { row < length self.old }
        ensures { self.new ≡ with_number self.old row number }
    {
        let rows = &mut self.rows;
        rows[row].1 = number;
    }
}

/// Which row is the component's, if it has one.
pub(crate) fn row_of(rows: &[(CompId, Number)], comp: CompId) -> Option<usize>
    ensures row { IfSome result (λ r. IsRowOf (row_comps rows.now) r comp.0) }
    ensures within { IfSome result (λ r. r < length rows.now) }
    ensures none { IfNone result (All (λ (e : CompId × _). e.0.0 ≢ comp.0) rows.now) }
{
    for (row, entry) in rows.iter().enumerate() {
        if entry.0 == comp {
            return Some(row);
        }
    }
    None
}
