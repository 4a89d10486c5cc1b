//! What is compared when a locked table is closed.
ghost use Rattle.std.specs.Prelude.{◌≡◌, ◌↔◌, ◌⊎◌, ℕ, All, IfErr, IfNone, IfOk, IfSome, IsTrue};
ghost use Rattle.std.specs.Prelude.{map, min, sum_by};
ghost use Rattle.std.specs.List.Sorted.{IsStrictlyIncreasing};
ghost use Rattle.bip_model.specs.Numbering.{IsLowest};
ghost use Rattle.bip_table.specs.Closing.{Differs, IsAsTold, IsClosedWith, IsCloseFault};
ghost use Rattle.bip_table.specs.Closing.{IsFirstOther, greatest, moves_of};
ghost use Rattle.bip_table.specs.Passes.{count_at, shown_at};
ghost use Rattle.bip_table.specs.Rows.{has_row, row_components, used_at};
ghost use Rattle.bip_table.specs.declared.rows.Row.{Row};

use crate::counted::CountedTable;
use crate::passes::{join_shares, moved_number};
use crate::{CloseFault, Pass, Row, Table, TableLock};
use bip_model::{CompId, Grant, Number};
use std::sync::ledger::Ledger;

impl<L: Ledger> TableLock<L> {
    /// Takes the table out of the lock, for all passes: its grants are as many as these have, its
    /// rows and their floor are those of the opening, and of each row the grants that move it are
    /// as many as the passes count, and the used number is the greatest that they were shown. Where
    /// a pass is missing, the lock and the passes come back; where a row differs, the table does,
    /// with the lowest such component, and as many grants as the passes have (docs/LOCK.md,
    /// "Closing"). Takes no memory.
    pub fn close(self, passes: Vec<Pass<L>>) -> Result<Table, CloseFault<L>>
        ensures closed { IfOk result (λ t. IsClosedWith self passes.items t) }
        ensures fault { IfErr result (λ e. IsCloseFault self passes.items e) }
    {
        if passes.len() < self.passes {
            return Err(CloseFault::PassesMissing(self, passes));
        }
        let TableLock { inner, opening, .. } = self;
        let CountedTable { table, mut book } = inner.into_inner();
        let differing = first_differing(opening.as_slice(), passes.as_slice(), &table);
        if let Some(mut all) = join_shares(passes) {
            book.audit(&mut all);
        }
        let _grants = table.journal();
        match differing {
            Some(comp) => Err(CloseFault::RowsDiffer(comp, table)),
            None => Ok(table),
        }
    }
}

/// The lowest component whose row isn't as it was at the opening and as the passes tell.
fn first_differing<L: Ledger>(opening: &[Row], passes: &[Pass<L>], table: &Table) -> Option<CompId>
    requires { IsStrictlyIncreasing (row_components opening.now) }
    ensures some { IfSome result (λ c. IsLowest (Differs opening.now passes.now table.now) c.0) }
    ensures none { IfNone result ((c : ℕ)
        → (IsTrue (has_row opening.now c) ⊎ IsTrue (has_row table.now.rows c))
        → IsAsTold opening.now passes.now table.now c) }
{
    let before = first_other(opening, opening, passes, table);
    let now = first_other(table.rows(), opening, passes, table);
    match (before, now) {
        (Some(one), Some(other)) => Some(lower(one, other)),
        (Some(one), None) => Some(one),
        (None, other) => other,
    }
}

fn lower(one: CompId, other: CompId) -> CompId
    ensures { result.0 ≡ min one.0 other.0 }
{
    if other.0 < one.0 { other } else { one }
}

/// The component of the first of rows that isn't as it was told.
fn first_other<L: Ledger>(
    rows: &[Row],
    opening: &[Row],
    passes: &[Pass<L>],
    table: &Table,
) -> Option<CompId>
    requires { IsStrictlyIncreasing (row_components rows.now) }
    ensures some { IfSome result (λ c.
        IsFirstOther rows.now opening.now passes.now table.now c.0) }
    ensures none { IfNone result (All (λ (r : Row).
        IsAsTold opening.now passes.now table.now r.comp.0) rows.now) }
{
    for row in rows {
        if !is_as_told(opening, passes, table, row.comp) {
            return Some(row.comp);
        }
    }
    None
}

/// Whether a component's row is as it was at the opening and as the passes tell.
fn is_as_told<L: Ledger>(opening: &[Row], passes: &[Pass<L>], table: &Table, comp: CompId) -> bool
    ensures { IsTrue result ↔ IsAsTold opening.now passes.now table.now comp.0 }
{
    have_one_of(table.rows(), comp) == have_one_of(opening, comp)
        && number_in(table.floor(), comp) == number_in(opening, comp)
        && count_moves(table.journal(), comp) == add_counts(passes, comp)
        && greatest_shown(passes, comp) == number_in(table.rows(), comp)
}

/// Whether one of rows is a component's.
fn have_one_of(rows: &[Row], comp: CompId) -> bool
    ensures { result ≡ has_row rows.now comp.0 }
{
    for row in rows {
        if row.comp == comp {
            return true;
        }
    }
    false
}

/// The number that rows give a component; 0 where it has none.
fn number_in(rows: &[Row], comp: CompId) -> Number
    ensures { result ≡ used_at rows.now comp.0 }
{
    for row in rows {
        if row.comp == comp {
            return row.used;
        }
    }
    0
}

fn count_moves(journal: &[Grant], comp: CompId) -> u128
    ensures { result ≡ moves_of journal.now comp.0 }
{
    let mut count: u64 = 0;
    for grant in journal {
        if moved_number(grant.wants.as_slice(), comp) > 0 {
            count += 1;
        }
    }
    u128::from(count)
}

/// What passes count together; with more bits than a count, since passes may be of any lock.
fn add_counts<L: Ledger>(passes: &[Pass<L>], comp: CompId) -> u128
    ensures { result ≡ sum_by (λ p. count_at p.tallies comp.0) passes.now }
{
    let mut sum: u128 = 0;
    for pass in passes {
        sum += u128::from(pass.count(comp));
    }
    sum
}

fn greatest_shown<L: Ledger>(passes: &[Pass<L>], comp: CompId) -> Number
    ensures { result ≡ greatest (map (λ p. shown_at p.tallies comp.0) passes.now) }
{
    let mut most: Number = 0;
    for pass in passes {
        most = most.max(pass.shown(comp));
    }
    most
}
