//! A table behind a lock, and why one isn't closed. Definitions name these types, so what is done
//! with them stands apart.
use crate::counted::CountedTable;
use crate::{Pass, Row, Table};
use bip_model::{CompId, Seq};
use std::marker::Model;
use std::sync::Mutex;
use std::sync::ledger::Ledger;

/// A table that threads share, each with a pass of its own (docs/LOCK.md). Whenever the lock is
/// free, what lies under it is a table, by `Table`'s own invariant: its grants are a history above
/// its floor, and explain its used numbers; and the ledger's total is the number of its grants.
/// Beside the lock stand how many passes there are, and the rows as they were at the opening:
/// contracts see both. `L` names the ledger.
#[derive(Drop)]
pub struct TableLock<L: Ledger> {
    pub(crate) inner: Mutex<CountedTable<L>>,
    pub(crate) passes: usize,
    pub(crate) opening: Seq<Row>,
}

impl<L: Ledger> Model for TableLock<L> {
    ghost use Rattle.std.specs.Prelude.{◌≡◌, ◌<◌};
    ghost use Rattle.std.specs.List.Sorted.{IsStrictlyIncreasing};
    ghost use Rattle.bip_table.specs.Locks.{Opened};
    ghost use Rattle.bip_table.specs.Rows.{row_components};

    ghost Value = { Opened };

    ghost view = { λ l. record { passes = l.passes; rows = l.opening } };

    ghost invariant = { λ l. (l.passes ≡ L.parts) × (0 < l.passes)
        × IsStrictlyIncreasing (row_components l.opening) };
}

/// Why a lock isn't closed: the first of these that applies (docs/LOCK.md, "Closing").
#[derive(Drop)]
pub enum CloseFault<L: Ledger> {
    /// Passes are missing: these are fewer than the lock has.
    PassesMissing(TableLock<L>, Vec<Pass<L>>),
    /// The row of this component isn't as the lock was opened and as the passes tell: the lowest
    /// such component, and the table.
    RowsDiffer(CompId, Table),
}
