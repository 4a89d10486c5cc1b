//! What callers ask of a locked table, each with a pass of its own.
ghost use Rattle.std.specs.Prelude.{◌≡◌, ◌≢◌, ◌+◌, ◌<◌, [], Err, All, IfOk, length};
ghost use Rattle.bip_table.specs.Passes.{first_pass, granted_by, tallies_after};
ghost use Rattle.bip_table.specs.Reservations.{grant_of};
ghost use Rattle.bip_table.specs.Reserving.{IsKeeperAfter, NamesWanted};
ghost use Rattle.bip_table.specs.declared.faults.TableFault.TheVariants.{NotKept};

use crate::counted::CountedTable;
use crate::passes::make_passes;
use crate::{Decision, Pass, Row, Table, TableFault, TableLock};
use bip_model::{Grant, Request, Seq};
use std::alloc::{AllocError, Global};
use std::sync::ledger::{Blank, Ledger};
use std::sync::{Mutex, Wait};

/// Who is handed each grant while the lock is still held, and keeps it or doesn't (docs/LOCK.md,
/// "Keepers").
pub trait Keep {
    ghost use Rattle.std.specs.Prelude.{Bool};
    ghost use Rattle.bip_model.specs.declared.grants.Grant.{Grant};

    /// Keeper, grant, whether it is kept, keeper: what one call of `keep` may make of a keeper.
    ghost keeps: { Self → Grant → Bool → Self → Type 0 };

    /// Keeps a grant, or says that it doesn't.
    fn keep<R: Wait>(&mut self, rt: &R, grant: &Grant) -> bool
        ensures { keeps self.old grant.now result self.new };
}

impl<L: Ledger> TableLock<L> {
    /// Puts a table without grants behind a lock, with so many passes, each of which was granted
    /// nothing and shown the floor. The ledger has a part for each pass. Without memory the table
    /// is given up.
    pub fn new(
        alloc: Global,
        blank: Blank,
        table: Table,
        passes: usize,
    ) -> Result<(TableLock<L>, Vec<Pass<L>>), AllocError>
        requires name { blank.name ≡ L.name }
        requires parts { (blank.parts ≡ L.parts) × (blank.parts ≡ passes) }
        requires some { 0 < passes }
        requires empty { table.journal ≡ [] }
        ensures lock { IfOk result (λ r. r.0
            ≡ record { passes = passes; rows = table.floor }) }
        ensures count { IfOk result (λ r. length r.1.items ≡ passes) }
        ensures first { IfOk result (λ r. All (λ p. p ≡ first_pass table.floor) r.1.items) }
    {
        let _rising = table.rows();
        let opening = list_rows(alloc, table.floor())?;
        let (book, rest) = blank.open::<L>();
        let made = make_passes(alloc, rest, passes, opening.as_slice())?;
        let lock = TableLock {
            inner: Mutex::new(CountedTable { table, book }),
            passes,
            opening: Seq::of(opening),
        };
        Ok((lock, made))
    }

    /// Waits for the lock, and asks the table what `Table::decide` does. The pass has one grant
    /// more where it is granted, and was shown what the answer shows; all else of it stays. A
    /// refusal names a component that is wanted, with a used number that isn't below the want's
    /// (docs/LOCK.md, "Answers").
    pub fn reserve<R: Wait>(
        &self,
        rt: &R,
        pass: &mut Pass<L>,
        request: Request,
    ) -> Result<Decision, TableFault>
        ensures kept { result ≢ Err NotKept }
        ensures named { NamesWanted request.wants result }
        ensures grants { pass.new.grants ≡ pass.old.grants + granted_by result }
        ensures tallies { pass.new.tallies ≡ tallies_after request.wants result pass.old.tallies }
    {
        let decided = pass.ask(&mut *self.inner.lock(rt), &request);
        pass.note(request.wants.as_slice(), &decided);
        decided
    }

    /// Asks as `reserve` does, and hands a grant to a keeper before the lock is let go. Where the
    /// keeper doesn't keep it, the answer is NotKept; the grant stays all the same, and so do the
    /// counts. A keeper is handed nothing else (docs/LOCK.md, "Keepers").
    pub fn reserve_kept<R: Wait, K: Keep>(
        &self,
        rt: &R,
        pass: &mut Pass<L>,
        request: Request,
        keeper: &mut K,
    ) -> Result<Decision, TableFault>
        ensures named { NamesWanted request.wants result }
        ensures grants { pass.new.grants ≡ pass.old.grants + granted_by result }
        ensures tallies { pass.new.tallies ≡ tallies_after request.wants result pass.old.tallies }
        ensures keeper { IsKeeperAfter K.keeps (grant_of request) keeper.old result keeper.new }
    {
        let mut counted = self.inner.lock(rt);
        let mut answer = pass.ask(&mut *counted, &request);
        if let Ok(Decision::Granted(_)) = &answer {
            let grant = Grant {
                inter: request.inter,
                wants: request.wants.copy(),
            };
            if !keeper.keep(rt, &grant) {
                answer = Err(TableFault::NotKept);
            }
        }
        drop(counted);
        pass.note(request.wants.as_slice(), &answer);
        answer
    }
}

fn list_rows(alloc: Global, rows: &[Row]) -> Result<Vec<Row>, AllocError>
    ensures { IfOk result (λ list. list.items ≡ rows.now) }
{
    rows.iter().copied().collect(alloc)
}
