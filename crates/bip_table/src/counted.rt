//! What lies under a table's lock.
ghost use Rattle.std.specs.Prelude.{◌≡◌, ◌+◌, ◌<◌, ◌^◌, length};
ghost use Rattle.bip_table.specs.Passes.{granted_by};
ghost use Rattle.bip_table.specs.Reservations.{IsTableAfter, IsTableAnswer};

use crate::{Decision, Table, TableFault};
use bip_model::Request;
use std::sync::ledger::{Book, Ledger, Share};

/// A table with the book of a ledger, whose total is the number of the table's grants.
#[derive(Drop)]
pub(crate) struct CountedTable<L: Ledger> {
    pub(crate) table: Table,
    pub(crate) book: Book<L>,
    ghost counted: { book.total ≡ length table.journal },
}

impl<L: Ledger> CountedTable<L> {
    /// Decides on a request as the table does, and counts a grant in a share.
    pub(crate) fn decide(
        &mut self,
        share: &mut Share<L>,
        request: &Request,
    ) -> Result<Decision, TableFault>
        requires { 0 < share.old.parts }
        ensures answer { IsTableAnswer self.old.table request.now.wants result }
        ensures left { IsTableAfter request.now result self.old.table self.new.table }
        ensures parts { share.new.parts ≡ share.old.parts }
        ensures amount { share.new.amount ≡ share.old.amount + granted_by result }
        ensures bound { share.new.amount < 2 ^ 64 }
    {
        let CountedTable { table, book } = self;
        let decision = table.decide(request);
        if let Ok(Decision::Granted(_)) = &decision {
            book.add(share, 1);
        }
        // A share has at most the total, which is the length of a list.
        book.audit(share);
        let _grants = table.journal().len();
        decision
    }
}
