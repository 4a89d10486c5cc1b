//! The token of a ring.
ghost use Rattle.std.specs.Prelude.{◌≡◌, ◌<◌, IfOk};
ghost use Rattle.bip_model.specs.Numbering.{last_number};
ghost use Rattle.bip_bank.specs.Opening.{IsOpening};
ghost use Rattle.bip_table.specs.Reservations.{IsTableAnswer, reservations};
ghost use Rattle.bip_ring.specs.Tokens.{IsTokenAfter, with_cut};

use bip_bank::first_table;
use bip_model::{Grant, Number, Request};
use bip_partition::Plan;
use bip_table::{Decision, Table, TableFault};
use std::alloc::{AllocError, Global};

/// The token of a ring, in which the one table travels.
#[derive(Drop)]
pub struct Token {
    alloc: Global,
    pub(crate) table: Table,
}

impl Token {
    /// The token of a plan's ring at the start: a row of each component that has one, whose floor
    /// and used number are the base.
    pub fn new(alloc: Global, plan: &Plan, base: Number) -> Result<Token, AllocError>
        requires { base < last_number }
        ensures { IfOk result (λ token. IsOpening plan.now base token.table) }
    {
        let table = first_table(alloc, plan, base)?;
        Ok(Token { alloc, table })
    }

    /// Decides on a request, as its table does, and keeps no grant: that is with who asked, and the
    /// table's used numbers are its floor then. So a token that goes round doesn't grow.
    pub fn decide(&mut self, request: &Request) -> Result<Decision, TableFault>
        ensures answer { IsTableAnswer self.old.table request.now.wants result }
        ensures left { IsTokenAfter request.now result self.old.table self.new.table }
    {
        match self.table.decide(request) {
            Ok(Decision::Granted(serial)) => {
                self.let_go();
                Ok(Decision::Granted(serial))
            }
            Ok(Decision::Refused { comp, used }) => Ok(Decision::Refused { comp, used }),
            Err(fault) => Err(fault),
        }
    }

    /// Lets the grants of the table go, whose room stays.
    fn let_go(&mut self)
        ensures { reservations self.new.table ≡ with_cut (reservations self.old.table) }
    {
        let mut granted = self.table.cut(Vec::new(self.alloc));
        granted.clear();
        let _none = self.table.cut(granted);
    }

    /// The grants, in order of decision.
    pub(crate) fn grants(&self) -> &[Grant]
        ensures { result.now ≡ self.now.table.journal }
    {
        self.table.journal()
    }
}
