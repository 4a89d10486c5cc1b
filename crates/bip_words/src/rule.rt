//! The rule of the words.
use crate::knowledge::Knowledge;
use crate::rows::Rows;
use atomic_table::{Seat, Table, TableRule};
use bip_model::Request;
use std::alloc::Global;

/// The rule that holds between any two steps (docs/WORDS.md, "The rule").
pub(crate) struct Law;

impl TableRule<Request, Knowledge, Rows> for Law {
    ghost use Rattle.bip_words.specs.Knowledge.{nobody};
    ghost use Rattle.bip_words.specs.Rule.{IsKept};

    ghost holds = { IsKept };

    ghost first = { λ _. nobody };
}

/// The words under the rule, which knows the rows with their opening numbers.
pub(crate) type Words = Table<Request, Knowledge, Rows, Law, Global>;

/// What a thread steps with: it has no bytes.
pub(crate) type Token = Seat<Request, Knowledge>;
