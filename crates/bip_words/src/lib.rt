//! A table of used numbers in single words, which threads reserve from without a lock.
#![tactic(auto)]

mod closing;
mod knowledge;
mod laws;
mod reserving;
mod rows;
mod rule;
mod steps;
mod tables;

pub use closing::{Closed, Missing};
pub use knowledge::{Claim, Knowledge, Learned, Note};
pub use laws::word_laws;
pub use rows::{MOST_ROWS, Rows};
pub use tables::{Attempt, Seat, WordTable};
