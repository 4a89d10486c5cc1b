//! The reservation table: which numbers of components are used up, and by which grants; alone, and
//! behind a lock that threads share.
#![tactic(auto)]

mod closing;
mod counted;
mod faults;
mod laws;
mod lending;
mod locks;
mod passes;
mod reservations;
mod reserving;
mod rows;

pub use faults::TableFault;
pub use laws::{lock_laws, table_laws};
pub use lending::RowLender;
pub use locks::{CloseFault, TableLock};
pub use passes::{Pass, Tally};
pub use reservations::{Decision, Table};
pub use reserving::Keep;
pub use rows::Row;
