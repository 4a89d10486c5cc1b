//! Dining philosophers: stations that share forks, each with a table of its own.
#![tactic(auto)]

mod exchanges;
mod forks;
mod idleness;
mod laws;
mod opening;
mod sending;
mod shares;
mod sides;
mod stations;

pub use forks::Forks;
pub use laws::fork_laws;
pub use shares::{AskToken, Fork, Neighbours, Side, other_of};
pub use stations::Station;
