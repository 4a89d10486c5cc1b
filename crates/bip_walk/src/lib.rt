//! Walks: runs of a model itself, whose grants are drawn.
#![tactic(auto)]

mod chance;
mod choices;
mod surveys;
mod tallies;
mod walking;

pub use chance::generator_of;
pub use choices::{can_be_drawn, grant_of};
pub use surveys::{survey, tally_of_book};
pub use tallies::{FirstEnd, GrantCount, Tally};
pub use walking::walk;
