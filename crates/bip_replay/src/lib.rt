//! Runs of grants with exact numbers: a position in a run, and the book of its grants.
#![tactic(auto)]

mod book;
mod expected;
mod faults;
mod followers;
mod fronts;
mod grants;
mod guesses;
mod kept_words;
mod laws;
mod lines;
mod reordered;
mod replays;
mod rooms;
mod runs;
mod traces;
mod writing;

pub use book::Book;
pub use faults::{BookFault, LineFault, ReplayFault, StepFault, TraceFault};
pub use grants::GrantRef;
pub use laws::{fault_laws, run_laws, trace_laws};
pub use replays::{replay, replay_to};
pub use rooms::Room;
pub use runs::Position;
pub use traces::{read_front, read_trace};
pub use writing::write_trace;
