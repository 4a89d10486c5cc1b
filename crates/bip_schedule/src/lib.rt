//! Schedules: events as texts, and events drawn by chance.
#![tactic(auto)]

mod busy;
mod checking;
mod drawing;
mod exploring;
mod following;
mod known;
mod laws;
mod lines;
mod schedules;
mod seeding;
mod writing;

pub use busy::{EventKind, busy_event};
pub use checking::Checked;
pub use drawing::{Draw, Draws, event_of};
pub use exploring::{ExploreFault, explore, explore_seed};
pub use following::follow_schedule;
pub use laws::schedule_laws;
pub use schedules::{Schedule, read_schedule};
pub use seeding::seeded;
pub use writing::{have_spelling, write_event, write_schedule};
