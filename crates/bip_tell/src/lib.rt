//! What events of the world did, told in lines: the event, the answer of the node that it
//! addressed, and what that put into flight.
#![tactic(auto)]

mod answers;
mod hints;
mod lines;
mod messages;
mod reasons;
mod words;

pub use lines::{count_left, handed_on, tell_event, tell_first, write_lost};
pub use words::{write_asked, write_class, write_comp, write_inter, write_numbered, write_port};
