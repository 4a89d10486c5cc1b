//! Sequence charts of schedules, as SVG: who sent which message, who took it, and what that did.
#![tactic(auto)]

mod deeds;
mod figures;
mod grids;
mod laws;
mod lifelines;
mod notes;
mod sequences;
mod styles;

pub use deeds::Deed;
pub use laws::sequence_laws;
pub use lifelines::{Brief, Lifeline};
pub use notes::{
    EventRow, Flight, MOST_EVENTS_SHOWN, Notes, count_event_rows, note_event, note_events,
};
pub use sequences::{chart_events, draw_sequence};
