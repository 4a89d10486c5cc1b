//! Pictures: of models in the language of Graphviz, of runs as SVG; and where runs lead, as text.
#![tactic(auto)]

mod charts;
mod clauses;
mod drawing;
mod ends;
mod escaping;
mod feet;
mod hues;
mod laws;
mod layout;
mod locals;
mod lookups;
mod selections;
mod shapes;
mod tallies;

pub use charts::{Chart, ChartFault, Excerpt};
pub use drawing::draw_model;
pub use ends::{write_end, write_runnable};
pub use feet::Foot;
pub use laws::picture_laws;
pub use selections::{Selection, draw_part};
pub use tallies::write_tally;
