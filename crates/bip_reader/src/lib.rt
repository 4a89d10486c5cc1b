//! The texts of models, read exactly: a text is a model with its classes, or it has a first fault.
#![tactic(auto)]

mod building;
mod faults;
mod laws;
mod reading;
mod statements;
mod texts;
mod writing;

pub use faults::{ReadFault, Why};
pub use laws::{line_laws, meaning_laws};
pub use texts::read_model;
pub use writing::{Speller, write_model};
