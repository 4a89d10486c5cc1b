//! Plans: what the interactions and classes of a model touch, and so which components have a row in
//! the table, which interactions are reserved, and which are in conflict.
#![tactic(auto)]

mod faults;
mod footprints;
mod laws;
mod plans;
mod reasons;
mod sets;
mod tables;

pub use faults::PlanFault;
pub use laws::plan_laws;
pub use plans::{Plan, first_touching_too_many};
