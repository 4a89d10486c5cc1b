//! Component nodes: what a component offers, and what it does when it is notified.
#![tactic(auto)]

mod components;
mod laws;

pub use components::{Notified, SrComponent};
pub use laws::component_laws;
