//! Interaction protocol nodes: what the node of a class asks for, and what it tells.
#![tactic(auto)]

mod asking;
mod laws;
mod nodes;
mod records;

pub use laws::{node_laws, notify_laws};
pub use nodes::{Answered, IpNode, OpenRecord, Tried, WhyNot};
