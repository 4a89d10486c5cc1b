//! The third layer's interface, and its central form: who grants requests.
#![tactic(auto)]

mod banks;
mod central;
mod decisions;
mod idleness;
mod laws;
mod opening;
mod queues;
mod steps;

pub use banks::{Acted, Bank, BankStep, StationId, interaction_at};
pub use bip_table::Decision;
pub use central::{Central, decide_first};
pub use decisions::reply_to;
pub use idleness::{WhyIdle, first_asked, is_asked_at};
pub use laws::bank_laws;
pub use opening::{first_table, no_requests, numbered};
pub use queues::{Queue, put_last};
pub use steps::{step_at, step_count};
