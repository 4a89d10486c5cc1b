//! Why a text is refused, or a trace is no run, told to who wrote it: the word at fault with its
//! column, and what is wrong with it.
#![tactic(auto)]

mod declarations;
mod ends;
mod expected;
mod explanations;
mod forms;
mod grants;
mod hindrances;
mod hints;
mod keywords;
mod later;
mod limits;
mod marks;
mod models;
mod parties;
mod placed;
mod plans;
mod schedules;
mod scopes;
mod steps;
mod traces;
mod twice;
mod unknown;
mod words;

pub use explanations::{Explanation, MOST_BYTES};
pub use models::explain_model;
pub use plans::explain_plan;
pub use schedules::explain_schedule;
pub use steps::{explain_seed, explain_step};
pub use traces::explain_trace;
