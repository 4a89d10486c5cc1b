//! Held offers: what a class knows of the components that it touches, and the decision on it.
#![tactic(auto)]

mod because;
mod laws;
mod offers;
mod verdicts;

pub use because::reasons;
pub use laws::{offer_laws, verdict_laws};
pub use offers::{Offers, Receipt, are_ports};
pub use verdicts::{Verdict, decide, lacking_above};
