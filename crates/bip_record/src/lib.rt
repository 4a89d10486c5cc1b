//! Recording: what the nodes of a host did, as a schedule that does it again.
#![tactic(auto)]

mod merging;
mod ordering;
mod recorder;
mod records;
mod standings;

pub use ordering::order_acts;
pub use recorder::{RecordFault, Recorder};
pub use records::record_of;
