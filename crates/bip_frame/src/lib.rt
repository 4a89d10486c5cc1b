//! Frames: messages as bytes that are read in place. Each message has one spelling, and each fault
//! of other bytes is the first one from the left (docs/FRAMES.md).
#![tactic(auto)]

mod entries;
mod faults;
mod fields;
mod frames;
mod laws;
mod lent;
mod reading;
mod reasons;
mod views;
mod writing;

pub use faults::FrameFault;
pub use frames::{EntryPart, Frame, NotifyFrame, OfferFrame, ReplyFrame, ReserveFrame};
pub use laws::frame_laws;
pub use reading::read;
pub use writing::{write_notify, write_offer, write_reply, write_reserve};
