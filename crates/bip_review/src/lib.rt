//! Plans as people review them: why each component has a row in the table, through which one an
//! interaction is reserved, and a text and a drawing that say so, and which stations are in
//! conflict.
#![tactic(auto)]

mod drawing;
mod reasons;
mod writing;

pub use drawing::draw_plan;
pub use reasons::{RowReason, cause_of_look, reserving, row_reason};
pub use writing::write_plan;
