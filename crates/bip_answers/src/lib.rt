//! What is answered about texts: the status and the two texts that a model's text has, or that and
//! a trace's.
#![tactic(auto)]

mod answers;
mod charted;
mod ended;
mod renderings;
mod selected;
mod views;
mod wording;

pub use answers::{
    Answer, FileText, PlanOrRefusal, Status, answer_check, answer_fault, complained, plan_text,
    said,
};
pub use charted::{MOST_ROWS, Shown, refuse_rows};
pub use renderings::{Rendering, answer_drawing, answer_rendering};
pub use selected::answer_part;
pub use views::View;
pub use wording::shown_word;
