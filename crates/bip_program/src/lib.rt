//! The program's command line: which commands it has, with their options and their help, and what
//! words ask of them.
#![tactic(auto)]

mod asked;
mod helps;
mod programs;

pub use asked::{is_explained, is_set, number_asked, text_asked, texts_asked, wide_number_asked};
pub use programs::{Choices, program};
