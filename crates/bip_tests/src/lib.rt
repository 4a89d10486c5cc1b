//! Tests of the libraries, by public calls alone; and a second bank, to test what asks for any.
#![tactic(auto)]

mod grants;
mod second;
#[cfg(test)]
mod tests;

pub use grants::are_grants_of;
pub use second::Second;
