//! Tests of nodes as threads and of row words, by public calls alone.
#![tactic(auto)]

#[cfg(test)]
mod tests;
