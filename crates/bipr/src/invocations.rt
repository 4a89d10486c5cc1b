//! One call of the program: what it asks of the system, and where it writes.
use crate::hosting::Hosting;
use bip_explain::Explanation;
use std::alloc::Global;

/// One call of the program: the runtime and the memory that it has, what reads the texts that paths
/// name, what runs nodes as threads and makes files; the file that was made, if one was; what is
/// explained of a fault; and where answers and complaints are written. All that carries it out is
/// proved for any of these: contracts see what the inputs and the hosting give, and what was put on
/// the two streams (docs/ANSWERS.md, "Endings").
#[derive(Drop)]
pub struct Invocation<'a, R, I, H: Hosting, O, E> {
    pub rt: &'a R,
    pub alloc: Global,
    pub inputs: &'a I,
    pub hosting: &'a H,
    pub record: Option<H::Record>,
    pub explanation: Explanation,
    pub output: O,
    pub errors: E,
}
