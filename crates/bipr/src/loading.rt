//! The texts that a command is asked to read: one, or a model's and another one.
ghost use Rattle.std.specs.Prelude.{◌≡◌, ℕ, Err, IfErr, IfOk, List, Ok};
ghost use Rattle.std.specs.Borrow.{Bor};
ghost use Rattle.bipr.specs.Loading.{AreTextsAt, GivesOther, are_joined, bytes_in};
ghost use Rattle.bipr.specs.Stops.{answer_of_stop, unread};
ghost use Rattle.bipr.specs.declared.inputs.InputFault.{InputFault};
ghost use Rattle.bipr.specs.declared.loading.Other.TheVariants.{At};

use crate::dividing::divide;
use crate::inputs::Inputs;
use crate::sources::is_standard_input;
use crate::stops::Stop;
use bip_explain::Explanation;
use bip_model::Seq;
use std::alloc::Global;

/// Where the text is that stands beside a model's: here, behind the model in one input, or where a
/// path says.
#[derive(Clone, Copy)]
pub enum Other<'t, 'p> {
    Here(&'t [u8]),
    At(&'p str),
}

/// That text, lent or read.
#[derive(Drop)]
pub enum Loaded<'t> {
    Lent(&'t [u8]),
    Read(Seq<u8>),
}

impl Loaded<'_> {
    pub fn as_slice(&self) -> &[u8]
        ensures { result.now ≡ bytes_in self.now }
    {
        match self {
            Loaded::Lent(text) => text,
            Loaded::Read(text) => text.as_slice(),
        }
    }
}

/// The text that a path names, or why it isn't read.
pub fn load<'p, I: Inputs>(
    alloc: Global,
    explanation: &mut Explanation,
    inputs: &I,
    path: &'p str,
) -> Result<Seq<u8>, Stop<'p>>
    ensures read { IfOk result (λ text. I.gives inputs.now path.now (Ok text)) }
    ensures unread { IfErr result (λ why. (fault : InputFault)
        × I.gives inputs.now path.now (Err fault)
        × (answer_of_stop why ≡ unread path.now fault)) }
{
    match inputs.read(alloc, explanation, path) {
        Ok(text) => Ok(text),
        Err(fault) => Err(Stop::unread(path, fault)),
    }
}

/// The model's text in what the first of two paths names, and where the other one is: where both
/// paths are standard input, that has both (docs/ANSWERS.md, "Two texts in one").
pub fn parts<'t, 'p>(text: &'t [u8], first: &str, second: &'p str) -> (&'t [u8], Other<'t, 'p>)
    ensures { AreTextsAt first.now second.now text.now result.0.now result.1 }
{
    if are_joined(first, second) {
        let (model, other) = divide(text);
        (model, Other::Here(other))
    } else {
        (text, Other::At(second))
    }
}

// Whether both texts are in standard input.
fn are_joined(first: &str, second: &str) -> bool
    ensures { result ≡ are_joined first.now second.now }
{
    is_standard_input(first) && is_standard_input(second)
}

impl<'t, 'p> Other<'t, 'p> {
    /// The text, which is read where a path names it, or why it isn't read.
    pub fn load<I: Inputs>(
        &self,
        alloc: Global,
        explanation: &mut Explanation,
        inputs: &I,
    ) -> Result<Loaded<'t>, Stop<'p>>
        ensures read { IfOk result (λ text.
            GivesOther (I.gives inputs.now) self.now (Ok (bytes_in text))) }
        ensures unread { IfErr result (λ why. (path : Bor (List ℕ)) × (fault : InputFault)
            × (self.now ≡ At path) × I.gives inputs.now path.now (Err fault)
            × (answer_of_stop why ≡ unread path.now fault)) }
    {
        match self {
            Other::Here(text) => Ok(Loaded::Lent(text)),
            Other::At(path) => Ok(Loaded::Read(load(alloc, explanation, inputs, path)?)),
        }
    }
}
