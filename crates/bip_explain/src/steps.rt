//! Grants that can't be next.
ghost use Rattle.std.specs.Prelude.{◌≡◌, ℕ, true};
ghost use Rattle.bip_explain.specs.Explanations.{StaysClosed, is_open, with_parts};
ghost use Rattle.bip_explain.specs.Hindrances.{IsOfState, TellsHindrance};
ghost use Rattle.bip_explain.specs.Parties.{TellsParties};
ghost use Rattle.bip_explain.specs.Steps.{TellsStep, fault_parts, seed_parts};

use crate::Explanation;
use crate::grants::{WrongNumber, say_component, say_name, want_on};
use crate::hindrances::find_hindered;
use crate::parties::find_party;
use bip_model::{Model, Number, line_at};
use bip_replay::{BookFault, StepFault};
use std::alloc::Global;

/// Says why the grant of a line can't be next behind those of the lines before it: the participant
/// that offers no port, with where it is, or the comparison of the guard that doesn't hold; what is
/// enabled above; the number that is wrong; the component that is missing or too many; what has to
/// be seen, to show that an interaction above can't run (docs/ANSWERS.md, "Explanations"). Nothing
/// is said where none is wanted, or something is said already.
pub fn explain_step(
    alloc: Global,
    explanation: &mut Explanation,
    model: &Model,
    base: Number,
    text: &[u8],
    number: u64,
    fault: &BookFault,
)
    ensures closed { StaysClosed explanation.old explanation.new }
    ensures told { TellsStep model.now base text.now number fault.now
        explanation.old explanation.new }
{
    if !explanation.is_open() {
        return;
    }
    match fault {
        BookFault::NotEnabled => {
            explain_hindered(alloc, explanation, model, text, number, fault);
        }
        BookFault::Below(_above) => {
            explain_hindered(alloc, explanation, model, text, number, fault);
        }
        BookFault::Number(comp, expected) => {
            let wrong = WrongNumber {
                placed: want_on(model, line_at(text, number), *comp),
                comp: *comp,
                expected: *expected,
            };
            wrong.say(explanation, model, base);
        }
        BookFault::Parties => explain_parties(alloc, explanation, model, text, number),
        BookFault::Memory => explanation.say(b"the run takes more memory than there is"),
    }
}

// Says what keeps the grant of a line from being next in the state before the line.
fn explain_hindered(
    alloc: Global,
    explanation: &mut Explanation,
    model: &Model,
    text: &[u8],
    number: u64,
    fault: &BookFault,
)
    requires open { is_open explanation.old ≡ true }
    requires fault { IsOfState fault.now }
    ensures { (base : ℕ) → TellsHindrance model.now base text.now number fault.now
        explanation.old explanation.new }
{
    match find_hindered(alloc, model, text, number, fault) {
        Ok(Some(hindered)) => hindered.say(explanation, model),
        Ok(None) => {}
        Err(_) => explanation.say(b"no memory is left to say more"),
    }
}

// Says why the wants of a line's grant aren't enough in the state before the line.
fn explain_parties(
    alloc: Global,
    explanation: &mut Explanation,
    model: &Model,
    text: &[u8],
    number: u64,
)
    requires { is_open explanation.old ≡ true }
    ensures { (base : ℕ) → TellsParties model.now base text.now number
        explanation.old explanation.new }
{
    match find_party(alloc, model, text, number) {
        Ok(Some(reason)) => reason.say(explanation, model),
        Ok(None) => {}
        Err(_) => explanation.say(b"no memory is left to say more"),
    }
}

/// Says why the first grant that can't be next in the trace of an explored seed can't be next.
/// Nothing is said where none is wanted, or something is said already.
pub fn explain_seed(explanation: &mut Explanation, model: &Model, fault: &StepFault)
    ensures closed { StaysClosed explanation.old explanation.new }
    ensures told { is_open explanation.old ≡ true
        → explanation.new ≡ with_parts (seed_parts model.now fault.now) explanation.old }
{
    if explanation.is_open() {
        explanation.say(b"a grant of its trace can't be next: ");
        say_fault(explanation, model, fault);
    }
}

fn say_fault(explanation: &mut Explanation, model: &Model, fault: &StepFault)
    ensures { explanation.new ≡ with_parts (fault_parts model.now fault.now) explanation.old }
{
    match fault {
        StepFault::NotEnabled => explanation.say(b"it isn't enabled"),
        StepFault::Below(above) => {
            say_name(explanation, model.interaction_names(), above.0 as usize);
            explanation.say(b" stands above it, and is enabled");
        }
        StepFault::Number(comp, expected) => {
            say_component(explanation, model, *comp);
            explanation.say(b" should have number ");
            explanation.say_number(*expected);
        }
        StepFault::Parties => explanation.say(b"its parties are wrong"),
    }
}
