//! Models that have no plan.
ghost use Rattle.std.specs.Prelude.{◌≡◌, ◌<◌, List, length, true};
ghost use Rattle.bip_explain.specs.Explanations.{StaysClosed, is_open, with_parts};
ghost use Rattle.bip_explain.specs.Plans.{plan_parts};
ghost use Rattle.bip_model.specs.Steps.{IsListLookedAt, participants_of};
ghost use Rattle.bip_model.specs.declared.numbering.CompId.{CompId};

use crate::Explanation;
use bip_model::{InterId, MOST_WANTS, Model};

/// Says how many components an interaction touches that touches too many (docs/ANSWERS.md,
/// "Explanations"). Nothing is said where none is wanted, or something is said already.
pub fn explain_plan(explanation: &mut Explanation, model: &Model, inter: InterId)
    ensures closed { StaysClosed explanation.old explanation.new }
    ensures told { is_open explanation.old ≡ true → inter.0 < length model.now.interactions
        → (looks : List CompId) × IsListLookedAt model.now inter.0 looks
        × (explanation.new ≡ with_parts
        (plan_parts (length (participants_of model.now inter.0)) (length looks))
        explanation.old) }
{
    if !explanation.is_open() || model.interactions().len() <= inter.0 as usize {
        return;
    }
    explanation.say(b"components that it moves: ");
    explanation.say_number(model.participants(inter).len() as u64);
    explanation.say(b", and looks at for those above it: ");
    explanation.say_number(model.looks(inter).len() as u64);
    explanation.say(b"; in all it can touch ");
    explanation.say_number(MOST_WANTS as u64);
}
