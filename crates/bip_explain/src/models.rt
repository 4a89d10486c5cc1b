//! Faults of a model's text.
ghost use Rattle.std.specs.Prelude.{◌≡◌, IfErr, IfNone, IfOk, IfSome, IsTrue};
ghost use Rattle.bip_reader.specs.declared.faults.Why.{Why};
ghost use Rattle.bip_reader.specs.declared.faults.Why.TheVariants.{Syntax};
ghost use Rattle.bip_explain.specs.Explanations.{Tells, with_parts};
ghost use Rattle.bip_explain.specs.Models.{IsModelReason, IsOfWhy, IsReasonOf, MayLackReason};
ghost use Rattle.bip_explain.specs.Models.{HasForm, keyword_parts, model_parts, standing_parts};
ghost use Rattle.bip_explain.specs.Models.{takes_memory};

use crate::Explanation;
use crate::ends::{EndReason, find_cycle, find_missing, find_unparted};
use crate::forms::{FormReason, find_byte, find_word};
use crate::hints::hint_of_first;
use crate::keywords::{behind_keyword, spelling_behind};
use crate::limits::{LimitReason, find_limit};
use crate::placed::{Placed, words_of};
use crate::scopes::{Standing, standing_at};
use crate::twice::{TwiceReason, find_transition, find_twice};
use crate::unknown::{UnknownReason, find_unknown};
use bip_model::line_at;
use bip_reader::{ReadFault, Why};
use std::alloc::{AllocError, Global};

/// Why a text is no model.
#[derive(Drop)]
pub(crate) enum ModelReason<'t> {
    Form(FormReason<'t>),
    /// A first word that can't begin a line which stands so.
    Keyword(Placed<'t>, Standing<'t>),
    Unknown(UnknownReason<'t>),
    Twice(TwiceReason<'t>),
    Limit(LimitReason<'t>),
    End(EndReason<'t>),
    /// The model takes more memory than there is.
    NoMemory,
    /// No memory is left to look for a reason.
    NoMemoryToTell,
    /// None is found.
    Unexplained,
}

/// Says why the text of a model has its first fault: the word of the line that is at fault, with
/// its column, and what is wrong with it; or what the text lacks as a whole (docs/ANSWERS.md,
/// "Explanations"). Nothing is said where none is wanted, or something is said already.
pub fn explain_model(alloc: Global, explanation: &mut Explanation, text: &[u8], fault: &ReadFault)
    ensures { Tells ⊥ (IsReasonOf text.now fault.now) model_parts explanation.old explanation.new }
{
    if explanation.is_open() {
        match find_reason(alloc, text, fault) {
            Ok(Some(reason)) => reason.say(explanation),
            Ok(None) => ModelReason::Unexplained.say(explanation),
            Err(_) => ModelReason::NoMemoryToTell.say(explanation),
        }
    }
}

impl ModelReason<'_> {
    fn say(&self, explanation: &mut Explanation)
        ensures { explanation.new ≡ with_parts (model_parts self.now) explanation.old }
    {
        match self {
            ModelReason::Form(reason) => (*reason).say(explanation),
            ModelReason::Keyword(placed, standing) => say_keyword(explanation, *placed, *standing),
            ModelReason::Unknown(reason) => reason.say(explanation),
            ModelReason::Twice(reason) => (*reason).say(explanation),
            ModelReason::Limit(reason) => (*reason).say(explanation),
            ModelReason::End(reason) => reason.say(explanation),
            ModelReason::NoMemory => {
                explanation.say(b"the model takes more memory than there is");
            }
            ModelReason::NoMemoryToTell => explanation.say(b"no memory is left to say more"),
            ModelReason::Unexplained => explanation.say(b"no reason is found"),
        }
    }
}

// Says which words can begin the line, and what the first word shows.
fn say_keyword(explanation: &mut Explanation, first: Placed<'_>, standing: Standing<'_>)
    ensures { explanation.new
        ≡ with_parts (keyword_parts first.entry standing.entry) explanation.old }
{
    explanation.say_placed(first);
    say_standing(explanation, standing);
    hint_of_first(first.word).say(explanation);
}

fn say_standing(explanation: &mut Explanation, standing: Standing<'_>)
    ensures { explanation.new ≡ with_parts (standing_parts standing.entry) explanation.old }
{
    match standing {
        Standing::First => {
            explanation.say(b" stands where `bip 1` is wanted, the first line of a model");
        }
        Standing::Outside => {
            explanation.say(b" can't begin a line outside a component; ");
            explanation.say(b"component, interaction, priority and class can");
        }
        Standing::Inside(component) => {
            explanation.say(b" can't begin a line inside component ");
            explanation.say_word(component);
            explanation.say(b"; var, loc, port, trans and end can");
        }
    }
}

fn find_reason<'t>(
    alloc: Global,
    text: &'t [u8],
    fault: &ReadFault,
) -> Result<Option<ModelReason<'t>>, AllocError>
    ensures some { IfOk result (λ found. IfSome found (IsModelReason text.now fault.now)) }
    ensures kind { IfOk result (λ found. IfSome found (IsOfWhy fault.now.why)) }
    ensures memory { IfErr result (λ error. IsTrue (takes_memory fault.now.why)) }
    ensures none { IfOk result (λ found. IfNone found
        (MayLackReason text.now fault.now.line fault.now.why)) }
{
    let number = fault.line;
    let line = line_at(text, number);
    match fault.why {
        Why::Syntax => Ok(find_form(text, number)),
        Why::Unknown => match find_unknown(alloc, text, number) {
            Ok(Some(reason)) => Ok(Some(ModelReason::Unknown(reason))),
            Ok(None) => Ok(None),
            Err(error) => Err(error),
        },
        Why::Twice => Ok(find_twice(alloc, text, number)?.map(ModelReason::Twice)),
        Why::TooMany => Ok(find_limit(text, number).map(ModelReason::Limit)),
        Why::Missing => match find_missing(text, number) {
            Some(reason) => Ok(Some(ModelReason::End(reason))),
            None => Ok(None),
        },
        Why::TwoTransitions => Ok(find_transition(text, number, line).map(ModelReason::Twice)),
        Why::PriorityCycle => match find_cycle(alloc, text, number) {
            Ok(Some(reason)) => Ok(Some(ModelReason::End(reason))),
            Ok(None) => Ok(None),
            Err(error) => Err(error),
        },
        Why::NotAPartition => match find_unparted(alloc, text, number) {
            Ok(Some(reason)) => Ok(Some(ModelReason::End(reason))),
            Ok(None) => Ok(None),
            Err(error) => Err(error),
        },
        Why::Memory => Ok(Some(ModelReason::NoMemory)),
    }
}

fn find_form(text: &[u8], number: u64) -> Option<ModelReason<'_>>
    ensures is { (why : Why) → IfSome result
        (IsModelReason text.now (record { line = number; why = why })) }
    ensures kind { IfSome result (IsOfWhy Syntax) }
    ensures none { IfNone result (HasForm text.now number) }
{
    let line = line_at(text, number);
    let standing = standing_at(text, number);
    let Some((first, rest)) = words_of(line) else {
        return Some(ModelReason::Form(find_byte(line)?));
    };
    match behind_keyword(standing, first.word) {
        None => Some(ModelReason::Keyword(first, standing)),
        Some(start) => {
            let spelling = spelling_behind(first.word);
            Some(ModelReason::Form(find_word(spelling, start, rest)?))
        }
    }
}
