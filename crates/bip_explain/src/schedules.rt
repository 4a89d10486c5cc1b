//! Faults of a schedule's text.
ghost use Rattle.std.specs.Prelude.{◌≡◌, ◌∷◌, [], ℕ, All, List, IfNone, IfSome, IsTrue, codes};
ghost use Rattle.std.specs.Prelude.{is_some, position};
ghost use Rattle.bip_model.specs.Naming.{IsName, same_text};
ghost use Rattle.bip_model.specs.Texts.{words};
ghost use Rattle.bip_replay.specs.declared.faults.TraceFault.TheVariants.{Syntax, Unknown};
ghost use Rattle.bip_partition.specs.Plans.{Planned};
ghost use Rattle.bip_explain.specs.Explanations.{Tells, with_parts};
ghost use Rattle.bip_model.specs.Texts.{line_at};
ghost use Rattle.bip_explain.specs.Placed.{IsBehind, IsPlacedOn, said_words};
ghost use Rattle.bip_explain.specs.Schedules.{AreNamesKnown, AreTried, HasStation};
ghost use Rattle.bip_explain.specs.Schedules.{IsScheduleReasonOf, MayLackEvent};
ghost use Rattle.bip_explain.specs.Schedules.{behind_verb, if_class, if_interaction};
ghost use Rattle.bip_explain.specs.Schedules.{name_station};
ghost use Rattle.bip_explain.specs.Schedules.{schedule_parts, verbs_or_first};

use crate::Explanation;
use crate::expected::Expected;
use crate::forms::{FormReason, find_byte, find_word};
use crate::hints::first_hint;
use crate::placed::{Placed, PlacedWords, words_of};
use bip_model::{Name, Spelling, is_text, line_at};
use bip_partition::Plan;
use bip_replay::TraceFault;

/// Why a line of a schedule says no event of a plan.
#[derive(Clone, Copy)]
pub(crate) enum ScheduleReason<'t> {
    Form(FormReason<'t>),
    /// A first word that can't begin a line.
    Keyword(Placed<'t>),
    /// A word that is no class's name, and whether it is an interaction's.
    NoClass(Placed<'t>, bool),
    /// A word that is no interaction's name, and whether it is a class's.
    NoInteraction(Placed<'t>, bool),
    /// An interaction that its class alone grants.
    NoStation(Placed<'t>),
    NoMemory,
    /// None is found.
    Unexplained,
}

/// Says why a line of a schedule says no event of the plan: the word that can't stand where it
/// stands, or the name that no class, interaction or station has, with its column (docs/ANSWERS.md,
/// "Explanations"). Nothing is said where none is wanted, or something is said already.
pub fn explain_schedule(
    explanation: &mut Explanation,
    plan: &Plan,
    text: &[u8],
    number: u64,
    fault: &TraceFault,
)
    ensures { let line = line_at text.now number in
        Tells ⊥ (IsScheduleReasonOf plan.now line fault.now) schedule_parts
        explanation.old explanation.new }
{
    if explanation.is_open() {
        match find_reason(plan, line_at(text, number), fault) {
            Some(reason) => reason.say(explanation),
            None => ScheduleReason::Unexplained.say(explanation),
        }
    }
}

impl ScheduleReason<'_> {
    fn say(self, explanation: &mut Explanation)
        ensures { explanation.new ≡ with_parts (schedule_parts self.entry) explanation.old }
    {
        match self {
            ScheduleReason::Form(reason) => reason.say(explanation),
            ScheduleReason::Keyword(placed) => {
                explanation.say_placed(placed);
                explanation.say(b" can't begin a line");
                explanation.say(verbs_or_first(placed.word));
            }
            ScheduleReason::NoClass(placed, is_interaction) => {
                explanation.say_placed(placed);
                explanation.say(b" is no class of the model");
                explanation.say(if_interaction(is_interaction));
            }
            ScheduleReason::NoInteraction(placed, is_class) => {
                explanation.say_placed(placed);
                explanation.say(b" is no interaction of the model");
                explanation.say(if_class(is_class));
            }
            ScheduleReason::NoStation(placed) => {
                explanation.say_placed(placed);
                explanation.say(b" is granted by its class alone, and has no station");
            }
            ScheduleReason::NoMemory => {
                explanation.say(b"the schedule takes more memory than there is");
            }
            ScheduleReason::Unexplained => explanation.say(b"no reason is found"),
        }
    }
}

// What a first word shows; of another one, what can begin a line.
fn verbs_or_first(word: &[u8]) -> &'static [u8]
    ensures { result.now ≡ verbs_or_first word.now }
{
    match first_hint(word) {
        Some(text) => text,
        None => b"; mail, try, serve, deliver, pass and ask can",
    }
}

fn if_interaction(is_interaction: bool) -> &'static [u8]
    ensures { result.now ≡ if_interaction is_interaction }
{
    if is_interaction {
        b", but an interaction of that name"
    } else {
        b""
    }
}

fn if_class(is_class: bool) -> &'static [u8]
    ensures { result.now ≡ if_class is_class }
{
    if is_class {
        b", but a class of that name"
    } else {
        b""
    }
}

fn find_reason<'t>(plan: &Plan, line: &'t [u8], fault: &TraceFault) -> Option<ScheduleReason<'t>>
    ensures some { IfSome result (IsScheduleReasonOf plan.now line.now fault.now) }
    ensures none { IfNone result (MayLackEvent plan.now line.now fault.now) }
{
    match fault {
        TraceFault::Syntax => find_form(line),
        TraceFault::Unknown => find_name(plan, line),
        TraceFault::Memory => Some(ScheduleReason::NoMemory),
    }
}

fn find_form(line: &[u8]) -> Option<ScheduleReason<'_>>
    ensures some { (plan : Planned) → IfSome result (IsScheduleReasonOf plan line.now Syntax) }
    ensures none { (plan : Planned) → IfNone result (MayLackEvent plan line.now Syntax) }
{
    let Some((first, rest)) = words_of(line) else {
        return Some(ScheduleReason::Form(find_byte(line)?));
    };
    match behind_verb(first.word) {
        Some(start) => Some(ScheduleReason::Form(find_word(Spelling::Own, start, rest)?)),
        None => Some(ScheduleReason::Keyword(first)),
    }
}

fn behind_verb(verb: &[u8]) -> Option<Expected>
    ensures { result ≡ behind_verb verb.now }
{
    if is_text(verb, b"mail") || is_text(verb, b"deliver") {
        Some(Expected::FlightPlace)
    } else if is_text(verb, b"try") {
        Some(Expected::Class)
    } else if is_text(verb, b"serve") {
        Some(Expected::LastStation)
    } else if is_text(verb, b"pass") || is_text(verb, b"ask") {
        Some(Expected::FirstStation)
    } else {
        None
    }
}

// The first name of a line that is none of those that its verb wants.
fn find_name<'t>(plan: &Plan, line: &'t [u8]) -> Option<ScheduleReason<'t>>
    ensures some { IfSome result (IsScheduleReasonOf plan.now line.now Unknown) }
    ensures none { IfNone result (AreNamesKnown plan.now (said_words line.now)) }
{
    let (verb, words) = words_of(line)?;
    if is_text(verb.word, b"try") {
        find_tried(plan, words)
    } else {
        find_station(plan, words)
    }
}

fn find_tried<'t>(plan: &Plan, left: PlacedWords<'t>) -> Option<ScheduleReason<'t>>
    requires { IsBehind (codes "try" ∷ []) left.line.now left.rest.now }
    ensures some { IfSome result (IsScheduleReasonOf plan.now left.entry.line.now Unknown) }
    ensures none { IfNone result (AreTried plan.now (words left.entry.rest.now)) }
{
    let mut words = left;
    let class = words.next()?;
    let name = Name::of(class.word)?;
    if !is_class(plan, &name) {
        return Some(ScheduleReason::NoClass(class, is_interaction(plan, &name)));
    }
    let inter = words.next()?;
    let name = Name::of(inter.word)?;
    if !is_interaction(plan, &name) {
        return Some(ScheduleReason::NoInteraction(inter, is_class(plan, &name)));
    }
    None
}

fn is_class(plan: &Plan, name: &Name) -> bool
    ensures { result ≡ is_some (position (same_text name.now) plan.now.classes.names) }
{
    plan.classes().number(name).is_some()
}

fn is_interaction(plan: &Plan, name: &Name) -> bool
    ensures { result ≡ is_some (position (same_text name.now) plan.now.model.interaction_names) }
{
    plan.model().interaction(name).is_some()
}

fn find_station<'t>(plan: &Plan, left: PlacedWords<'t>) -> Option<ScheduleReason<'t>>
    requires { (front : List (List ℕ)) × IsTrue (name_station front)
        × IsBehind front left.line.now left.rest.now }
    ensures some { IfSome result (IsScheduleReasonOf plan.now left.entry.line.now Unknown) }
    ensures none { IfNone result
        (All (λ word. IsName word → HasStation plan.now word) (words left.entry.rest.now)) }
{
    for placed in left {
        if let Some(reason) = reason_of_station(plan, placed) {
            return Some(reason);
        }
    }
    None
}

// Why a word names no station.
fn reason_of_station<'t>(plan: &Plan, placed: Placed<'t>) -> Option<ScheduleReason<'t>>
    ensures some { (line : List ℕ)
        → ((at : IsPlacedOn line placed.entry) × IsTrue (name_station at.front))
        → IfSome result (IsScheduleReasonOf plan.now line Unknown) }
    ensures none { IfNone result
        (IsName placed.entry.word.now → HasStation plan.now placed.entry.word.now) }
{
    let name = Name::of(placed.word)?;
    match plan.model().interaction(&name) {
        None => Some(ScheduleReason::NoInteraction(placed, is_class(plan, &name))),
        Some(inter) if plan.reserved(inter) => None,
        Some(_) => Some(ScheduleReason::NoStation(placed)),
    }
}
