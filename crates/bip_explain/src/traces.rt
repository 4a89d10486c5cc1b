//! Faults of a trace's text.
ghost use Rattle.std.specs.Prelude.{◌≡◌, IfNone, IfSome, IsTrue, false, true, [], drop};
ghost use Rattle.std.specs.List.{list_any};
ghost use Rattle.bip_model.specs.Naming.{IsName, same_text};
ghost use Rattle.bip_model.specs.Texts.{words};
ghost use Rattle.bip_model.specs.declared.parts.System.{System};
ghost use Rattle.bip_replay.specs.declared.faults.TraceFault.{TraceFault};
ghost use Rattle.bip_replay.specs.declared.faults.TraceFault.TheVariants.{Syntax, Unknown};
ghost use Rattle.bip_explain.specs.Explanations.{Tells, with_parts};
ghost use Rattle.bip_model.specs.Texts.{line_at};
ghost use Rattle.bip_explain.specs.Traces.{IsTraceReasonOf, MayKeepTrace, are_apart, are_known};
ghost use Rattle.bip_explain.specs.Traces.{trace_parts};
ghost use Rattle.bip_explain.specs.Words.{HasNot};

use crate::Explanation;
use crate::expected::Expected;
use crate::forms::{FormReason, find_byte, find_word};
use crate::placed::{Placed, PlacedWords, words_of};
use crate::unknown::behind_first;
use crate::words::{named_in, want_of};
use arrayvec::ArrayVec;
use bip_model::{MOST_WANTS, Model, Name, Spelling, is_text, line_at};
use bip_replay::TraceFault;

/// Why a line of a trace says no grant of a model.
#[derive(Clone, Copy)]
pub(crate) enum TraceReason<'t> {
    Form(FormReason<'t>),
    /// A word that names a component which a word before names.
    Twice(Placed<'t>),
    /// A word that names one component too many.
    TooMany(Placed<'t>),
    /// A word that is no interaction's name.
    NoInteraction(Placed<'t>),
    /// A word that names a component which the model lacks.
    NoComponent(Placed<'t>, Name),
    NoMemory,
}

/// Says why a line of a trace says no grant of the model: the word that can't stand where it
/// stands, or the name that the model lacks, with its column (docs/ANSWERS.md, "Explanations").
/// Nothing is said where none is wanted, or something is said already.
pub fn explain_trace(
    explanation: &mut Explanation,
    model: &Model,
    text: &[u8],
    number: u64,
    fault: &TraceFault,
)
    ensures { let line = line_at text.now number in
        Tells (MayKeepTrace model.now line fault.now) (IsTraceReasonOf model.now line fault.now)
        trace_parts explanation.old explanation.new }
{
    if explanation.is_open() {
        if let Some(reason) = find_reason(model, line_at(text, number), fault) {
            reason.say(explanation);
        }
    }
}

impl TraceReason<'_> {
    fn say(&self, explanation: &mut Explanation)
        ensures { explanation.new ≡ with_parts (trace_parts self.now) explanation.old }
    {
        match self {
            TraceReason::Form(reason) => (*reason).say(explanation),
            TraceReason::Twice(placed) => {
                explanation.say_placed(*placed);
                explanation.say(b" names a component that stands here already");
            }
            TraceReason::TooMany(placed) => {
                explanation.say_placed(*placed);
                explanation.say(b" is one too many; a grant names at most 32 components");
            }
            TraceReason::NoInteraction(placed) => {
                explanation.say_column(placed.column);
                explanation.say(b"the model has no interaction ");
                explanation.say_word(placed.word);
            }
            TraceReason::NoComponent(placed, component) => {
                explanation.say_column(placed.column);
                explanation.say(b"the model has no component ");
                explanation.say_word(component.as_bytes());
            }
            TraceReason::NoMemory => explanation.say(b"the trace takes more memory than there is"),
        }
    }
}

fn find_reason<'t>(model: &Model, line: &'t [u8], fault: &TraceFault) -> Option<TraceReason<'t>>
    ensures some { IfSome result (IsTraceReasonOf model.now line.now fault.now) }
    ensures none { IfNone result (MayKeepTrace model.now line.now fault.now) }
{
    match fault {
        TraceFault::Syntax => find_form(line),
        TraceFault::Unknown => find_name(model, line),
        TraceFault::Memory => Some(TraceReason::NoMemory),
    }
}

fn find_form(line: &[u8]) -> Option<TraceReason<'_>>
    ensures some { (model : System) → IfSome result (IsTraceReasonOf model line.now Syntax) }
    ensures none { (model : System) → IfNone result (MayKeepTrace model line.now Syntax) }
{
    let Some(_words) = words_of(line) else {
        return Some(TraceReason::Form(find_byte(line)?));
    };
    match find_word(Spelling::Own, Expected::Grant, PlacedWords::of(line)) {
        Some(reason) => Some(TraceReason::Form(reason)),
        None => find_want(line),
    }
}

// The first component that stands twice, or is one more than a grant may name.
fn find_want(line: &[u8]) -> Option<TraceReason<'_>>
    ensures some { (model : System) → IfSome result (IsTraceReasonOf model line.now Syntax) }
    ensures none { IfNone result (are_apart [] (drop 1 (drop 1 (words line.now))) ≡ true) }
{
    let mut named: ArrayVec<&[u8], MOST_WANTS> = ArrayVec::new();
    for placed in behind_first(behind_first(PlacedWords::of(line))) {
        if let Some(component) = named_in(placed.word) {
            if is_among(component, named.as_slice()) {
                return Some(TraceReason::Twice(placed));
            }
            if MOST_WANTS <= named.len() {
                return Some(TraceReason::TooMany(placed));
            }
            named.push(component);
        }
    }
    None
}

fn is_among(name: &[u8], names: &[&[u8]]) -> bool
    ensures { result ≡ list_any (λ other. same_text name.now other.now) names.now }
{
    names.iter().any(|other| is_text(name, other))
}

// The interaction that the model lacks, or else the first component.
fn find_name<'t>(model: &Model, line: &'t [u8]) -> Option<TraceReason<'t>>
    ensures some { IfSome result (IsTraceReasonOf model.now line.now Unknown) }
    ensures none { IfNone result (MayKeepTrace model.now line.now Unknown) }
{
    let mut words = behind_first(PlacedWords::of(line));
    if let Some(inter) = words.next() {
        if is_missing(model, inter.word) {
            return Some(TraceReason::NoInteraction(inter));
        }
    }
    find_component(model, words)
}

// The first component that the model lacks, of the words that are left.
fn find_component<'t>(model: &Model, left: PlacedWords<'t>) -> Option<TraceReason<'t>>
    ensures some { IfSome result (IsTraceReasonOf model.now left.entry.line.now Unknown) }
    ensures none { IfNone result
        (are_known model.now.component_names (words left.entry.rest.now) ≡ true) }
{
    for placed in left {
        if let Some((component, _number)) = want_of(placed.word) {
            if model.component(&component).is_none() {
                return Some(TraceReason::NoComponent(placed, component));
            }
        }
    }
    None
}

// Whether a word is a name that no interaction of the model has.
fn is_missing(model: &Model, word: &[u8]) -> bool
    ensures named { IsTrue result → IsName word.now }
    ensures missing { IsTrue result → HasNot model.now.interaction_names word.now }
    ensures found { result ≡ false → IsName word.now
        → ¬ HasNot model.now.interaction_names word.now }
{
    match Name::of(word) {
        Some(name) => model.interaction(&name).is_none(),
        None => false,
    }
}
