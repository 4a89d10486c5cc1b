//! Names of a model's text that are there already.
ghost use Rattle.std.specs.Prelude.{◌≡◌, ◌<◌, ◌∷◌, ℕ, List, [], IfNone, IfOk, IfSome, IsTrue};
ghost use Rattle.std.specs.Prelude.{Some, codes, false};
ghost use Rattle.std.specs.Fmt.{decimal};
ghost use Rattle.bip_explain.specs.Explanations.{with_parts};
ghost use Rattle.bip_model.specs.Texts.{line_at};
ghost use Rattle.bip_explain.specs.Placed.{IsBehindTwo, first_four, first_three};
ghost use Rattle.bip_explain.specs.Placed.{said_words};
ghost use Rattle.bip_explain.specs.Twice.{IsDeclaration, IsPartyAgain, IsPartyBefore};
ghost use Rattle.bip_explain.specs.Twice.{IsSameTransition, IsTargetBefore, IsTwiceReason};
ghost use Rattle.bip_explain.specs.Twice.{AreUnsaid, IsFirstDeclared, NoSameTransition};
ghost use Rattle.bip_explain.specs.Twice.{declares_outer};
ghost use Rattle.bip_explain.specs.Twice.{leave_same, say_same, twice_parts, why_of_twice};
ghost use Rattle.bip_reader.specs.declared.faults.Why.TheVariants.{Twice, TwoTransitions};

use crate::Explanation;
use crate::declarations::{Declared, begins_component, declares_inner, inner_line_with, line_with};
use crate::limits::begins_list;
use crate::placed::{Placed, PlacedWords, four_words, three_words, words_of};
use crate::words::pair_of;
use bip_model::{
    MOST_COMPONENTS, MOST_VALUES, MOST_VARIABLES, Name, NumberedLines, is_text, line_at,
};
use std::alloc::{AllocError, Global};

/// What a line names twice.
#[derive(Clone, Copy)]
pub(crate) enum TwiceReason<'t> {
    /// A word that the line with this number declares.
    Declared(Placed<'t>, u64),
    /// The line with this number puts the same interactions above one another.
    Said(u64),
    /// A transition on the line with this number leaves the location with the port.
    Leaves(u64),
    /// A component that takes part already.
    Party(Placed<'t>),
    /// A variable that is a target already.
    Target(Placed<'t>),
}

impl TwiceReason<'_> {
    /// Says what is named twice, and where it stands.
    pub(crate) fn say(self, explanation: &mut Explanation)
        ensures { explanation.new ≡ with_parts (twice_parts self.entry) explanation.old }
    {
        match self {
            TwiceReason::Declared(placed, line) => {
                explanation.say_column(placed.column);
                say_line(explanation, line);
                explanation.say(b" declares ");
                explanation.say_word(placed.word);
                explanation.say(b" already");
            }
            TwiceReason::Said(line) => {
                say_line(explanation, line);
                explanation.say(b" says this already");
            }
            TwiceReason::Leaves(line) => {
                say_line(explanation, line);
                explanation.say(b" has a transition with this port from this location already");
            }
            TwiceReason::Party(placed) => {
                explanation.say_placed(placed);
                explanation.say(b" names a component that takes part already");
            }
            TwiceReason::Target(placed) => {
                explanation.say_placed(placed);
                explanation.say(b" is a target already");
            }
        }
    }
}

fn say_line(explanation: &mut Explanation, line: u64)
    ensures { explanation.new
        ≡ with_parts (codes "line " ∷ decimal line ∷ []) explanation.old }
{
    explanation.say(b"line ");
    explanation.say_number(line);
}

/// What a line names twice: the first such word from the left.
pub(crate) fn find_twice(
    alloc: Global,
    text: &[u8],
    number: u64,
) -> Result<Option<TwiceReason<'_>>, AllocError>
    ensures is { IfOk result (λ found.
        IfSome found (IsTwiceReason text.now number (line_at text.now number))) }
    ensures kind { IfOk result (λ found. IfSome found (λ reason. why_of_twice reason ≡ Twice)) }
    ensures none { IfOk result (λ found. IfNone found
        (AreUnsaid text.now number (said_words (line_at text.now number)))) }
{
    let line = line_at(text, number);
    let Some((keyword, words)) = words_of(line) else {
        return Ok(None);
    };
    if let Some(reason) = find_said(text, number, line) {
        return Ok(Some(reason));
    }
    let mut words = words;
    let Some(named) = words.next() else {
        return Ok(None);
    };
    if let Some(declared) = line_of_name(text, number, keyword.word, named.word) {
        return Ok(Some(TwiceReason::Declared(named, declared)));
    }
    let declared = Declared::before(alloc, text, number)?;
    Ok(find_repeated(&declared, words))
}

// The line before that declares the name which a line with this keyword declares.
fn line_of_name(text: &[u8], number: u64, keyword: &[u8], name: &[u8]) -> Option<u64>
    ensures some { IfSome result (λ n.
        (n < number) × IsDeclaration text.now number keyword.now n name.now) }
    ensures none { IfNone result (IsFirstDeclared text.now number keyword.now name.now) }
{
    if declares_inner(keyword) {
        inner_line_with(text, number, name)
    } else if declares_outer(keyword) {
        line_with(text, number, keyword, name)
    } else {
        None
    }
}

fn declares_outer(keyword: &[u8]) -> bool
    ensures { result ≡ declares_outer keyword.now }
{
    is_text(keyword, b"component") || is_text(keyword, b"interaction") || is_text(keyword, b"class")
}

// The line before that puts the same interactions above one another.
fn find_said<'t>(text: &'t [u8], number: u64, line: &[u8]) -> Option<TwiceReason<'t>>
    ensures is { IfSome result (IsTwiceReason text.now number line.now) }
    ensures kind { IfSome result (λ reason. why_of_twice reason ≡ Twice) }
    ensures none { IfNone result ((n : ℕ) → n < number
        → say_same (said_words line.now) (said_words (line_at text.now n)) ≡ false) }
{
    // The line may be long, so its words are cut once.
    let said = four_words(line)?;
    if !is_text(said.0, b"priority") {
        return None;
    }
    for (other, bytes) in NumberedLines::of(text) {
        if number <= other {
            return None;
        }
        if say_same(line, said, bytes) {
            return Some(TwiceReason::Said(other));
        }
    }
    None
}

// Whether a line, whose first four words these are, begins with the same ones as another line.
fn say_same(_line: &[u8], said: (&[u8], &[u8], &[u8], &[u8]), other: &[u8]) -> bool
    requires { first_four (said_words _line.now)
        ≡ Some (said.0.now, said.1.now, said.2.now, said.3.now) }
    ensures { result ≡ say_same (said_words _line.now) (said_words other.now) }
{
    match four_words(other) {
        Some((e, f, g, h)) => {
            is_text(said.0, b"priority")
                && is_text(said.0, e)
                && is_text(said.1, f)
                && is_text(said.2, g)
                && is_text(said.3, h)
        }
        None => false,
    }
}

// Whether a line, whose first three words these are, begins with the same ones as another line.
fn leave_same(_line: &[u8], left: (&[u8], &[u8], &[u8]), other: &[u8]) -> bool
    requires { first_three (said_words _line.now) ≡ Some (left.0.now, left.1.now, left.2.now) }
    ensures { result ≡ leave_same (said_words _line.now) (said_words other.now) }
{
    match three_words(other) {
        Some((d, e, f)) => {
            is_text(left.0, b"trans")
                && is_text(left.0, d)
                && is_text(left.1, e)
                && is_text(left.2, f)
        }
        None => false,
    }
}

// The first component that takes part twice, or else the first target that stands twice.
fn find_repeated<'t>(declared: &Declared, words: PlacedWords<'t>) -> Option<TwiceReason<'t>>
    requires { IsBehindTwo words.line.now words.rest.now }
    ensures is { (text : List ℕ) → (number : ℕ)
        → IfSome result (IsTwiceReason text number words.entry.line.now) }
    ensures kind { IfSome result (λ reason. why_of_twice reason ≡ Twice) }
{
    let line = words.line;
    match find_party_again(declared, words) {
        Some(reason) => Some(reason),
        None => find_target_again(declared, line),
    }
}

// The first component that takes part twice.
fn find_party_again<'t>(declared: &Declared, words: PlacedWords<'t>) -> Option<TwiceReason<'t>>
    requires { IsBehindTwo words.line.now words.rest.now }
    ensures is { (text : List ℕ) → (number : ℕ)
        → IfSome result (IsTwiceReason text number words.entry.line.now) }
    ensures kind { IfSome result (λ reason. why_of_twice reason ≡ Twice) }
{
    let line = words.line;
    let mut seen = [false; MOST_COMPONENTS];
    for placed in words {
        if begins_list(placed.word) {
            return None;
        }
        let is_again = is_seen(&mut seen, component_place(declared, placed.word));
        if is_again && is_party_again(line, placed) {
            return Some(TwiceReason::Party(placed));
        }
    }
    None
}

// The first target that stands twice.
fn find_target_again<'t>(declared: &Declared, line: &'t [u8]) -> Option<TwiceReason<'t>>
    ensures is { (text : List ℕ) → (number : ℕ)
        → IfSome result (IsTwiceReason text number line.now) }
    ensures kind { IfSome result (λ reason. why_of_twice reason ≡ Twice) }
{
    let mut seen = [false; MOST_VARIABLES];
    let mut before: Option<Placed<'_>> = None;
    for placed in PlacedWords::of(line) {
        if is_text(placed.word, b":=") {
            if let Some(target) = before {
                let is_again = is_seen(&mut seen, variable_place(declared, target.word));
                if is_again && is_target_before(line, target) {
                    return Some(TwiceReason::Target(target));
                }
            }
        }
        before = Some(placed);
    }
    None
}

// Whether a word of a line in front of one names the same component.
fn is_party_again(line: &[u8], placed: Placed<'_>) -> bool
    ensures { IsTrue result → IsPartyAgain line.now placed.entry }
{
    match pair_of(placed.word) {
        None => false,
        Some((component, _port)) => is_party_before(line, placed.column, &component),
    }
}

// Whether a word of a line in front of a column names a component.
fn is_party_before(line: &[u8], column: usize, component: &Name) -> bool
    ensures { IsTrue result → IsPartyBefore line.now column component.now }
{
    for before in PlacedWords::of(line) {
        if column <= before.column {
            return false;
        }
        if let Some((other, _port)) = pair_of(before.word) {
            if other == *component {
                return true;
            }
        }
    }
    false
}

// Whether a target of a line in front of one is the same.
fn is_target_before(line: &[u8], target: Placed<'_>) -> bool
    ensures { IsTrue result → IsTargetBefore line.now target.entry }
{
    let mut before: Option<Placed<'_>> = None;
    for placed in PlacedWords::of(line) {
        if is_text(placed.word, b":=") {
            if let Some(other) = before {
                if other.column < target.column && is_text(other.word, target.word) {
                    return true;
                }
            }
        }
        before = Some(placed);
    }
    false
}

// Whether a place is seen already; it is from now on.
fn is_seen(seen: &mut [bool], place: Option<usize>) -> bool {
    match place {
        Some(place) if place < seen.len() => {
            let was = seen[place];
            seen[place] = true;
            was
        }
        _ => false,
    }
}

// The number of the component that a word names.
fn component_place(declared: &Declared, word: &[u8]) -> Option<usize> {
    let (component, _port) = pair_of(word)?;
    let (number, _inner) = declared.inner(&component)?;
    Some(number)
}

// The place of the variable that a word names, among those of all components.
fn variable_place(declared: &Declared, word: &[u8]) -> Option<usize> {
    let (component, variable) = pair_of(word)?;
    let (number, inner) = declared.inner(&component)?;
    let place = inner.variables.number_of(&variable)?;
    number.checked_mul(MOST_VALUES)?.checked_add(place)
}

/// The transition that leaves the location of a line's transition with its port already.
pub(crate) fn find_transition<'t>(
    text: &'t [u8],
    number: u64,
    line: &[u8],
) -> Option<TwiceReason<'t>>
    ensures is { IfSome result (IsTwiceReason text.now number line.now) }
    ensures kind { IfSome result (λ reason. why_of_twice reason ≡ TwoTransitions) }
    ensures none { IfNone result (NoSameTransition text.now number line.now) }
{
    Some(TwiceReason::Leaves(transition_before(text, number, line)?))
}

// The line before that has it, of those of the component that is begun last.
fn transition_before(text: &[u8], number: u64, line: &[u8]) -> Option<u64>
    ensures some { IfSome result (IsSameTransition text.now number line.now) }
    ensures none { IfNone result (NoSameTransition text.now number line.now) }
{
    let left = three_words(line)?;
    let mut found = None;
    for (other, bytes) in NumberedLines::of(text) {
        if number <= other {
            return found;
        }
        if begins_component(bytes) {
            found = None;
        } else if leave_same(line, left, bytes) {
            found = Some(found.unwrap_or(other));
        }
    }
    found
}
