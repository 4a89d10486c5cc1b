//! Names of a model's text that nothing has.
ghost use Rattle.std.specs.Prelude.{◌≡◌, ◌∷◌, [], All, codes, drop, IfNone, IfOk, IfSome, IsTrue};
ghost use Rattle.std.specs.Prelude.{List, false, true, ℕ};
ghost use Rattle.bip_explain.specs.Explanations.{with_parts};
ghost use Rattle.bip_model.specs.Naming.{IsName, is_known};
ghost use Rattle.bip_model.specs.Texts.{pair_of, words};
ghost use Rattle.bip_model.specs.Texts.{line_at};
ghost use Rattle.bip_explain.specs.Placed.{IsBehind, IsPlacedOn, said_words};
ghost use Rattle.bip_explain.specs.Declarations.{HasLineWith, declares_inside};
ghost use Rattle.bip_explain.specs.Unknown.{AreDeclared, IsKindAt, IsLack, IsOf, IsOther};
ghost use Rattle.bip_explain.specs.Unknown.{IsUnknownReason, kind_at, kind_keyword, next_place};
ghost use Rattle.bip_explain.specs.Unknown.{has_participant, is_front, kind_word, lack_parts};
ghost use Rattle.bip_explain.specs.Unknown.{later_parts, name_interactions, named_interactions};
ghost use Rattle.bip_explain.specs.Unknown.{other_parts, unknown_parts};
ghost use Rattle.bip_explain.specs.Words.{point};

use crate::Explanation;
use crate::declarations::{Declared, Inner, declares_inside, line_with};
use crate::later::later_line_with;
use crate::limits::begins_list;
use crate::placed::{Placed, PlacedWords, words_of};
use crate::scopes::{Standing, standing_at};
use crate::words::pair_of;
use bip_model::{Name, Names, is_text, line_at, split_pair};
use std::alloc::{AllocError, Global};

/// What a component has inside.
#[derive(Clone, Copy)]
pub(crate) enum NameKind {
    Variable,
    Location,
    Port,
}

/// A component that has nothing of a kind by a name, and what it has by it.
#[derive(Clone, Copy)]
pub(crate) struct Lack {
    pub component: Name,
    pub kind: NameKind,
    pub name: Name,
    pub other: Option<NameKind>,
}

/// Why a name of a line is unknown.
#[derive(Clone, Copy)]
pub(crate) enum UnknownReason<'t> {
    /// No line before declares an interaction by this name; a later one that does, if one does.
    Interaction(Placed<'t>, Option<u64>),
    /// No line before declares the component that this word names; a later one that does.
    Component(Placed<'t>, Name, Option<u64>),
    /// The component that this word names takes no part in the interaction.
    Stranger(Placed<'t>, Name),
    /// The component lacks what this word names.
    Inner(Placed<'t>, Lack),
}

impl UnknownReason<'_> {
    /// Says which name is unknown, behind its column.
    pub(crate) fn say(&self, explanation: &mut Explanation)
        ensures { explanation.new ≡ with_parts (unknown_parts self.now) explanation.old }
    {
        match self {
            UnknownReason::Interaction(placed, later) => {
                explanation.say_column(placed.column);
                explanation.say(b"no line before declares an interaction ");
                explanation.say_word(placed.word);
                say_later(explanation, *later);
            }
            UnknownReason::Component(placed, component, later) => {
                explanation.say_column(placed.column);
                explanation.say(b"no line before declares a component ");
                explanation.say_word(component.as_bytes());
                say_later(explanation, *later);
            }
            UnknownReason::Stranger(placed, component) => {
                explanation.say_column(placed.column);
                explanation.say(b"component ");
                explanation.say_word(component.as_bytes());
                explanation.say(b" takes no part in this interaction");
            }
            UnknownReason::Inner(placed, lack) => {
                explanation.say_column(placed.column);
                lack.say(explanation);
            }
        }
    }
}

fn say_later(explanation: &mut Explanation, later: Option<u64>)
    ensures { explanation.new ≡ with_parts (later_parts later) explanation.old }
{
    if let Some(line) = later {
        explanation.say(b", but line ");
        explanation.say_number(line);
        explanation.say(b" does");
    }
}

impl Lack {
    fn say(&self, explanation: &mut Explanation)
        ensures { explanation.new ≡ with_parts (lack_parts self.now) explanation.old }
    {
        explanation.say(b"component ");
        explanation.say_word(self.component.as_bytes());
        explanation.say(b" has no ");
        explanation.say(self.kind.word());
        explanation.say(b" ");
        explanation.say_word(self.name.as_bytes());
        explanation.say(b" so far");
        say_other(explanation, self.other);
    }
}

fn say_other(explanation: &mut Explanation, other: Option<NameKind>)
    ensures { explanation.new ≡ with_parts (other_parts other) explanation.old }
{
    if let Some(kind) = other {
        explanation.say(b", but a ");
        explanation.say(kind.word());
        explanation.say(b" of that name");
    }
}

impl NameKind {
    fn names(self, inner: &Inner) -> &Names {
        match self {
            NameKind::Variable => &inner.variables,
            NameKind::Location => &inner.locations,
            NameKind::Port => &inner.ports,
        }
    }

    fn keyword(self) -> &'static [u8]
        ensures { result.now ≡ kind_keyword self }
    {
        match self {
            NameKind::Variable => b"var",
            NameKind::Location => b"loc",
            NameKind::Port => b"port",
        }
    }

    fn word(self) -> &'static [u8]
        ensures { result.now ≡ kind_word self }
    {
        match self {
            NameKind::Variable => b"variable",
            NameKind::Location => b"location",
            NameKind::Port => b"port",
        }
    }
}

/// The name of a line that is unknown: the first one from the left.
pub(crate) fn find_unknown(
    alloc: Global,
    text: &[u8],
    number: u64,
) -> Result<Option<UnknownReason<'_>>, AllocError>
    ensures some { IfOk result (λ found.
        IfSome found (IsUnknownReason text.now number (line_at text.now number))) }
    ensures none { IfOk result (λ found. IfNone found (AreDeclared text.now number
        (named_interactions (said_words (line_at text.now number))))) }
{
    let declared = Declared::before(alloc, text, number)?;
    Ok(find_on(text, number, &declared))
}

// The same, by what the lines before declare.
fn find_on<'t>(text: &'t [u8], number: u64, declared: &Declared) -> Option<UnknownReason<'t>>
    requires { All (HasLineWith text.now number (codes "interaction")) declared.now.interactions }
    ensures some { IfSome result (IsUnknownReason text.now number (line_at text.now number)) }
    ensures none { IfNone result (AreDeclared text.now number
        (named_interactions (said_words (line_at text.now number)))) }
{
    let (keyword, words) = words_of(line_at(text, number))?;
    if is_text(keyword.word, b"trans") {
        return find_in_transition(text, number, declared, words);
    }
    if is_text(keyword.word, b"priority") {
        return find_member(text, number, declared, words);
    }
    let mut words = words;
    let _name = words.next()?;
    if is_text(keyword.word, b"interaction") {
        find_in_interaction(text, number, declared, words)
    } else if is_text(keyword.word, b"class") {
        find_member(text, number, declared, words)
    } else {
        None
    }
}

/// The words behind the first one.
pub(crate) fn behind_first<'t>(all: PlacedWords<'t>) -> PlacedWords<'t>
    ensures line { result.line.now ≡ all.entry.line.now }
    ensures rest { words result.rest.now ≡ drop 1 (words all.entry.rest.now) }
{
    let mut left = all;
    let _first = left.next();
    left
}

// The first name that no interaction has, of the words that are left.
fn find_member<'t>(
    text: &[u8],
    number: u64,
    declared: &Declared,
    left: PlacedWords<'t>,
) -> Option<UnknownReason<'t>>
    requires known { All (HasLineWith text.now number (codes "interaction"))
        declared.now.interactions }
    requires named { (front : List (List ℕ)) × IsTrue (name_interactions front)
        × IsBehind front left.line.now left.rest.now }
    ensures some { IfSome result (IsUnknownReason text.now number left.entry.line.now) }
    ensures none { IfNone result (AreDeclared text.now number (words left.entry.rest.now)) }
{
    for placed in left {
        if is_missing(&declared.interactions, placed.word)
            && line_with(text, number, b"interaction", placed.word).is_none()
        {
            let later = later_line_with(text, number, b"interaction", placed.word);
            return Some(UnknownReason::Interaction(placed, later));
        }
    }
    None
}

// Whether a word is a name that isn't in a list.
fn is_missing(names: &Names, word: &[u8]) -> bool
    ensures named { IsTrue result → IsName word.now }
    ensures known { result ≡ false → IsName word.now → is_known word.now names.now ≡ true }
{
    match Name::of(word) {
        None => false,
        Some(name) => !names.contains(&name),
    }
}

// The first name that the component lacks which is begun: its port, its locations, its variables.
fn find_in_transition<'t>(
    text: &[u8],
    number: u64,
    declared: &Declared,
    words: PlacedWords<'t>,
) -> Option<UnknownReason<'t>>
    requires { IsBehind (codes "trans" ∷ []) words.line.now words.rest.now }
    ensures { IfSome result (IsUnknownReason text.now number words.entry.line.now) }
{
    let Standing::Inside(begun) = standing_at(text, number) else {
        return None;
    };
    let component = Name::of(begun)?;
    let (_number, inner) = declared.inner(&component)?;
    let mut place = 0;
    for placed in words {
        if let Some(name) = Name::of(placed.word) {
            let kind = kind_at(place);
            if let Some(lack) = lack_of(text, number, inner, component, kind, name) {
                return Some(UnknownReason::Inner(placed, lack));
            }
        }
        place = next_place(place);
    }
    None
}

// What a word of a transition names, by its place.
fn kind_at(place: u8) -> NameKind
    ensures { result ≡ kind_at place }
{
    if place == 0 {
        NameKind::Port
    } else if place == 1 || place == 2 {
        NameKind::Location
    } else {
        NameKind::Variable
    }
}

// The place behind one; those behind the target are alike.
fn next_place(place: u8) -> u8
    ensures { result ≡ next_place place }
{
    if place == 0 {
        1
    } else if place == 1 {
        2
    } else {
        3
    }
}

// What a component lacks, if nothing that it has inside is of a kind with a name.
fn lack_of(
    text: &[u8],
    number: u64,
    inner: &Inner,
    component: Name,
    kind: NameKind,
    name: Name,
) -> Option<Lack>
    ensures component { IfSome result (λ lack. lack.component ≡ component) }
    ensures name { IfSome result (λ lack. lack.name ≡ name) }
    ensures kind { IfSome result (λ lack. lack.kind ≡ kind) }
    ensures lacks { IfSome result (IsLack text.now number) }
{
    if kind.names(inner).contains(&name) || is_inside(text, number, &component, kind, &name) {
        return None;
    }
    let _begun = line_with(text, number, b"component", component.as_bytes())?;
    let other = kind_of(text, number, &component, &name);
    Some(Lack {
        component,
        kind,
        name,
        other,
    })
}

// Whether a component has something of a kind by a name.
fn is_inside(text: &[u8], number: u64, component: &Name, kind: NameKind, name: &Name) -> bool
    ensures { result
        ≡ declares_inside text.now number component.now (kind_keyword kind) name.now }
{
    declares_inside(
        text,
        number,
        component.as_bytes(),
        kind.keyword(),
        name.as_bytes(),
    )
}

// What a component has by a name.
fn kind_of(text: &[u8], number: u64, component: &Name, name: &Name) -> Option<NameKind>
    ensures { IsOther text.now number component.now name.now result }
{
    if is_inside(text, number, component, NameKind::Variable, name) {
        Some(NameKind::Variable)
    } else if is_inside(text, number, component, NameKind::Location, name) {
        Some(NameKind::Location)
    } else if is_inside(text, number, component, NameKind::Port, name) {
        Some(NameKind::Port)
    } else {
        None
    }
}

// The first participant, or else the first variable, that the line can't name.
fn find_in_interaction<'t>(
    text: &[u8],
    number: u64,
    declared: &Declared,
    words: PlacedWords<'t>,
) -> Option<UnknownReason<'t>>
    requires { (name : List ℕ)
        × IsBehind (codes "interaction" ∷ name ∷ []) words.line.now words.rest.now }
    ensures { IfSome result (IsUnknownReason text.now number words.entry.line.now) }
{
    let line = words.line;
    let mut kind = NameKind::Port;
    for placed in words {
        if begins_list(placed.word) {
            kind = NameKind::Variable;
        } else if let Some(reason) = find_in_pair(text, number, declared, line, kind, placed) {
            return Some(reason);
        }
    }
    None
}

// What is unknown of a participant, or of a variable.
fn find_in_pair<'t>(
    text: &[u8],
    number: u64,
    declared: &Declared,
    line: &[u8],
    kind: NameKind,
    placed: Placed<'t>,
) -> Option<UnknownReason<'t>>
    requires { IsKindAt line.now placed kind }
    ensures { IfSome result (IsUnknownReason text.now number line.now) }
{
    let (component, name) = pair_of(placed.word)?;
    let Some((_number, inner)) = declared.inner(&component) else {
        return find_component(text, number, line, placed, component);
    };
    if !has_participant(component.as_bytes(), line) {
        return Some(UnknownReason::Stranger(placed, component));
    }
    let lack = lack_of(text, number, inner, component, kind, name)?;
    Some(UnknownReason::Inner(placed, lack))
}

// That no line before declares a component.
fn find_component<'t>(
    text: &[u8],
    number: u64,
    line: &[u8],
    placed: Placed<'t>,
    component: Name,
) -> Option<UnknownReason<'t>>
    requires named { IsOf component placed.word.now }
    requires placed { IsPlacedOn line.now placed }
    ensures { IfSome result (IsUnknownReason text.now number line.now) }
{
    let name = component.as_bytes();
    match line_with(text, number, b"component", name) {
        Some(_) => None,
        None => {
            let later = later_line_with(text, number, b"component", name);
            Some(UnknownReason::Component(placed, component, later))
        }
    }
}

// Whether a participant of a line's interaction is of a component.
fn has_participant(component: &[u8], line: &[u8]) -> bool
    ensures { result ≡ has_participant component.now (drop 2 (words line.now)) }
{
    is_in_head(component, behind_first(behind_first(PlacedWords::of(line))))
}

// Whether one of the words that are left, in front of clauses, names a component.
fn is_in_head(component: &[u8], left: PlacedWords<'_>) -> bool
    ensures { result ≡ has_participant component.now (words left.entry.rest.now) }
{
    for placed in left {
        if begins_list(placed.word) {
            return false;
        }
        if is_front(component, placed.word) {
            return true;
        }
    }
    false
}

// Whether the part of a word in front of its point is a component.
fn is_front(component: &[u8], word: &[u8]) -> bool
    ensures { result ≡ is_front component.now (pair_of point word.now) }
{
    match split_pair(word, b'.') {
        None => false,
        Some((front, _inner)) => is_text(front, component),
    }
}
