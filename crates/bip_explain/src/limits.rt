//! Limits of models that a line passes.
ghost use Rattle.std.specs.Prelude.{◌≡◌, ◌<◌, ◌∷◌, ℕ, [], IfNone, IfSome, List, false, true};
ghost use Rattle.std.specs.List.{list_any};
ghost use Rattle.std.specs.Option.{option_map};
ghost use Rattle.bip_model.specs.Texts.{words};
ghost use Rattle.bip_explain.specs.Explanations.{with_parts};
ghost use Rattle.bip_explain.specs.Limits.{AreFewLines, AreFewYet, AreShort, AreWithin};
ghost use Rattle.bip_explain.specs.Limits.{IsLimitReason, IsOver, begins_list, begins_so};
ghost use Rattle.bip_explain.specs.Limits.{counted_behind, counted_on, has_lists, has_point};
ghost use Rattle.bip_explain.specs.Limits.{is_of_component, limit_of, limit_parts, lines_so};
ghost use Rattle.bip_explain.specs.Limits.{none_counted, parts_list};
ghost use Rattle.bip_model.specs.Texts.{line_at};
ghost use Rattle.bip_explain.specs.Placed.{IsBehind, said_words};

use crate::Explanation;
use crate::declarations::{begins_component, declares_inner};
use crate::placed::{Placed, PlacedWords, words_of};
use crate::words::{is_relation, is_sign};
use bip_model::{MOST_CLAUSES, MOST_PARTICIPANTS, MOST_TERMS, NumberedLines, is_text, line_at};

/// Which limit a line passes.
#[derive(Clone, Copy)]
pub(crate) enum LimitReason<'t> {
    /// A word is one more than this limit of lists.
    Word(Placed<'t>, &'static [u8]),
    /// The line is one more than this limit of such lines.
    Line(&'static [u8]),
}

impl LimitReason<'_> {
    /// Says which limit is passed.
    pub(crate) fn say(self, explanation: &mut Explanation)
        ensures { explanation.new ≡ with_parts (limit_parts self.entry) explanation.old }
    {
        match self {
            LimitReason::Word(placed, limit) => {
                explanation.say_placed(placed);
                explanation.say(b" is one too many; ");
                explanation.say(limit);
            }
            LimitReason::Line(limit) => explanation.say(limit),
        }
    }
}

/// Which limit a line passes, with the word that passes it where that is one of the line.
pub(crate) fn find_limit(text: &[u8], number: u64) -> Option<LimitReason<'_>>
    ensures some { IfSome result (IsLimitReason text.now number (line_at text.now number)) }
    ensures none { IfNone result
        (AreWithin text.now number (said_words (line_at text.now number))) }
{
    let (keyword, words) = words_of(line_at(text, number))?;
    match find_list(keyword.word, words) {
        Some(reason) => Some(reason),
        None => find_lines(text, number, keyword.word),
    }
}

// The first word that is more than a list of a line may have, behind the line's first word.
fn find_list<'t>(keyword: &[u8], left: PlacedWords<'t>) -> Option<LimitReason<'t>>
    requires { IsBehind (keyword.now ∷ []) left.line.now left.rest.now }
    ensures some { (text : List ℕ) → (number : ℕ)
        → IfSome result (IsLimitReason text number left.entry.line.now) }
    ensures none { IfNone result (has_lists keyword.now ≡ true
        → AreShort none_counted (words left.entry.rest.now)) }
{
    if has_lists(keyword) {
        find_long(left)
    } else {
        None
    }
}

// The limit of how many lines begin with a word, if as many stand in front of one.
fn find_lines<'t>(text: &[u8], number: u64, keyword: &[u8]) -> Option<LimitReason<'t>>
    ensures some { (line : List ℕ) → (rest : List (List ℕ))
        → said_words line ≡ keyword.now ∷ rest
        → IfSome result (IsLimitReason text.now number line) }
    ensures none { IfNone result (AreFewLines text.now number keyword.now) }
{
    let (most, limit) = limit_of(keyword)?;
    if most <= lines_so(text, number, keyword) {
        Some(LimitReason::Line(limit))
    } else {
        None
    }
}

// How many lines in front of one begin with a word, of those of one component where it begins what
// stands inside of one.
fn lines_so(text: &[u8], line: u64, keyword: &[u8]) -> u64
    ensures { result ≡ lines_so text.now line keyword.now }
{
    let mut count = 0;
    for (number, bytes) in NumberedLines::of(text) {
        if line <= number {
            return count;
        }
        count = counted_behind(keyword, bytes, count);
    }
    count
}

fn counted_behind(keyword: &[u8], line: &[u8], count: u64) -> u64
    requires { count < u64.MAX }
    ensures { result ≡ counted_behind keyword.now (said_words line.now) count }
{
    if is_of_component(keyword) && begins_component(line) {
        0
    } else if begins_so(keyword, line) {
        count + 1
    } else {
        count
    }
}

fn is_of_component(keyword: &[u8]) -> bool
    ensures { result ≡ is_of_component keyword.now }
{
    declares_inner(keyword) || is_text(keyword, b"trans")
}

fn begins_so(keyword: &[u8], line: &[u8]) -> bool
    ensures { result ≡ begins_so keyword.now (said_words line.now) }
{
    match words_of(line) {
        None => false,
        Some((first, _rest)) => is_text(first.word, keyword),
    }
}

// Whether lines that begin so have a guard and a list of assignments.
fn has_lists(keyword: &[u8]) -> bool
    ensures { result ≡ has_lists keyword.now }
{
    is_text(keyword, b"trans") || is_text(keyword, b"interaction")
}

// How many lines may begin with a word, and how it is told.
fn limit_of(keyword: &[u8]) -> Option<(u64, &'static [u8])>
    ensures { option_map (λ limit. (limit.0, limit.1.now)) result ≡ limit_of keyword.now }
{
    if is_text(keyword, b"component") {
        Some((64, b"a model has at most 64 components"))
    } else if is_text(keyword, b"var") {
        Some((8, b"a component has at most 8 variables"))
    } else if is_text(keyword, b"loc") {
        Some((64, b"a component has at most 64 locations"))
    } else if is_text(keyword, b"port") {
        Some((16, b"a component has at most 16 ports"))
    } else if is_text(keyword, b"trans") {
        Some((256, b"a component has at most 256 transitions"))
    } else if is_text(keyword, b"interaction") {
        Some((128, b"a model has at most 128 interactions"))
    } else if is_text(keyword, b"class") {
        Some((32, b"a model has at most 32 classes"))
    } else {
        None
    }
}

/// What is counted of a line.
#[derive(Clone, Copy)]
struct Counted {
    is_head: bool,
    participants: u32,
    parts: u32,
    terms: u32,
}

// The first word of a line that is more than one of its lists may have.
fn find_long<'t>(left: PlacedWords<'t>) -> Option<LimitReason<'t>>
    ensures some { (text : List ℕ) → (number : ℕ) → (front : List (List ℕ))
        → IsBehind front left.entry.line.now left.entry.rest.now
        → list_any begins_list front ≡ false
        → IfSome result (IsLimitReason text number left.entry.line.now) }
    ensures none { IfNone result (AreShort none_counted (words left.entry.rest.now)) }
{
    let mut counted = Counted {
        is_head: true,
        participants: 0,
        parts: 0,
        terms: 0,
    };
    for placed in left {
        counted = counted.with(placed.word);
        if let Some(limit) = counted.passed() {
            return Some(LimitReason::Word(placed, limit));
        }
    }
    None
}

impl Counted {
    fn with(self, word: &[u8]) -> Counted
        requires { AreFewYet self }
        ensures { result ≡ counted_on self word.now }
    {
        let mut more = self;
        if begins_list(word) {
            more.is_head = false;
            more.parts = 1;
            more.terms = 0;
        } else if parts_list(word) {
            if !self.is_head {
                more.parts += 1;
            }
            more.terms = 0;
        } else if is_relation(word) || is_text(word, b":=") {
            more.terms = 0;
        } else if self.is_head {
            if has_point(word) {
                more.participants += 1;
            }
        } else if !is_sign(word) {
            more.terms += 1;
        }
        more
    }

    // The limit that is passed, if one is.
    fn passed(&self) -> Option<&'static [u8]>
        ensures some { IfSome result (λ limit. IsOver self.now limit.now) }
        ensures none { IfNone result (AreFewYet self.now) }
    {
        if MOST_PARTICIPANTS < self.participants as usize {
            Some(b"an interaction has at most 8 participants")
        } else if MOST_CLAUSES < self.parts as usize {
            Some(b"a guard or a list has at most 16 parts")
        } else if MOST_TERMS < self.terms as usize {
            Some(b"a sum has at most 16 terms")
        } else {
            None
        }
    }
}

/// Whether a word begins a guard, or a list of assignments.
pub(crate) fn begins_list(word: &[u8]) -> bool
    ensures { result ≡ begins_list word.now }
{
    is_text(word, b"when") || is_text(word, b"do")
}

fn parts_list(word: &[u8]) -> bool
    ensures { result ≡ parts_list word.now }
{
    is_text(word, b"and") || is_text(word, b";")
}

// Whether a word before the guard is a participant, as no other word there has a point.
fn has_point(word: &[u8]) -> bool
    ensures { result ≡ has_point word.now }
{
    word.iter().any(|byte| *byte == b'.')
}
