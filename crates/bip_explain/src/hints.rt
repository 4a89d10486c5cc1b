//! Hints: what is told of a word that can't stand where it stands.
ghost use Rattle.std.specs.Prelude.{◌≡◌};
ghost use Rattle.std.specs.List.{list_all};
ghost use Rattle.std.specs.Option.{option_map};
ghost use Rattle.bip_model.specs.Naming.{is_name_byte, is_name_start, is_spelled_as_name};
ghost use Rattle.bip_explain.specs.Explanations.{with_parts};
ghost use Rattle.bip_explain.specs.Hints.{are_digits, bad_number_parts, bad_value_parts};
ghost use Rattle.bip_explain.specs.Hints.{begins_as_name, begins_with_digit, can_stand_as};
ghost use Rattle.bip_explain.specs.Hints.{comment_hint, first_hint, first_mark_hint};
ghost use Rattle.bip_explain.specs.Hints.{first_small_hint, fixed_hint, has_capital, hint_for};
ghost use Rattle.bip_explain.specs.Hints.{hint_of_class, hint_of_first_participant};
ghost use Rattle.bip_explain.specs.Hints.{hint_of_granted};
ghost use Rattle.bip_explain.specs.Hints.{hint_of_interaction, hint_of_name};
ghost use Rattle.bip_explain.specs.Hints.{hint_of_numbered, hint_of_pair, hint_of_part};
ghost use Rattle.bip_explain.specs.Hints.{hint_of_participant, hint_of_parts, hint_of_sort};
ghost use Rattle.bip_explain.specs.Hints.{hint_of_term, hint_of_value, hint_of_variable};
ghost use Rattle.bip_explain.specs.Hints.{hint_of_want, hint_parts, is_as, is_as_keyword};
ghost use Rattle.bip_explain.specs.Hints.{is_as_verb, is_name_with, is_near_name, is_negative};
ghost use Rattle.bip_explain.specs.Hints.{is_pointed_name, is_want_with_comma, joined_hint};
ghost use Rattle.bip_explain.specs.Hints.{long_part_parts, reserved_part_parts, second_hint};
ghost use Rattle.bip_explain.specs.Hints.{signed_parts, small_hint, uncoloned_hint};
ghost use Rattle.bip_explain.specs.Hints.{unpointed_hint};
ghost use Rattle.bip_explain.specs.Marks.{text_parts};

use crate::Explanation;
use crate::expected::Expected;
use crate::marks::{has_front, mark_hint, two_parts};
use crate::words::{is_name, is_pair, is_term, is_value, is_verb, is_want};
use bip_model::{MOST_NAME_BYTES, Spelling, is_text, parse_number, split_pair};

// How many digits a value has at most, and a number.
const MOST_VALUE_DIGITS: usize = 10;

const MOST_NUMBER_DIGITS: usize = 20;

/// What may be meant by a word that can't stand where it stands.
#[derive(Clone, Copy)]
pub(crate) enum Hint<'t> {
    NoHint,
    /// What this text says.
    Text(&'static [u8]),
    /// This part of the word, as of `C.p`, is a name that is too long.
    PartTooLong(&'t [u8]),
    /// This part is a word of the language.
    ReservedPart(&'t [u8]),
    /// So many digits that are no value.
    BadValue(usize),
    /// This part has digits that are no number.
    BadNumber(&'t [u8]),
    /// A sign in front of this term.
    Signed(&'t [u8]),
}

impl Hint<'_> {
    /// Says the hint, behind what is wanted.
    pub(crate) fn say(self, explanation: &mut Explanation)
        ensures { explanation.new ≡ with_parts (hint_parts self.entry) explanation.old }
    {
        match self {
            Hint::NoHint => {}
            Hint::Text(text) => explanation.say(text),
            Hint::PartTooLong(part) => say_long_part(explanation, part),
            Hint::ReservedPart(part) => say_reserved_part(explanation, part),
            Hint::BadValue(digits) => say_bad_value(explanation, digits),
            Hint::BadNumber(numeral) => say_bad_number(explanation, numeral),
            Hint::Signed(term) => say_signed(explanation, term),
        }
    }
}

fn say_long_part(explanation: &mut Explanation, part: &[u8])
    ensures { explanation.new ≡ with_parts (long_part_parts part.now) explanation.old }
{
    explanation.say(b"; a name has at most 32 bytes, and ");
    explanation.say_word(part);
    explanation.say(b" has ");
    explanation.say_number(part.len() as u64);
}

fn say_reserved_part(explanation: &mut Explanation, part: &[u8])
    ensures { explanation.new ≡ with_parts (reserved_part_parts part.now) explanation.old }
{
    explanation.say(b"; ");
    explanation.say_word(part);
    explanation.say(b" is a word of the language, and no name");
}

fn say_bad_value(explanation: &mut Explanation, digits: usize)
    ensures { explanation.new ≡ with_parts (bad_value_parts digits) explanation.old }
{
    if digits > MOST_VALUE_DIGITS {
        explanation.say(b"; a value is from 0 to 4294967295, in at most 10 digits, and this has ");
        explanation.say_number(digits as u64);
    } else {
        explanation.say(b"; the greatest value is 4294967295");
    }
}

fn say_bad_number(explanation: &mut Explanation, numeral: &[u8])
    ensures { explanation.new ≡ with_parts (bad_number_parts numeral.now) explanation.old }
{
    if numeral.len() > MOST_NUMBER_DIGITS {
        explanation.say(
            b"; a number is from 1 to 18446744073709551615, in at most 20 digits, and this has ",
        );
        explanation.say_number(numeral.len() as u64);
    } else {
        explanation.say(b"; a number is from 1 to 18446744073709551615");
    }
}

fn say_signed(explanation: &mut Explanation, term: &[u8])
    ensures { explanation.new ≡ with_parts (signed_parts term.now) explanation.old }
{
    explanation.say(b"; a term has no sign, but a sum may begin with 0 - ");
    explanation.say_word(term);
    explanation.say(b", modulo 4294967296, and behind a sign the other one stands for both");
}

/// What is told of a word that stands where something else is wanted.
pub(crate) fn hint_of<'t>(spelling: Spelling, expected: Expected, word: &'t [u8]) -> Hint<'t>
    ensures { hint_parts result ≡ hint_for spelling expected word.now }
{
    match fixed_hint(spelling, expected, word) {
        Some(text) => Hint::Text(text),
        None => hint_of_sort(spelling, expected, word),
    }
}

fn fixed_hint(spelling: Spelling, expected: Expected, word: &[u8]) -> Option<&'static [u8]>
    ensures { option_map (λ text. text.now) result ≡ fixed_hint spelling expected word.now }
{
    if let Some(text) = comment_hint(expected, word) {
        return Some(text);
    }
    if let Some(text) = small_hint(spelling, expected, word) {
        return Some(text);
    }
    match joined_hint(spelling, expected, word) {
        Some(text) => Some(text),
        None => mark_hint(expected, word),
    }
}

// Of a word that a comment begins with, behind others.
fn comment_hint(expected: Expected, word: &[u8]) -> Option<&'static [u8]>
    ensures { option_map (λ text. text.now) result ≡ comment_hint expected word.now }
{
    match expected {
        Expected::Grant => None,
        _ if has_front(b"#", word) => Some(b"; a comment is a line of its own"),
        _ if has_front(b"//", word) => {
            Some(b"; a comment is a line of its own, and begins with `#`")
        }
        _ => None,
    }
}

// Of a word in capitals that can stand at a place in small letters.
fn small_hint(spelling: Spelling, expected: Expected, word: &[u8]) -> Option<&'static [u8]>
    ensures { option_map (λ text. text.now) result ≡ small_hint spelling expected word.now }
{
    if can_stand_as(spelling, expected, word, b"when")
        || can_stand_as(spelling, expected, word, b"do")
        || can_stand_as(spelling, expected, word, b"and")
        || can_stand_as(spelling, expected, word, b"see")
        || can_stand_as(spelling, expected, word, b"grant")
    {
        Some(b"; words of the language are in small letters")
    } else {
        None
    }
}

fn can_stand_as(spelling: Spelling, expected: Expected, word: &[u8], small: &[u8]) -> bool
    ensures { result ≡ can_stand_as spelling expected word.now small.now }
{
    is_as(small, word) && expected.after(spelling, small).is_some()
}

// Whether a word is this one of the language but for small letters and capitals.
fn is_as(small: &[u8], word: &[u8]) -> bool
    ensures { result ≡ is_as small.now word.now }
{
    small.eq_ignore_ascii_case(word)
}

// Of a word whose first part can stand here.
fn joined_hint(spelling: Spelling, expected: Expected, word: &[u8]) -> Option<&'static [u8]>
    ensures { option_map (λ text. text.now) result ≡ joined_hint spelling expected word.now }
{
    let (first, second) = two_parts(word)?;
    let next = expected.after(spelling, first)?;
    second_hint(spelling, next, second)
}

fn second_hint(spelling: Spelling, next: Expected, part: &[u8]) -> Option<&'static [u8]>
    ensures { option_map (λ text. text.now) result ≡ second_hint spelling next part.now }
{
    if next.after(spelling, part).is_none() {
        mark_hint(next, part)
    } else if is_text(part, b";") {
        Some(b"; words are parted by blanks, and `;` stands between two assignments")
    } else {
        Some(b"; words are parted by blanks")
    }
}

/// What a first word shows that begins no line of its text.
pub(crate) fn hint_of_first(word: &[u8]) -> Hint<'static>
    ensures { hint_parts result ≡ text_parts (first_hint word.now) }
{
    match first_hint(word) {
        Some(text) => Hint::Text(text),
        None => Hint::NoHint,
    }
}

/// The same as a text.
pub(crate) fn first_hint(word: &[u8]) -> Option<&'static [u8]>
    ensures { option_map (λ text. text.now) result ≡ first_hint word.now }
{
    if is_text(word, b"bip") {
        return Some(b"; it begins the text of a model");
    }
    if is_text(word, b"grant") {
        return Some(b"; it begins a line of a trace");
    }
    if is_verb(word) {
        return Some(b"; it begins a line of a schedule");
    }
    match first_small_hint(word) {
        Some(text) => Some(text),
        None => first_mark_hint(word),
    }
}

// Of a word in capitals that begins a line in small letters.
fn first_small_hint(word: &[u8]) -> Option<&'static [u8]>
    ensures { option_map (λ text. text.now) result ≡ first_small_hint word.now }
{
    if has_capital(word) && (is_as_keyword(word) || is_as_verb(word)) {
        Some(b"; words of the language are in small letters")
    } else {
        None
    }
}

fn has_capital(word: &[u8]) -> bool
    ensures { result ≡ has_capital word.now }
{
    word.iter().any(|byte| byte.is_ascii_uppercase())
}

fn is_as_keyword(word: &[u8]) -> bool
    ensures { result ≡ is_as_keyword word.now }
{
    is_as(b"bip", word)
        || is_as(b"component", word)
        || is_as(b"var", word)
        || is_as(b"loc", word)
        || is_as(b"port", word)
        || is_as(b"trans", word)
        || is_as(b"end", word)
        || is_as(b"interaction", word)
        || is_as(b"priority", word)
        || is_as(b"class", word)
}

fn is_as_verb(word: &[u8]) -> bool
    ensures { result ≡ is_as_verb word.now }
{
    is_as(b"grant", word)
        || is_as(b"mail", word)
        || is_as(b"try", word)
        || is_as(b"serve", word)
        || is_as(b"deliver", word)
        || is_as(b"pass", word)
        || is_as(b"ask", word)
}

// Of a word that a comment begins with, or the mark between two texts.
fn first_mark_hint(word: &[u8]) -> Option<&'static [u8]>
    ensures { option_map (λ text. text.now) result ≡ first_mark_hint word.now }
{
    if has_front(b"//", word) {
        Some(b"; a comment begins with `#`")
    } else if is_text(word, b"---") {
        Some(b"; a line `---` and nothing more parts standard input, once, and no file")
    } else if has_front(b"---", word) {
        Some(b"; a line that is `---` and nothing more parts two texts of standard input")
    } else {
        None
    }
}

// By the sort of word that is wanted here.
fn hint_of_sort<'t>(spelling: Spelling, expected: Expected, word: &'t [u8]) -> Hint<'t>
    ensures { hint_parts result ≡ hint_of_sort spelling expected word.now }
{
    match expected {
        Expected::One
        | Expected::TransitionEnd
        | Expected::Below
        | Expected::LeftMore
        | Expected::RightMore
        | Expected::Becomes
        | Expected::SumMore
        | Expected::End => Hint::NoHint,
        Expected::Grant => hint_of_first(word),
        Expected::StartValue | Expected::FlightPlace => hint_of_value(word),
        Expected::InteractionName => hint_of_interaction(word),
        Expected::FirstParticipant => hint_of_first_participant(word),
        Expected::MoreParticipants => hint_of_participant(word),
        Expected::Granted => hint_of_granted(word),
        Expected::Class => hint_of_class(word),
        Expected::FirstMoved | Expected::MoreMoved | Expected::FirstSeen | Expected::MoreSeen => {
            hint_of_want(word)
        }
        Expected::LeftTerm | Expected::RightTerm | Expected::SumTerm => {
            hint_of_term(spelling, word)
        }
        Expected::Target => hint_of_variable(spelling, word),
        _ => hint_of_name(word),
    }
}

fn hint_of_term<'t>(spelling: Spelling, word: &'t [u8]) -> Hint<'t>
    ensures { hint_parts result ≡ hint_of_term spelling word.now }
{
    if are_digits(word) {
        hint_of_value(word)
    } else if has_front(b"-", word) && is_term(spelling, &word[1..]) {
        Hint::Signed(&word[1..])
    } else {
        hint_of_variable(spelling, word)
    }
}

fn hint_of_variable(spelling: Spelling, word: &[u8]) -> Hint<'_>
    ensures { hint_parts result ≡ hint_of_variable spelling word.now }
{
    match spelling {
        Spelling::Own if is_pair(word) => {
            Hint::Text(b"; a component names its own variables alone, as `v`")
        }
        Spelling::Own => hint_of_name(word),
        Spelling::Shared => hint_of_pair(word),
    }
}

fn hint_of_value(word: &[u8]) -> Hint<'_>
    ensures { hint_parts result ≡ hint_of_value word.now }
{
    if are_digits(word) && !is_value(word) {
        Hint::BadValue(word.len())
    } else {
        Hint::NoHint
    }
}

fn hint_of_pair(word: &[u8]) -> Hint<'_>
    ensures { hint_parts result ≡ hint_of_pair word.now }
{
    match split_pair(word, b'.') {
        None => Hint::NoHint,
        Some((component, inner)) => hint_of_parts(component, inner),
    }
}

// Of a word where the first participant is wanted: a name may be the component's.
fn hint_of_first_participant(word: &[u8]) -> Hint<'_>
    ensures { hint_parts result ≡ hint_of_first_participant word.now }
{
    if is_name(word) {
        Hint::Text(b"; a point joins a component and its port, in one word")
    } else {
        hint_of_participant(word)
    }
}

fn hint_of_participant(word: &[u8]) -> Hint<'_>
    ensures { hint_parts result ≡ hint_of_participant word.now }
{
    match split_pair(word, b'.') {
        None => unpointed_hint(word),
        Some((component, inner)) => hint_of_parts(component, inner),
    }
}

fn hint_of_parts<'t>(component: &'t [u8], inner: &'t [u8]) -> Hint<'t>
    ensures { hint_parts result ≡ hint_of_parts component.now inner.now }
{
    if is_near_name(component) {
        hint_of_part(component)
    } else {
        hint_of_part(inner)
    }
}

// Of a component and its port without a point between them.
fn unpointed_hint(word: &[u8]) -> Hint<'static>
    ensures { hint_parts result ≡ unpointed_hint word.now }
{
    if is_name_with(b":", word) || is_name_with(b"->", word) {
        Hint::Text(b"; a point joins a component and its port, in one word")
    } else {
        Hint::NoHint
    }
}

// Whether a word begins with a name, and this mark behind it.
fn is_name_with(mark: &[u8], word: &[u8]) -> bool
    ensures { result ≡ is_name_with mark.now word.now }
{
    match two_parts(word) {
        None => false,
        Some((first, second)) => is_name(first) && is_text(second, mark),
    }
}

fn hint_of_want(word: &[u8]) -> Hint<'_>
    ensures { hint_parts result ≡ hint_of_want word.now }
{
    if is_want_with_comma(word) {
        return Hint::Text(b"; components are parted by blanks alone");
    }
    match split_pair(word, b':') {
        None => uncoloned_hint(word),
        Some((component, numeral)) => hint_of_numbered(component, numeral),
    }
}

fn is_want_with_comma(word: &[u8]) -> bool
    ensures { result ≡ is_want_with_comma word.now }
{
    match split_pair(word, b',') {
        None => false,
        Some((front, _behind)) => is_want(front),
    }
}

// Of a word without a colon where `C:1` is wanted.
fn uncoloned_hint(word: &[u8]) -> Hint<'static>
    ensures { hint_parts result ≡ uncoloned_hint word.now }
{
    if is_name(word)
        || is_name_with(b"=", word)
        || is_name_with(b"->", word)
        || is_pointed_name(word)
    {
        Hint::Text(b"; a colon joins a component and its number, in one word")
    } else {
        Hint::NoHint
    }
}

fn is_pointed_name(word: &[u8]) -> bool
    ensures { result ≡ is_pointed_name word.now }
{
    match split_pair(word, b'.') {
        None => false,
        Some((front, _behind)) => is_name(front),
    }
}

fn hint_of_numbered<'t>(component: &'t [u8], numeral: &'t [u8]) -> Hint<'t>
    ensures { hint_parts result ≡ hint_of_numbered component.now numeral.now }
{
    if are_digits(numeral) && parse_number(numeral).is_none() {
        Hint::BadNumber(numeral)
    } else if is_negative(numeral) {
        Hint::Text(b"; a number is from 1 to 18446744073709551615")
    } else {
        hint_of_part(component)
    }
}

fn is_negative(numeral: &[u8]) -> bool
    ensures { result ≡ is_negative numeral.now }
{
    has_front(b"-", numeral) && are_digits(&numeral[1..])
}

// Of a word where the name of an interaction is wanted, in front of its participants.
fn hint_of_interaction(word: &[u8]) -> Hint<'_>
    ensures { hint_parts result ≡ hint_of_interaction word.now }
{
    if is_pair(word) {
        Hint::Text(b"; the interaction's name stands in front of its participants")
    } else {
        hint_of_name(word)
    }
}

fn hint_of_granted(word: &[u8]) -> Hint<'_>
    ensures { hint_parts result ≡ hint_of_granted word.now }
{
    if is_want(word) {
        Hint::Text(b"; the interaction's name stands in front of its components")
    } else {
        hint_of_name(word)
    }
}

fn hint_of_class(word: &[u8]) -> Hint<'_>
    ensures { hint_parts result ≡ hint_of_class word.now }
{
    if is_pair(word) {
        Hint::Text(b"; a class and its interaction are two words, as `try P x`")
    } else {
        hint_of_name(word)
    }
}

fn hint_of_name(word: &[u8]) -> Hint<'_>
    ensures { hint_parts result ≡ hint_of_name word.now }
{
    if begins_with_digit(word) {
        Hint::Text(b"; a name begins with a letter or `_`")
    } else if !begins_as_name(word) || is_name(word) {
        Hint::NoHint
    } else if !looks_like_name(word) {
        Hint::Text(b"; a name has letters, digits and `_` alone")
    } else if word.len() > MOST_NAME_BYTES {
        Hint::Text(b"; a name has at most 32 bytes")
    } else {
        Hint::Text(b"; it is a word of the language, and no name")
    }
}

// Of a part of a word that should be a name.
fn hint_of_part(part: &[u8]) -> Hint<'_>
    ensures { hint_parts result ≡ hint_of_part part.now }
{
    if begins_with_digit(part) {
        Hint::Text(b"; a name begins with a letter or `_`")
    } else if !is_near_name(part) {
        Hint::NoHint
    } else if part.len() > MOST_NAME_BYTES {
        Hint::PartTooLong(part)
    } else {
        Hint::ReservedPart(part)
    }
}

fn is_near_name(word: &[u8]) -> bool
    ensures { result ≡ is_near_name word.now }
{
    begins_with_digit(word) || (looks_like_name(word) && !is_name(word))
}

// Letters, digits and underscores, of which the first is a digit, and not all are.
fn begins_with_digit(word: &[u8]) -> bool
    ensures { result ≡ begins_with_digit word.now }
{
    !word.is_empty() && word[0].is_ascii_digit() && are_name_bytes(word) && !are_digits(word)
}

fn are_digits(word: &[u8]) -> bool
    ensures { result ≡ are_digits word.now }
{
    word.iter().all(|byte| byte.is_ascii_digit())
}

fn looks_like_name(word: &[u8]) -> bool
    ensures { result ≡ is_spelled_as_name word.now }
{
    begins_as_name(word) && are_name_bytes(word)
}

fn begins_as_name(word: &[u8]) -> bool
    ensures { result ≡ begins_as_name word.now }
{
    !word.is_empty() && is_name_start(word[0])
}

fn are_name_bytes(word: &[u8]) -> bool
    ensures { result ≡ list_all is_name_byte word.now }
{
    word.iter().all(|byte| is_name_byte(*byte))
}

fn is_name_start(byte: u8) -> bool
    ensures { result ≡ is_name_start byte }
{
    byte.is_ascii_alphabetic() || byte == b'_'
}

fn is_name_byte(byte: u8) -> bool
    ensures { result ≡ is_name_byte byte }
{
    byte.is_ascii_alphanumeric() || byte == b'_'
}
