//! What is told of a mark, or of a word, that stands in the place of what is wanted.
ghost use Rattle.std.specs.Prelude.{◌≡◌, ◌≤◌, ◌<◌, IfSome, IsTrue, length, not, position};
ghost use Rattle.std.specs.Option.{option_map};
ghost use Rattle.bip_explain.specs.Marks.{begins_marked, end_hint, first_part, guard_hint};
ghost use Rattle.bip_explain.specs.Marks.{has_bracket, has_front, has_star, if_mark, is_mark_byte};
ghost use Rattle.bip_explain.specs.Marks.{lists_hint, mark_hint, part_end};
ghost use Rattle.bip_explain.specs.Marks.{participants_hint, priority_hint, relation_hint};
ghost use Rattle.bip_explain.specs.Marks.{start_hint, sum_hint, term_hint, two_parts};
ghost use Rattle.bip_explain.specs.Marks.{update_hint};

use crate::expected::Expected;
use crate::words::{is_name, is_pair, is_relation, is_sign};
use bip_model::is_text;

/// The first two parts of a word, if it has two: each has bytes of marks alone, or none of them.
pub(crate) fn two_parts(word: &[u8]) -> Option<(&[u8], &[u8])>
    ensures { option_map (λ parts. (parts.0.now, parts.1.now)) result ≡ two_parts word.now }
{
    let end = part_end(word)?;
    Some((&word[..end], first_part(&word[end..])))
}

fn first_part(word: &[u8]) -> &[u8]
    ensures { result.now ≡ first_part word.now }
{
    match part_end(word) {
        Some(end) => &word[..end],
        None => word,
    }
}

fn part_end(word: &[u8]) -> Option<usize>
    ensures is { result ≡ part_end word.now }
    ensures within { IfSome result (λ end. end < length word.now) }
{
    if begins_marked(word) {
        end_of_marks(word)
    } else {
        end_of_others(word)
    }
}

fn end_of_others(word: &[u8]) -> Option<usize>
    ensures { result ≡ position is_mark_byte word.now }
{
    word.iter().position(|byte| is_mark_byte(*byte))
}

fn end_of_marks(word: &[u8]) -> Option<usize>
    ensures { result ≡ position (λ byte. not (is_mark_byte byte)) word.now }
{
    word.iter().position(|byte| !is_mark_byte(*byte))
}

fn begins_marked(word: &[u8]) -> bool
    ensures { result ≡ begins_marked word.now }
{
    !word.is_empty() && is_mark_byte(word[0])
}

fn is_mark_byte(byte: u8) -> bool
    ensures { result ≡ is_mark_byte byte }
{
    byte == b'+'
        || byte == b'-'
        || byte == b'='
        || byte == b'!'
        || byte == b'<'
        || byte == b'>'
        || byte == b';'
        || byte == b':'
        || byte == b','
        || byte == b'&'
        || byte == b'|'
        || byte == b'/'
}

pub(crate) fn has_front(text: &[u8], word: &[u8]) -> bool
    ensures is { result ≡ has_front text.now word.now }
    ensures within { IsTrue result → length text.now ≤ length word.now }
{
    word.starts_with(text)
}

/// What is told of a mark, or of a word, at a place.
pub(crate) fn mark_hint(expected: Expected, word: &[u8]) -> Option<&'static [u8]>
    ensures { option_map (λ text. text.now) result ≡ mark_hint expected word.now }
{
    match expected {
        Expected::LeftMore => relation_hint(word),
        Expected::RightMore => guard_hint(word),
        Expected::SumMore => update_hint(word),
        Expected::LeftTerm | Expected::RightTerm | Expected::SumTerm => term_hint(word),
        Expected::StartValue => start_hint(word),
        Expected::TransitionTarget => {
            if_mark(
                b"->",
                b"; the locations stand side by side, as `trans p a b`",
                word,
            )
        }
        Expected::TransitionEnd => lists_hint(word),
        Expected::MoreParticipants => participants_hint(word),
        Expected::MoreMembers => if_mark(b",", b"; members are parted by blanks alone", word),
        Expected::MoreMoved | Expected::MoreSeen => {
            if_mark(b",", b"; components are parted by blanks alone", word)
        }
        Expected::Below => priority_hint(word),
        Expected::End => end_hint(word),
        _ => None,
    }
}

fn relation_hint(word: &[u8]) -> Option<&'static [u8]>
    ensures { option_map (λ text. text.now) result ≡ relation_hint word.now }
{
    if is_text(word, b"==") {
        Some(b"; equality is `=`")
    } else if is_text(word, b"<>") || is_text(word, b"/=") {
        Some(b"; unequal is `!=`")
    } else if is_text(word, b"=<") {
        Some(b"; at most is `<=`")
    } else if is_text(word, b"=>") {
        Some(b"; at least is `>=`")
    } else {
        sum_hint(word)
    }
}

fn guard_hint(word: &[u8]) -> Option<&'static [u8]>
    ensures { option_map (λ text. text.now) result ≡ guard_hint word.now }
{
    if is_text(word, b"&&") || is_text(word, b",") || is_text(word, b"when") {
        Some(b"; `and` joins comparisons")
    } else if is_text(word, b"or") || is_text(word, b"||") {
        Some(b"; a guard has no `or`")
    } else if is_relation(word) {
        Some(b"; a comparison has one relation, and `and` joins two")
    } else if is_name(word) || is_pair(word) {
        Some(b"; `and` joins comparisons, and assignments begin with `do`")
    } else {
        sum_hint(word)
    }
}

fn update_hint(word: &[u8]) -> Option<&'static [u8]>
    ensures { option_map (λ text. text.now) result ≡ update_hint word.now }
{
    if is_text(word, b"when") {
        Some(b"; a guard stands in front of `do`")
    } else if is_text(word, b"do")
        || is_text(word, b",")
        || is_text(word, b"&&")
        || is_text(word, b"and")
    {
        Some(b"; `;` joins assignments")
    } else {
        sum_hint(word)
    }
}

fn term_hint(word: &[u8]) -> Option<&'static [u8]>
    ensures { option_map (λ text. text.now) result ≡ term_hint word.now }
{
    if is_sign(word) {
        Some(b"; a sum begins with a term, as `0 - 1`, and has one sign between two")
    } else if has_front(b"!", word) && !has_front(b"!=", word) {
        Some(b"; nothing is negated by `!`, but unequal is `!=`")
    } else {
        sum_hint(word)
    }
}

// What is told of the marks of other sums.
fn sum_hint(word: &[u8]) -> Option<&'static [u8]>
    ensures { option_map (λ text. text.now) result ≡ sum_hint word.now }
{
    if has_bracket(word) {
        Some(b"; there are no brackets")
    } else if has_star(word) {
        Some(b"; a sum has `+` and `-` alone")
    } else {
        None
    }
}

fn has_bracket(word: &[u8]) -> bool
    ensures { result ≡ has_bracket word.now }
{
    word.iter().any(|byte| *byte == b'(' || *byte == b')')
}

fn has_star(word: &[u8]) -> bool
    ensures { result ≡ has_star word.now }
{
    word.iter().any(|byte| *byte == b'*')
}

fn start_hint(word: &[u8]) -> Option<&'static [u8]>
    ensures { option_map (λ text. text.now) result ≡ start_hint word.now }
{
    if is_text(word, b"=") || is_text(word, b":=") {
        Some(b"; the value stands right behind the name, as `var v 0`")
    } else {
        None
    }
}

fn lists_hint(word: &[u8]) -> Option<&'static [u8]>
    ensures { option_map (λ text. text.now) result ≡ lists_hint word.now }
{
    if is_name(word) {
        Some(b"; a guard begins with `when`, and assignments with `do`")
    } else {
        None
    }
}

fn participants_hint(word: &[u8]) -> Option<&'static [u8]>
    ensures { option_map (λ text. text.now) result ≡ participants_hint word.now }
{
    if is_text(word, b",") {
        Some(b"; participants are parted by blanks alone")
    } else if is_text(word, b"if") || is_text(word, b":=") || is_relation(word) {
        Some(b"; a guard begins with `when`, and assignments with `do`")
    } else {
        None
    }
}

fn priority_hint(word: &[u8]) -> Option<&'static [u8]>
    ensures { option_map (λ text. text.now) result ≡ priority_hint word.now }
{
    if is_text(word, b">") {
        Some(b"; the lower one stands first, as `priority low < high`")
    } else if is_text(word, b",") {
        Some(b"; `<` stands between the two, as `priority low < high`")
    } else {
        None
    }
}

fn end_hint(word: &[u8]) -> Option<&'static [u8]>
    ensures { option_map (λ text. text.now) result ≡ end_hint word.now }
{
    if is_text(word, b";") || is_text(word, b",") {
        Some(b"; a line says one thing, and no mark ends it")
    } else {
        None
    }
}

fn if_mark(mark: &[u8], text: &'static [u8], word: &[u8]) -> Option<&'static [u8]>
    ensures { option_map (λ text. text.now) result ≡ if_mark mark.now text.now word.now }
{
    if is_text(word, mark) {
        Some(text)
    } else {
        None
    }
}
