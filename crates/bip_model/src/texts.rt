//! What all texts have in common: lines, words and numbers (docs/ANSWERS.md, "Texts").
ghost use Rattle.std.specs.Prelude.{◌≡◌, ◌⊎◌, ◌<◌, ◌≤◌, ◌∷◌, ◌++◌, [], ◌==◌, not, position, true};
ghost use Rattle.std.specs.Prelude.{false, length, slice_index, IfNone, IfSome, IsTrue, OnOk};
ghost use Rattle.std.specs.Char.{is_ascii_digit};
ghost use Rattle.std.specs.List.{list_all};
ghost use Rattle.std.specs.Option.{option_map};
ghost use Rattle.std.specs.Str.Parse.{digits_value};
ghost use Rattle.bip_model.specs.Texts.{words_read, words_said, IsLineAndRest, IsWordAndRest};
ghost use Rattle.bip_model.specs.Texts.{is_blank, is_line_feed, is_numeral, is_plain, line_at};
ghost use Rattle.bip_model.specs.Texts.{lines, number_of, pair_of, spaced, value_said, words};

use memchr::memchr;
use std::alloc::AllocError;
use std::marker;

/// The most digits that a participation number is written with.
pub(crate) const NUMBER_DIGITS: usize = 20;

/// The most digits that a value is written with.
pub(crate) const VALUE_DIGITS: usize = 10;

/// The lines of a text, one after another, each with its number. Contracts see the list of those
/// that are left.
#[derive(Drop)]
pub struct NumberedLines<'a> {
    rest: &'a [u8],
    // The number of the line before the rest, 0 where it begins the text.
    before: u64,
}

impl<'a> marker::Model for NumberedLines<'a> {
    ghost use Rattle.std.specs.Prelude.{◌+◌, ◌<◌, ◌^◌, List, length, ℕ};
    ghost use Rattle.bip_model.specs.Texts.{lines, numbered};

    ghost Value = { List (ℕ × List ℕ) };

    ghost view = { λ l. numbered (l.before + 1) (lines l.rest.now) };

    // So that numbers fit.
    ghost invariant = { λ l. l.before + length l.rest.now < 2 ^ 64 };
}

impl<'a> NumberedLines<'a> {
    ghost use Rattle.bip_model.specs.Texts.{numbered_lines};

    /// The lines of a text, numbered from 1.
    pub fn of(text: &'a [u8]) -> NumberedLines<'a>
        ensures { result ≡ numbered_lines text.now }
    {
        NumberedLines {
            rest: text,
            before: 0,
        }
    }
}

impl<'a> Iterator for NumberedLines<'a> {
    ghost use Rattle.std.specs.Iterator.{YieldsFirstBy, item_count};

    type Item = (u64, &'a [u8]);

    ghost next_gives = { YieldsFirstBy (λ line. (line.0, line.1.now)) (λ left. left) };

    ghost remaining = { item_count (λ left. left) };

    fn next(&mut self) -> Option<(u64, &'a [u8])> {
        if self.rest.is_empty() {
            return None;
        }
        let (line, rest) = split_line(self.rest);
        self.rest = rest;
        self.before += 1;
        Some((self.before, line))
    }
}

/// The line of a text with this number, counted from 1; empty where the text has none.
pub fn line_at(text: &[u8], number: u64) -> &[u8]
    ensures { result.now ≡ line_at text.now number }
{
    for (at, line) in NumberedLines::of(text) {
        if at == number {
            return line;
        }
    }
    &[]
}

/// The first line of a text without its line feed, and what follows it.
pub fn split_line(text: &[u8]) -> (&[u8], &[u8])
    requires { 0 < length text.now }
    ensures lines { lines text.now ≡ result.0.now ∷ lines result.1.now }
    ensures whole { IsLineAndRest text.now result.0.now result.1.now }
    ensures shorter { length result.1.now < length text.now }
{
    match line_end(text) {
        None => (text, &[]),
        Some(end) => (&text[..end], &text[end + 1..]),
    }
}

/// Whether each byte of a line can stand in a text: words are of the bytes 21 to 7E, and spaces and
/// tabs part them.
pub fn is_plain(line: &[u8]) -> bool
    ensures { result ≡ is_plain line.now }
{
    line.iter()
        .all(|byte| byte.is_ascii_graphic() || is_blank(*byte))
}

/// The first word of a line, and what follows it; none where the line has no word.
pub fn split_word(line: &[u8]) -> Option<(&[u8], &[u8])>
    ensures none { IfNone result (words line.now ≡ []) }
    ensures word { IfSome result (λ parts. words line.now ≡ parts.0.now ∷ words parts.1.now) }
    ensures whole { IfSome result (λ parts. IsWordAndRest line.now parts.0.now parts.1.now) }
    ensures longer { IfSome result (λ parts. 0 < length parts.0.now) }
    ensures shorter { IfSome result (λ parts. length parts.1.now < length line.now) }
{
    let start = word_start(line)?;
    Some(split_first_word(&line[start..]))
}

/// What a line says, before its words are read.
pub enum Line<'a> {
    /// A byte that can stand in no line.
    BadByte,
    /// No word, or a comment.
    Nothing,
    /// The first word, and what follows it.
    Words(&'a [u8], &'a [u8]),
}

/// What a line says: it has a bad byte, also in a comment; it says nothing; or it has words.
pub fn read_words(line: &[u8]) -> Line<'_>
    ensures { words_read result ≡ words_said line.now }
{
    if !is_plain(line) {
        return Line::BadByte;
    }
    match split_word(line) {
        None => Line::Nothing,
        Some((word, _)) if word[0] == b'#' => Line::Nothing,
        Some((word, rest)) => Line::Words(word, rest),
    }
}

// The word at the front of a line that begins with one.
fn split_first_word(line: &[u8]) -> (&[u8], &[u8])
    requires longer { 0 < length line.now }
    requires begins { is_blank (slice_index line.now 0) ≡ false }
    ensures word { words line.now ≡ result.0.now ∷ words result.1.now }
    ensures whole { line.now ≡ result.0.now ++ result.1.now }
    ensures parted { (result.1.now ≡ []) ⊎ IsTrue (is_blank (slice_index result.1.now 0)) }
    ensures longer { 0 < length result.0.now }
    ensures shorter { length result.1.now < length line.now }
{
    match word_end(line) {
        None => (line, &[]),
        Some(end) => (&line[..end], &line[end..]),
    }
}

/// The participation number that a word spells: 1 to 20 digits, from 1 to 18446744073709551615.
pub fn parse_number(word: &[u8]) -> Option<u64>
    ensures { result ≡ number_of word.now }
{
    if !is_numeral(NUMBER_DIGITS, word) {
        return None;
    }
    match u64::try_from(value_of(word)) {
        Ok(value) if value > 0 => Some(value),
        _ => None,
    }
}

/// The value that a word spells: 1 to 10 digits, from 0 to 4294967295.
pub fn parse_value(word: &[u8]) -> Option<u32>
    ensures { result ≡ value_said word.now }
{
    if !is_numeral(VALUE_DIGITS, word) {
        return None;
    }
    u32::try_from(value_of(word)).ok()
}

/// What stands before and after the first such byte of a word; none where it has no such byte.
pub fn split_pair(word: &[u8], mark: u8) -> Option<(&[u8], &[u8])>
    ensures { option_map (λ parts. (parts.0.now, parts.1.now)) result ≡ pair_of mark word.now }
{
    let at = mark_at(word, mark)?;
    Some((&word[..at], &word[at + 1..]))
}

/// Puts a word last in a text, behind a space. Without memory what was put there is no word.
pub fn write_word(text: &mut Vec<u8>, word: &[u8]) -> Result<(), AllocError>
    ensures { OnOk result (text.new.items ≡ text.old.items ++ spaced word.now) }
{
    text.push(b' ')?;
    text.extend_from_slice(word)
}

fn line_end(text: &[u8]) -> Option<usize>
    ensures { result ≡ position is_line_feed text.now }
{
    memchr(b'\n', text)
}

fn word_start(line: &[u8]) -> Option<usize>
    ensures { result ≡ position (λ b. not (is_blank b)) line.now }
{
    line.iter().position(|byte| !is_blank(*byte))
}

fn word_end(line: &[u8]) -> Option<usize>
    ensures { result ≡ position is_blank line.now }
{
    line.iter().position(|byte| is_blank(*byte))
}

fn mark_at(word: &[u8], mark: u8) -> Option<usize>
    ensures { result ≡ position (λ b. b == mark) word.now }
{
    word.iter().position(|byte| *byte == mark)
}

fn is_blank(byte: u8) -> bool
    ensures { result ≡ is_blank byte }
{
    byte == b' ' || byte == b'\t'
}

fn is_numeral(most: usize, word: &[u8]) -> bool
    ensures { result ≡ is_numeral most word.now }
{
    !word.is_empty() && word.len() <= most && are_digits(word)
}

fn are_digits(word: &[u8]) -> bool
    ensures { result ≡ list_all is_ascii_digit word.now }
{
    word.iter().all(|byte| byte.is_ascii_digit())
}

fn value_of(digits: &[u8]) -> u128
    requires short { length digits.now ≤ NUMBER_DIGITS }
    requires digits { list_all is_ascii_digit digits.now ≡ true }
    ensures { result ≡ digits_value 10 digits.now }
{
    let mut value = 0;
    for digit in digits {
        value = value * 10 + u128::from(*digit - b'0');
    }
    value
}
