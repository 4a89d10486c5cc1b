//! The words of a line, each with its column.
ghost use Rattle.std.specs.Prelude.{◌≡◌, ◌∷◌, ◌+◌, [], length, IfSome, IfNone};
ghost use Rattle.std.specs.Option.{option_map};
ghost use Rattle.bip_model.specs.Texts.{words};
ghost use Rattle.bip_explain.specs.Placed.{IsFirstOn, IsRestOf, first_four, first_three};
ghost use Rattle.bip_explain.specs.Placed.{first_two, said_words};

use bip_model::{Line, NumberedLines, read_words, split_word};

/// A word with its column, counted in bytes from 1.
#[derive(Clone, Copy)]
pub(crate) struct Placed<'t> {
    pub column: usize,
    pub word: &'t [u8],
}

/// The words of a line from some place on.
#[derive(Drop)]
pub(crate) struct PlacedWords<'t> {
    pub line: &'t [u8],
    rest: &'t [u8],
    ghost of_line: { IsRestOf line.now rest.now },
}

impl<'t> PlacedWords<'t> {
    /// All words of a line.
    pub(crate) fn of(line: &'t [u8]) -> PlacedWords<'t>
        ensures line { result.line.now ≡ line.now }
        ensures rest { result.rest.now ≡ line.now }
    {
        PlacedWords { line, rest: line }
    }

    /// The column behind the line's last byte.
    pub(crate) fn end(&self) -> usize
        ensures { result ≡ length self.now.line.now + 1 }
    {
        self.line.len() + 1
    }
}

impl<'t> Iterator for PlacedWords<'t> {
    ghost use Rattle.std.specs.Prelude.{◌≡◌};
    ghost use Rattle.std.specs.Iterator.{item_count};
    ghost use Rattle.bip_model.specs.Texts.{words};
    ghost use Rattle.bip_explain.specs.Placed.{TakesWord};

    type Item = Placed<'t>;

    ghost next_gives = { λ old given new. (new.line.now ≡ old.line.now)
        × TakesWord old.line.now old.rest.now given new.rest.now };

    ghost remaining = { item_count (λ left. words left.rest.now) };

    fn next(&mut self) -> Option<Placed<'t>> {
        let (word, rest) = split_word(self.rest)?;
        let column = self.line.len() - rest.len() - word.len() + 1;
        self.rest = rest;
        Some(Placed { column, word })
    }
}

/// The first word of a line that says something, and the words behind it.
pub(crate) fn words_of(line: &[u8]) -> Option<(Placed<'_>, PlacedWords<'_>)>
    ensures none { IfNone result (said_words line.now ≡ []) }
    ensures first { IfSome result (λ parts. IsFirstOn line.now parts.0) }
    ensures line { IfSome result (λ parts. parts.1.line.now ≡ line.now) }
    ensures words { IfSome result (λ parts.
        said_words line.now ≡ parts.0.word.now ∷ words parts.1.rest.now) }
{
    match read_words(line) {
        Line::Words(_, _) => {
            let mut words = PlacedWords::of(line);
            let first = words.next()?;
            Some((first, words))
        }
        Line::BadByte | Line::Nothing => None,
    }
}

/// The first two words of a line, as most of them are told apart.
pub(crate) fn two_words(line: &[u8]) -> Option<(&[u8], &[u8])>
    ensures { option_map (λ pair. (pair.0.now, pair.1.now)) result
        ≡ first_two (said_words line.now) }
{
    let (first, mut words) = words_of(line)?;
    let second = words.next()?;
    Some((first.word, second.word))
}

/// The first three words of a line.
pub(crate) fn three_words(line: &[u8]) -> Option<(&[u8], &[u8], &[u8])>
    ensures { option_map (λ w. (w.0.now, w.1.now, w.2.now)) result
        ≡ first_three (said_words line.now) }
{
    let (first, mut words) = words_of(line)?;
    let second = words.next()?;
    let third = words.next()?;
    Some((first.word, second.word, third.word))
}

/// The first four words of a line.
pub(crate) fn four_words(line: &[u8]) -> Option<(&[u8], &[u8], &[u8], &[u8])>
    ensures { option_map (λ w. (w.0.now, w.1.now, w.2.now, w.3.now)) result
        ≡ first_four (said_words line.now) }
{
    let (first, mut words) = words_of(line)?;
    let second = words.next()?;
    let third = words.next()?;
    let fourth = words.next()?;
    Some((first.word, second.word, third.word, fourth.word))
}
