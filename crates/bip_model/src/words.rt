//! The words of a line, and what each can be by itself.
ghost use Rattle.std.specs.Prelude.{◌≡◌, ◌<◌, ◌≤◌, ◌∷◌, [], is_some, length, take, IfNone, IfSome};
ghost use Rattle.std.specs.Prelude.{List, ℕ, Option};
ghost use Rattle.bip_model.specs.Texts.{words};
ghost use Rattle.bip_model.specs.Words.{and_of, cut_at, do_of, each_of, name_of, one_or_more_of};
ghost use Rattle.bip_model.specs.Words.{participant_of, semicolon_of, when_of};

use crate::naming::is_text;
use crate::{Name, split_pair, split_word};
use std::marker;
use std::marker::PhantomData;

/// The byte between a component and its port or its variable.
pub const PORT_MARK: u8 = b'.';

/// Words of a line that stand together. Contracts see the list of them.
#[derive(Drop)]
pub struct Words<'a> {
    line: &'a [u8],
    count: usize,
}

impl<'a> marker::Model for Words<'a> {
    ghost use Rattle.std.specs.Prelude.{◌≤◌, List, length, take, ℕ};
    ghost use Rattle.bip_model.specs.Texts.{words};

    ghost Value = { List (List ℕ) };

    // The first ones of the line, so many.
    ghost view = { λ w. take w.count (words w.line.now) };

    ghost invariant = { λ w. w.count ≤ length (words w.line.now) };
}

impl<'a> Words<'a> {
    /// All words of a line.
    pub fn of(line: &'a [u8]) -> Words<'a>
        ensures { result ≡ words line.now }
    {
        Words {
            line,
            count: count_words(line),
        }
    }

    /// The first word, and those behind it; none where there is no word.
    pub fn split_first(&self) -> Option<(&'a [u8], Words<'a>)>
        ensures none { IfNone result (self.now ≡ []) }
        ensures some { IfSome result (λ parts. self.now ≡ parts.0.now ∷ parts.1) }
    {
        if self.count == 0 {
            return None;
        }
        let (word, line) = split_word(self.line)?;
        Some((
            word,
            Words {
                line,
                count: self.count - 1,
            },
        ))
    }

    /// The words before the first one that is such a mark, the mark, and the words behind it; none
    /// where no word is one.
    pub(crate) fn cut<M: Word>(&self) -> Option<(Words<'a>, M, Words<'a>)>
        ensures cut { result ≡ cut_at M.read_as self.now }
        ensures shorter { IfSome result (λ parts. length parts.2 < length self.now) }
    {
        let mut rest = self.first(self.count);
        let mut count = 0;
        while let Some((word, behind)) = rest.split_first() {
            if let Some(mark) = M::read(word) {
                return Some((self.first(count), mark, behind));
            }
            count += 1;
            rest = behind;
        }
        None
    }

    /// How many words there are.
    pub fn len(&self) -> usize
        ensures { result ≡ length self.now }
    {
        self.count
    }

    /// The same words.
    pub(crate) fn all(&self) -> Words<'a>
        ensures { result ≡ self.now }
    {
        self.first(self.count)
    }

    /// The first ones, so many.
    fn first(&self, count: usize) -> Words<'a>
        requires { count ≤ length self.now }
        ensures { result ≡ take count self.now }
    {
        Words {
            line: self.line,
            count,
        }
    }
}

fn count_words(line: &[u8]) -> usize
    ensures { result ≡ length (words line.now) }
{
    let mut count = 0;
    let mut rest = line;
    while let Some((_, behind)) = split_word(rest) {
        count += 1;
        rest = behind;
    }
    count
}

/// What a word of a line can be, by itself.
pub trait Word: Drop {
    ghost read_as: { List ℕ → Option Self };

    /// What the word is; none where it is no such thing.
    fn read(word: &[u8]) -> Option<Self>
        ensures { result ≡ read_as word.now };
}

impl Word for Name {
    ghost read_as = { name_of };

    #[tactic(auto, unfolding(crate::specs::Words::name_of))]
    fn read(word: &[u8]) -> Option<Name> {
        Name::of(word)
    }
}

/// A component with one of its ports, or of its variables.
impl Word for (Name, Name) {
    ghost read_as = { participant_of };

    fn read(word: &[u8]) -> Option<(Name, Name)> {
        let (component, port) = split_pair(word, PORT_MARK)?;
        Some((Name::read(component)?, Name::read(port)?))
    }
}

/// `when`, before a guard.
#[derive(Drop)]
pub struct When;

impl Word for When {
    ghost read_as = { when_of };

    fn read(word: &[u8]) -> Option<When> {
        is_text(word, b"when").then_some(When)
    }
}

/// `do`, before assignments.
#[derive(Drop)]
pub struct Do;

impl Word for Do {
    ghost read_as = { do_of };

    fn read(word: &[u8]) -> Option<Do> {
        is_text(word, b"do").then_some(Do)
    }
}

/// `and`, between comparisons.
#[derive(Drop)]
pub struct And;

impl Word for And {
    ghost read_as = { and_of };

    fn read(word: &[u8]) -> Option<And> {
        is_text(word, b"and").then_some(And)
    }
}

/// `;`, between assignments.
#[derive(Drop)]
pub struct Semicolon;

impl Word for Semicolon {
    ghost read_as = { semicolon_of };

    fn read(word: &[u8]) -> Option<Semicolon> {
        is_text(word, b";").then_some(Semicolon)
    }
}

/// What some words of a line are, each by itself. They are read when they are asked for, so none is
/// stored. Contracts see the list.
#[derive(Drop)]
pub struct Each<'a, W: Word> {
    words: Words<'a>,
    kind: PhantomData<W>,
}

impl<'a, W: Word> marker::Model for Each<'a, W> {
    ghost use Rattle.std.specs.Prelude.{[], IsSome, List, unwrap_or};
    ghost use Rattle.bip_model.specs.Words.{each_of};

    ghost Value = { List W };

    ghost view = { λ l. unwrap_or (each_of W.read_as l.words) [] };

    ghost invariant = { λ l. IsSome (each_of W.read_as l.words) };
}

impl<'a, W: Word> Each<'a, W> {
    /// What words are, each by itself; none where one is nothing.
    fn of(words: Words<'a>) -> Option<Each<'a, W>>
        ensures { result ≡ each_of W.read_as words.entry }
    {
        if !are_all::<W>(&words) {
            return None;
        }
        Some(Each {
            words,
            kind: PhantomData,
        })
    }

    /// How many there are.
    pub fn len(&self) -> usize
        ensures { result ≡ length self.now }
    {
        self.words.len()
    }
}

impl<'a, W: Word> Iterator for Each<'a, W> {
    ghost use Rattle.std.specs.Iterator.{YieldsFirst, item_count};

    type Item = W;

    ghost next_gives = { YieldsFirst (λ left. left) };

    ghost remaining = { item_count (λ left. left) };

    fn next(&mut self) -> Option<W> {
        let (word, rest) = self.words.split_first()?;
        self.words = rest;
        W::read(word)
    }
}

/// The same, at least one.
#[derive(Drop)]
pub struct OneOrMore<'a, W: Word> {
    items: Each<'a, W>,
}

impl<'a, W: Word> marker::Model for OneOrMore<'a, W> {
    ghost use Rattle.std.specs.Prelude.{List, length, ◌<◌};

    ghost Value = { List W };

    ghost view = { λ l. l.items };

    ghost invariant = { λ l. 0 < length l.items };
}

impl<'a, W: Word> OneOrMore<'a, W> {
    /// What words are, each by itself; none where there is no word, or one is nothing.
    pub fn of(words: &Words<'a>) -> Option<OneOrMore<'a, W>>
        ensures { result ≡ one_or_more_of W.read_as words.now }
    {
        if words.len() == 0 {
            return None;
        }
        Some(OneOrMore {
            items: Each::of(words.all())?,
        })
    }

    /// They, one after another.
    pub fn each(&self) -> Each<'a, W>
        ensures items { result ≡ self.now }
        ensures some { 0 < length result }
    {
        Each {
            words: self.items.words.all(),
            kind: PhantomData,
        }
    }
}

/// Whether each word can be read.
#[tactic(auto, using(crate::proofs::WordLemmas::all_are_each))]
fn are_all<W: Word>(words: &Words<'_>) -> bool
    ensures { result ≡ is_some (each_of W.read_as words.now) }
{
    let mut rest = words.all();
    while let Some((word, behind)) = rest.split_first() {
        if W::read(word).is_none() {
            return false;
        }
        rest = behind;
    }
    true
}
