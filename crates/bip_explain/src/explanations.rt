//! Explanations: what is said of a fault, in one line.
ghost use Rattle.std.specs.Prelude.{◌≡◌, ◌≤◌, ◌+◌, ◌++◌, [], false, length, map, take};
ghost use Rattle.std.specs.Prelude.{codes, if◌then◌else◌, nat_le, true};
ghost use Rattle.std.specs.Fmt.{decimal};
ghost use Rattle.std.specs.List.{list_all};
ghost use Rattle.bip_explain.specs.Explanations.{column_parts, is_open, is_shown, marked};
ghost use Rattle.bip_explain.specs.Explanations.{placed_parts};
ghost use Rattle.bip_explain.specs.Explanations.{said_byte, with_part, with_parts};

use crate::placed::Placed;
use arrayvec::ArrayVec;
use itoa::Buffer;
use std::marker;

/// How many bytes an explanation has at most.
pub const MOST_BYTES: usize = 480;

/// What stands for what there is no room for.
const DOTS: &[u8] = b"..";

/// How many bytes its whole parts have at most, so that the dots have room behind them.
const MOST_WHOLE: usize = 478;

/// How many bytes of a word are said at most.
const MOST_OF_WORD: usize = 48;

/// How many bytes a word has between its marks at most, with the dots behind it.
const MOST_MARKED: usize = 52;

/// What is said of a fault: one line, without its end, of bytes that a terminal shows as they are;
/// empty where there is nothing to say, or nothing is wanted. It is kept in place, and takes no
/// memory: a part of it is said whole, and where one has no room two dots end the line.
#[derive(Drop)]
pub struct Explanation {
    is_wanted: bool,
    is_cut: bool,
    said: ArrayVec<u8, MOST_BYTES>,
}

impl marker::Model for Explanation {
    ghost use Rattle.std.specs.Prelude.{◌≡◌, ◌<◌, ◌≤◌, length, true, false};
    ghost use Rattle.std.specs.List.{list_all};
    ghost use Rattle.bip_explain.specs.Explanations.{Telling, is_shown};

    ghost Value = { Telling };

    ghost view = { λ e.
        record { is_wanted = e.is_wanted; is_cut = e.is_cut; said = e.said.items } };

    ghost invariant = { λ e. (list_all is_shown e.said.items ≡ true)
        × (length e.said.items ≤ 480)
        × (e.is_cut ≡ false → length e.said.items ≤ 478)
        × (e.is_cut ≡ true → 0 < length e.said.items) };
}

impl Explanation {
    /// Nothing is said yet.
    pub fn new(is_wanted: bool) -> Explanation
        ensures { result ≡ record { is_wanted = is_wanted; is_cut = false; said = [] } }
    {
        Explanation {
            is_wanted,
            is_cut: false,
            said: ArrayVec::new(),
        }
    }

    /// What is said.
    pub fn as_bytes(&self) -> &[u8]
        ensures said { result.now ≡ self.now.said }
        ensures shown { list_all is_shown self.now.said ≡ true }
        ensures short { length self.now.said ≤ MOST_BYTES }
    {
        self.said.as_slice()
    }

    /// Whether it is wanted, and nothing is said yet.
    pub fn is_open(&self) -> bool
        ensures { result ≡ is_open self.now }
    {
        self.is_wanted && self.said.is_empty()
    }

    /// Says a text last, whole. A byte that a terminal doesn't show as it is becomes `?`. Where the
    /// text has no room, two dots are said in its place, and nothing more behind them.
    pub fn say(&mut self, text: &[u8])
        ensures { self.new ≡ with_part text.now self.old }
    {
        if self.is_wanted && !self.is_cut {
            if text.len() <= MOST_WHOLE - self.said.len() {
                push_all(&mut self.said, text);
            } else {
                push_all(&mut self.said, DOTS);
                self.is_cut = true;
            }
        }
    }

    /// Says a text in place of all that was said.
    pub fn say_instead(&mut self, text: &[u8])
        ensures { self.new ≡ with_part text.now (record self.old { is_cut = false; said = [] }) }
    {
        self.said.clear();
        self.is_cut = false;
        self.say(text);
    }

    /// Says a number last.
    pub fn say_number(&mut self, number: u64)
        ensures { self.new ≡ with_part (decimal number) self.old }
    {
        self.say(Buffer::new().format(number).as_bytes());
    }

    /// Says a word last, between marks. Of a long one its beginning is said.
    pub fn say_word(&mut self, word: &[u8])
        ensures { self.new ≡ with_part (marked word.now) self.old }
    {
        self.say(marked(word).as_slice());
    }

    /// Says a column last.
    pub(crate) fn say_column(&mut self, column: usize)
        ensures { self.new ≡ with_parts (column_parts column) self.old }
    {
        self.say(b"column ");
        self.say_number(column as u64);
        self.say(b": ");
    }

    /// Says a word last, behind its column.
    pub(crate) fn say_placed(&mut self, placed: Placed<'_>)
        ensures { self.new
            ≡ with_parts (placed_parts placed.entry) self.old }
    {
        self.say_column(placed.column);
        self.say_word(placed.word);
    }
}

// Puts bytes last, each as it is said.
fn push_all(said: &mut ArrayVec<u8, MOST_BYTES>, bytes: &[u8])
    requires { length said.old.items + length bytes.now ≤ 480 }
    ensures put { said.new.items ≡ said.old.items ++ map said_byte bytes.now }
    ensures len { length said.new.items ≡ length said.old.items + length bytes.now }
{
    for byte in bytes {
        said.push(said_byte(*byte));
    }
}

// A word between marks; of a long one its beginning.
fn marked(word: &[u8]) -> ArrayVec<u8, MOST_MARKED>
    ensures { result.items ≡ marked word.now }
{
    let mut marked = ArrayVec::new();
    marked.push(b'`');
    put(&mut marked, beginning(word));
    put(&mut marked, dots(word));
    marked.push(b'`');
    marked
}

fn put(marked: &mut ArrayVec<u8, MOST_MARKED>, bytes: &[u8])
    requires { length marked.old.items + length bytes.now ≤ 52 }
    ensures put { marked.new.items ≡ marked.old.items ++ bytes.now }
    ensures len { length marked.new.items ≡ length marked.old.items + length bytes.now }
{
    match marked.try_extend_from_slice(bytes) {
        Ok(()) => {}
        Err(_) => unreachable!(),
    }
}

// What is said of a word.
fn beginning(word: &[u8]) -> &[u8]
    ensures beginning { result.now ≡ take 48 word.now }
    ensures short { length result.now ≤ MOST_OF_WORD }
{
    if word.len() <= MOST_OF_WORD {
        word
    } else {
        &word[..MOST_OF_WORD]
    }
}

// What stands for the rest of it.
fn dots(word: &[u8]) -> &'static [u8]
    ensures dots { result.now ≡ (if nat_le (length word.now) 48 then [] else codes "..") }
    ensures short { length result.now ≤ 2 }
{
    if word.len() <= MOST_OF_WORD {
        b""
    } else {
        DOTS
    }
}

fn said_byte(byte: u8) -> u8
    ensures { result ≡ said_byte byte }
{
    if is_shown(byte) { byte } else { b'?' }
}

fn is_shown(byte: u8) -> bool
    ensures { result ≡ is_shown byte }
{
    b' ' <= byte && byte <= b'~'
}
