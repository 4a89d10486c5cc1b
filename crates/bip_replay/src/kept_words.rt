//! Words `C:N` that are kept as text, and counted up.
ghost use Rattle.std.specs.Prelude.{◌≡◌, ◌≤◌, ℕ, List, take};
ghost use Rattle.bip_model.specs.Naming.{IsName};
ghost use Rattle.bip_replay.specs.KeptWords.{IsKeptWord};

use bip_model::{MOST_NAME_BYTES, Number};
use itoa::Buffer;

/// The most bytes of a word: those of a name, a colon, and 20 digits.
const MOST_WORD_BYTES: usize = MOST_NAME_BYTES + 21;

/// The word of a component by a number, kept as text; none yet where that is 0.
#[derive(Clone, Copy)]
pub(crate) struct KeptWord {
    bytes: [u8; MOST_WORD_BYTES],
    len: u8,
    number: Number,
}

impl KeptWord {
    /// No word yet.
    pub fn none() -> KeptWord
        ensures { (name : List ℕ) → IsKeptWord name result }
    {
        KeptWord {
            bytes: [0; MOST_WORD_BYTES],
            len: 0,
            number: 0,
        }
    }

    /// The number that the word has.
    pub fn number(&self) -> Number
        ensures { result ≡ self.now.number }
    {
        self.number
    }

    /// The bytes of the word.
    pub fn as_bytes(&self) -> &[u8]
        requires { self.now.len ≤ MOST_WORD_BYTES }
        ensures { result.now ≡ take self.now.len self.now.bytes }
    {
        &self.bytes[..self.len as usize]
    }

    /// Makes it the word of its name by another number.
    pub fn count_to(&mut self, name: &[u8], number: Number)
        requires named { IsName name.now }
        requires is { IsKeptWord name.now self.old }
        ensures { IsKeptWord name.now self.new }
    {
        if !self.count_digit(number) {
            self.spell(name, number);
        }
    }

    // Counts it up to a number, where that changes the last digit alone; else it stays.
    fn count_digit(&mut self, number: Number) -> bool
        requires { self.old.len ≤ MOST_WORD_BYTES }
        ensures { (name : List ℕ) → IsKeptWord name self.old → IsKeptWord name self.new }
    {
        if self.number == 0 || self.number.checked_add(1) != Some(number) || self.len == 0 {
            return false;
        }
        let last = self.len as usize - 1;
        let digit = self.bytes[last];
        if digit >= b'9' {
            return false;
        }
        self.bytes[last] = digit + 1;
        self.number = number;
        true
    }

    // Spells it anew.
    #[inline(never)]
    fn spell(&mut self, name: &[u8], number: Number)
        requires { IsName name.now }
        ensures { IsKeptWord name.now self.new }
    {
        *self = KeptWord::of(name, number);
    }

    // The word of a name by a number.
    fn of(name: &[u8], number: Number) -> KeptWord
        requires { IsName name.now }
        ensures { IsKeptWord name.now result }
    {
        let mut buffer = Buffer::new();
        let digits = buffer.format(number).as_bytes();
        let start = name.len() + 1;
        let len = start + digits.len();
        let mut bytes = [0; MOST_WORD_BYTES];
        bytes[..name.len()].copy_from_slice(name);
        bytes[name.len()] = b':';
        bytes[start..len].copy_from_slice(digits);
        KeptWord {
            bytes,
            len: len as u8,
            number,
        }
    }
}
