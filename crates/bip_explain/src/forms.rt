//! Faults of a line's form: the byte or the word that can't stand where it stands.
ghost use Rattle.std.specs.Prelude.{◌≡◌, ℕ, IfNone, IfSome, List, true};
ghost use Rattle.bip_model.specs.Texts.{is_plain, words};
ghost use Rattle.bip_explain.specs.Expected.{takes_all};
ghost use Rattle.bip_explain.specs.Explanations.{with_parts};
ghost use Rattle.bip_explain.specs.Forms.{IsByteReason, IsFormReason, form_parts, hint_of_byte};
ghost use Rattle.bip_explain.specs.Forms.{wanted_parts};
ghost use Rattle.bip_explain.specs.Placed.{IsBehind};

use crate::Explanation;
use crate::expected::Expected;
use crate::hints::hint_of;
use crate::placed::{Placed, PlacedWords};
use bip_model::{Spelling, is_plain};

/// Why the form of a line is wrong.
#[derive(Clone, Copy)]
pub(crate) enum FormReason<'t> {
    /// A byte, at a column, that can stand in no text.
    Byte(usize, u8),
    /// A word that can't stand where it stands, and what is wanted there.
    Word(Placed<'t>, Spelling, Expected),
    /// The line ends right before a column, where something more is wanted.
    End(usize, Spelling, Expected),
}

impl FormReason<'_> {
    /// Says what is wrong, and where.
    pub(crate) fn say(self, explanation: &mut Explanation)
        ensures { explanation.new ≡ with_parts (form_parts self.entry) explanation.old }
    {
        match self {
            FormReason::Byte(column, byte) => {
                explanation.say_column(column);
                explanation.say(b"byte ");
                explanation.say_number(u64::from(byte));
                explanation.say(b" can't stand in a text");
                explanation.say(hint_of_byte(byte));
            }
            FormReason::Word(placed, spelling, expected) => {
                explanation.say_placed(placed);
                explanation.say(b" stands where ");
                say_wanted(explanation, spelling, expected);
                hint_of(spelling, expected, placed.word).say(explanation);
            }
            FormReason::End(column, spelling, expected) => {
                explanation.say_column(column);
                explanation.say(b"the line ends where ");
                say_wanted(explanation, spelling, expected);
            }
        }
    }
}

fn say_wanted(explanation: &mut Explanation, spelling: Spelling, expected: Expected)
    ensures { explanation.new ≡ with_parts (wanted_parts spelling expected) explanation.old }
{
    explanation.say(expected.words(spelling));
    explanation.say(b" is wanted");
}

fn hint_of_byte(byte: u8) -> &'static [u8]
    ensures { result.now ≡ hint_of_byte byte }
{
    if byte == b'\r' {
        b"; lines end with a line feed alone"
    } else if byte == 0xEF {
        b"; is there a byte order mark, or a letter that isn't ASCII?"
    } else if 0x80 <= byte {
        b"; a text is ASCII"
    } else {
        b""
    }
}

/// The first byte of a line that can stand in none, if it has one.
pub(crate) fn find_byte(line: &[u8]) -> Option<FormReason<'_>>
    ensures some { IfSome result (IsByteReason line.now) }
    ensures none { IfNone result (is_plain line.now ≡ true) }
{
    for (place, byte) in line.iter().enumerate() {
        if !is_plain(&[*byte]) {
            return Some(FormReason::Byte(place + 1, *byte));
        }
    }
    None
}

/// The first of the words that follow which can't stand where it stands, or that the line ends too
/// early; none where they have their form.
pub(crate) fn find_word<'t>(
    spelling: Spelling,
    start: Expected,
    left: PlacedWords<'t>,
) -> Option<FormReason<'t>>
    ensures some { (front : List (List ℕ)) → IsBehind front left.entry.line.now left.entry.rest.now
        → IfSome result (IsFormReason spelling start front left.entry.line.now) }
    ensures none { IfNone result (takes_all spelling start (words left.entry.rest.now) ≡ true) }
{
    let end = left.end();
    let mut expected = start;
    for placed in left {
        match expected.after(spelling, placed.word) {
            Some(next) => expected = next,
            None => return Some(FormReason::Word(placed, spelling, expected)),
        }
    }
    if expected.can_end() {
        return None;
    }
    Some(FormReason::End(end, spelling, expected))
}
