//! Lines behind one that declare what it names.
ghost use Rattle.std.specs.Prelude.{◌↔◌, IsTrue};
ghost use Rattle.bip_explain.specs.Later.{DeclareHere, IsLaterLine, StateOutside};
ghost use Rattle.bip_explain.specs.Placed.{said_words};

use crate::declarations::begins_with;
use crate::forms::find_word;
use crate::keywords::{behind_outside, spelling_behind};
use crate::placed::words_of;
use crate::scopes::Standing;
use bip_model::NumberedLines;

/// The number of the first line behind one that declares a name with a keyword, outside of
/// components.
pub(crate) fn later_line_with(text: &[u8], line: u64, keyword: &[u8], name: &[u8]) -> Option<u64>
    ensures { IsLaterLine text.now line keyword.now name.now result }
{
    let mut standing = Standing::First;
    for (number, bytes) in NumberedLines::of(text) {
        if line < number && declares_here(standing, bytes, keyword, name) {
            return Some(number);
        }
        standing = standing.behind(bytes);
    }
    None
}

// Whether a line that stands so declares a name outside of components.
fn declares_here(standing: Standing<'_>, line: &[u8], keyword: &[u8], name: &[u8]) -> bool
    ensures { IsTrue result
        ↔ DeclareHere standing.entry keyword.now name.now (said_words line.now) }
{
    match standing {
        Standing::Outside => begins_with(line, keyword, name) && states_outside(line),
        Standing::First | Standing::Inside(_) => false,
    }
}

// Whether the words of a line state something that can stand outside of components.
fn states_outside(line: &[u8]) -> bool
    ensures { IsTrue result ↔ StateOutside (said_words line.now) }
{
    let Some((keyword, rest)) = words_of(line) else {
        return false;
    };
    match behind_outside(keyword.word) {
        None => false,
        Some(start) => match find_word(spelling_behind(keyword.word), start, rest) {
            None => true,
            Some(_misplaced) => false,
        },
    }
}
