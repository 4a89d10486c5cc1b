//! Where a line of a model's text stands.
ghost use Rattle.std.specs.Prelude.{◌≡◌, ◌+◌};
ghost use Rattle.bip_explain.specs.Placed.{said_words};
ghost use Rattle.bip_explain.specs.Scopes.{IsPastFirst, IsStandingAt, StandsBehind, ends_component};

use crate::placed::words_of;
use bip_model::{NumberedLines, is_text};

/// Where a line stands.
#[derive(Clone, Copy)]
pub(crate) enum Standing<'t> {
    /// No line before it says anything.
    First,
    Outside,
    /// Inside the component with this name, which is begun and not ended.
    Inside(&'t [u8]),
}

/// Where a line stands, behind lines that have no fault.
pub(crate) fn standing_at(text: &[u8], line: u64) -> Standing<'_>
    ensures { IsStandingAt text.now line result }
{
    if line == 0 {
        return Standing::First;
    }
    standing_behind(text, line - 1)
}

/// Where a line stands that is behind this one.
pub(crate) fn standing_behind(text: &[u8], last: u64) -> Standing<'_>
    ensures { IsStandingAt text.now (last + 1) result }
{
    let mut standing = Standing::First;
    for (number, bytes) in NumberedLines::of(text) {
        if last < number {
            return standing;
        }
        standing = standing.behind(bytes);
    }
    standing
}

/// Whether a line ends a component.
pub(crate) fn ends_component(line: &[u8]) -> bool
    ensures { result ≡ ends_component (said_words line.now) }
{
    let Some((keyword, rest)) = words_of(line) else {
        return false;
    };
    let mut rest = rest;
    match rest.next() {
        None => is_text(keyword.word, b"end"),
        Some(_) => false,
    }
}

impl<'t> Standing<'t> {
    /// Where the line behind one stands that stands here.
    pub(crate) fn behind(self, line: &'t [u8]) -> Standing<'t>
        ensures { StandsBehind self.entry (said_words line.now) result }
    {
        let Some((keyword, rest)) = words_of(line) else {
            return self;
        };
        let mut rest = rest;
        match rest.next() {
            Some(name) => {
                if is_text(keyword.word, b"component") {
                    Standing::Inside(name.word)
                } else {
                    self.past_first()
                }
            }
            None => {
                if is_text(keyword.word, b"end") {
                    Standing::Outside
                } else {
                    self.past_first()
                }
            }
        }
    }

    fn past_first(self) -> Standing<'t>
        ensures { IsPastFirst self.entry result }
    {
        match self {
            Standing::First => Standing::Outside,
            standing => standing,
        }
    }
}
