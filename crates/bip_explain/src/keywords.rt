//! What a line of a model's text goes on with behind its first word.
ghost use Rattle.std.specs.Prelude.{◌≡◌};
ghost use Rattle.bip_explain.specs.Keywords.{behind_inside, behind_keyword, behind_outside};
ghost use Rattle.bip_explain.specs.Keywords.{spelling_behind};

use crate::expected::Expected;
use crate::scopes::Standing;
use bip_model::{Spelling, is_text};

/// What a line goes on with behind its first word; none where no line can begin so here.
pub(crate) fn behind_keyword(standing: Standing<'_>, keyword: &[u8]) -> Option<Expected>
    ensures { result ≡ behind_keyword standing.entry keyword.now }
{
    match standing {
        Standing::First => is_text(keyword, b"bip").then_some(Expected::One),
        Standing::Outside => behind_outside(keyword),
        Standing::Inside(_component) => behind_inside(keyword),
    }
}

/// The same outside of components.
pub(crate) fn behind_outside(keyword: &[u8]) -> Option<Expected>
    ensures { result ≡ behind_outside keyword.now }
{
    if is_text(keyword, b"component") {
        Some(Expected::Name)
    } else if is_text(keyword, b"interaction") {
        Some(Expected::InteractionName)
    } else if is_text(keyword, b"priority") {
        Some(Expected::LowInteraction)
    } else if is_text(keyword, b"class") {
        Some(Expected::ClassName)
    } else {
        None
    }
}

fn behind_inside(keyword: &[u8]) -> Option<Expected>
    ensures { result ≡ behind_inside keyword.now }
{
    if is_text(keyword, b"var") {
        Some(Expected::VariableName)
    } else if is_text(keyword, b"loc") || is_text(keyword, b"port") {
        Some(Expected::Name)
    } else if is_text(keyword, b"trans") {
        Some(Expected::TransitionPort)
    } else if is_text(keyword, b"end") {
        Some(Expected::End)
    } else {
        None
    }
}

/// How a line spells variables that begins with a word.
pub(crate) fn spelling_behind(keyword: &[u8]) -> Spelling
    ensures { result ≡ spelling_behind keyword.now }
{
    if is_text(keyword, b"interaction") {
        Spelling::Shared
    } else {
        Spelling::Own
    }
}
