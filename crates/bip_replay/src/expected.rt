//! Lines that are written as is expected: of an interaction, its parties by the numbers of their
//! next moves, in the one spelling of traces. Such a line is only compared with what it must be.
ghost use Rattle.std.specs.Prelude.{◌≡◌, ◌<◌, ◌++◌, [], ◌∷◌, length, All, IfSome};
ghost use Rattle.bip_model.specs.Parts.{Participant};
ghost use Rattle.bip_model.specs.declared.numbering.CompId.{CompId};
ghost use Rattle.bip_replay.specs.Expected.{BeginsWith, BeginsWithWants, Expects, HasNextWord};
ghost use Rattle.bip_replay.specs.Expected.{comps_of, next_word};
ghost use Rattle.bip_replay.specs.Runs.{standing_of};

use crate::Position;
use crate::followers::Follower;
use crate::fronts::strip;
use crate::guesses::Guesses;
use bip_model::{CompId, InterId, MOST_WANTS, PortId};
use itoa::Buffer;

/// The interaction of a line that is the one spelling of an expected grant; none of any other line,
/// which can be right all the same.
pub(crate) fn read_spelled(
    guesses: &mut Guesses,
    position: &Follower<'_>,
    line: &[u8],
) -> Option<InterId>
    ensures { IfSome result (λ a. Expects (standing_of position.now) line.now a.0) }
{
    let (name, wants) = split_name(strip(line, b"grant ")?)?;
    if name.is_empty() {
        return None;
    }
    let inter = guesses.find(position.model(), name)?;
    let rest = strip_wants(position, inter, wants)?;
    if !rest.is_empty() {
        return None;
    }
    Some(inter)
}

/// A text up to its first space, and the rest.
fn split_name(text: &[u8]) -> Option<(&[u8], &[u8])>
    ensures { IfSome result (λ parts. text.now ≡ parts.0.now ++ parts.1.now) }
{
    let end = text.iter().position(|byte| *byte == b' ')?;
    Some(text.split_at(end))
}

/// What follows the wants that are expected behind an interaction.
fn strip_wants<'t>(position: &Follower<'_>, inter: InterId, text: &'t [u8]) -> Option<&'t [u8]>
    requires { inter.0 < length position.now.model.interactions }
    ensures { IfSome result (λ rest.
        BeginsWithWants (standing_of position.now) inter.0 text.now rest.now) }
{
    let model = position.model();
    let participants = model.participants(inter);
    let looks = model.looks(inter);
    if participants.len() + looks.len() > MOST_WANTS {
        return None;
    }
    let rest = strip_moved(position, participants, text)?;
    if looks.is_empty() {
        return Some(rest);
    }
    strip_seen(position, looks, strip(rest, b" see")?)
}

/// What follows participants by the numbers of their next moves.
#[inline(never)]
fn strip_moved<'t>(
    position: &Follower<'_>,
    participants: &[(CompId, PortId)],
    text: &'t [u8],
) -> Option<&'t [u8]>
    requires { All (λ (q : Participant). q.0.0 < length position.now.model.component_names)
        participants.now }
    ensures { IfSome result (λ rest.
        BeginsWith (standing_of position.now) (comps_of participants.now) text.now rest.now) }
{
    let mut rest = text;
    for participant in participants {
        rest = strip_next(position, participant.0, rest)?;
    }
    Some(rest)
}

/// What follows components by the numbers of their next moves.
#[inline(never)]
fn strip_seen<'t>(position: &Follower<'_>, looks: &[CompId], text: &'t [u8]) -> Option<&'t [u8]>
    requires { All (λ (c : CompId). c.0 < length position.now.model.component_names) looks.now }
    ensures { IfSome result (λ rest.
        BeginsWith (standing_of position.now) looks.now text.now rest.now) }
{
    let mut rest = text;
    for comp in looks {
        rest = strip_next(position, *comp, rest)?;
    }
    Some(rest)
}

/// What follows a component by the number of its next move.
#[inline(always)]
fn strip_next<'t>(position: &Follower<'_>, comp: CompId, text: &'t [u8]) -> Option<&'t [u8]>
    requires { comp.0 < length position.now.model.component_names }
    ensures { IfSome result (λ rest.
        BeginsWith (standing_of position.now) (comp ∷ []) text.now rest.now) }
{
    position.strip_word(comp, strip(text, b" ")?)
}

/// What follows a component by the number of its next move, which is spelled anew.
#[inline(never)]
pub(crate) fn strip_anew<'t>(
    position: &Position<'_>,
    comp: CompId,
    text: &'t [u8],
) -> Option<&'t [u8]>
    requires { comp.0 < length position.now.model.component_names }
    ensures word { IfSome result (λ rest.
        text.now ≡ next_word (standing_of position.now) comp ++ rest.now) }
    ensures has { IfSome result (λ rest. HasNextWord (standing_of position.now) comp) }
{
    let name = position.model().component_names()[comp.0 as usize].as_bytes();
    let rest = strip(strip(text, name)?, b":")?;
    let number = position.used(comp).checked_add(1)?;
    strip(rest, Buffer::new().format(number).as_bytes())
}
