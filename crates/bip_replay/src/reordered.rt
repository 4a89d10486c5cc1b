//! Lines whose words are those that are expected, in any order, with blanks as they come.
ghost use Rattle.std.specs.Prelude.{◌≡◌, ◌<◌, ◌≤◌, length, All, IfSome, IsTrue};
ghost use Rattle.bip_model.specs.Parts.{Participant};
ghost use Rattle.bip_model.specs.Texts.{is_blank};
ghost use Rattle.bip_model.specs.declared.numbering.CompId.{CompId};
ghost use Rattle.bip_model.specs.declared.wants.TheConstants.{MOST_WANTS};
ghost use Rattle.bip_replay.specs.Expected.{BeginsWithWord, Expects, IsApart, IsBehindBlanks};
ghost use Rattle.bip_replay.specs.Expected.{IsNextAmong, TakesNextWord, TakesWants, TakesWords};
ghost use Rattle.bip_replay.specs.Expected.{comps_of};
ghost use Rattle.bip_replay.specs.Runs.{standing_of};

use crate::followers::Follower;
use crate::fronts::strip;
use crate::guesses::{Guesses, Stretch};
use arrayvec::ArrayVec;
use bip_model::{CompId, InterId, MOST_WANTS, PortId, Role, split_word};

/// Components whose words are still to come.
type Left = ArrayVec<CompId, MOST_WANTS>;

/// The interaction of a line that has the words of an expected grant, in any order; none of any
/// other line. One that doesn't begin with its first word isn't looked at further.
pub(crate) fn read_reordered(
    guesses: &mut Guesses,
    position: &Follower<'_>,
    line: &[u8],
) -> Option<InterId>
    ensures { IfSome result (λ a. Expects (standing_of position.now) line.now a.0) }
{
    let behind = strip(line, b"grant")?;
    if !is_apart(behind) {
        return None;
    }
    let (name, wants) = split_word(behind)?;
    let inter = guesses.find(position.model(), name)?;
    let rest = take_wants(guesses, position, inter, wants)?;
    if !skip_blanks(rest).is_empty() {
        return None;
    }
    Some(inter)
}

/// What follows the words of the wants that are expected behind an interaction.
fn take_wants<'t>(
    guesses: &mut Guesses,
    position: &Follower<'_>,
    inter: InterId,
    text: &'t [u8],
) -> Option<&'t [u8]>
    requires { inter.0 < length position.now.model.interactions }
    ensures { IfSome result (λ rest.
        TakesWants (standing_of position.now) inter.0 text.now rest.now) }
{
    let model = position.model();
    let participants = model.participants(inter);
    let looks = model.looks(inter);
    if participants.len() + looks.len() > MOST_WANTS {
        return None;
    }
    let moved = Stretch::of(inter, Role::Moved);
    let rest = take_words(guesses, position, moved, &mut comps_of(participants), text)?;
    if looks.is_empty() {
        return Some(rest);
    }
    let (see, rest) = split_word(rest)?;
    if see != b"see".as_slice() {
        return None;
    }
    let seen = Stretch::of(inter, Role::Seen);
    take_words(guesses, position, seen, &mut list_of(looks), rest)
}

/// The components of participants.
fn comps_of(participants: &[(CompId, PortId)]) -> Left
    requires { length participants.now ≤ MOST_WANTS }
    ensures { result.items ≡ comps_of participants.now }
{
    let mut comps = ArrayVec::new();
    for participant in participants {
        comps.push(participant.0);
    }
    comps
}

/// Components, in a list of their own.
fn list_of(comps: &[CompId]) -> Left
    requires { length comps.now ≤ MOST_WANTS }
    ensures { result.items ≡ comps.now }
{
    let mut list = ArrayVec::new();
    for comp in comps {
        list.push(*comp);
    }
    list
}

/// What follows the words of all these components, in any order.
fn take_words<'t>(
    guesses: &mut Guesses,
    position: &Follower<'_>,
    stretch: Stretch,
    left: &mut Left,
    text: &'t [u8],
) -> Option<&'t [u8]>
    requires { All (λ (c : CompId). c.0 < length position.now.model.component_names)
        left.old.items }
    ensures { IfSome result (λ rest.
        TakesWords (standing_of position.now) left.old.items text.now rest.now) }
{
    let mut rest = text;
    for _ in 0..left.len() {
        rest = take_word(guesses, position, stretch, left, rest)?;
    }
    Some(rest)
}

/// What follows the word of one of these components, which is taken out of them.
fn take_word<'t>(
    guesses: &mut Guesses,
    position: &Follower<'_>,
    stretch: Stretch,
    left: &mut Left,
    text: &'t [u8],
) -> Option<&'t [u8]>
    requires { All (λ (c : CompId). c.0 < length position.now.model.component_names)
        left.old.items }
    ensures { IfSome result (λ rest. TakesNextWord (standing_of position.now) left.old.items
        left.new.items text.now rest.now) }
{
    let word = skip_blanks(text);
    let (place, rest) = find_next(guesses, position, stretch, left.as_slice(), word)?;
    left.swap_remove(place);
    Some(rest)
}

/// The place of the component with whose word a text begins, and what follows that: the place where
/// it stood last is looked at first.
fn find_next<'t>(
    guesses: &mut Guesses,
    position: &Follower<'_>,
    stretch: Stretch,
    left: &[CompId],
    text: &'t [u8],
) -> Option<(usize, &'t [u8])>
    requires { All (λ (c : CompId). c.0 < length position.now.model.component_names) left.now }
    ensures { IfSome result (λ found. IsNextAmong (standing_of position.now) left.now found.0
        text.now found.1.now) }
{
    let place = guesses.place(stretch, left.len());
    if place < left.len()
        && let Some(rest) = strip_whole(position, left[place], text)
    {
        return Some((place, rest));
    }
    let found = try_each(position, left, text)?;
    guesses.keep_place(stretch, left.len(), found.0);
    Some(found)
}

/// The same, looking at each of them.
fn try_each<'t>(
    position: &Follower<'_>,
    left: &[CompId],
    text: &'t [u8],
) -> Option<(usize, &'t [u8])>
    requires { All (λ (c : CompId). c.0 < length position.now.model.component_names) left.now }
    ensures { IfSome result (λ found. IsNextAmong (standing_of position.now) left.now found.0
        text.now found.1.now) }
{
    for place in 0..left.len() {
        if let Some(rest) = strip_whole(position, left[place], text) {
            return Some((place, rest));
        }
    }
    None
}

/// What follows a component by the number of its next move, where the word ends there.
fn strip_whole<'t>(position: &Follower<'_>, comp: CompId, text: &'t [u8]) -> Option<&'t [u8]>
    requires { comp.0 < length position.now.model.component_names }
    ensures { IfSome result (λ rest.
        BeginsWithWord (standing_of position.now) comp text.now rest.now) }
{
    let rest = position.strip_word(comp, text)?;
    if !is_apart(rest) {
        return None;
    }
    Some(rest)
}

/// Whether a word ends before a text.
fn is_apart(text: &[u8]) -> bool
    ensures { IsTrue result → IsApart text.now }
{
    match text.first() {
        None => true,
        Some(byte) => is_blank(*byte),
    }
}

/// What follows the blanks at the front of a text.
fn skip_blanks(text: &[u8]) -> &[u8]
    ensures { IsBehindBlanks text.now result.now }
{
    let mut rest = text;
    while let Some((first, behind)) = rest.split_first() {
        if !is_blank(*first) {
            return rest;
        }
        rest = behind;
    }
    rest
}

fn is_blank(byte: u8) -> bool
    ensures { result ≡ is_blank byte }
{
    byte == b' ' || byte == b'\t'
}
